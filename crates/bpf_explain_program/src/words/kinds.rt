//! Registers of which nothing is known, and operands of the wrong kinds.

use crate::known::{Known, Name, Offset, known_register};
use crate::sight::Sight;
use crate::words::origins::tell_lost;
use crate::words::register;
use bpf_insn::{AluOp, Code, Insn, Operand, Reg, Width};
use bpf_state::{Mistake, Place, State, mistake_of_kinds, unset_register};
use bpf_streams::Tell;

/// C3: a register that is read may be uninitialised.
pub fn tell_unknown<C: Code, W: Tell>(out: &mut W, sight: &Sight<'_, C>) {
    if let Some(reg) = unset_register(&sight.site.insn, &sight.before) {
        let name = register(reg);
        write!(out, "reads {name}, of which nothing is known");
    }
}

/// What some registers hold, as `r1 is ctx0..0 and r2 is 8`.
pub fn tell_held<W: Tell>(out: &mut W, state: &State, registers: [Option<Reg>; 3]) {
    let mut is_first = true;
    for reg in registers.into_iter().flatten() {
        let and = if is_first { "" } else { " and " };
        let (name, held) = (register(reg), known_register(state.reg(reg)));
        write!(out, "{and}{name} is {held}");
        is_first = false;
    }
}

/// A rule, and what some registers hold.
fn tell_registers<W: Tell>(out: &mut W, rule: &str, state: &State, registers: [Option<Reg>; 3]) {
    write!(out, "{rule}: ");
    tell_held(out, state, registers);
}

/// A rule, and what the registers that an instruction reads hold.
fn tell_operands<C: Code, W: Tell>(out: &mut W, rule: &str, sight: &Sight<'_, C>) {
    tell_registers(out, rule, &sight.before, sight.site.insn.registers_read());
}

/// Why an operand must be a number.
fn number_rule(insn: &Insn) -> &'static str {
    if let Insn::Exit = *insn {
        return "the result must be a number";
    }
    let Insn::Alu { width, op, src, .. } = *insn else {
        return "this operation takes numbers alone";
    };
    match (width, op, src) {
        (Width::W32, _, _) => "an operation at 32 bits takes numbers alone",
        (_, AluOp::Or, Operand::Reg(_)) => {
            "this operation takes numbers alone, also where a compiler adds an index by it"
        }
        _ => "this operation takes numbers alone",
    }
}

/// A register that holds no number, and the other operands of arithmetic.
fn tell_number_wanted<C: Code, W: Tell>(out: &mut W, sight: &Sight<'_, C>, reg: Reg) {
    let insn = &sight.site.insn;
    let rule = number_rule(insn);
    if insn.access().is_some() {
        tell_registers(out, rule, &sight.before, [Some(reg), None, None]);
    } else {
        tell_operands(out, rule, sight);
    }
}

/// The spilled pointer in a slot that is read in part, or changed.
fn tell_part<C: Code, W: Tell>(out: &mut W, sight: &Sight<'_, C>, slot: u8) {
    let place = Place::Slot(slot);
    let (name, held) = (Name(place), Known(sight.before.content(place)));
    let (deed, rule) = if matches!(sight.site.insn, Insn::Atomic { .. }) {
        ("change", "an atomic operation takes numbers alone")
    } else {
        ("read a part of", "a pointer is read as 8 bytes at its slot")
    };
    write!(
        out,
        "may {deed} {name}, which holds the pointer {held}: {rule}"
    );
}

/// A pointer that isn't stored as a whole, and where to.
fn tell_stored<C: Code, W: Tell>(out: &mut W, sight: &Sight<'_, C>) {
    let rule = "a pointer is stored as 8 bytes at one known multiple of 8 of the frame";
    let [base, source, _] = sight.site.insn.registers_read();
    tell_registers(out, rule, &sight.before, [source, base, None]);
}

/// An address that isn't in a pointer.
fn tell_address<C: Code, W: Tell>(out: &mut W, sight: &Sight<'_, C>) {
    let Some(access) = sight.site.insn.access() else {
        return;
    };
    let (name, off) = (register(access.base), Offset(i64::from(access.off)));
    let held = known_register(sight.before.reg(access.base));
    write!(
        out,
        "the address {name} {off} isn't in a pointer: {name} is {held}"
    );
    tell_lost(out, sight, access.base);
}

/// C4: operands or slots are of the wrong kinds.
pub fn tell_kinds<C: Code, W: Tell>(out: &mut W, sight: &Sight<'_, C>) {
    let Some(mistake) = mistake_of_kinds(&sight.site.insn, &sight.before) else {
        return;
    };
    let rule = match mistake {
        Mistake::NotNumber(reg) => return tell_number_wanted(out, sight, reg),
        Mistake::NotPointer(_) => return tell_address(out, sight),
        Mistake::StoredInPart => return tell_stored(out, sight),
        Mistake::ReadInPart(slot) => return tell_part(out, sight, slot),
        Mistake::PointersAdded => "two pointers can't be added",
        Mistake::PointerSubtracted => "a pointer can't be subtracted from a number",
        Mistake::OtherAreas => "only pointers of one kind can be subtracted",
        Mistake::WrongTest => {
            "a pointer is compared by == and != at 64 bits alone, with a pointer of its kind"
        }
    };
    tell_operands(out, rule, sight);
}
