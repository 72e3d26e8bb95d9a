//! Where the operands of a refused instruction come from: tests of copies, frame pointers that were handed over, and lost tables.

use crate::graph::call_target;
use crate::known::Offset;
use crate::sight::Sight;
use crate::trail::{RegisterUse, Trail};
use crate::words::register;
use arrayvec::ArrayVec;
use bpf_check::{Index, label_at};
use bpf_insn::{Code, Insn, MAX_SLOTS, Reg};
use bpf_streams::Tell;

/// How many slots an instruction may lie back that gave a register its value before the last label.
const LOOKED_BACK: u32 = 4096;

// ---- tests of copies

/// Tells of a test of another copy of a part: `slot 36 tests r4, which is r3 + 8; r3 itself isn't bounded by it`.
fn tell_beside<W: Tell>(out: &mut W, test: RegisterUse, part: RegisterUse) {
    let by = test.sum.offset.saturating_sub(part.sum.offset);
    let is_short = test.sum.is_short || part.sum.is_short;
    let link = if by == 0 && !is_short {
        "a copy of"
    } else {
        "which is"
    };
    let (slot, tested, name) = (test.slot, register(test.reg), register(part.reg));
    write!(out, "; slot {slot} tests {tested}, {link} {name}");
    if by != 0 {
        let by = Offset(by);
        write!(out, " {by}");
    }
    let bits = if is_short { " in 32 bits" } else { "" };
    write!(out, "{bits}; {name} itself isn't bounded by it");
}

/// Tells of a part that a test of another copy left unbounded. Whether there is one.
fn tell_part<W: Tell>(out: &mut W, trail: &Trail, part: RegisterUse) -> bool {
    let Some(test) = trail.test_beside(part) else {
        return false;
    };
    if test.reg != part.reg {
        tell_beside(out, test, part);
        return true;
    }
    let (slot, name, sum) = (test.slot, register(part.reg), part.slot);
    if slot > sum {
        write!(
            out,
            "; slot {slot} tests {name} behind slot {sum}, which adds it: test it before"
        );
    }
    slot > sum
}

/// What the instructions since the last label tell in front of an instruction.
fn trail_to<C: Code>(sight: &Sight<'_, C>) -> Option<Trail> {
    let label = sight.here?.label.slot;
    Some(Trail::between(sight.program, label, sight.site.here.slot))
}

/// Tells which test of a copy doesn't bound what was added to a register, if there is one.
pub fn tell_sum_tested<C: Code, W: Tell>(out: &mut W, sight: &Sight<'_, C>, base: Reg) {
    let Some(trail) = trail_to(sight) else {
        return;
    };
    for part in trail.held(base).parts.into_iter().flatten() {
        if tell_part(out, &trail, part) {
            return;
        }
    }
}

/// Tells which test of a copy doesn't bound an operand of a sum, if there is one.
pub fn tell_operand_tested<C: Code, W: Tell>(out: &mut W, sight: &Sight<'_, C>) {
    let Some(trail) = trail_to(sight) else {
        return;
    };
    for reg in sight.site.insn.registers_read().into_iter().flatten() {
        if tell_part(out, &trail, trail.used(sight.site.here.slot, reg)) {
            return;
        }
    }
}

// ---- lost tables

/// The slot in front of another one that gave a register its value, if it is a 64-bit 0.
fn zero_before<C: Code>(program: &C, slot: u32, reg: Reg) -> Option<u32> {
    for back in 1..=slot.min(LOOKED_BACK) {
        let at = slot.saturating_sub(back);
        if let Some(insn) = program.insn(at) {
            if insn.register_written() == Some(reg) {
                let is_zero = matches!(insn, Insn::LoadImm64 { value: 0, .. });
                return if is_zero { Some(at) } else { None };
            }
        }
    }
    None
}

/// The slot of the 64-bit 0 that a register is computed from.
fn zero_of<C: Code>(sight: &Sight<'_, C>, reg: Reg) -> Option<u32> {
    let label = sight.here?.label.slot;
    let held = trail_to(sight)?.held(reg);
    if held.zero.is_some() {
        return held.zero;
    }
    if let Some(before) = held.sum.register_before() {
        return zero_before(sight.program, label, before);
    }
    for part in held.parts.into_iter().flatten() {
        if let Some(before) = part.sum.register_before() {
            let zero = zero_before(sight.program, label, before);
            if zero.is_some() {
                return zero;
            }
        }
    }
    None
}

/// Tells of the 64-bit 0 that an address is computed from, if it is.
pub fn tell_lost<C: Code, W: Tell>(out: &mut W, sight: &Sight<'_, C>, base: Reg) {
    if let Some(slot) = zero_of(sight, base) {
        write!(
            out,
            "; slot {slot} loads a 64-bit 0, mostly the address of a table that a lost relocation left out"
        );
    }
}

// ---- frame pointers

/// A call that hands a pointer into its own frame over.
#[derive(Clone, Copy)]
struct Handing {
    slot: u32,
    first: u32,
    reg: Reg,
}

impl Default for Handing {
    fn default() -> Self {
        Handing {
            slot: 0,
            first: 0,
            reg: Reg::R0,
        }
    }
}

/// The first calls that hand pointers into their own frames over.
#[derive(Drop)]
pub struct Handings {
    found: ArrayVec<Handing, 256>,
}

impl Handings {
    /// Takes note of the registers that a call hands over.
    fn note(&mut self, trail: &Trail, slot: u32, first: u32) {
        for number in 1..6u8 {
            let reg = Reg::numbered(number);
            if let Some(Reg::R10) = trail.held(reg).sum.register_before() {
                let _ = self.found.try_push(Handing { slot, first, reg });
            }
        }
    }

    /// Those of a program, as far as the instructions since the label before each tell.
    pub fn of<C: Code>(program: &C, certificate: &Index) -> Self {
        let mut handings = Handings {
            found: ArrayVec::new(),
        };
        let mut trail = Trail::new();
        for slot in 0..program.slots().min(MAX_SLOTS as u32) {
            if label_at(certificate, slot).is_some() {
                trail = Trail::new();
            }
            if let Some(insn) = program.insn(slot) {
                if let Some(first) = call_target(slot, &insn) {
                    handings.note(&trail, slot, first);
                }
                trail.follow(slot, &insn);
            }
        }
        handings
    }

    /// The call that hands a register over to a function.
    fn to(&self, first: u32, reg: Reg) -> Option<u32> {
        for handing in self.found.iter() {
            if handing.first == first && handing.reg == reg {
                return Some(handing.slot);
            }
        }
        None
    }
}

/// Tells of the call that hands a frame pointer over in the register of which nothing is known.
pub fn tell_handed<C: Code, W: Tell>(
    out: &mut W,
    sight: &Sight<'_, C>,
    reg: Reg,
    handings: &Handings,
) {
    let (Some(function), Some(trail)) = (sight.site.here.function, trail_to(sight)) else {
        return;
    };
    let Some(before) = trail.held(reg).sum.register_before() else {
        return;
    };
    if let Some(slot) = handings.to(function.first, before) {
        let name = register(before);
        write!(
            out,
            "; slot {slot} hands a pointer into the caller's frame over in {name}, and calls take such away: hand over numbers"
        );
    }
}
