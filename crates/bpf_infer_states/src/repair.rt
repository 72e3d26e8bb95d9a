//! Changes of a state under which dead code isn't refused.

use bpf_infer_base::{Task, WRITABLE};
use bpf_insn::{AluOp, Insn, Operand, Reg, Width};
use bpf_num::Num;
use bpf_state::{Area, Pointer, RegState, SlotState, State};

/// Where in the frame an access of dead code is led to.
const MIDDLE: i64 = -256;

/// Gives each register that isn't known a number. Whether there is one.
fn fill_registers(state: &mut State) -> bool {
    let mut is_filled = false;
    for i in 0..WRITABLE {
        let r = Reg::numbered(i as u8);
        if matches!(state.reg(r), RegState::Any) {
            state.set_reg(r, RegState::Num(Num::constant(0)));
            is_filled = true;
        }
    }
    is_filled
}

/// Gives each slot of which not all bytes are known a number. Whether there is one.
fn fill_slots(state: &mut State) -> bool {
    let mut is_filled = false;
    for k in 1..65u8 {
        if matches!(state.slot(k), SlotState::Bytes(_)) {
            state.set_slot(k, SlotState::Word(Num::top()));
            is_filled = true;
        }
    }
    is_filled
}

/// Gives what isn't known a number: each register, and each slot too if that is asked for. Whether there is one.
pub fn fill(state: &mut State, fills_slots: bool) -> bool {
    let is_filled = fill_registers(state);
    fills_slots && fill_slots(state) || is_filled
}

/// The register that held before an instruction what one holds after it.
fn source(insn: &Insn, r: Reg) -> Reg {
    if let Insn::Alu {
        op: AluOp::Mov,
        width: Width::W64,
        dst,
        src: Operand::Reg(src),
    } = *insn
    {
        return if dst == r { src } else { r };
    }
    r
}

/// The register at a label whose value is the base of the access at a slot behind it.
fn traced(task: Task, label: u32, slot: u32, base: Reg) -> Reg {
    let mut r = base;
    for before in (label..slot).rev() {
        if let Some(insn) = task.program.at(before) {
            r = source(insn, r);
        }
    }
    r
}

/// Makes a register point into the frame, such that an access at an offset from it lies in the middle, among known slots; r10
/// stays. Whether something changed.
fn point(state: &mut State, base: Reg, off: i16) -> bool {
    let is_filled = fill_slots(state);
    if base.is_frame_pointer() {
        return is_filled;
    }
    let at = MIDDLE.saturating_sub((off as i64) & !7);
    let has_pointed = match state.reg(base) {
        RegState::Ptr(p) => p.area.is_frame() && p.lo == at && p.hi == at,
        RegState::Any | RegState::Num(_) => false,
    };
    let pointer = Pointer {
        area: Area::Frame,
        lo: at,
        hi: at,
    };
    state.set_reg(base, RegState::Ptr(pointer));
    is_filled || !has_pointed
}

/// Makes the base of the access at a slot point into the frame by a change of the state at the label before it. Whether that
/// is a change.
fn lead(task: Task, label: u32, slot: u32, state: &mut State) -> bool {
    match task.program.at(slot).and_then(|insn| insn.access()) {
        Some(access) => point(state, traced(task, label, slot, access.base), access.off),
        None => false,
    }
}

/// The registers that an instruction takes numbers from.
fn operands_of(insn: &Insn) -> [Option<Reg>; 2] {
    match *insn {
        Insn::Alu { dst, src, .. } => [Some(dst), register_in(src)],
        Insn::JumpIf {
            dst,
            src,
            off: _off,
            ..
        } => [Some(dst), register_in(src)],
        Insn::Neg { dst, .. } | Insn::End { dst, .. } => [Some(dst), None],
        Insn::MovSx { src, .. } => [Some(src), None],
        Insn::Store { src, off: _off, .. } => [Some(src), None],
        Insn::Atomic { src, off: _off, .. } => [Some(src), Some(Reg::R0)],
        Insn::Exit => [Some(Reg::R0), None],
        Insn::LoadImm64 { .. } | Insn::CallLocal { .. } => [None, None],
        Insn::Load { .. } | Insn::LoadSx { .. } | Insn::StoreImm { .. } => [None, None],
        Insn::Ja { .. } | Insn::JaLong { .. } => [None, None],
    }
}

/// The register of a second operand, if it is one.
fn register_in(operand: Operand) -> Option<Reg> {
    match operand {
        Operand::Imm(_imm) => None,
        Operand::Reg(r) => Some(r),
    }
}

/// Makes what the instruction at a slot takes numbers from numbers, where they are pointers, by a change of the state at the
/// label before it. Whether that is a change.
fn make_numbers(task: Task, label: u32, slot: u32, state: &mut State) -> bool {
    let Some(insn) = task.program.at(slot) else {
        return false;
    };
    let mut is_changed = false;
    for r in operands_of(insn).into_iter().flatten() {
        is_changed = make_number(state, traced(task, label, slot, r)) || is_changed;
    }
    is_changed
}

/// Makes what a register holds a number, if it is a pointer and no r10. Whether that is a change.
fn make_number(state: &mut State, r: Reg) -> bool {
    let is_pointer = matches!(state.reg(r), RegState::Ptr(_)) && !r.is_frame_pointer();
    if is_pointer {
        state.set_reg(r, RegState::Num(Num::top()));
    }
    is_pointer
}

/// Makes the operands and the base of the instruction at a slot what it takes, by a change of the state at the label before it.
/// Whether that is a change.
pub fn change_kinds(task: Task, label: u32, slot: u32, state: &mut State) -> bool {
    make_numbers(task, label, slot, state) || lead(task, label, slot, state)
}
