//! What is known after an instruction that is at fault.

ghost use Rattle.bpf_state.specs.State.{IsRegister};

use crate::places::slots_touched;
use bpf_insn::{Access, Insn, Size};
use bpf_num::Num;
use bpf_state::{
    FARTHEST, Moved, Pointer, RegState, SlotState, State, any_number, any_signed, far_pointer,
};

/// The nearest offset that a pointer may have.
fn near(offset: i128) -> i64 {
    match i64::try_from(offset) {
        Ok(offset) => offset.max(-FARTHEST).min(FARTHEST),
        Err(_) => if offset < 0 { -FARTHEST } else { FARTHEST },
    }
}

/// A pointer that was moved too far, cut to the farthest offsets.
fn cut(made: Moved) -> RegState
    ensures { IsRegister result }
{
    let lo = near(made.lo);
    let hi = near(made.hi).max(lo);
    RegState::Ptr(Pointer {
        area: made.area,
        lo,
        hi,
    })
}

/// Any number, or a pointer where one was moved too far.
fn result_of(insn: &Insn, state: &State) -> RegState
    ensures { IsRegister result }
{
    match far_pointer(insn, state) {
        Some(made) => cut(made),
        None => RegState::Num(Num::top()),
    }
}

/// What an instruction puts into the register that it writes, if it does no wrong.
fn value_after(insn: &Insn, state: &State) -> RegState
    ensures { IsRegister result }
{
    match *insn {
        Insn::Alu { .. } => result_of(insn, state),
        Insn::Load {
            size,
            off: _off,
            ..
        } => RegState::Num(any_number(size).unwrap_or(Num::top())),
        Insn::LoadSx {
            size,
            off: _off,
            ..
        } => RegState::Num(any_signed(size).unwrap_or(Num::top())),
        Insn::Atomic {
            wide,
            off: _off,
            ..
        } => RegState::Num(any_number(Size::of_word(wide)).unwrap_or(Num::top())),
        Insn::Neg { .. } | Insn::MovSx { .. } | Insn::End { .. } | Insn::LoadImm64 { .. } => {
            RegState::Num(Num::top())
        }
        Insn::Store { .. } | Insn::StoreImm { .. } | Insn::CallLocal { .. } => {
            RegState::Num(Num::top())
        }
        Insn::Ja { .. } | Insn::JaLong { .. } | Insn::JumpIf { .. } | Insn::Exit => {
            RegState::Num(Num::top())
        }
    }
}

/// Forgets what the slots held that an access may write.
fn spoil(state: &mut State, access: Access) {
    let (first, end) = slots_touched(access, state);
    for k in first..end {
        spoil_slot(state, k);
    }
}

/// Forgets what a slot holds; a number is any number then.
fn spoil_slot(state: &mut State, k: u8) {
    if 1 <= k && k <= 64 {
        match state.slot(k) {
            SlotState::Bytes(_) => {}
            SlotState::Word(_) => state.set_slot(k, SlotState::Word(Num::top())),
            SlotState::Spilled(_) => state.set_slot(k, SlotState::Bytes(0)),
        }
    }
}

/// Makes the state at an instruction that is at fault one after it, as if it did no wrong.
pub fn go_on(insn: &Insn, state: &mut State) {
    let value = value_after(insn, state);
    if let Some(access) = insn.access() {
        if access.writes {
            spoil(state, access);
        }
    }
    if let Some(r) = insn.register_written() {
        if !r.is_frame_pointer() {
            state.set_reg(r, value);
        }
    }
}
