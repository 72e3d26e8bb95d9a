//! The join of two states. With thresholds it is their widening (Cousot and Cousot, Abstract interpretation, 1977), by
//! which bounds that move are moved on to the next one (`widen.rt`).

ghost use Rattle.std.specs.Prelude.{◌≤ℤ◌, IfSome};
ghost use Rattle.bpf_state.specs.State.{IsRegister, IsPointer, IsSlot};

use crate::places::WRITABLE;
use crate::widen::Stops;
use bpf_insn::Reg;
use bpf_num::Num;
use bpf_state::{Pointer, RegState, SlotState, State};

/// What is known of a number that is one of two.
fn join_num(old: Num, new: Num, stops: Option<&Stops>) -> Num {
    let joined = old.join(new);
    match stops {
        Some(stops) => stops.number(old, joined),
        None => joined,
    }
}

/// The lower of two offsets, moved on to a stop if it moved.
fn least(old: i64, new: i64, stops: Option<&Stops>) -> i64
    ensures old { result ≤ℤ old }
    ensures new { result ≤ℤ new }
{
    let joined = old.min(new);
    match stops {
        Some(stops) => stops.least(old, joined),
        None => joined,
    }
}

/// The higher of two offsets, moved on to a stop if it moved.
fn greatest(old: i64, new: i64, stops: Option<&Stops>) -> i64
    ensures old { old ≤ℤ result }
    ensures new { new ≤ℤ result }
{
    let joined = old.max(new);
    match stops {
        Some(stops) => stops.greatest(old, joined),
        None => joined,
    }
}

/// What is known of a pointer that is one of two; None for one into the context and one into the frame.
fn join_pointer(old: Pointer, new: Pointer, stops: Option<&Stops>) -> Option<Pointer>
    requires old { IsPointer old }
    requires new { IsPointer new }
    ensures { IfSome result IsPointer }
{
    if old.area.is_same(new.area) {
        Some(Pointer {
            area: old.area,
            lo: least(old.lo, new.lo, stops),
            hi: greatest(old.hi, new.hi, stops),
        })
    } else {
        None
    }
}

/// What is known of a register that is in one of two states; unlike kinds leave nothing.
pub fn join_register(old: RegState, new: RegState, stops: Option<&Stops>) -> RegState
    requires old { IsRegister old }
    requires new { IsRegister new }
    ensures { IsRegister result }
{
    match old {
        RegState::Any => RegState::Any,
        RegState::Num(a) => match new {
            RegState::Num(b) => RegState::Num(join_num(a, b, stops)),
            RegState::Any | RegState::Ptr(_) => RegState::Any,
        },
        RegState::Ptr(p) => match new {
            RegState::Ptr(q) => match join_pointer(p, q, stops) {
                Some(pointer) => RegState::Ptr(pointer),
                None => RegState::Any,
            },
            RegState::Any | RegState::Num(_) => RegState::Any,
        },
    }
}

/// What is known of a slot that is in one of two states; unlike kinds leave the bytes that both know.
fn join_slot(old: SlotState, new: SlotState, stops: Option<&Stops>) -> SlotState
    requires old { IsSlot old }
    requires new { IsSlot new }
    ensures { IsSlot result }
{
    match old {
        SlotState::Bytes(m) => match new {
            SlotState::Bytes(n) => SlotState::Bytes(m & n),
            SlotState::Word(_) => SlotState::Bytes(m),
            SlotState::Spilled(_) => SlotState::Bytes(0),
        },
        SlotState::Word(a) => match new {
            SlotState::Bytes(n) => SlotState::Bytes(n),
            SlotState::Word(b) => SlotState::Word(join_num(a, b, stops)),
            SlotState::Spilled(_) => SlotState::Bytes(0),
        },
        SlotState::Spilled(p) => match new {
            SlotState::Spilled(q) => match join_pointer(p, q, stops) {
                Some(pointer) => SlotState::Spilled(pointer),
                None => SlotState::Bytes(0),
            },
            SlotState::Bytes(_) | SlotState::Word(_) => SlotState::Bytes(0),
        },
    }
}

/// Makes what is known of the registers what both know.
fn join_registers(old: &mut State, new: &State, stops: Option<&Stops>) {
    for i in 0..WRITABLE {
        let r = Reg::numbered(i as u8);
        old.set_reg(r, join_register(old.reg(r), new.reg(r), stops));
    }
}

/// Makes what is known of the slots what both know.
pub fn join_slots(old: &mut State, new: &State, stops: Option<&Stops>) {
    for k in 1..65u8 {
        let held = old.slot(k);
        if !matches!(held, SlotState::Bytes(0)) {
            old.set_slot(k, join_slot(held, new.slot(k), stops));
        }
    }
}

/// Makes a state one that both lie in; with stops, one that takes a loop but a few rounds.
pub fn join(old: &mut State, new: &State, stops: Option<&Stops>) {
    join_registers(old, new, stops);
    join_slots(old, new, stops);
}
