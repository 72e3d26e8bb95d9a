//! That the numbers of a state are numbers.

ghost use Rattle.std.specs.Prelude.{ℕ, ◌<◌, get_or, All};
ghost use Rattle.bpf_state.specs.declared.known.RegState.TheVariants.{Any};
ghost use Rattle.bpf_state.specs.declared.known.SlotState.TheVariants.{Bytes};
ghost use Rattle.bpf_state.specs.State.{IsRegister, IsSlot, IsAbstractRegister, IsAbstractSlot};

use crate::known::{RegState, SlotState};
use crate::masked::Slots;

fn register_is_abstract(held: RegState)
    requires { IsRegister held }
    ensures { IsAbstractRegister held }
{
    match held {
        RegState::Num(number) => number.valid(),
        RegState::Any => {}
        RegState::Ptr(_) => {}
    }
}

fn slot_is_abstract(held: SlotState)
    requires { IsSlot held }
    ensures { IsAbstractSlot held }
{
    match held {
        SlotState::Word(number) => number.valid(),
        SlotState::Bytes(_) => {}
        SlotState::Spilled(_) => {}
    }
}

/// Each register's number is one.
pub(crate) fn registers_are_abstract(registers: &[RegState; 11])
    requires { All IsRegister registers.now }
    ensures { (k : ℕ) → k < 11 → IsAbstractRegister (get_or registers.now k Any) }
{
    for i in 0..11 {
        register_is_abstract(registers[i]);
    }
}

/// Each slot's number is one.
pub(crate) fn slots_are_abstract(slots: &Slots)
    requires { All IsSlot slots.now }
    ensures { (k : ℕ) → k < 64 → IsAbstractSlot (get_or slots.now k (Bytes 0)) }
{
    slots.valid();
    for i in 0..64 {
        slot_is_abstract(slots.get(i));
    }
}
