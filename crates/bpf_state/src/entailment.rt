//! Whether an abstract state lies in another. Tags aren't looked at.

ghost use Rattle.std.specs.Prelude.{◌≡◌, ◌<◌, ◌-◌, get_or, bit_and, All};
ghost use Rattle.bpf_state.specs.declared.known.SlotState.TheVariants.{Bytes};
ghost use Rattle.bpf_state.specs.State.{IsSlot};
ghost use Rattle.bpf_state.specs.code.Masked.{mask_of};
ghost use Rattle.bpf_state.specs.Entails.{pointer_entails, register_entails, slot_entails, all_pairs, state_entails};

use crate::known::{Pointer, RegState, SlotState};
use crate::masked::Slots;
use crate::state::State;

impl Pointer {
    /// Whether it points into the same as the other, with bounds no wider.
    pub(crate) fn entails(self, other: Pointer) -> bool
        ensures { result ≡ pointer_entails self other }
    {
        self.area.is_same(other.area) && other.lo <= self.lo && self.hi <= other.hi
    }
}

impl RegState {
    /// Whether it lies in the other.
    pub fn entails(self, other: RegState) -> bool
        ensures { result ≡ register_entails self other }
    {
        match other {
            RegState::Any => true,
            RegState::Num(b) => match self {
                RegState::Num(a) => a.entails(b),
                RegState::Any | RegState::Ptr(_) => false,
            },
            RegState::Ptr(q) => match self {
                RegState::Ptr(p) => p.entails(q),
                RegState::Any | RegState::Num(_) => false,
            },
        }
    }
}

impl SlotState {
    /// Whether it lies in the other.
    pub(crate) fn entails(self, other: SlotState) -> bool
        ensures { result ≡ slot_entails self other }
    {
        match other {
            SlotState::Bytes(n) => match self {
                SlotState::Bytes(m) => m & n == n,
                SlotState::Word(_) => true,
                SlotState::Spilled(_) => n == 0,
            },
            SlotState::Word(b) => match self {
                SlotState::Word(a) => a.entails(b),
                SlotState::Bytes(_) | SlotState::Spilled(_) => false,
            },
            SlotState::Spilled(q) => match self {
                SlotState::Spilled(p) => p.entails(q),
                SlotState::Bytes(_) | SlotState::Word(_) => false,
            },
        }
    }
}

fn registers_entail(registers: &[RegState; 11], others: &[RegState; 11]) -> bool
    ensures { result ≡ all_pairs register_entails registers.now others.now }
{
    for i in 0..11 {
        if !registers[i].entails(others[i]) {
            return false;
        }
    }
    true
}

/// Whether the slot at a place lies in the other one there, whose initialised bytes are initialised here too. That alone
/// decides, unless all bytes are initialised and some have to be.
fn slot_entails(slots: &Slots, others: &Slots, index: usize) -> bool
    requires place { index < 64 }
    requires covered { bit_and (mask_of (get_or others.now index (Bytes 0))) (255 - mask_of (get_or slots.now index (Bytes 0))) ≡ 0 }
    ensures { result ≡ slot_entails (get_or slots.now index (Bytes 0)) (get_or others.now index (Bytes 0)) }
{
    let mask = slots.mask(index);
    let wanted = others.mask(index);
    if mask != 255 || wanted == 0 {
        return true;
    }
    slots.get(index).entails(others.get(index))
}

fn slots_entail(slots: &Slots, others: &Slots) -> bool
    requires slots { All IsSlot slots.now }
    requires others { All IsSlot others.now }
    ensures { result ≡ all_pairs slot_entails slots.now others.now }
{
    slots.valid();
    others.valid();
    if !slots.cover(others) {
        return false;
    }
    for i in 0..64 {
        if !slot_entails(slots, others, i) {
            return false;
        }
    }
    true
}

impl State {
    /// Whether it lies in the other: each machine that it describes is described by the other. Tags aren't looked at.
    pub fn entails(&self, other: &State) -> bool
        ensures { result ≡ state_entails self.now other.now }
    {
        registers_entail(&self.registers, &other.registers)
            && slots_entail(&self.slots, &other.slots)
    }
}
