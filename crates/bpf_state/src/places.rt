//! What a state knows of a place, of a register as of a slot; the first place at which a state doesn't lie in another, and the first of
//! which a state has no member.

ghost use Rattle.std.specs.Prelude.{◌≡◌, ◌<◌};
ghost use Rattle.bpf_state.specs.State.{IsPlace};
ghost use Rattle.bpf_state.specs.Places.{place_number, is_slot_number};

use crate::known::{Place, SlotState, value_slot};
use crate::state::State;
use crate::tightening::{tightened_register, tightened_slot};
use bpf_insn::Reg;

/// How many places a state has: r0 to r10 and s1 to s64.
const PLACES: u8 = bpf_insn::PLACES as u8;

/// The place with a number: r0 to r10, and then s1 to s64.
fn numbered(number: u8) -> Place
    requires { number < PLACES }
    ensures placed { IsPlace result }
    ensures number { place_number result ≡ number }
{
    if number <= 10 {
        Place::Register(Reg::numbered(number))
    } else {
        Place::Slot(number - 10)
    }
}

/// Whether a slot has this number: they go from 1 to 64.
fn is_slot_number(k: u8) -> bool
    ensures { result ≡ is_slot_number k }
{
    1 <= k && k <= 64
}

impl State {
    ghost use Rattle.std.specs.Prelude.{◌≡◌, IfSome, is_some, is_none, not};
    ghost use Rattle.bpf_state.specs.State.{tightened};
    ghost use Rattle.bpf_state.specs.Entails.{state_entails};
    ghost use Rattle.bpf_state.specs.Places.{IsFirstPlace, content, taken_over, entails_at, is_empty_at};

    /// What is known of a place, of a register as of a slot that holds the same; nothing of a slot whose number isn't from 1 to 64.
    pub fn content(&self, place: Place) -> SlotState
        ensures { result ≡ content self.now place }
    {
        match place {
            Place::Register(r) => value_slot(self.reg(r)),
            Place::Slot(k) => {
                if is_slot_number(k) {
                    self.slot(k)
                } else {
                    SlotState::Bytes(0)
                }
            }
        }
    }

    /// Makes what is known of a place the same as what another state knows of it; its tag stays, and a slot whose number isn't from 1
    /// to 64 changes nothing.
    pub fn take_over(&mut self, other: &State, place: Place)
        ensures { self.new ≡ taken_over self.old other.now place }
    {
        match place {
            Place::Register(r) => self.set_reg(r, other.reg(r)),
            Place::Slot(k) => {
                if is_slot_number(k) {
                    self.set_slot(k, other.slot(k));
                }
            }
        }
    }

    /// Whether what it knows of a place lies in what another one does.
    fn entails_at(&self, other: &State, place: Place) -> bool
        requires { IsPlace place }
        ensures { result ≡ entails_at self.now other.now place }
    {
        match place {
            Place::Register(r) => self.reg(r).entails(other.reg(r)),
            Place::Slot(k) => self.slot(k).entails(other.slot(k)),
        }
    }

    /// The first place at which it doesn't lie in the other, registers before slots; None exactly if it lies in it. That is what
    /// `entails` and `entails_entries` say, which look at all masks at once, or at what entries say alone.
    pub fn first_lost(&self, other: &State) -> Option<Place>
        ensures first { IfSome result (IsFirstPlace (λ p. not (entails_at self.now other.now p))) }
        ensures entails { is_none result ≡ state_entails self.now other.now }
    {
        self.in_order();
        other.in_order();
        'places: for number in 0..PLACES {
            let place = numbered(number);
            if !self.entails_at(other, place) {
                return Some(place);
            }
        }
        None
    }

    /// Whether what it knows of a place is a number without a member.
    fn is_empty_at(&self, place: Place) -> bool
        requires { IsPlace place }
        ensures { result ≡ is_empty_at self.now place }
    {
        match place {
            Place::Register(r) => tightened_register(self.reg(r)).is_none(),
            Place::Slot(k) => tightened_slot(self.slot(k)).is_none(),
        }
    }

    /// The first place of which it has no member, registers before slots; None exactly if each number has one, as `tighten` says.
    pub fn first_empty(&self) -> Option<Place>
        ensures first { IfSome result (IsFirstPlace (is_empty_at self.now)) }
        ensures tight { is_none result ≡ is_some (tightened self.now) }
    {
        self.in_order();
        'places: for number in 0..PLACES {
            let place = numbered(number);
            if self.is_empty_at(place) {
                return Some(place);
            }
        }
        None
    }
}
