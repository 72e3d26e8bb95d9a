//! The places of a state one after the other, sets of them, and what they hold.

ghost use Rattle.std.specs.Prelude.{IfSome};
ghost use Rattle.bpf_state.specs.State.{IsPlace};

use bpf_insn::{Access, Insn, Reg};
use bpf_num::Num;
use bpf_state::{Entries, Place, Reach, RegState, SlotState, State, Tag};

/// How many registers a program may write: r0 to r9.
pub const WRITABLE: usize = 10;

/// How many places a state has: eleven registers and sixty-four slots. All but r10 may hold a counter.
pub const PLACES: usize = bpf_insn::PLACES;

/// A place by its number: r0 to r10, then s1 to s64, of which the last has all numbers from 74 on.
pub fn place(number: usize) -> Place
    ensures { IsPlace result }
{
    if number <= WRITABLE {
        Place::Register(Reg::numbered(number as u8))
    } else {
        Place::Slot((number.min(PLACES - 1) - WRITABLE) as u8)
    }
}

// ---- sets

/// A set of places, each a bit at its number.
#[derive(Clone, Copy, PartialEq, Default)]
pub struct PlaceSet(u128);

impl PlaceSet {
    /// No place.
    pub const NONE: PlaceSet = PlaceSet(0);

    /// All places.
    pub const ALL: PlaceSet = PlaceSet((1 << PLACES) - 1);

    /// r0 to r5, which a CALL changes.
    pub const CHANGED_BY_CALL: PlaceSet = PlaceSet(0b11_1111);

    /// r1 to r5, which a CALL hands over.
    pub const HANDED_OVER: PlaceSet = PlaceSet(0b11_1110);

    /// A place alone.
    pub fn of(place: Place) -> PlaceSet {
        let number = match place {
            Place::Register(r) => r as u8,
            Place::Slot(k) => k.min(64) + 10,
        };
        PlaceSet(1 << number)
    }

    /// The registers that an instruction reads.
    pub fn read_by(insn: &Insn) -> PlaceSet {
        let mut read = PlaceSet::NONE;
        for r in insn.registers_read().into_iter().flatten() {
            read.add(Place::Register(r));
        }
        read
    }

    /// The registers that an instruction changes.
    pub fn written_by(insn: &Insn) -> PlaceSet {
        match insn.register_written() {
            Some(r) => PlaceSet::of(Place::Register(r)),
            None if matches!(*insn, Insn::CallLocal { .. }) => PlaceSet::CHANGED_BY_CALL,
            None => PlaceSet::NONE,
        }
    }

    /// The slots that an access may touch.
    pub fn touched_by(access: Access, state: &State) -> PlaceSet {
        let (first, end) = slots_touched(access, state);
        let mut slots = PlaceSet::NONE;
        for k in first..end {
            slots.add(Place::Slot(k));
        }
        slots
    }

    /// Whether no place is in it.
    pub fn is_empty(self) -> bool {
        self.0 == 0
    }

    /// Whether a place is in it.
    pub fn has(self, place: Place) -> bool {
        self.0 & PlaceSet::of(place).0 != 0
    }

    /// What is in either.
    pub fn union(self, other: PlaceSet) -> PlaceSet {
        PlaceSet(self.0 | other.0)
    }

    /// What is in both.
    pub fn intersection(self, other: PlaceSet) -> PlaceSet {
        PlaceSet(self.0 & other.0)
    }

    /// What is in it and not in another.
    pub fn without(self, other: PlaceSet) -> PlaceSet {
        PlaceSet(self.0 & !other.0)
    }

    /// Puts a place in.
    pub fn add(&mut self, place: Place) {
        self.0 |= PlaceSet::of(place).0;
    }

    /// Takes the first place out.
    pub fn take_first(&mut self) -> Option<Place>
        ensures { IfSome result IsPlace }
    {
        if self.0 == 0 {
            return None;
        }
        let number = self.0.trailing_zeros();
        self.0 &= self.0 - 1;
        Some(place(number as usize))
    }
}

// ---- what places hold

/// The number that a place holds, if it holds one.
pub fn number_at(state: &State, number: usize) -> Option<Num> {
    state.held(place(number)).number()
}

/// What a label says of a place.
pub fn said(label: &Entries, number: usize) -> RegState {
    label.held(place(number))
}

/// The number that a label says of a place, if it says one, tightened.
pub fn tight_number(label: &Entries, number: usize) -> Option<Num> {
    said(label, number).number()?.tighten()
}

/// Tags a place with its own number: a tag with it tells from then on which place holds that number, and a constant more.
pub fn tag_own(state: &mut State, number: usize) {
    let tag = Tag {
        term: number.min(PLACES) as u8,
        offset: 0,
    };
    state.set_tag(place(number), Some(tag));
}

/// The slots of the frame that an access may touch, by their numbers: the first, and the one after the last. None elsewhere.
pub fn slots_touched(access: Access, state: &State) -> (u8, u8) {
    match Reach::of_access(access, state) {
        Some(reach) => {
            let (first, end) = reach.slots();
            (first.min(64) as u8 + 1, end.min(64) as u8 + 1)
        }
        None => (1, 1),
    }
}

/// How many places of a state something is known of.
pub fn places_known(state: &State) -> usize {
    let mut count = 0usize;
    for i in 0..WRITABLE {
        if !matches!(state.reg(Reg::numbered(i as u8)), RegState::Any) {
            count = count.saturating_add(1);
        }
    }
    for k in 1..65u8 {
        if !matches!(state.slot(k), SlotState::Bytes(0)) {
            count = count.saturating_add(1);
        }
    }
    count
}
