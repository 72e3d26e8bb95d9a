//! What states know of places, of registers as of slots, and which places instructions write and compare.

ghost use Rattle.std.specs.Prelude.{◌≤◌};

use crate::sight::is_test;
use bpf_infer_base::PlaceSet;
use bpf_insn::{FRAME_SLOTS, Insn, PLACES};
use bpf_state::{Place, Pointer, SlotState, State, Tag};

/// A number of a slot, which is from 1 to 64.
fn numbered(k: u8) -> u8
    ensures low { 1 ≤ result }
    ensures high { result ≤ 64 }
{
    k.max(1).min(FRAME_SLOTS as u8)
}

/// The counter that a place holds.
pub fn tag_at(state: &State, place: Place) -> Option<Tag> {
    match place {
        Place::Register(_) => state.tag(place),
        Place::Slot(k) => state.tag(Place::Slot(numbered(k))),
    }
}

/// Whether two pointers have the same area and bounds.
fn is_same_pointer(a: Pointer, b: Pointer) -> bool {
    a.area.is_same(b.area) && a.lo == b.lo && a.hi == b.hi
}

/// Whether the same is known.
pub fn is_same(a: SlotState, b: SlotState) -> bool {
    match a {
        SlotState::Bytes(m) => match b {
            SlotState::Bytes(n) => m == n,
            SlotState::Word(_) | SlotState::Spilled(_) => false,
        },
        SlotState::Word(m) => match b {
            SlotState::Word(n) => m == n,
            SlotState::Bytes(_) | SlotState::Spilled(_) => false,
        },
        SlotState::Spilled(p) => match b {
            SlotState::Spilled(q) => is_same_pointer(p, q),
            SlotState::Bytes(_) | SlotState::Word(_) => false,
        },
    }
}

/// Whether nothing is known.
pub fn is_unknown(content: SlotState) -> bool {
    matches!(content, SlotState::Bytes(0))
}

/// Those of some places at which two states differ.
pub fn changes(before: &State, after: &State, among: PlaceSet) -> PlaceSet {
    let mut rest = among;
    let mut changed = PlaceSet::NONE;
    for _ in 0..PLACES {
        let Some(place) = rest.take_first() else {
            break;
        };
        if !is_same(before.content(place), after.content(place)) {
            changed.add(place);
        }
    }
    changed
}

/// Makes what a state knows of some places the same as what another one does.
pub fn take_all(state: &mut State, other: &State, places: PlaceSet) {
    let mut rest = places;
    for _ in 0..PLACES {
        let Some(place) = rest.take_first() else {
            break;
        };
        state.take_over(other, place);
    }
}

/// The places that may not be the same behind an instruction as in a state in front of it.
pub fn places_written(insn: &Insn, state: &State) -> PlaceSet {
    let written = PlaceSet::written_by(insn);
    match insn.access() {
        Some(access) if access.writes => written.union(PlaceSet::touched_by(access, state)),
        _ => written,
    }
}

/// The places of which more may be known on an instruction's edges: the registers that a conditional jump compares.
pub fn places_compared(insn: &Insn) -> PlaceSet {
    if is_test(insn) {
        PlaceSet::read_by(insn)
    } else {
        PlaceSet::NONE
    }
}
