//! What is noted behind a way, and what is left of it where another way leads there.

use crate::brought::brought;
use crate::ranks::{RANKS, rank_of};
use crate::sites::NewSite;
use crate::turns::Head;
use bpf_insn::Reg;
use bpf_kept::{
    BACK, COUNTERS, Change, FACTS, Fact, Holder, KnownHere, Note, SLOTS, TurnsLeft, constant,
    counts_behind, end_facts, gives, holds_behind, is_spared, is_told, is_zero_slot, known_number,
    same_holder, same_slot, zero,
};
use std::alloc::{AllocError, Global};

/// A way to an instruction: what is known in front of the instruction, the facts among it that were noted, and what both programs change. `step` is the old
/// slot whose instruction the old program does.
#[derive(Clone, Copy)]
pub struct FlowEdge<'a> {
    pub known: &'a KnownHere<'a>,
    pub noted: &'a [Fact],
    pub change: Change,
    pub step: Option<u32>,
}

impl<'a> FlowEdge<'a> {
    /// Whether a fact holds behind it.
    pub fn gives(&self, fact: Fact) -> bool {
        holds_behind(self.known.facts, self.change, fact)
    }

    /// Whether the programs may have something else in a slot of the frame.
    fn parts(&self, slot: u8) -> bool {
        !is_told(self.known, self.change, &[], slot)
    }

    /// Whether a counter counts.
    fn counts(&self, counter: TurnsLeft) -> bool {
        counts_behind(self.known, self.change, self.step, Some(counter))
    }

    /// The number that r0 isn't.
    fn barred(&self) -> Option<u64> {
        let number = self.known.barred?;
        if is_spared(self.change, Holder::Register(Reg::R0)) {
            Some(number)
        } else {
            None
        }
    }
}

/// That 0 is 0.
pub fn nothing() -> Fact {
    known_number(None, zero())
}

/// Whether it is noted of a slot of the frame.
fn is_noted(noted: &[bool; SLOTS], slot: u8) -> bool {
    noted.get(usize::from(slot)).copied().unwrap_or(false)
}

/// Notes of a slot of the frame whether it is so.
fn set_noted(noted: &mut [bool; SLOTS], slot: u8, is_so: bool) {
    if let Some(place) = noted.get_mut(usize::from(slot)) {
        *place = is_so;
    }
}

/// Whether a note gives a fact by what it says of slots of the frame, or as each note does.
fn is_implied(note: &Note, fact: Fact) -> bool {
    match (fact.of, fact.base) {
        (None, Some(Holder::Slot(slot))) => {
            is_noted(&note.zeros, slot) && gives(is_zero_slot(slot), fact)
        }
        (Some(Holder::Slot(slot)), _) => {
            !is_noted(&note.apart, slot) && gives(same_slot(slot), fact)
        }
        _ => gives(nothing(), fact) || end_facts().iter().any(|have| gives(*have, fact)),
    }
}

/// Notes a fact, if it is new and there is room.
fn note_fact(note: &mut Note, fact: Fact) {
    if is_implied(note, fact) || note.facts.iter().any(|have| gives(*have, fact)) {
        return;
    }
    for place in note.facts.iter_mut() {
        if gives(nothing(), *place) {
            *place = fact;
            return;
        }
    }
}

/// Notes those of some facts that hold behind a way, of one rank.
fn note_held(note: &mut Note, way: FlowEdge<'_>, facts: &[Fact], rank: u8) {
    for fact in facts {
        if rank_of(fact) == rank && way.gives(*fact) {
            note_fact(note, *fact);
        }
    }
}

/// Notes the facts that hold behind a way.
fn note_facts(alloc: Global, note: &mut Note, way: FlowEdge<'_>) -> Result<(), AllocError> {
    let new = brought(alloc, way.known.facts, way.change)?;
    for rank in 0..RANKS {
        note_held(note, way, &new, rank);
        note_held(note, way, way.noted, rank);
    }
    Ok(())
}

/// Notes a counter, if it is new and there is room.
fn note_counter(note: &mut Note, counter: TurnsLeft) {
    for place in note.counters.iter_mut() {
        match place {
            Some(have) => {
                if same_holder(have.of, counter.of) && have.head == counter.head {
                    return;
                }
            }
            None => {
                *place = Some(counter);
                return;
            }
        }
    }
}

/// Notes that a place counts, if it does behind a way: with no turn taken ahead, or with one.
fn note_turns(note: &mut Note, way: FlowEdge<'_>, of: Holder, head: u32) {
    for taken in 0..2u32 {
        let counter = TurnsLeft { of, head, taken };
        if way.counts(counter) {
            note_counter(note, counter);
            return;
        }
    }
}

/// Notes the counters behind a way: of each head its home, and in front of the head the register that is tested.
fn note_counters(note: &mut Note, way: FlowEdge<'_>, heads: &[Head]) {
    for head in heads {
        note_turns(note, way, head.home, head.slot);
        if head.slot == note.old {
            note_turns(note, way, Holder::Register(head.tested), head.slot);
        }
    }
}

/// What is noted behind the first way that leads to an instruction.
pub fn first_note(
    alloc: Global,
    site: NewSite,
    way: FlowEdge<'_>,
    heads: &[Head],
) -> Result<Note, AllocError> {
    let mut note = Note {
        old: site.old,
        extras: site.extras,
        apart: [false; SLOTS],
        zeros: [false; SLOTS],
        facts: [nothing(); FACTS],
        counters: [None; COUNTERS],
        back: [nothing(); BACK],
        spare: None,
        barred: way.barred(),
    };
    for slot in 0..SLOTS as u8 {
        set_noted(&mut note.apart, slot, way.parts(slot));
        set_noted(&mut note.zeros, slot, way.gives(is_zero_slot(slot)));
    }
    note_facts(alloc, &mut note, way)?;
    note_counters(&mut note, way, heads);
    Ok(note)
}

// ---- another way

/// What is left of a fact: itself, that the low halves are the same, or nothing.
pub fn left_of(fact: Fact, way: FlowEdge<'_>) -> Fact {
    let low = Fact { by: None, ..fact };
    if way.gives(fact) {
        fact
    } else if gives(fact, low) && way.gives(low) {
        low
    } else {
        nothing()
    }
}

/// Whether facts that hold on one way alone are taken away.
fn join_facts(note: &mut Note, way: FlowEdge<'_>) -> bool {
    let mut is_less = false;
    for place in note.facts.iter_mut() {
        if !way.gives(*place) {
            *place = left_of(*place, way);
            is_less = true;
        }
    }
    is_less
}

/// Whether slots of the frame are no longer the same, or no longer 0.
fn join_slots(note: &mut Note, way: FlowEdge<'_>) -> bool {
    let mut is_less = false;
    for slot in 0..SLOTS as u8 {
        if !is_noted(&note.apart, slot) && way.parts(slot) {
            set_noted(&mut note.apart, slot, true);
            is_less = true;
        }
        if is_noted(&note.zeros, slot) && !way.gives(is_zero_slot(slot)) {
            set_noted(&mut note.zeros, slot, false);
            is_less = true;
        }
    }
    is_less
}

/// What is left of a counter.
fn turns_left(counter: TurnsLeft, way: FlowEdge<'_>) -> Option<TurnsLeft> {
    let later = TurnsLeft {
        taken: counter.taken.saturating_add(1),
        ..counter
    };
    if later.taken < 2 && way.counts(later) {
        Some(later)
    } else {
        None
    }
}

/// Whether counters no longer count.
fn join_counters(note: &mut Note, way: FlowEdge<'_>) -> bool {
    let mut is_less = false;
    for place in note.counters.iter_mut() {
        if let Some(counter) = *place {
            if !way.counts(counter) {
                *place = turns_left(counter, way);
                is_less = true;
            }
        }
    }
    is_less
}

/// Whether it is no longer known what r0 isn't.
fn join_barred(note: &mut Note, way: FlowEdge<'_>) -> bool {
    let is_less = note.barred.is_some() && note.barred != way.barred();
    if is_less {
        note.barred = None;
    }
    is_less
}

/// What a note says is cut to what holds behind a further way. Whether that is less.
pub fn join(note: &mut Note, way: FlowEdge<'_>) -> bool {
    let slots = join_slots(note, way);
    let facts = join_facts(note, way);
    let counters = join_counters(note, way);
    let barred = join_barred(note, way);
    slots || facts || counters || barred
}
