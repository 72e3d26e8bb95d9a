//! Edges: what is noted where an instruction leads.

ghost use Rattle.std.specs.Prelude.{◌≡◌, true, option_copied};
ghost use Rattle.std.specs.List.{list_all};
ghost use Rattle.std.specs.Option.{option_map_or};
ghost use Rattle.bpf_kept.specs.Calls.{is_this};
ghost use Rattle.bpf_kept.specs.Behind.{holds_behind};
ghost use Rattle.bpf_kept.specs.Matching.{note_at, said, still_barred, is_given, keeps_back, suits, arrives};
ghost use Rattle.bpf_kept.specs.Knowns.{known_of};

use crate::behind::{are_told, holds_behind};
use crate::calls::is_this;
use crate::counters::{all_count_behind, is_spared};
use crate::known::{KnownHere, said};
use crate::notes::{Change, Fact, Holder, Note};
use bpf_insn::Reg;

/// What is noted of a new slot.
pub fn note_at(notes: &[Option<Note>], slot: u32) -> Option<&Note>
    ensures { option_copied result ≡ note_at notes.now slot }
{
    match notes.get(slot as usize) {
        Some(Some(note)) => Some(note),
        _ => None,
    }
}

/// Where an edge leads: in front of which old instruction, where at most so many extra ones are left, and to which new slot; and the old slot whose
/// instruction the old program does on the way, None where it stands still.
#[derive(Clone, Copy)]
pub struct Arrival {
    pub step: Option<u32>,
    pub slot: u32,
    pub most: u32,
    pub new_slot: u32,
}

/// Whether all hold behind a change.
pub fn all_hold(facts: &[Fact], change: Change, wants: &[Fact]) -> bool
    ensures { result ≡ list_all (holds_behind facts.now change) wants.now }
{
    wants.iter().all(|want| holds_behind(facts, change, *want))
}

/// Whether what a note says does.
fn said_holds(facts: &[Fact], change: Change, note: &Note) -> bool
    ensures { result ≡ list_all (holds_behind facts.now change) (said note.now) }
{
    let wants = said(note);
    all_hold(facts, change, wants.as_slice())
}

/// Whether r0 of the new program is still known not to be this number.
fn still_barred(known: &KnownHere<'_>, change: Change, barred: Option<u64>) -> bool
    ensures { result ≡ option_map_or (still_barred (known_of known.now) change) barred true }
{
    match barred {
        Some(n) => is_spared(change, Holder::Register(Reg::R0)) && is_this(known.barred, n),
        None => true,
    }
}

/// Whether what is noted asks for no more than what holds: its facts, each slot of the frame, its counters, and what r0 isn't.
fn is_given(known: &KnownHere<'_>, change: Change, step: Option<u32>, note: &Note) -> bool
    ensures { result ≡ is_given (known_of known.now) change step note.now }
{
    said_holds(known.facts, change, note)
        && are_told(known, change, &note.apart)
        && all_count_behind(known, change, step, &note.counters)
        && still_barred(known, change, note.barred)
}

/// Whether the number that a function never gives back is the one that is known.
fn keeps_spare(spare: Option<u64>, note: &Note) -> bool
    ensures { result ≡ option_map_or (is_this note.now.spare) spare true }
{
    match spare {
        Some(n) => is_this(note.spare, n),
        None => true,
    }
}

/// Whether what the function gives back as the note says, and never, is what is known of it.
fn keeps_back(known: &KnownHere<'_>, note: &Note) -> bool
    ensures { result ≡ keeps_back (known_of known.now) note.now }
{
    all_hold(&note.back, Change::Kept, known.back) && keeps_spare(known.spare, note)
}

/// Whether it does, in front of the old instruction, with few enough extra ones.
pub fn suits(known: &KnownHere<'_>, change: Change, edge: Arrival, note: &Note) -> bool
    ensures { result ≡ suits (known_of known.now) change edge.step edge.slot edge.most note.now }
{
    note.old == edge.slot
        && note.extras <= edge.most
        && is_given(known, change, edge.step, note)
        && keeps_back(known, note)
}

/// Whether an edge leads where that is so.
#[tactic(auto, unfolding(crate::specs::Matching::arrives))]
pub fn arrives(notes: &[Option<Note>], known: &KnownHere<'_>, change: Change, edge: Arrival) -> bool
    ensures { result ≡ arrives notes.now (known_of known.now) change edge.step edge.slot edge.most edge.new_slot }
{
    match note_at(notes, edge.new_slot) {
        Some(note) => suits(known, change, edge, note),
        None => false,
    }
}
