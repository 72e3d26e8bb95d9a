//! Calls: what is noted of the entry of a called function, and behind the call.

ghost use Rattle.std.specs.Prelude.{◌≡◌, ◌<◌, ◌≤◌};
ghost use Rattle.bpf_insn.specs.Limits.{max_slots};
ghost use Rattle.bpf_kept.specs.Knowns.{known_at_slot};
ghost use Rattle.bpf_kept.specs.Matching.{enters_at, goes_on_behind, enters, calls_to, called, calls_alike};

use crate::calls::{are_results, entered_facts, returned_counters, returned_facts};
use crate::edges::{Arrival, arrives, note_at, suits};
use crate::known::{KnownHere, NewSlot};
use crate::notes::{Change, MOST_EXTRAS, Note};
use bpf_insn::{Insn, target};

/// Where a call leads.
fn called(slot: u32, insn: &Insn) -> Option<u32>
    requires { slot ≤ max_slots }
    ensures { result ≡ called slot insn.now }
{
    match *insn {
        Insn::CallLocal { off } => target(slot, off),
        Insn::Alu { .. } | Insn::Neg { .. } | Insn::MovSx { .. } | Insn::End { .. } => None,
        Insn::LoadImm64 { .. } | Insn::Load { .. } | Insn::LoadSx { .. } => None,
        Insn::Store { .. } | Insn::StoreImm { .. } | Insn::Atomic { .. } => None,
        Insn::Ja { .. } | Insn::JaLong { .. } | Insn::JumpIf { .. } | Insn::Exit => None,
    }
}

/// Whether what is noted of the entry of a called function asks for no more than what holds there.
fn enters_at(at: NewSlot<'_>, note: &Note, to: u32, entry: &Note) -> bool
    ensures { result ≡ enters_at (known_at_slot at.entry note.now) to entry.now }
{
    let facts = entered_facts(note);
    let known = KnownHere {
        facts: facts.as_slice(),
        apart: &[],
        counters: &[],
        turns: at.bounds.turns,
        left: at.left,
        back: &entry.back,
        spare: entry.spare,
        barred: None,
        state: at.state,
    };
    let arrival = Arrival {
        step: None,
        slot: to,
        most: MOST_EXTRAS,
        new_slot: at.slot,
    };
    suits(&known, Change::Kept, arrival, entry)
}

/// Whether what is noted behind the call does.
fn goes_on_behind(notes: &[Option<Note>], at: NewSlot<'_>, note: &Note, entry: &Note) -> bool
    requires old { note.now.old < max_slots }
    requires new { at.slot < max_slots }
    ensures { result ≡ goes_on_behind notes.now (known_at_slot at.entry note.now) note.now.old at.entry.slot entry.now }
{
    let facts = returned_facts(at.left, note, &entry.back);
    let counters = returned_counters(at.left, note.counters);
    let known = KnownHere {
        facts: facts.as_slice(),
        apart: &note.apart,
        counters: &counters,
        turns: at.bounds.turns,
        left: at.left,
        back: &note.back,
        spare: note.spare,
        barred: entry.spare,
        state: at.state,
    };
    let arrival = Arrival {
        step: Some(note.old),
        slot: note.old + 1,
        most: MOST_EXTRAS,
        new_slot: at.slot + 1,
    };
    arrives(notes, &known, Change::Kept, arrival)
}

/// Whether a call at a slot leads to an entry, and goes on behind it.
fn enters(notes: &[Option<Note>], at: NewSlot<'_>, note: &Note, to: u32, entry: &Note) -> bool
    requires old { note.now.old < max_slots }
    requires new { at.slot < max_slots }
    ensures { result ≡ enters notes.now (known_at_slot at.entry note.now) note.now.old at.entry.slot to entry.now }
{
    enters_at(at, note, to, entry)
        && are_results(&entry.back)
        && goes_on_behind(notes, at, note, entry)
}

/// Whether a call does that leads to a slot of each program.
fn calls_to(notes: &[Option<Note>], at: NewSlot<'_>, note: &Note, to: u32, new_to: u32) -> bool
    requires old { note.now.old < max_slots }
    requires new { at.slot < max_slots }
    ensures { result ≡ calls_to notes.now (known_at_slot at.entry note.now) note.now.old at.entry.slot to new_to }
{
    match note_at(notes, new_to) {
        Some(entry) => enters(notes, at, note, to, entry),
        None => false,
    }
}

/// Whether both call, and the one leads where the other does.
pub fn calls(
    notes: &[Option<Note>],
    at: NewSlot<'_>,
    note: &Note,
    insn: &Insn,
    moved: &Insn,
) -> bool
    requires old { note.now.old < max_slots }
    requires new { at.slot < max_slots }
    ensures { result ≡ calls_alike notes.now (known_at_slot at.entry note.now) note.now.old at.entry.slot insn.now moved.now }
{
    match (called(note.old, insn), called(at.slot, moved)) {
        (Some(to), Some(new_to)) => calls_to(notes, at, note, to, new_to),
        _ => false,
    }
}
