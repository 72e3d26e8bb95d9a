//! What fails of what is noted of a slot of the new program.

ghost use Rattle.std.specs.Prelude.{◌≡◌, ◌<◌, ◌↔◌, IsOk, IfErr};
ghost use Rattle.bpf_insn.specs.Limits.{max_slots};
ghost use Rattle.bpf_kept.specs.Fronts.{front};
ghost use Rattle.bpf_kept.specs.Knowns.{known_of};
ghost use Rattle.bpf_kept.specs.Matching.{left_alone};
ghost use Rattle.bpf_kept.specs.Mismatches.{unpaired_fault, body_fault, extra_fault};
ghost use Rattle.bpf_kept.specs.Sites.{HoldsAtSlot, BodyFails, ExtraFails, NoteFails, IsMismatchAt};

use crate::alike::{are_same, paired};
use crate::code::insn_at;
use crate::edges::note_at;
use crate::guards::GuardSite;
use crate::known::{KnownHere, NewSlot, facts_at, known_here};
use crate::mismatch::{Mismatch, NoteFault};
use crate::notes::Note;
use crate::stands::{StandIn, extra, falls, holds_at};
use bpf_insn::{Code, Insn};

/// What fails where nothing is known of what both change; `same` says whether they are the same but for where they lead.
fn unpaired_fault(same: bool, insn: &Insn) -> NoteFault
    ensures { result ≡ unpaired_fault same insn.now }
{
    if !same {
        NoteFault::Insn
    } else if matches!(*insn, Insn::CallLocal { .. }) {
        NoteFault::Target
    } else {
        NoteFault::Read
    }
}

/// What fails of one that stands for another.
#[tactic(auto, unfolding(crate::specs::Mismatches::body_fault))]
fn body_fault(notes: &[Option<Note>], known: &KnownHere<'_>, same: bool, pair: StandIn) -> NoteFault
    requires old { pair.slot < max_slots }
    requires new { pair.new_slot < max_slots }
    ensures { result ≡ body_fault notes.now (known_of known.now) same pair.slot pair.new_slot pair.insn pair.moved }
{
    match paired(known, same, &pair.insn, &pair.moved) {
        None => unpaired_fault(same, &pair.insn),
        Some(change) if falls(notes, known, change, pair) => NoteFault::Target,
        Some(_) => NoteFault::Next,
    }
}

/// What fails of an extra instruction.
#[tactic(auto, unfolding(crate::specs::Mismatches::extra_fault))]
fn extra_fault<O: Code>(old: &O, site: GuardSite, known: &KnownHere<'_>, moved: &Insn) -> NoteFault
    ensures { result ≡ extra_fault (front (O.program old.now) site) (known_of known.now) moved.now }
{
    match extra(old, site, known, moved) {
        Some(_) => NoteFault::Next,
        None => NoteFault::Front,
    }
}

/// What fails where it is noted that the instruction at a new slot stands for an old one.
fn fault_of_body<O: Code, N: Code>(
    old: &O,
    new: &N,
    notes: &[Option<Note>],
    at: NewSlot<'_>,
    note: &Note,
) -> NoteFault
    requires { at.left ≡ left_alone (N.program new.now) at.bounds.untouched }
    ensures { BodyFails (O.program old.now) (N.program new.now) notes.now at.entry note.now result }
{
    let (Some(insn), Some(moved)) = (insn_at(old, note.old), insn_at(new, at.slot)) else {
        return NoteFault::Insn;
    };
    let pair = StandIn {
        slot: note.old,
        new_slot: at.slot,
        insn,
        moved,
    };
    let facts = facts_at(note);
    let known = known_here(facts.as_slice(), at, note);
    body_fault(notes, &known, are_same(&insn, &moved), pair)
}

/// What fails where it is noted that it is an extra one.
fn fault_of_extra<O: Code, N: Code>(old: &O, new: &N, at: NewSlot<'_>, note: &Note) -> NoteFault
    requires { at.left ≡ left_alone (N.program new.now) at.bounds.untouched }
    ensures { ExtraFails (O.program old.now) (N.program new.now) at.entry note.now result }
{
    let Some(moved) = insn_at(new, at.slot) else {
        return NoteFault::Insn;
    };
    let site = GuardSite {
        slot: note.old,
        bounds: at.bounds,
    };
    let facts = facts_at(note);
    let known = known_here(facts.as_slice(), at, note);
    extra_fault(old, site, &known, &moved)
}

/// What fails of what is noted of a new slot.
fn fault_at<O: Code, N: Code>(
    old: &O,
    new: &N,
    notes: &[Option<Note>],
    at: NewSlot<'_>,
    note: &Note,
) -> NoteFault
    requires { at.left ≡ left_alone (N.program new.now) at.bounds.untouched }
    ensures { NoteFails (O.program old.now) (N.program new.now) notes.now at.entry note.now result }
{
    if note.extras == 0 {
        fault_of_body(old, new, notes, at, note)
    } else {
        fault_of_extra(old, new, at, note)
    }
}

/// Whether what is noted of a new slot holds there; else in front of which old slot it fails, and what.
pub fn judged_at<O: Code, N: Code>(
    old: &O,
    new: &N,
    notes: &[Option<Note>],
    at: NewSlot<'_>,
) -> Result<(), Mismatch>
    requires { at.left ≡ left_alone (N.program new.now) at.bounds.untouched }
    ensures exact { IsOk result ↔ HoldsAtSlot (O.program old.now) (N.program new.now) notes.now at.entry }
    ensures err { IfErr result (IsMismatchAt (O.program old.now) (N.program new.now) notes.now at.entry) }
{
    let Some(note) = note_at(notes, at.slot) else {
        return Ok(());
    };
    if holds_at(old, new, notes, at) {
        return Ok(());
    }
    Err(Mismatch::At {
        slot: at.slot,
        old: note.old,
        fault: fault_at(old, new, notes, at, note),
    })
}
