//! What is noted of a slot of the new program: an instruction that stands for an old one, or an extra one.

ghost use Rattle.std.specs.Prelude.{◌≡◌, ◌<◌, ◌≤◌, ◌↔◌, ◌-◌, IsTrue, Some, None, option_map, option_and_then, if◌then◌else◌};
ghost use Rattle.bpf_insn.specs.Effects.{is_frame_pointer};
ghost use Rattle.bpf_kept.specs.Rules.{put_into};
ghost use Rattle.bpf_kept.specs.declared.notes.Holder.TheVariants.{Register, Slot};
ghost use Rattle.bpf_insn.specs.Limits.{max_slots};
ghost use Rattle.bpf_kept.specs.Fronts.{front, front_at};
ghost use Rattle.bpf_kept.specs.Knowns.{known_of, known_at_slot};
ghost use Rattle.bpf_kept.specs.Slots.{slot_at};
ghost use Rattle.bpf_kept.specs.Matching.{left_alone, led, may_fall, may_lead, falls, leads, is_exit, returns, calls, pairs, stands, made_in, makes, extra, adds};
ghost use Rattle.bpf_kept.specs.Sites.{IsBodyAt, IsExtraAt, HoldsAtSlot};

use crate::alike::{are_same, paired};
use crate::calls::{apart_waits, spares, tests_barred};
use crate::code::insn_at;
use crate::counters::has_turn;
use crate::edges::{Arrival, all_hold, arrives, note_at};
use crate::entries::calls;
use crate::guards::{GuardSite, passes};
use crate::known::{KnownHere, NewSlot, facts_at, known_here};
use crate::notes::{Change, Holder, MOST_EXTRAS, Note};
use crate::results::put_into;
use crate::slots::{Displaced, slot_at};
use crate::ways::is_dead;
use bpf_insn::{Code, Insn, Size, target};

/// An instruction of the old program, and the one of the new program that stands for it.
#[derive(Clone, Copy)]
pub struct StandIn {
    pub slot: u32,
    pub new_slot: u32,
    pub insn: Insn,
    pub moved: Insn,
}

/// Where a jump leads.
fn led(slot: u32, insn: &Insn) -> Option<u32>
    requires { slot ≤ max_slots }
    ensures { result ≡ led slot insn.now }
{
    let distance = insn.distance()?;
    target(slot, distance)
}

/// Where it may jump, unless neither program goes that way.
fn may_lead(known: &KnownHere<'_>, pair: StandIn) -> Option<u32>
    requires { pair.slot ≤ max_slots }
    ensures { result ≡ may_lead (known_of known.now) pair.slot pair.insn pair.moved }
{
    if is_dead(known, &pair.insn, &pair.moved, true) {
        None
    } else {
        led(pair.slot, &pair.insn)
    }
}

/// Whether the next instruction may follow, unless neither program goes that way.
fn may_fall(known: &KnownHere<'_>, pair: StandIn) -> bool
    ensures { result ≡ may_fall (known_of known.now) pair.insn pair.moved }
{
    pair.insn.goes_on() && !is_dead(known, &pair.insn, &pair.moved, false)
}

/// Whether the next new instruction stands for the next old one, if that may follow.
pub fn falls(notes: &[Option<Note>], known: &KnownHere<'_>, change: Change, pair: StandIn) -> bool
    requires old { pair.slot < max_slots }
    requires new { pair.new_slot < max_slots }
    ensures { result ≡ falls notes.now (known_of known.now) change pair.slot pair.new_slot pair.insn pair.moved }
{
    if !may_fall(known, pair) {
        return true;
    }
    let arrival = Arrival {
        step: Some(pair.slot),
        slot: pair.slot + pair.insn.slots(),
        most: MOST_EXTRAS,
        new_slot: pair.new_slot + pair.moved.slots(),
    };
    arrives(notes, known, change, arrival)
}

/// Whether the new one leads where the old one leads.
fn leads(notes: &[Option<Note>], known: &KnownHere<'_>, change: Change, pair: StandIn) -> bool
    requires old { pair.slot < max_slots }
    requires new { pair.new_slot < max_slots }
    ensures { result ≡ leads notes.now (known_of known.now) change pair.slot pair.new_slot pair.insn pair.moved }
{
    let Some(slot) = may_lead(known, pair) else {
        return true;
    };
    let Some(new_slot) = led(pair.new_slot, &pair.moved) else {
        return false;
    };
    let arrival = Arrival {
        step: Some(pair.slot),
        slot,
        most: MOST_EXTRAS,
        new_slot,
    };
    arrives(notes, known, change, arrival)
}

/// Whether the one stands for the other, where neither calls or ends a function; `same` says whether they are the same but for where they lead.
fn pairs(notes: &[Option<Note>], known: &KnownHere<'_>, same: bool, pair: StandIn) -> bool
    requires old { pair.slot < max_slots }
    requires new { pair.new_slot < max_slots }
    ensures { result ≡ pairs notes.now (known_of known.now) same pair.slot pair.new_slot pair.insn pair.moved }
{
    match paired(known, same, &pair.insn, &pair.moved) {
        Some(change) => falls(notes, known, change, pair) && leads(notes, known, change, pair),
        None => false,
    }
}

/// Whether an instruction ends a function.
fn is_exit(insn: &Insn) -> bool
    ensures { result ≡ is_exit insn.now }
{
    matches!(*insn, Insn::Exit)
}

/// Whether both end a function, which gives back what the notes say.
fn returns(known: &KnownHere<'_>, pair: StandIn) -> bool
    ensures { result ≡ returns (known_of known.now) pair.insn pair.moved }
{
    is_exit(&pair.insn)
        && is_exit(&pair.moved)
        && all_hold(known.facts, Change::Kept, known.back)
        && spares(known, known.spare)
}

/// The register into which it puts something, but for r10.
fn written_by(moved: &Insn) -> Option<Holder>
    ensures { result ≡ option_and_then (λ r. if is_frame_pointer r then None else Some (Register r)) (put_into moved.now) }
{
    let into = put_into(moved)?;
    if into.is_frame_pointer() {
        return None;
    }
    Some(Holder::Register(into))
}

/// The slot of the frame to which it stores eight bytes by r10.
fn stored_in(size: Size, to: Displaced) -> Option<Holder>
    ensures { result ≡ option_map Slot (slot_at size to.base to.off) }
{
    let n = slot_at(size, to)?;
    Some(Holder::Slot(n))
}

/// Into what an extra instruction puts something, by r10 where it is a slot of the frame.
fn made_in(moved: &Insn) -> Option<Holder>
    ensures { result ≡ made_in moved.now }
{
    match *moved {
        Insn::Store { size, dst, off, .. } => stored_in(size, Displaced { base: dst, off }),
        Insn::StoreImm { size, dst, off, .. } => stored_in(size, Displaced { base: dst, off }),
        Insn::Alu { .. } | Insn::Neg { .. } | Insn::MovSx { .. } => written_by(moved),
        Insn::End { .. } | Insn::LoadImm64 { .. } => written_by(moved),
        Insn::Load { .. } | Insn::LoadSx { .. } => written_by(moved),
        Insn::Atomic { .. } | Insn::Ja { .. } | Insn::JaLong { .. } => None,
        Insn::JumpIf { .. } | Insn::CallLocal { .. } | Insn::Exit => None,
    }
}

/// What an extra instruction puts there.
fn makes(moved: &Insn) -> Option<Change>
    ensures { result ≡ makes moved.now }
{
    let into = made_in(moved)?;
    Some(Change::Made { into, insn: *moved })
}

/// What an extra instruction changes.
#[tactic(auto, unfolding(crate::specs::Matching::extra))]
pub fn extra<O: Code>(
    old: &O,
    site: GuardSite,
    known: &KnownHere<'_>,
    moved: &Insn,
) -> Option<Change>
    ensures { result ≡ extra (front (O.program old.now) site) (known_of known.now) moved.now }
{
    if passes(old, site, known, moved)
        || has_turn(known.counters, site.slot, moved)
        || tests_barred(known.barred, moved)
    {
        Some(Change::Kept)
    } else {
        makes(moved)
    }
}

/// An extra instruction at a new slot, how many more there are, and in front of which old slot.
#[derive(Clone, Copy)]
struct ExtraAt {
    site: GuardSite,
    left: u32,
    new_slot: u32,
}

/// Whether an instruction of the new program is an extra one, and the next one has fewer in front.
#[tactic(auto, unfolding(crate::specs::Matching::adds))]
fn adds<O: Code>(
    old: &O,
    notes: &[Option<Note>],
    known: &KnownHere<'_>,
    at: ExtraAt,
    moved: &Insn,
) -> bool
    requires { at.new_slot < max_slots }
    ensures { result ≡ adds notes.now (front (O.program old.now) at.site) (known_of known.now) at.left at.new_slot moved.now }
{
    match extra(old, at.site, known, moved) {
        Some(change) => {
            let arrival = Arrival {
                step: None,
                slot: at.site.slot,
                most: at.left,
                new_slot: at.new_slot + moved.slots(),
            };
            arrives(notes, known, change, arrival)
        }
        None => false,
    }
}

// ---- what is noted

/// Whether both call, where something is noted and each slot in which the programs have something else is out of the function's reach.
fn calls_here(
    notes: &[Option<Note>],
    known: &KnownHere<'_>,
    at: NewSlot<'_>,
    note: &Note,
    pair: StandIn,
) -> bool
    requires known { known_of known.now ≡ known_at_slot at note.now }
    requires old { note.now.old < max_slots }
    requires new { at.slot < max_slots }
    ensures { result ≡ calls notes.now (known_of known.now) note.now.old at.entry.slot pair.insn pair.moved }
{
    apart_waits(known) && calls(notes, at, note, &pair.insn, &pair.moved)
}

/// Whether a pair stands for one another, where something is noted.
#[tactic(auto, unfolding(crate::specs::Matching::stands))]
fn stands_at(
    notes: &[Option<Note>],
    at: NewSlot<'_>,
    note: &Note,
    same: bool,
    pair: StandIn,
) -> bool
    requires slots { (pair.slot ≡ note.now.old) × (pair.new_slot ≡ at.slot) }
    requires old { pair.slot < max_slots }
    requires new { pair.new_slot < max_slots }
    ensures { result ≡ stands notes.now (known_at_slot at.entry note.now) same pair.slot pair.new_slot pair.insn pair.moved }
{
    let facts = facts_at(note);
    let known = known_here(facts.as_slice(), at, note);
    returns(&known, pair)
        || calls_here(notes, &known, at, note, pair)
        || pairs(notes, &known, same, pair)
}

/// Whether the instruction at a new slot stands for the old one that is noted.
fn is_body<O: Code, N: Code>(
    old: &O,
    new: &N,
    notes: &[Option<Note>],
    at: NewSlot<'_>,
    note: &Note,
) -> bool
    requires { at.left ≡ left_alone (N.program new.now) at.bounds.untouched }
    ensures { IsTrue result ↔ IsBodyAt (O.program old.now) (N.program new.now) notes.now at.entry note.now }
{
    match (insn_at(old, note.old), insn_at(new, at.slot)) {
        (Some(insn), Some(moved)) => {
            let pair = StandIn {
                slot: note.old,
                new_slot: at.slot,
                insn,
                moved,
            };
            stands_at(notes, at, note, are_same(&insn, &moved), pair)
        }
        _ => false,
    }
}

/// Whether an instruction of the new program is an extra one, where something is noted.
fn adds_at<O: Code>(
    old: &O,
    notes: &[Option<Note>],
    at: NewSlot<'_>,
    note: &Note,
    moved: &Insn,
) -> bool
    requires some { 0 < note.now.extras }
    requires below { at.slot < max_slots }
    ensures { result ≡ adds notes.now (front_at (O.program old.now) at.entry note.now) (known_at_slot at.entry note.now) (note.now.extras - 1) at.entry.slot moved.now }
{
    let facts = facts_at(note);
    let known = known_here(facts.as_slice(), at, note);
    let site = GuardSite {
        slot: note.old,
        bounds: at.bounds,
    };
    let extra_at = ExtraAt {
        site,
        left: note.extras - 1,
        new_slot: at.slot,
    };
    adds(old, notes, &known, extra_at, moved)
}

/// Whether the instruction at a new slot is an extra one.
fn is_extra<O: Code, N: Code>(
    old: &O,
    new: &N,
    notes: &[Option<Note>],
    at: NewSlot<'_>,
    note: &Note,
) -> bool
    requires some { 0 < note.now.extras }
    requires left { at.left ≡ left_alone (N.program new.now) at.bounds.untouched }
    ensures { IsTrue result ↔ IsExtraAt (O.program old.now) (N.program new.now) notes.now at.entry note.now }
{
    match insn_at(new, at.slot) {
        Some(moved) => adds_at(old, notes, at, note, &moved),
        None => false,
    }
}

/// Whether what is noted of a new slot holds there.
pub fn holds_at<O: Code, N: Code>(old: &O, new: &N, notes: &[Option<Note>], at: NewSlot<'_>) -> bool
    requires { at.left ≡ left_alone (N.program new.now) at.bounds.untouched }
    ensures { IsTrue result ↔ HoldsAtSlot (O.program old.now) (N.program new.now) notes.now at.entry }
{
    match note_at(notes, at.slot) {
        Some(note) if note.extras == 0 => is_body(old, new, notes, at, note),
        Some(note) => is_extra(old, new, notes, at, note),
        None => true,
    }
}
