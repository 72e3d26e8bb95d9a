//! Whether a new program with a certificate keeps the meaning of an old one on plain addresses: the notes are judged with the states of the
//! certificate's walk.

ghost use Rattle.std.specs.Prelude.{◌≡◌, ◌↔◌, ◌⊎◌, ◌≤◌, ◌<◌, ◌+◌, ℕ, None, IsOk, IfOk, IfErr, IsTrue, true, option_copied, length as list_length};
ghost use Rattle.std.specs.Option.{is_some};
ghost use Rattle.bpf_insn.specs.Instruction.{slots, insn_at};
ghost use Rattle.bpf_insn.specs.Limits.{max_slots};
ghost use Rattle.bpf_safety.specs.Certified.{Certified};
ghost use Rattle.bpf_kept.specs.Matching.{left_alone, HoldsAt, StandsForExit, MayEnd};
ghost use Rattle.bpf_kept.specs.Mismatches.{IsFor, MatchesBeside, IsMismatch, IsLowest, IsAt};
ghost use Rattle.bpf_kept.specs.Shown.{Keeps};
ghost use Rattle.bpf_kept.specs.States.{States, states_of};
ghost use Rattle.bpf_follows.specs.Stretch.{HasStateOf, HoldHere, FailsHere};

use crate::walk::{go_on, stated};
use bpf_cert::Certificate;
use bpf_check::{Index, Site, Spot, Walk, arrive};
use bpf_insn::Code;
use bpf_kept::{
    Bounds, Mismatch, NewSlot, Note, begun, certified_keeps_flat_meaning, flat_meaning_is_exact,
    flat_meaning_is_far, judged_at, stands_for_exit,
};
use bpf_state::Work;

/// Whether what is noted of an instruction's one or two slots holds, with the state in front of it. In a second slot nothing stands.
fn hold_here<O: Code, N: Code>(
    old: &O,
    new: &N,
    notes: &[Option<Note>],
    at: NewSlot<'_>,
    count: u32,
) -> Result<(), Mismatch>
    requires left { at.left ≡ left_alone (N.program new.now) at.bounds.untouched }
    requires some { 0 < count }
    requires few { count ≤ 2 }
    requires below { at.slot < max_slots }
    requires second { (n : ℕ) → 0 < n → n < count → insn_at (N.program new.now).list (at.slot + n) ≡ None }
    ensures ok { (states : States) → HasStateOf at.entry states → IsOk result → HoldHere (O.program old.now) (N.program new.now) notes.now at.entry states count }
    ensures err { (states : States) → HasStateOf at.entry states → IfErr result (FailsHere (O.program old.now) (N.program new.now) notes.now at.entry states count) }
{
    judged_at(old, new, notes, at)?;
    if count == 1 {
        return Ok(());
    }
    let second = NewSlot {
        slot: at.slot + 1,
        state: None,
        ..at
    };
    judged_at(old, new, notes, second)
}

/// Whether the certificate's walk comes to a slot of the new program at which an EXIT of the old one is stood for.
fn ends_here<O: Code>(old: &O, notes: &[Option<Note>], at: NewSlot<'_>) -> bool
    ensures { IsTrue result ↔ ((is_some (option_copied at.entry.state) ≡ true) × StandsForExit (O.program old.now) notes.now at.entry.slot) }
{
    match at.state {
        Some(_state) => stands_for_exit(old, notes, at.slot),
        None => false,
    }
}

/// Whether the walk did before, or does so there.
fn ends_by<O: Code>(old: &O, notes: &[Option<Note>], at: NewSlot<'_>, before: bool) -> bool
    ensures { IsTrue result ↔ (IsTrue before ⊎ ((is_some (option_copied at.entry.state) ≡ true) × StandsForExit (O.program old.now) notes.now at.entry.slot)) }
{
    before || ends_here(old, notes, at)
}

/// Whether what is noted of each new slot holds, where in front of each instruction stands what the certificate's walk comes there with: then it is told
/// whether the walk comes to an exit that stands for one of the old program's. Else the lowest slot where it doesn't is told, and what fails of it.
fn all_hold<'a, O: Code, N: Code>(
    old: &O,
    new: &N,
    notes: &[Option<Note>],
    certificate: &'a Index<'a>,
    bounds: Bounds,
    left: u32,
) -> Result<bool, Mismatch>
    requires left { left ≡ left_alone (N.program new.now) bounds.untouched }
    requires few { list_length notes.now ≤ slots (N.program new.now).list }
    ensures exact { IsOk result ↔ ((slot : ℕ) → HoldsAt (O.program old.now) (N.program new.now) notes.now bounds (states_of (N.program new.now) certificate.now slot) slot) }
    ensures ends { IfOk result (λ ends. IsTrue ends ↔ MayEnd (O.program old.now) notes.now (states_of (N.program new.now) certificate.now)) }
    ensures err { IfErr result (IsAt (IsLowest (O.program old.now) (N.program new.now) notes.now bounds (states_of (N.program new.now) certificate.now))) }
{
    let _slots = new.slots();
    let mut walk = Walk::new();
    let mut work = Work::new();
    let mut here = Spot::of(certificate, 0);
    let mut ends = false;
    'insns: while let Some(insn) = new.insn(here.slot) {
        let site = Site::of(certificate, here, insn);
        let _never = arrive(&site.here, &mut walk);
        let at = NewSlot {
            slot: here.slot,
            bounds,
            left,
            state: stated(&walk),
        };
        hold_here(old, new, notes, at, insn.slots())?;
        ends = ends_by(old, notes, at, ends);
        go_on(new, &site, &mut walk, &mut work);
        here = site.next;
    }
    Ok(ends)
}

/// Whether a certificate is for contexts of so many bytes.
fn is_for(certificate: &Certificate, length: u32) -> bool
    ensures { IsTrue result ↔ IsFor certificate.now length }
{
    certificate.least() <= length && length <= certificate.most()
}

/// Whether notes beside a certificate show that the new program keeps the meaning of the old one: on each context of so many bytes on which the old one
/// ends with a number on plain addresses, with frames near and wide, the new one ends with that number. So it is wherever memory lies far, and on the
/// exact machine. Where no note has a counter, it is so of each such run, however often it comes to an instruction. On some such context the old program
/// may end, as far as the certificate tells. The notes, one for each slot of the new program that is used, are looked at and not trusted, and what is known of the new program's
/// numbers is what the certificate's check knows. It takes one pass, and no memory. Else it is told what fails first.
pub fn follows<O: Code, N: Code>(
    old: &O,
    new: &N,
    notes: &[Option<Note>],
    certificate: &Certificate,
    bounds: Bounds,
) -> Result<(), Mismatch>
    ensures keeps { IsOk result → Certified (N.program new.now) certificate.now → Keeps (O.program old.now) (N.program new.now) notes.now bounds }
    ensures exact { IsOk result ↔ MatchesBeside (O.program old.now) (N.program new.now) notes.now certificate.now bounds }
    ensures err { IfErr result (IsMismatch (O.program old.now) (N.program new.now) notes.now certificate.now bounds) }
{
    certificate.valid();
    let _slots = old.slots();
    let _new_slots = new.slots();
    certified_keeps_flat_meaning();
    flat_meaning_is_far();
    flat_meaning_is_exact();
    if !is_for(certificate, bounds.length) {
        return Err(Mismatch::Length);
    }
    let left = begun(old, new, notes, bounds)?;
    let ends = all_hold(old, new, notes, &Index::of(certificate), bounds, left)?;
    if !ends {
        return Err(Mismatch::NoExit);
    }
    Ok(())
}
