//! What holds behind a change of registers and of the frame.

ghost use Rattle.std.specs.Prelude.{◌≡◌, ◌&&◌, false};
ghost use Rattle.std.specs.List.{list_any};
ghost use Rattle.std.specs.Option.{option_map_or};
ghost use Rattle.bpf_kept.specs.Rules.{is_holder, gives};
ghost use Rattle.bpf_kept.specs.Behind.{stays, pins, put_gives, made, made_gives, outlives, stored_gives, fetched_gives, change_gives, holds_behind, is_parted, is_told, are_told};
ghost use Rattle.bpf_kept.specs.Knowns.{known_of};

use crate::facts::{by_itself, gives, is_holder, known_number, same_holder, stays};
use crate::known::{KnownHere, same_slot};
use crate::made::made;
use crate::notes::{Change, Fact, Holder, SLOTS, Term};
use crate::slots::{is_clear, is_noted};
use crate::terms::zero;
use bpf_insn::{Insn, Reg};

// ---- facts

/// Whether a fact gives what is wanted.
fn is_given(facts: &[Fact], want: Fact) -> bool
    ensures { result ≡ list_any (λ have. gives have want) facts.now }
{
    facts.iter().any(|have| gives(*have, want))
}

/// Whether what the old program has by itself gives it.
fn pins(h: Option<Holder>, want: Fact, t: Term) -> bool
    ensures { result ≡ pins h want t }
{
    let pin = Fact {
        of: None,
        base: h,
        by: Some(t),
    };
    gives(pin, want)
}

/// Whether it does, if it is known.
fn pin_gives(h: Option<Holder>, pin: Option<Term>, want: Fact) -> bool
    ensures { result ≡ option_map_or (pins h want) pin false }
{
    match pin {
        Some(t) => pins(h, want, t),
        None => false,
    }
}

/// Whether a fact that is of neither program's register or slot gives it.
fn rest_gives(facts: &[Fact], h: Holder, want: Fact) -> bool
    ensures { result ≡ list_any (λ have. stays h have && gives have want) facts.now }
{
    facts
        .iter()
        .any(|have| stays(h, *have) && gives(*have, want))
}

/// Whether one does that isn't of what is put.
fn others_give(facts: &[Fact], h: Option<Holder>, want: Fact) -> bool
    ensures { result ≡ option_map_or (λ h. list_any (λ have. stays h have && gives have want) facts.now) h false }
{
    match h {
        Some(h) => rest_gives(facts, h, want),
        None => false,
    }
}

/// Whether what is put gives it, or what is left of the rest.
fn put_gives(facts: &[Fact], fact: Fact, pin: Option<Term>, want: Fact) -> bool
    ensures { result ≡ put_gives facts.now fact pin want }
{
    gives(fact, want) || pin_gives(fact.of, pin, want) || others_give(facts, fact.of, want)
}

/// Whether it is of this register or slot, and what the new program alone puts there is known so.
fn is_made_so(facts: &[Fact], h: Holder, insn: &Insn, want: Fact) -> bool
    ensures { result ≡ (is_holder h want.of && made facts.now insn.now want) }
{
    is_holder(h, want.of) && made(facts, insn, want)
}

/// Whether what the new program alone puts gives it, or the rest.
fn made_gives(facts: &[Fact], h: Holder, insn: &Insn, want: Fact) -> bool
    ensures { result ≡ made_gives facts.now h insn.now want }
{
    is_made_so(facts, h, insn, want)
        || facts
            .iter()
            .any(|have| !is_holder(h, have.of) && gives(*have, want))
}

/// Whether a fact is of no slot that has some of these bytes.
fn outlives(from: u32, to: u32, fact: Fact) -> bool
    ensures { result ≡ outlives from to fact }
{
    is_clear(from, to, fact.of) && is_clear(from, to, fact.base)
}

/// Whether such a fact gives it.
fn stored_gives(facts: &[Fact], from: u32, to: u32, want: Fact) -> bool
    ensures { result ≡ stored_gives facts.now from to want }
{
    facts
        .iter()
        .any(|have| outlives(from, to, *have) && gives(*have, want))
}

/// Whether a fact gives it that is of neither such a slot nor the register into which both put what was there.
fn unfetched_give(facts: &[Fact], from: u32, to: u32, h: Holder, want: Fact) -> bool
    ensures { result ≡ list_any (λ have. (outlives from to have && stays h have) && gives have want) facts.now }
{
    facts.iter().any(|have| outlives(from, to, *have) && stays(h, *have) && gives(*have, want))
}

/// Whether it does, or that what was there is the same in both.
fn fetched_gives(facts: &[Fact], from: u32, to: u32, into: Reg, want: Fact) -> bool
    ensures { result ≡ fetched_gives facts.now from to into want }
{
    let h = Holder::Register(into);
    gives(by_itself(h), want) || unfetched_give(facts, from, to, h, want)
}

/// Whether a change and the facts in front of it give what is wanted.
fn change_gives(facts: &[Fact], change: Change, want: Fact) -> bool
    ensures { result ≡ change_gives facts.now change want }
{
    match change {
        Change::Kept => is_given(facts, want),
        Change::Put { fact, pin } => put_gives(facts, fact, pin, want),
        Change::Stored { from, to } => stored_gives(facts, from, to, want),
        Change::Fetched { from, to, into } => fetched_gives(facts, from, to, into, want),
        Change::Made { into, insn } => made_gives(facts, into, &insn, want),
    }
}

/// Whether a fact holds behind a change, by those in front of it.
#[tactic(auto, unfolding(crate::specs::Behind::holds_behind))]
pub fn holds_behind(facts: &[Fact], change: Change, want: Fact) -> bool
    ensures { result ≡ holds_behind facts.now change want }
{
    gives(known_number(None, zero()), want) || change_gives(facts, change, want)
}

// ---- slots

/// Whether the programs may have something else in a slot behind a change.
fn is_parted(apart: &[bool], change: Change, n: u8) -> bool
    ensures { result ≡ is_parted apart.now change n }
{
    match change {
        Change::Put { fact, .. } => is_holder(Holder::Slot(n), fact.of) || is_noted(apart, n),
        Change::Made { into, .. } => same_holder(Holder::Slot(n), into) || is_noted(apart, n),
        Change::Kept | Change::Stored { .. } | Change::Fetched { .. } => is_noted(apart, n),
    }
}

/// Whether a slot is noted as one, or has the same.
pub fn is_told(known: &KnownHere<'_>, change: Change, apart: &[bool], n: u8) -> bool
    ensures { result ≡ is_told (known_of known.now) change apart.now n }
{
    !is_parted(known.apart, change, n)
        || is_noted(apart, n)
        || holds_behind(known.facts, change, same_slot(n))
}

/// Whether each slot is.
pub fn are_told(known: &KnownHere<'_>, change: Change, apart: &[bool]) -> bool
    ensures { result ≡ are_told (known_of known.now) change apart.now }
{
    for n in 0..SLOTS as u8 {
        if !is_told(known, change, apart, n) {
            return false;
        }
    }
    true
}
