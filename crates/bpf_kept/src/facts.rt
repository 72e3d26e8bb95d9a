//! Facts: which give which, and what they say of a register or of a slot of the frame.

ghost use Rattle.std.specs.Prelude.{◌≡◌};
ghost use Rattle.bpf_kept.specs.Rules.{same_register, same_holder, is_holder, is_register, is_base, gives, is_own, own_in, own, is_same, is_low_fact, is_low, is_pin, pinned, pin_fact, is_number, numbered};
ghost use Rattle.bpf_kept.specs.Behind.{stays, by_itself, known_number};

use crate::notes::{Fact, Holder, Term};
use crate::terms::{is_enough, is_zero, zero};
use bpf_insn::Reg;

/// Whether two registers are the same.
pub fn same_register(a: Reg, b: Reg) -> bool
    ensures { result ≡ same_register a b }
{
    a as u8 == b as u8
}

/// Whether two are one register, or one slot.
pub fn same_holder(a: Holder, b: Holder) -> bool
    ensures { result ≡ same_holder a b }
{
    match (a, b) {
        (Holder::Register(a), Holder::Register(b)) => same_register(a, b),
        (Holder::Slot(m), Holder::Slot(n)) => m == n,
        (Holder::Length, Holder::Length) => true,
        _ => false,
    }
}

/// Whether it is this register or slot, and not 0.
pub fn is_holder(h: Holder, of: Option<Holder>) -> bool
    ensures { result ≡ is_holder h of }
{
    match of {
        Some(of) => same_holder(of, h),
        None => false,
    }
}

/// Whether it is this register, and not 0.
pub fn is_register(r: Reg, of: Option<Holder>) -> bool
    ensures { result ≡ is_register r of }
{
    is_holder(Holder::Register(r), of)
}

/// Whether both are one register or slot, or both 0.
pub fn is_base(a: Option<Holder>, b: Option<Holder>) -> bool
    ensures { result ≡ is_base a b }
{
    match a {
        Some(h) => is_holder(h, b),
        None => b.is_none(),
    }
}

/// Whether one fact gives another.
pub fn gives(have: Fact, want: Fact) -> bool
    ensures { result ≡ gives have want }
{
    is_base(have.of, want.of) && is_base(have.base, want.base) && is_enough(have.by, want.by)
}

/// Whether it is of neither program's register or slot.
pub fn stays(h: Holder, fact: Fact) -> bool
    ensures { result ≡ stays h fact }
{
    !is_holder(h, fact.of) && !is_holder(h, fact.base)
}

/// That a register or slot is the same in both.
pub fn by_itself(h: Holder) -> Fact
    ensures { result ≡ by_itself h }
{
    Fact {
        of: Some(h),
        base: Some(h),
        by: Some(zero()),
    }
}

/// That a register or slot, or 0, is a number.
pub fn known_number(of: Option<Holder>, t: Term) -> Fact
    ensures { result ≡ known_number of t }
{
    Fact {
        of,
        base: None,
        by: Some(t),
    }
}

// ---- by the old program's

/// Whether a fact says how far a register or slot is from the old program's.
fn is_own(h: Holder, fact: Fact) -> bool
    ensures { result ≡ is_own h fact }
{
    is_holder(h, fact.of) && is_holder(h, fact.base) && fact.by.is_some()
}

/// How far a register or slot is from the old program's.
#[tactic(auto, unfolding(crate::specs::Rules::own_in))]
pub fn own_in(facts: &[Fact], h: Holder) -> Option<Term>
    ensures { result ≡ own_in facts.now h }
{
    match facts.iter().find(|fact| is_own(h, **fact)) {
        Some(fact) => fact.by,
        None => None,
    }
}

/// How far a register is.
pub fn own(facts: &[Fact], r: Reg) -> Option<Term>
    ensures { result ≡ own facts.now r }
{
    own_in(facts, Holder::Register(r))
}

/// Whether it holds the same in both programs.
pub fn is_same(facts: &[Fact], r: Reg) -> bool
    ensures { result ≡ is_same facts.now r }
{
    match own(facts, r) {
        Some(t) => is_zero(t),
        None => false,
    }
}

/// Whether a fact says that the low half is the same.
fn is_low_fact(r: Reg, fact: Fact) -> bool
    ensures { result ≡ is_low_fact r fact }
{
    is_register(r, fact.of) && is_register(r, fact.base) && is_enough(fact.by, None)
}

/// Whether the low half is the same.
pub fn is_low(facts: &[Fact], r: Reg) -> bool
    ensures { result ≡ is_low facts.now r }
{
    facts.iter().any(|fact| is_low_fact(r, *fact))
}

// ---- numbers by themselves

/// Whether a fact says that what the old program has is one number.
fn is_pin(h: Holder, fact: Fact) -> bool
    ensures { result ≡ is_pin h fact }
{
    fact.of.is_none() && is_holder(h, fact.base) && fact.by.is_some()
}

/// What makes 0 with the number that the old program has in a register or slot.
#[tactic(auto, unfolding(crate::specs::Rules::pinned))]
pub fn pinned(facts: &[Fact], h: Holder) -> Option<Term>
    ensures { result ≡ pinned facts.now h }
{
    match facts.iter().find(|fact| is_pin(h, **fact)) {
        Some(fact) => fact.by,
        None => None,
    }
}

/// That what the old program has in a register or slot and a term are 0.
pub fn pin_fact(h: Holder, t: Term) -> Fact
    ensures { result ≡ pin_fact h t }
{
    Fact {
        of: None,
        base: Some(h),
        by: Some(t),
    }
}

/// Whether a fact says that what the new program has is one number.
fn is_number(h: Holder, fact: Fact) -> bool
    ensures { result ≡ is_number h fact }
{
    is_holder(h, fact.of) && fact.base.is_none() && fact.by.is_some()
}

/// The number that the new program has in a register or slot.
#[tactic(auto, unfolding(crate::specs::Rules::numbered))]
pub fn numbered(facts: &[Fact], h: Holder) -> Option<Term>
    ensures { result ≡ numbered facts.now h }
{
    match facts.iter().find(|fact| is_number(h, **fact)) {
        Some(fact) => fact.by,
        None => None,
    }
}
