//! Calls of local functions: what a function is handed, what its caller still knows behind it, and what it gives back.

ghost use Rattle.std.specs.Prelude.{◌≡◌, ◌+◌, ◌++◌, ◌<◌, ◌≤◌, ◌*◌, ◌||◌, [], ◌∷◌, not, filter, map, nat_le, length as list_length, if◌then◌else◌};
ghost use Rattle.std.specs.List.{list_all};
ghost use Rattle.bpf_kept.specs.Terms.{is_noted};
ghost use Rattle.bpf_kept.specs.Calls.{is_of, is_between, is_frameless, is_carried, is_handed, is_result, fresh_facts, waits, fact_waits, counter_waits, scratch_facts, apart_waits, is_unlike, is_another, is_other, spares, is_this, tests_barred};
ghost use Rattle.bpf_kept.specs.Matching.{facts_at};
ghost use Rattle.bpf_kept.specs.Knowns.{facts_in, known_of, fresh_registers};

use crate::facts::{by_itself, is_same, pinned};
use crate::known::{FactList, KnownHere, add_same, add_zeros, facts_at};
use crate::notes::{COUNTERS, Fact, Holder, Note, SLOTS, Term, TurnsLeft};
use crate::slots::is_noted;
use crate::states::never_holds;
use bpf_insn::{Cond, Insn, Operand, Reg, Width, extended};

// ---- from one function to another one

/// Whether it is of no register but those from one on, below another, and of no slot.
fn is_between(from: u8, to: u8, of: Option<Holder>) -> bool
    ensures { result ≡ is_of (is_between from to) of }
{
    match of {
        Some(Holder::Register(r)) => from <= r as u8 && (r as u8) < to,
        Some(Holder::Slot(_)) => false,
        Some(Holder::Length) | None => true,
    }
}

/// Whether no frame counts in it.
fn is_frameless(by: Option<Term>) -> bool
    ensures { result ≡ is_frameless by }
{
    match by {
        Some(t) => t.frames == 0,
        None => true,
    }
}

/// Whether another function's frame changes nothing of a fact about such registers.
fn is_carried(from: u8, to: u8, fact: Fact) -> bool
    ensures { result ≡ is_carried from to fact }
{
    is_between(from, to, fact.of) && is_between(from, to, fact.base) && is_frameless(fact.by)
}

/// Whether a fact is handed to a function.
fn is_handed(fact: Fact) -> bool
    ensures { result ≡ is_handed fact }
{
    is_carried(1, 6, fact)
}

/// Whether a fact is of what a function gives back.
fn is_result(fact: Fact) -> bool
    ensures { result ≡ is_result fact }
{
    is_carried(0, 1, fact)
}

/// Whether each is.
pub fn are_results(facts: &[Fact]) -> bool
    ensures { result ≡ list_all is_result facts.now }
{
    facts.iter().all(|fact| is_result(*fact))
}

/// Adds facts.
fn add_all(facts: &mut FactList, more: &[Fact])
    requires { facts.old.count + list_length more.now ≤ 162 }
    ensures facts { facts_in facts.new ≡ facts_in facts.old ++ more.now }
    ensures count { facts.new.count ≡ facts.old.count + list_length more.now }
{
    for fact in more {
        facts.push(*fact);
    }
}

// ---- at the entry of a function

/// Adds a fact, if it is handed.
fn add_handed(facts: &mut FactList, fact: Fact)
    requires { facts.old.count < 162 }
    ensures facts { facts_in facts.new ≡ facts_in facts.old ++ (if is_handed fact then fact ∷ [] else []) }
    ensures count { facts.new.count ≤ facts.old.count + 1 }
{
    if is_handed(fact) {
        facts.push(fact);
    }
}

/// What is handed.
fn handed(facts: &[Fact]) -> FactList
    requires { list_length facts.now ≤ 32 }
    ensures facts { facts_in result ≡ filter is_handed facts.now }
    ensures count { result.count ≤ list_length facts.now }
{
    let mut all = FactList::new();
    for fact in facts {
        add_handed(&mut all, *fact);
    }
    all
}

/// The registers of which it is handed nothing are the same in both.
fn fresh_registers() -> [Fact; 6]
    ensures { result ≡ fresh_registers }
{
    [
        by_itself(Holder::Register(Reg::R0)),
        by_itself(Holder::Register(Reg::R6)),
        by_itself(Holder::Register(Reg::R7)),
        by_itself(Holder::Register(Reg::R8)),
        by_itself(Holder::Register(Reg::R9)),
        by_itself(Holder::Register(Reg::R10)),
    ]
}

/// What holds at the entry of a function that is called where something is noted.
pub fn entered_facts(note: &Note) -> FactList
    ensures facts { facts_in result ≡ filter is_handed (facts_at note.now) ++ fresh_facts }
    ensures count { result.count ≤ 162 }
{
    let mut facts = handed(&note.facts);
    add_all(&mut facts, &fresh_registers());
    add_zeros(&mut facts, &[true; SLOTS]);
    add_same(&mut facts, &[]);
    facts
}

// ---- behind the call

/// Whether what a register or slot holds waits for the caller, where no access goes to so many of the lowest bytes of a frame that waits.
fn waits(left: u32, h: Holder) -> bool
    ensures { result ≡ waits left h }
{
    match h {
        Holder::Register(r) => 6 <= r as u8,
        Holder::Slot(n) => 8 * u32::from(n) + 8 <= left,
        Holder::Length => true,
    }
}

/// Whether it does, if it is of one.
fn waits_of(left: u32, of: Option<Holder>) -> bool
    ensures { result ≡ is_of (waits left) of }
{
    match of {
        Some(h) => waits(left, h),
        None => true,
    }
}

/// Whether a fact does.
fn fact_waits(left: u32, fact: Fact) -> bool
    ensures { result ≡ fact_waits left fact }
{
    waits_of(left, fact.of) && waits_of(left, fact.base)
}

/// Adds a fact, if it does.
fn add_waiting(facts: &mut FactList, left: u32, fact: Fact)
    requires { facts.old.count < 162 }
    ensures facts { facts_in facts.new ≡ facts_in facts.old ++ (if fact_waits left fact then fact ∷ [] else []) }
    ensures count { facts.new.count ≤ facts.old.count + 1 }
{
    if fact_waits(left, fact) {
        facts.push(fact);
    }
}

/// The facts that do.
fn waiting(left: u32, facts: &[Fact]) -> FactList
    requires { list_length facts.now ≤ 155 }
    ensures facts { facts_in result ≡ filter (fact_waits left) facts.now }
    ensures count { result.count ≤ list_length facts.now }
{
    let mut all = FactList::new();
    for fact in facts {
        add_waiting(&mut all, left, *fact);
    }
    all
}

/// A function leaves 0 in r1 to r5.
fn scratch_facts() -> [Fact; 5]
    ensures { result ≡ scratch_facts }
{
    [
        by_itself(Holder::Register(Reg::R1)),
        by_itself(Holder::Register(Reg::R2)),
        by_itself(Holder::Register(Reg::R3)),
        by_itself(Holder::Register(Reg::R4)),
        by_itself(Holder::Register(Reg::R5)),
    ]
}

/// What holds behind a call where something is noted, if the function gives this back.
pub fn returned_facts(left: u32, note: &Note, back: &[Fact]) -> FactList
    requires { list_length back.now ≤ 2 }
    ensures facts { facts_in result ≡ filter (fact_waits left) (facts_at note.now) ++ back.now ++ scratch_facts }
    ensures count { result.count ≤ 162 }
{
    let here = facts_at(note);
    let mut facts = waiting(left, here.as_slice());
    add_all(&mut facts, back);
    add_all(&mut facts, &scratch_facts());
    facts
}

/// A counter that waits for the caller.
fn counter_waits(left: u32, counter: Option<TurnsLeft>) -> Option<TurnsLeft>
    ensures { result ≡ counter_waits left counter }
{
    match counter {
        Some(c) if waits(left, c.of) => Some(c),
        Some(_) | None => None,
    }
}

/// The counters that do.
pub fn returned_counters(
    left: u32,
    counters: [Option<TurnsLeft>; COUNTERS],
) -> [Option<TurnsLeft>; COUNTERS]
    ensures { result ≡ map (counter_waits left) counters }
{
    let mut all = counters;
    for n in 0..COUNTERS {
        all[n] = counter_waits(left, all[n]);
    }
    all
}

/// Whether something else stands in a slot only if that is among the lowest ones.
fn slot_waits(known: &KnownHere<'_>, n: u8) -> bool
    ensures { result ≡ (not (is_noted known.now.apart.now n) || nat_le (8 * n + 8) known.now.left) }
{
    !is_noted(known.apart, n) || 8 * u32::from(n) + 8 <= known.left
}

/// Whether it is so of each slot.
pub fn apart_waits(known: &KnownHere<'_>) -> bool
    ensures { result ≡ apart_waits (known_of known.now) }
{
    for n in 0..SLOTS as u8 {
        if !slot_waits(known, n) {
            return false;
        }
    }
    true
}

// ---- the number that a function's trap answers

/// Whether a term doesn't make 0 of a number.
fn is_unlike(n: u64, t: Term) -> bool
    ensures { result ≡ is_unlike n t }
{
    t.frames == 0 && n.wrapping_add(t.moved) != 0
}

/// Whether r0 is the same in both, and known to be another number.
fn is_another(facts: &[Fact], n: u64) -> bool
    ensures { result ≡ is_another facts.now n }
{
    if !is_same(facts, Reg::R0) {
        return false;
    }
    match pinned(facts, Holder::Register(Reg::R0)) {
        Some(t) => is_unlike(n, t),
        None => false,
    }
}

/// Whether r0 of the new program is known to be another one.
fn is_other(known: &KnownHere<'_>, n: u64) -> bool
    ensures { result ≡ is_other (known_of known.now) n }
{
    is_another(known.facts, n) || never_holds(known.state, Reg::R0, n)
}

/// Whether a function doesn't give it back here.
pub fn spares(known: &KnownHere<'_>, spare: Option<u64>) -> bool
    ensures { result ≡ spares (known_of known.now) spare }
{
    match spare {
        Some(n) => is_other(known, n),
        None => true,
    }
}

/// Whether it is this number.
pub fn is_this(number: Option<u64>, n: u64) -> bool
    ensures { result ≡ is_this number n }
{
    match number {
        Some(m) => m == n,
        None => false,
    }
}

/// Whether a test asks whether r0 is the number that it isn't.
pub fn tests_barred(barred: Option<u64>, insn: &Insn) -> bool
    ensures { result ≡ tests_barred barred insn.now }
{
    let Insn::JumpIf {
        cond: Cond::Eq,
        width: Width::W64,
        dst,
        src: Operand::Imm(imm),
        off: _off,
    } = *insn
    else {
        return false;
    };
    dst as u8 == 0 && is_this(barred, extended(imm))
}
