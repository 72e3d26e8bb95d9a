//! How a new program begins beside an old one: which extra instructions may stand at its start, and what may be noted of its first slot.

ghost use Rattle.std.specs.Prelude.{◌≡◌, ◌↔◌, ◌-◌, IsOk, IfOk, IfErr, IsTrue, option_copied};
ghost use Rattle.bpf_kept.specs.Matching.{most_at_start, start_slot, left_alone};
ghost use Rattle.bpf_kept.specs.Knowns.{starts_for};
ghost use Rattle.bpf_kept.specs.Mismatches.{Starts, IsBegun, IsUnbegun};

use crate::bounds::Bounds;
use crate::cut::cuts_blocks;
use crate::edges::{Arrival, arrives};
use crate::facts::by_itself;
use crate::known::{KnownHere, NewSlot, left_alone, start_facts};
use crate::mismatch::Mismatch;
use crate::notes::{Change, Holder, Note};
use bpf_insn::{Code, Order, Reg};
use bpf_state::State;

/// The greatest number of extra instructions at the start.
const MOST_AT_START: u32 = 256;

/// Whether two byte orders are the same.
fn same_order(a: Order, b: Order) -> bool
    ensures { IsTrue result ↔ (a ≡ b) }
{
    a == b
}

/// Behind how many instructions of the new program the old one's first one stands.
pub fn start_slot(padded: bool) -> u32
    ensures { result ≡ start_slot padded }
{
    if padded { 3 } else { 0 }
}

/// How many extra instructions may stand there.
fn most_at_start(padded: bool) -> u32
    ensures { result ≡ most_at_start - start_slot padded }
{
    if padded {
        MOST_AT_START - 3
    } else {
        MOST_AT_START
    }
}

/// Whether what is noted of the first slot asks for no more than what holds at the start.
fn starts(notes: &[Option<Note>], bounds: Bounds, left: u32, state: Option<&State>) -> bool
    ensures { result ≡ starts_for notes.now bounds left (option_copied state.entry) }
{
    let facts = start_facts(bounds.padded, bounds.length);
    let known = KnownHere {
        facts: facts.as_slice(),
        apart: &[],
        counters: &[],
        turns: bounds.turns,
        left,
        back: &[by_itself(Holder::Register(Reg::R0))],
        spare: None,
        barred: None,
        state,
    };
    let arrival = Arrival {
        step: None,
        slot: 0,
        most: most_at_start(bounds.padded),
        new_slot: start_slot(bounds.padded),
    };
    arrives(notes, &known, Change::Kept, arrival)
}

/// Whether the new program begins as it has to, and what is noted of the first slot holds.
fn begins<N: Code>(new: &N, notes: &[Option<Note>], bounds: Bounds, left: u32) -> bool
    requires { left ≡ left_alone (N.program new.now) bounds.untouched }
    ensures { IsTrue result ↔ Starts (N.program new.now) notes.now bounds }
{
    cuts_blocks(new, bounds.length, bounds.padded) && starts(notes, bounds, left, None)
}

/// What the notes say of the start matches: how many of the lowest bytes of the frame no access by another register than r10 goes to.
pub fn begun<O: Code, N: Code>(
    old: &O,
    new: &N,
    notes: &[Option<Note>],
    bounds: Bounds,
) -> Result<u32, Mismatch>
    ensures left { IfOk result (λ left. left ≡ left_alone (N.program new.now) bounds.untouched) }
    ensures exact { IsOk result ↔ IsBegun (O.program old.now) (N.program new.now) notes.now bounds }
    ensures err { IfErr result (IsUnbegun (O.program old.now) (N.program new.now) notes.now bounds) }
{
    if !same_order(new.order(), old.order()) {
        return Err(Mismatch::Order);
    }
    if notes.len() > new.slots() as usize {
        return Err(Mismatch::TooMany);
    }
    let left = left_alone(new, bounds.untouched);
    if !begins(new, notes, bounds, left) {
        return Err(Mismatch::Start);
    }
    Ok(left)
}
