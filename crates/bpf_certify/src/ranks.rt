//! Which facts are needed most.

use bpf_kept::{Fact, Holder, Term, same_holder};

/// How many ranks there are.
pub const RANKS: u8 = 5;

/// Whether a term leads to an address: the frame's, or one near the context's, which is 2^63.
fn is_pointing(by: Option<Term>) -> bool {
    by.is_some_and(|by| by.frames != 0 || matches!(by.moved >> 62, 1 | 2))
}

/// Whether a place is a register.
fn is_register(holder: Holder) -> bool {
    matches!(holder, Holder::Register(_))
}

/// The rank of what the new program has by itself, or the old one.
fn number_rank(holder: Holder, by: Option<Term>) -> u8 {
    match (is_register(holder), is_pointing(by)) {
        (_, true) => 1,
        (true, false) => 3,
        (false, false) => 4,
    }
}

/// The rank of what a place has by an old place.
fn distance_rank(of: Holder, base: Holder, by: Option<Term>) -> u8 {
    match (same_holder(of, base), base) {
        (_, Holder::Length) => 1,
        (true, Holder::Register(_)) => 0,
        (true, Holder::Slot(_)) => if is_pointing(by) { 1 } else { 4 },
        (false, Holder::Register(_)) => 2,
        (false, Holder::Slot(_)) => 4,
    }
}

/// How soon a fact is noted, from 0 on, so that there is room for those that are needed most. First is how registers differ. Then come addresses and a packet's
/// length, copies of registers, numbers in registers, and numbers in slots of the frame.
pub fn rank_of(fact: &Fact) -> u8 {
    match (fact.of, fact.base) {
        (Some(of), Some(base)) => distance_rank(of, base, fact.by),
        (Some(of), None) => number_rank(of, fact.by),
        (None, Some(base)) => number_rank(base, fact.by),
        (None, None) => 4,
    }
}
