//! The lists of a note, with what fills the places of which nothing is said.

ghost use Rattle.std.specs.Prelude.{◌≡◌, option_map};
ghost use Rattle.bpf_follows.specs.code.Reading.{turn_in, fact_at, mark_at, counter_at, facts_in, marks_in, counters_in, back_in};

use crate::digits::at_in;
use crate::facts::{counted_in, placed_in};
use crate::same::{nothing, says_nothing, usual_back};
use bpf_kept::{BACK, COUNTERS, Fact, SLOTS, TurnsLeft};
use bpf_streams::behind;

/// The fact of a place, and what stands behind it.
#[tactic(auto, unfolding(crate::specs::code::Reading::fact_at))]
fn fact_at(text: &[u8], gap: bool, at: usize) -> (Fact, &[u8])
    ensures { (result.0, result.1.now) ≡ fact_at gap at text.now }
{
    match placed_in(text, gap, at) {
        Some(found) => found,
        None => (nothing(), text),
    }
}

/// All facts of a list, and what stands behind them.
pub fn facts_in<const N: usize>(text: &[u8]) -> ([Fact; N], &[u8])
    ensures { (result.0, result.1.now) ≡ facts_in N text.now }
{
    let mut facts = [nothing(); N];
    let mut gap = false;
    let mut rest = text;
    for at in 0..N {
        let (fact, more) = fact_at(rest, gap, at);
        facts[at] = fact;
        gap = says_nothing(fact);
        rest = more;
    }
    (facts, rest)
}

/// What stands behind the place where marks begin or end.
#[tactic(auto, unfolding(crate::specs::code::Reading::turn_in))]
fn turn_in<'a>(text: &'a [u8], word: &[u8], marked: bool, at: usize) -> Option<&'a [u8]>
    ensures { option_map (λ x. x.now) result ≡ turn_in word.now marked at text.now }
{
    if marked {
        at_in(text, b"<", at, b"")
    } else {
        at_in(text, word, at, b"..")
    }
}

/// Whether a slot is marked, where the one in front of it is or isn't, and what stands behind that.
#[tactic(auto, unfolding(crate::specs::code::Reading::mark_at))]
fn mark_at<'a>(text: &'a [u8], word: &[u8], marked: bool, at: usize) -> (bool, &'a [u8])
    ensures { (result.0, result.1.now) ≡ mark_at word.now marked at text.now }
{
    match turn_in(text, word, marked, at) {
        Some(rest) => (!marked, rest),
        None => (marked, text),
    }
}

/// Which slots are marked behind a word, and what stands behind that.
pub fn marks_in<'a>(text: &'a [u8], word: &[u8]) -> ([bool; SLOTS], &'a [u8])
    ensures { (result.0, result.1.now) ≡ marks_in word.now text.now }
{
    let mut marks = [false; SLOTS];
    let mut marked = false;
    let mut rest = text;
    for at in 0..SLOTS {
        let (mark, more) = mark_at(rest, word, marked, at);
        marks[at] = mark;
        marked = mark;
        rest = more;
    }
    (marks, rest)
}

/// The counter of a place, and what stands behind it.
#[tactic(auto, unfolding(crate::specs::code::Reading::counter_at))]
fn counter_at(text: &[u8], at: usize) -> (Option<TurnsLeft>, &[u8])
    ensures { (result.0, result.1.now) ≡ counter_at tt at text.now }
{
    match counted_in(text, at) {
        Some(found) => found,
        None => (None, text),
    }
}

/// All counters, and what stands behind them.
pub fn counters_in(text: &[u8]) -> ([Option<TurnsLeft>; COUNTERS], &[u8])
    ensures { (result.0, result.1.now) ≡ counters_in text.now }
{
    let mut counters = [None; COUNTERS];
    let mut rest = text;
    for at in 0..COUNTERS {
        let (counter, more) = counter_at(rest, at);
        counters[at] = counter;
        rest = more;
    }
    (counters, rest)
}

/// What the function gives back, and what stands behind that.
#[tactic(auto, unfolding(crate::specs::code::Reading::back_in))]
pub fn back_in(text: &[u8]) -> ([Fact; BACK], &[u8])
    ensures { (result.0, result.1.now) ≡ back_in text.now }
{
    match behind(text, b" back") {
        Some(rest) => facts_in::<BACK>(rest),
        None => (usual_back(), text),
    }
}
