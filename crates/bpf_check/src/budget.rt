//! What budgets allow, and what edges take of them.

ghost use Rattle.std.specs.Prelude.{◌≡◌, ◌≤◌, ◌^◌, pos, ◌+ℤ◌, ◌-ℤ◌, ◌*ℤ◌, IsTrue, IsSome, IfSome, length};
ghost use Rattle.std.specs.List.{list_all};
ghost use Rattle.bpf_num.specs.Interval.{Interval, IsInterval};
ghost use Rattle.bpf_state.specs.State.{IsPlace, tag};
ghost use Rattle.bpf_cert.specs.View.{label_view};
ghost use Rattle.bpf_cert.specs.Limits.{max_terms, is_limited_label, is_limited_term, max_weight};
ghost use Rattle.bpf_safety.specs.Budget.{budget, place_of, unsigned_bounds, measured, term_value, least_at_ends, greatest_at_ends, each_term, sum_if, bounds, shares, share_of, free_part, greatest_budget, least_budget};
ghost use Rattle.bpf_safety.specs.Flow.{label_state};
ghost use Rattle.bpf_check.specs.code.Slack.{at_label, kept_of, free_of, IsWithin};

use bpf_cert::{Label, Measure, Term};
use bpf_num::Unsigned;
use bpf_state::{Entries, Place, State, Tag};

/// The place that a term looks at.
pub fn place_of(term: &Term) -> Place
    ensures { result ≡ place_of term.now }
{
    match term.measure {
        Measure::Down(place) => place,
        Measure::Up(place, _limit) => place,
    }
}

/// The bounds of the number that a term's place holds.
pub fn bounds(state: &State, term: &Term) -> Option<Unsigned>
    requires { IsTrue (is_limited_term term.now) }
    ensures { result ≡ bounds state.now term.now }
{
    match state.held(place_of(term)).number() {
        Some(number) => Some(number.unsigned()),
        None => None,
    }
}

/// The bounds of the number that a label says of a term's place.
pub fn bounds_said(label: &Entries, term: &Term) -> Option<Unsigned>
    requires { IsTrue (is_limited_term term.now) }
    ensures { result ≡ bounds label.now term.now }
{
    match label.held(place_of(term)).number() {
        Some(number) => Some(number.unsigned()),
        None => None,
    }
}

/// The bounds of the number that a term's place holds at a label that gives a state.
pub fn bounds_at_label(label: &Label, term: &Term) -> Option<Unsigned>
    requires limited { IsTrue (is_limited_term term.now) }
    requires alive { IsSome (label_state (label_view label.now)) }
    ensures { result ≡ bounds (at_label (label_view label.now)) term.now }
{
    let Some(number) = label.state.held(place_of(term)).number() else {
        return None;
    };
    match number.tighten() {
        Some(tightened) => Some(tightened.unsigned()),
        None => None,
    }
}

/// What a measure gives where its place has the value x.
fn measured(measure: Measure, x: i128) -> i128
    requires { IsWithin (2 ^ 66) x }
    ensures value { result ≡ measured measure x }
    ensures small { IsWithin (2 ^ 67) result }
{
    match measure {
        Measure::Down(_) => x,
        Measure::Up(_, limit) => i128::from(limit) - x,
    }
}

/// The product of a weight, from 0 to `max_weight`, and what is measured.
fn weighted(weight: u32, x: i128) -> i128
    requires weight { weight ≤ max_weight }
    requires small { IsWithin (2 ^ 67) x }
    ensures value { result ≡ pos weight *ℤ x }
    ensures small { IsWithin (2 ^ 87) result }
{
    i128::from(weight) * x
}

/// The value of a term where its place has the value x.
fn term_value(term: &Term, x: i128) -> i128
    requires limited { IsTrue (is_limited_term term.now) }
    requires small { IsWithin (2 ^ 66) x }
    ensures value { result ≡ term_value term.now x }
    ensures small { IsWithin (2 ^ 87) result }
{
    weighted(term.weight, measured(term.measure, x))
}

/// The greatest value of a term between the bounds of its place.
fn greatest_at_ends(term: &Term, range: Unsigned) -> i128
    requires { IsTrue (is_limited_term term.now) }
    ensures value { result ≡ greatest_at_ends (term_value term.now) range }
    ensures small { IsWithin (2 ^ 90) result }
{
    let low = term_value(term, i128::from(range.lo()));
    let high = term_value(term, i128::from(range.hi()));
    low.max(high)
}

/// The least value of a term between the bounds of its place.
fn least_at_ends(term: &Term, range: Unsigned) -> i128
    requires { IsTrue (is_limited_term term.now) }
    ensures value { result ≡ least_at_ends (term_value term.now) range }
    ensures small { IsWithin (2 ^ 90) result }
{
    let low = term_value(term, i128::from(range.lo()));
    let high = term_value(term, i128::from(range.hi()));
    low.min(high)
}

/// The greatest value of a label's budget within a state's bounds, if each of its places holds a number.
pub fn greatest_budget(label: &Label, state: &State) -> Option<i128>
    requires { IsTrue (is_limited_label (label_view label.now)) }
    ensures value { result ≡ greatest_budget (budget (label_view label.now)) state.now }
    ensures small { IfSome result (λ z. IsWithin (2 ^ 93) z) }
{
    let mut sum = i128::from(label.budget.base);
    let terms = label.budget.terms.as_slice();
    for term in terms {
        let Some(range) = bounds(state, term) else {
            return None;
        };
        sum += greatest_at_ends(term, range);
    }
    Some(sum)
}

/// The least value of a label's budget at the label itself, if each of its places holds a number.
pub fn least_budget(label: &Label) -> Option<i128>
    requires limited { IsTrue (is_limited_label (label_view label.now)) }
    requires alive { IsSome (label_state (label_view label.now)) }
    ensures value { result ≡ least_budget (budget (label_view label.now)) (at_label (label_view label.now)) }
    ensures small { IfSome result (λ z. IsWithin (2 ^ 93) z) }
{
    let mut sum = i128::from(label.budget.base);
    let terms = label.budget.terms.as_slice();
    for term in terms {
        let Some(range) = bounds_at_label(label, term) else {
            return None;
        };
        sum += least_at_ends(term, range);
    }
    Some(sum)
}

/// What a new term takes of the place of the old term j, whose value is x: all of it if it is tagged with j.
fn share_of(j: usize, x: u64, tag: Option<Tag>, term: &Term) -> i128
    requires { IsTrue (is_limited_term term.now) }
    ensures value { result ≡ share_of j (pos x) tag term.now }
    ensures small { IsWithin (2 ^ 87) result }
{
    match tag {
        Some(tag) if usize::from(tag.term) == j => {
            term_value(term, i128::from(x) + i128::from(tag.offset))
        }
        _ => 0,
    }
}

/// What the terms of a new label take of the place of the old term j, whose value is x.
fn shares(j: usize, x: u64, edge: &State, terms: &[Term]) -> i128
    requires limited { IsTrue (list_all is_limited_term terms.now) }
    requires few { length terms.now ≤ max_terms }
    ensures value { result ≡ shares j (pos x) edge.now terms.now }
    ensures small { IsWithin (2 ^ 89) result }
{
    let mut sum = 0;
    for term in terms {
        sum += share_of(j, x, edge.tag(place_of(term)), term);
    }
    sum
}

/// What is left of an old term j, whose place has the value x, when new terms took their share of it.
fn left_of(j: usize, term: &Term, x: u64, edge: &State, terms: &[Term]) -> i128
    requires limited { IsTrue (is_limited_term term.now) }
    requires all_limited { IsTrue (list_all is_limited_term terms.now) }
    requires few { length terms.now ≤ max_terms }
    ensures value { result ≡ term_value term.now (pos x) -ℤ shares j (pos x) edge.now terms.now }
    ensures small { IsWithin (2 ^ 90) result }
{
    term_value(term, i128::from(x)) - shares(j, x, edge, terms)
}

/// The least that is left of an old term j between the bounds of its place, when new terms took their share of it.
fn least_left(j: usize, term: &Term, range: Unsigned, edge: &State, terms: &[Term]) -> i128
    requires limited { IsTrue (is_limited_term term.now) }
    requires all_limited { IsTrue (list_all is_limited_term terms.now) }
    requires few { length terms.now ≤ max_terms }
    ensures value { result ≡ least_at_ends (λ x. term_value term.now x -ℤ shares j x edge.now terms.now) range }
    ensures small { IsWithin (2 ^ 90) result }
{
    let low = left_of(j, term, range.lo(), edge, terms);
    let high = left_of(j, term, range.hi(), edge, terms);
    low.min(high)
}

/// The least of what the terms of an old label keep on an edge into a new one.
pub fn kept(old: &Label, edge: &State, new: &Label) -> Option<i128>
    requires old { IsTrue (is_limited_label (label_view old.now)) }
    requires alive { IsSome (label_state (label_view old.now)) }
    requires new { IsTrue (is_limited_label (label_view new.now)) }
    ensures value { result ≡ kept_of (label_view old.now) edge.now (label_view new.now) }
    ensures small { IfSome result (λ z. IsWithin (2 ^ 93) z) }
{
    let mut sum = 0;
    let taken = new.budget.terms.as_slice();
    let terms = old.budget.terms.as_slice();
    for j in 0..terms.len() {
        let Some(range) = bounds_at_label(old, &terms[j]) else {
            return None;
        };
        sum += least_left(j, &terms[j], range, edge, taken);
    }
    Some(sum)
}

/// The greatest of what a new term takes beside the old places: all of it if it isn't tagged.
fn greatest_free(edge: &State, term: &Term) -> Option<i128>
    requires { IsTrue (is_limited_term term.now) }
    ensures value { result ≡ free_part edge.now (tag edge.now (place_of term.now)) term.now }
    ensures small { IfSome result (λ z. IsWithin (2 ^ 90) z) }
{
    if edge.tag(place_of(term)).is_some() {
        return Some(0);
    }
    match bounds(edge, term) {
        Some(range) => Some(greatest_at_ends(term, range)),
        None => None,
    }
}

/// The greatest of what the terms of a new label take beside the old places.
pub fn free(edge: &State, new: &Label) -> Option<i128>
    requires { IsTrue (is_limited_label (label_view new.now)) }
    ensures value { result ≡ free_of edge.now (label_view new.now) }
    ensures small { IfSome result (λ z. IsWithin (2 ^ 93) z) }
{
    let mut sum = 0;
    let terms = new.budget.terms.as_slice();
    for term in terms {
        let Some(part) = greatest_free(edge, term) else {
            return None;
        };
        sum += part;
    }
    Some(sum)
}

/// What is left of an old base after a cost and a new base.
pub fn base_left(old: u64, cost: i128, new: u64) -> i128
    requires { IsWithin (2 ^ 112) cost }
    ensures value { result ≡ (pos old -ℤ cost) -ℤ pos new }
    ensures small { IsWithin (2 ^ 113) result }
{
    i128::from(old) - cost - i128::from(new)
}

/// What is left of a base and what old terms keep, after what new terms take beside.
pub fn slack_of(base: i128, kept: i128, free: i128) -> i128
    requires base { IsWithin (2 ^ 113) base }
    requires kept { IsWithin (2 ^ 93) kept }
    requires free { IsWithin (2 ^ 93) free }
    ensures { result ≡ (base +ℤ kept) -ℤ free }
{
    base + kept - free
}
