//! Budgets that don't cover a cost.

use crate::known::{Known, Name, Offset};
use crate::places::tag_at;
use crate::sight::{EdgeSeen, Sight};
use bpf_cert::{Label, Measure, Term};
use bpf_check::place_of;
use bpf_insn::Code;
use bpf_state::{Place, SlotState, State, Tag};
use bpf_streams::Tell;

/// How far a counter moved on the way: `r6 falls by 1 at weight 5`.
fn tell_step<W: Tell>(out: &mut W, name: Name, step: i64, weight: u32) {
    if step == 0 {
        return write!(out, ", and {name} stays at weight {weight}");
    }
    let (verb, by) = (
        if step < 0 { "falls" } else { "rises" },
        step.unsigned_abs(),
    );
    write!(out, ", and {name} {verb} by {by} at weight {weight}");
}

/// The place that a term counted at the label before, if it is another one than a term counts now.
fn other_counted(old: &Label, term: &Term, tag: Tag) -> Option<Place> {
    match old.budget.terms.as_slice().get(usize::from(tag.term)) {
        Some(counted) if place_of(counted) != place_of(term) => Some(place_of(counted)),
        _ => None,
    }
}

/// What a place that holds a counter did on the way.
fn tell_move<W: Tell>(out: &mut W, old: &Label, term: &Term, tag: Tag) {
    let (name, weight) = (Name(place_of(term)), term.weight);
    let Some(counted) = other_counted(old, term, tag) else {
        return tell_step(out, name, tag.offset, weight);
    };
    let (before, slot, by) = (Name(counted), old.slot, Offset(tag.offset));
    write!(
        out,
        ", and {name} is {before} of slot {slot} {by} at weight {weight}"
    );
}

/// A place that isn't followed from the label before: it counts as the worst that it may hold.
fn tell_worst<W: Tell>(out: &mut W, state: &State, term: &Term) {
    let place = place_of(term);
    let name = Name(place);
    let weight = term.weight;
    let held = state.content(place);
    let SlotState::Word(number) = held else {
        let held = Known(held);
        return write!(out, ", and {name} is {held}");
    };
    let bounds = number.unsigned();
    match term.measure {
        Measure::Down(_) => {
            let most = bounds.hi();
            write!(
                out,
                ", and {name} is another value, at most {most}, at weight {weight}"
            );
        }
        Measure::Up(_, limit) => {
            let least = bounds.lo();
            write!(
                out,
                ", and {name} is another value, at least {least} of {limit}, at weight {weight}"
            );
        }
    }
}

/// What the places did that a label's terms count.
fn tell_terms<W: Tell>(out: &mut W, old: &Label, new: &Label, state: &State) {
    for term in new.budget.terms.as_slice() {
        match tag_at(state, place_of(term)) {
            Some(tag) => tell_move(out, old, term, tag),
            None => tell_worst(out, state, term),
        }
    }
}

/// Tells of a way that isn't paid: `the loop back to slot 1 costs 4, the base goes from 2 to 7`.
fn tell_way<W: Tell>(out: &mut W, way: &str, cost: i128, old: &Label, new: &Label) {
    let (to, before, behind) = (new.slot, old.budget.base, new.budget.base);
    write!(out, "{way} slot {to} costs {cost}");
    if before != behind {
        write!(out, ", the base goes from {before} to {behind}");
    }
}

/// Tells of an edge if it isn't paid. Whether it isn't.
fn tell_edge<C: Code, W: Tell>(out: &mut W, sight: &Sight<'_, C>, way: EdgeSeen<'_, '_>) -> bool {
    let edge = way.edge;
    if !edge.is_unpaid() {
        return false;
    }
    let (Some(here), Some(cost), Some(slack)) = (sight.here, sight.cost(), edge.slack) else {
        return false;
    };
    let Some(new) = edge.label else {
        return false;
    };
    let leads = if edge.to <= sight.site.here.slot {
        "the loop back to"
    } else {
        "the way to"
    };
    tell_way(out, leads, cost, here.label, new);
    tell_terms(out, here.label, new, way.state);
    let lack = slack.left;
    write!(out, ": slack {lack}");
    true
}

/// What an EXIT costs, if it is one, and what is left of the budget.
fn tell_exit<C: Code, W: Tell>(out: &mut W, sight: &Sight<'_, C>) {
    let (Some(here), Some(seen)) = (sight.here, &sight.seen) else {
        return;
    };
    let (Some(slack), Some(cost)) = (seen.left_at_exit, seen.cost) else {
        return;
    };
    let slot = here.label.slot;
    let least = slack.saturating_add(cost);
    write!(
        out,
        "the exit costs {cost}, and the budget at slot {slot} is at least {least}: slack {slack}"
    );
}

/// C9: the budget at the last label doesn't cover the cost on an edge or at EXIT.
pub fn tell_unpaid<C: Code, W: Tell>(out: &mut W, sight: &Sight<'_, C>) {
    tell_exit(out, sight);
    for way in sight.ways().into_iter().flatten() {
        if tell_edge(out, sight, way) {
            return;
        }
    }
}
