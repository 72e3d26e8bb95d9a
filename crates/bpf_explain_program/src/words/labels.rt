//! Why conditions fail at a label, at a function, or at the start.

use crate::known::{Known, Name, Written};
use crate::listing::steps_of;
use crate::words::edges::first_difference;
use bpf_cert::{Function, Label, Measure, Term};
use bpf_check::{Index, SeenStart, Standing, function_at, label_at, place_of};
use bpf_insn::Code;
use bpf_state::{Condition, SlotState, State};
use bpf_streams::{Count, Tell};

/// C2: a label is at no instruction's first slot.
fn tell_place<C: Code, W: Tell>(out: &mut W, program: &C, slot: u32) {
    if slot < program.slots() {
        return out.say("the label stands at the second slot of a wide instruction");
    }
    let slots = Count(program.slots(), "slot");
    write!(
        out,
        "the label stands behind the program's end: it has {slots}"
    );
}

/// C9: a term counts what is no number, or what may be above its limit.
fn tell_term<W: Tell>(out: &mut W, label: &Label, term: &Term) {
    let place = place_of(term);
    let (name, held) = (Name(place), Known(label.state.state().content(place)));
    match (term.measure, held) {
        (Measure::Up(_, limit), Known(SlotState::Word(_))) => write!(
            out,
            "the label counts {name} up to {limit}, and {name} is {held}"
        ),
        _ => write!(
            out,
            "the label counts {name}, which is {held} and no number"
        ),
    }
}

/// C13: a label lies outside of its function.
fn tell_outside<W: Tell>(out: &mut W, certificate: &Index, function: &Function, label: &Label) {
    let first = function.first;
    write!(
        out,
        "the label stands under the function at slot {first}, and lies in "
    );
    match function_at(certificate, label.slot) {
        Some(owner) => {
            let other = owner.first;
            write!(out, "the one at slot {other}");
        }
        None => out.say("front of it"),
    }
}

/// C13: a label has no member.
fn tell_empty<W: Tell>(out: &mut W, label: &Label) {
    let state = label.state.state();
    if let Some(place) = state.first_empty() {
        let (name, said) = (Name(place), Written(state.content(place)));
        write!(out, "no number is {said}, as the label says of {name}");
    }
}

/// Tells why a condition fails at a label of a function.
pub fn tell_label<C: Code, W: Tell>(
    out: &mut W,
    program: &C,
    certificate: &Index,
    standing: &Standing<'_>,
    condition: Condition,
) {
    let Some(seen) = &standing.label else {
        return;
    };
    let label = seen.label;
    match (condition, seen.bad) {
        (Condition::MisplacedLabel, _) => tell_place(out, program, label.slot),
        (Condition::OverBudget, Some(term)) => tell_term(out, label, &term),
        (Condition::Misshapen, _) if seen.is_outside => {
            tell_outside(out, certificate, standing.function, label);
        }
        (Condition::Misshapen, _) => tell_empty(out, label),
        _ => {}
    }
}

/// C13: a function has no label where it begins.
pub fn tell_function<W: Tell>(out: &mut W, function: &Function) {
    let first = function.first;
    write!(
        out,
        "the function at slot {first} has no label where it begins"
    );
}

/// C13: the start doesn't lie in the label at slot 0.
fn tell_other_start<W: Tell>(out: &mut W, certificate: &Index) {
    certificate.valid();
    let start = State::start(certificate.least(), certificate.most());
    let Some(label) = label_at(certificate, 0) else {
        return;
    };
    if let Some((name, held, said)) = first_difference(&start, label) {
        write!(
            out,
            "{name} at the start is {held}; the label at slot 0 says {said}"
        );
    }
}

/// C9: the budget at the start may be more than is promised.
fn tell_over<W: Tell>(out: &mut W, certificate: &Index, most: i128) {
    let steps = steps_of(certificate);
    write!(
        out,
        "the budget at slot 0 is up to {most} at the start, and the certificate promises {steps}"
    );
}

/// Tells why a condition fails at the start.
pub fn tell_start<W: Tell>(
    out: &mut W,
    certificate: &Index,
    seen: &SeenStart,
    condition: Condition,
) {
    match (condition, seen.over) {
        (Condition::OverBudget, Some(most)) => tell_over(out, certificate, most),
        (Condition::Misshapen, _) if seen.is_elsewhere => {
            out.say("no function of the certificate begins at slot 0");
        }
        (Condition::Misshapen, _) => tell_other_start(out, certificate),
        _ => {}
    }
}
