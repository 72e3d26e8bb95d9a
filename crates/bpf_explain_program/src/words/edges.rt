//! C8: states that don't lie in the label that they lead to.

use crate::known::{Known, Name, Written, known_register};
use crate::sight::{EdgeSeen, Sight};
use bpf_cert::Label;
use bpf_check::Callee;
use bpf_insn::{Code, Reg};
use bpf_state::{SlotState, State, enter};
use bpf_streams::Tell;

/// The first place at which a state doesn't lie in a label's: what it holds, and what the label says of it.
pub fn first_difference(state: &State, label: &Label) -> Option<(Name, Known, Written)> {
    let claimed = label.state.state();
    let place = state.first_lost(&claimed)?;
    let (held, said) = (state.content(place), claimed.content(place));
    Some((Name(place), Known(held), Written(said)))
}

/// Tells where an edge's state doesn't lie in the label at its end: `r3 at slot 9 is anything; the label says u0..7`. Whether it
/// doesn't.
fn tell_way<W: Tell>(out: &mut W, way: EdgeSeen<'_, '_>) -> bool {
    let Some(label) = way.edge.label else {
        return false;
    };
    if !way.edge.is_refused {
        return false;
    }
    let Some((name, held, said)) = first_difference(way.state, label) else {
        return false;
    };
    let to = label.slot;
    write!(out, "{name} at slot {to} is {held}; the label says {said}");
    true
}

/// Tells where a callee's label claims more than holds at the call.
fn tell_entry<W: Tell>(out: &mut W, callee: Callee<'_>, state: &State) {
    let Some(label) = callee.label else {
        return;
    };
    let mut entry = state.copy();
    enter(&mut entry);
    if let Some((name, held, said)) = first_difference(&entry, label) {
        let first = callee.function.first;
        write!(
            out,
            "{name} is {held} where the function at slot {first} begins; its label says {said}"
        );
    }
}

/// Tells that a function is said to return less than r0 may hold.
fn tell_result<C: Code, W: Tell>(out: &mut W, sight: &Sight<'_, C>) {
    let Some(function) = sight.site.here.function else {
        return;
    };
    let held = known_register(sight.before.reg(Reg::R0));
    let said = Written(SlotState::Word(function.ret));
    let first = function.first;
    write!(
        out,
        "r0 at exit is {held}; the function at slot {first} returns {said}"
    );
}

/// C8: a state doesn't lie in what is claimed where it leads to.
pub fn tell_difference<C: Code, W: Tell>(out: &mut W, sight: &Sight<'_, C>) {
    match (&sight.seen, sight.site.callee) {
        (Some(seen), _) if seen.returns_wrongly => return tell_result(out, sight),
        (Some(seen), Some(callee)) if seen.enters_wrongly => {
            return tell_entry(out, callee, &sight.before);
        }
        _ => {}
    }
    for way in sight.ways().into_iter().flatten() {
        if tell_way(out, way) {
            return;
        }
    }
}
