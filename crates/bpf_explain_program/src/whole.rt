//! One instruction with the whole states before and after it.

use crate::known::{Known, Name, Offset, SpelledInsn};
use crate::places::{is_unknown, tag_at};
use crate::sight::Sight;
use bpf_cert::Label;
use bpf_check::{Here, place_of};
use bpf_infer_base::place;
use bpf_insn::{Code, PLACES};
use bpf_state::{State, Tag};
use bpf_streams::Tell;

/// `, which is r6 of slot 1 - 1`
fn write_tag<W: Tell>(out: &mut W, label: &Label, tag: Tag) {
    if let Some(term) = label.budget.terms.as_slice().get(usize::from(tag.term)) {
        let (name, slot, by) = (Name(place_of(term)), label.slot, Offset(tag.offset));
        write!(out, ", which is {name} of slot {slot} {by}");
    }
}

/// Each place of which something is known, one a line.
fn write_state<W: Tell>(out: &mut W, label: &Label, state: &State) {
    for index in 0..PLACES {
        let place = place(index);
        if !is_unknown(state.content(place)) {
            let (name, held) = (Name(place), Known(state.content(place)));
            write!(out, "  {name} is {held}");
            if let Some(tag) = tag_at(state, place) {
                write_tag(out, label, tag);
            }
            out.say("\n");
        }
    }
}

/// The states behind an instruction, on each of its edges.
fn write_behind<C: Code, W: Tell>(out: &mut W, label: &Label, sight: &Sight<'_, C>) {
    for way in sight.ways().into_iter().flatten() {
        let (to, condition) = (way.edge.to, way.condition);
        let is_live = way.edge.is_live;
        let rest = if is_live { "" } else { " no run takes it" };
        write!(out, "to {to}{condition}:{rest}\n");
        if is_live {
            write_state(out, label, way.state);
        }
    }
}

/// The state in front of an instruction.
fn write_before<W: Tell>(out: &mut W, here: Here<'_>, state: &State) {
    let from = here.label.slot;
    match here.cost {
        Some(cost) => write!(out, "before, at cost {cost}"),
        None => out.say("before,"),
    }
    write!(out, " since the label at slot {from}:\n");
    write_state(out, here.label, state);
}

/// Writes an instruction, the state in front of it, and those behind it.
pub fn write_whole<C: Code, W: Tell>(out: &mut W, sight: &Sight<'_, C>) {
    let (slot, text) = (sight.site.here.slot, SpelledInsn(sight.site.insn));
    write!(out, "slot {slot}: {text}\n");
    let Some(here) = sight.here else {
        return out.say("no state is known here\n");
    };
    write_before(out, here, &sight.before);
    if sight.goes_on() {
        write_behind(out, here.label, sight);
    } else if sight.seen.is_some() {
        out.say("no run goes on from here\n");
    }
}
