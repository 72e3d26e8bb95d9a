//! The lines of a listing.

use crate::known::{Known, Name, Number, SpelledInsn, Written};
use crate::places::{changes, is_same, is_unknown, places_compared, places_written, take_all};
use crate::sight::{EdgeSeen, Sight};
use bpf_cert::{Function, Label, Measure};
use bpf_check::{Index, Seen};
use bpf_infer_base::{PlaceSet, place, slots_touched};
use bpf_insn::{Code, Insn, PLACES, Reg};
use bpf_state::{Place, State};
use bpf_streams::{Count, Tell};
use std::fmt;

/// The lengths of contexts, as `16 bytes` or `0 to 64 bytes`.
#[derive(Clone, Copy)]
pub struct Lengths {
    least: u32,
    most: u32,
}

impl Lengths {
    /// Those that a certificate is for.
    pub fn of(certificate: &Index) -> Self {
        Lengths {
            least: certificate.least(),
            most: certificate.most(),
        }
    }
}

impl fmt::Display for Lengths {
    fn fmt<W: fmt::Write>(&self, f: &mut fmt::Formatter<W>) -> fmt::Result {
        let (least, most) = (self.least, self.most);
        if least == most {
            fmt::Display::fmt(&Count(least, "byte"), f)
        } else {
            write!(f, "{least} to {most} bytes")
        }
    }
}

/// How many steps a certificate promises at most.
pub fn steps_of(certificate: &Index) -> Count {
    Count(certificate.steps(), "step")
}

/// `contexts of 16 bytes, at most 24 steps`
pub fn write_header<W: Tell>(out: &mut W, certificate: &Index) {
    let (lengths, steps) = (Lengths::of(certificate), steps_of(certificate));
    write!(out, "contexts of {lengths}, at most {steps}\n");
}

/// `fn 0: depth 1, returns any number`
pub fn write_function<W: Tell>(out: &mut W, function: &Function) {
    let (first, depth) = (function.first, function.depth);
    let returned = Number(function.ret);
    write!(out, "fn {first}: depth {depth}, returns {returned}\n");
}

/// What a term counts, as `r6` or `(10 - r6)`.
#[derive(Clone, Copy)]
struct TermCount(Measure);

impl fmt::Display for TermCount {
    fn fmt<W: fmt::Write>(&self, f: &mut fmt::Formatter<W>) -> fmt::Result {
        match self.0 {
            Measure::Down(place) => fmt::Display::fmt(&Name(place), f),
            Measure::Up(place, limit) => {
                let name = Name(place);
                write!(f, "({limit} - {name})")
            }
        }
    }
}

/// `2 + 5*r6`
pub fn write_budget<W: Tell>(out: &mut W, label: &Label) {
    let base = label.budget.base;
    write!(out, "{base}");
    for term in label.budget.terms.as_slice() {
        let (weight, counted) = (term.weight, TermCount(term.measure));
        write!(out, " + {weight}*{counted}");
    }
}

/// What a label says of each place, as it is written.
fn write_claims<W: Tell>(out: &mut W, state: &State) {
    for index in 0..PLACES {
        let place = place(index);
        if !is_unknown(state.content(place)) && index != Reg::R10 as usize {
            let (name, text) = (Name(place), Written(state.content(place)));
            write!(out, "; {name} {text}");
        }
    }
}

/// `at 1: budget 2 + 5*r6; r6 u1..10`, or without the budget `at 1; r6 u1..10`, with room for the label's state.
pub fn write_label<W: Tell>(out: &mut W, label: &Label, has_budgets: bool, room: &mut State) {
    let slot = label.slot;
    write!(out, "at {slot}");
    if has_budgets {
        out.say(": budget ");
        write_budget(out, label);
    }
    label.state.put_into(room);
    write_claims(out, room);
    out.say("\n");
}

// ---- instructions

/// The slot and the instruction, padded.
pub fn write_padded<W: Tell>(out: &mut W, slot: u32, insn: &Insn) {
    let text = SpelledInsn(*insn);
    write!(out, "{slot:>5}  {text:<36}");
}

/// Tells what is known of a place, unless that was told before.
fn note_read<W: Tell>(out: &mut W, state: &State, shown: &mut State, place: Place) {
    if is_same(state.content(place), shown.content(place)) {
        return;
    }
    shown.take_over(state, place);
    let (name, held) = (Name(place), Known(state.content(place)));
    write!(out, "; {name} is {held}");
}

/// Tells what is known of the registers that are read.
fn note_registers<W: Tell>(out: &mut W, insn: &Insn, state: &State, shown: &mut State) {
    for reg in insn.registers_read().into_iter().flatten() {
        note_read(out, state, shown, Place::Register(reg));
    }
}

/// Tells what is known of the slots that are read.
fn note_slots<W: Tell>(out: &mut W, insn: &Insn, state: &State, shown: &mut State) {
    match insn.access() {
        Some(access) if access.reads => {
            let (first, end) = slots_touched(access, state);
            for slot in first..end {
                note_read(out, state, shown, Place::Slot(slot));
            }
        }
        _ => {}
    }
}

/// Tells what is known of places that changed.
fn note_changes<W: Tell>(out: &mut W, changed: PlaceSet, after: &State, verb: &str) {
    let mut rest = changed;
    for _ in 0..PLACES {
        let Some(place) = rest.take_first() else {
            break;
        };
        let (name, held) = (Name(place), Known(after.content(place)));
        write!(out, "; {name} {verb} {held}");
    }
}

/// Tells what is known of the places that an instruction changes.
fn note_written<C: Code, W: Tell>(out: &mut W, sight: &Sight<'_, C>, shown: &mut State) {
    let after = sight.after();
    let written = places_written(&sight.site.insn, &sight.before);
    let changed = changes(&sight.before, after, written);
    take_all(shown, after, changed);
    note_changes(out, changed, after, "becomes");
}

/// What an instruction that a state reaches costs with those before it.
fn write_cost<C: Code, W: Tell>(out: &mut W, sight: &Sight<'_, C>) {
    if sight.seen.is_none() {
        return out.say("; refused");
    }
    match sight.cost() {
        Some(cost) => write!(out, "; cost {cost}"),
        None => out.say("; the cost isn't known"),
    }
}

/// The cost of an instruction that a state reaches, and what is known of its places.
fn write_notes<C: Code, W: Tell>(out: &mut W, sight: &Sight<'_, C>, shown: &mut State) {
    write_cost(out, sight);
    note_registers(out, &sight.site.insn, &sight.before, shown);
    note_slots(out, &sight.site.insn, &sight.before, shown);
    if sight.goes_on() {
        note_written(out, sight, shown);
    } else if sight.seen.is_some() {
        out.say("; no run goes on from here");
    }
}

/// The line of an instruction.
pub fn write_instruction<C: Code, W: Tell>(out: &mut W, sight: &Sight<'_, C>, shown: &mut State) {
    write_padded(out, sight.site.here.slot, &sight.site.insn);
    match sight.here {
        Some(_) => write_notes(out, sight, shown),
        None => out.say("; no state is known here"),
    }
    out.say("\n");
}

// ---- edges

/// `; slack 0: base 23, cost 1, base there 2, kept 0, taken 20`, the last two where one of the labels has a term.
fn write_slack<C: Code, W: Tell>(
    out: &mut W,
    sight: &Sight<'_, C>,
    way: EdgeSeen<'_, '_>,
    new: &Label,
) {
    let Some(here) = sight.here else {
        return;
    };
    let (Some(slack), Some(cost)) = (way.edge.slack, sight.cost()) else {
        return out.say("; the slack isn't known");
    };
    let (total, old) = (slack.left, &here.label.budget);
    let (base, there) = (old.base, new.budget.base);
    write!(
        out,
        "; slack {total}: base {base}, cost {cost}, base there {there}"
    );
    if !old.terms.as_slice().is_empty() || !new.budget.terms.as_slice().is_empty() {
        let (kept, taken) = (slack.kept, slack.free);
        write!(out, ", kept {kept}, taken {taken}");
    }
}

/// Whether an edge to the next instruction says no more than that it is there.
fn is_plain_step(way: EdgeSeen<'_, '_>, more: PlaceSet) -> bool {
    way.edge.is_live && way.edge.label.is_none() && more.is_empty()
}

/// The line of an edge: where it leads, what is known there more, and what is left of the budget. Of one to the next instruction
/// there is none, if it says no more than that it is there.
fn write_way<C: Code, W: Tell>(
    out: &mut W,
    sight: &Sight<'_, C>,
    way: EdgeSeen<'_, '_>,
    shown: &mut State,
) {
    let more = changes(&sight.before, way.state, places_compared(&sight.site.insn));
    if !way.is_jump {
        if is_plain_step(way, more) {
            return;
        }
        take_all(shown, way.state, more);
    }
    let (to, condition) = (way.edge.to, way.condition);
    write!(out, "       to {to}{condition}");
    if !way.edge.is_live {
        return out.say("; no run takes it\n");
    }
    note_changes(out, more, way.state, "is");
    match way.edge.label {
        Some(label) if sight.has_budgets => write_slack(out, sight, way, label),
        _ => {}
    }
    out.say("\n");
}

/// The line of an EXIT: what is left of the budget.
fn write_exit<W: Tell>(out: &mut W, seen: &Seen<'_>) {
    let (Some(slack), Some(cost)) = (seen.left_at_exit, seen.cost) else {
        return;
    };
    let least = slack.saturating_add(cost);
    write!(
        out,
        "       out; slack {slack}: budget at least {least}, cost {cost}\n"
    );
}

/// The lines of an instruction's edges.
pub fn write_edges<C: Code, W: Tell>(out: &mut W, sight: &Sight<'_, C>, shown: &mut State) {
    match &sight.seen {
        Some(seen) if sight.has_budgets => write_exit(out, seen),
        _ => {}
    }
    for way in sight.ways().into_iter().flatten() {
        write_way(out, sight, way, shown);
    }
}
