//! Which instructions slot 0 leads to: a search of the control-flow graph, with the set of those that wait.

use crate::graph::{FlowOfRuns, call_target};
use bpf_cert::LAST_SLOT;
use bpf_check::jump_target;
use bpf_infer_base::SlotSet;
use bpf_insn::{Code, MAX_SLOTS};
use bpf_streams::Tell;
use std::fmt;

/// The search as far as it is.
#[derive(Drop)]
struct ReachSearch {
    waiting: SlotSet,
    reached: SlotSet,
}

impl ReachSearch {
    /// An edge leads to a slot.
    fn lead_to(&mut self, slot: u32) {
        if !self.reached.has(slot) {
            self.waiting.add(slot);
        }
    }

    /// Follows the edges of the instruction at a slot, but for those that are known to be dead.
    fn follow<C: Code>(&mut self, program: &C, flow: &FlowOfRuns, slot: u32) {
        if slot > LAST_SLOT {
            return;
        }
        let Some(insn) = program.insn(slot) else {
            return;
        };
        self.reached.add(slot);
        if let Some(to) = call_target(slot, &insn) {
            self.lead_to(to);
        }
        if let Some(to) = jump_target(slot, &insn) {
            if flow.may_jump(slot) {
                self.lead_to(to);
            }
        }
        if insn.goes_on() && flow.may_go_on(slot) {
            self.lead_to(slot + insn.slots());
        }
    }
}

/// The instructions that slot 0 leads to, over edges that aren't known to be dead.
pub fn reached_from_start<C: Code>(program: &C, flow: &FlowOfRuns) -> SlotSet {
    let mut search = ReachSearch {
        waiting: SlotSet::none(),
        reached: SlotSet::none(),
    };
    search.lead_to(0);
    for _ in 0..MAX_SLOTS as u32 {
        let Some(slot) = search.waiting.take_first() else {
            break;
        };
        search.follow(program, flow, slot);
    }
    search.reached
}

// ---- what nothing reaches

/// Slots one after the other: the first and the last.
#[derive(Clone, Copy)]
pub struct SlotRange {
    pub first: u32,
    pub last: u32,
}

impl fmt::Display for SlotRange {
    fn fmt<W: fmt::Write>(&self, f: &mut fmt::Formatter<W>) -> fmt::Result {
        let (first, last) = (self.first, self.last);
        if first == last {
            write!(f, "{first}")
        } else {
            write!(f, "{first} to {last}")
        }
    }
}

/// The first slots from one on at which instructions begin that aren't reached, one after the other.
fn range_from<C: Code>(program: &C, reached: &SlotSet, from: u32) -> Option<SlotRange> {
    let mut found: Option<SlotRange> = None;
    for slot in from..program.slots().min(MAX_SLOTS as u32) {
        if let Some(insn) = program.insn(slot) {
            let last = slot.saturating_add(insn.slots()).saturating_sub(1);
            found = match found {
                Some(range) if reached.has(slot) => return Some(range),
                Some(range) => Some(SlotRange { last, ..range }),
                None if reached.has(slot) => None,
                None => Some(SlotRange { first: slot, last }),
            };
        }
    }
    found
}

/// Tells which slots no jump, no call and no instruction before leads to, up to four ranges: most often the functions behind the one
/// that was taken for the program.
pub fn tell_unreached<C: Code, W: Tell>(program: &C, out: &mut W) {
    let reached = reached_from_start(program, &FlowOfRuns::any());
    let Some(first) = range_from(program, &reached, 0) else {
        return;
    };
    let mut more = range_from(program, &reached, first.last.saturating_add(1));
    let is_one = first.first == first.last && more.is_none();
    let noun = if is_one { "slot" } else { "slots" };
    write!(out, "{noun} {first}");
    for _ in 0..3 {
        let Some(range) = more else {
            break;
        };
        write!(out, ", {range}");
        more = range_from(program, &reached, range.last.saturating_add(1));
    }
    let rest = if more.is_some() { " and more" } else { "" };
    let verb = if is_one { "is" } else { "are" };
    write!(
        out,
        "{rest} {verb} never reached from slot 0: is the first function the one that is meant?\n"
    );
}
