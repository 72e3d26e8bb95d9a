//! Loops that are counted by a number of the program's own, though a counter of turns would give them a smaller budget.

use crate::judge::{JudgedText, LoopVerdict};
use crate::old::Old;
use crate::plan::Plan;
use crate::rooms::Rooms;
use bpf_cert::{Label, Measure, Term};
use bpf_infer_base::{Flow, PlaceSet};
use bpf_state::Place;
use std::alloc::{AllocError, Global};

/// Which text of a program is looked at, and of which plan.
#[derive(Clone, Copy)]
pub struct Payer<'a> {
    pub old: &'a Old<'a>,
    pub plan: &'a Plan,
    pub trial: &'a JudgedText,
}

/// What a term measures by.
fn place_of(term: &Term) -> Place {
    match term.measure {
        Measure::Down(place) | Measure::Up(place, _) => place,
    }
}

/// How often a loop may turn by a term at most.
fn turns_of(label: &Label, term: &Term) -> u64 {
    let Some(place) = PlaceSet::of(place_of(term)).take_first() else {
        return u64::MAX;
    };
    let Some(number) = label.state.held(place).number() else {
        return u64::MAX;
    };
    let bounds = number.unsigned();
    match term.measure {
        Measure::Down(_) => bounds.hi(),
        Measure::Up(_, limit) => limit.saturating_sub(bounds.lo()),
    }
}

/// The greatest budget at a label, which ways through the loops around go into.
fn greatest(label: &Label) -> u64 {
    let mut sum = label.budget.base;
    for term in label.budget.terms.iter() {
        let value = turns_of(label, term).saturating_mul(u64::from(term.weight));
        sum = sum.saturating_add(value);
    }
    sum
}

/// Whether turns are counted in a place, in a function's slots.
fn counts_in(rooms: &Rooms, first: u32, end: u32, place: Place) -> bool {
    (first..end).any(|slot| rooms.counter(slot) == Some(place))
}

impl<'a> Payer<'a> {
    /// The label of the certificate at a slot of the new program.
    fn label(&self, new: u32) -> Option<&'a Label> {
        let LoopVerdict::Yes(certificate) = &self.trial.verdict else {
            return None;
        };
        let mut functions = certificate.functions().iter().rev();
        let function = functions.find(|function| function.first <= new)?;
        function.labels.iter().find(|label| label.slot == new)
    }

    /// Whether what stands for an old slot has a budget that isn't counted by turns, and is greater than all turns that are allowed: a number of
    /// its own begins anew on each turn of a loop around, and a counter of turns doesn't.
    fn is_dear(&self, slot: u32) -> bool {
        let uses = self.old.uses(self.old.function(slot));
        let most = u64::from(self.plan.options.turns);
        let Some(label) = self.trial.draft.start(slot).and_then(|new| self.label(new)) else {
            return false;
        };
        let is_own = |term: &&Term| !counts_in(
            &self.trial.rooms,
            uses.first,
            uses.end,
            place_of(term),
        );
        let mut own = label.budget.terms.iter().filter(is_own);
        let budget = greatest(label);
        own.any(|term| budget > most.saturating_mul(u64::from(term.weight)))
    }

    /// The slots to which ways lead back, that aren't counted, and have such budgets.
    pub fn dear(&self, alloc: Global) -> Result<Vec<u32>, AllocError> {
        let mut dear = Vec::new(alloc);
        for slot in 0..self.old.program.slots() {
            let insn = self.plan.kept(self.old, slot);
            if let Some(target) = insn.and_then(|insn| Flow::of(slot, insn).jump()) {
                let is_open = target <= slot && !self.plan.at(target).counts;
                if is_open && !dear.contains(&target) && self.is_dear(target) {
                    dear.push(target)?;
                }
            }
        }
        Ok(dear)
    }
}
