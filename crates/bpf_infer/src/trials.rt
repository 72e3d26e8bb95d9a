//! Why nothing counts the rounds of a component.

use crate::components::Component;
use crate::draft::LabelledFunctions;
use crate::plan::FunctionBudgets;
use bpf_infer_base::{CounterTrial, Move, PLACES, Shift, get_or, losses_in, place, put};
use std::alloc::AllocError;

/// How a place moves from the first label of a component to itself, past rounds of inner loops; None if it isn't followed.
fn round_of(
    plan: &FunctionBudgets,
    component: &Component,
    number: usize,
) -> Result<Option<Shift>, AllocError> {
    let mut shifts = vec![in plan.alloc; None; component.labels.len()]?;
    put(&mut shifts, 0, Some(Shift::NONE));
    let mut around = None;
    for arc in component.graph.arcs() {
        let Some(tag) = plan.paths.source(arc.path, number) else {
            return Ok(None);
        };
        if tag.term as usize != number {
            return Ok(None);
        }
        if let Some(shift) = get_or(&shifts, arc.from, None) {
            let moved: Shift = shift.moved(tag.offset);
            if arc.to == 0 {
                around = Some(moved.or(around.unwrap_or(moved)));
            } else if arc.to > arc.from {
                let held = get_or(&shifts, arc.to, None);
                put(&mut shifts, arc.to, Some(moved.or(held.unwrap_or(moved))));
            }
        }
    }
    Ok(around)
}

/// The places that were tried as counters of a component, with what they do in a round.
pub fn trials_of(
    draft: LabelledFunctions,
    plan: &FunctionBudgets,
    component: &Component,
) -> Result<Vec<CounterTrial>, AllocError> {
    let task = draft.task(&plan.paths.blocks);
    let losses = losses_in(task, &component.labels, |label| plan.known(label))?;
    let first = component.label(0);
    let mut trials = Vec::new(plan.alloc);
    for number in 0..PLACES {
        if plan.is_counted(first, number) {
            continue;
        }
        let shift = round_of(plan, component, number)?;
        if let Some(moves) = Move::of(plan.said(first, number), shift, losses[number]) {
            let place = place(number);
            trials.push(CounterTrial { place, moves })?;
        }
    }
    Ok(trials)
}
