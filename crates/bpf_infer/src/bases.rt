//! The bases of budgets: longest paths (Bellman and Ford), over the components of a function from the last to the
//! first.

use crate::paths::Path;
use crate::plan::{BudgetTerms, FunctionBudgets, Part};
use crate::weights::passes_over;
use bpf_cert::{MAX_BASE, MAX_TERMS};
use bpf_infer_base::{Components, Counter, Limit, Obstacle, SearchStop, get_or, put};
use bpf_state::Tag;

/// The search for bases.
#[derive(Drop)]
struct Settling {
    /// By paths, what the base at the start has to pay beside the one at the end.
    lengths: Vec<i128>,
    /// Whether labels outside loops take over terms of those behind them.
    lifts: bool,
}

impl Settling {
    /// What the paths from a label have to be paid with.
    fn base_of(&self, plan: &FunctionBudgets, label: usize) -> i128 {
        let base_by = |path: &Path| {
            let behind = path.to.map_or(0, |to| plan.base(to));
            get_or(&self.lengths, path.number, 0).saturating_add(behind)
        };
        plan.paths
            .leaving(label)
            .iter()
            .map(base_by)
            .max()
            .unwrap_or(0)
            .max(0)
    }

    /// Measures the paths from the labels of a component.
    fn measure(&mut self, plan: &FunctionBudgets, labels: &[usize]) {
        for path in labels.iter().flat_map(|label| plan.paths.leaving(*label)) {
            put(&mut self.lengths, path.number, plan.length(path));
        }
    }

    /// Raises the bases of a component to what its paths ask for. Whether any rose.
    fn pass(&self, plan: &mut FunctionBudgets, labels: &[usize]) -> bool {
        let mut has_risen = false;
        for label in labels {
            let base = self.base_of(plan, *label);
            if base > plan.base(*label) {
                put(&mut plan.bases, *label, base);
                has_risen = true;
            }
        }
        has_risen
    }

    /// Finds the bases of a component. I2 at its first label if they aren't found in few passes.
    fn settle(&mut self, plan: &mut FunctionBudgets, labels: &[usize]) -> Result<(), SearchStop> {
        self.measure(plan, labels);
        for _ in 0..passes_over(labels.len()) {
            if !self.pass(plan, labels) {
                return Ok(());
            }
        }
        let slot = plan.slot(labels.last().copied().unwrap_or(0));
        Err(SearchStop::no_budget(slot, Obstacle::Over(Limit::Passes)))
    }

    // ---- terms of labels behind

    /// Puts terms into the place of a label's, and finds its base with them.
    fn settle_with(
        &mut self,
        plan: &mut FunctionBudgets,
        label: usize,
        parts: BudgetTerms,
    ) -> Result<(), SearchStop> {
        plan.set_parts(label, parts);
        put(&mut plan.bases, label, 0);
        self.settle(plan, &[label])
    }

    /// Gives a label outside loops the terms of those behind it, if that doesn't raise its budget.
    fn lift(&mut self, plan: &mut FunctionBudgets, label: usize) -> Result<(), SearchStop> {
        let lifted = lifted_to(plan, label);
        if lifted[0].is_none() || plan.parts(label)[0].is_some() {
            return Ok(());
        }
        let greatest = plan.greatest(label);
        self.settle_with(plan, label, lifted)?;
        if plan.greatest(label) > greatest {
            self.settle_with(plan, label, [None; MAX_TERMS])?;
        }
        Ok(())
    }

    /// Finds the bases of a component, with lifted terms if that is asked for. I2 at a label with a base above 2^40.
    fn settle_component(
        &mut self,
        plan: &mut FunctionBudgets,
        labels: &[usize],
    ) -> Result<(), SearchStop> {
        self.settle(plan, labels)?;
        if let [label] = labels
            && self.lifts
        {
            self.lift(plan, *label)?;
        }
        for label in labels {
            let base = plan.base(*label);
            if base > MAX_BASE as i128 {
                let wanted = u64::try_from(base).unwrap_or(u64::MAX);
                let obstacle = Obstacle::Over(Limit::Base { wanted });
                return Err(SearchStop::no_budget(plan.slot(*label), obstacle));
            }
        }
        Ok(())
    }
}

/// The counter of a place in the place of another one.
fn counter_in(counter: Counter, number: usize) -> Counter {
    match counter {
        Counter::Falling(_) => Counter::Falling(number),
        Counter::Rising(_, limit) => Counter::Rising(number, limit),
    }
}

/// Whether a place may be counted at a label: what rises stays within its limit.
fn is_countable(plan: &FunctionBudgets, label: usize, counter: Counter) -> bool {
    match counter {
        Counter::Falling(_) => true,
        Counter::Rising(number, limit) => plan.span(label, number).hi <= limit,
    }
}

/// Takes a term in: of two with one place the one with the greater weight, and at most four.
fn take_in(plan: &FunctionBudgets, parts: &mut BudgetTerms, taken: Part) {
    for part in parts.iter_mut() {
        match *part {
            Some(held) if held.counter.number() == taken.counter.number() => {
                if plan.weight(taken.weight) > plan.weight(held.weight) {
                    *part = Some(taken);
                }
                return;
            }
            Some(_) => {}
            None => {
                *part = Some(taken);
                return;
            }
        }
    }
}

/// Takes in the terms at the end of a path, at the places where they come from.
fn take_all(plan: &FunctionBudgets, path: &Path, parts: &mut BudgetTerms) {
    let behind = path.to.map_or([None; MAX_TERMS], |to| plan.parts(to));
    for part in behind.into_iter().flatten() {
        if let Some(Tag { term, .. }) = plan.paths.source(path.number, part.counter.number()) {
            let counter = counter_in(part.counter, term as usize);
            if is_countable(plan, path.from, counter) {
                take_in(plan, parts, Part { counter, ..part });
            }
        }
    }
}

/// The terms of the labels behind a label, at the places where they come from.
fn lifted_to(plan: &FunctionBudgets, label: usize) -> BudgetTerms {
    let mut parts = [None; MAX_TERMS];
    for path in plan.paths.leaving(label) {
        take_all(plan, path, &mut parts);
    }
    parts
}

/// Finds the bases of a function's labels, where the terms stand. I2 at a label with a base above 2^40.
pub fn settle_bases(plan: &mut FunctionBudgets, lifts: bool) -> Result<(), SearchStop> {
    let alloc = plan.alloc;
    let components = Components::of(alloc, &plan.paths.graph)?;
    let nodes = components.nodes(alloc)?;
    let mut settling = Settling {
        lengths: vec![in alloc; 0; plan.paths.count()]?,
        lifts,
    };
    let is_in_one = |a: &usize, b: &usize| components.of_node(*a) == components.of_node(*b);
    // Those that the others lead to come first.
    for labels in nodes.chunk_by(is_in_one) {
        settling.settle_component(plan, labels)?;
    }
    Ok(())
}
