//! Budgets for a draft: linear ranking functions (Podelski and Rybalchenko, A complete method for the synthesis of
//! linear ranking functions, 2004), flattened over nested loops. Which counters the loops have, what they weigh, and
//! what is left for the bases.

ghost use Rattle.std.specs.Prelude.{◌≤◌};

use crate::bases::settle_bases;
use crate::draft::{LabelledFunctions, Price, rets_of};
use crate::groups::{CounterGroups, Uncounted};
use crate::paths::paths_of;
use crate::plan::FunctionBudgets;
use crate::trials::trials_of;
use crate::weights::weigh;
use arrayvec::ArrayVec;
use bpf_cert::{Budget, Function};
use bpf_infer_base::{Limit, Meter, Obstacle, PLACES, Proposal, SearchStop, Task, Watch, put};
use bpf_state::State;
use std::alloc::AllocError;

/// The budget at a label, its terms by their places.
fn budget_of(plan: &FunctionBudgets, label: usize) -> Budget {
    let mut terms = ArrayVec::new();
    for number in 0..PLACES {
        if let Some(part) = plan.part(label, number) {
            if !terms.is_full() {
                terms.push(part.counter.term(plan.weight(part.weight)));
            }
        }
    }
    Budget {
        base: u64::try_from(plan.base(label)).unwrap_or(u64::MAX),
        terms,
    }
}

/// The budgets of a function's labels.
fn budgets_of(plan: &FunctionBudgets) -> Result<Vec<Budget>, AllocError> {
    let labels = 0..plan.function.labels.len();
    labels
        .map(|label| budget_of(plan, label))
        .collect(plan.alloc)
}

/// I2 at the lowest label of a component without a counter.
fn stop_at(
    draft: LabelledFunctions,
    plan: &FunctionBudgets,
    uncounted: Uncounted,
) -> Result<SearchStop, AllocError> {
    let obstacle = match &uncounted.component {
        Some(component) => Obstacle::NoCounter(trials_of(draft, plan, component)?),
        None => Obstacle::Over(Limit::Terms),
    };
    Ok(SearchStop::no_budget(plan.slot(uncounted.label), obstacle))
}

/// Finds the counters of a function, their weights and the bases.
fn rank<W: Watch>(
    draft: LabelledFunctions,
    number: usize,
    plan: &mut FunctionBudgets,
    meter: &mut Meter<'_, W>,
) -> Result<(), SearchStop> {
    let mut groups = CounterGroups::of(plan, meter)?;
    if let Some(uncounted) = groups.uncounted.take() {
        return Err(stop_at(draft, plan, uncounted)?);
    }
    for group in groups.list.iter().rev() {
        meter.tell(group.component.labels.len(), 0);
        weigh(plan, group)?;
    }
    settle_bases(plan, number > 0)?;
    Ok(())
}

/// The budgets of a program's functions.
#[derive(Drop)]
struct Ranking {
    prices: Vec<Price>,
    /// By functions, those of its labels.
    budgets: Vec<Vec<Budget>>,
}

impl Ranking {
    /// Finds the budgets of a function and what a call of it costs.
    fn rank<W: Watch>(
        &mut self,
        draft: LabelledFunctions,
        number: usize,
        meter: &mut Meter<'_, W>,
    ) -> Result<(), SearchStop> {
        let Some(function) = draft.functions.get(number) else {
            return Ok(());
        };
        let paths = paths_of(draft, number, function, &self.prices)?;
        let mut plan = FunctionBudgets::new(draft.whole.alloc, function, &paths)?;
        rank(draft, number, &mut plan, meter)?;
        put(&mut self.prices, number, plan.price());
        put(&mut self.budgets, number, budgets_of(&plan)?);
        Ok(())
    }
}

/// The budgets of the functions of a draft, callees first.
fn ranking_of<W: Watch>(
    draft: LabelledFunctions,
    meter: &mut Meter<'_, W>,
) -> Result<Ranking, SearchStop> {
    let (alloc, count) = (draft.whole.alloc, draft.functions.len());
    let none = |_number| Vec::new(alloc);
    let mut ranking = Ranking {
        prices: vec![in alloc; Price::NONE; count]?,
        budgets: (0..count).map(none).collect(alloc)?,
    };
    for number in &draft.whole.cfg.callees_first {
        ranking.rank(draft, *number, meter)?;
    }
    Ok(ranking)
}

/// The greatest number of steps of a run from a state. I2 at slot 0 above 2^32 - 1.
fn steps_from(ranking: &Ranking, start: &State) -> Result<u32, SearchStop> {
    let steps = ranking
        .prices
        .first()
        .map_or(0, |price| price.greatest(start));
    let wanted = u64::try_from(steps).unwrap_or(u64::MAX);
    let over = Obstacle::Over(Limit::Steps { wanted });
    u32::try_from(steps).map_err(|_error| SearchStop::no_budget(0, over))
}

/// Gives a function's labels their budgets.
fn put_budgets(function: &mut Function, budgets: Vec<Budget>) {
    for (label, budget) in function.labels.iter_mut().zip(budgets) {
        label.budget = budget;
    }
}

/// Gives the labels of all functions their budgets.
fn put_all(functions: &mut Vec<Function>, budgets: Vec<Vec<Budget>>) {
    for (function, budgets) in functions.iter_mut().zip(budgets) {
        put_budgets(function, budgets);
    }
}

/// What is found for a draft: the steps that it is to promise, and the budgets of its functions.
fn budgeted<W: Watch>(
    task: Task,
    functions: &[Function],
    meter: &mut Meter<'_, W>,
) -> Result<(u32, Vec<Vec<Budget>>), SearchStop>
    requires { task.least ≤ task.most }
{
    let rets = rets_of(task.alloc, functions)?;
    let ranking = ranking_of(LabelledFunctions::of(task, functions, &rets), meter)?;
    let steps = steps_from(&ranking, &task.start())?;
    Ok((steps, ranking.budgets))
}

/// A draft of all functions of a program with budgets. I1 if a state doesn't lie where it leads to, at the first slot of its function; I2 at the lowest
/// label of the loops that nothing counts; I4 at an instruction that is refused or not reached. A refusal has the draft's
/// states.
pub fn ranked<W: Watch>(
    task: Task,
    mut functions: Vec<Function>,
    meter: &mut Meter<'_, W>,
) -> Result<Proposal, SearchStop>
    requires { task.least ≤ task.most }
{
    match budgeted(task, &functions, meter) {
        Ok((steps, budgets)) => {
            put_all(&mut functions, budgets);
            Ok(Proposal { steps, functions })
        }
        Err(stop) => Err(stop.with_states(task.least, task.most, functions)),
    }
}
