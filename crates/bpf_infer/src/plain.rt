//! The plain search: one counter for each loop.

ghost use Rattle.std.specs.Prelude.{◌≤◌};
ghost use Rattle.bpf_insn.specs.Limits.{max_context};

use crate::budgets::{Budgets, budgets_of};
use crate::rounds::states_of;
use arrayvec::ArrayVec;
use bpf_cert::{Budget, Function};
use bpf_infer_base::{Blocks, Cfg, InferError, Meter, PLAIN_WORK, Proposal, Quest, Task, Watch};
use bpf_state::State;
use std::alloc::Global;

/// The budget at the label of a block.
fn budget_of(budgets: &Budgets, block: usize) -> Budget {
    let mut terms = ArrayVec::new();
    if let Some((counter, weight)) = budgets.counted(block) {
        terms.push(counter.term(weight));
    }
    Budget {
        base: u64::try_from(budgets.base(block)).unwrap_or(u64::MAX),
        terms,
    }
}

/// Gives a function's labels their budgets.
fn put_budgets(blocks: &Blocks, budgets: &Budgets, function: &mut Function) {
    for label in function.labels.iter_mut() {
        label.budget = budget_of(budgets, blocks.block_of(label.slot));
    }
}

/// What is found for the blocks of a program, from a state that it starts in.
fn proposal_for<W: Watch>(
    task: Task,
    start: &State,
    meter: &mut Meter<'_, W>,
) -> Result<Proposal, InferError> {
    let mut rounds = states_of(task, start, meter)?;
    let budgets = budgets_of(&rounds)?;
    let Ok(steps) = u32::try_from(budgets.greatest(0, start)) else {
        return Err(InferError::NoBudget { slot: 0 });
    };
    let mut functions = rounds.take_functions()?;
    for function in functions.iter_mut() {
        put_budgets(task.blocks, &budgets, function);
    }
    Ok(Proposal { steps, functions })
}

/// What the plain search finds for a program, with one counter for each loop. I1 if a function's states aren't stable after 64
/// rounds, or a limit of the search is passed, at its first slot; I2 if a loop has no counter, at its label; I3 at the lowest call of a recursion; I4 at an
/// instruction that the checker would refuse, with the condition that fails, C3 to C12; I5 if memory runs out.
pub fn plain_proposal<W: Watch>(
    alloc: Global,
    quest: Quest<'_>,
    watch: &mut W,
) -> Result<Proposal, InferError>
    requires order { quest.least ≤ quest.most }
    requires short { quest.most ≤ max_context }
{
    let cfg = Cfg::of(alloc, quest.program)?;
    let mut meter = Meter::new(watch, PLAIN_WORK);
    let task = Task::whole(alloc, quest, &cfg);
    proposal_for(task, &task.start(), &mut meter)
}
