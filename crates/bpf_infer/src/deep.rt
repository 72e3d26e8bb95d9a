//! The deep search: states for dead code, and nested and moving counters.

ghost use Rattle.std.specs.Prelude.{◌≤◌};

use crate::ranking::ranked;
use bpf_infer_base::{Cfg, DEEP_WORK, Meter, Proposal, Quest, SearchStop, Task, Watch};
use bpf_infer_states::draft;
use std::alloc::Global;

/// What the search gives a program: nested loops, code that nothing reaches and counters that change their places may
/// have budgets. I1 if states that were found aren't stable, at the first slot of their function; I2 at the lowest
/// label of the loops that nothing counts; I3 at the lowest call of a recursion; I4 at an instruction that the checker
/// would refuse, with the condition that fails, C3 to C12; I5 if memory runs out. A refusal has the states that it is
/// seen in.
pub fn deep_proposal<W: Watch>(
    alloc: Global,
    quest: Quest<'_>,
    watch: &mut W,
) -> Result<Proposal, SearchStop>
    requires { quest.least ≤ quest.most }
{
    let mut meter = Meter::new(watch, DEEP_WORK);
    let cfg = Cfg::of(alloc, quest.program)?;
    let task = Task::whole(alloc, quest, &cfg);
    let functions = draft(task, &mut meter)?;
    ranked(task, functions, &mut meter)
}
