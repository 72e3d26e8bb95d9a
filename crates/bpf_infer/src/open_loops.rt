//! The loops of a draft that nothing counts.

use crate::draft::{LabelledFunctions, rets_of};
use crate::groups::CounterGroups;
use crate::paths::paths_of;
use crate::plan::FunctionBudgets;
use bpf_cert::Function;
use bpf_infer_base::{InferError, Meter, Task, Watch};

/// Adds the first slots of a function's loops that nothing counts.
fn add_uncounted<W: Watch>(
    draft: LabelledFunctions,
    number: usize,
    function: &Function,
    slots: &mut Vec<u32>,
    meter: &mut Meter<'_, W>,
) -> Result<(), InferError> {
    // What a call costs counts nothing.
    let paths = paths_of(draft, number, function, &[])?;
    let mut plan = FunctionBudgets::new(draft.whole.alloc, function, &paths)?;
    let groups = CounterGroups::of(&mut plan, meter)?;
    for label in &groups.all_uncounted {
        slots.push(plan.slot(*label))?;
    }
    Ok(())
}

/// The lowest label of each loop of a draft that nothing counts, without those that lie in another such. I1 and I4 as
/// `ranked` has them.
pub fn uncounted<W: Watch>(
    task: Task,
    functions: &[Function],
    meter: &mut Meter<'_, W>,
) -> Result<Vec<u32>, InferError> {
    let rets = rets_of(task.alloc, functions)?;
    let draft = LabelledFunctions::of(task, functions, &rets);
    let mut slots = Vec::new(task.alloc);
    for (number, function) in functions.iter().enumerate() {
        add_uncounted(draft, number, function, &mut slots, meter)?;
    }
    Ok(slots)
}
