//! What the deep search says of a new text.

ghost use Rattle.std.specs.Prelude.{◌≤◌};

use crate::draft::Draft;
use crate::emit::emitted;
use crate::old::{Old, refusal};
use crate::plan::Plan;
use crate::rooms::Rooms;
use bpf_cert::{Certificate, Function};
use bpf_infer::{ranked, uncounted};
use bpf_infer_base::{Cfg, HardenError, InferError, Meter, Quest, Task, Watch};
use bpf_infer_states::{Survey, surveyed};
use std::alloc::Global;

/// What the deep search says of a program's loops.
#[derive(Drop)]
pub enum LoopVerdict {
    /// This is a certificate.
    Yes(Certificate),
    /// Instructions are refused.
    Faults,
    /// Nothing counts the loops whose lowest labels these are.
    Uncounted(Vec<u32>),
    /// A budget is over a limit.
    TooGreat,
}

/// The text of a program under a plan, and what the deep search says of it.
#[derive(Drop)]
pub struct JudgedText {
    pub draft: Draft,
    pub rooms: Rooms,
    pub survey: Survey,
    pub verdict: LoopVerdict,
}

/// What the loops of a draft come to.
pub fn verdict_of<W: Watch>(
    task: Task,
    draft: Option<Vec<Function>>,
    meter: &mut Meter<'_, W>,
) -> Result<LoopVerdict, HardenError>
    requires { task.least ≤ task.most }
{
    let Some(functions) = draft else {
        return Ok(LoopVerdict::Faults);
    };
    let loops = uncounted(task, &functions, meter).map_err(refusal)?;
    if !loops.is_empty() {
        return Ok(LoopVerdict::Uncounted(loops));
    }
    match ranked(task, functions, meter) {
        Ok(found) => {
            match Certificate::new(2, task.least, task.most, found.steps, found.functions) {
                Ok(certificate) => Ok(LoopVerdict::Yes(certificate)),
                Err(_) => Ok(LoopVerdict::TooGreat),
            }
        }
        Err(stop) => match stop.error {
            InferError::NoBudget { .. } => Ok(LoopVerdict::TooGreat),
            error => Err(refusal(error)),
        },
    }
}

impl LoopVerdict {
    /// The greatest number of steps of a run, if there is a certificate.
    pub fn bound(&self) -> Option<u32> {
        match self {
            LoopVerdict::Yes(certificate) => Some(certificate.steps()),
            LoopVerdict::Faults | LoopVerdict::Uncounted(_) | LoopVerdict::TooGreat => None,
        }
    }
}

impl JudgedText {
    /// The text of a program under a plan, judged.
    pub fn of<W: Watch>(
        alloc: Global,
        old: &Old,
        plan: &Plan,
        meter: &mut Meter<'_, W>,
    ) -> Result<JudgedText, HardenError> {
        let rooms = Rooms::of(alloc, old, plan)?;
        let draft = emitted(alloc, old, plan, &rooms)?;
        let quest = Quest {
            program: &draft.program,
            least: plan.length,
            most: plan.length,
        };
        let cfg = Cfg::of(alloc, quest.program).map_err(refusal)?;
        let task = Task::whole(alloc, quest, &cfg);
        let mut survey = surveyed(task, meter).map_err(refusal)?;
        let verdict = verdict_of(task, survey.draft.take(), meter)?;
        Ok(JudgedText {
            draft,
            rooms,
            survey,
            verdict,
        })
    }
}
