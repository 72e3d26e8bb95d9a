//! What a step and a run answer.

use bpf_semantics::Reason;

/// What a step did.
#[derive(Clone, Copy, Debug, PartialEq, Eq)]
pub enum Step {
    /// The machine is in its next state.
    Moved,
    /// The run ends here with this number in r0.
    Done(u64),
    /// The instruction can't be done, for this reason.
    Fault(Reason),
}

/// How a run ended, and how many instructions were done.
#[derive(Clone, Copy, Debug, PartialEq, Eq)]
pub enum Outcome {
    /// With a number in r0; the last exit counts as a step.
    Done {
        value: u64,
        steps: u64,
    },
    /// At a slot whose instruction can't be done, for this reason.
    Fault {
        slot: u32,
        reason: Reason,
        steps: u64,
    },
    /// As many steps were made as there was fuel for.
    OutOfFuel,
}
