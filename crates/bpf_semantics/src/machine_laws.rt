//! Laws of the machine (RFC 9669, sections 4 and 5), each as the contract of a function.

ghost use Rattle.bpf_semantics.specs.MachineLaws.{StepIsDeterministic, FinishIsLast, StuckHasReason, StartIsState, StepKeepsStates, StepKeepsContext, StepKeepsSlots, RunsAreOne, StepsAreComputed, RunsKeepStates};

/// A state has one next state.
pub fn step_is_deterministic()
    ensures { StepIsDeterministic }
{}

/// A state that ends makes no step.
pub fn finish_is_last()
    ensures { FinishIsLast }
{}

/// A state of a program is stuck exactly if it has a reason.
pub fn stuck_has_reason()
    ensures { StuckHasReason }
{}

/// A start is a state.
pub fn start_is_state()
    ensures { StartIsState }
{}

/// A step of a state leads to a state.
pub fn step_keeps_states()
    ensures { StepKeepsStates }
{}

/// A step changes no byte of the context.
pub fn step_keeps_context()
    ensures { StepKeepsContext }
{}

/// A step leaves each frame at the first slot of an instruction, or past the last one.
pub fn step_keeps_slots()
    ensures { StepKeepsSlots }
{}

/// A number of steps leads to one state.
pub fn runs_are_one()
    ensures { RunsAreOne }
{}

/// The state after a number of steps is the one that is computed.
pub fn steps_are_computed()
    ensures { StepsAreComputed }
{}

/// All that a start leads to are states.
pub fn runs_keep_states()
    ensures { RunsKeepStates }
{}
