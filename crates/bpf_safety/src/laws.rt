//! Laws of the definitions, each as the contract of a function.

ghost use Rattle.bpf_safety.specs.Theorems.{SlackIsLeast, CertifiedIsSafe, CertifiedDescribes, SafeHasNoFault, SafeEnds, ProgramIsFlatSafe, CertifiedIsFlatSafe, VersionIsFree, RangesInside, CertifiedWork, ComparisonsAreFew, VisitsAreAssigned};

use crate::sound::{
    branch_keeps, entails_describes, enter_keeps, leave_keeps, not_stuck_inside, start_describes,
    start_is_abstract, step_keeps, tightened_describes, waiting_frames_stay,
};
use bpf_num::laws::entails_includes;
use bpf_semantics::{
    finish_is_last, flat_finishes, flat_follows, runs_keep_states, start_is_state,
    step_keeps_context, step_keeps_states, stuck_has_reason,
};

/// An edge pays at all values exactly if its least slack is at least zero.
pub fn slack_is_least()
    ensures { SlackIsLeast }
{}

/// A certified program is safe: on every context of a length in the certificate's range it is never stuck, and ends with a number
/// within the certificate's steps.
pub fn certified_is_safe()
    ensures { CertifiedIsSafe }
{
    stuck_has_reason();
    finish_is_last();
    step_keeps_states();
    start_is_state();
    not_stuck_inside();
    step_keeps();
    branch_keeps();
    waiting_frames_stay();
    start_describes();
    start_is_abstract();
    tightened_describes();
    entails_describes();
    enter_keeps();
    leave_keeps();
    entails_includes();
}

/// On every context of a length in the certificate's range, each state that a run of a certified program comes to is described by what the certificate
/// says of its slot, in every frame.
pub fn certified_describes()
    ensures { CertifiedDescribes }
{
    stuck_has_reason();
    finish_is_last();
    step_keeps_states();
    start_is_state();
    not_stuck_inside();
    step_keeps();
    branch_keeps();
    waiting_frames_stay();
    start_describes();
    start_is_abstract();
    tightened_describes();
    entails_describes();
    enter_keeps();
    leave_keeps();
    entails_includes();
}

/// No run of a safe program is at fault.
pub fn safe_has_no_fault()
    ensures { SafeHasNoFault }
{
    stuck_has_reason();
}

/// A run of a safe program ends before it has made as many steps as its bound.
pub fn safe_ends()
    ensures { SafeEnds }
{
    finish_is_last();
}

/// A certificate's version doesn't change what it certifies.
pub fn version_is_free()
    ensures { VersionIsFree }
{}

/// A program that is certified for a range of lengths is certified, with the same bound, for each range inside it.
pub fn ranges_inside()
    ensures { RangesInside }
{}

/// The flat machine follows each run of a program that ends, and stays inside.
pub fn program_is_flat_safe()
    ensures { ProgramIsFlatSafe }
{
    flat_follows();
    flat_finishes();
    step_keeps_context();
    runs_keep_states();
}

/// The flat machine follows the runs of a certified program, and stays inside.
pub fn certified_is_flat_safe()
    ensures { CertifiedIsFlatSafe }
{
    program_is_flat_safe();
}

/// The check of a certified program makes a transfer for each instruction, and its comparisons at the start and at its visits.
pub fn certified_work()
    ensures { CertifiedWork }
{}

/// A program's comparisons are at most two for each instruction, and one.
pub fn comparisons_are_few()
    ensures { ComparisonsAreFew }
{}

/// The visits are one at each instruction, with its label's own state or with what the visit before passes on.
pub fn visits_are_assigned()
    ensures { VisitsAreAssigned }
{}
