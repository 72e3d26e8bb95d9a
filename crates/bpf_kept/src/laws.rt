//! Laws of the definitions, each as the contract of a function.

ghost use Rattle.bpf_kept.specs.Laws.{FarIsPlacement, OneAddressIsContext, OneDistanceIsFrame, ZeroStartFits, ZeroStepIsStep, MatchingKeepsFlatMeaning, CertifiedKeepsFlatMeaning, OtherExitsAreTraps, NoExitNoAnswer, ExactRunsAreFlat, FlatMeaningIsExact, NearAndWideAreFar, ZeroRunEnds, FlatMeaningIsFar};

use bpf_safety::{certified_describes, certified_is_safe};
use bpf_semantics::{finish_is_last, runs_are_one};

/// The far placements are placements.
pub fn far_is_placement()
    ensures { FarIsPlacement }
{}

/// One address that is inside at both far placements lies in the context.
pub fn one_address_is_context()
    ensures { OneAddressIsContext }
{}

/// One distance from a frame's first byte that is inside at both far placements lies in that frame.
pub fn one_distance_is_frame()
    ensures { OneDistanceIsFrame }
{}

/// The start that takes 0 is one of the flat machine's starts.
pub fn zero_start_fits()
    ensures { ZeroStartFits }
{}

/// A step that takes 0 is one of the flat machine's steps.
pub fn zero_step_is_step()
    ensures { ZeroStepIsStep }
{}

/// Where notes match, and the new program is never stuck, it ends with the old one's number, on each context of so many bytes on which the old one
/// ends on plain addresses, with frames near and wide.
pub fn matching_keeps_flat_meaning()
    ensures { MatchingKeepsFlatMeaning }
{}

/// Where notes match, a new program that is certified for such contexts keeps the old one's meaning on them.
pub fn certified_keeps_flat_meaning()
    ensures { CertifiedKeepsFlatMeaning }
{
    certified_is_safe();
    certified_describes();
}

/// Where a new program that keeps the meaning ends at an exit that stands for none of the old one's, the old one has no answer.
pub fn other_exits_are_traps()
    ensures { OtherExitsAreTraps }
{
    finish_is_last();
    runs_are_one();
}

/// Where the certificate's check reaches no exit that stands for one of the old program's, that has no answer on contexts of so many bytes.
pub fn no_exit_no_answer()
    ensures { NoExitNoAnswer }
{
    certified_describes();
}

/// A run that ends on the exact machine ends on plain addresses with the same number, within the same bounds, wherever context and frames lie.
pub fn exact_runs_are_flat()
    ensures { ExactRunsAreFlat }
{}

/// A new program that keeps the meaning on plain addresses keeps it on the exact machine.
pub fn flat_meaning_is_exact()
    ensures { FlatMeaningIsExact }
{}

/// The two far placements are far.
pub fn near_and_wide_are_far()
    ensures { NearAndWideAreFar }
{}

/// Where each run of the flat machine ends with a number, within the bounds, so does the one that takes 0.
pub fn zero_run_ends()
    ensures { ZeroRunEnds }
{}

/// A new program that keeps the meaning keeps it where the old one ends with one number wherever memory lies far and whatever is uninitialised.
pub fn flat_meaning_is_far()
    ensures { FlatMeaningIsFar }
{}
