//! Laws of traps, each as the contract of a function.

ghost use Rattle.bpf_follows.specs.Laws.{NamedExitsStand, TrapsHaveNoAnswer};

use bpf_semantics::{finish_is_last, runs_are_one};

/// Where notes match, an EXIT of the new program that is no trap stands for one of the old program's.
pub fn named_exits_stand()
    ensures { NamedExitsStand }
{}

/// Where a new program that keeps the meaning ends at a trap, the old one has no answer.
pub fn traps_have_no_answer()
    ensures { TrapsHaveNoAnswer }
{
    finish_is_last();
    runs_are_one();
}
