//! The laws of abstract states: what each promises of the machine's states that it describes.

ghost use Rattle.bpf_safety.specs.Laws.{StartIsAbstract, StartDescribes, BranchKeeps, TightenedDescribes, EntailsDescribes, EnterKeeps, LeaveKeeps, NotStuckInside, StepKeeps, WaitingFramesStay};

use bpf_num::laws::{
    alu_keeps, constant_has, constant_is, end_keeps, entails_includes, movsx_keeps, neg_keeps,
    refine_keeps, tighten_keeps,
};

/// The state to begin with is one of which the laws hold.
pub fn start_is_abstract()
    ensures { StartIsAbstract }
{
    tighten_keeps();
}

/// The state to begin with describes the machine's start, on every context of a length in its range.
pub fn start_describes()
    ensures { StartDescribes }
{
    tighten_keeps();
}

/// A described state without fault isn't stuck, but for a CALL with eight live frames.
pub fn not_stuck_inside()
    ensures { NotStuckInside }
{
    constant_has();
    tighten_keeps();
}

/// The state after an instruction that neither jumps on a test nor calls nor returns describes the machine after it.
pub fn step_keeps()
    ensures { StepKeeps }
{
    constant_has();
    constant_is();
    tighten_keeps();
    alu_keeps();
    neg_keeps();
    movsx_keeps();
    end_keeps();
}

/// The edge of a conditional jump on which a described machine goes on has a state, and it describes the machine there; so no
/// machine takes an edge without one.
pub fn branch_keeps()
    ensures { BranchKeeps }
{
    constant_has();
    refine_keeps();
}

/// From a described machine without fault, a step that is neither a CALL nor an EXIT leaves the waiting frames as they are.
pub fn waiting_frames_stay()
    ensures { WaitingFramesStay }
{}

/// Tightening each number keeps every described machine state; where it gives None there is none.
pub fn tightened_describes()
    ensures { TightenedDescribes }
{
    tighten_keeps();
}

/// A state describes each machine state that one which entails it describes, tags aside.
pub fn entails_describes()
    ensures { EntailsDescribes }
{
    entails_includes();
}

/// A CALL leads to a state of the callee that its entry state describes.
pub fn enter_keeps()
    ensures { EnterKeeps }
{}

/// The EXIT of a callee leads its caller to a state that what is known of it before the CALL, and of the number, describes.
pub fn leave_keeps()
    ensures { LeaveKeeps }
{
    tighten_keeps();
}
