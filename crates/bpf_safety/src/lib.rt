//! Which machine states an abstract state describes, and that transfer, edges and calls keep it; when a certificate
//! certifies a program, and what that promises.
#![tactic(auto)]

mod laws;
mod sound;

pub use laws::{
    certified_describes, certified_is_flat_safe, certified_is_safe, certified_work,
    comparisons_are_few, program_is_flat_safe, ranges_inside, safe_ends, safe_has_no_fault,
    slack_is_least, version_is_free, visits_are_assigned,
};
pub use sound::{
    branch_keeps, entails_describes, enter_keeps, leave_keeps, not_stuck_inside, start_describes,
    start_is_abstract, step_keeps, tightened_describes, waiting_frames_stay,
};
