//! The checker of certificates.
#![tactic(auto)]

mod arrival;
mod budget;
mod checked;
mod checker;
mod edge;
mod index;
mod judge;
mod labels;
mod least;
mod pass;
mod refusal;
mod runnable;
mod shape;
mod site;
mod spending;
mod standing;
mod start;
mod straight;
mod verifier;
mod visit;

pub use arrival::{Here, Walk};
pub use budget::place_of;
pub use checked::Checked;
pub use checker::check;
pub use edge::{WayOut, calls_no_deeper, jump_target, lacks_label, way_out};
pub use index::Index;
pub use judge::JudgedEdge;
pub use labels::{function_at, label_at};
pub use refusal::Refusal;
pub use runnable::Runnable;
pub use shape::SeenLabel;
pub use site::{Callee, Site, Spot};
pub use spending::Slack;
pub use standing::{Standing, standing_at};
pub use start::{SeenStart, see_start};
pub use verifier::{Verdict, VerifyError, verify};
pub use visit::{Judged, Seen, arrive, judge as judge_reached};
