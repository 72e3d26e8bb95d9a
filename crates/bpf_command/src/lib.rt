//! The command `bpf` over places that are named: what a command line asks for, and what each command answers, prints and writes. The
//! program `bpf` joins it with the system.
#![tactic(auto)]

mod advice;
mod aside;
mod commands;
mod conflicts;
mod finding;
mod found;
mod obstacles;
mod progress;
mod remark;
mod request;
mod response;
mod sentences;
mod shown;

pub use aside::{Aside, Terminal};
pub use progress::Progress;
pub use response::{fail, respond};
