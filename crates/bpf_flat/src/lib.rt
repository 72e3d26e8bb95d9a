//! The flat machine (RFC 9669, sections 4 and 5) for programs whose runs are known to end: plain numbers, and no test that could fail.
#![tactic(auto)]

mod dispatch;
mod fetch;
mod frames;
mod image;
mod machine;
mod op;
mod opcodes;
mod ordered;
mod pairs;
mod prepared;
mod runs;
mod seldom;
mod standing;
mod step;

pub use opcodes::put_opcodes;
pub use ordered::Imaged;
pub use prepared::{Prepared, run_image};
pub use runs::run;
