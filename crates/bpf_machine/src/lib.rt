//! The machine of the BPF instruction set (RFC 9669, sections 4 and 5): programs run without memory of their own.
#![tactic(auto)]

mod machine;
mod next;
mod outcome;
mod registers;
mod runs;
mod stack;
mod step;

pub use bpf_semantics::{Reason, Region, Value};
pub use machine::Machine;
pub use outcome::{Outcome, Step};
pub use runs::run;
