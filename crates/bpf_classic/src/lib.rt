//! Filters of classic BPF: their machine and what one answers, which are valid, their texts and bytes, and the
//! programs that they are converted to.
#![tactic(auto)]

pub mod auxiliary;
mod border;
mod bytes;
mod converter;
pub mod emit;
mod fault;
mod faults;
mod filter;
mod flow;
pub mod insns;
pub mod instruction;
mod laws;
pub mod layout;
mod line;
mod listing;
pub mod loads;
mod marks;
mod number;
mod operand;
pub mod raw;
pub mod refusal;
mod text;
pub mod ways;
mod words;
mod writing;

pub use bytes::raws_in;
pub use converter::{Converted, convert};
pub use fault::TextFault;
pub use filter::{Filter, MAX_FILTER};
pub use instruction::{Auxiliary, Classic, LoadSize, Op, Register, Source, Test};
pub use laws::{
    conversion_keeps_answers, more_turns_keep_answers, straight_filters_answer, turns_are_spent,
};
pub use layout::{Annotated, Form, Layout, Wanted, usual_turns};
pub use listing::put_raw;
pub use raw::Raw;
pub use refusal::{Fault, FilterRefusal, Kind};
pub use text::raws_of;
