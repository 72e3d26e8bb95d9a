//! The words of explanations of programs with certificates. It makes no claim but to be safe and to end; what is accepted and what is
//! refused is told to it, and accepted only what is certified.
#![tactic(auto)]

mod alone;
mod flaws;
mod graph;
mod judged;
mod known;
mod listing;
mod pass;
mod places;
mod program;
mod reach;
mod report;
mod shown;
mod sight;
mod source;
mod standing;
mod trail;
mod whole;
mod words;

pub use alone::write_alone;
pub use graph::tell_sketched_dot;
pub use judged::refusal_of;
pub use known::{Name, SpelledInsn};
pub use listing::write_padded;
pub use program::{tell_reason, tell_shown, tell_sketch, write_shown};
pub use reach::tell_unreached;
pub use shown::Shown;
pub use source::{is_table, source_at};
pub use words::register;
