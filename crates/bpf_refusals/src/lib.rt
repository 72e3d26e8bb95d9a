//! Every refusal, and every fault of a run: its letter, its number, what it says, where it stands and which condition it names. The errors of the
//! crates below tell of themselves by `Tells`, and all that hosts and people are told is made of what they tell.
#![tactic(auto)]

mod errors;
mod letter;
mod sentences;
mod told;

pub use letter::{Letter, letters_differ};
pub use told::{At, FILTER_MEMORY, NOT_SHOWN, TOO_DEAR, Tells, Told, UNCERTIFIED};
