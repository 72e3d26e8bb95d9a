//! Translation validation (Pnueli and others, Translation validation, 1998): one pass over a new program, with its notes and its certificate, checks
//! that it keeps the meaning of an old one. The crate also reads and writes the text of notes, and tells whether a run ended at a trap, an EXIT that
//! stands for none of the old program's.
#![tactic(auto)]

mod digits;
mod error;
mod exit;
mod facts;
mod far;
mod head;
mod laws;
mod lists;
mod note;
mod pass;
mod reading;
mod same;
mod terms;
mod trap;
mod walk;
mod writing;

pub use error::NotesError;
pub use exit::exit_slot;
pub use laws::{named_exits_stand, traps_have_no_answer};
pub use pass::follows;
pub use reading::{NotesOfRuns, read};
pub use trap::{ends_at_trap, is_trap};
pub use walk::{go_on, stated};
pub use writing::write;
