//! From a program to a certificate within a bound: as it stands, or hardened; and the notes of a hardened program. They say which of its
//! instructions stand for which old ones, and what its registers and its frame hold there by the old program's. Searches propose. The
//! checker and the law of notes decide.
#![tactic(auto)]

mod brought;
mod certified;
mod error;
mod evidence;
mod finder;
mod functions;
mod note;
mod ranks;
mod sites;
mod states;
mod turns;
mod wish;

pub use bpf_kept::Turns;
pub use certified::{Certified, Rewritten, certify};
pub use error::CertifyError;
pub use evidence::{Evidence, evidence_for, evidence_of};
pub use wish::{MOST_BOUND, Wish};
