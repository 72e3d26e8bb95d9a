//! Abstract numbers: known bits, unsigned and signed intervals.
#![tactic(auto)]

pub mod domain;
pub mod known_bits;
pub mod laws;
pub mod num;
mod operation;
mod refine;
pub mod signed;
pub mod unsigned;
mod word;

pub use domain::WordDomain;
pub use known_bits::KnownBits;
pub use num::Num;
pub use signed::Signed;
pub use unsigned::Unsigned;
