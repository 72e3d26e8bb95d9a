//! What a converted filter gets: its certificate, by template, which certifies it by a law; and its listing, with each of
//! its instructions above what came from it.
#![tactic(auto)]

mod claims;
pub mod found;
mod law;
mod leaders;
mod listing;
mod made;
pub mod parts;
mod states;
mod ways;

pub use claims::certificate;
pub use law::certified_at_once;
pub use listing::listed;
pub use made::{Made, converted, kind_of};
