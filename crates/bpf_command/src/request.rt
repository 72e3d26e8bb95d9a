//! Parses the words of a command line: a `Request` says which command they ask for, with its names and options.
//! A new option goes into `table.rt` and `specs/Commands`.

mod argument;
mod asking;
mod certifying;
mod commands;
mod contexts;
mod converting;
mod emitting;
mod following;
mod hardening;
mod replaying;
mod subject;
mod table;
mod words;

pub use asking::{
    Assembling, CheckedRunning, Checking, Explaining, Grouping, Inferring, Listing, Migrating,
    Running,
};
pub use certifying::Certifying;
pub use contexts::Contexts;
pub use converting::Converting;
pub use emitting::Emitting;
pub use following::Following;
pub use hardening::Hardening;
pub use replaying::Replaying;
pub use subject::{Aspect, Clash, Subject};
pub use table::MAX_TURNS;
pub use words::{Request, USUAL_TURNS, request_of};
