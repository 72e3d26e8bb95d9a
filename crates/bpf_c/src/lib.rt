//! A program as a function of C11, for hosts that are built with their filters.
#![tactic(auto)]

mod body;
mod bounds;
mod memory;
mod name;
mod operations;
mod page;
mod parts;
mod statement;
mod unit;
mod words;

pub use bounds::Promise;
pub use name::is_name;
pub use operations::OPERATIONS;
pub use parts::PART_SLOTS;
pub use unit::write_c;
