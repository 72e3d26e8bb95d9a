//! What is read and written piece by piece: lines from a reader and words at the front of a text; control characters
//! told by their bytes; a page in front of a writer, and numbers of things.
#![tactic(auto)]

mod count;
mod escaped;
mod line_reader;
mod page;
mod quoted;
mod words;

pub use count::Count;
pub use escaped::{Escaped, write_escaped};
pub use line_reader::{LineReader, LineStop, ReadFault};
pub use page::{Page, Tell};
pub use words::behind;
