//! The assembler and the lister: programs as text.
#![tactic(auto)]

mod annotated;
mod assembler;
mod chains;
mod endings;
mod error;
mod excerpt;
mod laws;
mod line;
mod line_read;
mod listed_line;
mod lister;
mod lookup;
mod names;
mod source;
mod spelling;
mod statement;
mod stop;
mod token;

pub use annotated::{Notes, annotate};
pub use assembler::assemble;
pub use endings::{Item, endings_of};
pub use error::TextError;
pub use excerpt::{code_at, target_name};
pub use laws::{
    annotated_assembles, assembles_or_is_refused, assembles_to_one, listing_assembles,
    listings_are_short, never_both, reads_forms, reads_text, refused_once,
};
pub use line::{LineFault, label_name};
pub use lister::{list, write_line};
pub use stop::{Range, Stop, first_token, line_stop, range_behind};
