//! What the command `bpf` finds at names: images, texts, certificates and contexts. The lines that it answers, each refusal in its line, and what is told of
//! failures. What is read and written by name are the files of the system, whole or not at all.
#![tactic(auto)]

mod annotated;
mod answer;
mod beside;
mod both;
mod bytes;
mod certificate;
mod certified;
mod context;
mod counted;
mod each;
mod error;
mod failure;
mod fault;
mod files;
mod image;
mod keeping;
mod lines;
mod links;
mod notes;
mod output;
mod pieces;
mod places;
mod reading;
mod refusal;
mod reply;
mod text;
mod trapped;
mod whole;

pub use annotated::CommentedListing;
pub use answer::{Answer, print};
pub use both::put_both;
pub use bytes::{BytesError, bytes_at};
pub use certificate::certificate_at;
pub use certified::{Certification, Rewriting};
pub use context::{ContextError, context_of};
pub use counted::Counted;
pub use each::{Runner, answered};
pub use error::PlaceError;
pub use failure::{BAD_WORDS, CLOSED, DONE, FAILED, Failure, REFUSED, tell};
pub use fault::{Cause, LastFault, Noted};
pub use files::FilePlaces;
pub use image::{image_at, program_at};
pub use keeping::Keeping;
pub use notes::notes_at;
pub use output::{Content, put};
pub use places::Places;
pub use reply::Reply;
pub use text::{MAX_TEXT, readable_text_at, text_at};
pub use whole::context_at;
