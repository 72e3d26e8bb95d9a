//! Captures of packets (pcap), record by record, with the block of each packet; and the answers to the packets of a
//! capture: a line for each, or counted.
#![tactic(auto)]

mod answerer;
mod answers;
mod block;
mod capture;
mod counting;
mod error;
mod fill;
mod lines;
mod printing;
mod turn;

pub use answerer::{Answerer, BlockLayout};
pub use answers::{ReplayFault, replay};
pub use block::block_holds;
pub use capture::{next_packet, rest_is_there};
pub use error::{CaptureError, CaptureRefusal};
pub use turn::CaptureEnd;
