//! What a command gives back.

use crate::answer::Answer;

/// One answer, which is still to be printed; or the greatest status of the answers to contexts in lines, which were.
#[derive(Drop)]
pub enum Reply {
    One(Answer),
    Each(u8),
}
