//! Instructions that the checker would refuse.

use crate::condition::ForeseenCondition;
use crate::error::InferError;

/// An instruction that fails a condition of the checker, by its slot.
#[derive(Clone, Copy)]
pub struct SlotFailure {
    pub slot: u32,
    pub condition: ForeseenCondition,
}

impl SlotFailure {
    /// The instruction at a slot isn't reached, or the end can be passed behind it.
    pub fn falls_off(slot: u32) -> SlotFailure {
        SlotFailure {
            slot,
            condition: ForeseenCondition::FallsOff,
        }
    }

    /// I4 for it.
    pub fn refusal(self) -> InferError {
        InferError::Fault {
            slot: self.slot,
            condition: self.condition,
        }
    }
}
