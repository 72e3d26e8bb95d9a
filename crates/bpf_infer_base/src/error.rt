//! Why no certificate is proposed.

ghost use Rattle.std.specs.Prelude.{◌≡◌, ◌<◌, ◌≤◌, ◌↔◌, [], IsSome, IfSome, MatchOption, get_or, length};
ghost use Rattle.bpf_infer_base.specs.RefusalNumbers.{infer_number, infer_slot, infer_texts, within};

use crate::condition::ForeseenCondition;
use std::alloc::{AllocError, AllocFailed};
use thiserror::Error;

/// Why no certificate is proposed for a program, with a slot of it.
#[derive(Clone, Copy, Debug, PartialEq, Eq, Error)]
pub enum InferError {
    /// I1: no stable states are found for the function at the slot, or not within a limit; at slot 0 also where what functions
    /// return isn't stable.
    #[error("at slot {slot}: {}", self.text())]
    Unstable {
        slot: u32,
    },
    /// I2: the loop at the slot has no counter, or the slot's label is over a limit, or functions call one another more than 8
    /// deep, or there are more than 256.
    #[error("at slot {slot}: {}", self.text())]
    NoBudget {
        slot: u32,
    },
    /// I3: the call at the slot is part of a recursion.
    #[error("at slot {slot}: {}", self.text())]
    Recursion {
        slot: u32,
    },
    /// I4: the checker would refuse the instruction at the slot, since it fails a condition.
    #[error("at slot {slot}: {}: {condition}", self.text())]
    Fault {
        slot: u32,
        condition: ForeseenCondition,
    },
    /// I5: memory ran out.
    #[error("{}", self.text())]
    Memory,
}

impl InferError {
    /// The number of the refusal, from 1 to 5.
    pub fn number(&self) -> u8
        ensures { result ≡ infer_number self.now }
    {
        match self {
            InferError::Unstable { .. } => 1,
            InferError::NoBudget { .. } => 2,
            InferError::Recursion { .. } => 3,
            InferError::Fault { .. } => 4,
            InferError::Memory => 5,
        }
    }

    /// What is told of the refusal with a number, without the slot; None where that isn't from 1 to 5.
    pub fn text_numbered(number: u32) -> Option<&'static str>
        ensures numbered { IsSome result ↔ ((1 ≤ number) × (number ≤ 5)) }
        ensures told { IfSome result (λ text. 0 < length text.now) }
        ensures text { MatchOption result (get_or infer_texts number [] ≡ []) (λ text. text.now ≡ get_or infer_texts number []) }
    {
        match number {
            1 => Some("states of the function aren't stable"),
            2 => Some("a loop isn't counted, or calls are too deep or too many"),
            3 => Some("recursion by the call"),
            4 => Some("the checker would refuse the instruction"),
            5 => Some("out of memory"),
            _ => None,
        }
    }

    /// What is told of the refusal, without the slot.
    pub fn text(&self) -> &'static str
        ensures { result.now ≡ get_or infer_texts (infer_number self.now) [] }
    {
        match InferError::text_numbered(u32::from(self.number())) {
            Some(text) => text,
            None => "",
        }
    }

    /// The slot that is named, 0 where memory ran out.
    pub fn slot(&self) -> u32
        ensures { result ≡ infer_slot self.now }
    {
        match *self {
            InferError::Unstable { slot }
            | InferError::NoBudget { slot }
            | InferError::Recursion { slot }
            | InferError::Fault { slot, .. } => slot,
            InferError::Memory => 0,
        }
    }

    /// The same refusal with a slot of a program of so many slots, its last one in the place of one behind it.
    pub fn within(self, slots: u32) -> InferError
        requires { 0 < slots }
        ensures same { result ≡ within slots self }
        ensures inside { infer_slot result < slots }
    {
        let slot = self.slot().min(slots - 1);
        match self {
            InferError::Unstable { .. } => InferError::Unstable { slot },
            InferError::NoBudget { .. } => InferError::NoBudget { slot },
            InferError::Recursion { .. } => InferError::Recursion { slot },
            InferError::Fault { condition, .. } => InferError::Fault { slot, condition },
            InferError::Memory => InferError::Memory,
        }
    }
}

impl From<AllocError> for InferError {
    ghost use Rattle.std.specs.Prelude.{◌≡◌};
    ghost use Rattle.bpf_infer_base.specs.declared.error.InferError.TheVariants.{Memory};

    ghost from_gives = { λ _ e. e ≡ Memory };

    fn from(_error: AllocError) -> InferError {
        InferError::Memory
    }
}

impl<T: Drop> From<AllocFailed<T>> for InferError {
    ghost use Rattle.std.specs.Prelude.{◌≡◌};
    ghost use Rattle.bpf_infer_base.specs.declared.error.InferError.TheVariants.{Memory};

    ghost from_gives = { λ _ e. e ≡ Memory };

    fn from(_error: AllocFailed<T>) -> InferError {
        InferError::Memory
    }
}
