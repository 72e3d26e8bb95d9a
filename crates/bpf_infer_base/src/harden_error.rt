//! Why a program isn't hardened.

ghost use Rattle.std.specs.Prelude.{◌≡◌, ◌<◌, ◌≤◌, ◌↔◌, [], IsSome, IfSome, MatchOption, get_or, length};
ghost use Rattle.bpf_infer_base.specs.HardenNumbers.{harden_number, harden_slot, harden_texts, within};

use crate::condition::ForeseenCondition;
use std::alloc::{AllocError, AllocFailed};
use thiserror::Error;

/// Why a program isn't hardened, with a slot of it.
#[derive(Clone, Copy, Debug, PartialEq, Eq, Error)]
pub enum HardenError {
    /// H1: the access at the slot goes by a pointer into a caller's frame.
    #[error("at slot {slot}: {}", self.text())]
    FramePointer {
        slot: u32,
    },
    /// H2: the instruction at the slot reads what is a pointer on one way and a number, another pointer or nothing on another.
    #[error("at slot {slot}: {}", self.text())]
    MixedKinds {
        slot: u32,
    },
    /// H3: neither a register nor the frame of the function at the slot has room for what hardening has to keep.
    #[error("at slot {slot}: {}", self.text())]
    FullFrame {
        slot: u32,
    },
    /// H4: the program would have more than 65,536 slots; the slot is its last one.
    #[error("at slot {slot}: {}", self.text())]
    TooLong {
        slot: u32,
    },
    /// H5: the call at the slot is part of a recursion.
    #[error("at slot {slot}: {}", self.text())]
    Recursion {
        slot: u32,
    },
    /// H6: the function at the slot reads all five arguments, so the context can't be handed to it.
    #[error("at slot {slot}: {}", self.text())]
    FiveArguments {
        slot: u32,
    },
    /// H7: the checker would refuse the instruction at the slot, and no change makes it take it.
    #[error("at slot {slot}: {}: {condition}", self.text())]
    Fault {
        slot: u32,
        condition: ForeseenCondition,
    },
    /// H8: the budget of the loop at the slot is over a limit, or of the whole program where it is slot 0, or isn't found though
    /// the loop has a counter of turns; at slot 0 also where 48 rounds weren't enough.
    #[error("at slot {slot}: {}", self.text())]
    NoBudget {
        slot: u32,
    },
    /// H9: the jump at the slot would lead further than 32,767 slots.
    #[error("at slot {slot}: {}", self.text())]
    FarJump {
        slot: u32,
    },
    /// H10: no states are found for the function at the slot.
    #[error("at slot {slot}: {}", self.text())]
    Unstable {
        slot: u32,
    },
    /// H11: a block has less than eight bytes.
    #[error("{}", self.text())]
    ShortBlock,
    /// H12: memory ran out.
    #[error("{}", self.text())]
    Memory,
}

impl HardenError {
    /// The number of the refusal, from 1 to 12.
    pub fn number(&self) -> u8
        ensures { result ≡ harden_number self.now }
    {
        match self {
            HardenError::FramePointer { .. } => 1,
            HardenError::MixedKinds { .. } => 2,
            HardenError::FullFrame { .. } => 3,
            HardenError::TooLong { .. } => 4,
            HardenError::Recursion { .. } => 5,
            HardenError::FiveArguments { .. } => 6,
            HardenError::Fault { .. } => 7,
            HardenError::NoBudget { .. } => 8,
            HardenError::FarJump { .. } => 9,
            HardenError::Unstable { .. } => 10,
            HardenError::ShortBlock => 11,
            HardenError::Memory => 12,
        }
    }

    /// What is told of the refusal with a number, without the slot; None where that isn't from 1 to 12.
    pub fn text_numbered(number: u32) -> Option<&'static str>
        ensures numbered { IsSome result ↔ ((1 ≤ number) × (number ≤ 12)) }
        ensures told { IfSome result (λ text. 0 < length text.now) }
        ensures text { MatchOption result (get_or harden_texts number [] ≡ []) (λ text. text.now ≡ get_or harden_texts number []) }
    {
        match number {
            1 => Some("access by an argument that may be a frame pointer"),
            2 => Some("instruction reads what isn't of the same kind on each way"),
            3 => Some("no room in the registers and the frame of the function"),
            4 => Some("the hardened program would have more than 65,536 slots"),
            5 => Some("recursion by the call"),
            6 => Some("no argument left for the context in the function"),
            7 => Some("instruction can't be hardened"),
            8 => Some("no budget is found for the loop, or at slot 0 for the program"),
            9 => Some("the jump would lead too far"),
            10 => Some("states of the function aren't stable"),
            11 => Some("a block has at least the eight bytes of its length"),
            12 => Some("out of memory"),
            _ => None,
        }
    }

    /// What is told of the refusal, without the slot.
    pub fn text(&self) -> &'static str
        ensures { result.now ≡ get_or harden_texts (harden_number self.now) [] }
    {
        match HardenError::text_numbered(u32::from(self.number())) {
            Some(text) => text,
            None => "",
        }
    }

    /// The slot that is named, 0 where none is.
    pub fn slot(&self) -> u32
        ensures { result ≡ harden_slot self.now }
    {
        match *self {
            HardenError::FramePointer { slot }
            | HardenError::MixedKinds { slot }
            | HardenError::FullFrame { slot }
            | HardenError::TooLong { slot }
            | HardenError::Recursion { slot }
            | HardenError::FiveArguments { slot }
            | HardenError::Fault { slot, .. }
            | HardenError::NoBudget { slot }
            | HardenError::FarJump { slot }
            | HardenError::Unstable { slot } => slot,
            HardenError::ShortBlock | HardenError::Memory => 0,
        }
    }

    /// The same refusal with a slot of a program of so many slots, its last one in the place of one behind it.
    pub fn within(self, slots: u32) -> HardenError
        requires { 0 < slots }
        ensures same { result ≡ within slots self }
        ensures inside { harden_slot result < slots }
    {
        let slot = self.slot().min(slots - 1);
        match self {
            HardenError::FramePointer { .. } => HardenError::FramePointer { slot },
            HardenError::MixedKinds { .. } => HardenError::MixedKinds { slot },
            HardenError::FullFrame { .. } => HardenError::FullFrame { slot },
            HardenError::TooLong { .. } => HardenError::TooLong { slot },
            HardenError::Recursion { .. } => HardenError::Recursion { slot },
            HardenError::FiveArguments { .. } => HardenError::FiveArguments { slot },
            HardenError::Fault { condition, .. } => HardenError::Fault { slot, condition },
            HardenError::NoBudget { .. } => HardenError::NoBudget { slot },
            HardenError::FarJump { .. } => HardenError::FarJump { slot },
            HardenError::Unstable { .. } => HardenError::Unstable { slot },
            HardenError::ShortBlock => HardenError::ShortBlock,
            HardenError::Memory => HardenError::Memory,
        }
    }
}

impl From<AllocError> for HardenError {
    ghost use Rattle.std.specs.Prelude.{◌≡◌};
    ghost use Rattle.bpf_infer_base.specs.declared.harden_error.HardenError.TheVariants.{Memory};

    ghost from_gives = { λ _ e. e ≡ Memory };

    fn from(_error: AllocError) -> HardenError {
        HardenError::Memory
    }
}

impl<T: Drop> From<AllocFailed<T>> for HardenError {
    ghost use Rattle.std.specs.Prelude.{◌≡◌};
    ghost use Rattle.bpf_infer_base.specs.declared.harden_error.HardenError.TheVariants.{Memory};

    ghost from_gives = { λ _ e. e ≡ Memory };

    fn from(_error: AllocFailed<T>) -> HardenError {
        HardenError::Memory
    }
}
