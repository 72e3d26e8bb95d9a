//! Abstract states: what is known of the registers and of the top frame's slots, and what instructions make of it.
#![tactic(auto)]

mod access;
mod branches;
mod calls;
mod cause;
pub mod condition;
mod entailment;
mod entries;
pub mod fault;
pub mod known;
mod lanes;
mod masked;
mod numbers;
mod places;
mod slots;
mod state;
mod tags;
mod tightening;
mod transfers;
mod work;

pub use access::Reach;
pub use branches::branch;
pub use calls::{enter, leave};
pub use cause::{
    Mistake, UnknownBytes, far_pointer, mistake_of_kinds, unknown_bytes, unset_register,
};
pub use condition::Condition;
pub use entries::Entries;
pub use fault::StateFault;
pub use known::{
    Area, FARTHEST, FRAME_START, Moved, Place, Pointer, RegState, SlotState, Tag, value_slot,
};
pub use lanes::covers;
pub use state::State;
pub use transfers::{any_number, any_signed, transfer};
pub use work::Work;
