//! The machine that runs programs (RFC 9669, sections 4 and 5): what its states are, what a step does, when it is
//! stuck, and their laws. And the run of a program on a packet, inside of a block that holds the packet.
#![tactic(auto)]

mod block_laws;
mod blocks;
mod flat_laws;
mod machine_laws;
mod numbers;
pub mod reason;
mod targets;
pub mod value;

pub use block_laws::{
    accesses_inside, block_of_frame, finishes_inside, head_of_block, start_inside, state_inside,
    step_inside, steps_inside,
};
pub use blocks::HEAD_BYTES;
pub use flat_laws::{
    flat_finishes, flat_follows, flat_reads_only, flat_reads_registers, flat_writes_one_register,
    flat_writes_only,
};
pub use machine_laws::{
    finish_is_last, runs_are_one, runs_keep_states, start_is_state, step_is_deterministic,
    step_keeps_context, step_keeps_slots, step_keeps_states, steps_are_computed, stuck_has_reason,
};
pub use numbers::{atomic_result, sign_extend_from};
pub use reason::Reason;
pub use targets::target_of;
pub use value::{Region, Value};
