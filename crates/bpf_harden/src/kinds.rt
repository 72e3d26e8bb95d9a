//! The kinds of what registers hold.

use bpf_state::RegState;

/// What a register of the old program holds.
#[derive(Clone, Copy, PartialEq)]
pub enum RegisterKind {
    Number,
    /// A pointer into the context.
    Context,
    /// A pointer into the function's own frame.
    Frame,
    /// Nothing, or not the same on each way.
    Unknown,
}

impl RegisterKind {
    /// The kind of what is known of a register.
    pub fn of(held: RegState) -> RegisterKind {
        match held {
            RegState::Any => RegisterKind::Unknown,
            RegState::Num(_) => RegisterKind::Number,
            RegState::Ptr(pointer) => if pointer.area.is_frame() {
                RegisterKind::Frame
            } else {
                RegisterKind::Context
            },
        }
    }
}
