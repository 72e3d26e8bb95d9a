//! New instructions whose jumps aren't resolved yet.

use bpf_infer_base::Change;
use bpf_insn::Insn;

/// Where a new instruction leads.
#[derive(Clone, Copy)]
pub enum Goal {
    /// To no place of its own.
    Next,
    /// To what stands in the place of the old instruction at a slot.
    Old(u32),
    /// To the trap of a function, by its number.
    Trap(usize),
    /// To the entry of a function, by its number.
    Entry(usize),
}

/// A new instruction.
#[derive(Clone, Copy)]
pub struct Piece {
    /// With a distance of 0 where it leads somewhere.
    pub insn: Insn,
    pub goal: Goal,
    /// The old slot that it belongs to.
    pub old: u32,
    /// What it does; None where it is an old instruction as it was.
    pub change: Option<Change>,
}
