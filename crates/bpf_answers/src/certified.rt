//! What is certified of an image within a bound.

use bpf_kept::Turns;

/// What is told of a hardened program: the runs that it is hardened for, and whether it is shown that it keeps their meaning.
#[derive(Clone, Copy, Debug, PartialEq, Eq)]
pub struct Rewriting {
    /// How often a loop that has a counter may turn in one call of its function.
    pub turns: u32,
    /// Of how many turns it is told.
    pub told: Turns,
    /// Whether contexts are blocks.
    pub padded: bool,
    /// How many of the lowest bytes of each frame runs of the old program have to leave to r10.
    pub untouched: u32,
    pub is_shown: bool,
}

/// What is told of an image and its certificate.
#[derive(Clone, Copy, Debug, PartialEq, Eq)]
pub struct Certification {
    /// The length of the contexts in bytes.
    pub length: u32,
    /// The greatest number of instructions that a run takes.
    pub bound: u32,
    /// None where the program is the one that was given.
    pub rewriting: Option<Rewriting>,
}
