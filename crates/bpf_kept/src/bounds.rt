//! Of which runs it is said that a new program keeps the meaning.

/// Contexts of so many bytes, or blocks where they are `padded`: the old program is given the packet of a block. How often a call of the old program
/// comes to one of its instructions at most; and how many of the lowest bytes of each frame its accesses by other registers than r10 leave alone.
#[derive(Clone, Copy, Debug, PartialEq, Eq)]
pub struct Bounds {
    pub length: u32,
    pub padded: bool,
    pub turns: u64,
    pub untouched: u32,
}

/// Of how many turns it is said.
#[derive(Clone, Copy, Debug, PartialEq, Eq)]
pub enum Turns {
    /// Of any number.
    Any,
    /// Of so many at most.
    Most(u64),
}
