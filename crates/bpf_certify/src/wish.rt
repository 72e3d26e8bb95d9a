//! What is asked of a certification.

/// The bound that a host pays for unless another one is said, in instructions.
pub const MOST_BOUND: u32 = 1_000_000;

/// What is asked of a certification.
#[derive(Clone, Copy, Debug)]
pub struct Wish {
    /// The greatest bound, in instructions.
    pub bound: u32,
    /// How often a loop that gets a counter may turn in one call of its function. None for the greatest number that is found to stay within the
    /// bound.
    pub turns: Option<u32>,
    /// What r0 is where a trap ends the program.
    pub otherwise: u64,
    /// Contexts are blocks: eight bytes that say how long the packet is, the packet, and padding.
    pub padded: bool,
    /// A hardened program comes out that isn't shown to keep the meaning, too.
    pub unproved: bool,
    /// Notes are wanted, also where nothing has to be shown.
    pub notes: bool,
}
