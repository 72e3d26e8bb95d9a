//! What a command line wants hardened.

use bpf_insn::Order;

/// A hardening: of which image, for which contexts, how, and where the answer goes.
#[derive(Clone, Copy)]
pub struct Hardening<'a> {
    /// The name of the image.
    pub input: &'a str,
    /// The length of the contexts in bytes, at most 4,096.
    pub length: u32,
    /// Where the hardened image goes.
    pub output: &'a str,
    /// How often a loop that gets a counter may turn in one call of its function, at least once.
    pub turns: u32,
    /// How many of the lowest bytes of each frame runs that keep their meaning access by r10 alone, at most 512; None where nothing is said.
    pub untouched: Option<u32>,
    /// The number with which a trap ends the program.
    pub otherwise: u64,
    /// Contexts are blocks: a packet's length in eight bytes, the packet, and padding.
    pub padded: bool,
    /// A hardened program goes out that isn't shown to keep the meaning, too.
    pub unproved: bool,
    /// Where the notes go by which that is shown.
    pub notes: Option<&'a str>,
    /// Where the certificate goes beside which the notes stand.
    pub certificate: Option<&'a str>,
    /// Where a line for each change goes.
    pub changes: Option<&'a str>,
    pub order: Order,
}
