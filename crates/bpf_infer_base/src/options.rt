//! What is asked of a hardening.

use bpf_semantics::HEAD_BYTES;

/// What is asked of a hardening.
#[derive(Clone, Copy, Debug)]
pub struct Options {
    /// How often a loop that gets a counter may turn in one call of its function. Above 2^31 - 1 it counts as that.
    pub turns: u32,
    /// What r0 is where a trap ends the program.
    pub otherwise: u64,
    /// The context is a block: eight bytes that say how long the packet is, in the program's byte order, the packet, and
    /// padding. The old program gets the packet and its length.
    pub padded: bool,
    /// Guards and counters wherever one can be, also where the checker needs none: for tests.
    pub everywhere: bool,
}

impl Options {
    ghost use Rattle.std.specs.Prelude.{◌≡◌, if◌then◌else◌};
    ghost use Rattle.bpf_semantics.specs.Blocks.{head_bytes};

    /// How many bytes of a context stand in front of the first one that the old program may access.
    pub fn head(&self) -> u32
        ensures { result ≡ (if self.now.padded then head_bytes else 0) }
    {
        if self.padded { HEAD_BYTES } else { 0 }
    }
}
