//! What answers packets.

use bpf_insn::Order;

/// How packets are laid into blocks: in which byte order the length stands in front, and how many bytes a block has.
#[derive(Clone, Copy)]
pub struct BlockLayout {
    pub order: Order,
    pub size: usize,
}

/// What answers blocks.
pub trait Answerer {
    ghost use Rattle.std.specs.Prelude.{ℕ, List, length};

    /// Whether it takes blocks of so many bytes.
    ghost takes: { Self → ℕ → Type 0 };

    /// The number that a block gives.
    ghost gives: { Self → List ℕ → ℕ → Type 0 };

    /// The number with which the run on a block ends.
    fn run(&self, block: &[u8]) -> u64
        requires { takes self.now (length block.now) }
        ensures { gives self.now block.now result };
}
