//! Why a text or bytes spell no instructions.

use std::alloc::AllocError;
use thiserror::Error;

/// Why a text or bytes spell no instructions. Lines are counted from 1, instructions from 0.
#[derive(Clone, Copy, Debug, PartialEq, Eq, Error)]
pub enum TextFault {
    /// The line isn't four numbers: a code below 65,536, two distances below 256, and a constant below 2^32.
    #[error("line {line} isn't an instruction: four numbers, as `40 0 0 12` or `{{ 0x28, 0, 0, 0x0000000c }},`")]
    Row {
        line: usize,
    },
    /// There are other instructions than a line counts.
    #[error("line {line} says {said} instructions, and {found} follow")]
    Count {
        line: usize,
        said: u32,
        found: usize,
    },
    /// The bytes end inside of an instruction.
    #[error("the bytes end inside of instruction {at}: each has 8")]
    Part {
        at: usize,
    },
    /// Memory ran out.
    #[error("out of memory")]
    Memory,
}

impl From<AllocError> for TextFault {
    ghost use Rattle.std.specs.Prelude.{◌≡◌};
    ghost use Rattle.bpf_classic.specs.declared.fault.TextFault.TheVariants.{Memory};

    ghost from_gives = { λ _ e. e ≡ Memory };

    fn from(_error: AllocError) -> TextFault {
        TextFault::Memory
    }
}
