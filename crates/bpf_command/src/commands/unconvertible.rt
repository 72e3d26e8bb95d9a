//! Why what is at a name isn't converted.

use bpf_classic::{FilterRefusal, TextFault};
use bpf_refusals::{Tells, Told};
use thiserror::Error;

/// Why what is at a name isn't converted.
#[derive(Clone, Copy, Debug, PartialEq, Eq, Error)]
pub enum Unconvertible {
    /// B8, B9: it spells no instructions.
    #[error("{0}")]
    Text(TextFault),
    /// B1 to B7, B9, B10: no program is made of its instructions.
    #[error("{0}")]
    Filter(FilterRefusal),
}

impl Tells for Unconvertible {
    ghost use Rattle.bpf_command.specs.Spelled.{told_unconvertible};

    ghost told_of = { told_unconvertible };

    fn told(&self) -> Told {
        match self {
            Unconvertible::Text(fault) => fault.told(),
            Unconvertible::Filter(refusal) => refusal.told(),
        }
    }
}
