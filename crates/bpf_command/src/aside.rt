//! What is told beside the answer, where people read.

use bpf_infer::{Unwatched, Watch};
use std::io::{Sink, Write, sink};

/// Where people read at once.
pub trait Terminal {
    ghost use Rattle.std.specs.Prelude.{◌≡◌, Bool, is_some};

    type Stream: Write + Drop;

    /// Whether standard error is a terminal.
    ghost is_read: { Self → Bool };

    /// The terminal; None where standard error is a file or a pipe, and nobody is told what helps.
    fn terminal(&self) -> Option<Self::Stream>
        ensures { is_some result ≡ is_read self.now };
}

/// Tells people what no answer depends on: how far a search is, what may help, and the steps of a run.
pub trait Aside: Watch + Terminal {
    /// Where the steps of a run are told, whatever that is.
    fn stream(&self) -> Self::Stream;
}

impl Terminal for Unwatched {
    ghost use Rattle.std.specs.Prelude.{false};

    type Stream = Sink;

    ghost is_read = { λ _. false };

    fn terminal(&self) -> Option<Sink> {
        None
    }
}

impl Aside for Unwatched {
    fn stream(&self) -> Sink {
        sink()
    }
}
