//! What a command found.

ghost use Rattle.std.specs.Prelude.{◌≡◌};
ghost use Rattle.bpf_command.specs.Found.{Prints, lines_of, reply_of};

use crate::commands::{Assessed, Attempt, Conversion, Inference};
use bpf_answers::{Failure, Reply, print};
use std::io::Write;

/// What a command found for a request. What is printed of it, and what is told beside, are functions of it.
#[derive(Drop)]
pub enum Finding {
    /// An answer that is still to be printed, or the status of what was printed.
    Given(Reply),
    /// What the search for a certificate came to.
    Inferred(Inference),
    /// What the hardening of a program came to.
    Hardened(Attempt),
    /// What the certification of a program came to.
    Certified(Assessed),
    /// What the conversion of a filter came to.
    Converted(Conversion),
}

impl Finding {
    /// Prints it where it is still to be printed, and gives its status. Where that fails, standard output has a beginning of its text.
    pub fn print<'a, W: Write>(&self, out: &mut W) -> Result<u8, Failure<'a>>
        ensures { Prints (reply_of self.now) (W.contents out.old) (W.contents out.new) result }
    {
        match self {
            Finding::Given(Reply::One(answer)) => print(out, answer),
            Finding::Given(Reply::Each(status)) => Ok(*status),
            Finding::Inferred(found) => print(out, &found.answer()),
            Finding::Hardened(found) => print(out, &found.answer()),
            Finding::Certified(found) => print(out, &found.assessment.answer()),
            Finding::Converted(found) => print(out, &found.answer()),
        }
    }

    /// The lines of the program's source, where they are known; else empty.
    pub fn lines(&self) -> &[u8]
        ensures { result.now ≡ lines_of self.now }
    {
        match self {
            Finding::Certified(found) => found.lines.as_str().as_bytes(),
            Finding::Given(_) | Finding::Inferred(_) | Finding::Hardened(_) => &[],
            Finding::Converted(_) => &[],
        }
    }
}
