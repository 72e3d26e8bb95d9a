//! What a conversion comes to.

ghost use Rattle.std.specs.Prelude.{◌≡◌};
ghost use Rattle.bpf_command.specs.Converted.{conversion_answer};

use crate::commands::unconvertible::Unconvertible;
use bpf_answers::{Answer, Certification};
use bpf_refusals::Tells;

/// What a conversion comes to. What is printed of it, and what is told beside, are functions of it.
#[derive(Clone, Copy, Debug, PartialEq, Eq)]
pub enum Conversion {
    /// The image and its certificate are written.
    Made(Certification),
    /// What is at the name isn't converted.
    Refused(Unconvertible),
}

impl Conversion {
    /// What is printed of it.
    pub fn answer(self) -> Answer
        ensures { result ≡ conversion_answer self }
    {
        match self {
            Conversion::Made(told) => Answer::Certified(told),
            Conversion::Refused(error) => Answer::NotConverted(error.told()),
        }
    }
}
