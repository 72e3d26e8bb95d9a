//! Turns what the function of a command gives back into a `Finding`, the one type for what any command found.

ghost use Rattle.std.specs.Prelude.{◌≡◌, IfOk, IfErr, Ok, Err};

use crate::commands::{Assessed, Attempt, Conversion, Inference};
use crate::finding::Finding;
use bpf_answers::{Answer, Failure, Reply};

/// What a command gives back.
pub trait CommandAnswer {
    ghost use Rattle.std.specs.Prelude.{◌≡◌};
    ghost use Rattle.bpf_command.specs.declared.finding.Finding.{Finding};

    ghost finding: { Self → Finding };

    /// What it found.
    fn finding(self) -> Finding
        ensures { result ≡ finding self };
}

impl CommandAnswer for Answer {
    ghost use Rattle.bpf_answers.specs.declared.reply.Reply.TheVariants.{One};
    ghost use Rattle.bpf_command.specs.declared.finding.Finding.TheVariants.{Given};

    ghost finding = { λ answer. Given (One answer) };

    fn finding(self) -> Finding {
        Finding::Given(Reply::One(self))
    }
}

impl CommandAnswer for Reply {
    ghost use Rattle.bpf_command.specs.declared.finding.Finding.TheVariants.{Given};

    ghost finding = { λ reply. Given reply };

    fn finding(self) -> Finding {
        Finding::Given(self)
    }
}

/// The status of words that were printed.
impl CommandAnswer for u8 {
    ghost use Rattle.bpf_answers.specs.declared.reply.Reply.TheVariants.{Each};
    ghost use Rattle.bpf_command.specs.declared.finding.Finding.TheVariants.{Given};

    ghost finding = { λ status. Given (Each status) };

    fn finding(self) -> Finding {
        Finding::Given(Reply::Each(self))
    }
}

impl CommandAnswer for Inference {
    ghost use Rattle.bpf_command.specs.declared.finding.Finding.TheVariants.{Inferred};

    ghost finding = { λ found. Inferred found };

    fn finding(self) -> Finding {
        Finding::Inferred(self)
    }
}

impl CommandAnswer for Attempt {
    ghost use Rattle.bpf_command.specs.declared.finding.Finding.TheVariants.{Hardened};

    ghost finding = { λ found. Hardened found };

    fn finding(self) -> Finding {
        Finding::Hardened(self)
    }
}

impl CommandAnswer for Assessed {
    ghost use Rattle.bpf_command.specs.declared.finding.Finding.TheVariants.{Certified};

    ghost finding = { λ found. Certified found };

    fn finding(self) -> Finding {
        Finding::Certified(self)
    }
}

impl CommandAnswer for Conversion {
    ghost use Rattle.bpf_command.specs.declared.finding.Finding.TheVariants.{Converted};

    ghost finding = { λ found. Converted found };

    fn finding(self) -> Finding {
        Finding::Converted(self)
    }
}

/// What a command found, if it came to its end.
pub fn finding_of<'a, T: CommandAnswer>(
    given: Result<T, Failure<'a>>,
) -> Result<Finding, Failure<'a>>
    ensures ok { IfOk given.entry (λ x. result ≡ Ok (T.finding x)) }
    ensures err { IfErr given.entry (λ e. result ≡ Err e) }
{
    match given {
        Ok(found) => Ok(found.finding()),
        Err(failure) => Err(failure),
    }
}
