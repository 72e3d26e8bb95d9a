//! Writes a `Remark` to standard error. A sentence that says why something was refused always goes there; what helps goes there only on a terminal.

ghost use Rattle.std.specs.Prelude.{◌≡◌};
ghost use Rattle.bpf_command.specs.Remarks.{remark_of};

use crate::advice::{
    after_hardening, after_image, after_mismatch, after_proof, after_refusal, after_search,
    after_unshown,
};
use crate::aside::Aside;
use crate::finding::Finding;
use crate::remark::Remark;
use crate::request::{Certifying, Request};
use crate::shown::OneLine;
use bpf_certify::{CertifyError, MOST_BOUND};
use bpf_check::Refusal;
use bpf_explain::Unshown;
use bpf_explain_program::source_at;
use std::alloc::Global;
use std::fmt::{self, Display};
use std::io::Write;

/// What was asked for, and the table of the lines of the program's source, which may be empty.
#[derive(Clone, Copy)]
struct AskedSource<'a, 'b> {
    asked: Certifying<'a>,
    lines: &'b [u8],
}

/// Tells a sentence in a line of its own, with the line of the source at a slot, if it is known. Whether it can be written makes no
/// difference.
fn tell_sentence<H: Aside, D: Display + Drop>(aside: &H, sentence: D, source: &str) {
    let mut stream = aside.stream();
    let from = if source.is_empty() { "" } else { "; from " };
    let _ = write!(OneLine::new(&mut stream), "{sentence}{from}{source}");
    let _ = write!(stream, "\n");
}

/// By how much a bound is too great, and what lowers it.
#[derive(Clone, Copy)]
struct Dear<'a> {
    asked: Certifying<'a>,
    turns: u32,
    bound: u32,
}

impl<'a> Display for Dear<'a> {
    fn fmt<W: fmt::Write>(&self, f: &mut fmt::Formatter<W>) -> fmt::Result {
        let (turns, bound) = (self.turns, self.bound);
        let most = self.asked.bound.unwrap_or(MOST_BOUND);
        let wanted = if turns > 1 {
            "give fewer --turns, or"
        } else {
            "let its runs be shorter, or give"
        };
        write!(
            f,
            "with turns {turns} a run may take {bound} instructions, more than {most}: {wanted} a greater --bound"
        )
    }
}

/// What the checker says of a certificate that was found.
#[derive(Clone, Copy)]
struct Unsound(Refusal);

impl Display for Unsound {
    fn fmt<W: fmt::Write>(&self, f: &mut fmt::Formatter<W>) -> fmt::Result {
        let (number, slot) = (self.0.number(), self.0.slot());
        write!(
            f,
            "the checker refuses the certificate that was found: C{number} at slot {slot} of the program that it is for"
        )
    }
}

/// Tells why a program isn't certified, with its slot and the line of its source, if that is known.
fn tell_refusal<H: Aside>(aside: &H, source: AskedSource<'_, '_>, error: CertifyError) {
    let AskedSource { asked, lines } = source;
    match error {
        CertifyError::Unhardened(error) => {
            tell_sentence(aside, error, source_at(lines, error.slot()));
            after_hardening(aside, asked.hardening(), error);
        }
        CertifyError::Unshown(mismatch) => {
            let line = source_at(lines, mismatch.slot());
            tell_sentence(aside, Unshown(mismatch), line);
            after_unshown(aside, asked.hardening(), mismatch);
        }
        CertifyError::TooDear { turns, bound } => {
            let dear = Dear {
                asked,
                turns,
                bound,
            };
            tell_sentence(aside, dear, "");
        }
        CertifyError::Uncertified(refusal) => tell_sentence(aside, Unsound(refusal), ""),
    }
}

/// Tells what is to be told beside what was found for a request; where the source is known, with the line of a slot. Whether it can be written
/// makes no difference.
pub fn tell_remark<H: Aside>(
    alloc: Global,
    aside: &H,
    _request: Request<'_>,
    found: &Finding,
    remark: Remark<'_>,
)
    requires { remark ≡ remark_of _request found.now }
{
    let lines = found.lines();
    match remark {
        Remark::Nothing => {}
        Remark::Why(request) => after_refusal(aside, request),
        Remark::Image { input, order } => after_image(aside, input, order),
        Remark::Search {
            asked,
            error,
            may_deepen,
        } => after_search(aside, asked, error, may_deepen),
        Remark::Unhardened { asked, error } => after_hardening(aside, asked, error),
        Remark::Unshown { asked, mismatch } => after_unshown(aside, asked, mismatch),
        Remark::Shown { bounds, turns } => { after_proof(alloc, aside, remark, bounds, turns) }
        Remark::Unproved(mismatch) => after_mismatch(aside, mismatch),
        Remark::NoImage(error) => tell_sentence(aside, error, ""),
        Remark::Uncertified { asked, error } => tell_refusal(
            aside,
            AskedSource { asked, lines },
            error,
        ),
        Remark::Capture(refusal) => tell_sentence(aside, refusal, ""),
        Remark::Filter(why) => tell_sentence(aside, why, ""),
    }
}
