//! A program with a certificate, explained.

ghost use Rattle.std.specs.Prelude.{IfNone};
ghost use Rattle.bpf_check.specs.CheckedProgram.{IsCertifiedBy};

use crate::graph::tell_dot;
use crate::listing::{Lengths, steps_of, write_header};
use crate::pass::pass_over;
use crate::reach::tell_unreached;
use crate::report::{ProgramReport, View};
use crate::shown::Shown;
use bpf_cert::Certificate;
use bpf_check::{Index, Refusal};
use bpf_insn::Code;
use bpf_streams::{Page, Tell};
use std::io::{self, Write};

/// Goes over the slots of a program, and over those behind it at which labels stand.
fn tell_all<C: Code, W: Tell>(
    program: &C,
    certificate: &Index,
    view: View,
    lines: &[u8],
    out: &mut W,
) {
    let mut report = ProgramReport::new(program, certificate, view, lines, out);
    let end = pass_over(program, certificate, view.has_budgets(), &mut report);
    report.end(end);
}

/// The last line of a program that is accepted.
fn write_accepted<W: Tell>(out: &mut W, certificate: &Index) {
    let (lengths, steps) = (Lengths::of(certificate), steps_of(certificate));
    write!(out, "accepted: at most {steps} on contexts of {lengths}\n");
}

/// The line of a refusal.
pub fn write_refused<W: Tell>(out: &mut W, refusal: Refusal) {
    let (number, slot) = (refusal.number(), refusal.slot());
    write!(out, "refused: C{number} at slot {slot}\n");
}

/// The last lines: the answer, and all flaws.
fn write_answer<C: Code, W: Tell>(
    program: &C,
    certificate: &Index,
    lines: &[u8],
    refusal: Option<Refusal>,
    out: &mut W,
) {
    match refusal {
        None => {
            tell_unreached(program, out);
            write_accepted(out, certificate);
        }
        Some(refusal) => {
            write_refused(out, refusal);
            tell_all(program, certificate, View::List, lines, out);
        }
    }
}

/// The listing of a program with a certificate, and the checker's answer.
fn tell_listing<C: Code, W: Tell>(
    program: &C,
    certificate: &Certificate,
    lines: &[u8],
    refusal: Option<Refusal>,
    page: &mut W,
)
    requires { IfNone refusal (IsCertifiedBy (C.program program.now) certificate.now) }
{
    let index = Index::of(certificate);
    write_header(page, &index);
    tell_all(program, &index, View::Listing, lines, page);
    write_answer(program, &index, lines, refusal, page)
}

/// What a view shows of one instruction.
fn tell_at<C: Code, W: Tell>(
    program: &C,
    certificate: &Certificate,
    view: View,
    lines: &[u8],
    page: &mut W,
) {
    if let View::Slot(slot) | View::Glimpse(slot) = view {
        if program.insn(slot).is_none() {
            write!(page, "no instruction begins at slot {slot}\n");
        }
    }
    let index = Index::of(certificate);
    tell_all(program, &index, view, lines, page)
}

/// Explains a program with a certificate, and with the checker's answer, on a page. Without a refusal it is said to be accepted.
pub fn tell_shown<C: Code, W: Tell>(
    program: &C,
    certificate: &Certificate,
    shown: Shown<'_>,
    refusal: Option<Refusal>,
    page: &mut W,
)
    requires { IfNone refusal (IsCertifiedBy (C.program program.now) certificate.now) }
{
    match shown {
        Shown::Listing { lines } => tell_listing(program, certificate, lines, refusal, page),
        Shown::Slot { slot, lines } => {
            tell_at(program, certificate, View::Slot(slot), lines, page)
        }
        Shown::Graph => tell_dot(program, certificate, refusal, page),
    }
}

/// Tells what is shown of a program with the states of a certificate without budgets: the listing, with the flaw of one instruction, if
/// it has it, or one instruction; of the graph nothing.
pub fn tell_sketch<C: Code, W: Tell>(
    program: &C,
    certificate: &Certificate,
    shown: Shown<'_>,
    flaw: Option<Refusal>,
    page: &mut W,
) {
    match shown {
        Shown::Listing { lines } => {
            let index = Index::of(certificate);
            tell_all(program, &index, View::Sketch(flaw), lines, page)
        }
        Shown::Slot { slot, lines } => {
            tell_at(program, certificate, View::Glimpse(slot), lines, page)
        }
        Shown::Graph => {}
    }
}

/// Writes the flaw of one instruction, if it has it, judged without budgets.
pub fn tell_reason<C: Code, W: Tell>(
    program: &C,
    certificate: &Certificate,
    lines: &[u8],
    flaw: Refusal,
    page: &mut W,
) {
    let index = Index::of(certificate);
    tell_all(program, &index, View::Reason(flaw), lines, page)
}

/// Writes what is shown of a program with a certificate, and with the checker's answer, which is given: accepted, or refused with
/// all flaws, the first one first. A fault of the writer, or a write of no bytes, ends it. It takes no memory, and writes pieces of
/// up to 4,096 bytes.
pub fn write_shown<C: Code, W: Write>(
    program: &C,
    certificate: &Certificate,
    shown: Shown<'_>,
    refusal: Option<Refusal>,
    out: &mut W,
) -> io::Result<()>
    requires { IfNone refusal (IsCertifiedBy (C.program program.now) certificate.now) }
{
    let mut page = Page::new(out);
    tell_shown(program, certificate, shown, refusal, &mut page);
    page.finish()
}
