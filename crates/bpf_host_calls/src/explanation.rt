//! Images explained, in the words of the command's `explain`.

ghost use Rattle.std.specs.Prelude.{◌≡◌, ◌⊎◌, ◌≤◌, ◌<◌, IfSome, IfNone, length};
ghost use Rattle.bpf_insn.specs.Limits.{max_context};
ghost use Rattle.bpf_insn.specs.Refusal.{IsRefused};
ghost use Rattle.bpf_cert.specs.ReadAnswers.{IsFromOutside};
ghost use Rattle.bpf_host_calls.specs.Told.{TellsCertificate, TellsCheck};
ghost use Rattle.bpf_host_calls.specs.Explained.{Asks, IsReadAs, IsCheckedAs, IsSearchedAs, IsRefusedImage};
ghost use Rattle.bpf_host_calls.specs.declared.answers.BpfRefusal.{BpfRefusal as Told};
ghost use Rattle.bpf_host_calls.specs.declared.explanation.HowJudged.TheVariants.{Accepted, Refused};

use crate::answers::{BpfRefusal, of_verify, refusal_of};
use bpf_cert::{CertError, read};
use bpf_check::{Refusal, VerifyError};
use bpf_explain::{
    CertificateSearch, Shown, explain, explain_search, is_table, write_alone, write_fault,
    write_refusal,
};
use bpf_infer::{InferError, Unwatched};
use bpf_insn::{DecodeError, Order, ProgramView, decode};
use std::alloc::Global;

/// How an image is judged while it is explained.
#[derive(Clone, Copy)]
pub(crate) enum HowJudged {
    Accepted,
    Refused(BpfRefusal),
}

/// An image, and its byte order.
#[derive(Clone, Copy)]
pub(crate) struct Given<'a> {
    pub(crate) image: &'a [u8],
    pub(crate) order: Order,
}

/// What is shown of a program by the number of the aspect: 0 the listing, 1 the instruction at a slot, 2 the graph. Beside it goes a table of the lines of the
/// source. None where there is no such aspect, or the table isn't one; an empty one is.
pub(crate) fn shown_of(aspect: u32, slot: u32, lines: &[u8]) -> Option<Shown<'_>>
    ensures some { IfSome result (λ shown. Asks aspect slot lines.now shown) }
    ensures none { IfNone result ((2 < aspect) ⊎ (0 < length lines.now)) }
{
    if !lines.is_empty() && !is_table(lines) {
        return None;
    }
    match aspect {
        0 => Some(Shown::Listing { lines }),
        1 => Some(Shown::Slot { slot, lines }),
        2 => Some(Shown::Graph),
        _ => None,
    }
}

/// Explains why bytes are refused as an image; None where memory ran out.
fn refused_image(out: &mut Vec<u8>, given: Given<'_>, error: DecodeError) -> Option<HowJudged>
    requires { IsRefused given.order given.image.now error }
    ensures { IfSome result (λ j. (told : Told) × (j ≡ Refused told) × IsRefusedImage given.entry.order given.entry.image.now told) }
{
    match write_refusal(given.image, given.order, error, out) {
        Ok(()) => Some(HowJudged::Refused(refusal_of(&error))),
        Err(_) => None,
    }
}

/// Explains an image by itself, or draws the graph of its program; None where memory ran out.
pub(crate) fn read_alone(out: &mut Vec<u8>, given: Given<'_>, is_graph: bool) -> Option<HowJudged>
    ensures { IfSome result (IsReadAs given.entry.order given.entry.image.now) }
{
    let program = match ProgramView::of(given.image, given.order) {
        Ok(program) => program,
        Err(error) => return refused_image(out, given, error),
    };
    match write_alone(&program, is_graph, out) {
        Ok(()) => Some(HowJudged::Accepted),
        Err(_) => None,
    }
}

/// Explains why a text is refused as a certificate; None where memory ran out.
fn refused_text(out: &mut Vec<u8>, text: &[u8], error: CertError) -> Option<HowJudged>
    ensures { IfSome result (λ j. (told : Told) × (j ≡ Refused told) × TellsCertificate error told × ¬ (IsFromOutside error)) }
{
    let Some(told) = of_verify(VerifyError::Cert(error)) else {
        return None;
    };
    match write_fault(text, error, out) {
        Ok(()) => Some(HowJudged::Refused(told)),
        Err(_) => None,
    }
}

/// Explains an image with a certificate's text, or why one of the two is refused; None where memory ran out.
pub(crate) fn checked(
    alloc: Global,
    out: &mut Vec<u8>,
    given: Given<'_>,
    certificate: &[u8],
    shown: Shown<'_>,
) -> Option<HowJudged>
    ensures { IfSome result (IsCheckedAs given.entry.order given.entry.image.now certificate.now) }
{
    let program = match ProgramView::of(given.image, given.order) {
        Ok(program) => program,
        Err(error) => return refused_image(out, given, error),
    };
    let certificate = match read(alloc, certificate) {
        Ok(certificate) => certificate,
        Err(error) => return refused_text(out, certificate, error),
    };
    match explain(&program, &certificate, shown, out) {
        Ok(None) => Some(HowJudged::Accepted),
        Ok(Some(refusal)) => Some(HowJudged::Refused(refusal_of(&refusal))),
        Err(_) => None,
    }
}

/// What is told of a program and a certificate, by the checker's refusal.
fn told_of(refusal: Option<Refusal>) -> HowJudged
    ensures accepted { IfNone refusal (result ≡ Accepted) }
    ensures refused { IfSome refusal (λ r. (told : Told) × (result ≡ Refused told) × TellsCheck r told) }
{
    match refusal {
        None => HowJudged::Accepted,
        Some(refusal) => HowJudged::Refused(refusal_of(&refusal)),
    }
}

/// Explains what a search finds for the program of an image, or why the image is refused; None where memory ran out.
pub(crate) fn searched(
    alloc: Global,
    out: &mut Vec<u8>,
    given: Given<'_>,
    asked: CertificateSearch<'_>,
) -> Option<HowJudged>
    requires order { asked.wanted.least ≤ asked.wanted.most }
    requires short { asked.wanted.most ≤ max_context }
    ensures { IfSome result (IsSearchedAs given.entry.order given.entry.image.now asked.entry.wanted.least asked.entry.wanted.most) }
{
    let program = match decode(alloc, given.image, given.order) {
        Ok(program) => program,
        Err(DecodeError::Memory) => return None,
        Err(error) => return refused_image(out, given, error),
    };
    match explain_search(alloc, &program, asked, &mut Unwatched, out) {
        Ok(Ok(found)) => Some(told_of(found.refusal)),
        Ok(Err(InferError::Memory)) => None,
        Ok(Err(error)) => Some(HowJudged::Refused(refusal_of(&error))),
        Err(_) => None,
    }
}
