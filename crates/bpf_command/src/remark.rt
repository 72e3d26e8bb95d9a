//! Chooses what standard error is told beside the printed answer: the `Remark` of a request and of what was found for it. `sentences.rt` writes it.

ghost use Rattle.std.specs.Prelude.{◌≡◌};
ghost use Rattle.bpf_command.specs.Remarks.{remark_of, remark_of_answer, remark_of_assessment, remark_of_attempt, remark_of_refusal, remark_of_runs, remark_of_search};

use crate::commands::{Assessment, Attempt, Conversion, Inference, KeptMeaning, Unconvertible};
use crate::finding::Finding;
use crate::request::{Certifying, Hardening, Inferring, Request};
use bpf_answers::{Answer, REFUSED, Reply};
use bpf_captures::CaptureRefusal;
use bpf_certify::CertifyError;
use bpf_harden::HardenError;
use bpf_infer::InferError;
use bpf_insn::{DecodeError, Order};
use bpf_kept::{Bounds, Mismatch, Turns};

/// What is told beside an answer.
#[derive(Clone, Copy)]
pub enum Remark<'a> {
    Nothing,
    /// Which command tells why a request was refused.
    Why(Request<'a>),
    /// The same of an image.
    Image {
        input: &'a str,
        order: Order,
    },
    /// What may help where a search came to nothing.
    Search {
        asked: Inferring<'a>,
        error: InferError,
        may_deepen: bool,
    },
    /// Which command tells why a program isn't hardened.
    Unhardened {
        asked: Hardening<'a>,
        error: HardenError,
    },
    /// Which command tells why what was hardened isn't shown to keep the meaning, or why, where no command does.
    Unshown {
        asked: Hardening<'a>,
        mismatch: Mismatch,
    },
    /// Of which runs a hardened program is shown to keep the meaning.
    Shown {
        bounds: Bounds,
        turns: Turns,
    },
    /// What fails of the notes of a hardened program that was written unproved.
    Unproved(Mismatch),
    /// Why the bytes at a name are no image, in a sentence.
    NoImage(DecodeError),
    /// Why a program isn't certified, in a sentence.
    Uncertified {
        asked: Certifying<'a>,
        error: CertifyError,
    },
    /// Why a capture is refused, in a sentence.
    Capture(CaptureRefusal),
    /// Why a filter isn't converted, in a sentence.
    Filter(Unconvertible),
}

/// What is told of a refused request, if one command tells why of all its refusals.
fn remark_of_refusal<'a>(request: Request<'a>) -> Remark<'a>
    ensures { result ≡ remark_of_refusal request.entry }
{
    match request {
        Request::Groups(_) | Request::Asm(_) | Request::List(_) => Remark::Why(request),
        Request::Check(_) | Request::ToC(_) => Remark::Why(request),
        Request::Run(_) | Request::RunChecked(_) | Request::Replay(_) => Remark::Nothing,
        Request::Infer(_) | Request::Harden(_) | Request::Certify(_) => Remark::Nothing,
        Request::Convert(_) | Request::Follows(_) | Request::Explain(_) => Remark::Nothing,
        Request::Migrate(_) => Remark::Nothing,
    }
}

/// What is told of an answer.
fn remark_of_answer<'a>(request: Request<'a>, answer: &Answer) -> Remark<'a>
    ensures { result ≡ remark_of_answer request.entry answer.now }
{
    if let Answer::NoCapture(refusal) = answer {
        return Remark::Capture(*refusal);
    }
    if answer.status() == REFUSED {
        remark_of_refusal(request)
    } else {
        Remark::Nothing
    }
}

/// What is told of a search.
fn remark_of_search<'a>(asked: Inferring<'a>, found: Inference) -> Remark<'a>
    ensures { result ≡ remark_of_search asked.entry found }
{
    match found {
        Inference::NoImage(_error) => Remark::Image {
            input: asked.input,
            order: asked.order,
        },
        Inference::NotProposed { error, may_deepen } => Remark::Search {
            asked,
            error,
            may_deepen,
        },
        Inference::Proposed => Remark::Nothing,
    }
}

/// What is told of a hardened program, by what fails of its notes.
fn remark_of_runs<'a>(kept: KeptMeaning) -> Remark<'a>
    ensures { result ≡ remark_of_runs kept.bounds kept.turns kept.mismatch }
{
    match kept.mismatch {
        None => Remark::Shown {
            bounds: kept.bounds,
            turns: kept.turns,
        },
        Some(mismatch) => Remark::Unproved(mismatch),
    }
}

/// What is told of a hardening.
fn remark_of_attempt<'a>(asked: Hardening<'a>, found: Attempt) -> Remark<'a>
    ensures { result ≡ remark_of_attempt asked.entry found }
{
    match found {
        Attempt::NoImage(_error) => Remark::Image {
            input: asked.input,
            order: asked.order,
        },
        Attempt::NotHardened(error) => Remark::Unhardened { asked, error },
        Attempt::NotShown(mismatch) => Remark::Unshown { asked, mismatch },
        Attempt::Hardened(kept) => remark_of_runs(kept),
    }
}

/// What is told of a certification.
fn remark_of_assessment<'a>(asked: Certifying<'a>, found: Assessment) -> Remark<'a>
    ensures { result ≡ remark_of_assessment asked.entry found }
{
    match found {
        Assessment::NoImage(error) => Remark::NoImage(error),
        Assessment::Refused(error) => Remark::Uncertified { asked, error },
        Assessment::Passed(_) => Remark::Nothing,
    }
}

/// What is told of what was found for a request.
pub fn remark_of<'a>(request: Request<'a>, found: &Finding) -> Remark<'a>
    ensures { result ≡ remark_of request.entry found.now }
{
    match (request, found) {
        (_, Finding::Given(Reply::One(answer))) => remark_of_answer(request, answer),
        (Request::Infer(asked), Finding::Inferred(found)) => remark_of_search(asked, *found),
        (Request::Harden(asked), Finding::Hardened(found)) => remark_of_attempt(asked, *found),
        (Request::Certify(asked), Finding::Certified(found)) => {
            remark_of_assessment(asked, found.assessment)
        }
        (_, Finding::Converted(Conversion::Refused(why))) => Remark::Filter(*why),
        _ => Remark::Nothing,
    }
}
