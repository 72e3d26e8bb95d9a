//! `bpf infer IN LEN OUT`, and the same with `--deep`.

ghost use Rattle.std.specs.Prelude.{◌≡◌, ◌≤◌, IfOk, IfErr};
ghost use Rattle.bpf_insn.specs.Limits.{max_context};
ghost use Rattle.bpf_answers.specs.Made.{making};
ghost use Rattle.bpf_command.specs.Inferred.{InferFails, InferSays, NotInferred, inference_answer};

use crate::request::Inferring;
use bpf_answers::{Answer, Failure, Places, program_at, put};
use bpf_explain::may_be_found;
use bpf_infer::{InferError, WantedCertificate, Watch, propose};
use bpf_insn::{DecodeError, MAX_CONTEXT};
use std::alloc::Global;

/// What the search for a certificate came to.
#[derive(Clone, Copy)]
pub enum Inference {
    /// What is at the name is no image.
    NoImage(DecodeError),
    /// No certificate was found; and whether the deep search may find one, where it wasn't made.
    NotProposed { error: InferError, may_deepen: bool },
    /// The certificate that was found stands at its name.
    Proposed,
}

impl Inference {
    /// What is answered of it.
    pub fn answer(self) -> Answer
        ensures { result ≡ inference_answer self }
    {
        match self {
            Inference::NoImage(error) => Answer::NoImage(error),
            Inference::NotProposed { error, .. } => Answer::NotProposed(error),
            Inference::Proposed => Answer::Written,
        }
    }
}

/// Which certificate is sought.
fn wanted_of(asked: Inferring<'_>) -> WantedCertificate
    ensures order { result.least ≤ result.most }
    ensures short { result.most ≤ max_context }
    ensures least { asked.entry.least ≤ asked.entry.most → asked.entry.most ≤ max_context → result.least ≡ asked.entry.least }
    ensures most { asked.entry.most ≤ max_context → result.most ≡ asked.entry.most }
{
    // `respond` has seen that the lengths are in order, and the words' parser that they are at most the greatest.
    let most = asked.most.min(MAX_CONTEXT as u32);
    WantedCertificate {
        least: asked.least.min(most),
        most,
        deep: asked.deep,
    }
}

/// Writes a certificate for an image and contexts of `least` to `most` bytes. The place for it is made only where there is
/// one.
pub fn inferred<'a, P: Places, H: Watch>(
    alloc: Global,
    places: &mut P,
    watch: &mut H,
    asked: Inferring<'a>,
) -> Result<Inference, Failure<'a>>
    ensures ok { IfOk result (InferSays P.opens (making P.creates P.ends P.Writer.contents) places.old asked.entry places.new) }
    ensures err { IfErr result (InferFails P.opens (making P.creates P.ends P.Writer.contents) places.old asked.entry places.new) }
    ensures names { IfErr result (λ _. NotInferred P.opens (making P.creates P.ends P.Writer.contents) places.old asked.entry places.new) }
{
    let program = match program_at(alloc, places, asked.input, asked.order)? {
        Ok(program) => program,
        Err(error) => return Ok(Inference::NoImage(error)),
    };
    match propose(alloc, &program, wanted_of(asked), watch) {
        Ok(certificate) => match put(places, asked.output, &certificate) {
            Ok(_) => Ok(Inference::Proposed),
            Err(failure) => Err(failure),
        },
        Err(error) => Ok(Inference::NotProposed {
            error,
            may_deepen: !asked.deep && may_be_found(&program, error),
        }),
    }
}
