//! What a command answers: its status, and its text on standard output.

ghost use Rattle.std.specs.Prelude.{◌≡◌, ◌++◌, false, IfOk, IfErr, OnOk, OnErr};
ghost use Rattle.std.specs.Io.KnownBytes.{Appends};
ghost use Rattle.bpf_insn.specs.Written.{AppendsBeginning, Gathers};
ghost use Rattle.bpf_answers.specs.Answer.{Says, is_written, status_of, status_of_run, text_of};
ghost use Rattle.bpf_answers.specs.Told.{OutputFails};

use crate::annotated::CommentedListing;
use crate::certified::Certification;
use crate::counted::Counted;
use crate::failure::{DONE, Failure, REFUSED};
use crate::pieces::{put_at, write_at};
use crate::refusal::{write_refusal, write_refusal_at};
use crate::{lines, trapped};
use bpf_captures::CaptureRefusal;
use bpf_cert::CertError;
use bpf_check::Refusal;
use bpf_follows::NotesError;
use bpf_infer_base::{HardenError, InferError};
use bpf_insn::written::Pending;
use bpf_insn::{DecodeError, Groups, Program};
use bpf_kept::{Bounds, Mismatch, Turns};
use bpf_machine::Outcome;
use bpf_refusals::{At, Letter, TOO_DEAR, Tells, Told, UNCERTIFIED};
use bpf_text::TextError;
use std::io::{self, Write};

/// What a command answers.
#[derive(Drop)]
pub enum Answer {
    /// A certificate certifies the image's program: for contexts of `least` to `most` bytes, within this bound; and the work of the check, where
    /// it is asked for.
    Yes {
        least: u32,
        most: u32,
        bound: u32,
        work: Option<Counted>,
    },
    /// What is at a name is no image.
    NoImage(DecodeError),
    /// It is no text of a program.
    NoText(TextError),
    /// It is no certificate.
    NoCertificate(CertError),
    /// The certificate doesn't certify the program.
    NotCertified(Refusal),
    /// No certificate is proposed.
    NotProposed(InferError),
    /// A program isn't hardened.
    NotHardened(HardenError),
    /// It is, and isn't shown to keep its meaning.
    NotShown(Mismatch),
    /// An image was written with its certificate.
    Certified(Certification),
    /// Its bound is too great.
    TooDear,
    /// The checker refuses what was found.
    Uncertified,
    /// A filter of classic BPF isn't converted.
    NotConverted(Told),
    /// Notes beside a certificate show that one image's program keeps the meaning of another's, on these contexts and for these runs, of so
    /// many turns; and it is certified within this bound.
    Follows {
        bounds: Bounds,
        turns: Turns,
        bound: u32,
    },
    /// What is at the name of the old one is no image.
    NoOld(DecodeError),
    /// What is at the name of the new one is none.
    NoNew(DecodeError),
    /// What is at the notes' name is no text of notes.
    NoNotes(NotesError),
    /// The notes don't show it.
    NotFollowed(Mismatch),
    /// A context of so many bytes, where the certificate speaks of `least` to `most`.
    NoContext {
        count: usize,
        least: u32,
        most: u32,
    },
    /// A checked program ends with this number.
    Ends(u64),
    /// It does so at a trap, by notes.
    EndsAtTrap(u64),
    /// A capture is refused, behind the answers to its packets in front.
    NoCapture(CaptureRefusal),
    /// How a run of any program ends.
    Ran(Outcome),
    /// It ends with this number after so many steps, at a trap, by notes.
    RanToTrap {
        value: u64,
        steps: u64,
    },
    /// The conformance groups of an image.
    Occur(Groups),
    /// The instructions of a program.
    Lists(Program),
    /// The same with comments.
    Annotates(CommentedListing),
    /// What was asked for was written at a name.
    Written,
    /// The same of a hardened image that is shown to keep the meaning of runs that leave so many bytes of each frame to r10, which nobody
    /// asked for.
    WrittenFor(u32),
}

/// The status of a run.
fn status_of_run(outcome: Outcome) -> u8
    ensures { result ≡ status_of_run outcome }
{
    match outcome {
        Outcome::Done { .. } => DONE,
        Outcome::Fault { .. } | Outcome::OutOfFuel => REFUSED,
    }
}

impl Answer {
    /// 0 done, yes or written; 1 a refusal, a fault of the program, out of fuel.
    pub fn status(&self) -> u8
        ensures { result ≡ status_of self.now }
    {
        match self {
            Answer::Yes { .. } | Answer::Certified(_) | Answer::Follows { .. } => DONE,
            Answer::Ends(_) | Answer::Occur(_) | Answer::Lists(_) | Answer::Annotates(_) => DONE,
            Answer::EndsAtTrap(_) | Answer::RanToTrap { .. } => DONE,
            Answer::Written | Answer::WrittenFor(_) => DONE,
            Answer::Ran(outcome) => status_of_run(*outcome),
            Answer::NoImage(_) | Answer::NoText(_) | Answer::NoCertificate(_) => REFUSED,
            Answer::NotCertified(_) | Answer::NotProposed(_) => REFUSED,
            Answer::NotHardened(_) | Answer::NotShown(_) => REFUSED,
            Answer::TooDear | Answer::Uncertified | Answer::NotConverted(_) => REFUSED,
            Answer::NoOld(_) | Answer::NoNew(_) | Answer::NoNotes(_) => REFUSED,
            Answer::NotFollowed(_) | Answer::NoContext { .. } => REFUSED,
            Answer::NoCapture(_) => REFUSED,
        }
    }

    /// Whether there is nothing to print.
    fn is_written(&self) -> bool
        ensures { result ≡ is_written self.now }
    {
        match self {
            Answer::Written => true,
            Answer::Yes { .. } | Answer::Certified(_) | Answer::Follows { .. } => false,
            Answer::Ends(_) | Answer::Occur(_) | Answer::Lists(_) => false,
            Answer::EndsAtTrap(_) | Answer::RanToTrap { .. } => false,
            Answer::Annotates(_) | Answer::WrittenFor(_) | Answer::Ran(_) => false,
            Answer::NoImage(_) | Answer::NoText(_) | Answer::NoCertificate(_) => false,
            Answer::NotCertified(_) | Answer::NotProposed(_) => false,
            Answer::NotHardened(_) | Answer::NotShown(_) => false,
            Answer::TooDear | Answer::Uncertified | Answer::NotConverted(_) => false,
            Answer::NoOld(_) | Answer::NoNew(_) | Answer::NoNotes(_) => false,
            Answer::NotFollowed(_) | Answer::NoContext { .. } => false,
            Answer::NoCapture(_) => false,
        }
    }

    /// Writes the text of the answer. A fault of the writer ends it; what went out is then a beginning of the text. Takes no memory.
    pub fn write<W: Write>(&self, out: &mut W) -> io::Result<()>
        ensures ok { OnOk result (Appends (W.contents out.old) (W.contents out.new) (text_of self.now)) }
        ensures err { OnErr result (AppendsBeginning (W.contents out.old) (W.contents out.new) (text_of self.now)) }
    {
        match self {
            Answer::Yes {
                least,
                most,
                bound,
                work,
            } => lines::write_promise(out, *least, *most, *bound, work),
            Answer::NoImage(error) => write_refusal(out, error.told()),
            Answer::NoText(error) => lines::write_text_refusal(out, *error),
            Answer::NoCertificate(error) => write_refusal(out, error.told()),
            Answer::NotCertified(refusal) => write_refusal(out, refusal.told()),
            Answer::NotProposed(error) => lines::write_infer_refusal(out, *error),
            Answer::NotHardened(error) => write_refusal(out, error.told()),
            Answer::NotShown(mismatch) => write_refusal(out, Told::not_shown(*mismatch)),
            Answer::Certified(told) => lines::write_certified(out, *told),
            Answer::TooDear => write_refusal(
                out,
                Told::new(Letter::Hardening, TOO_DEAR, At::Nowhere),
            ),
            Answer::Uncertified => {
                write_refusal(out, Told::new(Letter::Hardening, UNCERTIFIED, At::Nowhere))
            }
            Answer::NotConverted(told) => write_refusal(out, *told),
            Answer::Follows {
                bounds,
                turns,
                bound,
            } => lines::write_followed(out, *bounds, *turns, *bound),
            Answer::NoOld(error) => write_refusal_at(out, error.told(), " of OLD at slot "),
            Answer::NoNew(error) => write_refusal_at(out, error.told(), " of NEW at slot "),
            Answer::NoNotes(error) => write_refusal(out, error.told()),
            Answer::NotFollowed(mismatch) => write_refusal(out, mismatch.told()),
            Answer::NoContext { count, least, most } => {
                lines::write_no_context(out, *count, *least, *most)
            }
            Answer::NoCapture(refusal) => lines::write_no_capture(out, *refusal),
            Answer::Ends(value) => write_at(out, "done ", *value),
            Answer::EndsAtTrap(value) => trapped::write_end_at_trap(out, *value),
            Answer::Ran(outcome) => lines::write_run(out, *outcome),
            Answer::RanToTrap { value, steps } => trapped::write_run_to_trap(out, *value, *steps),
            Answer::Occur(groups) => lines::write_groups(out, *groups),
            Answer::Lists(program) => bpf_text::list(program, out),
            Answer::Annotates(annotated) => annotated.write(out),
            Answer::Written => Ok(()),
            Answer::WrittenFor(untouched) => write_at(out, "untouched ", u64::from(*untouched)),
        }
    }

    /// Puts the text of the answer behind those that wait. A number with which a run ends goes out with others; for any other answer what waits
    /// goes out first. A fault of the writer ends it; what went out is then a beginning of what waited and of the text. Takes no memory.
    pub fn put<W: Write>(&self, pending: &mut Pending, out: &mut W) -> io::Result<()>
        ensures ok { OnOk result (Gathers (W.contents out.old) (W.contents out.new) pending.old pending.new (text_of self.now)) }
        ensures err { OnErr result (AppendsBeginning (W.contents out.old) (W.contents out.new) (pending.old ++ text_of self.now)) }
    {
        match self {
            Answer::Ends(value) => put_at(pending, out, "done ", *value),
            Answer::EndsAtTrap(value) => trapped::put_end_at_trap(pending, out, *value),
            Answer::Ran(outcome) => lines::put_run(pending, out, *outcome),
            Answer::RanToTrap { value, steps } => {
                trapped::put_run_to_trap(pending, out, *value, *steps)
            }
            _ => {
                pending.flush(out)?;
                self.write(out)
            }
        }
    }
}

/// Prints an answer, and gives its status. Where that fails, standard output has a beginning of its text. Where there is nothing to print it
/// doesn't fail.
pub fn print<'a, W: Write>(out: &mut W, answer: &Answer) -> Result<u8, Failure<'a>>
    ensures ok { IfOk result (λ status. Says answer.now status (W.contents out.old) (W.contents out.new)) }
    ensures err { IfErr result OutputFails }
    ensures begun { IfErr result (λ _. AppendsBeginning (W.contents out.old) (W.contents out.new) (text_of answer.now)) }
    ensures some { IfErr result (λ _. is_written answer.now ≡ false) }
{
    if answer.is_written() {
        return Ok(DONE);
    }
    match answer.write(out) {
        Ok(()) => Ok(answer.status()),
        Err(_) => Err(Failure::CannotWrite("standard output")),
    }
}
