//! The letters of refusals, and the one table of what refusals say.

ghost use Rattle.std.specs.Prelude.{◌≡◌, ◌<◌, ◌↔◌, [], ◌∷◌, IsSome, IfSome, MatchOption, length};
ghost use Rattle.bpf_refusals.specs.Letters.{IsNumbered, LettersDiffer, code_of, letter_of, sentence_of};

use crate::sentences::{hardening_sentence, notes_sentence, text_sentence};
use bpf_captures::CaptureError;
use bpf_cert::CertError;
use bpf_classic::FilterRefusal;
use bpf_infer_base::InferError;
use bpf_insn::DecodeError;
use bpf_kept::mismatch_text;
use bpf_semantics::Reason;
use bpf_state::Condition;

/// What is refused, or fails.
#[derive(Clone, Copy)]
pub enum Letter {
    /// A: a text as a program.
    Text,
    /// B: a filter of classic BPF.
    Classic,
    /// C: a program by the checker, with its certificate.
    Check,
    /// E: bytes as an image.
    Image,
    /// F: an instruction of a run, by the machine.
    Fault,
    /// H: a program that is to be hardened or certified.
    Hardening,
    /// I: a program for which a certificate is searched.
    Inference,
    /// K: a text as a certificate.
    Certificate,
    /// M: notes, by the two programs of which they are.
    Mismatch,
    /// N: a text as notes.
    Notes,
    /// P: a file as a capture of packets.
    Capture,
}

impl Letter {
    /// The letter in ASCII.
    pub fn code(self) -> u32
        ensures { result ≡ code_of self }
    {
        let letter = match self {
            Letter::Text => b'A',
            Letter::Classic => b'B',
            Letter::Check => b'C',
            Letter::Image => b'E',
            Letter::Fault => b'F',
            Letter::Hardening => b'H',
            Letter::Inference => b'I',
            Letter::Certificate => b'K',
            Letter::Mismatch => b'M',
            Letter::Notes => b'N',
            Letter::Capture => b'P',
        };
        u32::from(letter)
    }

    /// The letter as a text.
    pub fn name(self) -> &'static str
        ensures { result.now ≡ code_of self ∷ [] }
    {
        match self {
            Letter::Text => "A",
            Letter::Classic => "B",
            Letter::Check => "C",
            Letter::Image => "E",
            Letter::Fault => "F",
            Letter::Hardening => "H",
            Letter::Inference => "I",
            Letter::Certificate => "K",
            Letter::Mismatch => "M",
            Letter::Notes => "N",
            Letter::Capture => "P",
        }
    }

    /// The letter with this code in ASCII; None where no refusal has it.
    pub fn of(code: u32) -> Option<Letter>
        ensures { result ≡ letter_of code }
    {
        let Ok(code) = u8::try_from(code) else {
            return None;
        };
        match code {
            b'A' => Some(Letter::Text),
            b'B' => Some(Letter::Classic),
            b'C' => Some(Letter::Check),
            b'E' => Some(Letter::Image),
            b'F' => Some(Letter::Fault),
            b'H' => Some(Letter::Hardening),
            b'I' => Some(Letter::Inference),
            b'K' => Some(Letter::Certificate),
            b'M' => Some(Letter::Mismatch),
            b'N' => Some(Letter::Notes),
            b'P' => Some(Letter::Capture),
            _ => None,
        }
    }

    /// What the refusal with a number says, without the place; None where there is no such number.
    pub fn sentence(self, number: u32) -> Option<&'static str>
        ensures numbered { IsSome result ↔ IsNumbered self number }
        ensures said { IfSome result (λ text. 0 < length text.now) }
        ensures words { MatchOption result (sentence_of self number ≡ []) (λ text. text.now ≡ sentence_of self number) }
    {
        match self {
            Letter::Text => text_sentence(number),
            Letter::Classic => FilterRefusal::text_numbered(number),
            Letter::Check => Condition::text_numbered(number),
            Letter::Image => DecodeError::text_numbered(number),
            Letter::Fault => Reason::text_numbered(number),
            Letter::Hardening => hardening_sentence(number),
            Letter::Inference => InferError::text_numbered(number),
            Letter::Certificate => CertError::text_numbered(number),
            Letter::Mismatch => mismatch_text(number),
            Letter::Notes => notes_sentence(number),
            Letter::Capture => CaptureError::text_numbered(number),
        }
    }
}

/// No two letters are the same: each is the one with its code.
pub fn letters_differ()
    ensures { LettersDiffer }
{}
