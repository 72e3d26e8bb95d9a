//! What the calls answer, as C sees it.

ghost use Rattle.std.specs.Prelude.{◌≡◌, ◌<◌, ◌≤◌, IfSome, IfNone};
ghost use Rattle.bpf_check.specs.Verdicts.{IsUnread};
ghost use Rattle.bpf_host_calls.specs.Told.{TellsRefusal, order_named, refusal_of, TellsVerdict, TellsOutcome, TellsUnrun};

use bpf_cert::CertError;
use bpf_check::{Verdict, VerifyError};
use bpf_insn::{DecodeError, Order};
use bpf_machine::Outcome;
use bpf_refusals::{Tells, Told};

/// The call did what it is for.
pub const YES: i32 = 1;
/// What was handed over is refused.
pub const NO: i32 = 0;
/// Memory ran out.
pub const NO_MEMORY: i32 = -1;
/// A number is none that the call takes, or a table of lines is none.
pub const BAD_CALL: i32 = -2;
/// The memory for the answer is too small.
pub const TOO_SMALL: i32 = -3;
/// A run may take more instructions than are paid for.
pub const TOO_LONG: i32 = -4;
/// A context's length is none that was judged.
pub const BAD_LENGTH: i32 = -5;
/// Words aren't what this version of the library wrote, or there are fewer than it wrote.
pub const BAD_WORDS: i32 = -6;

/// What is promised of an image: on every context of `least` to `most` bytes it ends within `bound` instructions.
#[repr(C)]
#[derive(Clone, Copy)]
pub struct BpfVerdict {
    /// From 0 to 4,096.
    pub least: u32,
    /// From `least` to 4,096.
    pub most: u32,
    /// From 1 to 2^32 - 1.
    pub bound: u32,
}

/// Why something is refused.
#[repr(C)]
#[derive(Clone, Copy)]
pub struct BpfRefusal {
    /// The letter of the refusal: E (an image), K (a certificate), C (a program by its certificate), I (an inference), H (a hardening), M and N (notes),
    /// B (a filter of classic BPF).
    pub kind: u32,
    /// Its number, from 1.
    pub number: u32,
    /// The slot that is named, from 0 to 65,535; of K and N the line, from 1; of B the instruction, from 0.
    pub place: u64,
    /// The number of the condition that the refusal names, or of H14 the bound; else 0.
    pub condition: u64,
}

/// How a run ended.
#[repr(C)]
#[derive(Clone, Copy)]
pub struct BpfOutcome {
    /// 0: done, with `value` after `steps` instructions. 1: at a fault, `number` from 1 to 9, at `slot` after `steps`
    /// instructions. 2: out of fuel. 3: the image is refused, E and `number`, at `slot`.
    pub kind: u32,
    /// The number of the fault or refusal, else 0.
    pub number: u32,
    /// The slot of the fault or refusal, else 0.
    pub slot: u64,
    /// What r0 held at the end, else 0.
    pub value: u64,
    /// How many instructions were done, where the run was done or at a fault; else 0.
    pub steps: u64,
}

/// The byte order of a number: 0 little, 1 big.
pub fn order_of(order: u64) -> Option<Order>
    ensures named { IfSome result (λ o. (o ≡ order_named order) × (order ≤ 1)) }
    ensures none { IfNone result (1 < order) }
{
    match order {
        0 => Some(Order::Little),
        1 => Some(Order::Big),
        _ => None,
    }
}

/// What is told of a refusal: 0 in the place of what it doesn't name.
pub fn told_refusal(told: Told) -> BpfRefusal
    ensures { result ≡ refusal_of told }
{
    BpfRefusal {
        kind: told.letter.code(),
        number: u32::from(told.number),
        place: told.at.number(),
        condition: told.named(),
    }
}

/// An error that is a refusal.
pub fn refusal_of<R: Tells>(error: &R) -> BpfRefusal
    ensures { result ≡ refusal_of (R.told_of error.now) }
{
    told_refusal(error.told())
}

/// Why an image and a certificate are refused; None where the certificate wasn't read to its end. The bytes of a slice are
/// always read, so that is for want of memory.
pub fn of_verify(error: VerifyError) -> Option<BpfRefusal>
    ensures some { IfSome result (λ r. TellsRefusal error r × ¬ (IsUnread error)) }
    ensures none { IfNone result (IsUnread error) }
{
    match error {
        VerifyError::Cert(CertError::Memory | CertError::Read { .. }) => None,
        VerifyError::Cert(error) => Some(refusal_of(&error)),
        VerifyError::Image(error) => Some(refusal_of(&error)),
        VerifyError::Check(error) => Some(refusal_of(&error)),
    }
}

/// What is promised of an image.
pub(crate) fn of_verdict(verdict: Verdict) -> BpfVerdict
    ensures { TellsVerdict verdict result }
{
    BpfVerdict {
        least: verdict.least,
        most: verdict.most,
        bound: verdict.bound,
    }
}

/// How a run ended.
pub(crate) fn of_outcome(outcome: Outcome) -> BpfOutcome
    ensures { TellsOutcome outcome result }
{
    match outcome {
        Outcome::Done { value, steps } => BpfOutcome {
            kind: 0,
            number: 0,
            slot: 0,
            value,
            steps,
        },
        Outcome::Fault {
            slot,
            reason,
            steps,
        } => BpfOutcome {
            kind: 1,
            number: u32::from(reason.number()),
            slot: u64::from(slot),
            value: 0,
            steps,
        },
        Outcome::OutOfFuel => BpfOutcome {
            kind: 2,
            number: 0,
            slot: 0,
            value: 0,
            steps: 0,
        },
    }
}

/// That an image is refused, told as the end of a run.
pub(crate) fn unrun(error: DecodeError) -> BpfOutcome
    ensures { TellsUnrun error result }
{
    BpfOutcome {
        kind: 3,
        number: u32::from(error.number()),
        slot: u64::from(error.slot()),
        value: 0,
        steps: 0,
    }
}
