//! What is answered of an image that was judged by a certificate. The judgement is an argument, so that the clauses can say that nothing else is told. They
//! can't say which of the answers that it may give the checker gave.

ghost use Rattle.std.specs.Prelude.{◌≡◌, ◌≢◌, ◌⊎◌, ◌↔◌, ◌<◌, ◌≤◌, IsOkAnd, IsErrAnd, IsOk, List, length};
ghost use Rattle.bpf_insn.specs.Laws.{IsImageOfProgram};
ghost use Rattle.bpf_insn.specs.declared.instruction.Insn.{Insn as Instruction};
ghost use Rattle.bpf_check.specs.Verdicts.{IsUnread};
ghost use Rattle.bpf_host_calls.specs.Told.{TellsRefusal, TellsVerdict};
ghost use Rattle.bpf_host_calls.specs.Loaded.{handle_length, IsLoaded};
ghost use Rattle.bpf_host_calls.specs.declared.answers.TheConstants.{YES, NO, NO_MEMORY, TOO_SMALL, TOO_LONG};

use crate::answers::{
    BpfRefusal, BpfVerdict, NO, NO_MEMORY, TOO_LONG, TOO_SMALL, YES, of_verdict, of_verify,
};
use crate::loaded::{has_handle_room, put_loaded};
use bpf_check::{Verdict, VerifyError};
use bpf_insn::Order;

/// An image, its byte order, and the greatest bound that is paid for.
#[derive(Clone, Copy)]
pub(crate) struct Given<'a> {
    pub(crate) image: &'a [u8],
    pub(crate) order: Order,
    pub(crate) limit: u32,
}

/// Tells why an image and a certificate are refused, or that memory ran out.
fn refused(error: VerifyError, refusal: &mut BpfRefusal) -> i32
    ensures memory { (result ≡ NO_MEMORY) ↔ IsUnread error }
    ensures no { result ≡ NO → TellsRefusal error refusal.new × ¬ (IsUnread error) }
    ensures answers { (result ≡ NO) ⊎ (result ≡ NO_MEMORY) }
    ensures kept { (result ≡ NO) ⊎ (refusal.new ≡ refusal.old) }
{
    match of_verify(error) {
        Some(told) => {
            *refusal = told;
            NO
        }
        None => NO_MEMORY,
    }
}

/// Tells what was judged.
pub(crate) fn told(
    judged: Result<Verdict, VerifyError>,
    verdict: &mut BpfVerdict,
    refusal: &mut BpfRefusal,
) -> i32
    ensures yes { result ≡ YES → IsOkAnd judged (λ v. TellsVerdict v verdict.new) }
    ensures no { result ≡ NO → IsErrAnd judged (λ e. TellsRefusal e refusal.new × ¬ (IsUnread e)) }
    ensures memory { result ≡ NO_MEMORY → IsErrAnd judged IsUnread }
    ensures answers { (result ≡ YES) ⊎ (result ≡ NO) ⊎ (result ≡ NO_MEMORY) }
    ensures verdict_kept { (result ≡ YES) ⊎ (verdict.new ≡ verdict.old) }
    ensures refusal_kept { (result ≡ NO) ⊎ (refusal.new ≡ refusal.old) }
{
    match judged {
        Ok(yes) => {
            *verdict = of_verdict(yes);
            YES
        }
        Err(error) => refused(error, refusal),
    }
}

/// Tells what was judged, and writes the handle of an image that is certified, if its bound is paid for.
pub(crate) fn kept(
    judged: Result<Verdict, VerifyError>,
    given: Given<'_>,
    memory: &mut [u8],
    verdict: &mut BpfVerdict,
    refusal: &mut BpfRefusal,
) -> i32
    requires { IsOk judged → (is : List Instruction) × IsImageOfProgram given.order given.image.now is }
    ensures loaded { result ≡ YES → IsLoaded given.entry.order given.entry.image.now verdict.new.least verdict.new.most verdict.new.bound memory.new }
    ensures yes { (result ≡ YES) ⊎ (result ≡ TOO_LONG) → IsOkAnd judged (λ v. TellsVerdict v verdict.new) }
    ensures paid { result ≡ YES → verdict.new.bound ≤ given.entry.limit }
    ensures long { result ≡ TOO_LONG → given.entry.limit < verdict.new.bound }
    ensures no { result ≡ NO → IsErrAnd judged (λ e. TellsRefusal e refusal.new × ¬ (IsUnread e)) }
    ensures memory { result ≡ NO_MEMORY → IsErrAnd judged IsUnread }
    ensures small { result ≡ TOO_SMALL → length memory.old ≢ handle_length (length given.entry.image.now) }
    ensures certified { result ≡ TOO_SMALL → IsOk judged }
    ensures size { (result ≡ YES) ⊎ (result ≡ TOO_LONG) → length memory.old ≡ handle_length (length given.entry.image.now) }
    ensures answers { (result ≡ YES) ⊎ (result ≡ NO) ⊎ (result ≡ NO_MEMORY) ⊎ (result ≡ TOO_SMALL) ⊎ (result ≡ TOO_LONG) }
    ensures memory_kept { (result ≡ YES) ⊎ (memory.new ≡ memory.old) }
    ensures verdict_kept { (result ≡ YES) ⊎ (result ≡ TOO_LONG) ⊎ (verdict.new ≡ verdict.old) }
    ensures refusal_kept { (result ≡ NO) ⊎ (refusal.new ≡ refusal.old) }
{
    let promised = match judged {
        Ok(yes) => of_verdict(yes),
        Err(error) => return refused(error, refusal),
    };
    if !has_handle_room(memory, given.image.len()) {
        return TOO_SMALL;
    }
    *verdict = promised;
    if promised.bound > given.limit {
        return TOO_LONG;
    }
    put_loaded(given.image, given.order, promised, memory);
    YES
}
