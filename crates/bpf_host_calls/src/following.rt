//! Whether notes and a certificate show that a new image keeps the meaning of an old one.

ghost use Rattle.std.specs.Prelude.{◌≡◌, ◌↔◌, ◌⊎◌, ◌<◌, IfOk, IfErr};
ghost use Rattle.bpf_host_calls.specs.Told.{order_named};
ghost use Rattle.bpf_host_calls.specs.Followed.{IsFollowedAs, IsNotFollowedAs, following_of, long_turns};
ghost use Rattle.bpf_host_calls.specs.ToldAdvice.{IsTold, TellsNewImage, TellsNotes, TellsText};
ghost use Rattle.bpf_host_calls.specs.declared.answers.TheConstants.{YES, NO, NO_MEMORY, BAD_CALL};

use crate::answers::{BAD_CALL, BpfRefusal, NO, NO_MEMORY, YES, of_verify, order_of, refusal_of};
use crate::host_advice_asked::{BpfFollowing, FollowAsked};
use crate::refusals::Unmade;
use bpf_cert::{CertError, read as read_certificate};
use bpf_check::{VerifyError, check};
use bpf_follows::{NotesError, follows as shows, read as read_notes};
use bpf_insn::{DecodeError, Order, ProgramView};
use bpf_kept::{Bounds, Turns, turns_shown};
use std::alloc::Global;

/// Why a new image is refused.
fn of_new_image(error: DecodeError) -> BpfRefusal
    ensures { TellsNewImage error result }
{
    BpfRefusal {
        condition: 1,
        ..refusal_of(&error)
    }
}

/// Why a text is none of notes.
pub(crate) fn of_notes(error: NotesError) -> Unmade
    ensures { TellsNotes error result }
{
    match error {
        NotesError::Memory => Unmade::Memory,
        NotesError::Form { .. } => Unmade::Refused(refusal_of(&error)),
    }
}

/// Why a text is no certificate.
fn of_text(error: CertError) -> Unmade
    ensures { TellsText error result }
{
    match of_verify(VerifyError::Cert(error)) {
        Some(told) => Unmade::Refused(told),
        None => Unmade::Memory,
    }
}

/// Of how many turns, as C sees it: `u64::MAX` for any number.
fn long_turns(turns: Turns) -> u64
    ensures { result ≡ long_turns turns }
{
    match turns {
        Turns::Any => u64::MAX,
        Turns::Most(most) => most.min(u64::MAX - 1),
    }
}

/// What is shown, as C sees it.
fn told_of(runs: Bounds, turns: Turns, bound: u32) -> BpfFollowing
    ensures { result ≡ following_of runs turns bound }
{
    BpfFollowing {
        size: runs.length,
        padded: u32::from(runs.padded),
        turns: long_turns(turns),
        untouched: runs.untouched,
        bound,
    }
}

/// What the notes and the certificate of the texts show of the images.
fn followed(alloc: Global, asked: FollowAsked<'_>, order: Order) -> Result<BpfFollowing, Unmade>
    ensures ok { IfOk result (IsFollowedAs order asked.entry) }
    ensures err { IfErr result (IsTold (IsNotFollowedAs order asked.entry)) }
{
    let old = match ProgramView::of(asked.old, order) {
        Ok(program) => program,
        Err(error) => return Err(Unmade::Refused(refusal_of(&error))),
    };
    let new = match ProgramView::of(asked.new, order) {
        Ok(program) => program,
        Err(error) => return Err(Unmade::Refused(of_new_image(error))),
    };
    let noted = match read_notes(alloc, asked.notes) {
        Ok(noted) => noted,
        Err(error) => return Err(of_notes(error)),
    };
    let certificate = match read_certificate(alloc, asked.certificate) {
        Ok(certificate) => certificate,
        Err(error) => return Err(of_text(error)),
    };
    match check(&new, &certificate) {
        Ok(_checked) => {}
        Err(refusal) => return Err(Unmade::Refused(refusal_of(&refusal))),
    }
    match shows(&old, &new, &noted.notes, &certificate, noted.runs) {
        Ok(()) => {
            let turns = turns_shown(&noted.notes, noted.runs.turns);
            Ok(told_of(noted.runs, turns, certificate.steps()))
        }
        Err(mismatch) => Err(Unmade::Refused(refusal_of(&mismatch))),
    }
}

/// Whether notes and a certificate show that a new image keeps the meaning of an old one, as `bpf follows` says it.
/// - 1: the certificate certifies the new image with the bound that `following` tells, and the notes show it. Take a context of `size` bytes, a block of a
///   packet where `padded` is 1. Let the old image end on it with a number, come to no instruction more than `turns` times, and leave the lowest `untouched`
///   bytes of each frame to r10. Then the new one ends with that number. The first line of the notes says which these are. Where no note has a counter,
///   `turns` is `u64::MAX`, and it is so however often the old one comes to an instruction.
/// - 0: the old image, the new one, the notes or the certificate is refused, or the certificate doesn't certify the new image, or the notes don't show it. The
///   first of these is told, and `refusal` says why, by E, N, K, C or M.
/// - -1: memory ran out while the notes or the certificate were read.
/// - -2: the order is neither 0 nor 1.
///
/// What isn't answered stays as it was.
pub fn follows(
    alloc: Global,
    asked: FollowAsked<'_>,
    following: &mut BpfFollowing,
    refusal: &mut BpfRefusal,
) -> i32
    ensures yes { result ≡ YES → IsFollowedAs (order_named asked.entry.order) asked.entry following.new }
    ensures no { result ≡ NO → IsNotFollowedAs (order_named asked.entry.order) asked.entry refusal.new }
    ensures call { (result ≡ BAD_CALL) ↔ (1 < asked.entry.order) }
    ensures answers { (result ≡ YES) ⊎ (result ≡ NO) ⊎ (result ≡ NO_MEMORY) ⊎ (result ≡ BAD_CALL) }
    ensures following_kept { (result ≡ YES) ⊎ (following.new ≡ following.old) }
    ensures refusal_kept { (result ≡ NO) ⊎ (refusal.new ≡ refusal.old) }
{
    let Some(order) = order_of(u64::from(asked.order)) else {
        return BAD_CALL;
    };
    match followed(alloc, asked, order) {
        Ok(told) => {
            *following = told;
            YES
        }
        Err(Unmade::Memory) => NO_MEMORY,
        Err(Unmade::Refused(told)) => {
            *refusal = told;
            NO
        }
    }
}
