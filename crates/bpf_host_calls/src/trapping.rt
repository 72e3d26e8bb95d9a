//! Whether a run of an image ends at a trap, by notes.

ghost use Rattle.std.specs.Prelude.{◌≡◌, ◌↔◌, ◌⊎◌, ◌<◌, ◌≤◌, IfOk, IfErr, length};
ghost use Rattle.bpf_insn.specs.Limits.{max_context};
ghost use Rattle.bpf_host_calls.specs.Told.{order_named};
ghost use Rattle.bpf_host_calls.specs.ToldAdvice.{IsTold};
ghost use Rattle.bpf_host_calls.specs.Trapped.{IsNotJudged, IsTrapped, TellsTrap};
ghost use Rattle.bpf_host_calls.specs.declared.answers.TheConstants.{YES, NO, NO_MEMORY, BAD_CALL, BAD_LENGTH};

use crate::answers::{BAD_CALL, BAD_LENGTH, BpfRefusal, NO, NO_MEMORY, YES, order_of, refusal_of};
use crate::following::of_notes;
use crate::host_advice_asked::TrapAsked;
use crate::refusals::Unmade;
use bpf_follows::{ends_at_trap as runs_to_trap, read as read_notes};
use bpf_insn::{MAX_CONTEXT, Order, ProgramView};
use std::alloc::Global;

/// Whether the image's run ends at a trap, by the notes of the text.
fn trapped(alloc: Global, asked: TrapAsked<'_>, order: Order) -> Result<bool, Unmade>
    requires { length asked.context.now ≤ max_context }
    ensures ok { IfOk result (IsTrapped order asked.entry.image.now asked.entry.notes.now asked.entry.context.now asked.entry.most) }
    ensures err { IfErr result (IsTold (IsNotJudged order asked.entry.image.now asked.entry.notes.now)) }
{
    let program = match ProgramView::of(asked.image, order) {
        Ok(program) => program,
        Err(error) => return Err(Unmade::Refused(refusal_of(&error))),
    };
    let noted = match read_notes(alloc, asked.notes) {
        Ok(noted) => noted,
        Err(error) => return Err(of_notes(error)),
    };
    Ok(runs_to_trap(&program, asked.context, asked.most, &noted.notes))
}

/// Whether a run of an image on a context of at most 4,096 bytes ends at a trap, within `most` instructions: at an EXIT that the notes don't have stand for one
/// of the old program's. Nothing here looks whether the notes match.
/// - 1: `trap` is 1 if it does. It is 0 if the run ends at another EXIT, or doesn't end so soon, or is at a fault.
/// - 0: the image is refused, by E, or it isn't, and the notes are, by N. `refusal` says why.
/// - -1: memory ran out while the notes were read.
/// - -2: the order is neither 0 nor 1.
/// - -5: the context is too long.
///
/// What isn't answered stays as it was.
pub fn ends_at_trap(
    alloc: Global,
    asked: TrapAsked<'_>,
    trap: &mut u32,
    refusal: &mut BpfRefusal,
) -> i32
    ensures yes { result ≡ YES → TellsTrap (order_named asked.entry.order) asked.entry.image.now asked.entry.notes.now asked.entry.context.now asked.entry.most trap.new }
    ensures no { result ≡ NO → IsNotJudged (order_named asked.entry.order) asked.entry.image.now asked.entry.notes.now refusal.new }
    ensures call { (result ≡ BAD_CALL) ↔ (1 < asked.entry.order) }
    ensures long { (result ≡ BAD_LENGTH) ↔ ((asked.entry.order ≤ 1) × (max_context < length asked.entry.context.now)) }
    ensures answers { (result ≡ YES) ⊎ (result ≡ NO) ⊎ (result ≡ NO_MEMORY) ⊎ (result ≡ BAD_CALL) ⊎ (result ≡ BAD_LENGTH) }
    ensures trap_kept { (result ≡ YES) ⊎ (trap.new ≡ trap.old) }
    ensures refusal_kept { (result ≡ NO) ⊎ (refusal.new ≡ refusal.old) }
{
    let Some(order) = order_of(u64::from(asked.order)) else {
        return BAD_CALL;
    };
    if asked.context.len() > MAX_CONTEXT {
        return BAD_LENGTH;
    }
    match trapped(alloc, asked, order) {
        Ok(at_trap) => {
            *trap = u32::from(at_trap);
            YES
        }
        Err(Unmade::Memory) => NO_MEMORY,
        Err(Unmade::Refused(told)) => {
            *refusal = told;
            NO
        }
    }
}
