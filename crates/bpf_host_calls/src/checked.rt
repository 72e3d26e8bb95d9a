//! Runs of prepared programs.

ghost use Rattle.std.specs.Prelude.{◌≤◌, ◌↔◌, IsSome, IfSome, length};
ghost use Rattle.bpf_host_calls.specs.Answers.{IsVerifiedFor, MayRun, EndsAsVerified, EndsAsPrepared};
ghost use Rattle.bpf_host_calls.specs.Prepared.{AreOpcodesOf, IsMarked, IsWhole, prepared_head};

use crate::prepared::found_in;
use bpf_flat::run_image;
use bpf_insn::Order;
use bpf_semantics::{finish_is_last, runs_are_one, stuck_has_reason};

/// The greatest bound that a certificate says.
const MAX_STEPS: u32 = u32::MAX;

/// The number with which the program of a verified image ends on a context. Its opcodes stand beside it.
pub(crate) fn end_of_image(image: &[u8], opcodes: &[u8], order: Order, context: &[u8]) -> u64
    requires verified { IsVerifiedFor order image.now context.now }
    requires opcodes { AreOpcodesOf order image.now opcodes.now }
    ensures { EndsAsVerified order image.now context.now result }
{
    finish_is_last();
    stuck_has_reason();
    runs_are_one();
    run_image(image, opcodes, order, context, MAX_STEPS)
}

/// The number with which a prepared program ends on a context; None where another version prepared it, or words of it aren't there.
pub(crate) fn end_of(memory: &[u8], context: &[u8]) -> Option<u64>
    requires head { prepared_head ≤ length memory.now }
    requires may { IsMarked memory.now → IsWhole memory.now → MayRun memory.now context.now }
    ensures ends { IfSome result (EndsAsPrepared memory.now context.now) }
    ensures known { IsSome result ↔ (IsMarked memory.now × IsWhole memory.now) }
{
    let found = found_in(memory)?;
    Some(end_of_image(found.image, found.opcodes, found.order, context))
}
