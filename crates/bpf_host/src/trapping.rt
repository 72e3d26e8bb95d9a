//! The call that tells traps.

ghost use Rattle.std.specs.Prelude.{◌≡◌, ◌⊎◌, ◌↔◌, ◌<◌, ◌≤◌, length};
ghost use Rattle.bpf_insn.specs.Limits.{max_context};
ghost use Rattle.bpf_host_calls.specs.Told.{order_named};
ghost use Rattle.bpf_host_calls.specs.Trapped.{IsNotJudged, TellsTrap};
ghost use Rattle.bpf_host_calls.specs.declared.answers.TheConstants.{YES, NO, NO_MEMORY, BAD_CALL, BAD_LENGTH};

use bpf_host_calls::{BpfRefusal, TrapAsked};
use std::alloc::Global;

/// `ends_at_trap` of `bpf_host_calls`, for C.
#[unsafe(no_mangle)]
pub extern "C" fn bpf_host_ends_at_trap(
    alloc: Global,
    image: &[u8],
    order: u32,
    notes: &[u8],
    context: &[u8],
    most: u64,
    trap: &mut u32,
    refusal: &mut BpfRefusal,
) -> i32
    ensures yes { result ≡ YES → TellsTrap (order_named order) image.now notes.now context.now most trap.new }
    ensures no { result ≡ NO → IsNotJudged (order_named order) image.now notes.now refusal.new }
    ensures call { (result ≡ BAD_CALL) ↔ (1 < order) }
    ensures long { (result ≡ BAD_LENGTH) ↔ ((order ≤ 1) × (max_context < length context.now)) }
    ensures answers { (result ≡ YES) ⊎ (result ≡ NO) ⊎ (result ≡ NO_MEMORY) ⊎ (result ≡ BAD_CALL) ⊎ (result ≡ BAD_LENGTH) }
    ensures trap_kept { (result ≡ YES) ⊎ (trap.new ≡ trap.old) }
    ensures refusal_kept { (result ≡ NO) ⊎ (refusal.new ≡ refusal.old) }
{
    let asked = TrapAsked {
        image,
        order,
        notes,
        context,
        most,
    };
    bpf_host_calls::ends_at_trap(alloc, asked, trap, refusal)
}
