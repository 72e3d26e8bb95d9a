//! The call that certifies.

ghost use Rattle.std.specs.Prelude.{◌≡◌, ◌⊎◌, ◌↔◌, ◌<◌};
ghost use Rattle.bpf_insn.specs.Limits.{max_context};
ghost use Rattle.bpf_host_calls.specs.Told.{order_named};
ghost use Rattle.bpf_host_calls.specs.Certified.{GivesCertified, IsNotCertified, WantsCertifiedRoom};
ghost use Rattle.bpf_host_calls.specs.declared.answers.TheConstants.{YES, NO, NO_MEMORY, BAD_CALL, TOO_SMALL};

use bpf_host_calls::{BpfCertified, BpfRefusal, CertifyAsked};
use std::alloc::Global;

/// `certify` of `bpf_host_calls`, for C.
#[unsafe(no_mangle)]
pub extern "C" fn bpf_host_certify(
    alloc: Global,
    image: &[u8],
    asked: &CertifyAsked,
    made: &mut [u8],
    text: &mut [u8],
    certified: &mut BpfCertified,
    refusal: &mut BpfRefusal,
) -> i32
    ensures given { result ≡ YES → GivesCertified (order_named asked.now.order) image.now asked.now.size asked.now.wish certified.new made.old made.new text.old text.new }
    ensures small { result ≡ TOO_SMALL → WantsCertifiedRoom (order_named asked.now.order) image.now asked.now.size asked.now.wish certified.new made.old text.old }
    ensures refused { result ≡ NO → IsNotCertified (order_named asked.now.order) image.now asked.now.size asked.now.wish refusal.new }
    ensures call { (result ≡ BAD_CALL) ↔ ((1 < asked.now.order) ⊎ ((max_context < asked.now.size) ⊎ ((1 < asked.now.wish.padded) ⊎ (1 < asked.now.wish.unproved)))) }
    ensures answers { (result ≡ YES) ⊎ (result ≡ NO) ⊎ (result ≡ NO_MEMORY) ⊎ (result ≡ BAD_CALL) ⊎ (result ≡ TOO_SMALL) }
    ensures made_kept { (result ≡ YES) ⊎ (made.new ≡ made.old) }
    ensures text_kept { (result ≡ YES) ⊎ (text.new ≡ text.old) }
    ensures certified_kept { (result ≡ YES) ⊎ (result ≡ TOO_SMALL) ⊎ (certified.new ≡ certified.old) }
    ensures refusal_kept { (result ≡ NO) ⊎ (refusal.new ≡ refusal.old) }
{
    bpf_host_calls::certify(alloc, image, *asked, made, text, certified, refusal)
}
