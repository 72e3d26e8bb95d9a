//! The call that certifies.

ghost use Rattle.std.specs.Prelude.{◌≡◌, ◌⊎◌, ◌↔◌, ◌<◌};
ghost use Rattle.bpf_insn.specs.Limits.{max_context};
ghost use Rattle.bpf_host_calls.specs.Told.{order_named};
ghost use Rattle.bpf_host_calls.specs.Certified.{GivesCertified, IsNotCertified, WantsCertifiedRoom};
ghost use Rattle.bpf_host_calls.specs.declared.answers.TheConstants.{YES, NO, NO_MEMORY, BAD_CALL, TOO_SMALL};

use crate::answers::{BAD_CALL, BpfRefusal, NO, NO_MEMORY, order_of};
use crate::certification::{BpfCertified, certification};
use crate::explanation::Given;
use crate::host_advice_asked::CertifyAsked;
use crate::outputs::give_both;
use crate::refusals::Unmade;
use bpf_insn::MAX_CONTEXT;
use std::alloc::Global;

/// Certifies an image for contexts of exactly `size` bytes, with a bound of at most the one that is wished. The image stays as it stands where the deep search
/// finds such a certificate. Else it is hardened, for the turns that are wished, or for the greatest number that is found to stay within the bound.
/// - 1: `certified` says how many of the first bytes of `made` are the image and how many of `text` the certificate. This certifies it with the bound that is
///   told. A hardened image is shown, unless `unproved` is 1, to keep the meaning of the one that was given. That is for runs that come to no instruction more
///   than `turns` times (`u32::MAX`: however often) and leave the lowest `untouched` bytes of each frame to r10, as is told.
/// - 0: the image is refused, or isn't certified, and `refusal` says why, by E or H.
/// - -1: memory ran out.
/// - -2: the order, `padded` or `unproved` is neither 0 nor 1, or `size` is above 4,096.
/// - -3: `made` or `text` has less room than `certified` says.
///
/// What isn't answered stays as it was. What comes out was checked: `verify` of `bpf_host_calls` says yes of it.
pub fn certify(
    alloc: Global,
    image: &[u8],
    asked: CertifyAsked,
    made: &mut [u8],
    text: &mut [u8],
    certified: &mut BpfCertified,
    refusal: &mut BpfRefusal,
) -> i32
    ensures given { result ≡ YES → GivesCertified (order_named asked.order) image.now asked.size asked.wish certified.new made.old made.new text.old text.new }
    ensures small { result ≡ TOO_SMALL → WantsCertifiedRoom (order_named asked.order) image.now asked.size asked.wish certified.new made.old text.old }
    ensures refused { result ≡ NO → IsNotCertified (order_named asked.order) image.now asked.size asked.wish refusal.new }
    ensures call { (result ≡ BAD_CALL) ↔ ((1 < asked.order) ⊎ ((max_context < asked.size) ⊎ ((1 < asked.wish.padded) ⊎ (1 < asked.wish.unproved)))) }
    ensures answers { (result ≡ YES) ⊎ (result ≡ NO) ⊎ (result ≡ NO_MEMORY) ⊎ (result ≡ BAD_CALL) ⊎ (result ≡ TOO_SMALL) }
    ensures made_kept { (result ≡ YES) ⊎ (made.new ≡ made.old) }
    ensures text_kept { (result ≡ YES) ⊎ (text.new ≡ text.old) }
    ensures certified_kept { (result ≡ YES) ⊎ (result ≡ TOO_SMALL) ⊎ (certified.new ≡ certified.old) }
    ensures refusal_kept { (result ≡ NO) ⊎ (refusal.new ≡ refusal.old) }
{
    let Some(order) = order_of(u64::from(asked.order)) else {
        return BAD_CALL;
    };
    if asked.size > MAX_CONTEXT as u32 || asked.wish.padded > 1 || asked.wish.unproved > 1 {
        return BAD_CALL;
    }
    match certification(alloc, Given { image, order }, asked.size, asked.wish) {
        Ok(found) => {
            *certified = found.told;
            give_both(&found.both, made, text)
        }
        Err(Unmade::Memory) => NO_MEMORY,
        Err(Unmade::Refused(told)) => {
            *refusal = told;
            NO
        }
    }
}
