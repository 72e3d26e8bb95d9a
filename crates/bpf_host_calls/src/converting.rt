//! The call for hosts that makes an image of a filter of classic BPF, on what C hands over. `bpf_host` exports it
//! under C's name.

ghost use Rattle.std.specs.Prelude.{◌≡◌, ◌⊎◌, ◌↔◌};
ghost use Rattle.bpf_host_calls.specs.Told.{order_named};
ghost use Rattle.bpf_host_calls.specs.Forms.{form_asked, wanted_as, IsBadConvert};
ghost use Rattle.bpf_host_calls.specs.Converted.{GivesConverted, IsNotConverted, WantsConvertedRoom};
ghost use Rattle.bpf_host_calls.specs.declared.answers.TheConstants.{YES, NO, NO_MEMORY, BAD_CALL, TOO_SMALL};

use crate::answers::{BAD_CALL, BpfRefusal, NO, NO_MEMORY, order_of};
use crate::asked::ConvertAsked;
use crate::conversion::{BpfConverted, Given, conversion};
use crate::forms::{form_of, form_part, may_have, wanted_by};
use crate::outputs::give_both;
use crate::refusals::Unmade;
use std::alloc::Global;

/// Makes an image of a filter of classic BPF, and a certificate, for contexts of exactly `size` bytes in a form. The filter's instructions are eight bytes
/// each, with numbers in the order `filter_order`. The form stands in the low 16 bits of `form`: 0 blocks of a packet's length, the packet and padding, 1
/// packets, 2 `struct seccomp_data`, 3 blocks with sixteen words of Linux's auxiliary data between the length and the packet. The high 16 bits say how often
/// a run may jump back, 0 as often as is usual.
/// - 1: `converted` says how many of the first bytes of `made` are the image and how many of `text` the certificate. This certifies it with the bound that is
///   told. On each such context the image's program ends with what the filter answers, with 0 where the filter's run jumps back more often.
/// - 0: the bytes are no filter, and `refusal` says why, by B with the instruction.
/// - -1: memory ran out.
/// - -2: an order is neither 0 nor 1, the form is above 3, or no context of the form has `size` bytes.
/// - -3: `made` or `text` has less room than `converted` says.
///
/// What isn't answered stays as it was. The checker isn't asked, since by a law `verify` of `bpf_host_calls` says yes of what comes out.
pub fn convert(
    alloc: Global,
    filter: &[u8],
    asked: ConvertAsked,
    made: &mut [u8],
    text: &mut [u8],
    converted: &mut BpfConverted,
    refusal: &mut BpfRefusal,
) -> i32
    ensures given { result ≡ YES → GivesConverted (order_named asked.filter_order) filter.now (wanted_as asked) converted.new made.old made.new text.old text.new }
    ensures small { result ≡ TOO_SMALL → WantsConvertedRoom (order_named asked.filter_order) filter.now (wanted_as asked) converted.new made.old text.old }
    ensures refused { result ≡ NO → IsNotConverted (order_named asked.filter_order) filter.now (form_asked asked.form) refusal.new }
    ensures call { (result ≡ BAD_CALL) ↔ IsBadConvert asked }
    ensures answers { (result ≡ YES) ⊎ (result ≡ NO) ⊎ (result ≡ NO_MEMORY) ⊎ (result ≡ BAD_CALL) ⊎ (result ≡ TOO_SMALL) }
    ensures made_kept { (result ≡ YES) ⊎ (made.new ≡ made.old) }
    ensures text_kept { (result ≡ YES) ⊎ (text.new ≡ text.old) }
    ensures converted_kept { (result ≡ YES) ⊎ (result ≡ TOO_SMALL) ⊎ (converted.new ≡ converted.old) }
    ensures refusal_kept { (result ≡ NO) ⊎ (refusal.new ≡ refusal.old) }
{
    let Some(filter_order) = order_of(u64::from(asked.filter_order)) else {
        return BAD_CALL;
    };
    let Some(order) = order_of(u64::from(asked.order)) else {
        return BAD_CALL;
    };
    let Some(named) = form_of(form_part(asked.form)) else {
        return BAD_CALL;
    };
    if !may_have(named, asked.size) {
        return BAD_CALL;
    }
    let given = Given {
        filter,
        order: filter_order,
    };
    let wanted = wanted_by(named, asked.form, asked.size, order);
    match conversion(alloc, given, wanted) {
        Ok(found) => {
            *converted = found.told;
            give_both(&found.both, made, text)
        }
        Err(Unmade::Memory) => NO_MEMORY,
        Err(Unmade::Refused(told)) => {
            *refusal = told;
            NO
        }
    }
}
