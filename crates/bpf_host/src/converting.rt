//! The calls that convert filters of classic BPF.

ghost use Rattle.std.specs.Prelude.{◌≡◌, ◌⊎◌, ◌↔◌};
ghost use Rattle.bpf_host_calls.specs.Told.{order_named};
ghost use Rattle.bpf_host_calls.specs.Forms.{form_asked, wanted_as, IsBadConvert};
ghost use Rattle.bpf_host_calls.specs.Converted.{GivesConverted, IsNotConverted, WantsConvertedRoom};
ghost use Rattle.bpf_host_calls.specs.ConvertSizes.{convert_size};
ghost use Rattle.bpf_host_calls.specs.declared.answers.TheConstants.{YES, NO, NO_MEMORY, BAD_CALL, TOO_SMALL};

use bpf_host_calls::{BpfConverted, BpfRefusal, ConvertAsked};
use std::alloc::Global;

/// `convert_size` of `bpf_host_calls`, for C.
#[unsafe(no_mangle)]
pub extern "C" fn bpf_host_convert_size(count: usize) -> usize
    ensures { result ≡ convert_size count }
{
    bpf_host_calls::convert_size(count)
}

/// `convert` of `bpf_host_calls`, for C.
#[unsafe(no_mangle)]
pub extern "C" fn bpf_host_convert(
    alloc: Global,
    filter: &[u8],
    asked: &ConvertAsked,
    made: &mut [u8],
    text: &mut [u8],
    converted: &mut BpfConverted,
    refusal: &mut BpfRefusal,
) -> i32
    ensures given { result ≡ YES → GivesConverted (order_named asked.now.filter_order) filter.now (wanted_as asked.now) converted.new made.old made.new text.old text.new }
    ensures small { result ≡ TOO_SMALL → WantsConvertedRoom (order_named asked.now.filter_order) filter.now (wanted_as asked.now) converted.new made.old text.old }
    ensures refused { result ≡ NO → IsNotConverted (order_named asked.now.filter_order) filter.now (form_asked asked.now.form) refusal.new }
    ensures call { (result ≡ BAD_CALL) ↔ IsBadConvert asked.now }
    ensures answers { (result ≡ YES) ⊎ (result ≡ NO) ⊎ (result ≡ NO_MEMORY) ⊎ (result ≡ BAD_CALL) ⊎ (result ≡ TOO_SMALL) }
    ensures made_kept { (result ≡ YES) ⊎ (made.new ≡ made.old) }
    ensures text_kept { (result ≡ YES) ⊎ (text.new ≡ text.old) }
    ensures converted_kept { (result ≡ YES) ⊎ (result ≡ TOO_SMALL) ⊎ (converted.new ≡ converted.old) }
    ensures refusal_kept { (result ≡ NO) ⊎ (refusal.new ≡ refusal.old) }
{
    bpf_host_calls::convert(alloc, filter, *asked, made, text, converted, refusal)
}
