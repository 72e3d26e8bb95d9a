//! The calls that explain.

ghost use Rattle.std.specs.Prelude.{◌≡◌, ◌⊎◌, ◌↔◌, ◌<◌, length};
ghost use Rattle.bpf_insn.specs.Limits.{max_context};
ghost use Rattle.bpf_host_calls.specs.Told.{order_named};
ghost use Rattle.bpf_host_calls.specs.Answers.{IsRefusedAsTold};
ghost use Rattle.bpf_host_calls.specs.Explained.{IsSomeImage, IsRefusedImage, IsCertifiedBySome, IsFound, IsNotFound, GivesWords};
ghost use Rattle.bpf_host_calls.specs.declared.answers.TheConstants.{YES, NO, NO_MEMORY, BAD_CALL, TOO_SMALL};

use bpf_host_calls::{BpfRefusal, ExplainAsked, RangeAsked};
use std::alloc::Global;

/// `explain` of `bpf_host_calls`, for C.
#[unsafe(no_mangle)]
pub extern "C" fn bpf_host_explain(
    alloc: Global,
    image: &[u8],
    order: u32,
    certificate: &[u8],
    shown: u32,
    slot: u32,
    lines: &[u8],
    text: &mut [u8],
    wanted: &mut usize,
    refusal: &mut BpfRefusal,
) -> i32
    ensures yes { result ≡ YES → IsCertifiedBySome (order_named order) image.now certificate.now }
    ensures no { result ≡ NO → IsRefusedAsTold (order_named order) image.now certificate.now refusal.new }
    ensures given { (result ≡ YES) ⊎ (result ≡ NO) → GivesWords wanted.new text.old text.new }
    ensures small { result ≡ TOO_SMALL → length text.old < wanted.new }
    ensures bad { (1 < order) ⊎ (2 < shown) → result ≡ BAD_CALL }
    ensures call { result ≡ BAD_CALL → (1 < order) ⊎ ((2 < shown) ⊎ (0 < length lines.now)) }
    ensures answers { (result ≡ YES) ⊎ (result ≡ NO) ⊎ (result ≡ NO_MEMORY) ⊎ (result ≡ BAD_CALL) ⊎ (result ≡ TOO_SMALL) }
    ensures text_kept { (result ≡ YES) ⊎ (result ≡ NO) ⊎ (text.new ≡ text.old) }
    ensures wanted_kept { (result ≡ YES) ⊎ (result ≡ NO) ⊎ (result ≡ TOO_SMALL) ⊎ (wanted.new ≡ wanted.old) }
    ensures refusal_kept { (result ≡ NO) ⊎ (refusal.new ≡ refusal.old) }
{
    let asked = ExplainAsked {
        order,
        shown,
        slot,
        lines,
    };
    bpf_host_calls::explain(alloc, image, certificate, asked, text, wanted, refusal)
}

/// `explain_search` of `bpf_host_calls`, for C.
#[unsafe(no_mangle)]
pub extern "C" fn bpf_host_explain_search(
    alloc: Global,
    image: &[u8],
    order: u32,
    least: u32,
    most: u32,
    deep: u32,
    shown: u32,
    slot: u32,
    lines: &[u8],
    text: &mut [u8],
    wanted: &mut usize,
    refusal: &mut BpfRefusal,
) -> i32
    ensures yes { result ≡ YES → IsFound (order_named order) image.now least most }
    ensures no { result ≡ NO → IsNotFound (order_named order) image.now least most refusal.new }
    ensures given { (result ≡ YES) ⊎ (result ≡ NO) → GivesWords wanted.new text.old text.new }
    ensures small { result ≡ TOO_SMALL → length text.old < wanted.new }
    ensures bad { (1 < order) ⊎ ((most < least) ⊎ ((max_context < most) ⊎ ((1 < deep) ⊎ (2 < shown)))) → result ≡ BAD_CALL }
    ensures call { result ≡ BAD_CALL → (1 < order) ⊎ ((most < least) ⊎ ((max_context < most) ⊎ ((1 < deep) ⊎ ((2 < shown) ⊎ (0 < length lines.now))))) }
    ensures answers { (result ≡ YES) ⊎ (result ≡ NO) ⊎ (result ≡ NO_MEMORY) ⊎ (result ≡ BAD_CALL) ⊎ (result ≡ TOO_SMALL) }
    ensures text_kept { (result ≡ YES) ⊎ (result ≡ NO) ⊎ (text.new ≡ text.old) }
    ensures wanted_kept { (result ≡ YES) ⊎ (result ≡ NO) ⊎ (result ≡ TOO_SMALL) ⊎ (wanted.new ≡ wanted.old) }
    ensures refusal_kept { (result ≡ NO) ⊎ (refusal.new ≡ refusal.old) }
{
    let range = RangeAsked { least, most, deep };
    let asked = ExplainAsked {
        order,
        shown,
        slot,
        lines,
    };
    bpf_host_calls::explain_search(alloc, image, range, asked, text, wanted, refusal)
}

/// `explain_image` of `bpf_host_calls`, for C.
#[unsafe(no_mangle)]
pub extern "C" fn bpf_host_explain_image(
    alloc: Global,
    image: &[u8],
    order: u32,
    graph: u32,
    text: &mut [u8],
    wanted: &mut usize,
    refusal: &mut BpfRefusal,
) -> i32
    ensures yes { result ≡ YES → IsSomeImage (order_named order) image.now }
    ensures no { result ≡ NO → IsRefusedImage (order_named order) image.now refusal.new }
    ensures given { (result ≡ YES) ⊎ (result ≡ NO) → GivesWords wanted.new text.old text.new }
    ensures small { result ≡ TOO_SMALL → length text.old < wanted.new }
    ensures call { (result ≡ BAD_CALL) ↔ ((1 < order) ⊎ (1 < graph)) }
    ensures answers { (result ≡ YES) ⊎ (result ≡ NO) ⊎ (result ≡ NO_MEMORY) ⊎ (result ≡ BAD_CALL) ⊎ (result ≡ TOO_SMALL) }
    ensures text_kept { (result ≡ YES) ⊎ (result ≡ NO) ⊎ (text.new ≡ text.old) }
    ensures wanted_kept { (result ≡ YES) ⊎ (result ≡ NO) ⊎ (result ≡ TOO_SMALL) ⊎ (wanted.new ≡ wanted.old) }
    ensures refusal_kept { (result ≡ NO) ⊎ (refusal.new ≡ refusal.old) }
{
    bpf_host_calls::explain_image(alloc, image, order, graph, text, wanted, refusal)
}
