//! The calls for hosts that help whoever writes a program, on what C hands over: certificates proposed, images
//! hardened, certified and explained, refusals in words. `bpf_host` exports them under C's names.

ghost use Rattle.std.specs.Prelude.{◌≡◌, ◌==◌, ◌++◌, ◌⊎◌, ◌↔◌, ◌<◌, length, take, drop};
ghost use Rattle.bpf_insn.specs.Limits.{max_context};
ghost use Rattle.bpf_host_calls.specs.Told.{order_named};
ghost use Rattle.bpf_host_calls.specs.Explained.{IsSomeImage};
ghost use Rattle.bpf_host_calls.specs.Texts.{refusal_text, answer_text, IsNumbered};
ghost use Rattle.bpf_host_calls.specs.Proposals.{GivesProposal, WantsRoom, IsNotProposed};
ghost use Rattle.bpf_host_calls.specs.Hardened.{bounds_asked, IsBadHarden, GivesHardened, WantsHardenedRoom, IsNotHardened};
ghost use Rattle.bpf_host_calls.specs.declared.answers.TheConstants.{YES, NO, NO_MEMORY, BAD_CALL, TOO_SMALL};

use crate::answers::{BAD_CALL, BpfRefusal, NO, NO_MEMORY, order_of};
use crate::explanation::Given;
use crate::hardening::hardened;
use crate::host_advice_asked::{HardenAsked, RangeAsked};
use crate::outputs::give;
use crate::proposal::proposal;
use crate::refusals::Unmade;
use crate::texts::{answer_words, give_beginning, text_of};
use bpf_infer::WantedCertificate;
use bpf_insn::{FRAME_BYTES, MAX_CONTEXT};
use std::alloc::Global;

/// Proposes a certificate for the program of an image, on contexts of `least` to `most` bytes. Nobody relies on it: `verify` of `bpf_host_calls` judges it.
/// - 1: its text stands in the first `wanted` bytes of `text`.
/// - 0: none is proposed, and `refusal` says why, by E or I.
/// - -1: memory ran out.
/// - -2: the order or `deep` is neither 0 nor 1, `least` is above `most`, or `most` above 4,096.
/// - -3: `text` is too small for `wanted` bytes.
///
/// What isn't answered stays as it was.
pub fn infer(
    alloc: Global,
    image: &[u8],
    order: u32,
    range: RangeAsked,
    text: &mut [u8],
    wanted: &mut usize,
    refusal: &mut BpfRefusal,
) -> i32
    ensures given { result ≡ YES → GivesProposal range.least range.most wanted.new text.old text.new }
    ensures small { result ≡ TOO_SMALL → WantsRoom range.least range.most wanted.new text.old }
    ensures image { (result ≡ YES) ⊎ (result ≡ TOO_SMALL) → IsSomeImage (order_named order) image.now }
    ensures refused { result ≡ NO → IsNotProposed (order_named order) image.now refusal.new }
    ensures call { (result ≡ BAD_CALL) ↔ ((1 < order) ⊎ ((range.most < range.least) ⊎ ((max_context < range.most) ⊎ (1 < range.deep)))) }
    ensures answers { (result ≡ YES) ⊎ (result ≡ NO) ⊎ (result ≡ NO_MEMORY) ⊎ (result ≡ BAD_CALL) ⊎ (result ≡ TOO_SMALL) }
    ensures text_kept { (result ≡ YES) ⊎ (text.new ≡ text.old) }
    ensures wanted_kept { (result ≡ YES) ⊎ (result ≡ TOO_SMALL) ⊎ (wanted.new ≡ wanted.old) }
    ensures refusal_kept { (result ≡ NO) ⊎ (refusal.new ≡ refusal.old) }
{
    let Some(order) = order_of(u64::from(order)) else {
        return BAD_CALL;
    };
    if range.least > range.most || range.most > MAX_CONTEXT as u32 || range.deep > 1 {
        return BAD_CALL;
    }
    let wanted_of = WantedCertificate {
        least: range.least,
        most: range.most,
        deep: range.deep == 1,
    };
    match proposal(alloc, image, order, wanted_of) {
        Ok(words) => give(&words, text, wanted),
        Err(Unmade::Memory) => NO_MEMORY,
        Err(Unmade::Refused(told)) => {
            *refusal = told;
            NO
        }
    }
}

/// Hardens an image for contexts of exactly `size` bytes. Loops that nothing counts turn at most `turns` times. Where a trap ends the program, r0 is
/// `otherwise`. With `padded` 1 the context is a block: eight bytes that say how long the packet is, the packet, and padding.
/// - 1: the new image stands in the first `wanted` bytes of `text`. With `unproved` 0 it is shown to keep the meaning of the old one. That is for runs that
///   come to no instruction more than `turns` times and leave the lowest `untouched` bytes of each frame to r10.
/// - 0: the image is refused, or its program isn't hardened, or isn't shown to be, and `refusal` says why, by E or H.
/// - -1: memory ran out.
/// - -2: the order, `padded` or `unproved` is neither 0 nor 1, `size` is above 4,096 or `untouched` above 512.
/// - -3: `text` has less than `wanted` bytes.
///
/// What isn't answered stays as it was. For safety nobody relies on it: a certificate of the new image has to be found and judged.
pub fn harden(
    alloc: Global,
    image: &[u8],
    order: u32,
    asked: HardenAsked,
    text: &mut [u8],
    wanted: &mut usize,
    refusal: &mut BpfRefusal,
) -> i32
    ensures given { result ≡ YES → GivesHardened (order_named order) image.now (bounds_asked asked) (asked.unproved == 1) wanted.new text.old text.new }
    ensures small { result ≡ TOO_SMALL → WantsHardenedRoom (order_named order) image.now (bounds_asked asked) (asked.unproved == 1) wanted.new text.old }
    ensures refused { result ≡ NO → IsNotHardened (order_named order) image.now (bounds_asked asked) (asked.unproved == 1) refusal.new }
    ensures call { (result ≡ BAD_CALL) ↔ IsBadHarden order asked }
    ensures answers { (result ≡ YES) ⊎ (result ≡ NO) ⊎ (result ≡ NO_MEMORY) ⊎ (result ≡ BAD_CALL) ⊎ (result ≡ TOO_SMALL) }
    ensures text_kept { (result ≡ YES) ⊎ (text.new ≡ text.old) }
    ensures wanted_kept { (result ≡ YES) ⊎ (result ≡ TOO_SMALL) ⊎ (wanted.new ≡ wanted.old) }
    ensures refusal_kept { (result ≡ NO) ⊎ (refusal.new ≡ refusal.old) }
{
    let Some(order) = order_of(u64::from(order)) else {
        return BAD_CALL;
    };
    if asked.size > MAX_CONTEXT as u32 || asked.padded > 1 || asked.unproved > 1 {
        return BAD_CALL;
    }
    if asked.untouched > FRAME_BYTES as u32 {
        return BAD_CALL;
    }
    match hardened(alloc, Given { image, order }, asked) {
        Ok(bytes) => give(&bytes, text, wanted),
        Err(Unmade::Memory) => NO_MEMORY,
        Err(Unmade::Refused(told)) => {
            *refusal = told;
            NO
        }
    }
}

/// What a refusal or a fault says in English, without an end of line. The kind is the letter: A, B, C, E, F, H, I, K, M, N or P. The answer is how many
/// bytes that is, and 0 where there is no such refusal. As many as have room stand in `text`.
pub fn refusal_text(kind: u32, number: u32, text: &mut [u8]) -> usize
    ensures numbered { (0 < result) ↔ IsNumbered kind number }
    ensures length { result ≡ length (refusal_text kind number) }
    ensures given { text.new ≡ take (length text.old) (refusal_text kind number) ++ drop result text.old }
{
    match text_of(kind, number) {
        Some(words) => {
            give_beginning(words, text);
            words.len()
        }
        None => 0,
    }
}

/// What an answer below 0 says in English, without an end of line. The answer is how many bytes that is, 0 for any other; as many
/// as have room stand in `text`.
pub fn answer_text(answer: i32, text: &mut [u8]) -> usize
    ensures length { result ≡ length (answer_text answer) }
    ensures given { text.new ≡ take (length text.old) (answer_text answer) ++ drop result text.old }
{
    let words = answer_words(answer);
    give_beginning(words, text);
    words.len()
}
