//! The calls for hosts that judge, prepare, load and run programs, on what C hands over, and the answers that C sees.
//! `bpf_host` exports them under C's names.

ghost use Rattle.std.specs.Prelude.{◌≡◌, ◌≢◌, ◌⊎◌, ◌↔◌, ◌<◌, ◌≤◌, ◌*◌, ◌%◌, List, length};
ghost use Rattle.bpf_insn.specs.Limits.{max_context, max_slots};
ghost use Rattle.bpf_insn.specs.Laws.{IsImageOfProgram};
ghost use Rattle.bpf_insn.specs.declared.instruction.Insn.{Insn as Instruction};
ghost use Rattle.bpf_cert.specs.View.{CertificateView};
ghost use Rattle.bpf_check.specs.Verdicts.{Verified, Promises, Certifies};
ghost use Rattle.bpf_host_calls.specs.Told.{AnswersVerdict, order_named};
ghost use Rattle.bpf_host_calls.specs.Prepared.{IsPrepared, IsMarked, IsWhole, prepared_head, prepared_length, version};
ghost use Rattle.bpf_host_calls.specs.Loaded.{handle_head, handle_length, IsLoaded, LoadsEach, IsMarkedHandle, IsWholeHandle, HoldsLoaded, EndsAsLoaded, loaded_least, loaded_most};
ghost use Rattle.bpf_host_calls.specs.Answers.{IsRefusedAsTold, IsNoImage, RanImage, RanPrepared, IsUnrun, HoldsProgram, MayRun, EndsAsPrepared};
ghost use Rattle.bpf_host_calls.specs.declared.answers.TheConstants.{YES, NO, NO_MEMORY, BAD_CALL, TOO_SMALL, TOO_LONG, BAD_LENGTH, BAD_WORDS};

use crate::answers::{
    BAD_CALL, BAD_LENGTH, BAD_WORDS, BpfOutcome, BpfRefusal, BpfVerdict, NO, NO_MEMORY, TOO_LONG,
    TOO_SMALL, YES, of_outcome, order_of, unrun,
};
use crate::checked::{end_of, end_of_image};
use crate::judged::{Given, kept, told};
use crate::loaded::{found_loaded, handle_size, takes};
use crate::prepared::{has_room, put, size_for};
use crate::runs::{outcome_of, outcome_of_prepared};
use bpf_insn::{MAX_CONTEXT, MAX_IMAGE, ProgramView};
use std::alloc::Global;

/// Version 0.3.4.
pub(crate) const VERSION: u32 = 304;

/// The library's version as one number: 10,000 times its first part, 100 times its second, and its third, together.
pub fn version() -> u32
    ensures { result ≡ version }
{
    VERSION
}

/// Whether a certificate certifies an image in a byte order, 0 little-endian or 1 big-endian.
/// - 1: yes, and `verdict` is what is promised.
/// - 0: no, and `refusal` says why.
/// - -1: memory ran out while the certificate was read.
/// - -2: the order is neither 0 nor 1.
///
/// What isn't answered stays as it was.
pub fn verify(
    alloc: Global,
    image: &[u8],
    order: u32,
    certificate: &[u8],
    verdict: &mut BpfVerdict,
    refusal: &mut BpfRefusal,
) -> i32
    ensures yes { result ≡ YES → Verified (order_named order) image.now verdict.new.least verdict.new.most verdict.new.bound }
    ensures promised { result ≡ YES → Promises (order_named order) image.now certificate.now verdict.new.least verdict.new.most verdict.new.bound }
    ensures no { result ≡ NO → IsRefusedAsTold (order_named order) image.now certificate.now refusal.new }
    ensures accepts { (c : CertificateView) → order ≤ 1 → Certifies (order_named order) image.now certificate.now c → AnswersVerdict YES c result verdict.new }
    ensures memory { result ≡ NO_MEMORY → (is : List Instruction) × IsImageOfProgram (order_named order) image.now is }
    ensures call { (result ≡ BAD_CALL) ↔ (1 < order) }
    ensures answers { (result ≡ YES) ⊎ (result ≡ NO) ⊎ (result ≡ NO_MEMORY) ⊎ (result ≡ BAD_CALL) }
    ensures verdict_kept { (result ≡ YES) ⊎ (verdict.new ≡ verdict.old) }
    ensures refusal_kept { (result ≡ NO) ⊎ (refusal.new ≡ refusal.old) }
{
    let Some(order) = order_of(u64::from(order)) else {
        return BAD_CALL;
    };
    told(
        bpf_check::verify(alloc, image, order, certificate),
        verdict,
        refusal,
    )
}

/// Runs a program that nobody verified on a context of at most 4,096 bytes, for at most `fuel` instructions, on the exact machine.
/// - 1: it ran, and `outcome` says how it ended.
/// - 0: the image is refused, and `outcome` says why.
/// - -2: the order is neither 0 nor 1.
/// - -5: the context is too long.
///
/// What isn't answered stays as it was. It takes no memory.
pub fn run(image: &[u8], order: u32, context: &[u8], fuel: u64, outcome: &mut BpfOutcome) -> i32
    ensures ran { result ≡ YES → RanImage (order_named order) image.now context.now fuel outcome.new }
    ensures refused { result ≡ NO → IsUnrun (order_named order) image.now outcome.new }
    ensures call { (result ≡ BAD_CALL) ↔ (1 < order) }
    ensures long { (result ≡ BAD_LENGTH) ↔ ((order ≤ 1) × (max_context < length context.now)) }
    ensures answers { (result ≡ YES) ⊎ (result ≡ NO) ⊎ (result ≡ BAD_CALL) ⊎ (result ≡ BAD_LENGTH) }
    ensures kept { (result ≡ YES) ⊎ (result ≡ NO) ⊎ (outcome.new ≡ outcome.old) }
{
    let Some(order) = order_of(u64::from(order)) else {
        return BAD_CALL;
    };
    if context.len() > MAX_CONTEXT {
        return BAD_LENGTH;
    }
    match ProgramView::of(image, order) {
        Ok(_program) => {
            *outcome = of_outcome(outcome_of(image, order, context, fuel));
            YES
        }
        Err(error) => {
            *outcome = unrun(error);
            NO
        }
    }
}

/// How many words of eight bytes the prepared program of an image of `image_len` bytes takes; 0 where no image is as long.
pub fn prepared_size(image_len: usize) -> usize
    ensures words { image_len ≤ 8 * max_slots → image_len % 8 ≡ 0 → 0 < image_len → 8 * result ≡ prepared_length image_len }
    ensures none { (8 * max_slots < image_len) ⊎ ((image_len ≡ 0) ⊎ (0 < image_len % 8)) → result ≡ 0 }
{
    if image_len == 0 || image_len > MAX_IMAGE || image_len % 8 != 0 {
        return 0;
    }
    size_for(image_len) / 8
}

/// Prepares the program of an image for `run_checked`, in `memory` of 8 times `prepared_size` bytes.
/// - 1: it is prepared.
/// - 0: the image is refused.
/// - -2: the order is neither 0 nor 1.
/// - -3: the memory has another size.
///
/// But for 1 the memory stays as it was. It takes no other memory.
pub fn prepare(image: &[u8], order: u32, memory: &mut [u8]) -> i32
    ensures prepared { result ≡ YES → IsPrepared (order_named order) image.now memory.new }
    ensures program { result ≡ YES → (is : List Instruction) × IsImageOfProgram (order_named order) image.now is }
    ensures refused { result ≡ NO → IsNoImage (order_named order) image.now }
    ensures call { (result ≡ BAD_CALL) ↔ (1 < order) }
    ensures small { result ≡ TOO_SMALL → ((is : List Instruction) × IsImageOfProgram (order_named order) image.now is) × (length memory.old ≢ prepared_length (length image.now)) }
    ensures size { result ≡ YES → length memory.old ≡ prepared_length (length image.now) }
    ensures answers { (result ≡ YES) ⊎ (result ≡ NO) ⊎ (result ≡ BAD_CALL) ⊎ (result ≡ TOO_SMALL) }
    ensures kept { (result ≡ YES) ⊎ (memory.new ≡ memory.old) }
{
    let Some(order) = order_of(u64::from(order)) else {
        return BAD_CALL;
    };
    let Ok(_program) = ProgramView::of(image, order) else {
        return NO;
    };
    if !has_room(memory, image.len()) {
        return TOO_SMALL;
    }
    put(image, order, memory);
    YES
}

/// Runs a prepared program that nobody verified, as `run` does, and doesn't judge its image again.
/// - 1: it ran, and `outcome` says how it ended.
/// - -5: the context is too long.
/// - -6: another version prepared it, or bytes of it aren't there.
///
/// What isn't answered stays as it was. It takes no memory.
pub fn run_prepared(memory: &[u8], context: &[u8], fuel: u64, outcome: &mut BpfOutcome) -> i32
    requires head { prepared_head ≤ length memory.now }
    requires program { IsMarked memory.now → IsWhole memory.now → HoldsProgram memory.now }
    ensures ran { result ≡ YES → RanPrepared memory.now context.now fuel outcome.new }
    ensures long { (result ≡ BAD_LENGTH) ↔ (max_context < length context.now) }
    ensures runs { (result ≡ YES) ↔ ((length context.now ≤ max_context) × (IsMarked memory.now × IsWhole memory.now)) }
    ensures answers { (result ≡ YES) ⊎ (result ≡ BAD_LENGTH) ⊎ (result ≡ BAD_WORDS) }
    ensures kept { (result ≡ YES) ⊎ (outcome.new ≡ outcome.old) }
{
    if context.len() > MAX_CONTEXT {
        return BAD_LENGTH;
    }
    let Some(end) = outcome_of_prepared(memory, context, fuel) else {
        return BAD_WORDS;
    };
    *outcome = of_outcome(end);
    YES
}

/// Runs a prepared program whose image `verify` says yes to, on a context of a length within that verdict.
/// - 1: it ended with `value`, within the bound.
/// - -6: another version prepared it, or bytes of it aren't there, and `value` stays as it was.
///
/// It takes no memory.
pub fn run_checked(memory: &[u8], context: &[u8], value: &mut u64) -> i32
    requires head { prepared_head ≤ length memory.now }
    requires may { IsMarked memory.now → IsWhole memory.now → MayRun memory.now context.now }
    ensures ends { result ≡ YES → EndsAsPrepared memory.now context.now value.new }
    ensures runs { (result ≡ YES) ↔ (IsMarked memory.now × IsWhole memory.now) }
    ensures answers { (result ≡ YES) ⊎ (result ≡ BAD_WORDS) }
    ensures kept { (result ≡ YES) ⊎ (value.new ≡ value.old) }
{
    let Some(end) = end_of(memory, context) else {
        return BAD_WORDS;
    };
    *value = end;
    YES
}

/// How many words of eight bytes the handle of an image of `image_len` bytes takes; 0 where no image is as long.
pub fn loaded_size(image_len: usize) -> usize
    ensures words { image_len ≤ 8 * max_slots → image_len % 8 ≡ 0 → 0 < image_len → 8 * result ≡ handle_length image_len }
    ensures none { (8 * max_slots < image_len) ⊎ ((image_len ≡ 0) ⊎ (0 < image_len % 8)) → result ≡ 0 }
{
    if image_len == 0 || image_len > MAX_IMAGE || image_len % 8 != 0 {
        return 0;
    }
    handle_size(image_len) / 8
}

/// What is asked of `load` beside an image and its certificate.
#[derive(Clone, Copy)]
pub struct LoadAsked {
    /// The byte order of the image, 0 little-endian or 1 big-endian.
    pub order: u32,
    /// The greatest bound that is paid for, in instructions.
    pub limit: u32,
}

/// Judges an image by a certificate, as `verify` does, and writes a handle for `run_loaded`, in `memory` of 8 times `loaded_size` bytes.
/// - 1: `memory` is the handle, and `verdict` is what is promised.
/// - 0: the image is refused, and `refusal` says why.
/// - -1: memory ran out while the certificate was read.
/// - -2: the order is neither 0 nor 1.
/// - -3: the memory has another size.
/// - -4: the bound is above the limit, and `verdict` is what is promised.
///
/// What isn't answered stays as it was, and but for 1 so does the memory.
pub fn load(
    alloc: Global,
    image: &[u8],
    asked: LoadAsked,
    certificate: &[u8],
    memory: &mut [u8],
    verdict: &mut BpfVerdict,
    refusal: &mut BpfRefusal,
) -> i32
    ensures loaded { result ≡ YES → IsLoaded (order_named asked.order) image.now verdict.new.least verdict.new.most verdict.new.bound memory.new }
    ensures yes { (result ≡ YES) ⊎ (result ≡ TOO_LONG) → Verified (order_named asked.order) image.now verdict.new.least verdict.new.most verdict.new.bound }
    ensures promised { (result ≡ YES) ⊎ (result ≡ TOO_LONG) → Promises (order_named asked.order) image.now certificate.now verdict.new.least verdict.new.most verdict.new.bound }
    ensures paid { result ≡ YES → verdict.new.bound ≤ asked.limit }
    ensures long { result ≡ TOO_LONG → asked.limit < verdict.new.bound }
    ensures no { result ≡ NO → IsRefusedAsTold (order_named asked.order) image.now certificate.now refusal.new }
    ensures accepts { LoadsEach asked.order image.now certificate.now memory.old (λ c. c.steps ≤ asked.limit) (λ c. AnswersVerdict YES c result verdict.new) }
    ensures unpaid { LoadsEach asked.order image.now certificate.now memory.old (λ c. asked.limit < c.steps) (λ c. AnswersVerdict TOO_LONG c result verdict.new) }
    ensures memory { result ≡ NO_MEMORY → (is : List Instruction) × IsImageOfProgram (order_named asked.order) image.now is }
    ensures call { (result ≡ BAD_CALL) ↔ (1 < asked.order) }
    ensures small { result ≡ TOO_SMALL → length memory.old ≢ handle_length (length image.now) }
    ensures certified { result ≡ TOO_SMALL → (c : CertificateView) × Certifies (order_named asked.order) image.now certificate.now c }
    ensures size { (result ≡ YES) ⊎ (result ≡ TOO_LONG) → length memory.old ≡ handle_length (length image.now) }
    ensures answers { (result ≡ YES) ⊎ (result ≡ NO) ⊎ (result ≡ NO_MEMORY) ⊎ (result ≡ BAD_CALL) ⊎ (result ≡ TOO_SMALL) ⊎ (result ≡ TOO_LONG) }
    ensures memory_kept { (result ≡ YES) ⊎ (memory.new ≡ memory.old) }
    ensures verdict_kept { (result ≡ YES) ⊎ (result ≡ TOO_LONG) ⊎ (verdict.new ≡ verdict.old) }
    ensures refusal_kept { (result ≡ NO) ⊎ (refusal.new ≡ refusal.old) }
{
    let Some(order) = order_of(u64::from(asked.order)) else {
        return BAD_CALL;
    };
    let given = Given {
        image,
        order,
        limit: asked.limit,
    };
    kept(
        bpf_check::verify(alloc, image, order, certificate),
        given,
        memory,
        verdict,
        refusal,
    )
}

/// Runs the program of a handle that `load` wrote.
/// - 1: it ended with `value`, within the handle's bound.
/// - -6: another version wrote it, or bytes of it aren't there.
/// - -5: the context's length is out of the handle's range.
///
/// `value` stays as it was but for 1. It takes no memory.
pub fn run_loaded(memory: &[u8], context: &[u8], value: &mut u64) -> i32
    requires head { handle_head ≤ length memory.now }
    requires holds { IsMarkedHandle memory.now → IsWholeHandle memory.now → HoldsLoaded memory.now }
    ensures ends { result ≡ YES → EndsAsLoaded memory.now context.now value.new }
    ensures words { (result ≢ BAD_WORDS) ↔ (IsMarkedHandle memory.now × IsWholeHandle memory.now) }
    ensures runs { result ≢ BAD_WORDS → ((result ≡ YES) ↔ ((loaded_least memory.now ≤ length context.now) × (length context.now ≤ loaded_most memory.now))) }
    ensures answers { (result ≡ YES) ⊎ (result ≡ BAD_LENGTH) ⊎ (result ≡ BAD_WORDS) }
    ensures kept { (result ≡ YES) ⊎ (value.new ≡ value.old) }
{
    let Some(found) = found_loaded(memory) else {
        return BAD_WORDS;
    };
    if !takes(memory, context.len()) {
        return BAD_LENGTH;
    }
    *value = end_of_image(found.image, found.opcodes, found.order, context);
    YES
}
