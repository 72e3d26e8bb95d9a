//! The library's interface for hosts in C and in Rust: the calls that `include/bpf.h` declares, which hands over no pointer that is null. Each is one
//! call of `bpf_host_calls`, and promises what that one does.
#![tactic(auto)]

ghost use Rattle.std.specs.Prelude.{◌≡◌, ◌≢◌, ◌==◌, ◌++◌, ◌⊎◌, ◌↔◌, ◌<◌, ◌≤◌, ◌+◌, ◌*◌, ◌%◌, List, length, take, drop};
ghost use Rattle.bpf_insn.specs.Limits.{max_context, max_slots};
ghost use Rattle.bpf_insn.specs.Laws.{IsImageOfProgram};
ghost use Rattle.bpf_insn.specs.declared.instruction.Insn.{Insn as Instruction};
ghost use Rattle.bpf_cert.specs.View.{CertificateView};
ghost use Rattle.bpf_check.specs.Verdicts.{Verified, Promises, Certifies};
ghost use Rattle.bpf_host_calls.specs.Told.{AnswersVerdict, order_named};
ghost use Rattle.bpf_host_calls.specs.Prepared.{IsPrepared, IsMarked, IsWhole, prepared_head, prepared_length, version};
ghost use Rattle.bpf_host_calls.specs.Loaded.{handle_head, handle_length, IsLoaded, LoadsEach, IsMarkedHandle, IsWholeHandle, HoldsLoaded, EndsAsLoaded, loaded_least, loaded_most};
ghost use Rattle.bpf_host_calls.specs.Answers.{IsRefusedAsTold, IsNoImage, RanImage, RanPrepared, IsUnrun, HoldsProgram, MayRun, EndsAsPrepared};
ghost use Rattle.bpf_host_calls.specs.Explained.{IsSomeImage};
ghost use Rattle.bpf_host_calls.specs.Sizes.{infer_size, explain_size};
ghost use Rattle.bpf_host_calls.specs.Texts.{refusal_text, answer_text, IsNumbered};
ghost use Rattle.bpf_host_calls.specs.Proposals.{GivesProposal, WantsRoom, IsNotProposed};
ghost use Rattle.bpf_host_calls.specs.Hardened.{bounds_asked, IsBadHarden, GivesHardened, WantsHardenedRoom, IsNotHardened};
ghost use Rattle.bpf_host_calls.specs.Followed.{IsFollowed, IsNotFollowed};
ghost use Rattle.bpf_host_calls.specs.declared.answers.TheConstants.{YES, NO, NO_MEMORY, BAD_CALL, TOO_SMALL, TOO_LONG, BAD_LENGTH, BAD_WORDS};

mod certifying;
mod converting;
mod explaining;
mod trapping;

use bpf_host_calls::{
    BpfFollowing, BpfOutcome, BpfRefusal, BpfVerdict, FollowAsked, HardenAsked, LoadAsked,
    RangeAsked,
};
pub use certifying::bpf_host_certify;
pub use converting::{bpf_host_convert, bpf_host_convert_size};
pub use explaining::{bpf_host_explain, bpf_host_explain_image, bpf_host_explain_search};
use std::alloc::Global;
pub use trapping::bpf_host_ends_at_trap;

/// `version` of `bpf_host_calls`, for C.
#[unsafe(no_mangle)]
pub extern "C" fn bpf_host_version() -> u32
    ensures { result ≡ version }
{
    bpf_host_calls::version()
}

/// `verify` of `bpf_host_calls`, for C.
#[unsafe(no_mangle)]
pub extern "C" fn bpf_host_verify(
    alloc: Global,
    image: &[u8],
    order: u32,
    certificate: &[u8],
    verdict: &mut BpfVerdict,
    refusal: &mut BpfRefusal,
) -> i32
    ensures yes { result ≡ YES → Verified (order_named order) image.now verdict.new.least verdict.new.most verdict.new.bound }
    ensures promised { result ≡ YES → Promises (order_named order) image.now certificate.now verdict.new.least verdict.new.most verdict.new.bound }
    ensures no { result ≡ NO → IsRefusedAsTold (order_named order) image.now certificate.now refusal.new }
    ensures accepts { (c : CertificateView) → order ≤ 1 → Certifies (order_named order) image.now certificate.now c → AnswersVerdict YES c result verdict.new }
    ensures memory { result ≡ NO_MEMORY → (is : List Instruction) × IsImageOfProgram (order_named order) image.now is }
    ensures call { (result ≡ BAD_CALL) ↔ (1 < order) }
    ensures answers { (result ≡ YES) ⊎ (result ≡ NO) ⊎ (result ≡ NO_MEMORY) ⊎ (result ≡ BAD_CALL) }
    ensures verdict_kept { (result ≡ YES) ⊎ (verdict.new ≡ verdict.old) }
    ensures refusal_kept { (result ≡ NO) ⊎ (refusal.new ≡ refusal.old) }
{
    bpf_host_calls::verify(alloc, image, order, certificate, verdict, refusal)
}

/// `run` of `bpf_host_calls`, for C.
#[unsafe(no_mangle)]
pub extern "C" fn bpf_host_run(
    image: &[u8],
    order: u32,
    context: &[u8],
    fuel: u64,
    outcome: &mut BpfOutcome,
) -> i32
    ensures ran { result ≡ YES → RanImage (order_named order) image.now context.now fuel outcome.new }
    ensures refused { result ≡ NO → IsUnrun (order_named order) image.now outcome.new }
    ensures call { (result ≡ BAD_CALL) ↔ (1 < order) }
    ensures long { (result ≡ BAD_LENGTH) ↔ ((order ≤ 1) × (max_context < length context.now)) }
    ensures answers { (result ≡ YES) ⊎ (result ≡ NO) ⊎ (result ≡ BAD_CALL) ⊎ (result ≡ BAD_LENGTH) }
    ensures kept { (result ≡ YES) ⊎ (result ≡ NO) ⊎ (outcome.new ≡ outcome.old) }
{
    bpf_host_calls::run(image, order, context, fuel, outcome)
}

/// `prepared_size` of `bpf_host_calls`, for C.
#[unsafe(no_mangle)]
pub extern "C" fn bpf_host_prepared_size(image_len: usize) -> usize
    ensures words { image_len ≤ 8 * max_slots → image_len % 8 ≡ 0 → 0 < image_len → 8 * result ≡ prepared_length image_len }
    ensures none { (8 * max_slots < image_len) ⊎ ((image_len ≡ 0) ⊎ (0 < image_len % 8)) → result ≡ 0 }
{
    bpf_host_calls::prepared_size(image_len)
}

/// `prepare` of `bpf_host_calls`, for C.
#[unsafe(no_mangle)]
pub extern "C" fn bpf_host_prepare(image: &[u8], order: u32, memory: &mut [u8]) -> i32
    ensures prepared { result ≡ YES → IsPrepared (order_named order) image.now memory.new }
    ensures program { result ≡ YES → (is : List Instruction) × IsImageOfProgram (order_named order) image.now is }
    ensures refused { result ≡ NO → IsNoImage (order_named order) image.now }
    ensures call { (result ≡ BAD_CALL) ↔ (1 < order) }
    ensures small { result ≡ TOO_SMALL → ((is : List Instruction) × IsImageOfProgram (order_named order) image.now is) × (length memory.old ≢ prepared_length (length image.now)) }
    ensures size { result ≡ YES → length memory.old ≡ prepared_length (length image.now) }
    ensures answers { (result ≡ YES) ⊎ (result ≡ NO) ⊎ (result ≡ BAD_CALL) ⊎ (result ≡ TOO_SMALL) }
    ensures kept { (result ≡ YES) ⊎ (memory.new ≡ memory.old) }
{
    bpf_host_calls::prepare(image, order, memory)
}

/// `run_checked` of `bpf_host_calls`, for C.
#[unsafe(no_mangle)]
pub extern "C" fn bpf_host_run_checked(memory: &[u8], context: &[u8], value: &mut u64) -> i32
    requires head { prepared_head ≤ length memory.now }
    requires may { IsMarked memory.now → IsWhole memory.now → MayRun memory.now context.now }
    ensures ends { result ≡ YES → EndsAsPrepared memory.now context.now value.new }
    ensures runs { (result ≡ YES) ↔ (IsMarked memory.now × IsWhole memory.now) }
    ensures answers { (result ≡ YES) ⊎ (result ≡ BAD_WORDS) }
    ensures kept { (result ≡ YES) ⊎ (value.new ≡ value.old) }
{
    bpf_host_calls::run_checked(memory, context, value)
}

/// `run_prepared` of `bpf_host_calls`, for C.
#[unsafe(no_mangle)]
pub extern "C" fn bpf_host_run_prepared(
    memory: &[u8],
    context: &[u8],
    fuel: u64,
    outcome: &mut BpfOutcome,
) -> i32
    requires head { prepared_head ≤ length memory.now }
    requires program { IsMarked memory.now → IsWhole memory.now → HoldsProgram memory.now }
    ensures ran { result ≡ YES → RanPrepared memory.now context.now fuel outcome.new }
    ensures long { (result ≡ BAD_LENGTH) ↔ (max_context < length context.now) }
    ensures runs { (result ≡ YES) ↔ ((length context.now ≤ max_context) × (IsMarked memory.now × IsWhole memory.now)) }
    ensures answers { (result ≡ YES) ⊎ (result ≡ BAD_LENGTH) ⊎ (result ≡ BAD_WORDS) }
    ensures kept { (result ≡ YES) ⊎ (outcome.new ≡ outcome.old) }
{
    bpf_host_calls::run_prepared(memory, context, fuel, outcome)
}

/// `loaded_size` of `bpf_host_calls`, for C.
#[unsafe(no_mangle)]
pub extern "C" fn bpf_host_loaded_size(image_len: usize) -> usize
    ensures words { image_len ≤ 8 * max_slots → image_len % 8 ≡ 0 → 0 < image_len → 8 * result ≡ handle_length image_len }
    ensures none { (8 * max_slots < image_len) ⊎ ((image_len ≡ 0) ⊎ (0 < image_len % 8)) → result ≡ 0 }
{
    bpf_host_calls::loaded_size(image_len)
}

/// `load` of `bpf_host_calls`, for C.
#[unsafe(no_mangle)]
pub extern "C" fn bpf_host_load(
    alloc: Global,
    image: &[u8],
    order: u32,
    certificate: &[u8],
    limit: u32,
    memory: &mut [u8],
    verdict: &mut BpfVerdict,
    refusal: &mut BpfRefusal,
) -> i32
    ensures loaded { result ≡ YES → IsLoaded (order_named order) image.now verdict.new.least verdict.new.most verdict.new.bound memory.new }
    ensures yes { (result ≡ YES) ⊎ (result ≡ TOO_LONG) → Verified (order_named order) image.now verdict.new.least verdict.new.most verdict.new.bound }
    ensures promised { (result ≡ YES) ⊎ (result ≡ TOO_LONG) → Promises (order_named order) image.now certificate.now verdict.new.least verdict.new.most verdict.new.bound }
    ensures paid { result ≡ YES → verdict.new.bound ≤ limit }
    ensures long { result ≡ TOO_LONG → limit < verdict.new.bound }
    ensures no { result ≡ NO → IsRefusedAsTold (order_named order) image.now certificate.now refusal.new }
    ensures accepts { LoadsEach order image.now certificate.now memory.old (λ c. c.steps ≤ limit) (λ c. AnswersVerdict YES c result verdict.new) }
    ensures unpaid { LoadsEach order image.now certificate.now memory.old (λ c. limit < c.steps) (λ c. AnswersVerdict TOO_LONG c result verdict.new) }
    ensures memory { result ≡ NO_MEMORY → (is : List Instruction) × IsImageOfProgram (order_named order) image.now is }
    ensures call { (result ≡ BAD_CALL) ↔ (1 < order) }
    ensures small { result ≡ TOO_SMALL → length memory.old ≢ handle_length (length image.now) }
    ensures certified { result ≡ TOO_SMALL → (c : CertificateView) × Certifies (order_named order) image.now certificate.now c }
    ensures size { (result ≡ YES) ⊎ (result ≡ TOO_LONG) → length memory.old ≡ handle_length (length image.now) }
    ensures answers { (result ≡ YES) ⊎ (result ≡ NO) ⊎ (result ≡ NO_MEMORY) ⊎ (result ≡ BAD_CALL) ⊎ (result ≡ TOO_SMALL) ⊎ (result ≡ TOO_LONG) }
    ensures memory_kept { (result ≡ YES) ⊎ (memory.new ≡ memory.old) }
    ensures verdict_kept { (result ≡ YES) ⊎ (result ≡ TOO_LONG) ⊎ (verdict.new ≡ verdict.old) }
    ensures refusal_kept { (result ≡ NO) ⊎ (refusal.new ≡ refusal.old) }
{
    let asked = LoadAsked { order, limit };
    bpf_host_calls::load(alloc, image, asked, certificate, memory, verdict, refusal)
}

/// `run_loaded` of `bpf_host_calls`, for C.
#[unsafe(no_mangle)]
pub extern "C" fn bpf_host_run_loaded(memory: &[u8], context: &[u8], value: &mut u64) -> i32
    requires head { handle_head ≤ length memory.now }
    requires holds { IsMarkedHandle memory.now → IsWholeHandle memory.now → HoldsLoaded memory.now }
    ensures ends { result ≡ YES → EndsAsLoaded memory.now context.now value.new }
    ensures words { (result ≢ BAD_WORDS) ↔ (IsMarkedHandle memory.now × IsWholeHandle memory.now) }
    ensures runs { result ≢ BAD_WORDS → ((result ≡ YES) ↔ ((loaded_least memory.now ≤ length context.now) × (length context.now ≤ loaded_most memory.now))) }
    ensures answers { (result ≡ YES) ⊎ (result ≡ BAD_LENGTH) ⊎ (result ≡ BAD_WORDS) }
    ensures kept { (result ≡ YES) ⊎ (value.new ≡ value.old) }
{
    bpf_host_calls::run_loaded(memory, context, value)
}

/// `infer_size` of `bpf_host_calls`, for C.
#[unsafe(no_mangle)]
pub extern "C" fn bpf_host_infer_size(image_len: usize) -> usize
    ensures { result ≡ infer_size image_len }
{
    bpf_host_calls::infer_size(image_len)
}

/// `explain_size` of `bpf_host_calls`, for C.
#[unsafe(no_mangle)]
pub extern "C" fn bpf_host_explain_size(
    image_len: usize,
    certificate_len: usize,
    lines_len: usize,
) -> usize
    ensures { result ≡ explain_size image_len certificate_len lines_len }
{
    bpf_host_calls::explain_size(image_len, certificate_len, lines_len)
}

/// `infer` of `bpf_host_calls`, for C.
#[unsafe(no_mangle)]
pub extern "C" fn bpf_host_infer(
    alloc: Global,
    image: &[u8],
    order: u32,
    least: u32,
    most: u32,
    deep: u32,
    text: &mut [u8],
    wanted: &mut usize,
    refusal: &mut BpfRefusal,
) -> i32
    ensures given { result ≡ YES → GivesProposal least most wanted.new text.old text.new }
    ensures small { result ≡ TOO_SMALL → WantsRoom least most wanted.new text.old }
    ensures image { (result ≡ YES) ⊎ (result ≡ TOO_SMALL) → IsSomeImage (order_named order) image.now }
    ensures refused { result ≡ NO → IsNotProposed (order_named order) image.now refusal.new }
    ensures call { (result ≡ BAD_CALL) ↔ ((1 < order) ⊎ ((most < least) ⊎ ((max_context < most) ⊎ (1 < deep)))) }
    ensures answers { (result ≡ YES) ⊎ (result ≡ NO) ⊎ (result ≡ NO_MEMORY) ⊎ (result ≡ BAD_CALL) ⊎ (result ≡ TOO_SMALL) }
    ensures text_kept { (result ≡ YES) ⊎ (text.new ≡ text.old) }
    ensures wanted_kept { (result ≡ YES) ⊎ (result ≡ TOO_SMALL) ⊎ (wanted.new ≡ wanted.old) }
    ensures refusal_kept { (result ≡ NO) ⊎ (refusal.new ≡ refusal.old) }
{
    let range = RangeAsked { least, most, deep };
    bpf_host_calls::infer(alloc, image, order, range, text, wanted, refusal)
}

/// `harden` of `bpf_host_calls`, for C.
#[unsafe(no_mangle)]
pub extern "C" fn bpf_host_harden(
    alloc: Global,
    image: &[u8],
    order: u32,
    asked: &HardenAsked,
    text: &mut [u8],
    wanted: &mut usize,
    refusal: &mut BpfRefusal,
) -> i32
    ensures given { result ≡ YES → GivesHardened (order_named order) image.now (bounds_asked asked.now) (asked.now.unproved == 1) wanted.new text.old text.new }
    ensures small { result ≡ TOO_SMALL → WantsHardenedRoom (order_named order) image.now (bounds_asked asked.now) (asked.now.unproved == 1) wanted.new text.old }
    ensures refused { result ≡ NO → IsNotHardened (order_named order) image.now (bounds_asked asked.now) (asked.now.unproved == 1) refusal.new }
    ensures call { (result ≡ BAD_CALL) ↔ IsBadHarden order asked.now }
    ensures answers { (result ≡ YES) ⊎ (result ≡ NO) ⊎ (result ≡ NO_MEMORY) ⊎ (result ≡ BAD_CALL) ⊎ (result ≡ TOO_SMALL) }
    ensures text_kept { (result ≡ YES) ⊎ (text.new ≡ text.old) }
    ensures wanted_kept { (result ≡ YES) ⊎ (result ≡ TOO_SMALL) ⊎ (wanted.new ≡ wanted.old) }
    ensures refusal_kept { (result ≡ NO) ⊎ (refusal.new ≡ refusal.old) }
{
    bpf_host_calls::harden(alloc, image, order, *asked, text, wanted, refusal)
}

/// `follows` of `bpf_host_calls`, for C.
#[unsafe(no_mangle)]
pub extern "C" fn bpf_host_follows(
    alloc: Global,
    old: &[u8],
    new: &[u8],
    order: u32,
    notes: &[u8],
    certificate: &[u8],
    following: &mut BpfFollowing,
    refusal: &mut BpfRefusal,
) -> i32
    ensures yes { result ≡ YES → IsFollowed (order_named order) old.now new.now notes.now certificate.now following.new }
    ensures no { result ≡ NO → IsNotFollowed (order_named order) old.now new.now notes.now certificate.now refusal.new }
    ensures call { (result ≡ BAD_CALL) ↔ (1 < order) }
    ensures answers { (result ≡ YES) ⊎ (result ≡ NO) ⊎ (result ≡ NO_MEMORY) ⊎ (result ≡ BAD_CALL) }
    ensures following_kept { (result ≡ YES) ⊎ (following.new ≡ following.old) }
    ensures refusal_kept { (result ≡ NO) ⊎ (refusal.new ≡ refusal.old) }
{
    let asked = FollowAsked {
        old,
        new,
        order,
        notes,
        certificate,
    };
    bpf_host_calls::follows(alloc, asked, following, refusal)
}

/// `refusal_text` of `bpf_host_calls`, for C.
#[unsafe(no_mangle)]
pub extern "C" fn bpf_host_refusal_text(kind: u32, number: u32, text: &mut [u8]) -> usize
    ensures numbered { (0 < result) ↔ IsNumbered kind number }
    ensures length { result ≡ length (refusal_text kind number) }
    ensures given { text.new ≡ take (length text.old) (refusal_text kind number) ++ drop result text.old }
{
    bpf_host_calls::refusal_text(kind, number, text)
}

/// `answer_text` of `bpf_host_calls`, for C.
#[unsafe(no_mangle)]
pub extern "C" fn bpf_host_answer_text(answer: i32, text: &mut [u8]) -> usize
    ensures length { result ≡ length (answer_text answer) }
    ensures given { text.new ≡ take (length text.old) (answer_text answer) ++ drop result text.old }
{
    bpf_host_calls::answer_text(answer, text)
}
