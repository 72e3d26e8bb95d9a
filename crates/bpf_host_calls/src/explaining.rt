//! The calls that explain.

ghost use Rattle.std.specs.Prelude.{◌≡◌, ◌⊎◌, ◌↔◌, ◌<◌, Some, None, length};
ghost use Rattle.bpf_host_calls.specs.Told.{order_named};
ghost use Rattle.bpf_host_calls.specs.Answers.{IsRefusedAsTold};
ghost use Rattle.bpf_host_calls.specs.Explained.{IsNoRange, IsSomeImage, IsRefusedImage, IsCertifiedBySome, IsFound, IsNotFound, GivesWords};
ghost use Rattle.bpf_host_calls.specs.declared.explanation.HowJudged.TheVariants.{Accepted, Refused};
ghost use Rattle.bpf_host_calls.specs.declared.answers.TheConstants.{YES, NO, NO_MEMORY, BAD_CALL, TOO_SMALL};

use crate::answers::{BAD_CALL, BpfRefusal, NO, NO_MEMORY, YES, order_of};
use crate::explanation::{Given, HowJudged, checked, read_alone, searched, shown_of};
use crate::host_advice_asked::{ExplainAsked, RangeAsked};
use crate::outputs::give;
use bpf_explain::CertificateSearch;
use bpf_infer::WantedCertificate;
use bpf_insn::MAX_CONTEXT;
use std::alloc::Global;

/// Gives the words of an explanation where there is room for them, and says how the image was judged; None where memory ran out.
fn answer(
    judged: Option<HowJudged>,
    words: &[u8],
    text: &mut [u8],
    wanted: &mut usize,
    refusal: &mut BpfRefusal,
) -> i32
    ensures yes { result ≡ YES → judged ≡ Some Accepted }
    ensures no { result ≡ NO → judged ≡ Some (Refused refusal.new) }
    ensures memory { (result ≡ NO_MEMORY) ↔ (judged ≡ None) }
    ensures given { (result ≡ YES) ⊎ (result ≡ NO) → GivesWords wanted.new text.old text.new }
    ensures small { result ≡ TOO_SMALL → length text.old < wanted.new }
    ensures answers { (result ≡ YES) ⊎ (result ≡ NO) ⊎ (result ≡ NO_MEMORY) ⊎ (result ≡ TOO_SMALL) }
    ensures text_kept { (result ≡ YES) ⊎ (result ≡ NO) ⊎ (text.new ≡ text.old) }
    ensures wanted_kept { (result ≡ YES) ⊎ (result ≡ NO) ⊎ (result ≡ TOO_SMALL) ⊎ (wanted.new ≡ wanted.old) }
    ensures refusal_kept { (result ≡ NO) ⊎ (refusal.new ≡ refusal.old) }
{
    let Some(judged) = judged else {
        return NO_MEMORY;
    };
    let given = give(words, text, wanted);
    if given != YES {
        return given;
    }
    match judged {
        HowJudged::Accepted => YES,
        HowJudged::Refused(told) => {
            *refusal = told;
            NO
        }
    }
}

/// Explains an image with a certificate. The words are those of `bpf explain IN CERT`, and stand in the first `wanted` bytes of `text`. What is shown is 0 the
/// listing, 1 the instruction at `slot`, 2 the graph. `lines` is the table of the source's lines, and may be empty.
/// - 1: the certificate certifies the image.
/// - 0: it doesn't, and `refusal` says why.
/// - -1: memory ran out.
/// - -2: the order is neither 0 nor 1, there is no aspect `shown`, or `lines` isn't such a table.
/// - -3: `text` has less than `wanted` bytes.
///
/// What isn't answered stays as it was.
pub fn explain(
    alloc: Global,
    image: &[u8],
    certificate: &[u8],
    asked: ExplainAsked<'_>,
    text: &mut [u8],
    wanted: &mut usize,
    refusal: &mut BpfRefusal,
) -> i32
    ensures yes { result ≡ YES → IsCertifiedBySome (order_named asked.entry.order) image.now certificate.now }
    ensures no { result ≡ NO → IsRefusedAsTold (order_named asked.entry.order) image.now certificate.now refusal.new }
    ensures given { (result ≡ YES) ⊎ (result ≡ NO) → GivesWords wanted.new text.old text.new }
    ensures small { result ≡ TOO_SMALL → length text.old < wanted.new }
    ensures bad { (1 < asked.entry.order) ⊎ (2 < asked.entry.shown) → result ≡ BAD_CALL }
    ensures call { result ≡ BAD_CALL → (1 < asked.entry.order) ⊎ ((2 < asked.entry.shown) ⊎ (0 < length asked.entry.lines.now)) }
    ensures answers { (result ≡ YES) ⊎ (result ≡ NO) ⊎ (result ≡ NO_MEMORY) ⊎ (result ≡ BAD_CALL) ⊎ (result ≡ TOO_SMALL) }
    ensures text_kept { (result ≡ YES) ⊎ (result ≡ NO) ⊎ (text.new ≡ text.old) }
    ensures wanted_kept { (result ≡ YES) ⊎ (result ≡ NO) ⊎ (result ≡ TOO_SMALL) ⊎ (wanted.new ≡ wanted.old) }
    ensures refusal_kept { (result ≡ NO) ⊎ (refusal.new ≡ refusal.old) }
{
    let Some(order) = order_of(u64::from(asked.order)) else {
        return BAD_CALL;
    };
    let Some(shown) = shown_of(asked.shown, asked.slot, asked.lines) else {
        return BAD_CALL;
    };
    let mut words = Vec::new(alloc);
    let judged = checked(
        alloc,
        &mut words,
        Given { image, order },
        certificate,
        shown,
    );
    answer(judged, &words, text, wanted, refusal)
}

/// Explains what a search finds for an image on contexts of `least` to `most` bytes, the deep one where `deep` is 1. The words are those of
/// `bpf explain IN --infer`. What is shown is as of `explain`.
/// - 1: it finds a certificate which certifies the image.
/// - 0: it doesn't, and `refusal` says why, by E, I or C.
/// - -1: memory ran out.
/// - -2: as of `explain`; or `least` is above `most`, `most` above 4,096, or `deep` neither 0 nor 1.
/// - -3: `text` has less than `wanted` bytes.
///
/// What isn't answered stays as it was.
pub fn explain_search(
    alloc: Global,
    image: &[u8],
    range: RangeAsked,
    asked: ExplainAsked<'_>,
    text: &mut [u8],
    wanted: &mut usize,
    refusal: &mut BpfRefusal,
) -> i32
    ensures yes { result ≡ YES → IsFound (order_named asked.entry.order) image.now range.least range.most }
    ensures no { result ≡ NO → IsNotFound (order_named asked.entry.order) image.now range.least range.most refusal.new }
    ensures given { (result ≡ YES) ⊎ (result ≡ NO) → GivesWords wanted.new text.old text.new }
    ensures small { result ≡ TOO_SMALL → length text.old < wanted.new }
    ensures bad { (1 < asked.entry.order) ⊎ IsNoRange range (2 < asked.entry.shown) → result ≡ BAD_CALL }
    ensures call { result ≡ BAD_CALL → (1 < asked.entry.order) ⊎ IsNoRange range ((2 < asked.entry.shown) ⊎ (0 < length asked.entry.lines.now)) }
    ensures answers { (result ≡ YES) ⊎ (result ≡ NO) ⊎ (result ≡ NO_MEMORY) ⊎ (result ≡ BAD_CALL) ⊎ (result ≡ TOO_SMALL) }
    ensures text_kept { (result ≡ YES) ⊎ (result ≡ NO) ⊎ (text.new ≡ text.old) }
    ensures wanted_kept { (result ≡ YES) ⊎ (result ≡ NO) ⊎ (result ≡ TOO_SMALL) ⊎ (wanted.new ≡ wanted.old) }
    ensures refusal_kept { (result ≡ NO) ⊎ (refusal.new ≡ refusal.old) }
{
    let Some(order) = order_of(u64::from(asked.order)) else {
        return BAD_CALL;
    };
    if range.least > range.most || range.most > MAX_CONTEXT as u32 || range.deep > 1 {
        return BAD_CALL;
    }
    let Some(shown) = shown_of(asked.shown, asked.slot, asked.lines) else {
        return BAD_CALL;
    };
    let search = CertificateSearch {
        wanted: WantedCertificate {
            least: range.least,
            most: range.most,
            deep: range.deep == 1,
        },
        shown,
    };
    let mut words = Vec::new(alloc);
    let judged = searched(alloc, &mut words, Given { image, order }, search);
    answer(judged, &words, text, wanted, refusal)
}

/// Explains an image by itself, in the words of `bpf explain IN`, or draws the graph of its program where `graph` is 1.
/// - 1: it is an image.
/// - 0: the bytes are none, and `refusal` says why.
/// - -1: memory ran out.
/// - -2: the order or `graph` is neither 0 nor 1.
/// - -3: `text` has less than `wanted` bytes.
///
/// What isn't answered stays as it was.
pub fn explain_image(
    alloc: Global,
    image: &[u8],
    order: u32,
    graph: u32,
    text: &mut [u8],
    wanted: &mut usize,
    refusal: &mut BpfRefusal,
) -> i32
    ensures yes { result ≡ YES → IsSomeImage (order_named order) image.now }
    ensures no { result ≡ NO → IsRefusedImage (order_named order) image.now refusal.new }
    ensures given { (result ≡ YES) ⊎ (result ≡ NO) → GivesWords wanted.new text.old text.new }
    ensures small { result ≡ TOO_SMALL → length text.old < wanted.new }
    ensures call { (result ≡ BAD_CALL) ↔ ((1 < order) ⊎ (1 < graph)) }
    ensures answers { (result ≡ YES) ⊎ (result ≡ NO) ⊎ (result ≡ NO_MEMORY) ⊎ (result ≡ BAD_CALL) ⊎ (result ≡ TOO_SMALL) }
    ensures text_kept { (result ≡ YES) ⊎ (result ≡ NO) ⊎ (text.new ≡ text.old) }
    ensures wanted_kept { (result ≡ YES) ⊎ (result ≡ NO) ⊎ (result ≡ TOO_SMALL) ⊎ (wanted.new ≡ wanted.old) }
    ensures refusal_kept { (result ≡ NO) ⊎ (refusal.new ≡ refusal.old) }
{
    let Some(order) = order_of(u64::from(order)) else {
        return BAD_CALL;
    };
    if graph > 1 {
        return BAD_CALL;
    }
    let mut words = Vec::new(alloc);
    let judged = read_alone(&mut words, Given { image, order }, graph == 1);
    answer(judged, &words, text, wanted, refusal)
}
