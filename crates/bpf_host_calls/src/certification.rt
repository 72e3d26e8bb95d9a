//! Images certified, as they stand or hardened.

ghost use Rattle.std.specs.Prelude.{◌≡◌, ◌≤◌, IfOk, IfErr, IfSome};
ghost use Rattle.bpf_insn.specs.Limits.{max_context};
ghost use Rattle.bpf_host_calls.specs.Certified.{IsCertifiedAs, IsImageMade, IsNotCertified, TellsMade, short_turns, wish_of};
ghost use Rattle.bpf_host_calls.specs.ToldAdvice.{IsTold};

use crate::answers::refusal_of;
use crate::explanation::Given;
use crate::outputs::{ImageWithText, image_of, text_of};
use crate::refusals::{Unmade, of_certifying};
use bpf_certify::{Certified, Turns, Wish, certify};
use bpf_insn::{DecodeError, decode};
use std::alloc::Global;

/// What is asked of a certification, as C sees it.
#[repr(C)]
#[derive(Clone, Copy)]
pub struct BpfWish {
    /// The greatest bound that is paid for, in instructions.
    pub bound: u32,
    /// How often a loop that gets a counter may turn in one call of its function. 0 for as often as is found to stay within the bound.
    pub turns: u32,
    /// r0 where a trap ends the program.
    pub otherwise: u64,
    /// 1 where contexts are blocks, else 0.
    pub padded: u32,
    /// 1 where a hardened image is wanted that isn't shown to keep the meaning, too; else 0.
    pub unproved: u32,
}

/// What was certified, as C sees it.
#[repr(C)]
#[derive(Clone, Copy)]
pub struct BpfCertified {
    /// How many bytes the image has.
    pub image_len: usize,
    /// How many bytes the certificate's text has.
    pub certificate_len: usize,
    /// The greatest number of instructions that a run takes.
    pub bound: u32,
    /// How often a loop that has a counter may turn in one call of its function; `u32::MAX` where it is shown of each run, however often it turns; 0
    /// where nothing was rewritten.
    pub turns: u32,
    /// How many of the lowest bytes of each frame runs of the old program have to leave to r10.
    pub untouched: u32,
    /// 0: the image is the one that was given. 1: it is hardened.
    pub is_rewritten: u32,
    /// 1: it keeps the meaning of the one that was given, on runs within both. 0: that isn't shown.
    pub is_shown: u32,
}

/// An image and its certificate, and what is told of them.
#[derive(Drop)]
pub(crate) struct MadeWithin {
    pub(crate) both: ImageWithText,
    pub(crate) told: BpfCertified,
}

/// How an image is certified.
fn wish_of(wish: BpfWish) -> Wish
    ensures { result ≡ wish_of wish }
{
    Wish {
        bound: wish.bound,
        turns: if wish.turns == 0 {
            None
        } else {
            Some(wish.turns)
        },
        otherwise: wish.otherwise,
        padded: wish.padded == 1,
        unproved: wish.unproved == 1,
        notes: false,
    }
}

/// Of how many turns, as C sees it: `u32::MAX` for any number.
fn short_turns(turns: Turns) -> u32
    ensures { result ≡ short_turns turns }
{
    match turns {
        Turns::Any => u32::MAX,
        Turns::Most(most) => most.min(u64::from(u32::MAX - 1)) as u32,
    }
}

/// What is told of what was certified, where the image and the text have so many bytes.
fn told_of(certified: &Certified, image_len: usize, certificate_len: usize) -> BpfCertified
    ensures image { result.image_len ≡ image_len }
    ensures certificate { result.certificate_len ≡ certificate_len }
    ensures bound { result.bound ≡ certified.now.bound }
    ensures made { TellsMade certified.now.rewritten result }
{
    let (turns, untouched, is_rewritten, is_shown) = match &certified.rewritten {
        None => (0, 0, 0, 1),
        Some(made) => (
            short_turns(made.told()),
            made.untouched,
            1,
            u32::from(made.is_shown),
        ),
    };
    BpfCertified {
        image_len,
        certificate_len,
        bound: certified.bound,
        turns,
        untouched,
        is_rewritten,
        is_shown,
    }
}

/// The image that was certified; None where memory ran out.
fn made_of(alloc: Global, image: &[u8], certified: &Certified) -> Option<Vec<u8>>
    ensures { IfSome result (λ bytes. IsImageMade image.now certified.now.rewritten bytes.items) }
{
    match &certified.rewritten {
        None => image.to_vec(alloc).ok(),
        Some(made) => image_of(alloc, &made.hardened.program),
    }
}

/// The image and the certificate of what the program of an image becomes.
pub(crate) fn certification(
    alloc: Global,
    given: Given<'_>,
    size: u32,
    wish: BpfWish,
) -> Result<MadeWithin, Unmade>
    requires { size ≤ max_context }
    ensures ok { IfOk result (λ made. IsCertifiedAs given.entry.order given.entry.image.now size wish made.told made.both.image.items made.both.text.items) }
    ensures err { IfErr result (IsTold (IsNotCertified given.entry.order given.entry.image.now size wish)) }
{
    let program = match decode(alloc, given.image, given.order) {
        Ok(program) => program,
        Err(DecodeError::Memory) => return Err(Unmade::Memory),
        Err(error) => return Err(Unmade::Refused(refusal_of(&error))),
    };
    let certified = match of_certifying(certify(alloc, &program, size, wish_of(wish))) {
        Ok(certified) => certified,
        Err(unmade) => return Err(unmade),
    };
    let Some(image) = made_of(alloc, given.image, &certified) else {
        return Err(Unmade::Memory);
    };
    let Some(text) = text_of(alloc, &certified.certificate) else {
        return Err(Unmade::Memory);
    };
    let told = told_of(&certified, image.len(), text.len());
    Ok(MadeWithin {
        both: ImageWithText { image, text },
        told,
    })
}
