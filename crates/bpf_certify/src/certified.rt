//! Certified programs: searches propose and rewrite, and then `check` and the checker of notes judge what came out.

ghost use Rattle.std.specs.Prelude.{◌≡◌, ◌<◌, ◌≤◌, ◌↔◌, ◌⊎◌, ℕ, false, Some, IsTrue, IfOk, IfErr, IfSome};
ghost use Rattle.bpf_insn.specs.Instruction.{slots};
ghost use Rattle.bpf_insn.specs.Limits.{frame_bytes, max_context};
ghost use Rattle.bpf_kept.specs.Mismatches.{mismatch_slot};
ghost use Rattle.bpf_kept.specs.declared.mismatch.Mismatch.TheVariants.{Start};
ghost use Rattle.bpf_certify.specs.Evidence.{Shows, leaving};
ghost use Rattle.bpf_infer_base.specs.declared.harden_error.HardenError.TheVariants.{Memory, NoBudget};
ghost use Rattle.bpf_certify.specs.Certified.{Answers, AreWished, IsPaid, IsRefused, IsUnjudged, IsUnpaid, certify_slot, told_turns};
ghost use Rattle.bpf_certify.specs.declared.error.CertifyError.TheVariants.{Unhardened};

use crate::error::CertifyError;
use crate::evidence::{Evidence, evidence_of};
use crate::wish::Wish;
use bpf_cert::Certificate;
use bpf_check::check;
use bpf_harden::{Fitted, HardenError, Hardened, Options, Unfit, fit};
use bpf_infer::{InferError, search};
use bpf_infer_base::Unwatched;
use bpf_insn::{Code, Order, Program};
use bpf_kept::{Bounds, Mismatch, Note, Turns, turns_shown};
use std::alloc::Global;

/// A program in the place of the one that was given, and what is shown of it.
#[derive(Drop)]
pub struct Rewritten {
    /// The new program, and what was done. Its certificate stands beside it.
    pub hardened: Hardened,
    /// How often a loop that has a counter may turn in one call of its function.
    pub turns: u32,
    /// How many of the lowest bytes of each frame runs of the old program have to leave to r10.
    pub untouched: u32,
    /// Whether it is shown that the new program keeps the meaning of the old one, on runs within both.
    pub is_shown: bool,
    /// What of the notes fails where they don't show it, if that was looked at.
    pub mismatch: Option<Mismatch>,
    /// The notes by which it is shown, beside the certificate. Empty where nothing was to be shown and none were wanted.
    pub notes: Vec<Option<Note>>,
}

impl Rewritten {
    /// Of how many turns it is told: where it is shown and no note has a counter, of any number.
    pub fn told(&self) -> Turns
        ensures { result ≡ told_turns self.now }
    {
        if self.is_shown {
            turns_shown(&self.notes, u64::from(self.turns))
        } else {
            Turns::Most(u64::from(self.turns))
        }
    }
}

/// A certificate within a bound, and what it certifies.
#[derive(Drop)]
pub struct Certified {
    /// The new program; None where the one that was given has the certificate as it stands.
    pub rewritten: Option<Rewritten>,
    pub certificate: Certificate,
    /// The greatest number of instructions that a run takes.
    pub bound: u32,
}

/// A certificate that was checked, and its bound.
#[derive(Drop)]
struct Paid {
    certificate: Certificate,
    bound: u32,
}

/// What is shown of a hardened program.
#[derive(Drop)]
struct ShownMeaning {
    untouched: u32,
    is_shown: bool,
    mismatch: Option<Mismatch>,
    notes: Vec<Option<Note>>,
}

/// The refusal where there is no certificate for a whole program.
fn unfound() -> CertifyError
    ensures { result ≡ Unhardened (NoBudget 0) }
{
    CertifyError::Unhardened(HardenError::NoBudget { slot: 0 })
}

/// A certificate with its bound, if one was found, for contexts of this length; the bound is at most so much; and it certifies the program.
fn within_bound(
    program: &Program,
    found: Option<Certificate>,
    length: u32,
    turns: u32,
    most: u32,
) -> Result<Paid, CertifyError>
    ensures ok { IfOk result (λ p. IsPaid program.now p.certificate length most p.bound) }
    ensures is_found { IfOk result (λ p. found ≡ Some p.certificate) }
    ensures err { IfErr result (IsUnpaid program.now turns most) }
{
    let Some(certificate) = found else {
        return Err(unfound());
    };
    if certificate.least() != length || certificate.most() != length {
        return Err(unfound());
    }
    let bound = certificate.steps();
    if bound > most {
        return Err(CertifyError::TooDear { turns, bound });
    }
    match check(program, &certificate) {
        Ok(_checked) => {}
        Err(refusal) => return Err(CertifyError::Uncertified(refusal)),
    }
    Ok(Paid { certificate, bound })
}

/// Memory ran out.
fn no_memory() -> CertifyError
    ensures { result ≡ Unhardened Memory }
{
    CertifyError::Unhardened(HardenError::Memory)
}

/// The certificate of a program as it stands, if the deep search finds one within the bound.
fn as_it_stands(
    alloc: Global,
    program: &Program,
    length: u32,
    wish: Wish,
) -> Result<Option<Paid>, CertifyError>
    requires { length ≤ max_context }
    ensures ok { IfOk result (λ found. IfSome found (λ p. (wish.padded ≡ false) × IsPaid program.now p.certificate length wish.bound p.bound)) }
    ensures err { IfErr result (λ e. e ≡ Unhardened Memory) }
{
    if wish.padded {
        // Of a block the program is given the packet, and not what its certificate speaks of.
        return Ok(None);
    }
    match search(alloc, program, length, length, &mut Unwatched) {
        Ok(certificate) => {
            let found = within_bound(program, Some(certificate), length, 0, wish.bound);
            Ok(found.ok())
        }
        Err(InferError::Memory) => Err(no_memory()),
        Err(_) => Ok(None),
    }
}

/// Nothing is shown, and nothing was looked at.
fn unseen(alloc: Global) -> ShownMeaning
    ensures few { result.untouched ≡ 0 }
    ensures unshown { result.is_shown ≡ false }
{
    ShownMeaning {
        untouched: 0,
        is_shown: false,
        mismatch: None,
        notes: Vec::new(alloc),
    }
}

/// What was found, as it is told.
fn seen(found: Evidence, is_shown: bool) -> ShownMeaning
    ensures untouched { result.untouched ≡ found.untouched }
    ensures shown { result.is_shown ≡ is_shown }
    ensures notes { result.notes.items ≡ found.notes.items }
{
    ShownMeaning {
        untouched: found.untouched,
        is_shown,
        mismatch: found.mismatch,
        notes: found.notes,
    }
}

/// Whether two byte orders are the same.
fn same_order(a: Order, b: Order) -> bool
    ensures { IsTrue result ↔ (a ≡ b) }
{
    a == b
}

/// A mismatch with a slot of a program of so many slots. Of notes in front of a slot behind it, it is told that the start fails, as it does without them.
fn within(mismatch: Mismatch, slots: u32) -> Mismatch
    requires { 0 < slots }
    ensures inside { mismatch_slot result < slots }
    ensures told { (result ≡ mismatch) ⊎ ((result ≡ Start) × (slots ≤ mismatch_slot mismatch)) }
{
    if mismatch.slot() < slots {
        mismatch
    } else {
        Mismatch::Start
    }
}

/// What is shown of a hardened program: that it keeps the meaning of the old one. Else it is refused, but where what isn't proved is wanted, too.
fn judged(
    alloc: Global,
    old: &Program,
    new: &Hardened,
    runs: Bounds,
    wish: Wish,
) -> Result<ShownMeaning, CertifyError>
    ensures few { IfOk result (λ s. s.untouched ≤ frame_bytes) }
    ensures shows { IfOk result (λ s. IsTrue s.is_shown → Shows old.now new.now.program new.now.certificate s.notes.items (leaving runs s.untouched)) }
    ensures all { wish.unproved ≡ false → IfOk result (λ s. IsTrue s.is_shown) }
    ensures err { IfErr result (IsUnjudged old.now new.now.program new.now.certificate runs) }
{
    if wish.unproved && !wish.notes {
        return Ok(unseen(alloc));
    }
    let Ok(found) = evidence_of(alloc, old, new, runs) else {
        return Err(no_memory());
    };
    match found.mismatch {
        None => Ok(seen(found, true)),
        Some(_) if wish.unproved => Ok(seen(found, false)),
        Some(mismatch) => {
            let mismatch = within(mismatch, Code::slots(old));
            Err(CertifyError::Unshown(mismatch))
        }
    }
}

/// The turns that are wished, or those that were found.
fn turns_of(wish: Wish, found: u32) -> u32
    ensures { AreWished wish result }
{
    wish.turns.unwrap_or(found)
}

/// Why a program isn't hardened for the wish.
fn refusal_of(unfit: Unfit, program: &Program, wish: Wish) -> CertifyError
    ensures { (length : ℕ) → IsRefused program.now length wish result }
{
    let slots = Code::slots(program);
    match unfit {
        Unfit::Refused(error) => CertifyError::Unhardened(error.within(slots)),
        Unfit::TooDear { turns, bound } if bound > wish.bound => {
            let turns = turns_of(wish, turns);
            CertifyError::TooDear { turns, bound }
        }
        Unfit::TooDear { .. } => unfound(),
    }
}

/// The program hardened for the wish, which isn't judged yet.
fn hardened(
    alloc: Global,
    program: &Program,
    length: u32,
    wish: Wish,
) -> Result<Fitted, CertifyError>
    requires { length ≤ max_context }
    ensures ok { IfOk result (λ fitted. AreWished wish fitted.turns) }
    ensures err { IfErr result (IsRefused program.now length wish) }
{
    let options = Options {
        turns: 0,
        otherwise: wish.otherwise,
        padded: wish.padded,
        everywhere: false,
    };
    match fit(alloc, program, length, &options, wish.bound, wish.turns) {
        Ok(Fitted { hardened, turns }) => Ok(Fitted {
            hardened,
            turns: turns_of(wish, turns),
        }),
        Err(unfit) => Err(refusal_of(unfit, program, wish)),
    }
}

/// A hardened program and its certificate, which is no longer in what was done.
fn taken(hardened: Hardened) -> (Hardened, Option<Certificate>)
    ensures program { result.0.program ≡ hardened.program }
    ensures certificate { result.1 ≡ hardened.certificate }
{
    let Hardened {
        program,
        certificate,
        slots,
        functions,
        notes,
    } = hardened;
    let rest = Hardened {
        program,
        certificate: None,
        slots,
        functions,
        notes,
    };
    (rest, certificate)
}

/// A program that was hardened for the wish, judged.
fn as_fitted(
    alloc: Global,
    program: &Program,
    fitted: Fitted,
    length: u32,
    wish: Wish,
) -> Result<Certified, CertifyError>
    requires { AreWished wish fitted.turns }
    ensures ok { IfOk result (Answers program.now length wish) }
    ensures shown { wish.unproved ≡ false → IfOk result (λ c. IfSome c.rewritten (λ r. IsTrue r.is_shown)) }
    ensures err { IfErr result (IsRefused program.now length wish) }
{
    let _slots = Code::slots(program);
    let Fitted { hardened, turns } = fitted;
    let runs = Bounds {
        length,
        padded: wish.padded,
        turns: u64::from(turns),
        untouched: 0,
    };
    let shown = judged(alloc, program, &hardened, runs, wish)?;
    let (hardened, found) = taken(hardened);
    let Paid { certificate, bound } = within_bound(
        &hardened.program,
        found,
        length,
        turns,
        wish.bound,
    )?;
    if !same_order(hardened.program.order(), program.order()) {
        return Err(CertifyError::Unshown(Mismatch::Order));
    }
    Ok(Certified {
        rewritten: Some(Rewritten {
            hardened,
            turns,
            untouched: shown.untouched,
            is_shown: shown.is_shown,
            mismatch: shown.mismatch,
            notes: shown.notes,
        }),
        certificate,
        bound,
    })
}

/// A program hardened for the wish, judged.
fn as_hardened(
    alloc: Global,
    program: &Program,
    length: u32,
    wish: Wish,
) -> Result<Certified, CertifyError>
    requires { length ≤ max_context }
    ensures ok { IfOk result (Answers program.now length wish) }
    ensures shown { wish.unproved ≡ false → IfOk result (λ c. IfSome c.rewritten (λ r. IsTrue r.is_shown)) }
    ensures err { IfErr result (IsRefused program.now length wish) }
{
    let fitted = hardened(alloc, program, length, wish)?;
    as_fitted(alloc, program, fitted, length, wish)
}

/// A certificate for contexts of `length` bytes, at most 4,096, whose bound is within the wish. It is one of the program as it stands where the deep search
/// finds one. Else it is one of the program hardened, for the turns that are wished, or for the greatest number that is found to stay within the bound.
/// What comes out was checked. A hardened program is shown to keep the meaning, for the turns and the bytes that are told, unless what isn't proved is wanted,
/// too. Blocks are given to hardened programs alone.
///
/// H1 to H12: the program isn't hardened. H13: what comes of it isn't shown to keep the meaning. H14: its bound is too great with the turns that are wished, or
/// with one. H15: the checker refuses what the search proposed.
pub fn certify(
    alloc: Global,
    program: &Program,
    length: u32,
    wish: Wish,
) -> Result<Certified, CertifyError>
    requires { length ≤ max_context }
    ensures ok { IfOk result (Answers program.now length wish) }
    ensures shown { wish.unproved ≡ false → IfOk result (λ c. IfSome c.rewritten (λ r. IsTrue r.is_shown)) }
    ensures err { IfErr result (IsRefused program.now length wish) }
    ensures slot { IfErr result (λ e. certify_slot e < slots program.now.list) }
{
    let _slots = Code::slots(program);
    match as_it_stands(alloc, program, length, wish)? {
        Some(Paid { certificate, bound }) => Ok(Certified {
            rewritten: None,
            certificate,
            bound,
        }),
        None => as_hardened(alloc, program, length, wish),
    }
}
