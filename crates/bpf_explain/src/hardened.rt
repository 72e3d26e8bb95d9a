//! A hardening, explained.

ghost use Rattle.std.specs.Prelude.{◌≡◌, ◌≤◌, IfOk, IfErr, IfSome, IfNone, IsTrue};
ghost use Rattle.bpf_insn.specs.Limits.{max_context};
ghost use Rattle.bpf_safety.specs.Certified.{IsLeastFlaw};
ghost use Rattle.bpf_check.specs.CheckedProgram.{IsCertifiedBy};
ghost use Rattle.bpf_check.specs.RefusalNumbers.{refusal_number, refusal_slot};
ghost use Rattle.bpf_kept.specs.Matching.{Notes};
ghost use Rattle.bpf_kept.specs.Shown.{Keeps};
ghost use Rattle.bpf_explain.specs.Hardened.{IsMade, IsUnhardened, runs_of};

use crate::lines::moved_lines;
use crate::refusal::{Unhardened, Unshown};
use bpf_cert::Certificate;
use bpf_certify::evidence_of;
use bpf_check::Refusal;
use bpf_explain_program::{
    Shown, refusal_of, source_at, tell_reason, tell_shown, tell_sketch, tell_sketched_dot,
};
use bpf_harden::{HardenError, Hardened, Options, harden};
use bpf_infer::{InferError, SearchStop, Watch, search_or_stop};
use bpf_insn::{Code, Program};
use bpf_kept::Bounds;
use bpf_semantics::HEAD_BYTES;
use bpf_streams::{Page, Tell};
use std::alloc::Global;
use std::io::{self, Write};

/// For which contexts and runs a program is hardened, and what is shown of what comes of it.
#[derive(Clone, Copy)]
pub struct HardeningAsked<'t> {
    /// The length of the contexts in bytes, at most 4,096.
    pub length: u32,
    /// Whether contexts are blocks.
    pub padded: bool,
    /// How often a loop that gets a counter may turn in one call of its function.
    pub turns: u32,
    pub shown: Shown<'t>,
}

/// A hardened program with its certificate.
#[derive(Drop)]
pub struct HardenedProgram {
    pub program: Program,
    pub certificate: Certificate,
    /// How many of the lowest bytes of each frame runs of the old program have to leave to r10.
    pub untouched: u32,
    /// The table of the lines of its source.
    lines: String,
}

/// The table of source lines that is shown.
fn lines_of<'t>(shown: Shown<'t>) -> &'t [u8] {
    match shown {
        Shown::Listing { lines } | Shown::Slot { lines, .. } => lines,
        Shown::Graph => &[],
    }
}

/// The runs for which it is hardened.
fn runs_of(asked: HardeningAsked<'_>, untouched: u32) -> Bounds
    ensures { result ≡ runs_of asked.entry untouched }
{
    Bounds {
        length: asked.length,
        padded: asked.padded,
        turns: u64::from(asked.turns),
        untouched,
    }
}

/// How many bytes have to be left to r10 so that the hardened program is shown to keep the meaning.
fn left_for(
    alloc: Global,
    program: &Program,
    hardened: &Hardened,
    asked: HardeningAsked<'_>,
) -> Result<u32, Unhardened>
    ensures keeps { IfOk result (λ untouched. (notes : Notes) × Keeps program.now hardened.now.program notes (runs_of asked.entry untouched)) }
    ensures err { IfErr result (IsUnhardened program.now asked.entry) }
{
    let _slots = Code::slots(program);
    let Ok(found) = evidence_of(alloc, program, hardened, runs_of(asked, 0)) else {
        return Err(Unhardened::Refused(HardenError::Memory));
    };
    match found.mismatch {
        None => Ok(found.untouched),
        Some(mismatch) => Err(Unhardened::Unshown(mismatch)),
    }
}

/// Whether a certificate is for contexts of this length.
fn is_for(certificate: &Certificate, length: u32) -> bool
    ensures least { IsTrue result → certificate.now.least ≡ length }
    ensures most { IsTrue result → certificate.now.most ≡ length }
{
    certificate.least() == length && certificate.most() == length
}

/// The hardened program with the certificate that hardening ended with, if it is shown to keep the meaning.
fn made_of(
    alloc: Global,
    program: &Program,
    asked: HardeningAsked<'_>,
) -> Result<HardenedProgram, Unhardened>
    requires { asked.length ≤ max_context }
    ensures ok { IfOk result (IsMade program.now asked.entry) }
    ensures err { IfErr result (IsUnhardened program.now asked.entry) }
{
    let _slots = Code::slots(program);
    let options = Options {
        turns: asked.turns,
        otherwise: 0,
        padded: asked.padded,
        everywhere: false,
    };
    let hardened = match harden(alloc, program, asked.length, &options) {
        Ok(hardened) => hardened,
        Err(error) => return Err(Unhardened::Refused(error)),
    };
    let untouched = match left_for(alloc, program, &hardened, asked) {
        Ok(untouched) => untouched,
        Err(why) => return Err(why),
    };
    let Hardened {
        program: new,
        certificate,
        slots,
        functions: _functions,
        notes: _notes,
    } = hardened;
    let Some(certificate) = certificate else {
        return Err(Unhardened::Refused(HardenError::NoBudget { slot: 0 }));
    };
    if !is_for(&certificate, asked.length) {
        return Err(Unhardened::Refused(HardenError::NoBudget { slot: 0 }));
    }
    let Ok(lines) = moved_lines(alloc, lines_of(asked.shown), &slots) else {
        return Err(Unhardened::Refused(HardenError::Memory));
    };
    Ok(HardenedProgram {
        program: new,
        certificate,
        untouched,
        lines,
    })
}

/// The lengths of the contexts of the old program: of blocks it is given the packets.
fn lengths_of(asked: HardeningAsked<'_>) -> (u32, u32)
    ensures order { result.0 ≤ result.1 }
    ensures short { result.1 ≤ asked.entry.length }
{
    if asked.padded {
        (0, asked.length.saturating_sub(HEAD_BYTES))
    } else {
        (asked.length, asked.length)
    }
}

/// What the deep search knows of a program that isn't hardened, and why it isn't: for want of memory, where that runs out meanwhile.
fn known_of<H: Watch>(
    alloc: Global,
    program: &Program,
    asked: HardeningAsked<'_>,
    why: Unhardened,
    watch: &mut H,
) -> (Option<Certificate>, Unhardened)
    requires short { asked.length ≤ max_context }
    requires is { IsUnhardened program.now asked why }
    ensures { IsUnhardened program.now asked.entry result.1 }
{
    let _slots = Code::slots(program);
    let (least, most) = lengths_of(asked);
    match search_or_stop(alloc, program, least, most, watch) {
        Ok(certificate) => (Some(certificate), why),
        Err(stop) => {
            let SearchStop { error, sketch } = stop;
            match error {
                InferError::Memory => (None, Unhardened::Refused(HardenError::Memory)),
                _ => (sketch.certificate, why),
            }
        }
    }
}

/// Tells why a program isn't hardened, in a sentence, and from which line of the source the instruction is, where that is known.
fn tell_why<W: Tell>(out: &mut W, why: Unhardened, lines: &[u8]) {
    write!(out, "{why}\n");
    match why {
        Unhardened::Refused(error) => write!(out, "{error}"),
        Unhardened::Unshown(mismatch) => {
            let sentence = Unshown(mismatch);
            write!(out, "{sentence}");
        }
    }
    if let Some(slot) = why.slot() {
        let text = source_at(lines, slot);
        if !text.is_empty() {
            write!(out, "; from {text}");
        }
    }
    out.say("\n");
}

/// The flaw that the checker would name, where the refusal says so.
fn flaw_of(why: Unhardened) -> Option<Refusal> {
    match why {
        Unhardened::Refused(HardenError::Fault { slot, condition }) => Some(Refusal {
            slot,
            condition: condition.of_checker(),
        }),
        _ => None,
    }
}

/// Tells what is known at the instruction for which a program isn't hardened, or at the slot that is asked for, and why it isn't; of the graph the
/// refusal alone.
fn tell_unhardened<W: Tell>(
    out: &mut W,
    program: &Program,
    known: Option<&Certificate>,
    shown: Shown<'_>,
    why: Unhardened,
) {
    let (at, lines) = match shown {
        Shown::Graph => return tell_sketched_dot(program, known, flaw_of(why), why, out),
        Shown::Listing { lines } => (why.slot(), lines),
        Shown::Slot { slot, lines } => (Some(slot), lines),
    };
    if let (Some(known), Some(slot)) = (known, at) {
        tell_sketch(program, known, Shown::Slot { slot, lines }, None, out);
    }
    tell_why(out, why, lines);
    if let (Some(known), Some(flaw)) = (known, flaw_of(why)) {
        tell_reason(program, known, lines, flaw, out);
    }
}

/// The same with the lines of the source of the hardened program.
fn shown_with<'t>(shown: Shown<'_>, lines: &'t [u8]) -> Shown<'t> {
    match shown {
        Shown::Listing { .. } => Shown::Listing { lines },
        Shown::Slot { slot, .. } => Shown::Slot { slot, lines },
        Shown::Graph => Shown::Graph,
    }
}

/// Explains a hardened program, and gives the checker's answer.
fn explain_made<W: Write>(
    out: &mut W,
    made: &HardenedProgram,
    shown: Shown<'_>,
) -> io::Result<Option<Refusal>>
    ensures accepted { IfOk result (λ o. IfNone o (IsCertifiedBy made.now.program made.now.certificate)) }
    ensures refused { IfOk result (λ o. IfSome o (λ r. IsLeastFlaw made.now.program made.now.certificate (refusal_slot r) (refusal_number r))) }
{
    let shown = shown_with(shown, made.lines.as_str().as_bytes());
    let refusal = refusal_of(&made.program, &made.certificate);
    let mut page = Page::new(out);
    tell_shown(&made.program, &made.certificate, shown, refusal, &mut page);
    page.finish()?;
    Ok(refusal)
}

/// Shows a hardened program with the certificate that hardening ended with, the checker's answer, and the lines of the old program's source. Where none comes
/// out, it shows the instruction for which it doesn't, what the deep search knows there, and in words why (H1 to H13); of a graph the number alone. H12 is all
/// that is told where memory runs out meanwhile. A slot that is asked for is one of what is shown.
///
/// The program is given back with the checker's answer, None if its certificate certifies it; or the refusal is. A fault of the writer, or a write of no bytes,
/// ends it. Who watches is told how far the deep search is.
pub fn explain_hardening<W: Write, H: Watch>(
    alloc: Global,
    program: &Program,
    asked: HardeningAsked<'_>,
    watch: &mut H,
    out: &mut W,
) -> io::Result<Result<(HardenedProgram, Option<Refusal>), Unhardened>>
    requires { asked.length ≤ max_context }
    ensures made { IfOk result (λ told. IfOk told (λ m. IsMade program.now asked.entry m.0)) }
    ensures accepted { IfOk result (λ told. IfOk told (λ m. IfNone m.1 (IsCertifiedBy m.0.program m.0.certificate))) }
    ensures refused { IfOk result (λ told. IfOk told (λ m. IfSome m.1 (λ r. IsLeastFlaw m.0.program m.0.certificate (refusal_slot r) (refusal_number r)))) }
    ensures unhardened { IfOk result (λ told. IfErr told (IsUnhardened program.now asked.entry)) }
{
    match made_of(alloc, program, asked) {
        Ok(made) => {
            let refusal = explain_made(out, &made, asked.shown)?;
            Ok(Ok((made, refusal)))
        }
        Err(why) => {
            let (known, why) = known_of(alloc, program, asked, why, watch);
            let mut page = Page::new(out);
            tell_unhardened(&mut page, program, known.as_ref(), asked.shown, why);
            page.finish()?;
            Ok(Err(why))
        }
    }
}
