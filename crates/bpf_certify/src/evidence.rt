//! Whether notes show that a hardened program keeps the meaning of the old one on plain addresses.

ghost use Rattle.std.specs.Prelude.{◌≡◌, ◌≤◌, IfOk, IfSome, MatchOption, Some};
ghost use Rattle.bpf_insn.specs.Limits.{frame_bytes};
ghost use Rattle.bpf_check.specs.CheckedProgram.{IsCertifiedBy};
ghost use Rattle.bpf_kept.specs.declared.mismatch.Mismatch.TheVariants.{Length};
ghost use Rattle.bpf_certify.specs.Evidence.{IsEvidence, IsUncertified, leaving};

use crate::finder::notes_of;
use bpf_cert::Certificate;
use bpf_check::check;
use bpf_follows::follows;
use bpf_infer_base::Hardened;
use bpf_insn::Program;
use bpf_kept::{Bounds, Mismatch, Note};
use std::alloc::{AllocError, Global};

/// Notes of a hardened program, and what of them fails, if something does.
#[derive(Drop)]
pub struct Evidence {
    pub notes: Vec<Option<Note>>,
    /// How many of the lowest bytes of each frame runs of the old program have to leave to r10.
    pub untouched: u32,
    pub mismatch: Option<Mismatch>,
}

/// The certificate that hardening found, if it certifies the new program.
fn certificate_of(new: &Hardened) -> Option<&Certificate>
    ensures { MatchOption result (IsUncertified new.now.program new.now.certificate) (λ c. (new.now.certificate ≡ Some c.now) × IsCertifiedBy new.now.program c.now) }
{
    let Some(certificate) = &new.certificate else {
        return None;
    };
    match check(&new.program, certificate) {
        Ok(_checked) => Some(certificate),
        Err(_refusal) => None,
    }
}

/// No notes, where nothing certifies the new program.
fn uncertified(alloc: Global, runs: Bounds) -> Evidence
    ensures of { result.untouched ≡ runs.untouched }
    ensures mismatch { result.mismatch ≡ Some Length }
{
    Evidence {
        notes: Vec::new(alloc),
        untouched: runs.untouched,
        mismatch: Some(Mismatch::Length),
    }
}

/// Notes of a hardened program for just these runs beside a certificate that certifies it, and what of them fails, if something does.
fn evidence_beside(
    alloc: Global,
    old: &Program,
    new: &Hardened,
    certificate: &Certificate,
    runs: Bounds,
) -> Result<Evidence, AllocError>
    requires { IsCertifiedBy new.now.program certificate.now }
    ensures of { IfOk result (λ found. found.untouched ≡ runs.untouched) }
    ensures exact { IfOk result (λ found. IsEvidence old.now new.now.program (Some certificate.now) found.notes.items runs found.mismatch) }
{
    let notes = notes_of(alloc, old, new, certificate, runs)?;
    let mismatch = follows(old, &new.program, &notes, certificate, runs).err();
    Ok(Evidence {
        notes,
        untouched: runs.untouched,
        mismatch,
    })
}

/// Notes of a hardened program for just these runs, and what of them fails, if something does. They stand beside the certificate that hardening found.
pub fn evidence_for(
    alloc: Global,
    old: &Program,
    new: &Hardened,
    runs: Bounds,
) -> Result<Evidence, AllocError>
    ensures of { IfOk result (λ found. found.untouched ≡ runs.untouched) }
    ensures exact { IfOk result (λ found. IsEvidence old.now new.now.program new.now.certificate found.notes.items runs found.mismatch) }
{
    match certificate_of(new) {
        Some(certificate) => evidence_beside(alloc, old, new, certificate, runs),
        None => Ok(uncertified(alloc, runs)),
    }
}

/// Notes of a hardened program for these contexts and turns. They are for each run if such ones show that it keeps the meaning. Else they are for those that
/// leave the bytes alone that hardening takes, if these show it. Where neither do, they are of the first kind.
pub fn evidence_of(
    alloc: Global,
    old: &Program,
    new: &Hardened,
    runs: Bounds,
) -> Result<Evidence, AllocError>
    ensures few { IfOk result (λ found. found.untouched ≤ frame_bytes) }
    ensures all { IfOk result (λ found. IfSome found.mismatch (λ _. found.untouched ≡ 0)) }
    ensures exact { IfOk result (λ found. IsEvidence old.now new.now.program new.now.certificate found.notes.items (leaving runs found.untouched) found.mismatch) }
{
    let each = Bounds {
        untouched: 0,
        ..runs
    };
    let Some(certificate) = certificate_of(new) else {
        return Ok(uncertified(alloc, each));
    };
    let found = evidence_beside(alloc, old, new, certificate, each)?;
    let untouched = new.taken();
    if found.mismatch.is_none() || untouched == 0 {
        return Ok(found);
    }
    let other = evidence_beside(alloc, old, new, certificate, Bounds { untouched, ..runs })?;
    match other.mismatch {
        None => Ok(other),
        Some(_mismatch) => Ok(found),
    }
}
