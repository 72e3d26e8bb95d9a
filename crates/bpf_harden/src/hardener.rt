//! Hardened programs: what comes out as it is, and what goes through rounds.

ghost use Rattle.std.specs.Prelude.{◌<◌, ◌≤◌, IfOk, IfErr};
ghost use Rattle.bpf_insn.specs.Instruction.{slots};
ghost use Rattle.bpf_insn.specs.Limits.{max_context};
ghost use Rattle.bpf_infer_base.specs.HardenNumbers.{harden_slot};

use crate::judge::{LoopVerdict, verdict_of};
use crate::old::Old;
use crate::plan::Plan;
use crate::rounds::{certified, guard_all, guarded_everywhere};
use bpf_cert::Certificate;
use bpf_infer::infer;
use bpf_infer_base::{
    DEEP_WORK, HardenError, Hardened, Meter, Options, Quest, Task, Unwatched, Watch,
};
use bpf_insn::{Code, Program};
use std::alloc::{AllocError, Global};

/// The same program once more.
fn copy_of(alloc: Global, program: &Program) -> Result<Program, HardenError> {
    let insn_at = |slot| program.at(slot).copied();
    let list = (0..Code::slots(program))
        .filter_map(insn_at)
        .collect(alloc)?;
    Program::new(alloc, list, program.order()).map_err(|_error| HardenError::Memory)
}

/// By slots, where an instruction begins.
fn slots_of(alloc: Global, program: &Program) -> Result<Vec<Option<u32>>, AllocError> {
    let begins_at = |slot| program.at(slot).map(|_insn| slot);
    (0..program.slots()).map(begins_at).collect(alloc)
}

/// A program that comes out as it is.
fn unchanged(
    alloc: Global,
    program: &Program,
    certificate: Certificate,
) -> Result<Hardened, HardenError> {
    Ok(Hardened {
        program: copy_of(alloc, program)?,
        certificate: Some(certificate),
        slots: slots_of(alloc, program)?,
        functions: Vec::new(alloc),
        notes: Vec::new(alloc),
    })
}

/// How much of a program of so many slots may be gone over, in slots, in all rounds together.
pub fn work_for(slots: u32) -> u64 {
    u64::from(slots)
        .saturating_mul(500)
        .saturating_add(DEEP_WORK)
}

/// What the deep search finds for a program as it stands; the states that it found are taken.
fn found_for<W: Watch>(
    alloc: Global,
    quest: Quest<'_>,
    old: &mut Old,
    meter: &mut Meter<'_, W>,
) -> Result<Option<Certificate>, HardenError>
    requires { quest.least ≤ quest.most }
{
    let draft = old.survey.draft.take();
    match verdict_of(Task::whole(alloc, quest, &old.cfg), draft, meter)? {
        LoopVerdict::Yes(certificate) => Ok(Some(certificate)),
        LoopVerdict::Faults | LoopVerdict::Uncounted(_) | LoopVerdict::TooGreat => Ok(None),
    }
}

/// The lengths that the old program is given: of a block the packet's.
pub fn lengths(length: u32, options: &Options) -> Result<(u32, u32), HardenError>
    ensures { IfOk result (λ lengths. lengths.0 ≤ lengths.1) }
{
    if !options.padded {
        return Ok((length, length));
    }
    match length.checked_sub(options.head()) {
        Some(most) => Ok((0, most)),
        None => Err(HardenError::ShortBlock),
    }
}

/// What hardening answers. A program comes out unchanged if a certificate is found for it as it stands; else a plan is
/// made, and mended in rounds. Programs for blocks always get a plan, and so do those whose guards are forced.
fn hardened(
    alloc: Global,
    program: &Program,
    length: u32,
    options: &Options,
) -> Result<Hardened, HardenError>
    requires { length ≤ max_context }
{
    let is_asked = options.padded || options.everywhere;
    if !is_asked {
        if let Ok(certificate) = infer(alloc, program, length, length) {
            return unchanged(alloc, program, certificate);
        }
    }
    let (least, most) = lengths(length, options)?;
    let quest = Quest {
        program,
        least,
        most,
    };
    let mut unwatched = Unwatched;
    let mut meter = Meter::new(&mut unwatched, DEEP_WORK);
    let mut old = Old::of(alloc, quest, &mut meter)?;
    if !is_asked {
        if let Some(certificate) = found_for(alloc, quest, &mut old, &mut meter)? {
            return unchanged(alloc, program, certificate);
        }
    }
    let mut plan = Plan::new(alloc, *options, length, program.slots(), old.count())?;
    if options.padded {
        // Nothing that the checker knows keeps an access below the packet's length.
        guard_all(&old, &mut plan);
    }
    if options.everywhere {
        return guarded_everywhere(alloc, &old, plan);
    }
    let mut unseen = Unwatched;
    let mut rounds = Meter::new(&mut unseen, work_for(program.slots()));
    certified(alloc, &old, plan, &mut rounds)
}

/// A program that is made to do what the old one does, and has a certificate for contexts of `length` bytes, at most 4,096: on
/// every context on which the old one ends with a number, and its loops turn no more often than is allowed, the new one should end
/// with that number, which the checker of notes judges; where an access of the old one would leave its region, the new
/// one goes to a trap. Unless contexts are blocks, one that has a certificate as it stands comes out unchanged. H1 to H12 where
/// none is found.
pub fn harden(
    alloc: Global,
    program: &Program,
    length: u32,
    options: &Options,
) -> Result<Hardened, HardenError>
    requires { length ≤ max_context }
    ensures slot { IfErr result (λ e. harden_slot e < slots program.now.list) }
{
    match hardened(alloc, program, length, options) {
        Ok(hardened) => Ok(hardened),
        Err(error) => Err(error.within(Code::slots(program))),
    }
}
