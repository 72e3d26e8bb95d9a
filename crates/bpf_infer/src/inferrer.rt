//! The entry points of the inferrer: the plain search for a certificate, or the better answer of it and the deep one. Each ends with a
//! certificate, or with a refusal, I1 to I5, and its slot.

ghost use Rattle.std.specs.Prelude.{◌≡◌, ◌<◌, ◌≤◌, IfOk, IfErr};
ghost use Rattle.bpf_insn.specs.Instruction.{slots};
ghost use Rattle.bpf_insn.specs.Limits.{max_context};
ghost use Rattle.bpf_infer_base.specs.RefusalNumbers.{infer_slot};
ghost use Rattle.bpf_cert.specs.Limits.{IsCertificate};

use crate::deep::deep_proposal;
use crate::plain::plain_proposal;
use bpf_cert::Certificate;
use bpf_infer_base::{InferError, Proposal, Quest, SearchStop, Sketch, Unwatched, Watch};
use bpf_insn::{Code, Program};
use std::alloc::Global;

/// A certificate for contexts of `least` to `most` bytes is wanted, and whether `search` is to look for it.
#[derive(Clone, Copy)]
pub struct WantedCertificate {
    pub least: u32,
    pub most: u32,
    pub deep: bool,
}

/// The certificate of a proposal, where there is one. I2 at slot 0 if it is over a limit.
fn certificate_of<E: From<InferError> + Drop>(
    least: u32,
    most: u32,
    found: Result<Proposal, E>,
) -> Result<Certificate, E>
    ensures version { IfOk result (λ c. c.version ≡ 2) }
    ensures least { IfOk result (λ c. c.least ≡ least) }
    ensures most { IfOk result (λ c. c.most ≡ most) }
    ensures certificate { IfOk result (λ c. IsCertificate c) }
{
    match found {
        Ok(found) => match Certificate::new(2, least, most, found.steps, found.functions) {
            Ok(certificate) => Ok(certificate),
            Err(_) => Err(E::from(InferError::NoBudget { slot: 0 })),
        },
        Err(refused) => Err(refused),
    }
}

/// Proposes a certificate of version 2 for a program on contexts of `least` to `most` bytes, at most 4,096. I1 if a
/// function's states aren't stable after 64 rounds, or a limit of the search is passed, at its first slot; I2 if a loop has
/// no counter or a label is over a limit, at the label; I3 at the lowest call of a recursion; I4 at an instruction that the checker would refuse, with
/// the condition that fails, C3 to C12; I5 if memory runs out.
pub fn infer(
    alloc: Global,
    program: &Program,
    least: u32,
    most: u32,
) -> Result<Certificate, InferError>
    requires order { least ≤ most }
    requires short { most ≤ max_context }
    ensures version { IfOk result (λ c. c.version ≡ 2) }
    ensures least { IfOk result (λ c. c.least ≡ least) }
    ensures most { IfOk result (λ c. c.most ≡ most) }
    ensures certificate { IfOk result (λ c. IsCertificate c) }
    ensures slot { IfErr result (λ e. infer_slot e < slots program.now.list) }
{
    let quest = Quest {
        program,
        least,
        most,
    };
    let found = plain_proposal(alloc, quest, &mut Unwatched);
    match certificate_of(least, most, found) {
        Ok(certificate) => Ok(certificate),
        Err(error) => Err(error.within(Code::slots(program))),
    }
}

/// The better certificate of the plain search, whose answer is given, and of the deep one. Without any, what the deep one had when it
/// stopped.
fn beside_deep<W: Watch>(
    alloc: Global,
    quest: Quest<'_>,
    plain: Result<Proposal, InferError>,
    watch: &mut W,
) -> Result<Certificate, SearchStop>
    requires order { quest.least ≤ quest.most }
    requires short { quest.most ≤ max_context }
    ensures version { IfOk result (λ c. c.version ≡ 2) }
    ensures least { IfOk result (λ c. c.least ≡ quest.entry.least) }
    ensures most { IfOk result (λ c. c.most ≡ quest.entry.most) }
    ensures certificate { IfOk result (λ c. IsCertificate c) }
    ensures slot { IfErr result (λ s. infer_slot s.error < slots quest.entry.program.now.list) }
{
    let Quest {
        program,
        least,
        most,
    } = quest;
    let deep = deep_proposal(alloc, quest, watch);
    watch.end();
    let plain = certificate_of(least, most, plain);
    match certificate_of(least, most, deep) {
        Ok(deep) => match plain {
            Ok(plain) if plain.steps() < deep.steps() => Ok(plain),
            _ => Ok(deep),
        },
        Err(stop) => match plain {
            Ok(plain) => Ok(plain),
            Err(_) => Err(SearchStop {
                error: stop.error.within(Code::slots(program)),
                sketch: stop.sketch,
            }),
        },
    }
}

/// As `search`; where it finds no certificate, with what the deep search had when it stopped: the states at its labels, and
/// what was in the way. I5 alone where memory runs out for the plain one, whose answer might have been another.
pub fn search_or_stop<W: Watch>(
    alloc: Global,
    program: &Program,
    least: u32,
    most: u32,
    watch: &mut W,
) -> Result<Certificate, SearchStop>
    requires order { least ≤ most }
    requires short { most ≤ max_context }
    ensures version { IfOk result (λ c. c.version ≡ 2) }
    ensures least { IfOk result (λ c. c.least ≡ least) }
    ensures most { IfOk result (λ c. c.most ≡ most) }
    ensures certificate { IfOk result (λ c. IsCertificate c) }
    ensures slot { IfErr result (λ s. infer_slot s.error < slots program.now.list) }
{
    let quest = Quest {
        program,
        least,
        most,
    };
    let plain = plain_proposal(alloc, quest, watch);
    if matches!(&plain, Err(InferError::Memory)) {
        watch.end();
        return Err(SearchStop {
            error: InferError::Memory.within(Code::slots(program)),
            sketch: Sketch::nothing(),
        });
    }
    beside_deep(alloc, quest, plain, watch)
}

/// Proposes a certificate of version 2 for a program on contexts of `least` to `most` bytes, at most 4,096: nested loops,
/// code that nothing reaches and counters that change their places may have one. Where `infer` has a lower bound, it is
/// that one. I1 if states that were found aren't stable, at the first slot of their function; I2 at the lowest label of
/// the loops that nothing counts, or at a label over a limit; I3 at the lowest call of a recursion; I4 at an instruction
/// that the checker would refuse, with the condition that fails, C3 to C12; I5 if memory runs out. Who watches is told how
/// far it is.
pub fn search<W: Watch>(
    alloc: Global,
    program: &Program,
    least: u32,
    most: u32,
    watch: &mut W,
) -> Result<Certificate, InferError>
    requires order { least ≤ most }
    requires short { most ≤ max_context }
    ensures version { IfOk result (λ c. c.version ≡ 2) }
    ensures least { IfOk result (λ c. c.least ≡ least) }
    ensures most { IfOk result (λ c. c.most ≡ most) }
    ensures certificate { IfOk result (λ c. IsCertificate c) }
    ensures slot { IfErr result (λ e. infer_slot e < slots program.now.list) }
{
    match search_or_stop(alloc, program, least, most, watch) {
        Ok(certificate) => Ok(certificate),
        Err(stop) => Err(stop.error),
    }
}

/// What `search` proposes where the search is to be deep, else what `infer` does, with the same refusals.
pub fn propose<W: Watch>(
    alloc: Global,
    program: &Program,
    wanted: WantedCertificate,
    watch: &mut W,
) -> Result<Certificate, InferError>
    requires order { wanted.least ≤ wanted.most }
    requires short { wanted.most ≤ max_context }
    ensures version { IfOk result (λ c. c.version ≡ 2) }
    ensures least { IfOk result (λ c. c.least ≡ wanted.least) }
    ensures most { IfOk result (λ c. c.most ≡ wanted.most) }
    ensures certificate { IfOk result (λ c. IsCertificate c) }
    ensures slot { IfErr result (λ e. infer_slot e < slots program.now.list) }
{
    let WantedCertificate { least, most, deep } = wanted;
    if deep {
        search(alloc, program, least, most, watch)
    } else {
        infer(alloc, program, least, most)
    }
}
