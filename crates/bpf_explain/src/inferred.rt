//! The inferrer's own work, explained.

ghost use Rattle.std.specs.Prelude.{◌≡◌, ◌⊎◌, ◌≤◌, ◌<◌, IfOk, IfErr, IfSome, IfNone, IsErrAnd, Ok};
ghost use Rattle.bpf_insn.specs.Limits.{max_context};
ghost use Rattle.bpf_insn.specs.Instruction.{slots};
ghost use Rattle.bpf_cert.specs.Limits.{IsCertificate};
ghost use Rattle.bpf_safety.specs.Certified.{IsLeastFlaw};
ghost use Rattle.bpf_check.specs.CheckedProgram.{IsCertifiedBy};
ghost use Rattle.bpf_check.specs.RefusalNumbers.{refusal_number, refusal_slot};
ghost use Rattle.bpf_infer_base.specs.RefusalNumbers.{infer_slot};
ghost use Rattle.bpf_infer_base.specs.declared.error.InferError.TheVariants.{Memory};

use crate::obstacles::{write_no_budget, write_obstacle};
use bpf_cert::Certificate;
use bpf_check::{Refusal, jump_target};
use bpf_explain_program::{
    Shown, SpelledInsn, refusal_of, source_at, tell_reason, tell_shown, tell_sketch,
    tell_sketched_dot, tell_unreached,
};
use bpf_infer::{
    ForeseenCondition, InferError, Obstacle, Quest, SearchStop, Sketch, WantedCertificate, Watch,
    infer, search_or_stop, sketch_of,
};
use bpf_insn::{Code, Insn, MAX_SLOTS, Program};
use bpf_streams::{Page, Tell};
use std::alloc::Global;
use std::fmt;
use std::io::{self, Write};

/// Which search is explained.
#[derive(Clone, Copy)]
enum Effort {
    Plain,
    Deep,
}

/// `no certificate: I2 at slot 3`
#[derive(Clone, Copy)]
struct Refused(InferError);

impl fmt::Display for Refused {
    fn fmt<W: fmt::Write>(&self, f: &mut fmt::Formatter<W>) -> fmt::Result {
        let (number, slot) = (self.0.number(), self.0.slot());
        match self.0 {
            InferError::Fault { condition, .. } => {
                let failed = condition.number();
                write!(f, "no certificate: I{number} (C{failed}) at slot {slot}")
            }
            InferError::Memory => {
                let text = self.0.text();
                write!(f, "no certificate: I{number}, {text}")
            }
            _ => write!(f, "no certificate: I{number} at slot {slot}"),
        }
    }
}

/// `slot 12 is from filter.c:20 while (left)`, where a loop has no counter and its line is known.
fn write_source<W: Tell>(out: &mut W, lines: &[u8], error: InferError) {
    let InferError::NoBudget { slot } = error else {
        return;
    };
    let text = source_at(lines, slot);
    if !text.is_empty() {
        write!(out, "slot {slot} is from {text}\n");
    }
}

/// I3: a call is part of a recursion.
fn write_recursion<W: Tell>(out: &mut W, program: &Program, slot: u32) {
    match program.insn(slot) {
        Some(Insn::CallLocal { off: -1 }) => out.say(
            "`call -1` calls itself: mostly a call of another object's function that was never linked\n",
        ),
        Some(insn) => {
            let text = SpelledInsn(insn);
            write!(
                out,
                "`{text}` leads back to the function it stands in: recursion can't be certified\n"
            );
        }
        None => {}
    }
}

/// Tells that the states of a function don't settle.
fn write_unsettled<W: Tell>(out: &mut W, slot: u32, effort: Effort) {
    let fault = match effort {
        Effort::Plain => "still changes after 64 rounds",
        Effort::Deep => "doesn't settle",
    };
    write!(
        out,
        "what is known in the function at slot {slot} {fault}\n"
    );
}

/// Tells why there is no budget, where nothing more is known than whether there are states: before there are, a search is
/// refused for its calls.
fn write_unbudgeted<W: Tell>(out: &mut W, slot: u32, has_states: bool) {
    if has_states {
        write_no_budget(out, slot);
    } else {
        out.say("functions call one another more than 8 deep, or there are more than 256\n");
    }
}

/// Tells the reason of a refusal of which no obstacle is known.
fn write_bare<W: Tell>(out: &mut W, program: &Program, stop: &SearchStop, effort: Effort) {
    match stop.error {
        InferError::Unstable { slot } => write_unsettled(out, slot, effort),
        InferError::NoBudget { slot } => {
            write_unbudgeted(out, slot, stop.sketch.certificate.is_some());
        }
        InferError::Recursion { slot } => write_recursion(out, program, slot),
        InferError::Fault { slot, condition } => match condition {
            ForeseenCondition::State(_) => {}
            ForeseenCondition::FallsOff => tell_unreached(program, out),
            ForeseenCondition::LeavesFunction => write!(
                out,
                "slot {slot} jumps out of its function, or goes on into the next one\n"
            ),
        },
        InferError::Memory => {}
    }
}

/// Whether an obstacle of the deep search says nothing: at its labels only what is read is known.
fn is_hollow(error: InferError, obstacle: &Obstacle, effort: Effort) -> bool {
    match (error, obstacle, effort) {
        (InferError::NoBudget { .. }, Obstacle::NoCounter(trials), Effort::Deep) => {
            trials.is_empty()
        }
        _ => false,
    }
}

/// Tells the reason of a refusal.
fn write_reason<W: Tell>(out: &mut W, program: &Program, stop: &SearchStop, effort: Effort) {
    match &stop.sketch.obstacle {
        Some(obstacle) if is_hollow(stop.error, obstacle, effort) => {
            write_no_budget(out, stop.error.slot());
        }
        Some(obstacle) => write_obstacle(out, stop.error.slot(), obstacle),
        None => write_bare(out, program, stop, effort),
    }
}

/// Whether the instruction at a slot leads to another one or in front of it.
fn leads_back(program: &Program, from: u32, slot: u32) -> bool {
    let Some(insn) = program.at(from) else {
        return false;
    };
    match jump_target(from.min(MAX_SLOTS as u32), insn) {
        Some(to) => to <= slot,
        None => false,
    }
}

/// Whether an instruction at a slot or behind it leads back to the slot or in front of it.
fn is_in_loop(program: &Program, slot: u32) -> bool {
    for from in slot..program.slots() {
        if leads_back(program, from, slot) {
            return true;
        }
    }
    false
}

/// Tells of which round the states are. The plain inferrer ends where an instruction is refused, in whichever round of a loop that is; the deep
/// search goes on until its states settle.
fn write_round<W: Tell>(out: &mut W, program: &Program, stop: &SearchStop, effort: Effort) {
    if let (
        Effort::Plain,
        InferError::Fault {
            slot,
            condition: ForeseenCondition::State(_),
        },
    ) = (effort, stop.error)
    {
        if is_in_loop(program, slot) {
            write!(
                out,
                "the states are those of the round in which slot {slot} was refused: the loop around it may know less\n"
            );
        }
    }
}

/// Whether an instruction leads back or calls a function.
fn is_round(insn: &Insn) -> bool {
    if let Insn::CallLocal { .. } = *insn {
        return true;
    }
    match insn.distance() {
        Some(off) => off < 0,
        None => false,
    }
}

/// Whether a program has a loop or calls a function: elsewhere both searches know the same.
fn goes_round(program: &Program) -> bool {
    for slot in 0..program.slots() {
        match program.at(slot) {
            Some(insn) if is_round(insn) => return true,
            _ => {}
        }
    }
    false
}

/// Whether the deep search may find what the plain one refuses, as far as the refusal and the program tell.
pub fn may_be_found(program: &Program, error: InferError) -> bool {
    match error {
        InferError::Recursion { .. } | InferError::Memory => false,
        InferError::Fault {
            condition: ForeseenCondition::LeavesFunction,
            ..
        } => false,
        InferError::Fault {
            condition: ForeseenCondition::FallsOff,
            ..
        } => true,
        InferError::Fault { .. } => goes_round(program),
        InferError::Unstable { .. } | InferError::NoBudget { .. } => true,
    }
}

/// The flaw that the checker would name, where a refusal says so.
fn flaw_of(error: InferError) -> Option<Refusal> {
    match error {
        InferError::Fault { slot, condition } => Some(Refusal {
            slot,
            condition: condition.of_checker(),
        }),
        InferError::Unstable { .. }
        | InferError::NoBudget { .. }
        | InferError::Recursion { .. }
        | InferError::Memory => None,
    }
}

/// Tells what is shown of the states that a search has, the refusal, and its flaw in these states.
fn write_states<W: Tell>(
    out: &mut W,
    program: &Program,
    stop: &SearchStop,
    shown: Shown<'_>,
    lines: &[u8],
) {
    let flaw = flaw_of(stop.error);
    let refused = Refused(stop.error);
    if let Some(certificate) = &stop.sketch.certificate {
        tell_sketch(program, certificate, shown, flaw, out);
    }
    write!(out, "{refused}\n");
    if let (Some(certificate), Some(flaw)) = (&stop.sketch.certificate, flaw) {
        tell_reason(program, certificate, lines, flaw, out);
    }
    write_source(out, lines, stop.error);
}

/// Tells what is shown of what a search had where it stopped, and why it stopped; of the plain one, that the deep one may find
/// more.
fn write_stop<W: Tell>(
    out: &mut W,
    program: &Program,
    stop: &SearchStop,
    shown: Shown<'_>,
    effort: Effort,
) {
    let (Shown::Listing { lines } | Shown::Slot { lines, .. }) = shown else {
        let (flaw, title) = (flaw_of(stop.error), Refused(stop.error));
        return tell_sketched_dot(program, stop.sketch.certificate.as_ref(), flaw, title, out);
    };
    write_states(out, program, stop, shown, lines);
    write_reason(out, program, stop, effort);
    write_round(out, program, stop, effort);
    let is_plain = matches!(effort, Effort::Plain);
    if is_plain && stop.sketch.certificate.is_some() && may_be_found(program, stop.error) {
        out.say("or try --deep: it searches longer, and finds more\n");
    }
}

/// A certificate that a search found, and the checker's answer: None if it certifies the program, else the least flaw.
#[derive(Drop)]
pub struct FoundCertificate {
    pub certificate: Certificate,
    pub refusal: Option<Refusal>,
}

/// Explains a certificate that a search found, in pieces of up to 4,096 bytes, and hands it back with the checker's answer.
fn explain_certified<W: Write>(
    out: &mut W,
    program: &Program,
    certificate: Certificate,
    shown: Shown<'_>,
) -> io::Result<FoundCertificate>
    ensures found { IfOk result (λ f. f.certificate ≡ certificate) }
    ensures accepted { IfOk result (λ f. IfNone f.refusal (IsCertifiedBy program.now f.certificate)) }
    ensures refused { IfOk result (λ f. IfSome f.refusal (λ r. IsLeastFlaw program.now f.certificate (refusal_slot r) (refusal_number r))) }
{
    let mut page = Page::new(out);
    let refusal = refusal_of(program, &certificate);
    tell_shown(program, &certificate, shown, refusal, &mut page);
    page.finish()?;
    Ok(FoundCertificate {
        certificate,
        refusal,
    })
}

/// Explains what a search found. What was found, with the checker's answer, or the refusal.
fn explain<W: Write>(
    out: &mut W,
    program: &Program,
    found: Result<Certificate, SearchStop>,
    shown: Shown<'_>,
    effort: Effort,
) -> io::Result<Result<FoundCertificate, InferError>>
    ensures found { IfOk result (λ told. IfOk told (λ f. found ≡ Ok f.certificate)) }
    ensures stopped { IfOk result (λ told. IfErr told (λ e. IsErrAnd found (λ s. e ≡ s.error))) }
    ensures accepted { IfOk result (λ told. IfOk told (λ f. IfNone f.refusal (IsCertifiedBy program.now f.certificate))) }
    ensures refused { IfOk result (λ told. IfOk told (λ f. IfSome f.refusal (λ r. IsLeastFlaw program.now f.certificate (refusal_slot r) (refusal_number r)))) }
{
    match found {
        Ok(certificate) => {
            let found = explain_certified(out, program, certificate, shown)?;
            Ok(Ok(found))
        }
        Err(stop) => {
            let mut page = Page::new(out);
            write_stop(&mut page, program, &stop, shown, effort);
            page.finish()?;
            Ok(Err(stop.error))
        }
    }
}

/// I5: memory ran out, and nothing is known.
fn out_of_memory() -> SearchStop
    ensures { result.error ≡ Memory }
{
    SearchStop {
        error: InferError::Memory,
        sketch: Sketch::nothing(),
    }
}

/// What the plain inferrer had where it refused a program. I5 where memory runs out meanwhile.
fn stop_of(alloc: Global, quest: Quest<'_>, error: InferError) -> SearchStop
    requires order { quest.least ≤ quest.most }
    requires short { quest.most ≤ max_context }
    ensures { (result.error ≡ error) ⊎ (result.error ≡ Memory) }
{
    let sketch = match error {
        InferError::Memory => Err(error),
        _ => sketch_of(alloc, quest, error),
    };
    match sketch {
        Ok(sketch) => SearchStop { error, sketch },
        Err(InferError::Memory) => out_of_memory(),
        Err(_) => SearchStop {
            error,
            sketch: Sketch::nothing(),
        },
    }
}

/// What the deep search had where it stopped; of an access that is refused also which loop moves its pointer, where the plain
/// inferrer sees one. I5 where memory runs out meanwhile.
fn with_walk(alloc: Global, quest: Quest<'_>, stop: SearchStop) -> SearchStop
    requires order { quest.least ≤ quest.most }
    requires short { quest.most ≤ max_context }
    ensures { (result.error ≡ stop.error) ⊎ (result.error ≡ Memory) }
{
    if !matches!(stop.error, InferError::Fault { .. }) {
        return stop;
    }
    let plain = match sketch_of(alloc, quest, stop.error) {
        Ok(plain) => plain,
        Err(InferError::Memory) => return out_of_memory(),
        Err(_) => return stop,
    };
    let SearchStop { error, sketch } = stop;
    SearchStop {
        error,
        sketch: Sketch {
            certificate: sketch.certificate,
            obstacle: plain.obstacle,
        },
    }
}

/// A search for the certificate that is wanted, and what is shown of what it finds.
#[derive(Clone, Copy)]
pub struct CertificateSearch<'t> {
    pub wanted: WantedCertificate,
    pub shown: Shown<'t>,
}

/// Shows a program with the certificate that a search finds for contexts of at most 4,096 bytes, and the checker's answer; where it finds none,
/// with the states at its labels as far as it came, and in words why (I1 to I5), of a graph by number alone. The certificate with the
/// checker's answer, or the refusal, is given back. A fault of the writer, or a write of no bytes, ends it. Who watches is told how far the
/// deep search is.
pub fn explain_search<W: Write, H: Watch>(
    alloc: Global,
    program: &Program,
    asked: CertificateSearch<'_>,
    watch: &mut H,
    out: &mut W,
) -> io::Result<Result<FoundCertificate, InferError>>
    requires order { asked.wanted.least ≤ asked.wanted.most }
    requires short { asked.wanted.most ≤ max_context }
    ensures version { IfOk result (λ told. IfOk told (λ f. f.certificate.version ≡ 2)) }
    ensures least { IfOk result (λ told. IfOk told (λ f. f.certificate.least ≡ asked.entry.wanted.least)) }
    ensures most { IfOk result (λ told. IfOk told (λ f. f.certificate.most ≡ asked.entry.wanted.most)) }
    ensures certificate { IfOk result (λ told. IfOk told (λ f. IsCertificate f.certificate)) }
    ensures accepted { IfOk result (λ told. IfOk told (λ f. IfNone f.refusal (IsCertifiedBy program.now f.certificate))) }
    ensures refused { IfOk result (λ told. IfOk told (λ f. IfSome f.refusal (λ r. IsLeastFlaw program.now f.certificate (refusal_slot r) (refusal_number r)))) }
    ensures slot { IfOk result (λ told. IfErr told (λ e. infer_slot e < slots program.now.list)) }
{
    let CertificateSearch { wanted, shown } = asked;
    let WantedCertificate { least, most, deep } = wanted;
    let quest = Quest {
        program,
        least,
        most,
    };
    if deep {
        let found = match search_or_stop(alloc, program, least, most, watch) {
            Ok(certificate) => Ok(certificate),
            Err(stop) => Err(with_walk(alloc, quest, stop)),
        };
        return explain(out, program, found, shown, Effort::Deep);
    }
    let found = match infer(alloc, program, least, most) {
        Ok(certificate) => Ok(certificate),
        Err(error) => Err(stop_of(alloc, quest, error)),
    };
    explain(out, program, found, shown, Effort::Plain)
}
