//! The certificate by templates: a label at each leader of a block, with what is known there, and the longest way as its budget, with one
//! more turn for each that is left. By a law it certifies the program.

ghost use Rattle.std.specs.Prelude.{◌≡◌, ◌&&◌, false, map, get_or, IfOk, IfErr};
ghost use Rattle.bpf_insn.specs.Image.{IsProgram};
ghost use Rattle.bpf_cert.specs.Limits.{IsCertificate};
ghost use Rattle.bpf_cert.specs.View.{label_view};
ghost use Rattle.bpf_cert.specs.declared.error.CertError.TheVariants.{Memory};
ghost use Rattle.bpf_conversion.specs.Outline.{IsFound};
ghost use Rattle.bpf_conversion.specs.Parts.{opens};
ghost use Rattle.bpf_conversion.specs.Claim.{IsConversion, base_at, terms_at, turn_terms, label_in, labels_of, claim};

use crate::found::Outline;
use crate::parts::{Stretch, begun, opens, part_at};
use crate::states::known_at;
use arrayvec::ArrayVec;
use bpf_cert::{Budget, CertError, Certificate, Function, Label, Measure, Place, Term};
use bpf_classic::{Converted, Layout};
use bpf_insn::{Code, Reg};
use bpf_num::{Num, WordDomain};
use bpf_state::State;
use std::alloc::Global;

/// A turn for each that is left, where there are loops.
fn turn_terms(loops: bool, turn: u32) -> ArrayVec<Term, 4>
    ensures { result.items ≡ turn_terms loops turn }
{
    let mut terms = ArrayVec::new();
    if loops && turn > 0 {
        terms.push(Term {
            weight: turn,
            measure: Measure::Down(Place::Register(Reg::R5)),
        });
    }
    terms
}

/// The longest way from a slot, with all turns from the entry.
fn base_at(found: &Outline, layout: &Layout, part: Stretch, slot: u32) -> u64
    ensures { result ≡ base_at layout.now found.now.steps.items found.now.turn part slot }
{
    let steps = match found.steps.get(slot as usize) {
        Some(count) => u64::from(*count),
        None => 0,
    };
    match part {
        Stretch::Entry => steps + u64::from(layout.turns) * u64::from(found.turn),
        Stretch::Template { .. } | Stretch::Trap { .. } => steps,
    }
}

fn terms_at(layout: &Layout, turn: u32, part: Stretch) -> ArrayVec<Term, 4>
    ensures { result.items ≡ terms_at layout.now turn part }
{
    match part {
        Stretch::Template { .. } => turn_terms(layout.loops, turn),
        Stretch::Entry | Stretch::Trap { .. } => ArrayVec::new(),
    }
}

/// Whether a slot is a leader where a label can stand.
fn wants_label(found: &Outline, layout: &Layout, part: Stretch, slot: u32) -> bool
    ensures { result ≡ (get_or found.now.leaders.items slot false && opens layout.now part slot) }
{
    match found.leaders.get(slot as usize) {
        Some(leader) => *leader && opens(layout, part, slot),
        None => false,
    }
}

/// A slot of a part.
#[derive(Clone, Copy)]
struct PartSlot {
    part: Stretch,
    slot: u32,
}

/// The label at a slot of a part, with room for its state.
fn label_in(
    alloc: Global,
    converted: &Converted,
    found: &Outline,
    at: PartSlot,
    room: &mut State,
) -> Result<Label, CertError>
    requires { IsFound converted.now.program.list found.now }
    ensures ok { IfOk result (λ label. label_view label ≡ label_in converted.now.layout converted.now.marked converted.now.program.list at.part at.slot) }
    ensures err { IfErr result (λ e. e ≡ Memory) }
{
    let layout = converted.layout();
    known_at(layout, converted.list(), at.part, at.slot, room);
    let budget = Budget {
        base: base_at(found, layout, at.part, at.slot),
        terms: terms_at(layout, found.turn, at.part),
    };
    Label::new(alloc, at.slot, room, budget)
}

/// The labels, by their slots.
fn labels(alloc: Global, converted: &Converted, found: &Outline) -> Result<Vec<Label>, CertError>
    requires conversion { IsConversion converted.now }
    requires found { IsFound converted.now.program.list found.now }
    ensures ok { IfOk result (λ labels. map label_view labels.items ≡ labels_of converted.now.layout converted.now.marked converted.now.program.list) }
    ensures err { IfErr result (λ e. e ≡ Memory) }
{
    let mut labels = Vec::new(alloc);
    let mut room = State::blank();
    let mut templates = 0;
    for slot in 0..converted.program().slots() {
        templates = begun(converted.starts(), templates, slot);
        let part = part_at(converted, templates, slot);
        if !wants_label(found, converted.layout(), part, slot) {
            continue;
        }
        let label = label_in(alloc, converted, found, PartSlot { part, slot }, &mut room)?;
        if labels.push(label).is_err() {
            return Err(CertError::Memory);
        }
    }
    Ok(labels)
}

/// A program is valid.
pub fn valid<C: Code>(program: &C)
    ensures { IsProgram (C.program program.now).list }
{
    let _slots = program.slots();
}

/// The certificate of a converted filter, for contexts of its length alone. Its bound is the longest way through the program, with as
/// many jumps back as there may be. `Memory` if memory runs out.
pub fn certificate(alloc: Global, converted: &Converted) -> Result<Certificate, CertError>
    requires { IsConversion converted.now }
    ensures ok { IfOk result (λ c. c ≡ claim converted.now) }
    ensures certificate { IfOk result (λ c. IsCertificate c) }
    ensures err { IfErr result (λ e. e ≡ Memory) }
{
    let Ok(found) = Outline::of(alloc, converted.program()) else {
        return Err(CertError::Memory);
    };
    let labels = labels(alloc, converted, &found)?;
    let mut functions = Vec::new(alloc);
    let function = Function {
        first: 0,
        depth: 1,
        ret: Num::top(),
        labels,
    };
    if functions.push(function).is_err() {
        return Err(CertError::Memory);
    }
    let layout = converted.layout();
    valid(converted.program());
    let bound = base_at(&found, layout, Stretch::Entry, 0).min(u64::from(u32::MAX)) as u32;
    Certificate::new(2, layout.length, layout.length, bound, functions)
}
