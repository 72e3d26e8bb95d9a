//! What is known in front of each instruction: a forward pass. Where ways meet, what all of them know is known; where a jump back leads,
//! what is known at the entry. That it holds is seen again by `flow`, on what this pass found.

ghost use Rattle.std.specs.Prelude.{◌≡◌, ◌≤◌, length, IfOk};
ghost use Rattle.bpf_classic.specs.Valid.{max_filter};
ghost use Rattle.bpf_classic.specs.Meaning.{insns};

use crate::flow::{known_behind, sets_a, sets_x};
use crate::instruction::Classic;
use crate::layout::{Annotated, Layout, is_beyond};
use crate::ways::from_on;
use bpf_insn::MAX_CONTEXT;
use std::alloc::{AllocError, Global};

/// What is known behind an instruction.
fn behind(a: &Annotated) -> Annotated {
    Annotated {
        insn: a.insn,
        reached: true,
        known: known_behind(a).min(MAX_CONTEXT as u64) as u32,
        a: a.a || sets_a(&a.insn),
        x: a.x || sets_x(&a.insn),
        back: 0,
    }
}

/// An instruction with what two ways to it know, the second of which is new.
fn joined(old: &Annotated, from: &Annotated) -> Annotated
    ensures { result.insn ≡ old.now.insn }
{
    if old.reached {
        return Annotated {
            insn: old.insn,
            reached: true,
            known: old.known.min(from.known),
            a: old.a && from.a,
            x: old.x && from.x,
            back: old.back,
        };
    }
    Annotated {
        insn: old.insn,
        reached: true,
        known: from.known,
        a: from.a,
        x: from.x,
        back: old.back,
    }
}

/// Leads one more way to an instruction: what both know is known.
fn arrive(list: &mut Vec<Annotated>, at: usize, from: &Annotated)
    ensures { insns list.new.items ≡ insns list.old.items }
{
    if at >= list.len() {
        return;
    }
    let new = joined(&list[at], from);
    list[at] = new;
}

/// How many instructions an instruction may pass over, one way and another.
fn passes(insn: &Classic) -> (Option<u32>, Option<u32>) {
    match *insn {
        Classic::Jump { k } => (Some(k), None),
        Classic::JumpIf { jt, jf, .. } => (Some(u32::from(jt)), Some(u32::from(jf))),
        Classic::Back { .. } | Classic::Return { .. } | Classic::ReturnA => (None, None),
        Classic::Constant { .. } | Classic::Length { .. } | Classic::Cell { .. } => (Some(0), None),
        Classic::At { .. } | Classic::Index { .. } | Classic::Header { .. } => (Some(0), None),
        Classic::Store { .. } | Classic::Alu { .. } | Classic::Neg => (Some(0), None),
        Classic::Extension { .. } | Classic::Tax | Classic::Txa => (Some(0), None),
    }
}

/// Leads on from an instruction to each one that may follow.
fn lead_on(list: &mut Vec<Annotated>, layout: &Layout, at: usize)
    requires { at ≤ max_filter }
    ensures { insns list.new.items ≡ insns list.old.items }
{
    let a = match list.get(at) {
        Some(a) => *a,
        None => return,
    };
    if !a.reached || is_beyond(layout, &a.insn) {
        return;
    }
    let after = behind(&a);
    let (taken, other) = passes(&a.insn);
    if let Some(k) = taken {
        arrive(list, at + 1 + k as usize, &after);
    }
    if let Some(k) = other {
        arrive(list, at + 1 + k as usize, &after);
    }
}

/// Leads a way to where each jump back leads, with what is known at the entry.
fn arrive_back(list: &mut Vec<Annotated>, entry: &Annotated)
    requires { length list.old.items ≤ max_filter }
    ensures { insns list.new.items ≡ insns list.old.items }
{
    for at in 0..list.len() {
        if let Some(head) = head_of(list, at) {
            arrive(list, head, entry);
        }
    }
}

/// The instruction to which the one at a place jumps back.
fn head_of(list: &[Annotated], at: usize) -> Option<usize>
    requires { at ≤ max_filter }
{
    match list.get(at)?.insn {
        Classic::Back { k } => (at + 1).checked_sub(k as usize),
        Classic::Constant { .. } | Classic::Length { .. } | Classic::Cell { .. } => None,
        Classic::Store { .. } | Classic::At { .. } | Classic::Index { .. } => None,
        Classic::Header { .. } | Classic::Extension { .. } | Classic::Alu { .. } => None,
        Classic::Neg | Classic::Jump { .. } | Classic::JumpIf { .. } => None,
        Classic::Return { .. } | Classic::ReturnA | Classic::Tax | Classic::Txa => None,
    }
}

/// Each instruction, none of them reached.
fn unreached(alloc: Global, filter: &[Classic]) -> Result<Vec<Annotated>, AllocError>
    ensures { IfOk result (λ v. insns v.items ≡ filter.now) }
{
    let mut list = Vec::with_capacity(alloc, filter.len())?;
    for insn in filter {
        list.push(Annotated {
            insn: *insn,
            reached: false,
            known: 0,
            a: false,
            x: false,
            back: 0,
        })?;
    }
    Ok(list)
}

/// Each instruction with what is known in front of it.
pub fn annotate(
    alloc: Global,
    filter: &[Classic],
    layout: &Layout,
) -> Result<Vec<Annotated>, AllocError>
    requires { length filter.now ≤ max_filter }
    ensures { IfOk result (λ v. insns v.items ≡ filter.now) }
{
    let mut list = unreached(alloc, filter)?;
    let entry = Annotated {
        insn: Classic::ReturnA,
        reached: true,
        known: layout.known_first(),
        a: layout.zero_a,
        x: layout.zero_x,
        back: 0,
    };
    arrive(&mut list, 0, &entry);
    arrive_back(&mut list, &entry);
    for at in 0..filter.len() {
        lead_on(&mut list, layout, at);
    }
    Ok(list)
}

/// The slots over which the jump back at a place leads, 0 where there is none.
fn back_at(list: &[Annotated], table: &[u16], at: usize) -> u16
    requires { at ≤ max_filter }
{
    match head_of(list, at) {
        Some(head) => from_on(table, head)
            .saturating_sub(from_on(table, at + 1))
            .saturating_sub(1),
        None => 0,
    }
}

/// Says of each jump back how many slots it leads back, by a table of how many stand from each instruction on.
pub fn set_backs(list: &mut Vec<Annotated>, table: &[u16])
    requires { length list.old.items ≤ max_filter }
    ensures { insns list.new.items ≡ insns list.old.items }
{
    for at in 0..list.len() {
        let back = back_at(list, table, at);
        set_back(list, at, back);
    }
}

fn set_back(list: &mut Vec<Annotated>, at: usize, back: u16)
    ensures { insns list.new.items ≡ insns list.old.items }
{
    if at >= list.len() {
        return;
    }
    let new = with_back(&list[at], back);
    list[at] = new;
}

fn with_back(old: &Annotated, back: u16) -> Annotated
    ensures { result.insn ≡ old.now.insn }
{
    Annotated {
        insn: old.insn,
        reached: old.reached,
        known: old.known,
        a: old.a,
        x: old.x,
        back,
    }
}
