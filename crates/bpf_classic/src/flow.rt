//! Whether what instructions are marked with agrees along every way: one look at each instruction and at those that it leads to.

ghost use Rattle.std.specs.Prelude.{◌≡◌, ◌+◌, ◌≤◌, length, option_copied};
ghost use Rattle.bpf_classic.specs.Valid.{max_filter};
ghost use Rattle.bpf_classic.specs.Template.{is_register, IsTable};
ghost use Rattle.bpf_classic.specs.Flow.{is_word, source_word, has_word, is_a, is_x, reads_a, reads_x, sets_a, sets_x, tests_length, leads_to_trap, uses_trap, known_behind, leads_to, leads_on, agrees, all_agree, starts_well, is_sound, turns_to, turns_well, all_turn};

use crate::emit::is_register;
use crate::instruction::{Classic, Register, Source};
use crate::layout::{Annotated, Layout, is_beyond, need};
use crate::ways::{back_of, from_on};

fn is_word(k: u32) -> bool
    ensures { result ≡ is_word k }
{
    k <= u32::MAX
}

fn source_word(source: Source) -> bool
    ensures { result ≡ source_word source }
{
    match source {
        Source::K(k) => is_word(k),
        Source::X => true,
    }
}

/// Whether the constant of an instruction has 32 bits, as each one has: the program's meaning rests on it.
fn has_word(insn: &Classic) -> bool
    ensures { result ≡ has_word insn.now }
{
    match *insn {
        Classic::Constant { k, .. } => is_word(k),
        Classic::Return { k } => is_word(k),
        Classic::Alu { op: _, source } => source_word(source),
        Classic::JumpIf { source, .. } => source_word(source),
        Classic::Length { .. } | Classic::Cell { .. } | Classic::Store { .. } => true,
        Classic::At { .. } | Classic::Index { .. } | Classic::Header { .. } => true,
        Classic::Neg | Classic::Jump { .. } | Classic::Back { .. } | Classic::ReturnA => true,
        Classic::Extension { .. } | Classic::Tax | Classic::Txa => true,
    }
}

fn is_a(register: Register) -> bool
    ensures { result ≡ is_a register }
{
    match register {
        Register::A => true,
        Register::X => false,
    }
}

fn is_x(register: Register) -> bool
    ensures { result ≡ is_x register }
{
    match register {
        Register::A => false,
        Register::X => true,
    }
}

/// Whether an instruction reads A.
pub fn reads_a(insn: &Classic) -> bool
    ensures { result ≡ reads_a insn.now }
{
    match *insn {
        Classic::Store { from, .. } => is_a(from),
        Classic::Alu { .. } | Classic::Neg | Classic::ReturnA | Classic::Tax => true,
        Classic::JumpIf { jt, jf, .. } => jt != jf,
        Classic::Constant { .. } | Classic::Length { .. } | Classic::Cell { .. } => false,
        Classic::At { .. } | Classic::Index { .. } | Classic::Header { .. } => false,
        Classic::Jump { .. } | Classic::Back { .. } | Classic::Return { .. } => false,
        Classic::Extension { .. } | Classic::Txa => false,
    }
}

/// Whether an instruction reads X.
pub fn reads_x(insn: &Classic) -> bool
    ensures { result ≡ reads_x insn.now }
{
    match *insn {
        Classic::Store { from, .. } => is_x(from),
        Classic::Alu { source, .. } => is_register(source),
        Classic::JumpIf { source, jt, jf, .. } => is_register(source) && jt != jf,
        Classic::Index { .. } | Classic::Txa => true,
        Classic::Constant { .. } | Classic::Length { .. } | Classic::Cell { .. } => false,
        Classic::At { .. } | Classic::Header { .. } | Classic::Neg => false,
        Classic::Jump { .. } | Classic::Back { .. } | Classic::Return { .. } => false,
        Classic::ReturnA | Classic::Extension { .. } | Classic::Tax => false,
    }
}

/// Whether an instruction sets A.
pub fn sets_a(insn: &Classic) -> bool
    ensures { result ≡ sets_a insn.now }
{
    match *insn {
        Classic::Constant { to, .. } => is_a(to),
        Classic::Length { to } => is_a(to),
        Classic::Cell { to, .. } => is_a(to),
        Classic::At { .. } | Classic::Index { .. } | Classic::Alu { .. } => true,
        Classic::Extension { .. } | Classic::Neg | Classic::Txa => true,
        Classic::Store { .. } | Classic::Header { .. } | Classic::Jump { .. } => false,
        Classic::Back { .. } | Classic::JumpIf { .. } | Classic::Return { .. } => false,
        Classic::ReturnA | Classic::Tax => false,
    }
}

/// Whether an instruction sets X.
pub fn sets_x(insn: &Classic) -> bool
    ensures { result ≡ sets_x insn.now }
{
    match *insn {
        Classic::Constant { to, .. } => is_x(to),
        Classic::Length { to } => is_x(to),
        Classic::Cell { to, .. } => is_x(to),
        Classic::Header { .. } | Classic::Tax => true,
        Classic::At { .. } | Classic::Index { .. } | Classic::Alu { .. } => false,
        Classic::Neg | Classic::Txa | Classic::Store { .. } | Classic::Jump { .. } => false,
        Classic::Back { .. } | Classic::JumpIf { .. } | Classic::Return { .. } => false,
        Classic::ReturnA | Classic::Extension { .. } => false,
    }
}

fn tests_length(layout: &Layout, a: &Annotated) -> bool
    ensures { result ≡ tests_length layout.now a.now }
{
    is_beyond(layout, &a.insn) || u64::from(a.known) < need(&a.insn)
}

fn leads_to_trap(layout: &Layout, a: &Annotated) -> bool
    ensures { result ≡ leads_to_trap layout.now a.now a.now.insn }
{
    match a.insn {
        Classic::At { .. } | Classic::Header { .. } => tests_length(layout, a),
        Classic::Index { .. } | Classic::Back { .. } => true,
        Classic::Alu { op, source } => is_register(source) && op.divides(),
        Classic::Constant { .. } | Classic::Length { .. } | Classic::Cell { .. } => false,
        Classic::Store { .. } | Classic::Neg | Classic::Jump { .. } => false,
        Classic::JumpIf { .. } | Classic::Return { .. } | Classic::ReturnA => false,
        Classic::Extension { .. } | Classic::Tax | Classic::Txa => false,
    }
}

/// Whether the template of an instruction leads to the exit that answers 0.
pub fn uses_trap(layout: &Layout, a: &Annotated) -> bool
    ensures { result ≡ uses_trap layout.now a.now }
{
    a.reached && leads_to_trap(layout, a)
}

/// How many bytes are surely there behind an instruction.
pub fn known_behind(a: &Annotated) -> u64
    ensures { result ≡ known_behind a.now }
{
    u64::from(a.known).max(need(&a.insn))
}

fn leads_to(a: &Annotated, next: Option<&Annotated>) -> bool
    ensures { result ≡ leads_to a.now (option_copied next.entry) }
{
    match next {
        Some(b) => {
            b.reached
                && u64::from(b.known) <= known_behind(a)
                && (!b.a || a.a || sets_a(&a.insn))
                && (!b.x || a.x || sets_x(&a.insn))
        }
        None => false,
    }
}

fn leads_on(a: &Annotated, rest: &[Annotated]) -> bool
    ensures { result ≡ leads_on a.now a.now.insn rest.now }
{
    match a.insn {
        Classic::Jump { k } => leads_to(a, rest.get(k as usize)),
        Classic::JumpIf { jt, jf, .. } => {
            leads_to(a, rest.get(usize::from(jt))) && leads_to(a, rest.get(usize::from(jf)))
        }
        Classic::Back { .. } | Classic::Return { .. } | Classic::ReturnA => true,
        Classic::Constant { .. } | Classic::Length { .. } => leads_to(a, rest.get(0)),
        Classic::Cell { .. } | Classic::Store { .. } => leads_to(a, rest.get(0)),
        Classic::At { .. } | Classic::Index { .. } => leads_to(a, rest.get(0)),
        Classic::Header { .. } | Classic::Alu { .. } => leads_to(a, rest.get(0)),
        Classic::Extension { .. } | Classic::Neg => leads_to(a, rest.get(0)),
        Classic::Tax | Classic::Txa => leads_to(a, rest.get(0)),
    }
}

fn agrees(layout: &Layout, a: &Annotated, rest: &[Annotated]) -> bool
    ensures { result ≡ agrees layout.now a.now rest.now }
{
    has_word(&a.insn)
        && (!reads_a(&a.insn) || a.a)
        && (!reads_x(&a.insn) || a.x)
        && (!uses_trap(layout, a) || layout.trap)
        && (is_beyond(layout, &a.insn) || leads_on(a, rest))
}

fn all_agree(layout: &Layout, list: &[Annotated]) -> bool
    ensures { result ≡ all_agree layout.now list.now }
{
    for at in 0..list.len() {
        if list[at].reached && !agrees(layout, &list[at], &list[at + 1..]) {
            return false;
        }
    }
    true
}

fn starts_well(layout: &Layout, first: Option<&Annotated>) -> bool
    ensures { result ≡ starts_well layout.now (option_copied first.entry) }
{
    match first {
        Some(a) => {
            a.reached
                && a.known <= layout.known_first()
                && (!a.a || layout.zero_a)
                && (!a.x || layout.zero_x)
        }
        None => false,
    }
}

/// Whether what instructions are marked with agrees along every way, from the entry on.
pub fn is_sound(layout: &Layout, list: &[Annotated]) -> bool
    ensures { result ≡ is_sound layout.now list.now }
{
    starts_well(layout, list.get(0)) && all_agree(layout, list)
}

/// Whether a jump back leads to an instruction that is marked with no more than what is known in front of the jump, and over as
/// many slots as it says. So many instructions are left from there on, and so many slots stand behind the jump.
fn turns_to(
    layout: &Layout,
    all: &[Annotated],
    table: &[u16],
    a: &Annotated,
    behind: (usize, u16),
) -> bool
    requires table { IsTable layout.now all.now table.now }
    ensures { result ≡ turns_to layout.now all.now a.now behind.0 behind.1 }
{
    let (left, slots) = behind;
    if !layout.loops || left > all.len() {
        return false;
    }
    let head = all.len() - left;
    leads_to(a, all.get(head))
        && u32::from(back_of(a)) + 1 + u32::from(slots) == u32::from(from_on(table, head))
}

fn turns_well(
    layout: &Layout,
    all: &[Annotated],
    table: &[u16],
    a: &Annotated,
    behind: (usize, u16),
) -> bool
    requires few { behind.0 ≤ max_filter }
    requires table { IsTable layout.now all.now table.now }
    ensures { result ≡ turns_well layout.now all.now a.now a.now.insn behind.0 behind.1 }
{
    let (left, slots) = behind;
    match a.insn {
        Classic::Back { k } => turns_to(layout, all, table, a, (left + k as usize, slots)),
        Classic::Constant { .. } | Classic::Length { .. } | Classic::Cell { .. } => true,
        Classic::Store { .. } | Classic::At { .. } | Classic::Index { .. } => true,
        Classic::Header { .. } | Classic::Extension { .. } | Classic::Alu { .. } => true,
        Classic::Neg | Classic::Jump { .. } | Classic::JumpIf { .. } => true,
        Classic::Return { .. } | Classic::ReturnA | Classic::Tax | Classic::Txa => true,
    }
}

/// Whether each jump back leads to where it says, and what is known there agrees. By the table so many slots stand from each instruction on.
pub fn all_turn(layout: &Layout, list: &[Annotated], table: &[u16]) -> bool
    requires few { length list.now ≤ max_filter }
    requires table { IsTable layout.now list.now table.now }
    ensures { result ≡ all_turn layout.now list.now list.now }
{
    for at in 0..list.len() {
        let behind = (list.len() - (at + 1), from_on(table, at + 1));
        if list[at].reached && !turns_well(layout, list, table, &list[at], behind) {
            return false;
        }
    }
    true
}
