//! What is wrong with the instructions of a filter.

ghost use Rattle.std.specs.Prelude.{◌≡◌, ◌+◌, ◌<◌, ◌≤◌, ℕ, length, IfSome, IfNone, None};
ghost use Rattle.bpf_classic.specs.Valid.{max_filter, names_no_cell, has_bad_constant, leads_outside, is_no_word, is_mod, is_not_in_seccomp, is_extension, has_no_word, not_for, fault_of, fault_of_raw, fault_at, IsLowestFault};
ghost use Rattle.bpf_classic.specs.Auxiliary.{instruction_in};

use crate::auxiliary::instruction_in;
use crate::instruction::{Classic, LoadSize, Op, Source};
use crate::raw::Raw;
use crate::refusal::{Fault, Kind};

/// Where Linux's extensions begin: offsets that no packet has.
const EXTENSIONS: u32 = 0xffff_f000;

const LAST_EXTENSION: u32 = 0xffff_f03c;

/// Where offsets begin that aren't of the packet's first byte (SKF_LL_OFF, -0x200000).
const OFFSETS: u32 = 0xffe0_0000;

fn names_no_cell(i: &Classic) -> bool
    ensures { result ≡ names_no_cell i.now }
{
    match *i {
        Classic::Cell { cell, .. } => cell >= 16,
        Classic::Store { cell, .. } => cell >= 16,
        Classic::Constant { .. } | Classic::Length { .. } | Classic::At { .. } => false,
        Classic::Index { .. } | Classic::Header { .. } | Classic::Extension { .. } => false,
        Classic::Alu { .. } | Classic::Neg | Classic::Jump { .. } | Classic::Back { .. } => false,
        Classic::JumpIf { .. } | Classic::Return { .. } | Classic::ReturnA => false,
        Classic::Tax | Classic::Txa => false,
    }
}

fn has_bad_constant(i: &Classic) -> bool
    ensures { result ≡ has_bad_constant i.now }
{
    match *i {
        Classic::Alu {
            op,
            source: Source::K(k),
        } => (op.divides() && k == 0) || (op.shifts() && k >= 32),
        Classic::Alu {
            op: _,
            source: Source::X,
        } => false,
        Classic::Constant { .. } | Classic::Length { .. } | Classic::At { .. } => false,
        Classic::Index { .. } | Classic::Header { .. } | Classic::Cell { .. } => false,
        Classic::Extension { .. } | Classic::Back { .. } => false,
        Classic::Neg | Classic::Jump { .. } | Classic::JumpIf { .. } => false,
        Classic::Store { .. } | Classic::Return { .. } | Classic::ReturnA => false,
        Classic::Tax | Classic::Txa => false,
    }
}

/// `at` instructions stand in front of it, and `left` behind it.
fn leads_outside(at: u32, left: u32, i: &Classic) -> bool
    requires { at ≤ max_filter }
    ensures { result ≡ leads_outside at left i.now }
{
    match *i {
        Classic::Jump { k } => k >= left,
        Classic::Back { k } => k == 0 || k > at + 1,
        Classic::JumpIf { jt, jf, .. } => u32::from(jt) >= left || u32::from(jf) >= left,
        Classic::Return { .. } | Classic::ReturnA => false,
        Classic::Constant { .. } | Classic::Length { .. } | Classic::At { .. } => left == 0,
        Classic::Index { .. } | Classic::Header { .. } | Classic::Alu { .. } => left == 0,
        Classic::Cell { .. } | Classic::Store { .. } | Classic::Extension { .. } => left == 0,
        Classic::Neg => left == 0,
        Classic::Tax | Classic::Txa => left == 0,
    }
}

fn is_no_word(size: LoadSize, k: u32) -> bool
    ensures { result ≡ is_no_word size k }
{
    match size {
        LoadSize::Word => k % 4 != 0 || k > 60,
        LoadSize::Half | LoadSize::Byte => true,
    }
}

fn is_mod(op: Op) -> bool
    ensures { result ≡ is_mod op }
{
    match op {
        Op::Mod => true,
        Op::Add | Op::Sub | Op::Mul | Op::Div | Op::Or | Op::And => false,
        Op::Lsh | Op::Rsh | Op::Xor => false,
    }
}

fn is_not_in_seccomp(i: &Classic) -> bool
    ensures { result ≡ is_not_in_seccomp i.now }
{
    match *i {
        Classic::At { size, k } => is_no_word(size, k),
        Classic::Index { .. } | Classic::Header { .. } | Classic::Extension { .. } => true,
        Classic::Back { .. } => true,
        Classic::Alu { op, .. } => is_mod(op),
        Classic::Constant { .. } | Classic::Length { .. } | Classic::Cell { .. } => false,
        Classic::Neg | Classic::Jump { .. } | Classic::JumpIf { .. } => false,
        Classic::Store { .. } | Classic::Return { .. } | Classic::ReturnA => false,
        Classic::Tax | Classic::Txa => false,
    }
}

fn is_extension(i: &Classic) -> bool
    ensures { result ≡ is_extension i.now }
{
    match *i {
        Classic::At { size: _, k } => k >= EXTENSIONS && k <= LAST_EXTENSION,
        Classic::Extension { .. } => true,
        Classic::Index { .. } | Classic::Header { .. } | Classic::Alu { .. } => false,
        Classic::Constant { .. } | Classic::Length { .. } | Classic::Cell { .. } => false,
        Classic::Back { .. } | Classic::Neg | Classic::Jump { .. } | Classic::JumpIf { .. } =>
            false,
        Classic::Store { .. } | Classic::Return { .. } | Classic::ReturnA => false,
        Classic::Tax | Classic::Txa => false,
    }
}

fn has_no_word(i: &Classic) -> bool
    ensures { result ≡ has_no_word i.now }
{
    match *i {
        Classic::At { size: _, k } => k >= OFFSETS,
        Classic::Index { size: _, k } => k >= OFFSETS,
        Classic::Header { k } => k >= OFFSETS,
        Classic::Extension { .. } | Classic::Alu { .. } | Classic::Neg => false,
        Classic::Constant { .. } | Classic::Length { .. } | Classic::Cell { .. } => false,
        Classic::Jump { .. } | Classic::Back { .. } | Classic::JumpIf { .. } => false,
        Classic::Store { .. } | Classic::Return { .. } | Classic::ReturnA => false,
        Classic::Tax | Classic::Txa => false,
    }
}

fn not_for(kind: Kind, i: &Classic) -> Option<Fault>
    ensures { result ≡ not_for kind i.now }
{
    match kind {
        Kind::Packets => if is_extension(i) {
            Some(Fault::Extension)
        } else {
            None
        },
        Kind::Seccomp => if is_not_in_seccomp(i) {
            Some(Fault::Seccomp)
        } else {
            None
        },
        Kind::Extended => if has_no_word(i) {
            Some(Fault::NoWord)
        } else {
            None
        },
    }
}

fn fault_of(kind: Kind, at: u32, left: u32, i: &Classic) -> Option<Fault>
    requires { at ≤ max_filter }
    ensures { result ≡ fault_of kind at left i.now }
{
    if names_no_cell(i) {
        return Some(Fault::Cell);
    }
    if has_bad_constant(i) {
        return Some(Fault::Constant);
    }
    if leads_outside(at, left, i) {
        return Some(Fault::Target);
    }
    not_for(kind, i)
}

fn fault_of_raw(kind: Kind, at: u32, left: u32, raw: &Raw) -> Option<Fault>
    requires { at ≤ max_filter }
    ensures { result ≡ fault_of_raw kind at left (instruction_in kind raw.now) }
{
    match instruction_in(kind, raw) {
        Some(i) => fault_of(kind, at, left, &i),
        None => Some(Fault::Code),
    }
}

/// The lowest instruction with a fault.
pub fn lowest_fault(kind: Kind, raws: &[Raw]) -> Option<(u32, Fault)>
    requires { length raws.now ≤ max_filter }
    ensures found { IfSome result (λ f. IsLowestFault kind raws.now f.0 f.1) }
    ensures none { IfNone result ((at : ℕ) → at < length raws.now → fault_at kind raws.now at ≡ None) }
{
    for at in 0..raws.len() {
        let left = (raws.len() - (at + 1)) as u32;
        if let Some(fault) = fault_of_raw(kind, at as u32, left, &raws[at]) {
            return Some((at as u32, fault));
        }
    }
    None
}
