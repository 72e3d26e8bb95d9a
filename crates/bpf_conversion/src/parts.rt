//! Where a slot of a converted filter lies.

ghost use Rattle.std.specs.Prelude.{◌≡◌, ◌<◌, length, slice_index};
ghost use Rattle.bpf_insn.specs.Instruction.{slots};
ghost use Rattle.bpf_conversion.specs.Parts.{part_at, tests_first, opens_at, entry_opens, opens};
ghost use Rattle.bpf_conversion.specs.Claim.{IsConversion};
ghost use Rattle.bpf_conversion.specs.Outline.{AreBegun};

use bpf_classic::layout::need;
use bpf_classic::{Annotated, Classic, Converted, Form, Layout};

/// In the entry, in the template of an instruction, or at the exit that answers 0.
#[derive(Clone, Copy)]
pub enum Stretch {
    Entry,
    /// So many slots behind the template's first.
    Template { a: Annotated, offset: u32 },
    /// So many slots behind its first.
    Trap { offset: u32 },
}

/// Of how many instructions the templates begin at the slot or in front of it, if those of `at` do.
pub fn begun(starts: &[u16], at: usize, slot: u32) -> usize
    requires { AreBegun starts.now at slot }
    ensures begun { AreBegun starts.now result slot }
    ensures next { result < length starts.now → slot < slice_index starts.now result }
{
    let mut last = at;
    while last < starts.len() && u32::from(starts[last]) <= slot {
        last += 1;
    }
    last
}

/// Where a slot lies, by how many templates begin there or in front of it.
pub fn part_at(converted: &Converted, begun: usize, slot: u32) -> Stretch
    requires conversion { IsConversion converted.now }
    requires inside { slot < slots converted.now.program.list }
    requires begun { AreBegun converted.now.starts begun slot }
    requires next { begun < length converted.now.starts → slot < slice_index converted.now.starts begun }
    ensures { result ≡ part_at converted.now.layout converted.now.marked slot }
{
    if converted.layout().trap {
        let behind = slot + 2;
        let slots = converted.program().slots();
        if behind >= slots {
            return Stretch::Trap {
                offset: behind - slots,
            };
        }
    }
    if begun == 0 {
        return Stretch::Entry;
    }
    Stretch::Template {
        a: converted.list()[begun - 1],
        offset: slot - u32::from(converted.starts()[begun - 1]),
    }
}

/// Whether the first instruction tests how many bytes are there.
fn tests_first(a: &Annotated) -> bool
    ensures { result ≡ tests_first a.now }
{
    u64::from(a.known) < need(&a.insn)
}

/// Whether a label can stand so many slots behind the template's first.
fn opens_at(a: &Annotated, offset: u32) -> bool
    ensures { result ≡ opens_at a.now a.now.insn offset }
{
    match a.insn {
        Classic::At { .. } | Classic::Header { .. } => {
            offset == 0 || (tests_first(a) && offset == 1)
        }
        Classic::Index { .. } => offset == 0 || offset == 3,
        Classic::Alu { .. } | Classic::JumpIf { .. } => true,
        Classic::Back { .. } => offset == 0 || offset == 1,
        Classic::Constant { .. } | Classic::Length { .. } | Classic::Cell { .. } => offset == 0,
        Classic::Store { .. } | Classic::Extension { .. } | Classic::Neg => offset == 0,
        Classic::Jump { .. } | Classic::Return { .. } | Classic::ReturnA => offset == 0,
        Classic::Tax | Classic::Txa => offset == 0,
    }
}

/// Whether a label can stand in the entry: it cuts a block's length.
fn entry_opens(layout: &Layout, slot: u32) -> bool
    ensures { result ≡ entry_opens layout.now slot }
{
    if slot == 0 {
        return true;
    }
    match layout.form {
        Form::Blocks | Form::Extended => slot == 2 || slot == 3,
        Form::Plain | Form::Seccomp => false,
    }
}

/// Whether a label can stand at a slot: where a template begins, behind its tests, and where it leads inside of itself.
pub fn opens(layout: &Layout, part: Stretch, slot: u32) -> bool
    ensures { result ≡ opens layout.now part slot }
{
    match part {
        Stretch::Entry => entry_opens(layout, slot),
        Stretch::Template { a, offset } => opens_at(&a, offset),
        Stretch::Trap { offset } => offset == 0,
    }
}
