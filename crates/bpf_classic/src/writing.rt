//! The program of a filter, written: the entry, the templates one after another, the exit that answers 0.

ghost use Rattle.std.specs.Prelude.{◌≡◌, ◌≤◌, ◌++◌, length, true, flat_map, IfOk, OnOk};
ghost use Rattle.std.specs.List.{range_with_len};
ghost use Rattle.bpf_insn.specs.Limits.{max_context};
ghost use Rattle.bpf_classic.specs.Valid.{max_filter};
ghost use Rattle.bpf_classic.specs.Template.{loads, is_loaded, size, total, room_insns, turns_code, zero_if, zero_cell, entry, code, IsTable};

use crate::emit::{cell_offset, emit};
use crate::insns::{alu, constant, test_wide};
use crate::instruction::Classic;
use crate::layout::{Annotated, Form, Layout};
use bpf_insn::{AluOp, Cond, Insn, Operand, Reg, Size, Width};
use std::alloc::{AllocError, Global};

/// How many slots the template of an instruction has.
fn slots_of(scratch: &mut Vec<Insn>, layout: &Layout, a: &Annotated) -> Result<u16, AllocError>
    requires { layout.now.length ≤ max_context }
    ensures same { IfOk result (λ n. n ≡ size layout.now a.now) }
    ensures few { IfOk result (λ n. n ≤ 6) }
{
    scratch.clear();
    emit(scratch, layout, a, &[], 0)?;
    Ok(scratch.len() as u16)
}

/// How many slots stand from the template of each instruction on: each is written once, with no distances, and counted.
pub fn slots_from(
    alloc: Global,
    layout: &Layout,
    list: &[Annotated],
) -> Result<Vec<u16>, AllocError>
    requires short { layout.now.length ≤ max_context }
    requires few { length list.now ≤ max_filter }
    ensures { IfOk result (λ table. IsTable layout.now list.now table.items) }
{
    let mut table = vec![in alloc; 0u16; list.len()]?;
    let mut scratch = Vec::with_capacity(alloc, 6)?;
    let mut slots = 0u16;
    'back: for back in 0..list.len() {
        let at = list.len() - 1 - back;
        slots += slots_of(&mut scratch, layout, &list[at])?;
        table[at] = slots;
    }
    Ok(table)
}

/// Whether an instruction loads this cell.
fn loads(cell: u32, insn: &Classic) -> bool
    ensures { result ≡ loads cell insn.now }
{
    match *insn {
        Classic::Cell { cell: other, .. } => other == cell,
        Classic::Constant { .. } | Classic::Length { .. } | Classic::Store { .. } => false,
        Classic::At { .. } | Classic::Index { .. } | Classic::Header { .. } => false,
        Classic::Alu { .. } | Classic::Neg | Classic::Jump { .. } => false,
        Classic::Back { .. } | Classic::JumpIf { .. } | Classic::Return { .. } | Classic::ReturnA =>
            false,
        Classic::Extension { .. } | Classic::Tax | Classic::Txa => false,
    }
}

/// Whether an instruction loads a cell.
fn is_loaded(list: &[Annotated], wanted: u32) -> bool
    ensures { result ≡ is_loaded list.now wanted }
{
    list.iter().any(|a| a.reached && loads(wanted, &a.insn))
}

fn put_zero(out: &mut Vec<Insn>, dst: Reg) -> Result<(), AllocError>
    ensures { OnOk result (out.new.items ≡ out.old.items ++ zero_if true dst) }
{
    out.push(Insn::Alu {
        op: AluOp::Mov,
        width: Width::W64,
        dst,
        src: Operand::Imm(0),
    })?;
    Ok(())
}

/// How many bytes of the packet are there: as a block says, but not more than it can hold.
fn put_room(out: &mut Vec<Insn>, layout: &Layout) -> Result<(), AllocError>
    ensures { OnOk result (out.new.items ≡ out.old.items ++ room_insns layout.now) }
{
    out.push(Insn::Load {
        size: Size::DW,
        dst: Reg::R2,
        src: Reg::R1,
        off: 0,
    })?;
    let room = constant(layout.room());
    out.push(test_wide(Cond::Le, Reg::R2, room, 1))?;
    out.push(Insn::Alu {
        op: AluOp::Mov,
        width: Width::W64,
        dst: Reg::R2,
        src: room,
    })?;
    Ok(())
}

/// How often a run may jump back, where there is a loop.
fn put_turns(out: &mut Vec<Insn>, layout: &Layout) -> Result<(), AllocError>
    ensures { OnOk result (out.new.items ≡ out.old.items ++ turns_code layout.now) }
{
    if layout.loops {
        out.push(Insn::Alu {
            op: AluOp::Mov,
            width: Width::W64,
            dst: Reg::R5,
            src: constant(u32::from(layout.turns)),
        })?;
    }
    Ok(())
}

/// A zero in a cell, if it may be loaded.
fn put_cell(out: &mut Vec<Insn>, list: &[Annotated], cell: u32) -> Result<(), AllocError>
    ensures { OnOk result (out.new.items ≡ out.old.items ++ zero_cell list.now cell) }
{
    if is_loaded(list, cell) {
        out.push(Insn::StoreImm {
            size: Size::DW,
            dst: Reg::R10,
            off: cell_offset(cell),
            imm: 0,
        })?;
    }
    Ok(())
}

/// Zeros in the cells that may be loaded.
fn put_cells(out: &mut Vec<Insn>, list: &[Annotated]) -> Result<(), AllocError>
    ensures { OnOk result (out.new.items ≡ out.old.items ++ flat_map (zero_cell list.now) (range_with_len 0 16)) }
{
    for cell in 0..16 {
        put_cell(out, list, cell)?;
    }
    Ok(())
}

/// The entry: how many bytes are there, how often a run may jump back, and zeros where something may be read before anything has set it.
pub fn put_entry(out: &mut Vec<Insn>, layout: &Layout, list: &[Annotated]) -> Result<(), AllocError>
    ensures { OnOk result (out.new.items ≡ out.old.items ++ entry layout.now list.now) }
{
    if matches!(layout.form, Form::Blocks | Form::Extended) {
        put_room(out, layout)?;
    }
    put_turns(out, layout)?;
    if layout.zero_a {
        put_zero(out, Reg::R0)?;
    }
    if layout.zero_x {
        put_zero(out, Reg::R3)?;
    }
    put_cells(out, list)
}

/// The templates one after another, and the exit that answers 0 behind them.
pub fn put_templates(
    out: &mut Vec<Insn>,
    layout: &Layout,
    list: &[Annotated],
    table: &[u16],
) -> Result<(), AllocError>
    requires few { length list.now ≤ max_filter }
    requires short { layout.now.length ≤ max_context }
    requires table { IsTable layout.now list.now table.now }
    ensures { OnOk result (out.new.items ≡ out.old.items ++ code layout.now list.now) }
{
    for at in 0..list.len() {
        emit(out, layout, &list[at], table, at + 1)?;
    }
    if layout.trap {
        out.push(alu(AluOp::Mov, Reg::R0, Operand::Imm(0)))?;
        out.push(Insn::Exit)?;
    }
    Ok(())
}
