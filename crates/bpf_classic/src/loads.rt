//! The templates of loads from a packet.

ghost use Rattle.std.specs.Prelude.{◌≡◌, ◌++◌, ◌≤◌, [], ◌∷◌, pos, length, OnOk};
ghost use Rattle.bpf_insn.specs.Limits.{max_context};
ghost use Rattle.bpf_insn.specs.declared.instruction.Insn.TheVariants.{Ja};
ghost use Rattle.bpf_classic.specs.Template.{swap_of, length_test, at_code, index_code, header_code, any_load_code, need};

use crate::insns::{alu, constant, ja, put, test_wide};
use crate::instruction::{Classic, LoadSize};
use crate::layout::{Annotated, Layout, bytes, end_bits, head, insn_size, is_beyond, need};
use bpf_insn::{AluOp, Cond, EndKind, Insn, Operand, Reg, Size, Width};
use std::alloc::AllocError;

/// The slots of the byte swap behind a load.
fn swap_slots(layout: &Layout, size: LoadSize) -> u16
    ensures same { result ≡ length (swap_of layout.now size) }
    ensures few { result ≤ 1 }
{
    if layout.is_swapped() && end_bits(size).is_some() {
        1
    } else {
        0
    }
}

fn put_swap(out: &mut Vec<Insn>, layout: &Layout, size: LoadSize) -> Result<(), AllocError>
    ensures { OnOk result (out.new.items ≡ out.old.items ++ swap_of layout.now size) }
{
    if !layout.is_swapped() {
        return Ok(());
    }
    match end_bits(size) {
        Some(bits) => put(
            out,
            &[Insn::End {
                kind: EndKind::Be,
                bits,
                dst: Reg::R0,
            }],
        ),
        None => Ok(()),
    }
}

/// The test that as many bytes are there as an instruction needs, where that isn't known; the trap is `to` slots from the end of the
/// template, of which `behind` slots follow.
fn put_length_test(
    out: &mut Vec<Insn>,
    a: &Annotated,
    behind: u16,
    to: u16,
) -> Result<(), AllocError>
    requires few { need a.now.insn ≤ max_context }
    requires near { to ≤ 30000 }
    requires short { behind ≤ 10 }
    ensures { OnOk result (out.new.items ≡ out.old.items ++ length_test a.now behind to) }
{
    let need = need(&a.insn);
    if need <= u64::from(a.known) {
        return Ok(());
    }
    let test = test_wide(Cond::Lt, Reg::R2, constant(need as u32), to + behind);
    put(out, &[test])
}

fn put_at(
    out: &mut Vec<Insn>,
    layout: &Layout,
    a: &Annotated,
    place: (LoadSize, u32),
    to: u16,
) -> Result<(), AllocError>
    requires few { need a.now.insn ≤ max_context }
    requires low { place.1 ≤ max_context }
    requires near { to ≤ 30000 }
    ensures { OnOk result (out.new.items ≡ out.old.items ++ at_code layout.now a.now place.0 place.1 to) }
{
    let (size, k) = place;
    put_length_test(out, a, 1 + swap_slots(layout, size), to)?;
    let load = Insn::Load {
        size: insn_size(size),
        dst: Reg::R0,
        src: Reg::R1,
        off: (head(layout.form) + k) as i16,
    };
    put(out, &[load])?;
    put_swap(out, layout, size)
}

fn put_index(
    out: &mut Vec<Insn>,
    layout: &Layout,
    size: LoadSize,
    k: u32,
    to: u16,
) -> Result<(), AllocError>
    requires low { k ≤ max_context }
    requires near { to ≤ 30000 }
    ensures { OnOk result (out.new.items ≡ out.old.items ++ index_code layout.now size k to) }
{
    let index = alu(AluOp::Mov, Reg::R4, Operand::Reg(Reg::R3));
    let end = Insn::Alu {
        op: AluOp::Add,
        width: Width::W64,
        dst: Reg::R4,
        src: constant(k + bytes(size)),
    };
    let distance = to + (2 + swap_slots(layout, size));
    let test = test_wide(Cond::Gt, Reg::R4, Operand::Reg(Reg::R2), distance);
    let at = Insn::Alu {
        op: AluOp::Add,
        width: Width::W64,
        dst: Reg::R4,
        src: Operand::Reg(Reg::R1),
    };
    let load = Insn::Load {
        size: insn_size(size),
        dst: Reg::R0,
        src: Reg::R4,
        off: head(layout.form) as i16 - bytes(size) as i16,
    };
    put(out, &[index, end, test, at, load])?;
    put_swap(out, layout, size)
}

fn put_header(
    out: &mut Vec<Insn>,
    layout: &Layout,
    a: &Annotated,
    k: u32,
    to: u16,
) -> Result<(), AllocError>
    requires few { need a.now.insn ≤ max_context }
    requires low { k ≤ max_context }
    requires near { to ≤ 30000 }
    ensures { OnOk result (out.new.items ≡ out.old.items ++ header_code layout.now a.now k to) }
{
    put_length_test(out, a, 3, to)?;
    let load = Insn::Load {
        size: Size::B,
        dst: Reg::R3,
        src: Reg::R1,
        off: (head(layout.form) + k) as i16,
    };
    let low = alu(AluOp::And, Reg::R3, Operand::Imm(15));
    let words = alu(AluOp::Lsh, Reg::R3, Operand::Imm(2));
    put(out, &[load, low, words])
}

/// What an instruction becomes that loads from beyond every packet.
fn put_trap(out: &mut Vec<Insn>, to: u16) -> Result<(), AllocError>
    requires { to ≤ 30000 }
    ensures { OnOk result (out.new.items ≡ out.old.items ++ Ja (pos to) ∷ []) }
{
    put(out, &[ja(to)])
}

/// Writes what a load from the packet becomes; so many slots stand between its template and the exit that answers 0.
pub fn put_load(
    out: &mut Vec<Insn>,
    layout: &Layout,
    a: &Annotated,
    to: u16,
) -> Result<(), AllocError>
    requires few { layout.now.length ≤ max_context }
    requires near { to ≤ 30000 }
    ensures { OnOk result (out.new.items ≡ out.old.items ++ any_load_code layout.now a.now a.now.insn to) }
{
    if is_beyond(layout, &a.insn) {
        return put_trap(out, to);
    }
    match a.insn {
        Classic::At { size, k } => put_at(out, layout, a, (size, k), to),
        Classic::Index { size, k } => put_index(out, layout, size, k, to),
        Classic::Header { k } => put_header(out, layout, a, k, to),
        Classic::Constant { .. } | Classic::Length { .. } | Classic::Cell { .. } => Ok(()),
        Classic::Store { .. } | Classic::Alu { .. } | Classic::Neg => Ok(()),
        Classic::Jump { .. } | Classic::Back { .. } | Classic::JumpIf { .. } => Ok(()),
        Classic::Return { .. } | Classic::Extension { .. } | Classic::ReturnA => Ok(()),
        Classic::Tax | Classic::Txa => Ok(()),
    }
}
