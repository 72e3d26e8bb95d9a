//! The templates: what each instruction of a filter becomes.

ghost use Rattle.std.specs.Prelude.{◌≡◌, ◌++◌, ◌≤◌, OnOk};
ghost use Rattle.bpf_insn.specs.Limits.{max_context};
ghost use Rattle.bpf_insn.specs.declared.instruction.Reg.TheVariants.{R1};
ghost use Rattle.bpf_insn.specs.declared.instruction.Size.TheVariants.{W};
ghost use Rattle.bpf_insn.specs.declared.instruction.Insn.TheVariants.{Load as LoadInsn};
ghost use Rattle.bpf_classic.specs.Valid.{max_filter};
ghost use Rattle.bpf_classic.specs.Machine.{same_op, same_test};
ghost use Rattle.bpf_classic.specs.Template.{reg_of, operand_of, cell_offset, length_insn, word_insn, is_register, alu_code, inverse, jump_code, back_code, unless_code, if_code, plain_code, template, from_on, way};

use crate::insns::{alu, constant, ja, put, test_low, test_wide};
use crate::instruction::{Classic, Op, Register, Source, Test};
use crate::layout::{Annotated, Form, Layout};
use crate::loads::put_load;
use crate::ways::{back_of, from_on, way};
use bpf_insn::{AluOp, Cond, Insn, Operand, Reg, Size, Width};
use std::alloc::AllocError;

fn reg_of(register: Register) -> Reg
    ensures { result ≡ reg_of register }
{
    match register {
        Register::A => Reg::R0,
        Register::X => Reg::R3,
    }
}

fn operand_of(source: Source) -> Operand
    ensures { result ≡ operand_of source }
{
    match source {
        Source::K(k) => constant(k),
        Source::X => Operand::Reg(Reg::R3),
    }
}

pub fn cell_offset(cell: u32) -> i16
    ensures { result ≡ cell_offset cell }
{
    0 - 8 * ((cell % 16) as i16 + 1)
}

fn alu_op(op: Op) -> AluOp
    ensures { result ≡ same_op op }
{
    match op {
        Op::Add => AluOp::Add,
        Op::Sub => AluOp::Sub,
        Op::Mul => AluOp::Mul,
        Op::Div => AluOp::Div,
        Op::Or => AluOp::Or,
        Op::And => AluOp::And,
        Op::Lsh => AluOp::Lsh,
        Op::Rsh => AluOp::Rsh,
        Op::Mod => AluOp::Mod,
        Op::Xor => AluOp::Xor,
    }
}

fn cond_of(test: Test) -> Cond
    ensures { result ≡ same_test test }
{
    match test {
        Test::Eq => Cond::Eq,
        Test::Gt => Cond::Gt,
        Test::Ge => Cond::Ge,
        Test::Set => Cond::Set,
    }
}

fn inverse(test: Test) -> Option<Cond>
    ensures { result ≡ inverse test }
{
    match test {
        Test::Eq => Some(Cond::Ne),
        Test::Gt => Some(Cond::Le),
        Test::Ge => Some(Cond::Lt),
        Test::Set => None,
    }
}

/// A load of four bytes of the context.
fn word_load(dst: Reg, off: i16) -> Insn
    ensures { result ≡ LoadInsn W dst R1 off }
{
    Insn::Load {
        size: Size::W,
        dst,
        src: Reg::R1,
        off,
    }
}

fn length_insn(form: Form, offset: i16, dst: Reg) -> Insn
    ensures { result ≡ length_insn form offset dst }
{
    match form {
        Form::Blocks | Form::Extended => word_load(dst, offset),
        Form::Plain => alu(AluOp::Mov, dst, Operand::Reg(Reg::R2)),
        Form::Seccomp => alu(AluOp::Mov, dst, Operand::Imm(64)),
    }
}

/// A load of a word of Linux's auxiliary data, so many bytes behind the first one; 0 where contexts hold none.
fn word_insn(form: Form, offset: u32) -> Insn
    requires { offset ≤ 60 }
    ensures { result ≡ word_insn form offset }
{
    match form {
        Form::Extended => word_load(Reg::R0, (8 + offset) as i16),
        Form::Blocks | Form::Plain | Form::Seccomp => alu(AluOp::Mov, Reg::R0, Operand::Imm(0)),
    }
}

/// Whether a second operand is X.
pub fn is_register(source: Source) -> bool
    ensures { result ≡ is_register source }
{
    match source {
        Source::K(_) => false,
        Source::X => true,
    }
}

fn put_alu(
    out: &mut Vec<Insn>,
    layout: &Layout,
    op: Op,
    source: Source,
    to: u16,
) -> Result<(), AllocError>
    requires near { to ≤ 30000 }
    ensures { OnOk result (out.new.items ≡ out.old.items ++ alu_code layout.now op source to) }
{
    let insn = alu(alu_op(op), Reg::R0, operand_of(source));
    if is_register(source) && op.divides() {
        let test = test_low(Cond::Eq, Reg::R3, Operand::Imm(0), to + 1);
        return put(out, &[test, insn]);
    }
    if is_register(source) && op.shifts() && !layout.is_masked() {
        let test = test_low(Cond::Lt, Reg::R3, Operand::Imm(32), 1);
        let zero = alu(AluOp::Mov, Reg::R0, Operand::Imm(0));
        return put(out, &[test, zero, insn]);
    }
    put(out, &[insn])
}

fn put_jump(out: &mut Vec<Insn>, k: u32, distance: u16) -> Result<(), AllocError>
    requires { distance ≤ 30000 }
    ensures { OnOk result (out.new.items ≡ out.old.items ++ jump_code k distance) }
{
    if k == 0 {
        return Ok(());
    }
    put(out, &[ja(distance)])
}

/// A jump back over so many slots, where the run may jump back once more; so many stand between its template and the exit that answers 0.
fn put_back(out: &mut Vec<Insn>, back: u16, to: u16) -> Result<(), AllocError>
    requires near { to ≤ 30000 }
    requires far { back ≤ 30000 }
    ensures { OnOk result (out.new.items ≡ out.old.items ++ back_code back to) }
{
    let test = test_wide(Cond::Eq, Reg::R5, Operand::Imm(0), to + 2);
    let count = Insn::Alu {
        op: AluOp::Add,
        width: Width::W64,
        dst: Reg::R5,
        src: Operand::Imm(-1),
    };
    let jump = Insn::Ja {
        off: -1 - back as i16,
    };
    put(out, &[test, count, jump])
}

fn put_unless(
    out: &mut Vec<Insn>,
    cond: Option<Cond>,
    source: Source,
    distance: u16,
) -> Result<(), AllocError>
    requires { distance ≤ 30000 }
    ensures { OnOk result (out.new.items ≡ out.old.items ++ unless_code cond source distance) }
{
    match cond {
        Some(cond) => put(
            out,
            &[test_low(cond, Reg::R0, operand_of(source), distance)],
        ),
        None => {
            let test = test_low(Cond::Set, Reg::R0, operand_of(source), 1);
            put(out, &[test, ja(distance)])
        }
    }
}

/// A conditional jump; `ways` are how far it is to where it leads if the test holds, and if not.
fn put_if(
    out: &mut Vec<Insn>,
    test: Test,
    source: Source,
    jumps: (u8, u8),
    ways: (u16, u16),
) -> Result<(), AllocError>
    requires near { ways.0 ≤ 30000 }
    requires far { ways.1 ≤ 30000 }
    ensures { OnOk result (out.new.items ≡ out.old.items ++ if_code test source jumps.0 jumps.1 ways.0 ways.1) }
{
    let (jt, jf) = jumps;
    let (to_true, to_false) = ways;
    if jt == jf {
        return put_jump(out, u32::from(jt), to_true);
    }
    if jt == 0 {
        return put_unless(out, inverse(test), source, to_false);
    }
    let behind: u16 = if jf == 0 { 0 } else { 1 };
    let jump = test_low(cond_of(test), Reg::R0, operand_of(source), to_true + behind);
    put(out, &[jump])?;
    put_jump(out, u32::from(jf), to_false)
}

/// Writes what an instruction becomes that is neither a load from the packet nor a jump.
fn put_plain(out: &mut Vec<Insn>, layout: &Layout, insn: Classic, to: u16) -> Result<(), AllocError>
    requires near { to ≤ 30000 }
    ensures { OnOk result (out.new.items ≡ out.old.items ++ plain_code layout.now insn to) }
{
    match insn {
        Classic::Constant { to, k } => put(out, &[alu(AluOp::Mov, reg_of(to), constant(k))]),
        Classic::Length { to } => put(
            out,
            &[length_insn(layout.form, layout.length_offset(), reg_of(to))],
        ),
        Classic::Cell { to, cell } => put(
            out,
            &[Insn::Load {
                size: Size::DW,
                dst: reg_of(to),
                src: Reg::R10,
                off: cell_offset(cell),
            }],
        ),
        Classic::Store { from, cell } => put(
            out,
            &[Insn::Store {
                size: Size::DW,
                dst: Reg::R10,
                off: cell_offset(cell),
                src: reg_of(from),
            }],
        ),
        Classic::Extension { word } => put(out, &[word_insn(layout.form, word.offset())]),
        Classic::Alu { op, source } => put_alu(out, layout, op, source, to),
        Classic::Neg => put(
            out,
            &[Insn::Neg {
                width: Width::W32,
                dst: Reg::R0,
            }],
        ),
        Classic::Return { k } => put(out, &[alu(AluOp::Mov, Reg::R0, constant(k)), Insn::Exit]),
        Classic::ReturnA => put(out, &[Insn::Exit]),
        Classic::Tax => put(out, &[alu(AluOp::Mov, Reg::R3, Operand::Reg(Reg::R0))]),
        Classic::Txa => put(out, &[alu(AluOp::Mov, Reg::R0, Operand::Reg(Reg::R3))]),
        Classic::At { .. } | Classic::Index { .. } | Classic::Header { .. } => Ok(()),
        Classic::Jump { .. } | Classic::Back { .. } | Classic::JumpIf { .. } => Ok(()),
    }
}

/// Writes the template of an instruction. By the table so many slots stand from each instruction on, `from` being the next one.
pub fn emit(
    out: &mut Vec<Insn>,
    layout: &Layout,
    a: &Annotated,
    table: &[u16],
    from: usize,
) -> Result<(), AllocError>
    requires few { layout.now.length ≤ max_context }
    requires small { from ≤ max_filter }
    ensures { OnOk result (out.new.items ≡ out.old.items ++ template layout.now a.now (way table.now from) (from_on table.now from)) }
{
    if !a.reached {
        return Ok(());
    }
    let to = from_on(table, from);
    match a.insn {
        Classic::At { .. } => put_load(out, layout, a, to),
        Classic::Index { .. } => put_load(out, layout, a, to),
        Classic::Header { .. } => put_load(out, layout, a, to),
        Classic::Jump { k } => put_jump(out, k, way(table, from, k as usize)),
        Classic::Back { .. } => put_back(out, back_of(a), to),
        Classic::JumpIf {
            test,
            source,
            jt,
            jf,
        } => {
            let ways = (
                way(table, from, usize::from(jt)),
                way(table, from, usize::from(jf)),
            );
            put_if(out, test, source, (jt, jf), ways)
        }
        Classic::Constant { .. } => put_plain(out, layout, a.insn, to),
        Classic::Length { .. } => put_plain(out, layout, a.insn, to),
        Classic::Cell { .. } => put_plain(out, layout, a.insn, to),
        Classic::Store { .. } => put_plain(out, layout, a.insn, to),
        Classic::Extension { .. } => put_plain(out, layout, a.insn, to),
        Classic::Alu { .. } => put_plain(out, layout, a.insn, to),
        Classic::Neg => put_plain(out, layout, a.insn, to),
        Classic::Return { .. } => put_plain(out, layout, a.insn, to),
        Classic::ReturnA => put_plain(out, layout, a.insn, to),
        Classic::Tax => put_plain(out, layout, a.insn, to),
        Classic::Txa => put_plain(out, layout, a.insn, to),
    }
}
