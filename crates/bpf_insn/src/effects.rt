//! What an instruction reads, writes and accesses (RFC 9669, sections 4 and 5).

ghost use Rattle.std.specs.Prelude.{◌≡◌, ◌∷◌, true, false};
ghost use Rattle.std.specs.List.{filter_map};
ghost use Rattle.bpf_insn.specs.Effects.{operand_register, registers_read, register_written, access_of};
ghost use Rattle.bpf_insn.specs.declared.instruction.Insn.TheVariants.{Alu};
ghost use Rattle.bpf_insn.specs.declared.instruction.Width.{Width};

use crate::instruction::{AluOp, AtomicOp, Insn, Operand, Reg, Size};
use std::marker::Model;

/// An access to memory: at an offset from a register, what it reads and what it writes.
#[derive(Clone, Copy)]
pub struct Access {
    pub base: Reg,
    pub off: i16,
    pub size: Size,
    pub reads: bool,
    pub writes: bool,
}

impl Model for Access {
    ghost use Rattle.bpf_insn.specs.Effects.{Access};

    ghost Value = { Access };

    ghost view = { λ a. record { base = a.base; offset = a.off; size = a.size; reads = a.reads; writes = a.writes } };

    ghost inverse = { λ a. record { base = a.base; off = a.offset; size = a.size; reads = a.reads; writes = a.writes } };
}

fn read_at(base: Reg, off: i16, size: Size) -> Access
    ensures { result ≡ record { base = base; offset = off; size = size; reads = true; writes = false } }
{
    Access {
        base,
        off,
        size,
        reads: true,
        writes: false,
    }
}

fn write_at(base: Reg, off: i16, size: Size) -> Access
    ensures { result ≡ record { base = base; offset = off; size = size; reads = false; writes = true } }
{
    Access {
        base,
        off,
        size,
        reads: false,
        writes: true,
    }
}

/// The second operand alone.
fn operand_of(src: Operand) -> [Option<Reg>; 3]
    ensures { filter_map (λ r. r) result ≡ operand_register src }
{
    match src {
        Operand::Reg(reg) => [Some(reg), None, None],
        Operand::Imm(_imm) => [None, None, None],
    }
}

/// Both operands.
fn operands_of(dst: Reg, src: Operand) -> [Option<Reg>; 3]
    ensures { filter_map (λ r. r) result ≡ dst ∷ operand_register src }
{
    match src {
        Operand::Reg(reg) => [Some(dst), Some(reg), None],
        Operand::Imm(_imm) => [Some(dst), None, None],
    }
}

/// The registers that an operation reads.
fn read_by(op: AluOp, dst: Reg, src: Operand) -> [Option<Reg>; 3]
    ensures { (width : Width) → filter_map (λ r. r) result ≡ registers_read (Alu op width dst src) }
{
    match op {
        AluOp::Mov => operand_of(src),
        AluOp::Add | AluOp::Sub | AluOp::Mul | AluOp::Div | AluOp::SDiv | AluOp::Mod => {
            operands_of(dst, src)
        }
        AluOp::SMod | AluOp::Or | AluOp::And | AluOp::Xor => operands_of(dst, src),
        AluOp::Lsh | AluOp::Rsh | AluOp::Arsh => operands_of(dst, src),
    }
}

impl Insn {
    /// The registers that it reads (RFC 9669, sections 4 and 5), with None in the places that are left. A call reads none:
    /// it hands r1 to r5 on as they are.
    pub fn registers_read(&self) -> [Option<Reg>; 3]
        ensures { filter_map (λ r. r) result ≡ registers_read self.now }
    {
        match *self {
            Insn::Alu { op, dst, src, .. } => read_by(op, dst, src),
            Insn::JumpIf { dst, src, .. } => operands_of(dst, src),
            Insn::Neg { dst, .. } | Insn::End { dst, .. } | Insn::StoreImm { dst, .. } => {
                [Some(dst), None, None]
            }
            Insn::MovSx { src, .. } | Insn::Load { src, .. } | Insn::LoadSx { src, .. } => {
                [Some(src), None, None]
            }
            Insn::Store { dst, src, .. } => [Some(dst), Some(src), None],
            Insn::Atomic {
                op: AtomicOp::CmpXchg,
                dst,
                src,
                ..
            } => [Some(dst), Some(src), Some(Reg::R0)],
            Insn::Atomic { dst, src, .. } => [Some(dst), Some(src), None],
            Insn::Exit => [Some(Reg::R0), None, None],
            Insn::LoadImm64 { .. }
            | Insn::Ja { .. }
            | Insn::JaLong { .. }
            | Insn::CallLocal { .. } => [None, None, None],
        }
    }

    /// The register that it writes, but for those that a call or a return changes.
    pub fn register_written(&self) -> Option<Reg>
        ensures { result ≡ register_written self.now }
    {
        match *self {
            Insn::Alu { dst, .. } | Insn::Neg { dst, .. } | Insn::MovSx { dst, .. } => Some(dst),
            Insn::End { dst, .. } | Insn::LoadImm64 { dst, .. } => Some(dst),
            Insn::Load { dst, .. } | Insn::LoadSx { dst, .. } => Some(dst),
            Insn::Atomic { op, src, .. } => op.fetch_register(src),
            Insn::Store { .. } | Insn::StoreImm { .. } | Insn::Ja { .. } => None,
            Insn::JaLong { .. } | Insn::JumpIf { .. } | Insn::CallLocal { .. } => None,
            Insn::Exit => None,
        }
    }

    /// Its access to memory, if it has one.
    pub fn access(&self) -> Option<Access>
        ensures { result ≡ access_of self.now }
    {
        match *self {
            Insn::Load { size, src, off, .. } => Some(read_at(src, off, size)),
            Insn::LoadSx { size, src, off, .. } => Some(read_at(src, off, size)),
            Insn::Store { size, dst, off, .. } => Some(write_at(dst, off, size)),
            Insn::StoreImm { size, dst, off, .. } => Some(write_at(dst, off, size)),
            Insn::Atomic { wide, dst, off, .. } => Some(Access {
                base: dst,
                off,
                size: Size::of_word(wide),
                reads: true,
                writes: true,
            }),
            Insn::Alu { .. } | Insn::Neg { .. } | Insn::MovSx { .. } | Insn::End { .. } => None,
            Insn::LoadImm64 { .. } | Insn::Ja { .. } | Insn::JaLong { .. } => None,
            Insn::JumpIf { .. } | Insn::CallLocal { .. } | Insn::Exit => None,
        }
    }
}
