//! Single instructions of templates.

ghost use Rattle.std.specs.Prelude.{◌≡◌, ◌++◌, ◌≤◌, pos, OnOk};
ghost use Rattle.bpf_insn.specs.declared.instruction.Width.TheVariants.{W32, W64};
ghost use Rattle.bpf_insn.specs.declared.instruction.Insn.TheVariants.{Alu as AluInsn, Ja, JumpIf as JumpIfInsn};
ghost use Rattle.bpf_classic.specs.Template.{constant};

use bpf_insn::{AluOp, Cond, Insn, Operand, Reg, Width};
use std::alloc::AllocError;

/// The constant of an instruction.
pub fn constant(k: u32) -> Operand
    ensures { result ≡ constant k }
{
    Operand::Imm(k.cast_signed())
}

/// An operation on low halves.
pub fn alu(op: AluOp, dst: Reg, src: Operand) -> Insn
    ensures { result ≡ AluInsn op W32 dst src }
{
    Insn::Alu {
        op,
        width: Width::W32,
        dst,
        src,
    }
}

/// A jump.
pub fn ja(distance: u16) -> Insn
    requires { distance ≤ 32767 }
    ensures { result ≡ Ja (pos distance) }
{
    Insn::Ja {
        off: distance as i16,
    }
}

/// A test of A's or X's low half.
pub fn test_low(cond: Cond, dst: Reg, src: Operand, distance: u16) -> Insn
    requires { distance ≤ 32767 }
    ensures { result ≡ JumpIfInsn cond W32 dst src (pos distance) }
{
    Insn::JumpIf {
        cond,
        width: Width::W32,
        dst,
        src,
        off: distance as i16,
    }
}

/// A test of all 64 bits.
pub fn test_wide(cond: Cond, dst: Reg, src: Operand, distance: u16) -> Insn
    requires { distance ≤ 32767 }
    ensures { result ≡ JumpIfInsn cond W64 dst src (pos distance) }
{
    Insn::JumpIf {
        cond,
        width: Width::W64,
        dst,
        src,
        off: distance as i16,
    }
}

/// Writes instructions behind what is written.
pub fn put(out: &mut Vec<Insn>, insns: &[Insn]) -> Result<(), AllocError>
    ensures { OnOk result (out.new.items ≡ out.old.items ++ insns.now) }
{
    out.extend_from_slice(insns)?;
    Ok(())
}
