//! The instructions that hardening adds.

use bpf_insn::{AluOp, Cond, Insn, Operand, Reg, Size, Width};
use bpf_state::Place;

/// The offset of a slot of the frame.
fn offset_of(slot: u8) -> i16 {
    0i16.saturating_sub(i16::from(slot).saturating_mul(8))
}

/// A 64-bit operation.
pub fn alu(op: AluOp, dst: Reg, src: Operand) -> Insn {
    Insn::Alu {
        op,
        width: Width::W64,
        dst,
        src,
    }
}

/// Puts a constant into a register.
pub fn set(dst: Reg, constant: u64) -> Insn {
    match i32::try_from(constant.cast_signed()) {
        Ok(small) => alu(AluOp::Mov, dst, Operand::Imm(small)),
        Err(_) => Insn::LoadImm64 {
            dst,
            value: constant,
        },
    }
}

/// Copies a register.
pub fn copy(dst: Reg, src: Reg) -> Insn {
    alu(AluOp::Mov, dst, Operand::Reg(src))
}

/// Adds a register.
pub fn add(dst: Reg, src: Reg) -> Insn {
    alu(AluOp::Add, dst, Operand::Reg(src))
}

/// Adds a constant.
pub fn add_constant(dst: Reg, constant: i32) -> Insn {
    alu(AluOp::Add, dst, Operand::Imm(constant))
}

/// Loads eight bytes.
pub fn load(dst: Reg, src: Reg, off: i16) -> Insn {
    Insn::Load {
        size: Size::DW,
        dst,
        src,
        off,
    }
}

/// Puts what a place holds into a register.
pub fn fetch(dst: Reg, place: Place) -> Insn {
    match place {
        Place::Register(r) => copy(dst, r),
        Place::Slot(slot) => load(dst, Reg::R10, offset_of(slot)),
    }
}

/// Puts a register into a place.
pub fn keep(place: Place, src: Reg) -> Insn {
    match place {
        Place::Register(r) => copy(r, src),
        Place::Slot(slot) => Insn::Store {
            size: Size::DW,
            dst: Reg::R10,
            off: offset_of(slot),
            src,
        },
    }
}

/// Puts a constant into a place.
pub fn keep_constant(place: Place, constant: i32) -> Insn {
    match place {
        Place::Register(r) => alu(AluOp::Mov, r, Operand::Imm(constant)),
        Place::Slot(slot) => Insn::StoreImm {
            size: Size::DW,
            dst: Reg::R10,
            off: offset_of(slot),
            imm: constant,
        },
    }
}

/// A conditional jump on all 64 bits, its distance open.
pub fn jump_if(cond: Cond, dst: Reg, src: Operand) -> Insn {
    Insn::JumpIf {
        cond,
        width: Width::W64,
        dst,
        src,
        off: 0,
    }
}

/// A conditional jump over the next instruction, on all 64 bits and a constant.
pub fn skip_if(cond: Cond, dst: Reg, constant: i32) -> Insn {
    Insn::JumpIf {
        cond,
        width: Width::W64,
        dst,
        src: Operand::Imm(constant),
        off: 1,
    }
}

/// A jump, its distance open.
pub const JUMP: Insn = Insn::Ja { off: 0 };

/// The nearest constant that fits an instruction.
pub fn constant(number: i64) -> i32 {
    i32::try_from(number).unwrap_or(if number < 0 { i32::MIN } else { i32::MAX })
}

/// The nearest displacement that fits an instruction.
pub fn displacement(number: i64) -> i16 {
    i16::try_from(number).unwrap_or(if number < 0 { i16::MIN } else { i16::MAX })
}

/// Whether a displacement fits an instruction.
pub fn is_near(number: i64) -> bool {
    i16::try_from(number).is_ok()
}
