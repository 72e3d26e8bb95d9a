//! Old instructions with a field changed.

use crate::parts::alu;
use bpf_insn::{Cond, FRAME_BYTES, Insn, Operand, Reg, Size, Width};

/// The offset that stands for the frame pointer: offsets into a frame go from 0 to this.
pub const FRAME_END: i32 = FRAME_BYTES as i32;

/// An access by another base.
pub fn with_base(insn: &Insn, base: Reg, off: i16) -> Insn {
    match *insn {
        Insn::Load { size, dst, .. } => Insn::Load {
            size,
            dst,
            src: base,
            off,
        },
        Insn::LoadSx { size, dst, .. } => Insn::LoadSx {
            size,
            dst,
            src: base,
            off,
        },
        Insn::Store { size, src, .. } => Insn::Store {
            size,
            dst: base,
            off,
            src,
        },
        Insn::StoreImm { size, imm, .. } => Insn::StoreImm {
            size,
            dst: base,
            off,
            imm,
        },
        Insn::Atomic { wide, op, src, .. } => Insn::Atomic {
            wide,
            op,
            dst: base,
            off,
            src,
        },
        Insn::Alu { .. } | Insn::Neg { .. } | Insn::MovSx { .. } | Insn::End { .. } => *insn,
        Insn::LoadImm64 { .. } | Insn::Ja { .. } | Insn::JaLong { .. } => *insn,
        Insn::JumpIf { .. } | Insn::CallLocal { .. } | Insn::Exit => *insn,
    }
}

/// The register that a load fills; none of another access.
pub fn loaded(insn: &Insn) -> Option<Reg> {
    match insn.access() {
        Some(access) if !access.writes => insn.register_written(),
        _ => None,
    }
}

/// The operation on 64 bits.
pub fn widened(insn: &Insn) -> Insn {
    let Insn::Alu { op, dst, src, .. } = *insn else {
        return *insn;
    };
    alu(op, dst, src)
}

/// The second operand, with an offset in the place of the frame pointer.
fn operand(src: Operand) -> Operand {
    match src {
        Operand::Reg(Reg::R10) => Operand::Imm(FRAME_END),
        other => other,
    }
}

/// The operation or test with an offset in the place of the frame pointer as its second operand.
fn with_operand(insn: &Insn) -> Insn {
    match *insn {
        Insn::Alu {
            op,
            width,
            dst,
            src,
        } => Insn::Alu {
            op,
            width,
            dst,
            src: operand(src),
        },
        Insn::JumpIf {
            cond,
            width,
            dst,
            src,
            off,
        } => Insn::JumpIf {
            cond,
            width,
            dst,
            src: operand(src),
            off,
        },
        Insn::Neg { .. } | Insn::MovSx { .. } | Insn::End { .. } | Insn::LoadImm64 { .. } => *insn,
        Insn::Load { .. } | Insn::LoadSx { .. } | Insn::Store { .. } | Insn::StoreImm { .. } => {
            *insn
        }
        Insn::Atomic { .. } | Insn::Ja { .. } | Insn::JaLong { .. } => *insn,
        Insn::CallLocal { .. } | Insn::Exit => *insn,
    }
}

/// The instruction with an offset in the place of the frame pointer where it is a value.
pub fn with_offset(insn: &Insn) -> Insn {
    if let Insn::Store {
        size: Size::DW,
        dst,
        off,
        src: Reg::R10,
    } = *insn
    {
        return Insn::StoreImm {
            size: Size::DW,
            dst,
            off,
            imm: FRAME_END,
        };
    }
    with_operand(insn)
}

/// The test that compares with signs as this one does without them, and the other way round.
fn turned(cond: Cond) -> Option<Cond> {
    match cond {
        Cond::Gt => Some(Cond::SGt),
        Cond::Ge => Some(Cond::SGe),
        Cond::Lt => Some(Cond::SLt),
        Cond::Le => Some(Cond::SLe),
        Cond::SGt => Some(Cond::Gt),
        Cond::SGe => Some(Cond::Ge),
        Cond::SLt => Some(Cond::Lt),
        Cond::SLe => Some(Cond::Le),
        Cond::Eq | Cond::Ne | Cond::Set => None,
    }
}

/// A test that orders two pointers of 64 bits, as one of their offsets: what begins in the middle of the addresses is
/// ordered without signs as offsets are with them. None of another instruction.
pub fn with_signs(insn: &Insn) -> Option<Insn> {
    match *insn {
        Insn::JumpIf {
            cond,
            width: Width::W64,
            dst,
            src: Operand::Reg(src),
            off,
        } => Some(Insn::JumpIf {
            cond: turned(cond)?,
            width: Width::W64,
            dst,
            src: Operand::Reg(src),
            off,
        }),
        Insn::Alu { .. } | Insn::Neg { .. } | Insn::MovSx { .. } | Insn::End { .. } => None,
        Insn::LoadImm64 { .. } | Insn::Load { .. } | Insn::LoadSx { .. } => None,
        Insn::Store { .. } | Insn::StoreImm { .. } | Insn::Atomic { .. } => None,
        Insn::Ja { .. } | Insn::JaLong { .. } | Insn::JumpIf { .. } => None,
        Insn::CallLocal { .. } | Insn::Exit => None,
    }
}
