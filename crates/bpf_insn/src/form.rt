//! What an opcode says of its instruction (RFC 9669, sections 3.3, 4 and 5).

ghost use Rattle.std.specs.Prelude.{◌≡◌};
ghost use Rattle.bpf_insn.specs.code.Form.{reach_in, group_in};

use crate::instruction::{AluOp, Cond, EndKind, Group, Size, Width};
use crate::opcodes::{ATOMIC, ATOMIC_WIDE, CALL, EXIT, JA_LONG};

/// Where the second operand comes from: bit 3 of an opcode of arithmetic or of a jump.
#[derive(Clone, Copy)]
pub enum Source {
    Imm,
    Reg,
}

/// Which field tells how far an instruction leads, if it leads anywhere.
#[derive(Clone, Copy)]
pub enum Reach {
    Nowhere,
    ByOffset,
    ByImm,
}

/// What an opcode says of its instruction; the fields say the rest. Of a division, a remainder and a move from a
/// register, the offset field tells which.
#[derive(Clone, Copy)]
pub enum Form {
    Alu {
        op: AluOp,
        width: Width,
        source: Source,
    },
    Divide {
        width: Width,
        source: Source,
    },
    Remainder {
        width: Width,
        source: Source,
    },
    Move {
        width: Width,
    },
    Neg {
        width: Width,
    },
    End {
        kind: EndKind,
    },
    LoadImm64,
    Load {
        size: Size,
    },
    LoadSx {
        size: Size,
    },
    StoreImm {
        size: Size,
    },
    Store {
        size: Size,
    },
    Atomic {
        wide: bool,
    },
    Ja,
    JaLong,
    JumpIf {
        cond: Cond,
        width: Width,
        source: Source,
    },
    CallLocal,
    Exit,
}

/// Which field of an instruction with this opcode tells how far it leads.
pub fn reach_of(opcode: u8) -> Reach
    ensures { result ≡ reach_in opcode }
{
    if opcode % 8 != 5 && opcode % 8 != 6 || opcode == EXIT {
        Reach::Nowhere
    } else if opcode == JA_LONG || opcode == CALL {
        Reach::ByImm
    } else {
        Reach::ByOffset
    }
}

/// The conformance group of an instruction with this opcode (section 2.4).
pub fn group_by(opcode: u8) -> Group
    ensures { result ≡ group_in opcode }
{
    if opcode == ATOMIC || opcode == ATOMIC_WIDE {
        Group::Atomic
    } else if opcode % 8 != 4 && opcode % 8 != 7 {
        Group::Base
    } else {
        match opcode / 16 {
            2 => Group::Divmul,
            3 => Group::Divmul,
            9 => Group::Divmul,
            _ => Group::Base,
        }
    }
}
