//! The form of each opcode (RFC 9669, sections 3.3, 4 and 5).

ghost use Rattle.std.specs.Prelude.{◌≡◌};
ghost use Rattle.bpf_insn.specs.code.Form.{form_in};

use crate::form::{Form, Source};
use crate::instruction::{AluOp, Cond, EndKind, Size, Width};

macro_rules! alu {
    ($op:ident, $width:ident, $source:ident) => {
        Some(Form::Alu {
            op: AluOp::$op,
            width: Width::$width,
            source: Source::$source,
        })
    };
}

macro_rules! divide {
    ($width:ident, $source:ident) => {
        Some(Form::Divide {
            width: Width::$width,
            source: Source::$source,
        })
    };
}

macro_rules! remainder {
    ($width:ident, $source:ident) => {
        Some(Form::Remainder {
            width: Width::$width,
            source: Source::$source,
        })
    };
}

macro_rules! mov {
    ($width:ident) => {
        Some(Form::Move {
            width: Width::$width,
        })
    };
}

macro_rules! neg {
    ($width:ident) => {
        Some(Form::Neg {
            width: Width::$width,
        })
    };
}

macro_rules! end {
    ($kind:ident) => {
        Some(Form::End {
            kind: EndKind::$kind,
        })
    };
}

macro_rules! load {
    ($size:ident) => {
        Some(Form::Load { size: Size::$size })
    };
}

macro_rules! load_sx {
    ($size:ident) => {
        Some(Form::LoadSx { size: Size::$size })
    };
}

macro_rules! store_imm {
    ($size:ident) => {
        Some(Form::StoreImm { size: Size::$size })
    };
}

macro_rules! store {
    ($size:ident) => {
        Some(Form::Store { size: Size::$size })
    };
}

macro_rules! atomic {
    ($wide:expr) => {
        Some(Form::Atomic { wide: $wide })
    };
}

macro_rules! jump_if {
    ($cond:ident, $width:ident, $source:ident) => {
        Some(Form::JumpIf {
            cond: Cond::$cond,
            width: Width::$width,
            source: Source::$source,
        })
    };
}

/// The forms of instructions by opcode; None where there is no instruction.
pub static FORMS: [Option<Form>; 256] = [
    // 0x00
    None,
    None,
    None,
    None,
    alu!(Add, W32, Imm),
    Some(Form::Ja),
    Some(Form::JaLong),
    alu!(Add, W64, Imm),
    // 0x08
    None,
    None,
    None,
    None,
    alu!(Add, W32, Reg),
    None,
    None,
    alu!(Add, W64, Reg),
    // 0x10
    None,
    None,
    None,
    None,
    alu!(Sub, W32, Imm),
    jump_if!(Eq, W64, Imm),
    jump_if!(Eq, W32, Imm),
    alu!(Sub, W64, Imm),
    // 0x18
    Some(Form::LoadImm64),
    None,
    None,
    None,
    alu!(Sub, W32, Reg),
    jump_if!(Eq, W64, Reg),
    jump_if!(Eq, W32, Reg),
    alu!(Sub, W64, Reg),
    // 0x20
    None,
    None,
    None,
    None,
    alu!(Mul, W32, Imm),
    jump_if!(Gt, W64, Imm),
    jump_if!(Gt, W32, Imm),
    alu!(Mul, W64, Imm),
    // 0x28
    None,
    None,
    None,
    None,
    alu!(Mul, W32, Reg),
    jump_if!(Gt, W64, Reg),
    jump_if!(Gt, W32, Reg),
    alu!(Mul, W64, Reg),
    // 0x30
    None,
    None,
    None,
    None,
    divide!(W32, Imm),
    jump_if!(Ge, W64, Imm),
    jump_if!(Ge, W32, Imm),
    divide!(W64, Imm),
    // 0x38
    None,
    None,
    None,
    None,
    divide!(W32, Reg),
    jump_if!(Ge, W64, Reg),
    jump_if!(Ge, W32, Reg),
    divide!(W64, Reg),
    // 0x40
    None,
    None,
    None,
    None,
    alu!(Or, W32, Imm),
    jump_if!(Set, W64, Imm),
    jump_if!(Set, W32, Imm),
    alu!(Or, W64, Imm),
    // 0x48
    None,
    None,
    None,
    None,
    alu!(Or, W32, Reg),
    jump_if!(Set, W64, Reg),
    jump_if!(Set, W32, Reg),
    alu!(Or, W64, Reg),
    // 0x50
    None,
    None,
    None,
    None,
    alu!(And, W32, Imm),
    jump_if!(Ne, W64, Imm),
    jump_if!(Ne, W32, Imm),
    alu!(And, W64, Imm),
    // 0x58
    None,
    None,
    None,
    None,
    alu!(And, W32, Reg),
    jump_if!(Ne, W64, Reg),
    jump_if!(Ne, W32, Reg),
    alu!(And, W64, Reg),
    // 0x60
    None,
    load!(W),
    store_imm!(W),
    store!(W),
    alu!(Lsh, W32, Imm),
    jump_if!(SGt, W64, Imm),
    jump_if!(SGt, W32, Imm),
    alu!(Lsh, W64, Imm),
    // 0x68
    None,
    load!(H),
    store_imm!(H),
    store!(H),
    alu!(Lsh, W32, Reg),
    jump_if!(SGt, W64, Reg),
    jump_if!(SGt, W32, Reg),
    alu!(Lsh, W64, Reg),
    // 0x70
    None,
    load!(B),
    store_imm!(B),
    store!(B),
    alu!(Rsh, W32, Imm),
    jump_if!(SGe, W64, Imm),
    jump_if!(SGe, W32, Imm),
    alu!(Rsh, W64, Imm),
    // 0x78
    None,
    load!(DW),
    store_imm!(DW),
    store!(DW),
    alu!(Rsh, W32, Reg),
    jump_if!(SGe, W64, Reg),
    jump_if!(SGe, W32, Reg),
    alu!(Rsh, W64, Reg),
    // 0x80
    None,
    load_sx!(W),
    None,
    None,
    neg!(W32),
    Some(Form::CallLocal),
    None,
    neg!(W64),
    // 0x88
    None,
    load_sx!(H),
    None,
    None,
    None,
    None,
    None,
    None,
    // 0x90
    None,
    load_sx!(B),
    None,
    None,
    remainder!(W32, Imm),
    Some(Form::Exit),
    None,
    remainder!(W64, Imm),
    // 0x98
    None,
    None,
    None,
    None,
    remainder!(W32, Reg),
    None,
    None,
    remainder!(W64, Reg),
    // 0xa0
    None,
    None,
    None,
    None,
    alu!(Xor, W32, Imm),
    jump_if!(Lt, W64, Imm),
    jump_if!(Lt, W32, Imm),
    alu!(Xor, W64, Imm),
    // 0xa8
    None,
    None,
    None,
    None,
    alu!(Xor, W32, Reg),
    jump_if!(Lt, W64, Reg),
    jump_if!(Lt, W32, Reg),
    alu!(Xor, W64, Reg),
    // 0xb0
    None,
    None,
    None,
    None,
    alu!(Mov, W32, Imm),
    jump_if!(Le, W64, Imm),
    jump_if!(Le, W32, Imm),
    alu!(Mov, W64, Imm),
    // 0xb8
    None,
    None,
    None,
    None,
    mov!(W32),
    jump_if!(Le, W64, Reg),
    jump_if!(Le, W32, Reg),
    mov!(W64),
    // 0xc0
    None,
    None,
    None,
    atomic!(false),
    alu!(Arsh, W32, Imm),
    jump_if!(SLt, W64, Imm),
    jump_if!(SLt, W32, Imm),
    alu!(Arsh, W64, Imm),
    // 0xc8
    None,
    None,
    None,
    None,
    alu!(Arsh, W32, Reg),
    jump_if!(SLt, W64, Reg),
    jump_if!(SLt, W32, Reg),
    alu!(Arsh, W64, Reg),
    // 0xd0
    None,
    None,
    None,
    None,
    end!(Le),
    jump_if!(SLe, W64, Imm),
    jump_if!(SLe, W32, Imm),
    end!(Swap),
    // 0xd8
    None,
    None,
    None,
    atomic!(true),
    end!(Be),
    jump_if!(SLe, W64, Reg),
    jump_if!(SLe, W32, Reg),
    None,
    // 0xe0
    None,
    None,
    None,
    None,
    None,
    None,
    None,
    None,
    // 0xe8
    None,
    None,
    None,
    None,
    None,
    None,
    None,
    None,
    // 0xf0
    None,
    None,
    None,
    None,
    None,
    None,
    None,
    None,
    // 0xf8
    None,
    None,
    None,
    None,
    None,
    None,
    None,
    None,
];

/// The form of an instruction with this opcode; None if there is no such instruction.
#[tactic(auto, using(crate::proofs::TableLemmas::forms_are))]
pub fn form_of(opcode: u8) -> Option<Form>
    ensures { result ≡ form_in opcode }
{
    FORMS[opcode as usize]
}
