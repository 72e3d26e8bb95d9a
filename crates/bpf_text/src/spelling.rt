//! How each part of an instruction is spelled, for the lister and for the assembler.

ghost use Rattle.std.specs.Prelude.{◌≡◌, ℕ, List};
ghost use Rattle.bpf_text.specs.Spelling.{register_text, operation_text, cond_text, modify_text, sign_bits_text, swap_text};

use bpf_insn::{AluOp, Cond, EndBits, EndKind, Modify, Reg, SignBits, Size, Width};

/// What has one spelling.
pub trait Spelled {
    ghost spelling: { Self → List ℕ };

    fn text(&self) -> &'static str
        ensures { result.now ≡ spelling self.now };
}

impl Spelled for AluOp {
    ghost spelling = { λ op. operation_text op };

    fn text(&self) -> &'static str {
        match self {
            AluOp::Add => "+=",
            AluOp::Sub => "-=",
            AluOp::Mul => "*=",
            AluOp::Div => "/=",
            AluOp::SDiv => "s/=",
            AluOp::Or => "|=",
            AluOp::And => "&=",
            AluOp::Lsh => "<<=",
            AluOp::Rsh => ">>=",
            AluOp::Mod => "%=",
            AluOp::SMod => "s%=",
            AluOp::Xor => "^=",
            AluOp::Mov => "=",
            AluOp::Arsh => "s>>=",
        }
    }
}

impl Spelled for Cond {
    ghost spelling = { λ cond. cond_text cond };

    fn text(&self) -> &'static str {
        match self {
            Cond::Eq => "==",
            Cond::Gt => ">",
            Cond::Ge => ">=",
            Cond::Set => "&",
            Cond::Ne => "!=",
            Cond::SGt => "s>",
            Cond::SGe => "s>=",
            Cond::Lt => "<",
            Cond::Le => "<=",
            Cond::SLt => "s<",
            Cond::SLe => "s<=",
        }
    }
}

impl Spelled for Modify {
    ghost spelling = { λ by. modify_text by };

    fn text(&self) -> &'static str {
        match self {
            Modify::Add => "+=",
            Modify::Or => "|=",
            Modify::And => "&=",
            Modify::Xor => "^=",
        }
    }
}

impl Spelled for SignBits {
    ghost spelling = { λ bits. sign_bits_text bits };

    fn text(&self) -> &'static str {
        match self {
            SignBits::B8 => "s8",
            SignBits::B16 => "s16",
            SignBits::B32 => "s32",
        }
    }
}

/// A register as an operation of a width names it.
#[derive(Clone, Copy)]
pub struct Register(pub Width, pub Reg);

impl Spelled for Register {
    ghost spelling = { λ r. register_text r.0 r.1 };

    fn text(&self) -> &'static str {
        match self {
            Register(Width::W32, Reg::R0) => "w0",
            Register(Width::W32, Reg::R1) => "w1",
            Register(Width::W32, Reg::R2) => "w2",
            Register(Width::W32, Reg::R3) => "w3",
            Register(Width::W32, Reg::R4) => "w4",
            Register(Width::W32, Reg::R5) => "w5",
            Register(Width::W32, Reg::R6) => "w6",
            Register(Width::W32, Reg::R7) => "w7",
            Register(Width::W32, Reg::R8) => "w8",
            Register(Width::W32, Reg::R9) => "w9",
            Register(Width::W32, Reg::R10) => "w10",
            Register(Width::W64, Reg::R0) => "r0",
            Register(Width::W64, Reg::R1) => "r1",
            Register(Width::W64, Reg::R2) => "r2",
            Register(Width::W64, Reg::R3) => "r3",
            Register(Width::W64, Reg::R4) => "r4",
            Register(Width::W64, Reg::R5) => "r5",
            Register(Width::W64, Reg::R6) => "r6",
            Register(Width::W64, Reg::R7) => "r7",
            Register(Width::W64, Reg::R8) => "r8",
            Register(Width::W64, Reg::R9) => "r9",
            Register(Width::W64, Reg::R10) => "r10",
        }
    }
}

/// A byte swap of a number of bits.
#[derive(Clone, Copy)]
pub struct Swap(pub EndKind, pub EndBits);

impl Spelled for Swap {
    ghost spelling = { λ s. swap_text s.0 s.1 };

    fn text(&self) -> &'static str {
        match self {
            Swap(EndKind::Le, EndBits::B16) => "le16",
            Swap(EndKind::Le, EndBits::B32) => "le32",
            Swap(EndKind::Le, EndBits::B64) => "le64",
            Swap(EndKind::Be, EndBits::B16) => "be16",
            Swap(EndKind::Be, EndBits::B32) => "be32",
            Swap(EndKind::Be, EndBits::B64) => "be64",
            Swap(EndKind::Swap, EndBits::B16) => "bswap16",
            Swap(EndKind::Swap, EndBits::B32) => "bswap32",
            Swap(EndKind::Swap, EndBits::B64) => "bswap64",
        }
    }
}

/// A number in memory, without or with a sign.
#[derive(Clone, Copy)]
pub enum Memory {
    Unsigned(Size),
    Signed(Size),
}

impl Spelled for Memory {
    ghost use Rattle.bpf_text.specs.Parts.{memory_text};

    ghost spelling = { λ n. memory_text n };

    fn text(&self) -> &'static str {
        match self {
            Memory::Unsigned(Size::B) => "u8",
            Memory::Unsigned(Size::H) => "u16",
            Memory::Unsigned(Size::W) => "u32",
            Memory::Unsigned(Size::DW) => "u64",
            Memory::Signed(Size::B) => "s8",
            Memory::Signed(Size::H) => "s16",
            Memory::Signed(Size::W) => "s32",
            Memory::Signed(Size::DW) => "s64",
        }
    }
}

/// A word that tells what a line says.
#[derive(Clone, Copy)]
pub enum Keyword {
    Lock,
    If,
    Goto,
    GotoLong,
    Call,
    Exit,
}

impl Spelled for Keyword {
    ghost use Rattle.bpf_text.specs.Parts.{keyword_text};

    ghost spelling = { λ word. keyword_text word };

    fn text(&self) -> &'static str {
        match self {
            Keyword::Lock => "lock",
            Keyword::If => "if",
            Keyword::Goto => "goto",
            Keyword::GotoLong => "gotol",
            Keyword::Call => "call",
            Keyword::Exit => "exit",
        }
    }
}

pub const SWAPS: [Swap; 9] = [
    Swap(EndKind::Le, EndBits::B16),
    Swap(EndKind::Le, EndBits::B32),
    Swap(EndKind::Le, EndBits::B64),
    Swap(EndKind::Be, EndBits::B16),
    Swap(EndKind::Be, EndBits::B32),
    Swap(EndKind::Be, EndBits::B64),
    Swap(EndKind::Swap, EndBits::B16),
    Swap(EndKind::Swap, EndBits::B32),
    Swap(EndKind::Swap, EndBits::B64),
];

pub const OPERATIONS: [AluOp; 14] = [
    AluOp::Add,
    AluOp::Sub,
    AluOp::Mul,
    AluOp::Div,
    AluOp::SDiv,
    AluOp::Or,
    AluOp::And,
    AluOp::Lsh,
    AluOp::Rsh,
    AluOp::Mod,
    AluOp::SMod,
    AluOp::Xor,
    AluOp::Mov,
    AluOp::Arsh,
];

/// One whose marks begin with those of another comes before it.
pub const CONDITIONS: [Cond; 11] = [
    Cond::Eq,
    Cond::Ne,
    Cond::Set,
    Cond::Ge,
    Cond::Gt,
    Cond::Le,
    Cond::Lt,
    Cond::SGe,
    Cond::SGt,
    Cond::SLe,
    Cond::SLt,
];

pub const MODIFICATIONS: [Modify; 4] = [Modify::Add, Modify::Or, Modify::And, Modify::Xor];

pub const EXTENSIONS: [SignBits; 3] = [SignBits::B8, SignBits::B16, SignBits::B32];

pub const MEMORIES: [Memory; 7] = [
    Memory::Unsigned(Size::B),
    Memory::Unsigned(Size::H),
    Memory::Unsigned(Size::W),
    Memory::Unsigned(Size::DW),
    Memory::Signed(Size::B),
    Memory::Signed(Size::H),
    Memory::Signed(Size::W),
];

pub const KEYWORDS: [Keyword; 6] = [
    Keyword::Lock,
    Keyword::If,
    Keyword::Goto,
    Keyword::GotoLong,
    Keyword::Call,
    Keyword::Exit,
];
