//! Instructions as values (RFC 9669, sections 3 to 5).

/// A register: r0 to r9, and the frame pointer r10.
#[derive(Clone, Copy, Debug, PartialEq, Eq)]
pub enum Reg {
    R0,
    R1,
    R2,
    R3,
    R4,
    R5,
    R6,
    R7,
    R8,
    R9,
    R10,
}

/// The size of an access to memory: 1, 2, 4 or 8 bytes.
#[derive(Clone, Copy, Debug, PartialEq, Eq)]
pub enum Size {
    B,
    H,
    W,
    DW,
}

/// The width of an operation: the low 32 bits, or all 64.
#[derive(Clone, Copy, Debug, PartialEq, Eq)]
pub enum Width {
    W32,
    W64,
}

/// The second operand: a constant or a register.
#[derive(Clone, Copy, Debug, PartialEq, Eq)]
pub enum Operand {
    Imm(i32),
    Reg(Reg),
}

/// An operation on two operands (RFC 9669, section 4.1). SDiv, SMod and Arsh read numbers as two's complement, the others
/// as unsigned; Arsh fills with copies of the sign. Div and SDiv by zero give 0, Mod and SMod the first operand; a shift
/// takes its distance modulo the width.
#[derive(Clone, Copy, Debug, PartialEq, Eq)]
pub enum AluOp {
    Add,
    Sub,
    Mul,
    Div,
    SDiv,
    Or,
    And,
    Lsh,
    Rsh,
    Mod,
    SMod,
    Xor,
    Mov,
    Arsh,
}

/// How many low bits a sign-extending move takes.
#[derive(Clone, Copy, Debug, PartialEq, Eq)]
pub enum SignBits {
    B8,
    B16,
    B32,
}

/// What a byte swap does: to little-endian, to big-endian, or in any case.
#[derive(Clone, Copy, Debug, PartialEq, Eq)]
pub enum EndKind {
    Le,
    Be,
    Swap,
}

/// How many low bits a byte swap takes.
#[derive(Clone, Copy, Debug, PartialEq, Eq)]
pub enum EndBits {
    B16,
    B32,
    B64,
}

/// The test of a conditional jump (RFC 9669, section 4.3). SGt, SGe, SLt and SLe read numbers as two's complement, the
/// others as unsigned. Set holds where `dst & src` isn't zero.
#[derive(Clone, Copy, Debug, PartialEq, Eq)]
pub enum Cond {
    Eq,
    Gt,
    Ge,
    Set,
    Ne,
    SGt,
    SGe,
    Lt,
    Le,
    SLt,
    SLe,
}

/// How an atomic operation changes a number in memory.
#[derive(Clone, Copy, Debug, PartialEq, Eq)]
pub enum Modify {
    Add,
    Or,
    And,
    Xor,
}

/// An atomic operation. Modify with `fetch` and Xchg put the old number into the source register, CmpXchg into r0 (RFC
/// 9669, section 5.3).
#[derive(Clone, Copy, Debug, PartialEq, Eq)]
pub enum AtomicOp {
    Modify { by: Modify, fetch: bool },
    Xchg,
    CmpXchg,
}

/// An instruction (RFC 9669, sections 4 and 5). In Load, LoadSx, Store, StoreImm and Atomic `off` is in bytes from the base
/// register; in jumps and calls it is in slots from the next instruction.
#[derive(Clone, Copy, Debug, PartialEq, Eq)]
pub enum Insn {
    /// Puts the result of `op` on `dst` and `src` into `dst`; at 32 bits on low halves, with zero above (section 4.1).
    Alu {
        op: AluOp,
        width: Width,
        dst: Reg,
        src: Operand,
    },
    /// Negates `dst`; at 32 bits its low half, with zero above (section 4.1).
    Neg {
        width: Width,
        dst: Reg,
    },
    /// Puts the low bits of `src`, sign-extended to the width, into `dst`; at 32 bits with zero above (section 4.1).
    MovSx {
        width: Width,
        bits: SignBits,
        dst: Reg,
        src: Reg,
    },
    /// Keeps the low bits of `dst`, their bytes reversed or as they are, and zero above (section 4.2).
    End {
        kind: EndKind,
        bits: EndBits,
        dst: Reg,
    },
    /// Puts a constant into `dst`. It takes two slots (section 5.4).
    LoadImm64 {
        dst: Reg,
        value: u64,
    },
    /// Loads what lies at `src + off` into `dst`, with zero above (section 5.1).
    Load {
        size: Size,
        dst: Reg,
        src: Reg,
        off: i16,
    },
    /// Loads the number at `src + off` into `dst`, with its sign extended to 64 bits (section 5.2).
    LoadSx {
        size: Size,
        dst: Reg,
        src: Reg,
        off: i16,
    },
    /// Stores the low bytes of `src` at `dst + off` (section 5.1).
    Store {
        size: Size,
        dst: Reg,
        off: i16,
        src: Reg,
    },
    /// Stores the low bytes of a constant, with its sign extended to 64 bits, at `dst + off` (section 5.1).
    StoreImm {
        size: Size,
        dst: Reg,
        off: i16,
        imm: i32,
    },
    /// Changes the number at `dst + off` by `src`: 8 bytes where it is wide, else 4 (section 5.3).
    Atomic {
        wide: bool,
        op: AtomicOp,
        dst: Reg,
        off: i16,
        src: Reg,
    },
    /// Jumps always (section 4.3).
    Ja {
        off: i16,
    },
    /// Jumps always, by a distance of 32 bits (section 4.3).
    JaLong {
        off: i32,
    },
    /// Jumps if the test holds of `dst` and `src`; at 32 bits of their low halves (section 4.3).
    JumpIf {
        cond: Cond,
        width: Width,
        dst: Reg,
        src: Operand,
        off: i16,
    },
    /// Calls the function of the program that begins `off` slots from the next instruction (section 4.3.2).
    CallLocal {
        off: i32,
    },
    /// Returns from the function, or ends the program (section 4.3).
    Exit,
}

/// The conformance group of an instruction (RFC 9669, section 2.4), its 32 and 64 bit halves joined.
#[derive(Clone, Copy, Debug, PartialEq, Eq)]
pub enum Group {
    Base,
    Divmul,
    Atomic,
}

/// The conformance groups that occur in a program.
#[derive(Clone, Copy, Debug, PartialEq, Eq)]
pub struct Groups {
    pub base: bool,
    pub divmul: bool,
    pub atomic: bool,
}

impl Groups {
    ghost use Rattle.std.specs.Prelude.{◌≡◌};
    ghost use Rattle.bpf_insn.specs.Instruction.{with_group};

    /// Adds a group.
    pub fn add(&mut self, group: Group)
        ensures { self.new ≡ with_group group self.old }
    {
        match group {
            Group::Base => self.base = true,
            Group::Divmul => self.divmul = true,
            Group::Atomic => self.atomic = true,
        }
    }
}

impl Reg {
    ghost use Rattle.std.specs.Prelude.{◌≡◌, ◌≤◌};
    ghost use Rattle.bpf_insn.specs.Effects.{is_frame_pointer};
    ghost use Rattle.bpf_insn.specs.Instruction.{register_number};

    /// The register with a number from 0 to 10.
    pub fn numbered(number: u8) -> Reg
        requires { number ≤ 10 }
        ensures { register_number result ≡ number }
    {
        match number {
            0 => Reg::R0,
            1 => Reg::R1,
            2 => Reg::R2,
            3 => Reg::R3,
            4 => Reg::R4,
            5 => Reg::R5,
            6 => Reg::R6,
            7 => Reg::R7,
            8 => Reg::R8,
            9 => Reg::R9,
            _ => Reg::R10,
        }
    }

    /// Whether it is r10, which no instruction may write.
    #[inline(always)]
    pub fn is_frame_pointer(self) -> bool
        ensures { result ≡ is_frame_pointer self }
    {
        self as u8 == 10
    }
}

impl Size {
    ghost use Rattle.std.specs.Prelude.{◌≡◌};
    ghost use Rattle.bpf_insn.specs.Instruction.{byte_count, word_size};

    /// How many bytes an access takes: 1, 2, 4 or 8.
    #[inline(always)]
    pub fn bytes(self) -> u8
        ensures { result ≡ byte_count self }
    {
        match self {
            Size::B => 1,
            Size::H => 2,
            Size::W => 4,
            Size::DW => 8,
        }
    }

    /// The size of the number that an atomic operation changes: 8 bytes where it is wide, else 4 (RFC 9669, section 5.3).
    pub fn of_word(wide: bool) -> Size
        ensures { result ≡ word_size wide }
    {
        if wide { Size::DW } else { Size::W }
    }
}

impl AtomicOp {
    ghost use Rattle.std.specs.Prelude.{◌≡◌};
    ghost use Rattle.bpf_insn.specs.Effects.{fetch_register};

    /// The register that gets the old number, if one does (RFC 9669, section 5.3).
    pub fn fetch_register(self, src: Reg) -> Option<Reg>
        ensures { result ≡ fetch_register self src }
    {
        match self {
            AtomicOp::Modify { by: _, fetch } => if fetch { Some(src) } else { None },
            AtomicOp::Xchg => Some(src),
            AtomicOp::CmpXchg => Some(Reg::R0),
        }
    }
}

impl Insn {
    ghost use Rattle.std.specs.Prelude.{◌≡◌, ◌↔◌, IsTrue};
    ghost use Rattle.bpf_insn.specs.Instruction.{slot_count, group_of, distance, goes_on, is_straight};

    /// How many slots of eight bytes it takes: 2 for a 64-bit constant, else 1 (RFC 9669, section 3).
    pub fn slots(&self) -> u32
        ensures { result ≡ slot_count self.now }
    {
        match self {
            Insn::LoadImm64 { .. } => 2,
            Insn::Alu { .. } | Insn::Neg { .. } | Insn::MovSx { .. } | Insn::End { .. } => 1,
            Insn::Load { .. } | Insn::LoadSx { .. } | Insn::Store { .. } => 1,
            Insn::StoreImm { .. } | Insn::Atomic { .. } | Insn::Ja { .. } => 1,
            Insn::JaLong { .. } | Insn::JumpIf { .. } | Insn::CallLocal { .. } | Insn::Exit => 1,
        }
    }

    /// How far a jump or call leads, in slots from the next instruction. None where it neither jumps nor calls (RFC 9669,
    /// section 4.3).
    pub fn distance(&self) -> Option<i32>
        ensures { result ≡ distance self.now }
    {
        match *self {
            Insn::Ja { off } => Some(i32::from(off)),
            Insn::JaLong { off } => Some(off),
            Insn::JumpIf { off, .. } => Some(i32::from(off)),
            Insn::CallLocal { off } => Some(off),
            Insn::Alu { .. } | Insn::Neg { .. } | Insn::MovSx { .. } | Insn::End { .. } => None,
            Insn::LoadImm64 { .. } | Insn::Load { .. } | Insn::LoadSx { .. } => None,
            Insn::Store { .. } | Insn::StoreImm { .. } | Insn::Atomic { .. } | Insn::Exit => None,
        }
    }

    /// Whether the next instruction may follow it: not behind a jump that is always taken, nor behind an exit.
    pub fn goes_on(&self) -> bool
        ensures { result ≡ goes_on self.now }
    {
        !matches!(*self, Insn::Ja { .. } | Insn::JaLong { .. } | Insn::Exit)
    }

    /// Whether it goes on at the next instruction alone: it neither jumps nor calls nor exits (RFC 9669, section 4.3).
    #[inline(always)]
    pub fn is_straight(&self) -> bool
        ensures { result ≡ is_straight self.now }
    {
        match *self {
            Insn::Ja { .. } | Insn::JaLong { .. } | Insn::JumpIf { .. } => false,
            Insn::CallLocal { .. } | Insn::Exit => false,
            Insn::Alu { .. } | Insn::Neg { .. } | Insn::MovSx { .. } | Insn::End { .. } => true,
            Insn::LoadImm64 { .. } | Insn::Load { .. } | Insn::LoadSx { .. } => true,
            Insn::Store { .. } | Insn::StoreImm { .. } | Insn::Atomic { .. } => true,
        }
    }

    /// Whether it is the same instruction.
    pub fn is(&self, other: &Insn) -> bool
        ensures { IsTrue result ↔ (self.now ≡ other.now) }
    {
        self == other
    }

    /// The conformance group that it belongs to (RFC 9669, section 2.4).
    pub fn group(&self) -> Group
        ensures { result ≡ group_of self.now }
    {
        match self {
            Insn::Alu {
                op: AluOp::Mul | AluOp::Div | AluOp::SDiv | AluOp::Mod | AluOp::SMod,
                ..
            } => Group::Divmul,
            Insn::Atomic { .. } => Group::Atomic,
            Insn::Alu { .. } | Insn::Neg { .. } | Insn::MovSx { .. } | Insn::End { .. } => {
                Group::Base
            }
            Insn::LoadImm64 { .. } | Insn::Load { .. } | Insn::LoadSx { .. } => Group::Base,
            Insn::Store { .. } | Insn::StoreImm { .. } | Insn::Ja { .. } => Group::Base,
            Insn::JaLong { .. } | Insn::JumpIf { .. } | Insn::CallLocal { .. } => Group::Base,
            Insn::Exit => Group::Base,
        }
    }
}

ghost use Rattle.std.specs.Prelude.{◌≡◌, ◌≤◌};
ghost use Rattle.bpf_insn.specs.Instruction.{target};
ghost use Rattle.bpf_insn.specs.Limits.{max_slots};

/// The slot at a distance from the one after the slot, if it isn't negative (RFC 9669, section 4.3).
#[inline(always)]
pub fn target(slot: u32, distance: i32) -> Option<u32>
    requires { slot ≤ max_slots }
    ensures { result ≡ target slot distance }
{
    let to = i64::from(slot) + 1 + i64::from(distance);
    if to < 0 { None } else { Some(to as u32) }
}
