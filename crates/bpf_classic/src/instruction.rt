//! The instructions of classic BPF as values (McCanne and Jacobson 1993, section 3.3).

/// A register of the machine: the accumulator A or the index register X, of 32 bits each.
#[derive(Clone, Copy, Debug, PartialEq, Eq)]
pub enum Register {
    A,
    X,
}

/// The second operand: a constant or X.
#[derive(Clone, Copy, Debug, PartialEq, Eq)]
pub enum Source {
    K(u32),
    X,
}

/// How many bytes of the packet a load takes: 1, 2 or 4.
#[derive(Clone, Copy, Debug, PartialEq, Eq)]
pub enum LoadSize {
    Byte,
    Half,
    Word,
}

/// A word of Linux's auxiliary data (the header <linux/filter.h>, SKF_AD_PROTOCOL to SKF_AD_VLAN_TPID).
#[derive(Clone, Copy, Debug, PartialEq, Eq)]
pub enum Auxiliary {
    Protocol,
    PacketType,
    Interface,
    Mark,
    Queue,
    HardwareType,
    Hash,
    Processor,
    VlanTag,
    HasVlanTag,
    Random,
    VlanProtocol,
}

/// An operation on A and a second operand.
#[derive(Clone, Copy, Debug, PartialEq, Eq)]
pub enum Op {
    Add,
    Sub,
    Mul,
    Div,
    Or,
    And,
    Lsh,
    Rsh,
    Mod,
    Xor,
}

impl Op {
    ghost use Rattle.std.specs.Prelude.{◌≡◌};
    ghost use Rattle.bpf_classic.specs.Machine.{divides, shifts};

    /// Whether it divides, so that a second operand of 0 answers 0.
    pub fn divides(self) -> bool
        ensures { result ≡ divides self }
    {
        match self {
            Op::Div | Op::Mod => true,
            Op::Add | Op::Sub | Op::Mul | Op::Or | Op::And | Op::Lsh | Op::Rsh | Op::Xor => false,
        }
    }

    /// Whether it shifts.
    pub fn shifts(self) -> bool
        ensures { result ≡ shifts self }
    {
        match self {
            Op::Lsh | Op::Rsh => true,
            Op::Add | Op::Sub | Op::Mul | Op::Div | Op::Or | Op::And | Op::Mod | Op::Xor => false,
        }
    }
}

/// The test of a conditional jump on A and a second operand, as unsigned numbers. Set holds where `A & operand` isn't zero.
#[derive(Clone, Copy, Debug, PartialEq, Eq)]
pub enum Test {
    Eq,
    Gt,
    Ge,
    Set,
}

/// An instruction. Jumps say how many instructions they pass over.
#[derive(Clone, Copy, Debug, PartialEq, Eq)]
pub enum Classic {
    /// `ld #k`, `ldx #k`: a constant.
    Constant {
        to: Register,
        k: u32,
    },
    /// `ld #pktlen`, `ldx #pktlen`: the packet's length.
    Length {
        to: Register,
    },
    /// `ld M[k]`, `ldx M[k]`: a cell of the scratch memory.
    Cell {
        to: Register,
        cell: u32,
    },
    /// `st M[k]`, `stx M[k]`.
    Store {
        from: Register,
        cell: u32,
    },
    /// `ld [k]`, `ldh [k]`, `ldb [k]`: bytes of the packet at a constant offset, as a number in network order.
    At {
        size: LoadSize,
        k: u32,
    },
    /// `ld [x + k]`, `ldh [x + k]`, `ldb [x + k]`.
    Index {
        size: LoadSize,
        k: u32,
    },
    /// `ldx 4*([k]&0xf)`: the length of an IP header.
    Header {
        k: u32,
    },
    /// `ld [0xfffff000 + ..]`: a word of Linux's auxiliary data.
    Extension {
        word: Auxiliary,
    },
    /// `add`, `sub`, .. `xor`.
    Alu {
        op: Op,
        source: Source,
    },
    /// `neg`.
    Neg,
    /// `ja`.
    Jump {
        k: u32,
    },
    /// `ja` with an offset below 0: back to the instruction that stands `k` in front of the next one.
    Back {
        k: u32,
    },
    /// `jeq`, `jgt`, `jge`, `jset`.
    JumpIf {
        test: Test,
        source: Source,
        jt: u8,
        jf: u8,
    },
    /// `ret #k`.
    Return {
        k: u32,
    },
    /// `ret a`.
    ReturnA,
    /// `tax`.
    Tax,
    /// `txa`.
    Txa,
}
