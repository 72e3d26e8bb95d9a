//! How great the fields of an instruction may be, where that alone says that the bytes are an instruction's (RFC 9669,
//! sections 3 to 5). The greatest sizes of programs and contexts are in `limits.rt`.

ghost use Rattle.std.specs.Prelude.{◌≡◌, ◌&&◌, nat_le, get_or, None};

/// The greatest register numbers, and the greatest offset and imm as unsigned numbers.
#[derive(Clone, Copy)]
pub struct Limits {
    pub dst: u8,
    pub src: u8,
    pub offset: u16,
    pub imm: u32,
}

impl Limits {
    /// Whether each field is within its limit.
    pub fn allow(self, dst: u8, src: u8, offset: u16, imm: u32) -> bool
        ensures { result ≡ (nat_le dst self.dst && nat_le src self.src && nat_le offset self.offset && nat_le imm self.imm) }
    {
        dst <= self.dst && src <= self.src && offset <= self.offset && imm <= self.imm
    }
}

/// No instruction, or one of which more has to be looked at.
const NONE: Option<Limits> = None;

/// Arithmetic with a constant.
const IMM: Option<Limits> = Some(Limits {
    dst: 10,
    src: 0,
    offset: 0,
    imm: u32::MAX,
});

/// Arithmetic with a register.
const REG: Option<Limits> = Some(Limits {
    dst: 10,
    src: 10,
    offset: 0,
    imm: 0,
});

/// Divisions and remainders by a constant, unsigned and signed.
const DIV_IMM: Option<Limits> = Some(Limits {
    dst: 10,
    src: 0,
    offset: 1,
    imm: u32::MAX,
});

/// Divisions and remainders by a register, unsigned and signed.
const DIV_REG: Option<Limits> = Some(Limits {
    dst: 10,
    src: 10,
    offset: 1,
    imm: 0,
});

/// Negations.
const NEG: Option<Limits> = Some(Limits {
    dst: 10,
    src: 0,
    offset: 0,
    imm: 0,
});

/// Stores of a constant, and jumps that compare with one.
const AT_IMM: Option<Limits> = Some(Limits {
    dst: 10,
    src: 0,
    offset: u16::MAX,
    imm: u32::MAX,
});

/// Loads, stores of a register, and jumps that compare with one.
const AT_REG: Option<Limits> = Some(Limits {
    dst: 10,
    src: 10,
    offset: u16::MAX,
    imm: 0,
});

/// `goto` by an offset.
const JA: Option<Limits> = Some(Limits {
    dst: 0,
    src: 0,
    offset: u16::MAX,
    imm: 0,
});

/// `goto` by an imm.
const JA_LONG: Option<Limits> = Some(Limits {
    dst: 0,
    src: 0,
    offset: 0,
    imm: u32::MAX,
});

/// `exit`.
const EXIT: Option<Limits> = Some(Limits {
    dst: 0,
    src: 0,
    offset: 0,
    imm: 0,
});

/// By opcode: an instruction whose fields are within the limits has no fault. Without limits are opcodes of no instruction, and
/// those that the fields select further: byte swaps, atomic operations, calls, 64-bit constants.
pub static LIMITS: [Option<Limits>; 256] = [
    // 0x00
    NONE, NONE, NONE, NONE, IMM, JA, JA_LONG, IMM, NONE, NONE, NONE, NONE, REG, NONE, NONE, REG,
    // 0x10
    NONE, NONE, NONE, NONE, IMM, AT_IMM, AT_IMM, IMM, NONE, NONE, NONE, NONE, REG, AT_REG, AT_REG,
    REG,
    // 0x20
    NONE, NONE, NONE, NONE, IMM, AT_IMM, AT_IMM, IMM, NONE, NONE, NONE, NONE, REG, AT_REG, AT_REG,
    REG,
    // 0x30
    NONE, NONE, NONE, NONE, DIV_IMM, AT_IMM, AT_IMM, DIV_IMM, NONE, NONE, NONE, NONE, DIV_REG,
    AT_REG, AT_REG, DIV_REG,
    // 0x40
    NONE, NONE, NONE, NONE, IMM, AT_IMM, AT_IMM, IMM, NONE, NONE, NONE, NONE, REG, AT_REG, AT_REG,
    REG,
    // 0x50
    NONE, NONE, NONE, NONE, IMM, AT_IMM, AT_IMM, IMM, NONE, NONE, NONE, NONE, REG, AT_REG, AT_REG,
    REG,
    // 0x60
    NONE, AT_REG, AT_IMM, AT_REG, IMM, AT_IMM, AT_IMM, IMM, NONE, AT_REG, AT_IMM, AT_REG, REG,
    AT_REG, AT_REG, REG,
    // 0x70
    NONE, AT_REG, AT_IMM, AT_REG, IMM, AT_IMM, AT_IMM, IMM, NONE, AT_REG, AT_IMM, AT_REG, REG,
    AT_REG, AT_REG, REG,
    // 0x80
    NONE, AT_REG, NONE, NONE, NEG, NONE, NONE, NEG, NONE, AT_REG, NONE, NONE, NONE, NONE, NONE,
    NONE,
    // 0x90
    NONE, AT_REG, NONE, NONE, DIV_IMM, EXIT, NONE, DIV_IMM, NONE, NONE, NONE, NONE, DIV_REG, NONE,
    NONE, DIV_REG,
    // 0xa0
    NONE, NONE, NONE, NONE, IMM, AT_IMM, AT_IMM, IMM, NONE, NONE, NONE, NONE, REG, AT_REG, AT_REG,
    REG,
    // 0xb0
    NONE, NONE, NONE, NONE, IMM, AT_IMM, AT_IMM, IMM, NONE, NONE, NONE, NONE, REG, AT_REG, AT_REG,
    REG,
    // 0xc0
    NONE, NONE, NONE, NONE, IMM, AT_IMM, AT_IMM, IMM, NONE, NONE, NONE, NONE, REG, AT_REG, AT_REG,
    REG,
    // 0xd0
    NONE, NONE, NONE, NONE, NONE, AT_IMM, AT_IMM, NONE, NONE, NONE, NONE, NONE, NONE, AT_REG,
    AT_REG, NONE,
    // 0xe0
    NONE, NONE, NONE, NONE, NONE, NONE, NONE, NONE, NONE, NONE, NONE, NONE, NONE, NONE, NONE, NONE,
    // 0xf0
    NONE, NONE, NONE, NONE, NONE, NONE, NONE, NONE, NONE, NONE, NONE, NONE, NONE, NONE, NONE, NONE,
];

/// The limits of an opcode's fields, if it has any.
pub fn limits_of(opcode: u8) -> Option<Limits>
    ensures { result ≡ get_or LIMITS opcode None }
{
    LIMITS[opcode as usize]
}
