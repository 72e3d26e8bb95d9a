//! The opcodes of single instructions, by their names (RFC 9669, sections 4.3, 5.3 and 5.4); all others are made of a class, a code, a
//! source, a size and a mode (`field_codes.rt`). The table of all is `forms.rt`.

/// A jump by the offset field.
pub const JA: u8 = 0x05;
/// A jump by the imm field.
pub const JA_LONG: u8 = 0x06;
/// A 64-bit constant, whose instruction takes two slots.
pub const WIDE: u8 = 0x18;
/// A call.
pub const CALL: u8 = 0x85;
/// The end of a function.
pub const EXIT: u8 = 0x95;
/// An atomic operation on 4 bytes.
pub const ATOMIC: u8 = 0xc3;
/// An atomic operation on 8 bytes.
pub const ATOMIC_WIDE: u8 = 0xdb;
