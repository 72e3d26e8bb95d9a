//! The bytes of an instruction's slots, in a byte order (RFC 9669, section 3).

ghost use Rattle.std.specs.Prelude.{◌≡◌, ℕ, ◌≤◌, ◌+◌, ◌*◌, ◌<◌, length};
ghost use Rattle.bpf_insn.specs.Order.{bytes_of, number_of, register_byte, dst_in, src_in};
ghost use Rattle.bpf_insn.specs.Image.{slot_bytes};
ghost use Rattle.bpf_insn.specs.Refusal.{fields_in};

use crate::fields::Fields;
use crate::order::Order;
use byteorder::{BigEndian, ByteOrder, LittleEndian};

/// The number in the first two bytes.
pub fn u16_in(order: Order, bytes: &[u8]) -> u16
    requires { 2 ≤ length bytes.now }
    ensures { result ≡ number_of order 2 bytes.now }
{
    match order {
        Order::Little => LittleEndian::read_u16(bytes),
        Order::Big => BigEndian::read_u16(bytes),
    }
}

/// The number in the first four bytes.
pub fn u32_in(order: Order, bytes: &[u8]) -> u32
    requires { 4 ≤ length bytes.now }
    ensures { result ≡ number_of order 4 bytes.now }
{
    match order {
        Order::Little => LittleEndian::read_u32(bytes),
        Order::Big => BigEndian::read_u32(bytes),
    }
}

/// Makes two bytes those of a number.
fn put_u16(order: Order, bytes: &mut [u8], x: u16)
    requires { length bytes.old ≡ 2 }
    ensures { bytes.new ≡ bytes_of order 2 x }
{
    match order {
        Order::Little => LittleEndian::write_u16(bytes, x),
        Order::Big => BigEndian::write_u16(bytes, x),
    }
}

/// Makes four bytes those of a number.
pub fn put_u32(order: Order, bytes: &mut [u8], x: u32)
    requires { length bytes.old ≡ 4 }
    ensures { bytes.new ≡ bytes_of order 4 x }
{
    match order {
        Order::Little => LittleEndian::write_u32(bytes, x),
        Order::Big => BigEndian::write_u32(bytes, x),
    }
}

/// The byte of both registers.
fn register_byte_of(order: Order, dst: u8, src: u8) -> u8
    requires dst { dst ≤ 10 }
    requires src { src ≤ 10 }
    ensures { result ≡ register_byte order dst src }
{
    match order {
        Order::Little => dst + 16 * src,
        Order::Big => 16 * dst + src,
    }
}

/// The destination and the source in the byte of both.
pub fn registers_in(order: Order, byte: u8) -> (u8, u8)
    ensures dst { result.0 ≡ dst_in order byte }
    ensures src { result.1 ≡ src_in order byte }
{
    match order {
        Order::Little => (byte % 16, byte / 16),
        Order::Big => (byte / 16, byte % 16),
    }
}

/// The bytes of a slot.
pub fn slot_bytes_of(order: Order, f: &Fields) -> [u8; 8]
    requires dst { f.now.dst ≤ 10 }
    requires src { f.now.src ≤ 10 }
    ensures { result ≡ slot_bytes order f.now }
{
    let mut bytes = [0; 8];
    bytes[0] = f.opcode;
    bytes[1] = register_byte_of(order, f.dst, f.src);
    put_u16(order, &mut bytes[2..4], f.offset.cast_unsigned());
    put_u32(order, &mut bytes[4..8], f.imm.cast_unsigned());
    bytes
}

/// The fields that stand in the bytes of a slot.
pub fn fields_from(order: Order, bytes: &[u8]) -> Fields
    requires { 8 ≤ length bytes.now }
    ensures { result ≡ fields_in order bytes.now }
{
    let (dst, src) = registers_in(order, bytes[1]);
    Fields {
        opcode: bytes[0],
        dst,
        src,
        offset: u16_in(order, &bytes[2..]).cast_signed(),
        imm: u32_in(order, &bytes[4..]).cast_signed(),
    }
}
