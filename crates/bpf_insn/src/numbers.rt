//! Numbers in bytes, in a byte order (RFC 9669, section 3.1).

ghost use Rattle.std.specs.Prelude.{◌≡◌, ◌<◌, ◌≤◌, ◌^◌, ◌++◌, length, drop};
ghost use Rattle.bpf_insn.specs.Order.{number_of, bytes_of};
ghost use Rattle.bpf_insn.specs.Instruction.{byte_count};

use crate::instruction::Size;
use crate::order::Order;
use byteorder::{BigEndian, ByteOrder, LittleEndian};

/// The number in the first bytes.
#[inline(always)]
pub fn number_in(order: Order, size: Size, bytes: &[u8]) -> u64
    requires { byte_count size ≤ length bytes.now }
    ensures number { result ≡ number_of order (byte_count size) bytes.now }
    ensures fits { result < 256 ^ byte_count size }
{
    match order {
        Order::Little => number_by::<LittleEndian>(size, bytes),
        Order::Big => number_by::<BigEndian>(size, bytes),
    }
}

#[inline(always)]
fn number_by<O: ByteOrder>(size: Size, bytes: &[u8]) -> u64
    requires { byte_count size ≤ length bytes.now }
    ensures number { result ≡ O.number_of (byte_count size) bytes.now }
    ensures fits { result < 256 ^ byte_count size }
{
    match size {
        Size::B => O::read_uint(bytes, 1),
        Size::H => O::read_u16(bytes) as u64,
        Size::W => O::read_u32(bytes) as u64,
        Size::DW => O::read_u64(bytes),
    }
}

/// Puts the lowest bytes of a number into the first bytes.
#[inline(always)]
#[tactic(auto, using(crate::proofs::ByteLemmas::low_bytes))]
pub fn put_number(order: Order, size: Size, bytes: &mut [u8], x: u64)
    requires { byte_count size ≤ length bytes.old }
    ensures { bytes.new ≡ bytes_of order (byte_count size) x ++ drop (byte_count size) bytes.old }
{
    match (order, size) {
        (Order::Little, Size::B) => LittleEndian::write_uint(bytes, x % (1 << 8), 1),
        (Order::Little, Size::H) => LittleEndian::write_u16(bytes, (x % (1 << 16)) as u16),
        (Order::Little, Size::W) => LittleEndian::write_u32(bytes, (x % (1 << 32)) as u32),
        (Order::Little, Size::DW) => LittleEndian::write_u64(bytes, x),
        (Order::Big, Size::B) => BigEndian::write_uint(bytes, x % (1 << 8), 1),
        (Order::Big, Size::H) => BigEndian::write_u16(bytes, (x % (1 << 16)) as u16),
        (Order::Big, Size::W) => BigEndian::write_u32(bytes, (x % (1 << 32)) as u32),
        (Order::Big, Size::DW) => BigEndian::write_u64(bytes, x),
    }
}
