//! Why no instruction begins at a slot of an image (RFC 9669, sections 3 to 5: opcodes, and fields that must be zero).

ghost use Rattle.std.specs.Prelude.{◌≡◌, ◌≤◌, length, Some, None, true, if◌then◌else◌};
ghost use Rattle.bpf_insn.specs.Refusal.{is_left_out, left_out, reserved_is_zero, refusal_by_uses, refusal_here};

use crate::bytes::{fields_from, registers_in, u16_in, u32_in};
use crate::field_limits::limits_of;
use crate::fields::Fields;
use crate::opcodes::{CALL, WIDE};
use crate::order::Order;
use crate::refusal::{LeftOut, SlotFault};
use crate::uses::{Uses, uses_of};

/// What the instruction is, if this profile leaves it out: packet access, other 64-bit constants, calls of helpers and of the kernel.
fn left_out_in(f: &Fields) -> Option<LeftOut>
    ensures { result ≡ (if is_left_out f.now then Some (left_out f.now) else None) }
{
    match f.opcode {
        0x20 | 0x28 | 0x30 | 0x40 | 0x48 | 0x50 => Some(LeftOut::Packet),
        WIDE => if f.src == 0 {
            None
        } else {
            Some(LeftOut::Constant)
        },
        CALL => match f.src {
            0 => Some(LeftOut::Helper),
            2 => Some(LeftOut::KernelFunction),
            _ => None,
        },
        _ => None,
    }
}

/// Whether the reserved bits of a wide instruction are zero, as far as there are bytes.
fn reserved_bits_are_zero(bytes: &[u8]) -> bool
    ensures { result ≡ reserved_is_zero bytes.now }
{
    bytes.iter().skip(8).take(4).all(|b| *b == 0)
}

/// The fault of fields that an instruction would use so.
fn fault_of(uses: Option<Uses>, f: &Fields, bytes: &[u8]) -> Option<SlotFault>
    ensures { result ≡ refusal_by_uses uses f.now bytes.now }
{
    let Some(uses) = uses else {
        return Some(SlotFault::Opcode);
    };
    let is_wide = f.opcode == WIDE;
    let is_reserved_wrong = is_wide && !reserved_bits_are_zero(bytes);
    if f.dst > 10 || f.src > 10 {
        Some(SlotFault::Register)
    } else if !uses.are_selected(f) {
        Some(SlotFault::Selector)
    } else if !uses.are_zero_if_unused(f) || is_reserved_wrong {
        Some(SlotFault::Unused {
            fields: uses.wrong(f, is_reserved_wrong),
        })
    } else if is_wide && bytes.len() < 16 {
        Some(SlotFault::Truncated)
    } else {
        None
    }
}

/// Whether the opcode has limits, and the fields in these bytes are within them: then an instruction begins here.
#[inline(always)]
fn is_within_limits(order: Order, bytes: &[u8]) -> bool
    requires { 8 ≤ length bytes.now }
    ensures { result ≡ true → refusal_here order bytes.now ≡ None }
{
    let Some(limits) = limits_of(bytes[0]) else {
        return false;
    };
    let (dst, src) = registers_in(order, bytes[1]);
    limits.allow(
        dst,
        src,
        u16_in(order, &bytes[2..]),
        u32_in(order, &bytes[4..]),
    )
}

/// Why no instruction begins in these bytes, found field by field.
#[tactic(auto, using(crate::proofs::TableLemmas::left_out_told, crate::proofs::TableLemmas::uses_told))]
fn named_fault(order: Order, bytes: &[u8]) -> Option<SlotFault>
    requires { 8 ≤ length bytes.now }
    ensures { result ≡ refusal_here order bytes.now }
{
    let f = fields_from(order, bytes);
    match left_out_in(&f) {
        Some(what) => Some(SlotFault::LeftOut { what }),
        None => fault_of(uses_of(f.opcode), &f, bytes),
    }
}

/// Why no instruction begins in these bytes; None if one does. The faults come in the order E7, E2, E3, E5, E4, E6.
#[inline(always)]
pub fn fault_in(order: Order, bytes: &[u8]) -> Option<SlotFault>
    requires { 8 ≤ length bytes.now }
    ensures { result ≡ refusal_here order bytes.now }
{
    if is_within_limits(order, bytes) {
        None
    } else {
        named_fault(order, bytes)
    }
}
