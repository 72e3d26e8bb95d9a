//! The instruction that begins at a slot of an image (RFC 9669, sections 3.1 and 3.2).

ghost use Rattle.std.specs.Prelude.{◌≡◌, ◌≤◌, ◌<◌, length, slice_index};
ghost use Rattle.bpf_insn.specs.code.Form.{reach_in, reached};
ghost use Rattle.bpf_insn.specs.Refusal.{fields_in};
ghost use Rattle.bpf_insn.specs.code.Decoding.{register_in, operand_in, divide_in, remainder_in, move_in, end_bits_in, atomic_in, insn_of_form, high_in, insn_in_bytes};

use crate::bytes::{fields_from, u16_in, u32_in};
use crate::fields::Fields;
use crate::form::{Form, Reach, Source, reach_of};
use crate::forms::form_of;
use crate::instruction::{AluOp, AtomicOp, EndBits, Insn, Modify, Operand, Reg, SignBits, Width};
use crate::order::Order;

/// The registers by the four bits of a register field.
pub static REGISTERS: [Option<Reg>; 16] = [
    Some(Reg::R0),
    Some(Reg::R1),
    Some(Reg::R2),
    Some(Reg::R3),
    Some(Reg::R4),
    Some(Reg::R5),
    Some(Reg::R6),
    Some(Reg::R7),
    Some(Reg::R8),
    Some(Reg::R9),
    Some(Reg::R10),
    None,
    None,
    None,
    None,
    None,
];

pub fn operand_of(source: Source, imm: i32, src: Reg) -> Operand
    ensures { result ≡ operand_in source imm src }
{
    match source {
        Source::Imm => Operand::Imm(imm),
        Source::Reg => Operand::Reg(src),
    }
}

pub fn divide_of(offset: i16) -> AluOp
    ensures { result ≡ divide_in offset }
{
    if offset == 0 { AluOp::Div } else { AluOp::SDiv }
}

pub fn remainder_of(offset: i16) -> AluOp
    ensures { result ≡ remainder_in offset }
{
    if offset == 0 { AluOp::Mod } else { AluOp::SMod }
}

pub fn move_of(width: Width, offset: i16, dst: Reg, src: Reg) -> Insn
    ensures { result ≡ move_in width offset dst src }
{
    let bits = match offset {
        8 => SignBits::B8,
        16 => SignBits::B16,
        32 => SignBits::B32,
        _ => {
            return Insn::Alu {
                op: AluOp::Mov,
                width,
                dst,
                src: Operand::Reg(src),
            };
        }
    };
    Insn::MovSx {
        width,
        bits,
        dst,
        src,
    }
}

pub fn end_bits_of(imm: i32) -> EndBits
    ensures { result ≡ end_bits_in imm }
{
    match imm {
        16 => EndBits::B16,
        32 => EndBits::B32,
        _ => EndBits::B64,
    }
}

pub fn atomic_of(imm: i32) -> AtomicOp
    ensures { result ≡ atomic_in imm }
{
    let (by, fetch) = match imm {
        0x00 => (Modify::Add, false),
        0x01 => (Modify::Add, true),
        0x40 => (Modify::Or, false),
        0x41 => (Modify::Or, true),
        0x50 => (Modify::And, false),
        0x51 => (Modify::And, true),
        0xa0 => (Modify::Xor, false),
        0xa1 => (Modify::Xor, true),
        0xe1 => return AtomicOp::Xchg,
        _ => return AtomicOp::CmpXchg,
    };
    AtomicOp::Modify { by, fetch }
}

/// The instruction of a form with these fields; `high` is the imm of the second slot.
#[inline(always)]
fn insn_of(form: Form, dst: Reg, src: Reg, f: &Fields, high: u32) -> Insn
    ensures { result ≡ insn_of_form form dst src f.now high }
{
    let offset = f.offset;
    let imm = f.imm;
    match form {
        Form::Alu { op, width, source } => Insn::Alu {
            op,
            width,
            dst,
            src: operand_of(source, imm, src),
        },
        Form::Divide { width, source } => Insn::Alu {
            op: divide_of(offset),
            width,
            dst,
            src: operand_of(source, imm, src),
        },
        Form::Remainder { width, source } => Insn::Alu {
            op: remainder_of(offset),
            width,
            dst,
            src: operand_of(source, imm, src),
        },
        Form::Move { width } => move_of(width, offset, dst, src),
        Form::Neg { width } => Insn::Neg { width, dst },
        Form::End { kind } => Insn::End {
            kind,
            bits: end_bits_of(imm),
            dst,
        },
        Form::LoadImm64 => Insn::LoadImm64 {
            dst,
            value: u64::from(imm.cast_unsigned()) + (u64::from(high) << 32),
        },
        Form::Load { size } => Insn::Load {
            size,
            dst,
            src,
            off: offset,
        },
        Form::LoadSx { size } => Insn::LoadSx {
            size,
            dst,
            src,
            off: offset,
        },
        Form::StoreImm { size } => Insn::StoreImm {
            size,
            dst,
            off: offset,
            imm,
        },
        Form::Store { size } => Insn::Store {
            size,
            dst,
            off: offset,
            src,
        },
        Form::Atomic { wide } => Insn::Atomic {
            wide,
            op: atomic_of(imm),
            dst,
            off: offset,
            src,
        },
        Form::Ja => Insn::Ja { off: offset },
        Form::JaLong => Insn::JaLong { off: imm },
        Form::JumpIf {
            cond,
            width,
            source,
        } => Insn::JumpIf {
            cond,
            width,
            dst,
            src: operand_of(source, imm, src),
            off: offset,
        },
        Form::CallLocal => Insn::CallLocal { off: imm },
        Form::Exit => Insn::Exit,
    }
}

/// The imm of a second slot, or 0 where the bytes end before it.
fn high_of(order: Order, bytes: &[u8]) -> u32
    ensures { result ≡ high_in order bytes.now }
{
    if bytes.len() < 16 {
        0
    } else {
        u32_in(order, &bytes[12..])
    }
}

/// The instruction that begins in these bytes of an image; None in the second slot of a wide one.
#[tactic(auto, unfolding(crate::specs::code::Decoding::insn_in_bytes))]
#[inline(always)]
pub fn insn_from(order: Order, bytes: &[u8]) -> Option<Insn>
    requires { 8 ≤ length bytes.now }
    ensures { result ≡ insn_in_bytes order bytes.now }
{
    let f = fields_from(order, bytes);
    let form = form_of(f.opcode)?;
    let dst = REGISTERS[f.dst as usize]?;
    let src = REGISTERS[f.src as usize]?;
    Some(insn_of(form, dst, src, &f, high_of(order, bytes)))
}

/// How far the instruction leads that begins in these bytes of an image.
pub fn distance_from(order: Order, bytes: &[u8]) -> Option<i32>
    requires { 8 ≤ length bytes.now }
    ensures { result ≡ reached (reach_in (slice_index bytes.now 0)) (fields_in order bytes.now) }
{
    match reach_of(bytes[0]) {
        Reach::Nowhere => None,
        Reach::ByOffset => Some(u16_in(order, &bytes[2..]).cast_signed() as i32),
        Reach::ByImm => Some(u32_in(order, &bytes[4..]).cast_signed()),
    }
}
