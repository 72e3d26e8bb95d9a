//! Statements with a memory operand: loads, stores and atomic operations.

ghost use Rattle.std.specs.Prelude.{◌≡◌, option_map};
ghost use Rattle.bpf_text.specs.code.StatementReading.{memory_operand_in, load_in, unsigned_size, store_in, wide_of, change_in, exchange_in, atomic_in};
ghost use Rattle.bpf_text.specs.Statements.{load_of, store_of};

use crate::lookup::memory;
use crate::spelling::{MODIFICATIONS, Memory};
use crate::statement::{Read, fits_16, operand, register};
use crate::token::{behind, behind_mark, first_spelled, signed};
use bpf_insn::{AtomicOp, Insn, Operand, Reg, Size, Width};

/// A memory operand: `*(u8 *)(r1 + 0)`. The offset is None where it is out of its range.
#[derive(Clone, Copy)]
pub struct MemoryOperand {
    pub memory: Memory,
    pub base: Reg,
    pub off: Option<i16>,
}

#[tactic(auto, unfolding(crate::specs::code::StatementReading::memory_operand_in))]
fn read_memory_operand(text: &[u8]) -> Option<(MemoryOperand, &[u8])>
    ensures { option_map (λ x. (x.0, x.1.now)) result ≡ memory_operand_in text.now }
{
    let (memory, rest) = memory(behind(text, "*(")?)?;
    let (base, rest) = register(Width::W64, behind(rest, "*)(")?)?;
    let (off, rest) = signed(rest)?;
    let rest = behind_mark(rest, b')')?;
    let at = MemoryOperand {
        memory,
        base,
        off: fits_16(off),
    };
    Some((at, rest))
}

fn load_of(at: MemoryOperand, dst: Reg) -> Option<Insn>
    ensures { result ≡ option_map (load_of at.memory dst at.base) at.off }
{
    let off = at.off?;
    let src = at.base;
    Some(match at.memory {
        Memory::Unsigned(size) => Insn::Load {
            size,
            dst,
            src,
            off,
        },
        Memory::Signed(size) => Insn::LoadSx {
            size,
            dst,
            src,
            off,
        },
    })
}

#[tactic(auto, unfolding(crate::specs::code::StatementReading::load_in))]
pub fn load(width: Width, dst: Reg, text: &[u8]) -> Read<'_, Insn>
    ensures { option_map (λ x. (x.0, x.1.now)) result ≡ load_in width dst text.now }
{
    match width {
        Width::W32 => None,
        Width::W64 => {
            let (at, rest) = read_memory_operand(text)?;
            Some((load_of(at, dst), rest))
        }
    }
}

fn unsigned_size(memory: Memory) -> Option<Size>
    ensures { result ≡ unsigned_size memory }
{
    match memory {
        Memory::Unsigned(size) => Some(size),
        Memory::Signed(_) => None,
    }
}

fn store_of(size: Size, dst: Reg, off: Option<i16>, src: Option<Operand>) -> Option<Insn>
    ensures { result ≡ store_of size dst off src }
{
    let off = off?;
    Some(match src? {
        Operand::Reg(src) => Insn::Store {
            size,
            dst,
            off,
            src,
        },
        Operand::Imm(imm) => Insn::StoreImm {
            size,
            dst,
            off,
            imm,
        },
    })
}

#[tactic(auto, unfolding(crate::specs::code::StatementReading::store_in))]
pub fn store(text: &[u8]) -> Read<'_, Insn>
    ensures { option_map (λ x. (x.0, x.1.now)) result ≡ store_in text.now }
{
    let (at, rest) = read_memory_operand(text)?;
    let size = unsigned_size(at.memory)?;
    let (src, rest) = operand(Width::W64, behind_mark(rest, b'=')?)?;
    Some((store_of(size, at.base, at.off, src), rest))
}

/// Whether an atomic operation on it is one of 64 bits, if there is one.
fn wide_of(memory: Memory) -> Option<bool>
    ensures { result ≡ wide_of memory }
{
    match memory {
        Memory::Unsigned(Size::W) => Some(false),
        Memory::Unsigned(Size::DW) => Some(true),
        Memory::Unsigned(Size::B | Size::H) => None,
        Memory::Signed(_) => None,
    }
}

fn atomic_of(wide: bool, op: AtomicOp, at: MemoryOperand, src: Reg) -> Option<Insn>
    ensures { result ≡ option_map (λ off. Insn.Atomic wide op at.base off src) at.off }
{
    Some(Insn::Atomic {
        wide,
        op,
        dst: at.base,
        off: at.off?,
        src,
    })
}

#[tactic(auto, unfolding(crate::specs::code::StatementReading::change_in))]
fn change(fetch: bool, text: &[u8]) -> Read<'_, Insn>
    ensures { option_map (λ x. (x.0, x.1.now)) result ≡ change_in fetch text.now }
{
    let (at, rest) = read_memory_operand(text)?;
    let wide = wide_of(at.memory)?;
    let (by, rest) = first_spelled(&MODIFICATIONS, rest)?;
    let (src, rest) = register(Width::W64, rest)?;
    let op = AtomicOp::Modify { by, fetch };
    Some((atomic_of(wide, op, at, src), rest))
}

#[tactic(auto, unfolding(crate::specs::code::StatementReading::exchange_in))]
fn exchange(op: AtomicOp, text: &[u8]) -> Read<'_, Insn>
    ensures { option_map (λ x. (x.0, x.1.now)) result ≡ exchange_in op text.now }
{
    let (at, rest) = read_memory_operand(text)?;
    let wide = wide_of(at.memory)?;
    let (src, rest) = register(Width::W64, behind_mark(rest, b',')?)?;
    Some((atomic_of(wide, op, at, src), rest))
}

/// What stands behind `lock`.
#[tactic(auto, unfolding(crate::specs::code::StatementReading::atomic_in))]
pub fn atomic(text: &[u8]) -> Read<'_, Insn>
    ensures { option_map (λ x. (x.0, x.1.now)) result ≡ atomic_in text.now }
{
    if let Some(rest) = behind(text, "fetch") {
        return change(true, rest);
    }
    if let Some(rest) = behind(text, "xchg") {
        return exchange(AtomicOp::Xchg, rest);
    }
    if let Some(rest) = behind(text, "cmpxchg") {
        return exchange(AtomicOp::CmpXchg, rest);
    }
    change(false, text)
}
