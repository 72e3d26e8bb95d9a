//! What an instruction puts into a register, where both programs do it.

ghost use Rattle.std.specs.Prelude.{◌≡◌, true, option_and_then};
ghost use Rattle.std.specs.List.{list_all};
ghost use Rattle.std.specs.Option.{option_map_or};
ghost use Rattle.bpf_insn.specs.Effects.{registers_read};
ghost use Rattle.bpf_insn.specs.Instruction.{byte_count};
ghost use Rattle.bpf_insn.specs.declared.instruction.AluOp.TheVariants.{Xor};
ghost use Rattle.bpf_insn.specs.declared.instruction.Insn.TheVariants.{Alu, Load};
ghost use Rattle.bpf_insn.specs.declared.instruction.Reg.{Reg};
ghost use Rattle.bpf_kept.specs.Rules.{put_into, operand_term, linear, computed, by_constant, by_terms, own, is_mask, reads_low, reads_same, loads_common, is_common, result_term, keeps_low, is_same, is_low, has_low_result, low_result};
ghost use Rattle.bpf_kept.specs.Knowns.{known_of};

use crate::commons::is_common;
use crate::facts::{is_low, is_same, own, own_in};
use crate::known::KnownHere;
use crate::notes::{Fact, Holder, Term};
use crate::slots::{Displaced, slot_at};
use crate::terms::{minus, negated, plus, times, zero};
use bpf_insn::{AluOp, EndBits, Insn, Operand, Reg, Size, Width, extended};

/// The register into which it puts a number, if it does nothing else.
pub fn put_into(insn: &Insn) -> Option<Reg>
    ensures { result ≡ put_into insn.now }
{
    match *insn {
        Insn::Alu { dst, .. } | Insn::Neg { dst, .. } | Insn::MovSx { dst, .. } => Some(dst),
        Insn::End { dst, .. } | Insn::LoadImm64 { dst, .. } => Some(dst),
        Insn::Load { dst, .. } | Insn::LoadSx { dst, .. } => Some(dst),
        Insn::Store { .. } | Insn::StoreImm { .. } | Insn::Atomic { .. } => None,
        Insn::Ja { .. } | Insn::JaLong { .. } | Insn::JumpIf { .. } => None,
        Insn::CallLocal { .. } | Insn::Exit => None,
    }
}

// ---- by terms

/// How far an operand is from the old program's.
fn operand_term(facts: &[Fact], src: Operand) -> Option<Term>
    ensures { result ≡ operand_term facts.now src }
{
    match src {
        Operand::Imm(_imm) => Some(zero()),
        Operand::Reg(r) => own(facts, r),
    }
}

/// Of 64-bit sums and differences.
fn linear(op: AluOp, a: Term, b: Term) -> Option<Term>
    ensures { result ≡ linear op a b }
{
    match op {
        AluOp::Add => Some(plus(a, b)),
        AluOp::Sub => Some(minus(a, b)),
        AluOp::Mul | AluOp::Div | AluOp::SDiv | AluOp::Mod | AluOp::SMod | AluOp::Mov => None,
        AluOp::Or | AluOp::And | AluOp::Xor | AluOp::Lsh | AluOp::Rsh | AluOp::Arsh => None,
    }
}

/// Of what both operands differ by.
fn combined(facts: &[Fact], op: AluOp, dst: Reg, src: Operand) -> Option<Term>
    ensures { result ≡ option_and_then (λ a. option_and_then (linear op a) (operand_term facts.now src)) (own facts.now dst) }
{
    let a = own(facts, dst)?;
    let b = operand_term(facts, src)?;
    linear(op, a, b)
}

/// Of them and of moves.
fn computed(facts: &[Fact], op: AluOp, dst: Reg, src: Operand) -> Option<Term>
    ensures { result ≡ computed facts.now op dst src }
{
    match op {
        AluOp::Mov => operand_term(facts, src),
        AluOp::Add | AluOp::Sub | AluOp::Mul => combined(facts, op, dst, src),
        AluOp::Div | AluOp::SDiv | AluOp::Mod | AluOp::SMod => combined(facts, op, dst, src),
        AluOp::Or | AluOp::And | AluOp::Xor => combined(facts, op, dst, src),
        AluOp::Lsh | AluOp::Rsh | AluOp::Arsh => combined(facts, op, dst, src),
    }
}

/// Of the complement.
fn by_complement(facts: &[Fact], dst: Reg, imm: i32) -> Option<Term>
    ensures { result ≡ by_constant facts.now Xor dst imm }
{
    if imm == -1 {
        own(facts, dst).map(negated)
    } else {
        None
    }
}

/// Of products by constants, shifts to the left and the complement.
fn by_constant(facts: &[Fact], op: AluOp, dst: Reg, imm: i32) -> Option<Term>
    ensures { result ≡ by_constant facts.now op dst imm }
{
    match op {
        AluOp::Mul => own(facts, dst).map(|t| times(extended(imm), t)),
        AluOp::Lsh => own(facts, dst).map(|t| times(1 << (extended(imm) % 64), t)),
        AluOp::Xor => by_complement(facts, dst, imm),
        AluOp::Add | AluOp::Sub | AluOp::Mov | AluOp::Div | AluOp::SDiv => None,
        AluOp::Mod | AluOp::SMod | AluOp::Or | AluOp::And | AluOp::Rsh | AluOp::Arsh => None,
    }
}

/// Of an operation.
fn alu_by_terms(facts: &[Fact], op: AluOp, width: Width, dst: Reg, src: Operand) -> Option<Term>
    ensures { result ≡ by_terms facts.now (Alu op width dst src) }
{
    match op {
        AluOp::Mul | AluOp::Lsh | AluOp::Xor => match (width, src) {
            (Width::W64, Operand::Imm(imm)) => by_constant(facts, op, dst, imm),
            (Width::W64, Operand::Reg(_r)) => computed(facts, op, dst, src),
            (Width::W32, _) => None,
        },
        AluOp::Add | AluOp::Sub | AluOp::Mov | AluOp::Div | AluOp::SDiv | AluOp::Mod =>
            match width {
                Width::W64 => computed(facts, op, dst, src),
                Width::W32 => None,
            },
        AluOp::SMod | AluOp::Or | AluOp::And | AluOp::Rsh | AluOp::Arsh => match width {
            Width::W64 => computed(facts, op, dst, src),
            Width::W32 => None,
        },
    }
}

/// Of a load of a whole slot.
fn load_by_terms(facts: &[Fact], size: Size, from: Displaced) -> Option<Term>
    ensures { (dst : Reg) → result ≡ by_terms facts.now (Load size dst from.base from.off) }
{
    let n = slot_at(size, from)?;
    own_in(facts, Holder::Slot(n))
}

/// How far the result is from the old program's, by how far the operands are.
fn by_terms(facts: &[Fact], insn: &Insn) -> Option<Term>
    ensures { result ≡ by_terms facts.now insn.now }
{
    match *insn {
        Insn::Alu {
            op,
            width,
            dst,
            src,
        } => alu_by_terms(facts, op, width, dst, src),
        Insn::Neg { width, dst } => match width {
            Width::W64 => own(facts, dst).map(negated),
            Width::W32 => None,
        },
        Insn::Load { size, src, off, .. } => {
            load_by_terms(facts, size, Displaced { base: src, off })
        }
        Insn::MovSx { .. } | Insn::End { .. } | Insn::LoadImm64 { .. } => None,
        Insn::LoadSx { .. } | Insn::Store { .. } => None,
        Insn::StoreImm { .. } | Insn::Atomic { .. } | Insn::Ja { .. } => None,
        Insn::JaLong { .. } | Insn::JumpIf { .. } | Insn::CallLocal { .. } | Insn::Exit => None,
    }
}

// ---- by what it reads

/// Whether a constant is a mask of 32 bits.
fn is_mask(imm: i32) -> bool
    ensures { result ≡ is_mask imm }
{
    imm >= 0
}

/// Whether an operation reads low halves alone.
fn alu_reads_low(op: AluOp, width: Width, src: Operand) -> bool
    ensures { (dst : Reg) → result ≡ reads_low (Alu op width dst src) }
{
    match (width, op, src) {
        (Width::W32, _, _) => true,
        (Width::W64, AluOp::And, Operand::Imm(imm)) => is_mask(imm),
        (Width::W64, _, _) => false,
    }
}

/// Whether it reads low halves alone.
fn reads_low(insn: &Insn) -> bool
    ensures { result ≡ reads_low insn.now }
{
    match *insn {
        Insn::Alu { op, width, src, .. } => alu_reads_low(op, width, src),
        Insn::Neg { width, .. } | Insn::JumpIf { width, .. } => match width {
            Width::W32 => true,
            Width::W64 => false,
        },
        Insn::MovSx { .. } => true,
        Insn::End { bits, .. } => match bits {
            EndBits::B16 | EndBits::B32 => true,
            EndBits::B64 => false,
        },
        Insn::LoadImm64 { .. } | Insn::Load { .. } | Insn::LoadSx { .. } => false,
        Insn::Store { .. } | Insn::StoreImm { .. } | Insn::Atomic { .. } => false,
        Insn::Ja { .. } | Insn::JaLong { .. } | Insn::CallLocal { .. } | Insn::Exit => false,
    }
}

/// Whether a register holds the same, if there is one.
fn is_same_in(facts: &[Fact], place: Option<Reg>) -> bool
    ensures { result ≡ option_map_or (is_same facts.now) place true }
{
    match place {
        Some(r) => is_same(facts, r),
        None => true,
    }
}

/// Whether its low half is the same, if there is one.
fn is_low_in(facts: &[Fact], place: Option<Reg>) -> bool
    ensures { result ≡ option_map_or (is_low facts.now) place true }
{
    match place {
        Some(r) => is_low(facts, r),
        None => true,
    }
}

/// Whether each register that is read holds the same.
fn all_same(facts: &[Fact], insn: &Insn) -> bool
    ensures { result ≡ list_all (is_same facts.now) (registers_read insn.now) }
{
    insn.registers_read()
        .iter()
        .all(|place| is_same_in(facts, *place))
}

/// Whether the low half of each register that is read is the same.
pub fn all_low(facts: &[Fact], insn: &Insn) -> bool
    ensures { result ≡ list_all (is_low facts.now) (registers_read insn.now) }
{
    insn.registers_read()
        .iter()
        .all(|place| is_low_in(facts, *place))
}

/// Whether all that it reads is the same.
#[tactic(auto, unfolding(crate::specs::Rules::reads_same))]
pub fn reads_same(facts: &[Fact], insn: &Insn) -> bool
    ensures { result ≡ reads_same facts.now insn.now }
{
    all_same(facts, insn) || (reads_low(insn) && all_low(facts, insn))
}

/// Whether the bytes at an address are the same.
fn is_common_at(known: &KnownHere<'_>, size: Size, from: Displaced) -> bool
    ensures { result ≡ is_common (known_of known.now) (byte_count size) from.base from.off from.base from.off }
{
    is_common(known, size.bytes(), from, from)
}

/// Whether the bytes that it loads are the same.
fn loads_common(known: &KnownHere<'_>, insn: &Insn) -> bool
    ensures { result ≡ loads_common (known_of known.now) insn.now }
{
    match *insn {
        Insn::Load { size, src, off, .. } => is_common_at(
            known,
            size,
            Displaced { base: src, off },
        ),
        Insn::LoadSx { size, src, off, .. } => {
            is_common_at(known, size, Displaced { base: src, off })
        }
        Insn::Alu { .. } | Insn::Neg { .. } | Insn::MovSx { .. } | Insn::End { .. } => true,
        Insn::LoadImm64 { .. } | Insn::Store { .. } | Insn::StoreImm { .. } => true,
        Insn::Atomic { .. } | Insn::Ja { .. } | Insn::JaLong { .. } => true,
        Insn::JumpIf { .. } | Insn::CallLocal { .. } | Insn::Exit => true,
    }
}

/// How far the result is from the old program's.
#[tactic(auto, unfolding(crate::specs::Rules::result_term))]
pub fn result_term(known: &KnownHere<'_>, insn: &Insn) -> Option<Term>
    ensures { result ≡ result_term (known_of known.now) insn.now }
{
    match by_terms(known.facts, insn) {
        Some(t) => Some(t),
        None => if reads_same(known.facts, insn) && loads_common(known, insn) {
            Some(zero())
        } else {
            None
        },
    }
}

/// Whether the low half of a 64-bit result depends on low halves alone.
fn keeps_low(op: AluOp) -> bool
    ensures { result ≡ keeps_low op }
{
    match op {
        AluOp::Add | AluOp::Sub | AluOp::Mul | AluOp::Mov => true,
        AluOp::And | AluOp::Or | AluOp::Xor | AluOp::Lsh => true,
        AluOp::Div | AluOp::SDiv | AluOp::Mod | AluOp::SMod => false,
        AluOp::Rsh | AluOp::Arsh => false,
    }
}

/// Whether the result's low half is the same.
fn has_low_result(facts: &[Fact], insn: &Insn) -> bool
    ensures { result ≡ has_low_result facts.now insn.now }
{
    let Insn::Alu {
        op,
        width: Width::W64,
        dst: _dst,
        src: _src,
    } = *insn
    else {
        return false;
    };
    keeps_low(op) && all_low(facts, insn)
}

/// That the low halves are the same, if they are.
pub fn low_result(facts: &[Fact], insn: &Insn) -> Option<Option<Term>>
    ensures { result ≡ low_result facts.now insn.now }
{
    if has_low_result(facts, insn) {
        Some(None)
    } else {
        None
    }
}
