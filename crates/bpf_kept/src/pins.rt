//! Which numbers the old program has by itself, and what it makes of them: constants are folded as a compiler folds them.

ghost use Rattle.std.specs.Prelude.{◌≡◌, option_map, option_and_then};
ghost use Rattle.bpf_insn.specs.Arithmetic.{alu};
ghost use Rattle.bpf_insn.specs.declared.instruction.AluOp.TheVariants.{Mov};
ghost use Rattle.bpf_insn.specs.declared.instruction.Insn.TheVariants.{Alu, Load};
ghost use Rattle.bpf_insn.specs.declared.instruction.Operand.TheVariants.{Reg as FromReg};
ghost use Rattle.bpf_insn.specs.declared.instruction.Reg.{Reg};
ghost use Rattle.bpf_kept.specs.declared.notes.Holder.TheVariants.{Register};
ghost use Rattle.bpf_kept.specs.Terms.{plus, minus, number_pin};
ghost use Rattle.bpf_kept.specs.Rules.{pinned, operand_pin, old_number, old_result, pin_of, both};

use crate::facts::pinned;
use crate::notes::{Fact, Holder, Term};
use crate::slots::{Displaced, slot_at};
use crate::terms::{minus, number_pin, pinned_number, plus};
use bpf_insn::{AluOp, Insn, Operand, Reg, Size, Width, extended};

/// What makes 0 with an operand.
fn operand_pin(facts: &[Fact], src: Operand) -> Option<Term>
    ensures { result ≡ operand_pin facts.now src }
{
    match src {
        Operand::Imm(imm) => Some(number_pin(extended(imm))),
        Operand::Reg(r) => pinned(facts, Holder::Register(r)),
    }
}

/// Which number it is in the old program, if that is one wherever frames lie.
pub fn old_number(facts: &[Fact], src: Operand) -> Option<u64>
    ensures { result ≡ old_number facts.now src }
{
    let t = operand_pin(facts, src)?;
    pinned_number(t)
}

// ---- what is made of numbers

/// What an operation makes of both operands.
fn result_of_both(facts: &[Fact], op: AluOp, width: Width, dst: Reg, src: Operand) -> Option<u64>
    ensures { result ≡ option_and_then (λ a. option_map (alu width op a) (old_number facts.now src)) (old_number facts.now (FromReg dst)) }
{
    let a = old_number(facts, Operand::Reg(dst))?;
    let b = old_number(facts, src)?;
    Some(op.compute(width, a, b))
}

/// What a move makes of its operand.
fn result_of_move(facts: &[Fact], width: Width, src: Operand) -> Option<u64>
    ensures { result ≡ option_map (alu width Mov 0) (old_number facts.now src) }
{
    let b = old_number(facts, src)?;
    Some(AluOp::Mov.compute(width, 0, b))
}

/// What an operation makes.
fn result_of_alu(facts: &[Fact], op: AluOp, width: Width, dst: Reg, src: Operand) -> Option<u64>
    ensures { result ≡ old_result facts.now (Alu op width dst src) }
{
    match op {
        AluOp::Mov => result_of_move(facts, width, src),
        AluOp::Add | AluOp::Sub | AluOp::Mul => result_of_both(facts, op, width, dst, src),
        AluOp::Div | AluOp::SDiv | AluOp::Mod | AluOp::SMod => {
            result_of_both(facts, op, width, dst, src)
        }
        AluOp::Or | AluOp::And | AluOp::Xor => result_of_both(facts, op, width, dst, src),
        AluOp::Lsh | AluOp::Rsh | AluOp::Arsh => result_of_both(facts, op, width, dst, src),
    }
}

/// What the old program puts or stores, by the numbers that it has.
fn old_result(facts: &[Fact], insn: &Insn) -> Option<u64>
    ensures { result ≡ old_result facts.now insn.now }
{
    match *insn {
        Insn::Alu {
            op,
            width,
            dst,
            src,
        } => result_of_alu(facts, op, width, dst, src),
        Insn::Neg { width, dst } => {
            let a = old_number(facts, Operand::Reg(dst))?;
            Some(AluOp::Sub.compute(width, 0, a))
        }
        Insn::MovSx {
            width,
            bits,
            src,
            ..
        } => {
            let a = old_number(facts, Operand::Reg(src))?;
            Some(bits.extend(width, a))
        }
        Insn::LoadImm64 { value, .. } => Some(value),
        Insn::StoreImm { imm, .. } => Some(extended(imm)),
        Insn::End { .. } | Insn::Load { .. } | Insn::LoadSx { .. } | Insn::Store { .. } => None,
        Insn::Atomic { .. } | Insn::Ja { .. } | Insn::JaLong { .. } => None,
        Insn::JumpIf { .. } | Insn::CallLocal { .. } | Insn::Exit => None,
    }
}

// ---- what makes 0 with it

/// What makes 0 with a sum.
fn pin_of_sum(facts: &[Fact], dst: Reg, src: Operand) -> Option<Term>
    ensures { result ≡ both plus (pinned facts.now (Register dst)) (operand_pin facts.now src) }
{
    let t = pinned(facts, Holder::Register(dst))?;
    let u = operand_pin(facts, src)?;
    Some(plus(t, u))
}

/// What makes 0 with a difference.
fn pin_of_difference(facts: &[Fact], dst: Reg, src: Operand) -> Option<Term>
    ensures { result ≡ both minus (pinned facts.now (Register dst)) (operand_pin facts.now src) }
{
    let t = pinned(facts, Holder::Register(dst))?;
    let u = operand_pin(facts, src)?;
    Some(minus(t, u))
}

/// What makes 0 with what a slot has.
fn pin_of_slot(facts: &[Fact], size: Size, from: Displaced) -> Option<Term>
    ensures { (dst : Reg) → result ≡ pin_of facts.now (Load size dst from.base from.off) }
{
    let n = slot_at(size, from)?;
    pinned(facts, Holder::Slot(n))
}

/// What makes 0 with what is made of numbers.
fn pin_of_result(facts: &[Fact], insn: &Insn) -> Option<Term>
    ensures { result ≡ option_map number_pin (old_result facts.now insn.now) }
{
    let n = old_result(facts, insn)?;
    Some(number_pin(n))
}

/// What makes 0 with the result of an operation.
fn pin_of_alu(facts: &[Fact], op: AluOp, width: Width, dst: Reg, src: Operand) -> Option<Term>
    ensures { result ≡ pin_of facts.now (Alu op width dst src) }
{
    let insn = Insn::Alu {
        op,
        width,
        dst,
        src,
    };
    match (op, width) {
        (AluOp::Mov, Width::W64) => operand_pin(facts, src),
        (AluOp::Add, Width::W64) => pin_of_sum(facts, dst, src),
        (AluOp::Sub, Width::W64) => pin_of_difference(facts, dst, src),
        (AluOp::Mov | AluOp::Add | AluOp::Sub, Width::W32) => pin_of_result(facts, &insn),
        (AluOp::Mul | AluOp::Div | AluOp::SDiv, _) => pin_of_result(facts, &insn),
        (AluOp::Mod | AluOp::SMod, _) => pin_of_result(facts, &insn),
        (AluOp::Or | AluOp::And | AluOp::Xor, _) => pin_of_result(facts, &insn),
        (AluOp::Lsh | AluOp::Rsh | AluOp::Arsh, _) => pin_of_result(facts, &insn),
    }
}

/// What makes 0 with what an instruction puts or stores, if that is known by itself.
pub fn pin_of(facts: &[Fact], insn: &Insn) -> Option<Term>
    ensures { result ≡ pin_of facts.now insn.now }
{
    match *insn {
        Insn::Alu {
            op,
            width,
            dst,
            src,
        } => pin_of_alu(facts, op, width, dst, src),
        Insn::Load { size, src, off, .. } => pin_of_slot(facts, size, Displaced { base: src, off }),
        Insn::Store { src, .. } => pinned(facts, Holder::Register(src)),
        Insn::Neg { .. } | Insn::MovSx { .. } | Insn::LoadImm64 { .. } => {
            pin_of_result(facts, insn)
        }
        Insn::StoreImm { .. } => pin_of_result(facts, insn),
        Insn::End { .. } | Insn::LoadSx { .. } => None,
        Insn::Atomic { .. } | Insn::Ja { .. } | Insn::JaLong { .. } => None,
        Insn::JumpIf { .. } | Insn::CallLocal { .. } | Insn::Exit => None,
    }
}
