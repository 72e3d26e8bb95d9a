//! Operations of 32 bits, for which the new program has those of 64 bits: where the result has 32 bits at most, both are the same.

ghost use Rattle.std.specs.Prelude.{◌≡◌};
ghost use Rattle.bpf_kept.specs.Rules.{widened_op, same_operand, shifts_alike, has_few_bits, is_widened};
ghost use Rattle.bpf_kept.specs.Knowns.{known_of};

use crate::facts::same_register;
use crate::known::KnownHere;
use crate::results::all_low;
use crate::states::{held_number, operand_number};
use bpf_insn::{AluOp, Insn, Operand, Reg, Width};

/// The first number that has more than 32 bits.
const LOW_END: u64 = 1 << 32;

/// How many bits a register of 32 has; shifts are by less.
const LOW_BITS: u64 = 32;

/// Whether both are one operation, whose low half depends on low halves alone.
fn widened_op(op: AluOp, other: AluOp) -> bool
    ensures { result ≡ widened_op op other }
{
    match (op, other) {
        (AluOp::Add, AluOp::Add) | (AluOp::Sub, AluOp::Sub) => true,
        (AluOp::Mul, AluOp::Mul) | (AluOp::Mov, AluOp::Mov) => true,
        (AluOp::And, AluOp::And) | (AluOp::Or, AluOp::Or) => true,
        (AluOp::Xor, AluOp::Xor) | (AluOp::Lsh, AluOp::Lsh) => true,
        _ => false,
    }
}

/// Whether two operands are the same.
fn same_operand(a: Operand, b: Operand) -> bool
    ensures { result ≡ same_operand a b }
{
    match (a, b) {
        (Operand::Imm(a), Operand::Imm(b)) => a == b,
        (Operand::Reg(a), Operand::Reg(b)) => same_register(a, b),
        _ => false,
    }
}

/// Whether a shift is by less than 32, as far as it is one.
fn shifts_alike(known: &KnownHere<'_>, op: AluOp, src: Operand) -> bool
    ensures { result ≡ shifts_alike (known_of known.now) op src }
{
    match op {
        AluOp::Lsh => operand_number(known.state, src).unsigned().hi() < LOW_BITS,
        AluOp::Add | AluOp::Sub | AluOp::Mul | AluOp::Div | AluOp::SDiv | AluOp::Mod => true,
        AluOp::SMod | AluOp::Or | AluOp::And | AluOp::Xor | AluOp::Mov => true,
        AluOp::Rsh | AluOp::Arsh => true,
    }
}

/// Whether the new program's result has 32 bits at most.
fn has_few_bits(known: &KnownHere<'_>, op: AluOp, dst: Reg, src: Operand) -> bool
    ensures { result ≡ has_few_bits (known_of known.now) op dst src }
{
    let left = held_number(known.state, dst);
    match left.alu(op, Width::W64, operand_number(known.state, src)) {
        Some(number) => number.unsigned().hi() < LOW_END,
        None => false,
    }
}

/// Whether an operation of 64 bits stands for one of 32, with the same result.
#[tactic(auto, unfolding(crate::specs::Rules::is_widened))]
pub fn is_widened(known: &KnownHere<'_>, insn: &Insn, moved: &Insn) -> bool
    ensures { result ≡ is_widened (known_of known.now) insn.now moved.now }
{
    match (*insn, *moved) {
        (
            Insn::Alu {
                op,
                width: Width::W32,
                dst,
                src,
            },
            Insn::Alu {
                op: other,
                width: Width::W64,
                dst: into,
                src: from,
            },
        ) => {
            widened_op(op, other)
                && same_register(dst, into)
                && same_operand(src, from)
                && all_low(known.facts, moved)
                && shifts_alike(known, other, from)
                && has_few_bits(known, other, into, from)
        }
        _ => false,
    }
}
