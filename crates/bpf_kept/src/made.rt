//! What an extra instruction puts into a register or slot of the new program alone.

ghost use Rattle.std.specs.Prelude.{◌≡◌, false};
ghost use Rattle.std.specs.List.{list_any};
ghost use Rattle.std.specs.Option.{option_map_or};
ghost use Rattle.bpf_insn.specs.declared.instruction.Insn.TheVariants.{Alu, Load, LoadImm64};
ghost use Rattle.bpf_insn.specs.declared.instruction.AluOp.TheVariants.{Mov};
ghost use Rattle.bpf_insn.specs.declared.instruction.Reg.{Reg};
ghost use Rattle.bpf_kept.specs.Behind.{sum_base, difference_base, is_sum, is_difference, is_moved, made_by, known_operand, of_number, of_operand, by_operand, made_from, of_slot, made};

use crate::facts::{is_base, is_holder, is_register, known_number};
use crate::notes::{Fact, Holder};
use crate::slots::{Displaced, slot_at};
use crate::terms::{constant, frame_end, is_enough, minus, plus};
use bpf_insn::{AluOp, Insn, Operand, Reg, Size, Width, extended};

/// Whether a sum has this base.
fn sum_base(a: Option<Holder>, b: Option<Holder>, want: Option<Holder>) -> bool
    ensures { result ≡ sum_base a b want }
{
    (a.is_none() && is_base(b, want)) || (b.is_none() && is_base(a, want))
}

/// Whether a difference has this base.
fn difference_base(a: Option<Holder>, b: Option<Holder>, want: Option<Holder>) -> bool
    ensures { result ≡ difference_base a b want }
{
    (b.is_none() && is_base(a, want)) || (is_base(a, b) && want.is_none())
}

/// Whether the sum of what a register has and what the operand has is known as wanted.
fn is_sum(dst: Reg, b: Fact, want: Fact, a: Fact) -> bool
    ensures { result ≡ is_sum dst b want a }
{
    is_register(dst, a.of)
        && sum_base(a.base, b.base, want.base)
        && match (a.by, b.by) {
            (Some(a), Some(b)) => is_enough(Some(plus(a, b)), want.by),
            _ => false,
        }
}

/// Whether the difference is.
fn is_difference(dst: Reg, b: Fact, want: Fact, a: Fact) -> bool
    ensures { result ≡ is_difference dst b want a }
{
    is_register(dst, a.of)
        && difference_base(a.base, b.base, want.base)
        && match (a.by, b.by) {
            (Some(a), Some(b)) => is_enough(Some(minus(a, b)), want.by),
            _ => false,
        }
}

/// Whether what is moved is known as wanted.
fn is_moved(b: Fact, want: Fact) -> bool
    ensures { result ≡ is_moved b want }
{
    is_base(b.base, want.base) && is_enough(b.by, want.by)
}

/// Whether the result is, by one fact of the operand.
fn made_by(facts: &[Fact], op: AluOp, dst: Reg, want: Fact, b: Fact) -> bool
    ensures { result ≡ made_by facts.now op dst want b }
{
    match op {
        AluOp::Mov => is_moved(b, want),
        AluOp::Add => facts.iter().any(|a| is_sum(dst, b, want, *a)),
        AluOp::Sub => facts.iter().any(|a| is_difference(dst, b, want, *a)),
        AluOp::Mul | AluOp::Div | AluOp::SDiv | AluOp::Mod | AluOp::SMod => false,
        AluOp::And | AluOp::Or | AluOp::Xor | AluOp::Lsh | AluOp::Rsh | AluOp::Arsh => false,
    }
}

/// What an operand is by itself: a constant, or the frame's end.
fn known_operand(src: Operand) -> Option<Fact>
    ensures { result ≡ known_operand src }
{
    match src {
        Operand::Imm(imm) => Some(known_number(None, constant(extended(imm)))),
        Operand::Reg(r) => if r.is_frame_pointer() {
            Some(known_number(Some(Holder::Register(r)), frame_end()))
        } else {
            None
        },
    }
}

/// A number, by what 0 is.
pub fn of_number(n: u64, fact: Fact) -> Option<Fact>
    ensures { result ≡ of_number n fact }
{
    if fact.of.is_some() {
        return None;
    }
    let t = fact.by?;
    Some(Fact {
        of: None,
        base: fact.base,
        by: Some(plus(t, constant(n))),
    })
}

/// Whether a number is known as wanted, by what 0 is.
fn is_number(n: u64, want: Fact, fact: Fact) -> bool
    ensures { result ≡ option_map_or (λ b. is_moved b want) (of_number n fact) false }
{
    match of_number(n, fact) {
        Some(b) => is_moved(b, want),
        None => false,
    }
}

/// What a fact says of an operand.
fn of_operand(src: Operand, fact: Fact) -> Option<Fact>
    ensures { result ≡ of_operand src fact }
{
    match src {
        Operand::Imm(imm) => of_number(extended(imm), fact),
        Operand::Reg(r) => if is_register(r, fact.of) {
            Some(fact)
        } else {
            None
        },
    }
}

/// An operation of 64 bits, and what is wanted of its result.
#[derive(Clone, Copy)]
struct WantedResult {
    op: AluOp,
    dst: Reg,
    src: Operand,
    want: Fact,
}

/// Whether the result is known as wanted, by a fact of the operand.
fn by_operand(facts: &[Fact], wanted: WantedResult, fact: Fact) -> bool
    ensures { result ≡ by_operand facts.now wanted.op wanted.dst wanted.src wanted.want fact }
{
    match of_operand(wanted.src, fact) {
        Some(b) => made_by(facts, wanted.op, wanted.dst, wanted.want, b),
        None => false,
    }
}

/// Whether it is by the operand itself.
fn by_number(facts: &[Fact], wanted: WantedResult) -> bool
    ensures { result ≡ option_map_or (made_by facts.now wanted.op wanted.dst wanted.want) (known_operand wanted.src) false }
{
    match known_operand(wanted.src) {
        Some(b) => made_by(facts, wanted.op, wanted.dst, wanted.want, b),
        None => false,
    }
}

/// Whether the result is known as wanted, by the operand or by a fact of it.
fn made_from(facts: &[Fact], wanted: WantedResult) -> bool
    ensures { result ≡ made_from facts.now wanted.op wanted.dst wanted.src wanted.want }
{
    by_number(facts, wanted) || facts.iter().any(|fact| by_operand(facts, wanted, *fact))
}

/// Whether a constant is known as wanted, by itself or by what 0 is.
#[tactic(auto, unfolding(crate::specs::Behind::made))]
fn made_constant(facts: &[Fact], value: u64, want: Fact) -> bool
    ensures { (dst : Reg) → result ≡ made facts.now (LoadImm64 dst value) want }
{
    is_moved(known_number(None, constant(value)), want)
        || facts.iter().any(|fact| is_number(value, want, *fact))
}

/// Whether a fact says as wanted what is in a slot.
fn of_slot(n: u8, want: Fact, fact: Fact) -> bool
    ensures { result ≡ of_slot n want fact }
{
    is_holder(Holder::Slot(n), fact.of) && is_moved(fact, want)
}

/// Whether one of them does.
fn is_in_slot(facts: &[Fact], n: u8, want: Fact) -> bool
    ensures { result ≡ list_any (of_slot n want) facts.now }
{
    facts.iter().any(|fact| of_slot(n, want, *fact))
}

/// Whether what is loaded of a whole slot is known as wanted.
#[tactic(auto, unfolding(crate::specs::Behind::made))]
fn made_of_slot(facts: &[Fact], size: Size, from: Displaced, want: Fact) -> bool
    ensures { (dst : Reg) → result ≡ made facts.now (Load size dst from.base from.off) want }
{
    match slot_at(size, from) {
        Some(n) => is_in_slot(facts, n, want),
        None => false,
    }
}

/// Whether what is moved or stored is known as wanted.
fn made_of(facts: &[Fact], dst: Reg, src: Operand, want: Fact) -> bool
    ensures { result ≡ made_from facts.now Mov dst src want }
{
    let wanted = WantedResult {
        op: AluOp::Mov,
        dst,
        src,
        want,
    };
    made_from(facts, wanted)
}

/// Whether the result of an operation is known as wanted.
#[tactic(auto, unfolding(crate::specs::Behind::made))]
fn made_alu(facts: &[Fact], width: Width, wanted: WantedResult) -> bool
    ensures { result ≡ made facts.now (Alu wanted.op width wanted.dst wanted.src) wanted.want }
{
    match width {
        Width::W64 => made_from(facts, wanted),
        Width::W32 => false,
    }
}

/// Whether what an extra instruction puts is known as wanted.
#[tactic(auto, unfolding(crate::specs::Behind::made))]
pub fn made(facts: &[Fact], insn: &Insn, want: Fact) -> bool
    ensures { result ≡ made facts.now insn.now want }
{
    match *insn {
        Insn::Alu {
            op,
            width,
            dst,
            src,
        } => made_alu(facts, width, WantedResult { op, dst, src, want }),
        Insn::LoadImm64 { value, .. } => made_constant(facts, value, want),
        Insn::Load { size, src, off, .. } => {
            made_of_slot(facts, size, Displaced { base: src, off }, want)
        }
        Insn::Store { src, .. } => made_of(facts, src, Operand::Reg(src), want),
        Insn::StoreImm { imm, .. } => made_of(facts, Reg::R0, Operand::Imm(imm), want),
        Insn::Neg { .. } | Insn::MovSx { .. } | Insn::End { .. } => false,
        Insn::LoadSx { .. } | Insn::Atomic { .. } | Insn::Ja { .. } => false,
        Insn::JaLong { .. } | Insn::JumpIf { .. } | Insn::CallLocal { .. } | Insn::Exit => false,
    }
}
