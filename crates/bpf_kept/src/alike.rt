//! An instruction of the old program, and one that stands for it in the new one.

ghost use Rattle.std.specs.Prelude.{◌≡◌, ◌↔◌, IsTrue};
ghost use Rattle.bpf_kept.specs.Rules.{is_framed, turned_test, same_term, are_offsets, are, by_equality, by_order, undirected, is_jump, is_kept, keeps, put_by, puts, paired};
ghost use Rattle.bpf_kept.specs.Knowns.{known_of};

use crate::accesses::{loads_alike, put, stores};
use crate::facts::{is_same, own, same_register};
use crate::known::KnownHere;
use crate::notes::{Change, Fact, Holder, Term};
use crate::pins::pin_of;
use crate::results::{low_result, put_into, reads_same, result_term};
use crate::terms::{are_offsets, frame_offset, same_term, zero};
use crate::widened::is_widened;
use bpf_insn::{AluOp, Cond, FRAME_BYTES, Insn, Operand, Reg, Width};

/// Whether one moves the end of the own frame to a register, and the other puts its offset there.
fn is_framed(insn: &Insn, moved: &Insn) -> bool
    ensures { result ≡ is_framed insn.now moved.now }
{
    match (*insn, *moved) {
        (
            Insn::Alu {
                op: AluOp::Mov,
                width: Width::W64,
                dst,
                src: Operand::Reg(r),
            },
            Insn::Alu {
                op: AluOp::Mov,
                width: Width::W64,
                dst: into,
                src: Operand::Imm(imm),
            },
        ) => same_register(dst, into) && r.is_frame_pointer() && imm == FRAME_BYTES as i32,
        _ => false,
    }
}

// ---- tests

/// Whether a test with sign compares as another without it, or the other way round.
fn turned_test(cond: Cond, other: Cond) -> bool
    ensures { result ≡ turned_test cond other }
{
    match (cond, other) {
        (Cond::Gt, Cond::SGt) | (Cond::SGt, Cond::Gt) => true,
        (Cond::Ge, Cond::SGe) | (Cond::SGe, Cond::Ge) => true,
        (Cond::Lt, Cond::SLt) | (Cond::SLt, Cond::Lt) => true,
        (Cond::Le, Cond::SLe) | (Cond::SLe, Cond::Le) => true,
        _ => false,
    }
}

/// Whether two registers are equally far from the old program's.
fn are_equal(facts: &[Fact], dst: Reg, src: Reg) -> bool
    ensures { result ≡ are same_term facts.now dst src }
{
    match (own(facts, dst), own(facts, src)) {
        (Some(a), Some(b)) => same_term(a, b),
        _ => false,
    }
}

/// Whether two registers hold offsets into the context, by the old program's pointers.
fn are_ordered(facts: &[Fact], dst: Reg, src: Reg) -> bool
    ensures { result ≡ are are_offsets facts.now dst src }
{
    match (own(facts, dst), own(facts, src)) {
        (Some(a), Some(b)) => are_offsets(a, b),
        _ => false,
    }
}

/// Whether a test for equality is the same in both programs.
fn by_equality(facts: &[Fact], insn: &Insn) -> bool
    ensures { result ≡ by_equality facts.now insn.now }
{
    let Insn::JumpIf {
        cond,
        width: Width::W64,
        dst,
        src: Operand::Reg(src),
        off: _off,
    } = *insn
    else {
        return false;
    };
    match cond {
        Cond::Eq | Cond::Ne => are_equal(facts, dst, src),
        Cond::Gt | Cond::Ge | Cond::Lt | Cond::Le | Cond::Set => false,
        Cond::SGt | Cond::SGe | Cond::SLt | Cond::SLe => false,
    }
}

/// Whether a test of offsets stands for one of pointers.
fn by_order(facts: &[Fact], insn: &Insn, moved: &Insn) -> bool
    ensures { result ≡ by_order facts.now insn.now moved.now }
{
    match (*insn, *moved) {
        (
            Insn::JumpIf {
                cond,
                width: Width::W64,
                dst,
                src: Operand::Reg(src),
                off: _off,
            },
            Insn::JumpIf {
                cond: other,
                width: Width::W64,
                dst: left,
                src: Operand::Reg(right),
                off: _new_off,
            },
        ) => {
            turned_test(cond, other)
                && same_register(dst, left)
                && same_register(src, right)
                && are_ordered(facts, dst, src)
        }
        _ => false,
    }
}

// ---- what both change

/// The instruction, but for where it leads.
fn undirected(insn: &Insn) -> Insn
    ensures { result ≡ undirected insn.now }
{
    match *insn {
        Insn::Ja { off: _off } => Insn::Ja { off: 0 },
        Insn::JaLong { off: _off } => Insn::JaLong { off: 0 },
        Insn::JumpIf {
            cond,
            width,
            dst,
            src,
            off: _off,
        } => Insn::JumpIf {
            cond,
            width,
            dst,
            src,
            off: 0,
        },
        Insn::CallLocal { off: _off } => Insn::CallLocal { off: 0 },
        other => other,
    }
}

/// Whether both are the same but for where they lead.
pub fn are_same(insn: &Insn, moved: &Insn) -> bool
    ensures { IsTrue result ↔ (undirected moved.now ≡ undirected insn.now) }
{
    undirected(moved).is(&undirected(insn))
}

/// Whether it jumps always.
fn is_jump(insn: &Insn) -> bool
    ensures { result ≡ is_jump insn.now }
{
    matches!(*insn, Insn::Ja { .. } | Insn::JaLong { .. })
}

/// Whether it changes no register, and does the same in both programs.
fn is_kept(facts: &[Fact], insn: &Insn) -> bool
    ensures { result ≡ is_kept facts.now insn.now }
{
    match *insn {
        Insn::JumpIf { .. } => reads_same(facts, &undirected(insn)) || by_equality(facts, insn),
        Insn::Alu { .. } | Insn::Neg { .. } | Insn::MovSx { .. } | Insn::End { .. } => false,
        Insn::LoadImm64 { .. } | Insn::Load { .. } | Insn::LoadSx { .. } => false,
        Insn::Store { .. } | Insn::StoreImm { .. } | Insn::Atomic { .. } => false,
        Insn::Ja { .. } | Insn::JaLong { .. } => false,
        Insn::CallLocal { .. } | Insn::Exit => false,
    }
}

/// Whether neither changes a register or the memory, and both do the same.
#[tactic(auto, unfolding(crate::specs::Rules::keeps))]
fn keeps(facts: &[Fact], same: bool, insn: &Insn, moved: &Insn) -> bool
    ensures { result ≡ keeps facts.now same insn.now moved.now }
{
    (is_jump(insn) && is_jump(moved))
        || (same && is_kept(facts, insn))
        || by_order(facts, insn, moved)
}

/// By what the new result differs from the old one.
fn put_by(known: &KnownHere<'_>, same: bool, insn: &Insn, moved: &Insn) -> Option<Option<Term>>
    ensures { result ≡ put_by (known_of known.now) same insn.now moved.now }
{
    if same {
        match result_term(known, insn) {
            Some(t) => Some(Some(t)),
            None => low_result(known.facts, insn),
        }
    } else if loads_alike(known, insn, moved) || is_widened(known, insn, moved) {
        Some(Some(zero()))
    } else if is_framed(insn, moved) {
        Some(Some(frame_offset()))
    } else {
        None
    }
}

/// What both put into a register, where the one stands for the other.
fn puts(known: &KnownHere<'_>, same: bool, insn: &Insn, moved: &Insn) -> Option<Change>
    ensures { result ≡ puts (known_of known.now) same insn.now moved.now }
{
    let r = put_into(insn)?;
    if r.is_frame_pointer() {
        return None;
    }
    let by = put_by(known, same, insn, moved)?;
    Some(put(Holder::Register(r), pin_of(known.facts, insn), by))
}

/// What both change, where the one stands for the other.
#[tactic(auto, unfolding(crate::specs::Rules::paired))]
pub fn paired(known: &KnownHere<'_>, same: bool, insn: &Insn, moved: &Insn) -> Option<Change>
    ensures { result ≡ paired (known_of known.now) same insn.now moved.now }
{
    if keeps(known.facts, same, insn, moved) {
        return Some(Change::Kept);
    }
    match stores(known, same, insn, moved) {
        Some(change) => Some(change),
        None => puts(known, same, insn, moved),
    }
}
