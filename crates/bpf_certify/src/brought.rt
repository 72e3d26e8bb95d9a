//! Facts that an instruction may bring. Each is asked about before it is noted, so what is proposed here is a guess.

use bpf_insn::{AluOp, Insn, Operand, Reg, Width, extended};
use bpf_kept::{
    Change, Displaced, Fact, Holder, Term, by_itself as same, constant, frame_end, is_holder,
    minus, plus, same_holder, slot_at,
};
use std::alloc::{AllocError, Global};

/// What an extra instruction takes: a number, or what a place holds.
#[derive(Clone, Copy)]
enum MadeFrom {
    Number(u64),
    Place(Holder),
}

/// What an extra instruction makes: of a register, if it is a sum or a difference, and of a source.
#[derive(Clone, Copy)]
struct MadeOf {
    op: AluOp,
    dst: Reg,
    source: MadeFrom,
}

/// The operand as a source.
fn source_of(src: Operand) -> MadeFrom {
    match src {
        Operand::Imm(imm) => MadeFrom::Number(extended(imm)),
        Operand::Reg(r) => MadeFrom::Place(Holder::Register(r)),
    }
}

/// A move of a source.
fn move_of(source: MadeFrom) -> MadeOf {
    MadeOf {
        op: AluOp::Mov,
        dst: Reg::R0,
        source,
    }
}

/// What an instruction makes, if that is a move, a sum or a difference of 64 bits.
fn making_of(insn: &Insn) -> Option<MadeOf> {
    match *insn {
        Insn::Alu {
            op,
            width,
            dst,
            src,
        } => match width {
            Width::W64 => Some(MadeOf {
                op,
                dst,
                source: source_of(src),
            }),
            Width::W32 => None,
        },
        Insn::LoadImm64 { value, .. } => Some(move_of(MadeFrom::Number(value))),
        Insn::Load { size, src, off, .. } => {
            let slot = slot_at(size, Displaced { base: src, off })?;
            Some(move_of(MadeFrom::Place(Holder::Slot(slot))))
        }
        Insn::Store { src, .. } => Some(move_of(MadeFrom::Place(Holder::Register(src)))),
        Insn::StoreImm { imm, .. } => Some(move_of(MadeFrom::Number(extended(imm)))),
        Insn::Neg { .. } | Insn::MovSx { .. } | Insn::End { .. } | Insn::LoadSx { .. } => None,
        Insn::Atomic { .. } | Insn::Ja { .. } | Insn::JaLong { .. } => None,
        Insn::JumpIf { .. } | Insn::CallLocal { .. } | Insn::Exit => None,
    }
}

/// What is known of a number or of a place: an old place (None: 0), and how far it is from that.
#[derive(Clone, Copy)]
struct KnownDistance {
    base: Option<Holder>,
    by: Option<Term>,
}

/// What a fact says of a source, if it is put into a place. What the old program has by itself says something of each number, but only of the same
/// place does it matter.
fn said_of(source: MadeFrom, into: Holder, fact: &Fact) -> Option<KnownDistance> {
    match source {
        MadeFrom::Place(holder) if is_holder(holder, fact.of) => Some(KnownDistance {
            base: fact.base,
            by: fact.by,
        }),
        MadeFrom::Number(n) if fact.of.is_none() && is_holder(into, fact.base) => Some(
            KnownDistance {
                base: fact.base,
                by: fact.by.map(|by| plus(by, constant(n))),
            },
        ),
        _ => None,
    }
}

/// What a source is by itself.
fn by_itself(source: MadeFrom) -> Option<KnownDistance> {
    let by = match source {
        MadeFrom::Number(n) => constant(n),
        MadeFrom::Place(Holder::Register(Reg::R10)) => frame_end(),
        MadeFrom::Place(_) => return None,
    };
    Some(KnownDistance {
        base: None,
        by: Some(by),
    })
}

/// What is known of a sum or of a difference.
fn combined(op: AluOp, a: KnownDistance, b: KnownDistance) -> Option<KnownDistance> {
    let (left, right) = (a.by?, b.by?);
    match (op, a.base, b.base) {
        (AluOp::Add, base, None) | (AluOp::Add, None, base) => Some(KnownDistance {
            base,
            by: Some(plus(left, right)),
        }),
        (AluOp::Sub, base, None) => Some(KnownDistance {
            base,
            by: Some(minus(left, right)),
        }),
        (AluOp::Sub, Some(a), Some(b)) if same_holder(a, b) => Some(KnownDistance {
            base: None,
            by: Some(minus(left, right)),
        }),
        _ => None,
    }
}

/// What is known of what is made, by what is known of the source, is put to others.
fn make(
    known: &mut Vec<KnownDistance>,
    facts: &[Fact],
    making: MadeOf,
    source: KnownDistance,
) -> Result<(), AllocError> {
    if making.op == AluOp::Mov {
        known.push(source)?;
        return Ok(());
    }
    let dst = MadeFrom::Place(Holder::Register(making.dst));
    for fact in facts {
        let left = said_of(dst, Holder::Register(making.dst), fact);
        if let Some(sum) = left.and_then(|left| combined(making.op, left, source)) {
            known.push(sum)?;
        }
    }
    Ok(())
}

/// Facts of what the new program alone puts into a place.
fn made(alloc: Global, facts: &[Fact], into: Holder, insn: &Insn) -> Result<Vec<Fact>, AllocError> {
    let mut known = Vec::new(alloc);
    if let Some(making) = making_of(insn) {
        if let Some(source) = by_itself(making.source) {
            make(&mut known, facts, making, source)?;
        }
        for fact in facts {
            if let Some(source) = said_of(making.source, into, fact) {
                make(&mut known, facts, making, source)?;
            }
        }
    }
    known
        .iter()
        .map(|known| Fact {
            of: Some(into),
            base: known.base,
            by: known.by,
        })
        .collect(alloc)
}

/// Facts of what both programs put into a place.
fn put(alloc: Global, fact: Fact, pin: Option<Term>) -> Result<Vec<Fact>, AllocError> {
    let mut facts = vec![in alloc; fact; 1]?;
    if pin.is_some() {
        facts.push(Fact {
            of: None,
            base: fact.of,
            by: pin,
        })?;
    }
    Ok(facts)
}

/// Facts that a change may bring, by those in front of it.
pub fn brought(alloc: Global, facts: &[Fact], change: Change) -> Result<Vec<Fact>, AllocError> {
    match change {
        Change::Kept | Change::Stored { .. } => Ok(Vec::new(alloc)),
        Change::Put { fact, pin } => put(alloc, fact, pin),
        Change::Fetched { into, .. } => put(alloc, same(Holder::Register(into)), None),
        Change::Made { into, insn } => made(alloc, facts, into, &insn),
    }
}
