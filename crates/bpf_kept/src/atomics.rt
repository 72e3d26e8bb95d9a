//! Atomic operations of both programs at one address.

ghost use Rattle.std.specs.Prelude.{◌≡◌, ◌∷◌};
ghost use Rattle.std.specs.List.{list_all};
ghost use Rattle.bpf_insn.specs.Effects.{atomic_registers};
ghost use Rattle.bpf_insn.specs.declared.instruction.Insn.TheVariants.{Atomic};
ghost use Rattle.bpf_kept.specs.Rules.{is_same, same_modify, same_atomic, modifies_alike, fetches};
ghost use Rattle.bpf_kept.specs.Knowns.{known_of};

use crate::accesses::{goes_alike, same_size};
use crate::facts::{is_same, same_register};
use crate::known::KnownHere;
use crate::notes::{Change, Fact};
use crate::slots::Displaced;
use bpf_insn::{AtomicOp, Insn, Modify, Reg, Size};

/// Whether both are one way to change a number.
fn same_modify(by: Modify, other: Modify) -> bool
    ensures { result ≡ same_modify by other }
{
    match (by, other) {
        (Modify::Add, Modify::Add) | (Modify::Or, Modify::Or) => true,
        (Modify::And, Modify::And) | (Modify::Xor, Modify::Xor) => true,
        _ => false,
    }
}

/// Whether both are one operation, which fetches in both or in neither.
fn same_atomic(op: AtomicOp, other: AtomicOp) -> bool
    ensures { result ≡ same_atomic op other }
{
    match (op, other) {
        (
            AtomicOp::Modify { by, fetch: true },
            AtomicOp::Modify {
                by: other,
                fetch: true,
            },
        ) => same_modify(by, other),
        (
            AtomicOp::Modify { by, fetch: false },
            AtomicOp::Modify {
                by: other,
                fetch: false,
            },
        ) => same_modify(by, other),
        (AtomicOp::Xchg, AtomicOp::Xchg) | (AtomicOp::CmpXchg, AtomicOp::CmpXchg) => true,
        _ => false,
    }
}

/// Whether the numbers are the same by which an operation changes what it finds.
fn takes_alike(facts: &[Fact], op: AtomicOp, src: Reg) -> bool
    ensures { result ≡ list_all (is_same facts.now) (src ∷ atomic_registers op) }
{
    is_same(facts, src)
        && match op {
            AtomicOp::CmpXchg => is_same(facts, Reg::R0),
            AtomicOp::Modify { .. } | AtomicOp::Xchg => true,
        }
}

/// What an atomic operation of the old program does, and by which register.
#[derive(Clone, Copy)]
pub struct Operation {
    pub wide: bool,
    pub op: AtomicOp,
    pub src: Reg,
}

/// Whether an instruction of the new program does the same with what it finds, which is the same, at the same address.
pub fn is_atomic_of(known: &KnownHere<'_>, old: Operation, to: Displaced, moved: &Insn) -> bool
    ensures { result ≡ modifies_alike (known_of known.now) (Atomic old.wide old.op to.base to.off old.src) moved.now }
{
    let Insn::Atomic {
        wide,
        op,
        dst: base,
        off,
        src,
    } = *moved
    else {
        return false;
    };
    let size = Size::of_word(old.wide);
    same_size(size, Size::of_word(wide))
        && same_atomic(old.op, op)
        && same_register(old.src, src)
        && takes_alike(known.facts, old.op, old.src)
        && goes_alike(known, size.bytes(), Displaced { base, off }, to)
}

/// What both change, if they put what was there into a register, too.
pub fn fetches(into: Option<Reg>, change: Change) -> Option<Change>
    ensures { result ≡ fetches into change }
{
    match (into, change) {
        (Some(r), Change::Stored { from, to }) => if r.is_frame_pointer() {
            None
        } else {
            Some(Change::Fetched { from, to, into: r })
        },
        (Some(_), Change::Kept | Change::Put { .. }) => None,
        (Some(_), Change::Fetched { .. } | Change::Made { .. }) => None,
        (None, change) => Some(change),
    }
}
