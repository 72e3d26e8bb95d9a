//! Loads and stores of both programs, by r10 to a slot of the frame, or by any register to one address.

ghost use Rattle.std.specs.Prelude.{◌≡◌, ◌==◌, ◌&&◌, ◌+◌, ◌%◌, Some, None, if◌then◌else◌};
ghost use Rattle.std.specs.List.{list_any};
ghost use Rattle.bpf_insn.specs.Arithmetic.{extended};
ghost use Rattle.bpf_insn.specs.declared.instruction.Insn.TheVariants.{Load, LoadSx, Store, StoreImm};
ghost use Rattle.bpf_semantics.specs.Flat.{addresses};
ghost use Rattle.bpf_kept.specs.Rules.{is_address, same_size, is_folded, same_address, goes_alike, loads_alike, stores_alike, reached, put, stored_by, puts_slot, stores};
ghost use Rattle.bpf_kept.specs.Knowns.{known_of};

use crate::atomics::{Operation, fetches, is_atomic_of};
use crate::commons::is_common;
use crate::facts::{is_low, is_register, is_same, numbered, own, pinned, same_register};
use crate::known::KnownHere;
use crate::notes::{Change, Fact, Holder, Term};
use crate::slots::{Displaced, reaches, slot_at};
use crate::terms::{number_pin, zero};
use bpf_insn::{Insn, Reg, Size, extended};

// ---- one address

/// Whether a constant more is made good by displacements.
fn is_made_good(t: Term, at: i16, off: i16) -> bool
    ensures { result ≡ (t.frames == 0 && (t.moved + extended at) % addresses == extended off) }
{
    t.frames == 0 && t.moved.wrapping_add(extended(i32::from(at))) == extended(i32::from(off))
}

/// Whether a fact says that an address of the new program is one of the old one.
fn is_address(new: Displaced, old: Displaced, fact: Fact) -> bool
    ensures { result ≡ is_address new.base new.off old.base old.off fact }
{
    is_register(new.base, fact.of)
        && is_register(old.base, fact.base)
        && match fact.by {
            Some(t) => is_made_good(t, new.off, old.off),
            None => false,
        }
}

/// Whether two numbers, moved, are one address.
fn is_one(at: i16, off: i16, u: Term, t: Term) -> bool
    ensures { result ≡ is_folded at off (Some u) (Some t) }
{
    u.frames.wrapping_add(t.frames) == 0
        && u.moved
            .wrapping_add(t.moved)
            .wrapping_add(extended(i32::from(at)))
            == extended(i32::from(off))
}

/// Whether both are numbers, and one address.
fn is_folded(at: i16, off: i16, number: Option<Term>, pin: Option<Term>) -> bool
    ensures { result ≡ is_folded at off number pin }
{
    match (number, pin) {
        (Some(u), Some(t)) => is_one(at, off, u, t),
        _ => false,
    }
}

/// Whether the addresses are the same, by one fact of both.
fn is_address_by(facts: &[Fact], new: Displaced, old: Displaced) -> bool
    ensures { result ≡ list_any (is_address new.base new.off old.base old.off) facts.now }
{
    facts.iter().any(|fact| is_address(new, old, *fact))
}

/// Whether the addresses are the same.
#[tactic(auto, unfolding(crate::specs::Rules::same_address))]
fn same_address(facts: &[Fact], new: Displaced, old: Displaced) -> bool
    ensures { result ≡ same_address facts.now new.base new.off old.base old.off }
{
    is_address_by(facts, new, old)
        || is_folded(
            new.off,
            old.off,
            numbered(facts, Holder::Register(new.base)),
            pinned(facts, Holder::Register(old.base)),
        )
}

/// Whether they are, and the bytes there are.
pub fn goes_alike(known: &KnownHere<'_>, count: u8, new: Displaced, old: Displaced) -> bool
    ensures { result ≡ goes_alike (known_of known.now) count old.base old.off new.base new.off }
{
    same_address(known.facts, new, old) && is_common(known, count, old, new)
}

/// Whether two sizes are the same.
pub fn same_size(a: Size, b: Size) -> bool
    ensures { result ≡ same_size a b }
{
    a.bytes() == b.bytes()
}

// ---- loads

/// Whether an instruction of the new program is a load of this size into a register, from the same address.
fn is_load_of(known: &KnownHere<'_>, size: Size, dst: Reg, from: Displaced, moved: &Insn) -> bool
    ensures { result ≡ loads_alike (known_of known.now) (Load size dst from.base from.off) moved.now }
{
    let Insn::Load {
        size: other,
        dst: into,
        src: base,
        off,
    } = *moved
    else {
        return false;
    };
    same_size(size, other)
        && same_register(dst, into)
        && goes_alike(known, size.bytes(), Displaced { base, off }, from)
}

/// Whether it is one with a sign.
fn is_load_sx_of(known: &KnownHere<'_>, size: Size, dst: Reg, from: Displaced, moved: &Insn) -> bool
    ensures { result ≡ loads_alike (known_of known.now) (LoadSx size dst from.base from.off) moved.now }
{
    let Insn::LoadSx {
        size: other,
        dst: into,
        src: base,
        off,
    } = *moved
    else {
        return false;
    };
    same_size(size, other)
        && same_register(dst, into)
        && goes_alike(known, size.bytes(), Displaced { base, off }, from)
}

/// Whether one instruction loads what the other does, into the same register.
pub fn loads_alike(known: &KnownHere<'_>, insn: &Insn, moved: &Insn) -> bool
    ensures { result ≡ loads_alike (known_of known.now) insn.now moved.now }
{
    match *insn {
        Insn::Load {
            size,
            dst,
            src,
            off,
        } => is_load_of(known, size, dst, Displaced { base: src, off }, moved),
        Insn::LoadSx {
            size,
            dst,
            src,
            off,
        } => is_load_sx_of(known, size, dst, Displaced { base: src, off }, moved),
        Insn::Alu { .. } | Insn::Neg { .. } | Insn::MovSx { .. } | Insn::End { .. } => false,
        Insn::LoadImm64 { .. } | Insn::Store { .. } | Insn::StoreImm { .. } => false,
        Insn::Atomic { .. } | Insn::Ja { .. } | Insn::JaLong { .. } => false,
        Insn::JumpIf { .. } | Insn::CallLocal { .. } | Insn::Exit => false,
    }
}

// ---- stores

/// Whether an instruction of the new program stores a register in this size, at the same address.
fn is_store_of(known: &KnownHere<'_>, size: Size, to: Displaced, src: Reg, moved: &Insn) -> bool
    ensures { result ≡ stores_alike (known_of known.now) (Store size to.base to.off src) moved.now }
{
    let Insn::Store {
        size: other,
        dst: base,
        off,
        src: from,
    } = *moved
    else {
        return false;
    };
    same_size(size, other)
        && same_register(src, from)
        && is_same(known.facts, src)
        && same_address(known.facts, Displaced { base, off }, to)
}

/// Whether it stores a constant.
fn is_store_imm_of(known: &KnownHere<'_>, size: Size, to: Displaced, imm: i32, moved: &Insn) -> bool
    ensures { result ≡ stores_alike (known_of known.now) (StoreImm size to.base to.off imm) moved.now }
{
    let Insn::StoreImm {
        size: other,
        dst: base,
        off,
        imm: value,
    } = *moved
    else {
        return false;
    };
    same_size(size, other) && imm == value && same_address(known.facts, Displaced { base, off }, to)
}

/// Whether one instruction stores what the other does, at the same address.
fn stores_alike(known: &KnownHere<'_>, insn: &Insn, moved: &Insn) -> bool
    ensures { result ≡ stores_alike (known_of known.now) insn.now moved.now }
{
    match *insn {
        Insn::Store {
            size,
            dst,
            off,
            src,
        } => is_store_of(known, size, Displaced { base: dst, off }, src, moved),
        Insn::StoreImm {
            size,
            dst,
            off,
            imm,
        } => is_store_imm_of(known, size, Displaced { base: dst, off }, imm, moved),
        Insn::Atomic {
            wide,
            op,
            dst,
            off,
            src,
        } => is_atomic_of(
            known,
            Operation { wide, op, src },
            Displaced { base: dst, off },
            moved,
        ),
        Insn::Alu { .. } | Insn::Neg { .. } | Insn::MovSx { .. } | Insn::End { .. } => false,
        Insn::LoadImm64 { .. } | Insn::Load { .. } | Insn::LoadSx { .. } => false,
        Insn::Ja { .. } | Insn::JaLong { .. } | Insn::JumpIf { .. } => false,
        Insn::CallLocal { .. } | Insn::Exit => false,
    }
}

/// The address at an offset from a register.
fn displaced(base: Reg, off: i16) -> Displaced
    ensures base { result.base ≡ base }
    ensures off { result.off ≡ off }
{
    Displaced { base, off }
}

/// To which bytes of the own frame such a store may go.
fn reached(left: u32, insn: &Insn, moved: &Insn) -> Option<Change>
    ensures { result ≡ reached left insn.now moved.now }
{
    match (*insn, *moved) {
        (
            Insn::Store { size, dst, off, .. },
            Insn::Store {
                dst: base,
                off: at,
                ..
            },
        ) => reaches(left, size.bytes(), displaced(dst, off), displaced(base, at)),
        (
            Insn::StoreImm { size, dst, off, .. },
            Insn::StoreImm {
                dst: base,
                off: at,
                ..
            },
        ) => reaches(left, size.bytes(), displaced(dst, off), displaced(base, at)),
        (
            Insn::Atomic {
                wide,
                op,
                dst,
                off,
                src,
            },
            Insn::Atomic {
                dst: base,
                off: at,
                ..
            },
        ) => {
            let (old, new) = (displaced(dst, off), displaced(base, at));
            let change = reaches(left, Size::of_word(wide).bytes(), old, new)?;
            fetches(op.fetch_register(src), change)
        }
        _ => None,
    }
}

// ---- stores to a slot

/// That a register or slot differs so from the old program's, and what the old one has there by itself.
pub fn put(h: Holder, pin: Option<Term>, by: Option<Term>) -> Change
    ensures { result ≡ put h pin by }
{
    Change::Put {
        fact: Fact {
            of: Some(h),
            base: Some(h),
            by,
        },
        pin,
    }
}

/// By what the stored numbers differ.
fn stored_by(facts: &[Fact], src: Reg) -> Option<Option<Term>>
    ensures { result ≡ stored_by facts.now src }
{
    match own(facts, src) {
        Some(t) => Some(Some(t)),
        None => if is_low(facts, src) { Some(None) } else { None },
    }
}

/// What both store to a slot by r10, of a register.
fn puts_register(facts: &[Fact], size: Size, to: Displaced, src: Reg) -> Option<Change>
    ensures { result ≡ puts_slot facts.now (Store size to.base to.off src) }
{
    let n = slot_at(size, to)?;
    let by = stored_by(facts, src)?;
    let pin = pinned(facts, Holder::Register(src));
    Some(put(Holder::Slot(n), pin, by))
}

/// What both store to a slot by r10, of a constant.
fn puts_constant(facts: &[Fact], size: Size, to: Displaced, imm: i32) -> Option<Change>
    ensures { result ≡ puts_slot facts.now (StoreImm size to.base to.off imm) }
{
    let n = slot_at(size, to)?;
    let pin = number_pin(extended(imm));
    Some(put(Holder::Slot(n), Some(pin), Some(zero())))
}

/// What both store to a slot by r10.
fn puts_slot(facts: &[Fact], insn: &Insn) -> Option<Change>
    ensures { result ≡ puts_slot facts.now insn.now }
{
    match *insn {
        Insn::Store {
            size,
            dst,
            off,
            src,
        } => puts_register(facts, size, Displaced { base: dst, off }, src),
        Insn::StoreImm {
            size,
            dst,
            off,
            imm,
        } => puts_constant(facts, size, Displaced { base: dst, off }, imm),
        Insn::Alu { .. } | Insn::Neg { .. } | Insn::MovSx { .. } | Insn::End { .. } => None,
        Insn::LoadImm64 { .. } | Insn::Load { .. } | Insn::LoadSx { .. } => None,
        Insn::Atomic { .. } | Insn::Ja { .. } | Insn::JaLong { .. } => None,
        Insn::JumpIf { .. } | Insn::CallLocal { .. } | Insn::Exit => None,
    }
}

/// What both store at one address.
fn stores_there(known: &KnownHere<'_>, insn: &Insn, moved: &Insn) -> Option<Change>
    ensures { result ≡ (if stores_alike (known_of known.now) insn.now moved.now then reached known.now.left insn.now moved.now else None) }
{
    if stores_alike(known, insn, moved) {
        reached(known.left, insn, moved)
    } else {
        None
    }
}

/// What both store.
pub fn stores(known: &KnownHere<'_>, same: bool, insn: &Insn, moved: &Insn) -> Option<Change>
    ensures { result ≡ stores (known_of known.now) same insn.now moved.now }
{
    let slot = if same {
        puts_slot(known.facts, insn)
    } else {
        None
    };
    match slot {
        Some(change) => Some(change),
        None => stores_there(known, insn, moved),
    }
}
