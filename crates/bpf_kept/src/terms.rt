//! Arithmetic on terms, modulo 2^64.

ghost use Rattle.std.specs.Prelude.{◌≡◌};
ghost use Rattle.bpf_kept.specs.Terms.{constant, zero_term, context_offset, frame_offset, frame_end, plus, opposite, negated, minus, number_pin, pinned_number, times};
ghost use Rattle.bpf_kept.specs.Rules.{same_term, is_high, is_enough, is_zero, is_offset, are_offsets};

use crate::notes::Term;
use bpf_insn::FRAME_BYTES;

/// The address of the context.
pub const MIDDLE: u64 = 1 << 63;

/// A constant more.
pub fn constant(moved: u64) -> Term
    ensures { result ≡ constant moved }
{
    Term { frames: 0, moved }
}

/// The same.
pub fn zero() -> Term
    ensures { result ≡ zero_term }
{
    constant(0)
}

/// An offset into the context, by the pointer, and the other way round.
pub fn context_offset() -> Term
    ensures { result ≡ context_offset }
{
    constant(MIDDLE)
}

/// An offset into the own frame, by the pointer.
pub fn frame_offset() -> Term
    ensures { result ≡ frame_offset }
{
    Term {
        frames: 1,
        moved: 0,
    }
}

/// Where the own frame ends.
pub fn frame_end() -> Term
    ensures { result ≡ frame_end }
{
    Term {
        frames: u64::MAX,
        moved: FRAME_BYTES as u64,
    }
}

/// The sum of what both add.
pub fn plus(a: Term, b: Term) -> Term
    ensures { result ≡ plus a b }
{
    Term {
        frames: a.frames.wrapping_add(b.frames),
        moved: a.moved.wrapping_add(b.moved),
    }
}

/// What makes 0 with a number.
fn opposite(n: u64) -> u64
    ensures { result ≡ opposite n }
{
    0u64.wrapping_sub(n)
}

/// The opposite of what it adds.
pub fn negated(a: Term) -> Term
    ensures { result ≡ negated a }
{
    Term {
        frames: opposite(a.frames),
        moved: opposite(a.moved),
    }
}

/// What the first adds more than the second.
pub fn minus(a: Term, b: Term) -> Term
    ensures { result ≡ minus a b }
{
    plus(a, negated(b))
}

/// What makes 0 with a number.
pub fn number_pin(n: u64) -> Term
    ensures { result ≡ number_pin n }
{
    negated(constant(n))
}

/// The number that makes 0 with it, if it is one wherever frames lie.
pub fn pinned_number(t: Term) -> Option<u64>
    ensures { result ≡ pinned_number t }
{
    if t.frames == 0 {
        Some(opposite(t.moved))
    } else {
        None
    }
}

/// What it adds, so often.
pub fn times(n: u64, a: Term) -> Term
    ensures { result ≡ times n a }
{
    Term {
        frames: a.frames.wrapping_mul(n),
        moved: a.moved.wrapping_mul(n),
    }
}

// ---- what terms are

/// Whether two are the same.
pub fn same_term(a: Term, b: Term) -> bool
    ensures { result ≡ same_term a b }
{
    a.frames == b.frames && a.moved == b.moved
}

/// Whether it tells the low half.
fn is_high(t: Term) -> bool
    ensures { result ≡ is_high t }
{
    t.moved % (1 << 32) == 0
}

/// Whether one difference is enough for another.
pub fn is_enough(have: Option<Term>, want: Option<Term>) -> bool
    ensures { result ≡ is_enough have want }
{
    match (have, want) {
        (Some(have), Some(want)) => same_term(have, want),
        (Some(have), None) => is_high(have),
        (None, want) => want.is_none(),
    }
}

/// Whether it adds nothing.
pub fn is_zero(t: Term) -> bool
    ensures { result ≡ is_zero t }
{
    t.frames == 0 && t.moved == 0
}

/// Whether it makes an offset into the context of a pointer.
fn is_offset(t: Term) -> bool
    ensures { result ≡ is_offset t }
{
    t.frames == 0 && t.moved == MIDDLE
}

/// Whether both do.
pub fn are_offsets(a: Term, b: Term) -> bool
    ensures { result ≡ are_offsets a b }
{
    is_offset(a) && is_offset(b)
}
