//! Which bytes of the context or of the frame accesses by a pointer go to, and how far what a guard tests is from the pointer's offset.

ghost use Rattle.std.specs.Prelude.{◌≡◌, ◌+◌, ◌%◌};
ghost use Rattle.std.specs.Int.{cast_signed, w64};
ghost use Rattle.bpf_semantics.specs.Flat.{addresses};
ghost use Rattle.bpf_kept.specs.Far.{middle};
ghost use Rattle.bpf_kept.specs.Guards.{in_context, first_in_frame, in_frame, reach_of};

use crate::bounds::Bounds;
use crate::known::bytes_before;
use crate::notes::Term;
use crate::terms::MIDDLE;
use bpf_insn::{FRAME_BYTES, Reg};

/// The bytes from `first` up to `end`, counted from where the context or the frame begins. What is tested is the offset of the pointer, and `moved` more.
#[derive(Clone, Copy)]
pub struct GuardReach {
    pub first: u64,
    pub end: u64,
    pub moved: i64,
}

/// Which numbers a guard lets pass: those up to one, where what is tested may have wrapped or is small; or those from one on.
#[derive(Clone, Copy)]
pub enum GuardLimit {
    Most { most: u64 },
    MostOfSmall { most: u64 },
    Least { least: u64 },
}

/// An offset into the context, with its sign.
fn of_context(moved: u64) -> i64
    ensures { result ≡ cast_signed w64 ((moved + middle) % addresses) }
{
    moved.wrapping_add(MIDDLE).cast_signed()
}

/// An offset into the frame, with its sign.
fn of_frame(moved: u64) -> i64
    ensures { result ≡ cast_signed w64 (moved % addresses) }
{
    moved.cast_signed()
}

/// The context's bytes; in blocks those behind the head.
pub fn in_context(bounds: Bounds, t: Term) -> GuardReach
    ensures { result ≡ in_context bounds t }
{
    GuardReach {
        first: bytes_before(bounds.padded),
        end: u64::from(bounds.length),
        moved: of_context(t.moved),
    }
}

/// The first byte of the frame that accesses by a register go to: the lowest ones are left to r10.
fn first_in_frame(bounds: Bounds, r: Reg) -> u64
    ensures { result ≡ first_in_frame bounds r }
{
    if r.is_frame_pointer() {
        0
    } else {
        u64::from(bounds.untouched)
    }
}

/// The frame's bytes from there on.
fn in_frame(bounds: Bounds, t: Term, r: Reg) -> GuardReach
    ensures { result ≡ in_frame bounds t r }
{
    GuardReach {
        first: first_in_frame(bounds, r),
        end: FRAME_BYTES as u64,
        moved: of_frame(t.moved),
    }
}

/// Which bytes accesses by a register go to, of whose pointer a number is so far.
pub fn reach_of(bounds: Bounds, t: Term, r: Reg) -> Option<GuardReach>
    ensures { result ≡ reach_of bounds t r }
{
    if t.frames == 0 {
        Some(in_context(bounds, t))
    } else if t.frames == 1 {
        Some(in_frame(bounds, t, r))
    } else {
        None
    }
}
