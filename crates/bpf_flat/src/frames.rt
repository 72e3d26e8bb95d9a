//! The frames of a run: their bytes, and what each call keeps for its return.

ghost use Rattle.std.specs.Prelude.{◌≡◌, ◌+◌, ◌*◌, ◌<◌, ◌^◌, [], ◌∷◌, IfSome, IfNone, length, drop, replicate};
ghost use Rattle.bpf_insn.specs.Limits.{frame_bytes, max_frames};
ghost use Rattle.bpf_insn.specs.Order.{number_of};
ghost use Rattle.bpf_insn.specs.Instruction.{byte_count};
ghost use Rattle.bpf_flat.specs.code.Frames.{return_of, with_number};
ghost use Rattle.bpf_flat.specs.code.Parts.{frames_size, IsWritable};

use arrayvec::ArrayVec;
use bpf_insn::{FRAME_BYTES, MAX_FRAMES, Order, Size, number_in, put_number};
use std::marker::Model;

/// How many bytes all frames have.
pub(crate) const FRAMES: usize = MAX_FRAMES * FRAME_BYTES;

/// How many calls wait for their return at most.
pub(crate) const MAX_CALLS: usize = MAX_FRAMES - 1;

/// What a call keeps for its return: the slot after it, and r6 to r10.
#[derive(Clone, Copy)]
pub(crate) struct Caller {
    pub(crate) slot: usize,
    pub(crate) r6: u64,
    pub(crate) r7: u64,
    pub(crate) r8: u64,
    pub(crate) r9: u64,
    pub(crate) r10: u64,
}

impl Default for Caller {
    fn default() -> Self {
        Caller {
            slot: 0,
            r6: 0,
            r7: 0,
            r8: 0,
            r9: 0,
            r10: 0,
        }
    }
}

/// The bytes of some frames, that of depth n from 512 n on, and what each call keeps: as many calls as there are frames behind the
/// first. There are two sizes: the outermost frame alone, with which a run starts, and all frames. A short run would spend
/// most of its time on clearing the others.
#[derive(Drop)]
pub(crate) struct Frames<const BYTES: usize, const CALLS: usize> {
    bytes: [u8; BYTES],
    callers: ArrayVec<Caller, CALLS>,
}

impl<const BYTES: usize, const CALLS: usize> Model for Frames<BYTES, CALLS> {
    ghost use Rattle.bpf_flat.specs.code.Frames.{FramesSeen, frames_in, HasFrames};

    ghost Value = { FramesSeen };

    ghost view = { λ f. frames_in f.bytes f.callers };

    ghost invariant = { λ f. HasFrames BYTES CALLS f.bytes f.callers };
}

impl Frames<FRAMES, MAX_CALLS> {
    /// Puts into the outermost frame what one alone holds. Nothing was put into any.
    #[inline(always)]
    pub(crate) fn take_over(&mut self, outermost: &Frames<FRAME_BYTES, 0>)
        requires zeros { self.old.bytes ≡ replicate frames_size 0 }
        requires outermost { self.old.returns ≡ [] }
        ensures { self.new ≡ outermost.now }
    {
        self.bytes[..FRAME_BYTES].copy_from_slice(&outermost.bytes);
    }
}

impl<const BYTES: usize, const CALLS: usize> Frames<BYTES, CALLS> {
    /// The frames at the start of a run, the outermost and one for each call that there is room for.
    #[inline(always)]
    pub(crate) fn new() -> Self
        requires few { CALLS < max_frames }
        requires size { BYTES ≡ frame_bytes * (CALLS + 1) }
        ensures { result ≡ record { bytes = replicate frames_size 0; returns = [] } }
    {
        Frames {
            bytes: [0; BYTES],
            callers: ArrayVec::new(),
        }
    }

    /// The number in the bytes from an address on.
    #[inline(always)]
    pub(crate) fn number(&self, order: Order, size: Size, first: usize) -> u64
        requires live { IsWritable (length self.now.returns) (byte_count size) first }
        ensures number { result ≡ number_of order (byte_count size) (drop first self.now.bytes) }
        ensures fits { result < 256 ^ byte_count size }
    {
        let bytes = &self.bytes[..];
        number_in(order, size, &bytes[first..])
    }

    /// Writes the lowest bytes of a number from an address on.
    #[inline(always)]
    pub(crate) fn put_number(&mut self, order: Order, size: Size, first: usize, x: u64)
        requires live { IsWritable (length self.old.returns) (byte_count size) first }
        ensures { self.new ≡ with_number order (byte_count size) x first self.old }
    {
        let bytes = &mut self.bytes[..];
        put_number(order, size, &mut bytes[first..], x);
    }

    /// How many calls wait for their return.
    #[inline(always)]
    pub(crate) fn waiting(&self) -> usize
        ensures { result ≡ length self.now.returns }
    {
        self.callers.len()
    }

    /// Puts away what a call keeps. There is room for a frame.
    #[inline(always)]
    pub(crate) fn push(&mut self, caller: Caller)
        requires { length self.old.returns < CALLS }
        ensures { self.new ≡ record { bytes = self.old.bytes; returns = return_of caller ∷ self.old.returns } }
    {
        self.callers.push(caller);
    }

    /// What the nearest call kept; None in the outermost frame, and nothing changes.
    #[inline(always)]
    pub(crate) fn pop(&mut self) -> Option<Caller>
        ensures some { IfSome result (λ caller. self.old ≡ record { bytes = self.new.bytes; returns = return_of caller ∷ self.new.returns }) }
        ensures none { IfNone result ((self.old.returns ≡ []) × (self.new ≡ self.old)) }
    {
        self.callers.pop()
    }
}
