//! Which bytes an access may touch.

use crate::fault::StateFault;
use crate::known::{FRAME_START, RegState};
use crate::state::State;
use bpf_insn::{Access, FRAME_BYTES, Size};
use std::marker::Model;

/// The bytes that an access may touch, in the frame, from -512 to -1, or in the context, from 0 on: where its first byte may lie at the
/// lowest and at the highest, and their number.
#[derive(Clone, Copy)]
pub struct Reach {
    in_frame: bool,
    lowest: i128,
    highest: i128,
    count: u8,
}

impl Model for Reach {
    ghost use Rattle.bpf_state.specs.Access.{Span};
    ghost use Rattle.bpf_state.specs.code.Parts.{IsSpan};

    ghost Value = { Span };

    ghost view = { λ r. record { in_frame = r.in_frame; lowest = r.lowest; highest = r.highest; count = r.count } };

    ghost invariant = { λ r. IsSpan (record { in_frame = r.in_frame; lowest = r.lowest; highest = r.highest; count = r.count }) };

    ghost inverse = { λ r. record { in_frame = r.in_frame; lowest = r.lowest; highest = r.highest; count = r.count } };
}

ghost use Rattle.std.specs.Prelude.{◌≡◌, ◌<◌, ◌^◌, ◌≤ℤ◌, ◌+ℤ◌, ◌-ℤ◌, pos, neg_ℤ, suc, not, is_some, IsTrue, IfSome, true, Some, MatchResult};
ghost use Rattle.bpf_state.specs.Fault.{is_pointer};
ghost use Rattle.bpf_insn.specs.Instruction.{byte_count};
ghost use Rattle.bpf_state.specs.Access.{IsOutside, span_at, span_from, span_end, is_known, is_slot, is_inside, slot_number, first_byte, offset_in_slot, touched_bytes};
ghost use Rattle.bpf_state.specs.State.{IsRegister, register};
ghost use Rattle.bpf_state.specs.code.Parts.{IsSpan, AreTouched, base_fault, begins_outside, depth_of};
ghost use Rattle.bpf_state.specs.Condition.{fault_number};

impl Reach {
    /// The reach of an access at an offset from a value, or why that is no pointer.
    #[inline(always)]
    pub(crate) fn from_base(base: RegState, off: i16, size: Size) -> Result<Self, StateFault>
        requires { IsRegister base }
        ensures { MatchResult result (λ reach. span_at off size base ≡ Some reach) (λ fault. base_fault base ≡ Some (fault_number fault)) }
    {
        match base {
            RegState::Any => Err(StateFault::UnsetRegister),
            RegState::Num(_) => Err(StateFault::WrongKinds),
            RegState::Ptr(p) => Ok(Reach::at(p.area.is_frame(), p.lo, p.hi, off, size)),
        }
    }

    /// The reach of an access at an offset from a pointer.
    pub(crate) fn of(base: RegState, off: i16, size: Size) -> Self
        requires ordered { IsRegister base }
        requires pointer { is_pointer base ≡ true }
        ensures { Some result ≡ span_at off size base }
    {
        match base {
            RegState::Ptr(p) => Reach::at(p.area.is_frame(), p.lo, p.hi, off, size),
            // Neither is a pointer.
            RegState::Any | RegState::Num(_) => Reach::at(false, 0, 0, off, size),
        }
    }

    fn at(in_frame: bool, lo: i64, hi: i64, off: i16, size: Size) -> Self
        requires { lo ≤ℤ hi }
        ensures { result ≡ record { in_frame = in_frame; lowest = lo +ℤ off; highest = hi +ℤ off; count = byte_count size } }
    {
        let off = off as i128;
        Reach {
            in_frame,
            lowest: lo as i128 + off,
            highest: hi as i128 + off,
            count: size.bytes(),
        }
    }

    pub(crate) fn valid(self)
        ensures { IsSpan self }
    {
        let _count = self.count;
    }

    /// The reach of an access in a state; None if its base is no pointer.
    pub fn of_access(access: Access, state: &State) -> Option<Self>
        ensures { result ≡ span_from access (register state.now access.base) }
    {
        let base = state.reg(access.base);
        match base {
            RegState::Ptr(_) => Some(Reach::of(base, access.off, access.size)),
            RegState::Any | RegState::Num(_) => None,
        }
    }

    /// Whether the access is one to the frame, and not to the context.
    pub fn in_frame(self) -> bool
        ensures { result ≡ self.in_frame }
    {
        self.in_frame
    }

    /// The first byte that may be touched.
    pub(crate) fn first(self) -> i128
        ensures { result ≡ self.lowest }
    {
        self.lowest
    }

    /// The end of the bytes that may be touched.
    pub(crate) fn end(self) -> i128
        ensures { result ≡ span_end self }
    {
        self.highest + self.count as i128
    }

    pub(crate) fn is_known(self) -> bool
        ensures { result ≡ is_known self }
    {
        self.lowest == self.highest
    }

    /// Whether it is eight bytes at one known multiple of 8.
    pub(crate) fn is_slot(self) -> bool
        ensures { result ≡ is_slot self }
    {
        self.is_known() && self.count == 8 && self.lowest.unsigned_abs() % 8 == 0
    }

    /// Whether all bytes that may be touched lie in the context of a length, or in the frame.
    pub(crate) fn is_inside(self, len: u32) -> bool
        ensures { result ≡ is_inside len self }
    {
        if self.in_frame {
            FRAME_START as i128 <= self.lowest && self.end() <= 0
        } else {
            0 <= self.lowest && self.end() <= len as i128
        }
    }

    /// Where not all bytes lie inside: whether the first lies outside.
    fn begins_outside(self, len: u32) -> bool
        ensures { result ≡ begins_outside len self }
    {
        if self.in_frame {
            self.lowest < FRAME_START as i128
        } else {
            self.end() - 1 < len as i128
        }
    }

    /// An offset that may be touched and lies outside of the context of a length, or of the frame: that of the first or the last byte.
    /// None exactly if all lie inside.
    pub fn outside(self, len: u32) -> Option<i128>
        ensures refused { is_some result ≡ not (is_inside len self) }
        ensures offset { IfSome result (IsOutside len self) }
    {
        self.valid();
        if self.is_inside(len) {
            None
        } else if self.begins_outside(len) {
            Some(self.first())
        } else {
            Some(self.end() - 1)
        }
    }

    /// The indices of the slots that may be touched among all 64: the first, and the end of these.
    pub fn slots(self) -> (usize, usize)
        ensures { AreTouched self result.0 result.1 }
    {
        if !self.in_frame {
            return (0, 0);
        }
        (depth_of(self.end()) / 8, (depth_of(self.lowest) + 7) / 8)
    }

    /// The index among all slots of the one that it is.
    pub(crate) fn index(self) -> usize
        requires framed { IsTrue self.in_frame }
        requires slot { IsTrue (is_slot self) }
        requires inside { IsTrue (is_inside 0 self) }
        ensures value { suc result ≡ slot_number self }
        ensures within { result < 64 }
    {
        depth_of(self.lowest) / 8 - 1
    }

    /// The mask of the bytes that may be touched of the slot at a place.
    pub(crate) fn mask(self, index: usize) -> u8
        requires { index < 64 }
        ensures { result ≡ touched_bytes self (suc index) }
    {
        let from = offset_in_slot(index, self.lowest);
        let to = offset_in_slot(index, self.end());
        ((1u16 << to) - (1u16 << from)) as u8
    }
}

/// How far an offset lies below the frame's end: at most all of the frame.
fn depth_of(offset: i128) -> usize
    requires above { neg_ℤ (pos (2 ^ 65)) ≤ℤ offset }
    requires below { offset ≤ℤ pos (2 ^ 65) }
    ensures { result ≡ depth_of offset }
{
    (-offset).clamp(0, FRAME_BYTES as i128) as usize
}

/// The distance of an offset from the first byte of the slot at a place.
fn above_slot(index: usize, offset: i128) -> i128
    requires slot { index < 64 }
    requires above { neg_ℤ (pos (2 ^ 65)) ≤ℤ offset }
    requires below { offset ≤ℤ pos (2 ^ 65) }
    ensures { result ≡ offset -ℤ first_byte (suc index) }
{
    offset + 8 * (index as i128 + 1)
}

/// How far an offset lies above the first byte of the slot with an index: at least 0, at most 8.
fn offset_in_slot(index: usize, offset: i128) -> u32
    requires slot { index < 64 }
    requires above { neg_ℤ (pos (2 ^ 65)) ≤ℤ offset }
    requires below { offset ≤ℤ pos (2 ^ 65) }
    ensures { result ≡ offset_in_slot (suc index) offset }
{
    above_slot(index, offset).clamp(0, 8) as u32
}
