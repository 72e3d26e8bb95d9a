//! Intervals of numbers read as two's complement.

use crate::domain::WordDomain;
use crate::word::{wide_difference, wide_multiple, wide_product, wide_sum};
use bpf_insn::{AluOp, EndBits, SignBits};
use std::marker::Model;

/// The numbers from one to another, read as two's complement.
#[derive(Clone, Copy, Debug, PartialEq, Eq)]
pub struct Signed {
    lo: i64,
    hi: i64,
}

impl Model for Signed {
    ghost use Rattle.bpf_num.specs.SignedInterval.{SignedInterval, IsSignedInterval};

    ghost Value = { SignedInterval };

    ghost view = { λ r. record { lo = r.lo; hi = r.hi } };

    ghost invariant = { λ r. IsSignedInterval (record { lo = r.lo; hi = r.hi }) };

    ghost inverse = { λ r. record { lo = r.lo; hi = r.hi } };
}

impl Signed {
    ghost use Rattle.std.specs.Prelude.{◌≡◌, ◌<◌, ◌^◌, pos, ◌+ℤ◌, ◌-ℤ◌, ◌*ℤ◌, ◌≤ℤ◌};
    ghost use Rattle.bpf_num.specs.SignedInterval.{signed_interval, signed_top, signed_meet, signed_join, signed_entail, signed_without, if_fits, toward_zero, signed_halved, signed_mul, signed_sdiv, signed_smod};

    /// The numbers from lo to hi, which is at least lo.
    pub fn new(lo: i64, hi: i64) -> Self
        requires { lo ≤ℤ hi }
        ensures { result ≡ signed_interval lo hi }
    {
        Signed { lo, hi }
    }

    // The numbers from lo to hi if both fit, else all numbers.
    fn if_fits(lo: i128, hi: i128) -> Self
        requires { lo ≤ℤ hi }
        ensures { result ≡ if_fits (signed_interval lo hi) }
    {
        if i64::MIN as i128 <= lo && hi <= i64::MAX as i128 {
            Signed {
                lo: lo as i64,
                hi: hi as i64,
            }
        } else {
            Signed::top()
        }
    }

    /// The least member.
    pub fn lo(self) -> i64
        ensures { result ≡ self.lo }
    {
        self.lo
    }

    /// The greatest member.
    pub fn hi(self) -> i64
        ensures { result ≡ self.hi }
    {
        self.hi
    }

    /// The members from lo to hi, if there are any.
    pub fn met_with(self, lo: i64, hi: i64) -> Option<Self>
        ensures { result ≡ signed_meet self (signed_interval lo hi) }
    {
        let lo = self.lo.max(lo);
        let hi = self.hi.min(hi);
        if lo <= hi {
            Some(Signed { lo, hi })
        } else {
            None
        }
    }

    /// The least interval with the members of both.
    pub fn join(self, other: Self) -> Self
        ensures { result ≡ signed_join self other }
    {
        Signed {
            lo: self.lo.min(other.lo),
            hi: self.hi.max(other.hi),
        }
    }

    /// Whether it lies in the other.
    pub fn entails(self, other: Self) -> bool
        ensures { result ≡ signed_entail self other }
    {
        other.lo <= self.lo && self.hi <= other.hi
    }

    /// The interval less a number that is an end of it; a number that is no end changes nothing. None if that was its only
    /// member.
    pub fn without(self, number: i64) -> Option<Self>
        ensures { result ≡ signed_without number self }
    {
        match (self.lo == number, self.hi == number) {
            (true, true) => None,
            (true, false) => Some(Signed {
                lo: self.lo + 1,
                hi: self.hi,
            }),
            (false, true) => Some(Signed {
                lo: self.lo,
                hi: self.hi - 1,
            }),
            (false, false) => Some(self),
        }
    }

    /// The members that lie at least by a gap, of 0 or more, above a number. None if there are none.
    pub fn above(self, number: i64, gap: i64) -> Option<Self>
        requires { pos 0 ≤ℤ gap }
        ensures { result ≡ signed_meet self (signed_interval (number +ℤ gap) self.hi) }
    {
        let hi = self.hi;
        self.met_with(number.checked_add(gap)?, hi)
    }

    /// The members that lie at least by a gap, of 0 or more, below a number. None if there are none.
    pub fn below(self, number: i64, gap: i64) -> Option<Self>
        requires { pos 0 ≤ℤ gap }
        ensures { result ≡ signed_meet self (signed_interval self.lo (number -ℤ gap)) }
    {
        let lo = self.lo;
        self.met_with(lo, number.checked_sub(gap)?)
    }

    // The numbers between 0 and a member.
    fn toward_zero(self) -> Self
        ensures { result ≡ toward_zero self }
    {
        Signed {
            lo: self.lo.min(0),
            hi: self.hi.max(0),
        }
    }

    // Both ends times a power of two.
    fn multiple(self, amount: u32) -> Self
        requires { amount < 64 }
        ensures { result ≡ if_fits (signed_interval (self.lo *ℤ pos (2 ^ amount)) (self.hi *ℤ pos (2 ^ amount))) }
    {
        Signed::if_fits(
            wide_multiple(self.lo, amount),
            wide_multiple(self.hi, amount),
        )
    }

    // Both ends divided by a power of two, rounded down.
    fn halved(self, amount: u32) -> Self
        requires { amount < 64 }
        ensures { result ≡ signed_halved amount self }
    {
        Signed {
            lo: self.lo >> amount,
            hi: self.hi >> amount,
        }
    }

    fn product(self, other: Self) -> Self
        ensures { result ≡ signed_mul self other }
    {
        let low_low = wide_product(self.lo, other.lo);
        let low_high = wide_product(self.lo, other.hi);
        let high_low = wide_product(self.hi, other.lo);
        let high_high = wide_product(self.hi, other.hi);
        Signed::if_fits(
            low_low.min(low_high).min(high_low.min(high_high)),
            low_low.max(low_high).max(high_low.max(high_high)),
        )
    }

    // By divisors that aren't negative, toward zero; else the sign is open, unless the least number occurs.
    fn quotient(self, other: Self) -> Self
        ensures { result ≡ signed_sdiv self other }
    {
        if other.lo >= 0 {
            self.toward_zero()
        } else if self.lo == i64::MIN {
            Signed::top()
        } else {
            let hi = self.lo.abs().max(self.hi.abs());
            Signed { lo: -hi, hi }
        }
    }

    // With the dividend's sign, and below a positive divisor.
    fn remainder(self, other: Self) -> Self
        ensures { result ≡ signed_smod self other }
    {
        let lo = self.lo.min(0);
        let hi = self.hi.max(0);
        if other.lo >= 1 {
            Signed {
                lo: lo.max(1 - other.hi),
                hi: hi.min(other.hi - 1),
            }
        } else {
            Signed { lo, hi }
        }
    }
}

impl WordDomain for Signed {
    ghost use Rattle.std.specs.Prelude.{◌*◌};
    ghost use mir.Val.{bits};
    ghost use Rattle.bpf_insn.specs.Arithmetic.{swap_size, sign_type};
    ghost use Rattle.bpf_num.specs.SignedInterval.{IsSignedInterval, SignedWithin, signed_top, signed_constant, signed_binary, signed_shift, signed_truncate, signed_sign_extend, signed_swap};
    ghost use Rattle.bpf_num.specs.Laws.SignedLaws.{in_signed_top};
    ghost use Rattle.bpf_num.specs.Laws.SignedKeeps.{in_signed_constant, signed_binary_keeps, signed_shift_keeps, signed_truncate_keeps, signed_sign_extend_keeps, signed_swap_keeps};

    ghost is_valid = { IsSignedInterval };

    ghost has = { SignedWithin };

    ghost all = { signed_top };

    ghost only = { signed_constant };

    ghost binary = { signed_binary };

    ghost shifted = { signed_shift };

    ghost low = { λ size. signed_truncate (8 * swap_size size) };

    ghost extended = { λ from. signed_sign_extend (bits (sign_type from)) };

    ghost turned = { λ size. signed_swap (8 * swap_size size) };

    ghost all_have = { in_signed_top };

    ghost only_has = { in_signed_constant };

    ghost binary_keeps = { signed_binary_keeps };

    ghost shifted_keeps = { signed_shift_keeps };

    ghost low_keeps = { signed_truncate_keeps };

    ghost extended_keeps = { signed_sign_extend_keeps };

    ghost turned_keeps = { signed_swap_keeps };

    fn valid(self) {
        let _lo = self.lo;
    }

    fn top() -> Self {
        Signed {
            lo: i64::MIN,
            hi: i64::MAX,
        }
    }

    fn constant(number: u64) -> Self {
        let number = number.cast_signed();
        Signed {
            lo: number,
            hi: number,
        }
    }

    fn contains(self, number: u64) -> bool {
        let number = number.cast_signed();
        self.lo <= number && number <= self.hi
    }

    fn alu(self, op: AluOp, other: Self) -> Self {
        match op {
            AluOp::Add => {
                Signed::if_fits(wide_sum(self.lo, other.lo), wide_sum(self.hi, other.hi))
            }
            AluOp::Sub => Signed::if_fits(
                wide_difference(self.lo, other.hi),
                wide_difference(self.hi, other.lo),
            ),
            AluOp::Mul => self.product(other),
            AluOp::SDiv => self.quotient(other),
            AluOp::SMod => self.remainder(other),
            AluOp::Div
            | AluOp::Mod
            | AluOp::Or
            | AluOp::And
            | AluOp::Xor
            | AluOp::Lsh
            | AluOp::Rsh
            | AluOp::Arsh
            | AluOp::Mov => Signed::top(),
        }
    }

    fn shift(self, op: AluOp, amount: Option<u32>) -> Self {
        match (op, amount) {
            (AluOp::Lsh, Some(amount)) => self.multiple(amount),
            (AluOp::Rsh, Some(amount)) => {
                if amount == 0 || self.lo >= 0 {
                    self.halved(amount)
                } else {
                    Signed::top()
                }
            }
            (AluOp::Arsh, Some(amount)) => self.halved(amount),
            (AluOp::Arsh, None) => self.toward_zero(),
            _ => Signed::top(),
        }
    }

    fn truncate(self, size: EndBits) -> Self {
        let hi = match size {
            EndBits::B16 => 0xffff,
            EndBits::B32 => 0xffff_ffff,
            EndBits::B64 => return self,
        };
        if self.lo >= 0 && self.hi <= hi {
            self
        } else {
            Signed { lo: 0, hi }
        }
    }

    fn sign_extend(self, from: SignBits) -> Self {
        let (lo, hi) = match from {
            SignBits::B8 => (i64::from(i8::MIN), i64::from(i8::MAX)),
            SignBits::B16 => (i64::from(i16::MIN), i64::from(i16::MAX)),
            SignBits::B32 => (i64::from(i32::MIN), i64::from(i32::MAX)),
        };
        if lo <= self.lo && self.hi <= hi {
            self
        } else {
            Signed { lo, hi }
        }
    }

    fn swap(self, size: EndBits) -> Self {
        match size {
            EndBits::B16 => Signed { lo: 0, hi: 0xffff },
            EndBits::B32 => Signed {
                lo: 0,
                hi: 0xffff_ffff,
            },
            EndBits::B64 => Signed::top(),
        }
    }
}
