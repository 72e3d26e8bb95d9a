//! Tristate numbers.

use crate::domain::WordDomain;
use crate::word::truncated;
use bpf_insn::{AluOp, EndBits, EndKind, Order, SignBits, Width};
use std::marker::Model;

/// What is known of each bit of a number.
#[derive(Clone, Copy, Debug, PartialEq, Eq)]
pub struct KnownBits {
    value: u64,
    mask: u64,
}

impl Model for KnownBits {
    ghost use Rattle.bpf_num.specs.Tristate.{Tristate, IsTristate};

    ghost Value = { Tristate };

    ghost view = { λ t. record { value = t.value; mask = t.mask } };

    ghost invariant = { λ t. IsTristate (record { value = t.value; mask = t.mask }) };

    ghost inverse = { λ t. record { value = t.value; mask = t.mask } };
}

impl KnownBits {
    ghost use Rattle.std.specs.Prelude.{◌≡◌, ◌<◌, bit_and};
    ghost use Rattle.bpf_num.specs.Word.{complement, exact};
    ghost use Rattle.bpf_num.specs.Tristate.{IsTristate, IsShift, tristate, forget, bits_moved, greatest, bits_setting, bits_clearing, bits_join, bits_entail, bits_meet, bits_add, bits_sub, bits_mul, bits_and, bits_or, bits_xor};

    /// The numbers that agree with the value outside the mask. The two have no bit in common.
    pub fn new(value: u64, mask: u64) -> Self
        requires { IsTristate (tristate value mask) }
        ensures { result ≡ tristate value mask }
    {
        KnownBits { value, mask }
    }

    /// The bits that are known as 1.
    pub fn value(self) -> u64
        ensures { result ≡ self.value }
    {
        self.value
    }

    /// The bits that aren't known.
    pub fn mask(self) -> u64
        ensures { result ≡ self.mask }
    {
        self.mask
    }

    /// The greatest member, which has all unknown bits.
    pub fn greatest(self) -> u64
        ensures { result ≡ greatest self }
    {
        self.value | self.mask
    }

    /// The bits of a number become known as 1.
    pub fn setting(self, number: u64) -> Self
        ensures { result ≡ bits_setting number self }
    {
        KnownBits {
            value: self.value | number,
            mask: self.mask & !number,
        }
    }

    /// The bits of a number that aren't known become known as 0.
    pub fn clearing(self, number: u64) -> Self
        ensures { result ≡ bits_clearing number self }
    {
        KnownBits {
            value: self.value,
            mask: self.mask & !number,
        }
    }

    /// The bits that both know alike.
    pub fn join(self, other: Self) -> Self
        ensures { result ≡ bits_join self other }
    {
        KnownBits::forgetting(
            self.value,
            self.mask | other.mask | (self.value ^ other.value),
        )
    }

    /// Whether each bit that the other knows is known, with the same value.
    pub fn entails(self, other: Self) -> bool
        ensures { result ≡ bits_entail self other }
    {
        self.mask & !other.mask == 0 && (self.value ^ other.value) & !other.mask == 0
    }

    /// The bits that either knows. None if they know a bit otherwise.
    pub fn met_with(self, other: Self) -> Option<Self>
        ensures { result ≡ bits_meet self other }
    {
        if (self.value ^ other.value) & (!self.mask & !other.mask) == 0 {
            Some(KnownBits {
                value: self.value | other.value,
                mask: self.mask & other.mask,
            })
        } else {
            None
        }
    }

    // A value of which the bits in a mask aren't known.
    fn forgetting(value: u64, mask: u64) -> Self
        ensures { result ≡ forget value mask }
    {
        KnownBits {
            value: value & !mask,
            mask,
        }
    }

    // The bits of a value, and other bits that aren't known.
    fn keeping(value: u64, mask: u64) -> Self
        ensures { result ≡ tristate value (bit_and mask (complement value)) }
    {
        KnownBits {
            value,
            mask: mask & !value,
        }
    }

    // A shift moves the bits of value and mask alike.
    fn moved(self, op: AluOp, amount: u32) -> Self
        requires shift { IsShift op }
        requires below { amount < 64 }
        ensures { result ≡ bits_moved (λ x. exact op x amount) self }
    {
        KnownBits {
            value: op.compute_64(self.value, u64::from(amount)),
            mask: op.compute_64(self.mask, u64::from(amount)),
        }
    }

    // A bit of the sum is known where both operands' are and the carries of the least and the greatest sum agree.
    fn sum(self, other: Self) -> Self
        ensures { result ≡ bits_add self other }
    {
        let least = self.value.wrapping_add(other.value);
        let greatest = self.mask.wrapping_add(other.mask).wrapping_add(least);
        KnownBits::forgetting(least, (greatest ^ least) | self.mask | other.mask)
    }

    // The same with borrows.
    fn difference(self, other: Self) -> Self
        ensures { result ≡ bits_sub self other }
    {
        let middle = self.value.wrapping_sub(other.value);
        let greatest = middle.wrapping_add(self.mask);
        let least = middle.wrapping_sub(other.mask);
        KnownBits::forgetting(middle, (greatest ^ least) | self.mask | other.mask)
    }

    // A product has the low zeros of both factors.
    fn product(self, other: Self) -> Self
        ensures { result ≡ bits_mul self other }
    {
        let zeros = self.greatest().trailing_zeros() + other.greatest().trailing_zeros();
        KnownBits {
            value: 0,
            mask: if zeros < 64 { u64::MAX << zeros } else { 0 },
        }
    }

    // A bit of the conjunction is known as 1 where both operands' are.
    fn conjunction(self, other: Self) -> Self
        ensures { result ≡ bits_and self other }
    {
        KnownBits::keeping(self.value & other.value, self.greatest() & other.greatest())
    }

    // A bit of the disjunction is known as 1 where an operand's is.
    fn disjunction(self, other: Self) -> Self
        ensures { result ≡ bits_or self other }
    {
        KnownBits::keeping(self.value | other.value, self.mask | other.mask)
    }

    // A bit of the exclusive or is known where both operands' are.
    fn exclusive_or(self, other: Self) -> Self
        ensures { result ≡ bits_xor self other }
    {
        KnownBits::forgetting(self.value ^ other.value, self.mask | other.mask)
    }
}

impl WordDomain for KnownBits {
    ghost use Rattle.std.specs.Prelude.{◌*◌};
    ghost use Rattle.bpf_insn.specs.Arithmetic.{swap_size};
    ghost use Rattle.bpf_num.specs.Word.{truncated, sign_extended, reversed};
    ghost use Rattle.bpf_num.specs.Tristate.{IsTristate, HasBits, bits_top, bits_constant, bits_binary, bits_shift, bits_moved};
    ghost use Rattle.bpf_num.specs.Laws.TristateBitLaws.{in_bits_top};
    ghost use Rattle.bpf_num.specs.Laws.TristateKeeps.{in_bits_constant, bits_binary_keeps, bits_shift_keeps, bits_truncate_keeps, bits_sign_extend_keeps, bits_swap_keeps};

    ghost is_valid = { IsTristate };

    ghost has = { HasBits };

    ghost all = { bits_top };

    ghost only = { bits_constant };

    ghost binary = { bits_binary };

    ghost shifted = { bits_shift };

    ghost low = { λ size. bits_moved (truncated (8 * swap_size size)) };

    ghost extended = { λ from. bits_moved (sign_extended from) };

    ghost turned = { λ size. bits_moved (reversed size) };

    ghost all_have = { in_bits_top };

    ghost only_has = { in_bits_constant };

    ghost binary_keeps = { bits_binary_keeps };

    ghost shifted_keeps = { bits_shift_keeps };

    ghost low_keeps = { bits_truncate_keeps };

    ghost extended_keeps = { bits_sign_extend_keeps };

    ghost turned_keeps = { bits_swap_keeps };

    fn valid(self) {
        let _value = self.value;
    }

    fn top() -> Self {
        KnownBits {
            value: 0,
            mask: u64::MAX,
        }
    }

    fn constant(number: u64) -> Self {
        KnownBits {
            value: number,
            mask: 0,
        }
    }

    fn contains(self, number: u64) -> bool {
        (number ^ self.value) & !self.mask == 0
    }

    fn alu(self, op: AluOp, other: Self) -> Self {
        match op {
            AluOp::Add => self.sum(other),
            AluOp::Sub => self.difference(other),
            AluOp::Mul => self.product(other),
            AluOp::And => self.conjunction(other),
            AluOp::Or => self.disjunction(other),
            AluOp::Xor => self.exclusive_or(other),
            AluOp::Div
            | AluOp::SDiv
            | AluOp::Mod
            | AluOp::SMod
            | AluOp::Lsh
            | AluOp::Rsh
            | AluOp::Arsh
            | AluOp::Mov => KnownBits::top(),
        }
    }

    fn shift(self, op: AluOp, amount: Option<u32>) -> Self {
        match (op, amount) {
            (AluOp::Lsh, Some(amount)) => self.moved(AluOp::Lsh, amount),
            (AluOp::Rsh, Some(amount)) => self.moved(AluOp::Rsh, amount),
            (AluOp::Arsh, Some(amount)) => self.moved(AluOp::Arsh, amount),
            _ => KnownBits::top(),
        }
    }

    fn truncate(self, size: EndBits) -> Self {
        KnownBits {
            value: truncated(size, self.value),
            mask: truncated(size, self.mask),
        }
    }

    fn sign_extend(self, from: SignBits) -> Self {
        KnownBits {
            value: from.extend(Width::W64, self.value),
            mask: from.extend(Width::W64, self.mask),
        }
    }

    fn swap(self, size: EndBits) -> Self {
        KnownBits {
            value: size.swap(Order::Little, EndKind::Swap, self.value),
            mask: size.swap(Order::Little, EndKind::Swap, self.mask),
        }
    }
}
