//! What a conditional jump tells about its operands.

use crate::domain::WordDomain;
use crate::known_bits::KnownBits;
use crate::num::Num;
use bpf_insn::{Cond, EndBits, Width};

impl Num {
    ghost use Rattle.std.specs.Prelude.{◌≡◌, ◌≤◌, ◌≤ℤ◌, ℕ, pos};
    ghost use Rattle.bpf_insn.specs.Arithmetic.{jumps};
    ghost use Rattle.bpf_num.specs.Number.{Has};
    ghost use Rattle.bpf_num.specs.Laws.{HoldsBoth};
    ghost use Rattle.bpf_num.specs.Refine.{meet, without, without_constant, unsigned_above, signed_above, exchanged, is_one_bit, with_common_bit, with_no_common_bit, where_holds, where_fails, tightened_both, refine64, tested32, is_read_whole, refine32, refine};

    /// The operands of a test of 64 bits or of the low 32, where it holds (`taken`) or where it fails (RFC 9669, section 4.3).
    ///
    /// None only where no members of the two are left.
    pub fn refine(cond: Cond, width: Width, taken: bool, a: Num, b: Num) -> Option<(Num, Num)>
        ensures exact { result ≡ refine cond width taken a b }
        ensures keeps { (x y : ℕ) → Has a x → Has b y → jumps width cond x y ≡ taken → HoldsBoth result x y }
    {
        a.valid();
        b.valid();
        Num::refined(cond, width, taken, a, b)
    }

    fn refined(cond: Cond, width: Width, taken: bool, a: Num, b: Num) -> Option<(Num, Num)>
        ensures { result ≡ refine cond width taken a b }
    {
        match width {
            Width::W64 => Num::refined64(cond, taken, a, b),
            Width::W32 => Num::refined32(cond, taken, a, b),
        }
    }

    fn refined64(cond: Cond, taken: bool, a: Num, b: Num) -> Option<(Num, Num)>
        ensures { result ≡ refine64 cond taken a b }
    {
        let (a, b) = if taken {
            Num::where_holds(cond, a, b)?
        } else {
            Num::where_fails(cond, a, b)?
        };
        Some((a.tighten()?, b.tighten()?))
    }

    // The test is made on the low halves; an operand that isn't read whole stays.
    fn refined32(cond: Cond, taken: bool, a: Num, b: Num) -> Option<(Num, Num)>
        ensures { result ≡ refine32 cond taken a b }
    {
        let low_a = a.tested32(cond)?;
        let low_b = b.tested32(cond)?;
        let (low_a, low_b) = Num::refined64(cond, taken, low_a, low_b)?;
        let left = if a.is_read_whole(cond) { low_a } else { a };
        let right = if b.is_read_whole(cond) { low_b } else { b };
        Some((left, right))
    }

    // An operand as a test of 32 bits reads it.
    fn tested32(self, cond: Cond) -> Option<Num>
        ensures { result ≡ tested32 cond self }
    {
        match cond {
            Cond::SGt | Cond::SGe | Cond::SLt | Cond::SLe => self.signed32(),
            Cond::Eq | Cond::Ne | Cond::Gt | Cond::Ge | Cond::Lt | Cond::Le | Cond::Set => {
                self.truncated(EndBits::B32)
            }
        }
    }

    // The low 32 bits, as the test reads them, give the number back.
    fn is_read_whole(self, cond: Cond) -> bool
        ensures { result ≡ is_read_whole cond self }
    {
        match cond {
            Cond::SGt | Cond::SGe | Cond::SLt | Cond::SLe => self.unsigned().hi() < 1 << 31,
            Cond::Eq | Cond::Ne | Cond::Gt | Cond::Ge | Cond::Lt | Cond::Le | Cond::Set => {
                self.unsigned().hi() < 1 << 32
            }
        }
    }

    fn where_holds(cond: Cond, a: Num, b: Num) -> Option<(Num, Num)>
        ensures { result ≡ where_holds cond a b }
    {
        match cond {
            Cond::Eq => {
                let both = a.meet(b)?;
                Some((both, both))
            }
            Cond::Ne => Some((a.without_constant(b)?, b.without_constant(a)?)),
            Cond::Gt => Num::unsigned_above(1, a, b),
            Cond::Ge => Num::unsigned_above(0, a, b),
            Cond::Lt => {
                let (b, a) = Num::unsigned_above(1, b, a)?;
                Some((a, b))
            }
            Cond::Le => {
                let (b, a) = Num::unsigned_above(0, b, a)?;
                Some((a, b))
            }
            Cond::SGt => Num::signed_above(1, a, b),
            Cond::SGe => Num::signed_above(0, a, b),
            Cond::SLt => {
                let (b, a) = Num::signed_above(1, b, a)?;
                Some((a, b))
            }
            Cond::SLe => {
                let (b, a) = Num::signed_above(0, b, a)?;
                Some((a, b))
            }
            Cond::Set => Num::with_common_bit(a, b),
        }
    }

    fn where_fails(cond: Cond, a: Num, b: Num) -> Option<(Num, Num)>
        ensures { result ≡ where_fails cond a b }
    {
        match cond {
            Cond::Eq => Num::where_holds(Cond::Ne, a, b),
            Cond::Ne => Num::where_holds(Cond::Eq, a, b),
            Cond::Gt => Num::where_holds(Cond::Le, a, b),
            Cond::Ge => Num::where_holds(Cond::Lt, a, b),
            Cond::Lt => Num::where_holds(Cond::Ge, a, b),
            Cond::Le => Num::where_holds(Cond::Gt, a, b),
            Cond::SGt => Num::where_holds(Cond::SLe, a, b),
            Cond::SGe => Num::where_holds(Cond::SLt, a, b),
            Cond::SLt => Num::where_holds(Cond::SGe, a, b),
            Cond::SLe => Num::where_holds(Cond::SGt, a, b),
            Cond::Set => Num::with_no_common_bit(a, b),
        }
    }

    // What both have.
    fn meet(self, other: Num) -> Option<Num>
        ensures { result ≡ meet self other }
    {
        let unsigned = other.unsigned();
        let signed = other.signed();
        Some(Num::of(
            self.bits().met_with(other.bits())?,
            self.unsigned().met_with(unsigned.lo(), unsigned.hi())?,
            self.signed().met_with(signed.lo(), signed.hi())?,
        ))
    }

    // Less the other, if that is a constant.
    fn without_constant(self, other: Num) -> Option<Num>
        ensures { result ≡ without_constant self other }
    {
        if !other.is_constant() {
            return Some(self);
        }
        let number = other.bits().value();
        Some(Num::of(
            self.bits(),
            self.unsigned().without(number)?,
            self.signed().without(number.cast_signed())?,
        ))
    }

    // Each member of the greater operand lies at least by the gap above one of the lesser, and the other way round.
    fn unsigned_above(gap: u64, greater: Num, lesser: Num) -> Option<(Num, Num)>
        ensures { result ≡ unsigned_above gap greater lesser }
    {
        let above = greater.unsigned().above(lesser.unsigned().lo(), gap)?;
        let below = lesser.unsigned().below(greater.unsigned().hi(), gap)?;
        Some((
            Num::of(greater.bits(), above, greater.signed()),
            Num::of(lesser.bits(), below, lesser.signed()),
        ))
    }

    fn signed_above(gap: i64, greater: Num, lesser: Num) -> Option<(Num, Num)>
        requires { pos 0 ≤ℤ gap }
        ensures { result ≡ signed_above gap greater lesser }
    {
        let above = greater.signed().above(lesser.signed().lo(), gap)?;
        let below = lesser.signed().below(greater.signed().hi(), gap)?;
        Some((
            Num::of(greater.bits(), greater.unsigned(), above),
            Num::of(lesser.bits(), lesser.unsigned(), below),
        ))
    }

    fn with_bits(self, bits: KnownBits) -> Num
        ensures { result ≡ record self { bits = bits } }
    {
        Num::of(bits, self.unsigned(), self.signed())
    }

    // The operands of which some bit is 1 in both.
    fn with_common_bit(a: Num, b: Num) -> Option<(Num, Num)>
        ensures { result ≡ with_common_bit a b }
    {
        if a.bits().greatest() & b.bits().greatest() == 0 {
            return None;
        }
        if b.is_constant() && b.bits().value().is_power_of_two() {
            Some((a.with_bits(a.bits().setting(b.bits().value())), b))
        } else {
            Some((a, b))
        }
    }

    // The operands of which no bit is 1 in both.
    fn with_no_common_bit(a: Num, b: Num) -> Option<(Num, Num)>
        ensures { result ≡ with_no_common_bit a b }
    {
        if a.bits().value() & b.bits().value() != 0 {
            return None;
        }
        if b.is_constant() {
            Some((a.with_bits(a.bits().clearing(b.bits().value())), b))
        } else {
            Some((a, b))
        }
    }
}
