//! The operations of instructions on abstract numbers.

use crate::domain::WordDomain;
use crate::num::Num;
use crate::word::truncated;
use bpf_insn::{AluOp, EndBits, EndKind, Order, SignBits, Width};

impl Num {
    ghost use Rattle.std.specs.Prelude.{◌≡◌, ◌<◌, ℕ};
    ghost use Rattle.std.specs.Option.{ForSome};
    ghost use Rattle.bpf_insn.specs.Arithmetic.{alu, sign_extend, swapped};
    ghost use Rattle.bpf_insn.specs.declared.instruction.AluOp.TheVariants.{Sub};
    ghost use Rattle.bpf_num.specs.Number.{Has};
    ghost use Rattle.bpf_num.specs.Laws.{Holds};
    ghost use Rattle.bpf_num.specs.Operation.{num_truncate, num_sign_extend, num_reverse, num_binary, shift_amount, num_shift, num_wide, num_signed32, num_left32, num_right32, num_alu32, num_alu, num_neg, num_movsx, num_end};

    /// An operation on 64 bits, or on the low 32 with zero above (RFC 9669, section 4.1): a set of its results on members.
    ///
    /// None only where that set is empty: an operand has no member.
    pub fn alu(self, op: AluOp, width: Width, other: Num) -> Option<Num>
        ensures exact { result ≡ num_alu width op self other }
        ensures keeps { (x y : ℕ) → Has self x → Has other y → Holds result (alu width op x y) }
    {
        self.valid();
        other.valid();
        self.alu_of_width(op, width, other)
    }

    /// 0 minus the number, at a width (RFC 9669, section 4.1). None only where it has no member.
    pub fn neg(self, width: Width) -> Option<Num>
        ensures exact { result ≡ num_neg width self }
        ensures keeps { (x : ℕ) → Has self x → Holds result (alu width Sub 0 x) }
    {
        self.valid();
        Num::constant(0).alu(AluOp::Sub, width, self)
    }

    /// The low 8, 16 or 32 bits read as two's complement and extended to the width (RFC 9669, section 4.1).
    ///
    /// None only where the number has no member.
    pub fn sign_extend(self, from: SignBits, width: Width) -> Option<Num>
        ensures exact { result ≡ num_movsx width from self }
        ensures keeps { (x : ℕ) → Has self x → Holds result (sign_extend from width x) }
    {
        self.valid();
        self.extended_to(from, width)
    }

    /// The low 16, 32 or 64 bits with their bytes kept or reversed, and zero above (RFC 9669, section 4.2).
    ///
    /// None only where the number has no member.
    pub fn swap(self, order: Order, kind: EndKind, size: EndBits) -> Option<Num>
        ensures exact { result ≡ num_end order kind size self }
        ensures keeps { (x : ℕ) → Has self x → Holds result (swapped order kind size x) }
    {
        self.valid();
        self.swapped(order, kind, size)
    }

    // ---- one operand

    pub(crate) fn truncated(self, size: EndBits) -> Option<Num>
        ensures { result ≡ num_truncate size self }
    {
        if self.is_constant() {
            return Some(Num::constant(truncated(size, self.bits().value())));
        }
        Num::of(
            self.bits().truncate(size),
            self.unsigned().truncate(size),
            self.signed().truncate(size),
        )
        .tighten()
    }

    fn extended(self, from: SignBits) -> Option<Num>
        ensures { result ≡ num_sign_extend from self }
    {
        if self.is_constant() {
            return Some(Num::constant(from.extend(Width::W64, self.bits().value())));
        }
        Num::of(
            self.bits().sign_extend(from),
            self.unsigned().sign_extend(from),
            self.signed().sign_extend(from),
        )
        .tighten()
    }

    fn reversed(self, size: EndBits) -> Option<Num>
        ensures { result ≡ num_reverse size self }
    {
        if self.is_constant() {
            return Some(Num::constant(size.swap(
                Order::Little,
                EndKind::Swap,
                self.bits().value(),
            )));
        }
        Num::of(
            self.bits().swap(size),
            self.unsigned().swap(size),
            self.signed().swap(size),
        )
        .tighten()
    }

    fn extended_to(self, from: SignBits, width: Width) -> Option<Num>
        ensures { result ≡ num_movsx width from self }
    {
        match width {
            Width::W64 => self.extended(from),
            Width::W32 => self.extended(from)?.truncated(EndBits::B32),
        }
    }

    fn swapped(self, order: Order, kind: EndKind, size: EndBits) -> Option<Num>
        ensures { result ≡ num_end order kind size self }
    {
        match (order, kind) {
            (Order::Little, EndKind::Le) => self.truncated(size),
            (Order::Big, EndKind::Be) => self.truncated(size),
            (Order::Little, EndKind::Be) => self.reversed(size),
            (Order::Big, EndKind::Le) => self.reversed(size),
            (Order::Little, EndKind::Swap) => self.reversed(size),
            (Order::Big, EndKind::Swap) => self.reversed(size),
        }
    }

    // ---- two operands of 64 bits

    fn binary(self, op: AluOp, other: Num) -> Option<Num>
        ensures { result ≡ num_binary op self other }
    {
        if self.is_constant() && other.is_constant() {
            let number = op.compute_64(self.bits().value(), other.bits().value());
            return Some(Num::constant(number));
        }
        Num::of(
            self.bits().alu(op, other.bits()),
            self.unsigned().alu(op, other.unsigned()),
            self.signed().alu(op, other.signed()),
        )
        .tighten()
    }

    // The amount of a shift at a width, if its bits are known.
    fn shift_amount(self, width: Width) -> Option<u32>
        ensures amount { result ≡ shift_amount width self.bits }
        ensures below { ForSome result (λ k. k < 64) }
    {
        let value = self.bits().value();
        let mask = self.bits().mask();
        let (value, mask) = match width {
            Width::W64 => (value % 64, mask % 64),
            Width::W32 => (value % 32, mask % 32),
        };
        if mask == 0 { Some(value as u32) } else { None }
    }

    fn shift(self, op: AluOp, width: Width, other: Num) -> Option<Num>
        ensures { result ≡ num_shift width op self other }
    {
        if self.is_constant() && other.is_constant() {
            let amount = match width {
                Width::W64 => other.bits().value() % 64,
                Width::W32 => other.bits().value() % 32,
            };
            return Some(Num::constant(op.compute_64(self.bits().value(), amount)));
        }
        let amount = other.shift_amount(width);
        Num::of(
            self.bits().shift(op, amount),
            self.unsigned().shift(op, amount),
            self.signed().shift(op, amount),
        )
        .tighten()
    }

    // An operation on 64 bits, with shift amounts masked at a width.
    fn wide(self, op: AluOp, width: Width, other: Num) -> Option<Num>
        ensures { result ≡ num_wide width op self other }
    {
        match op {
            AluOp::Lsh | AluOp::Rsh | AluOp::Arsh => self.shift(op, width, other),
            AluOp::Mov => Some(other),
            AluOp::Add
            | AluOp::Sub
            | AluOp::Mul
            | AluOp::Div
            | AluOp::SDiv
            | AluOp::Mod
            | AluOp::SMod
            | AluOp::Or
            | AluOp::And
            | AluOp::Xor => self.binary(op, other),
        }
    }

    // ---- the low 32 bits

    pub(crate) fn signed32(self) -> Option<Num>
        ensures { result ≡ num_signed32 self }
    {
        self.truncated(EndBits::B32)?.extended(SignBits::B32)
    }

    // The operands as an operation on 32 bits reads them: sign-extended where it is signed.
    fn left32(self, op: AluOp) -> Option<Num>
        ensures { result ≡ num_left32 op self }
    {
        match op {
            AluOp::SDiv | AluOp::SMod | AluOp::Arsh => self.signed32(),
            AluOp::Mov => Some(self),
            AluOp::Add
            | AluOp::Sub
            | AluOp::Mul
            | AluOp::Div
            | AluOp::Mod
            | AluOp::Or
            | AluOp::And
            | AluOp::Xor
            | AluOp::Lsh
            | AluOp::Rsh => self.truncated(EndBits::B32),
        }
    }

    fn right32(self, op: AluOp) -> Option<Num>
        ensures { result ≡ num_right32 op self }
    {
        match op {
            AluOp::SDiv | AluOp::SMod => self.signed32(),
            AluOp::Add
            | AluOp::Sub
            | AluOp::Mul
            | AluOp::Div
            | AluOp::Mod
            | AluOp::Or
            | AluOp::And
            | AluOp::Xor
            | AluOp::Lsh
            | AluOp::Rsh
            | AluOp::Arsh
            | AluOp::Mov => self.truncated(EndBits::B32),
        }
    }

    fn alu32(self, op: AluOp, other: Num) -> Option<Num>
        ensures { result ≡ num_alu32 op self other }
    {
        let left = self.left32(op)?;
        let right = other.right32(op)?;
        left.wide(op, Width::W32, right)?.truncated(EndBits::B32)
    }

    fn alu_of_width(self, op: AluOp, width: Width, other: Num) -> Option<Num>
        ensures { result ≡ num_alu width op self other }
    {
        match width {
            Width::W64 => self.wide(op, Width::W64, other),
            Width::W32 => self.alu32(op, other),
        }
    }
}
