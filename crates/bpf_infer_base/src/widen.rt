//! Widening with thresholds (Blanchet and others, PLDI 2003): bounds that move are moved on to the next constant of the program,
//! so that states grow but a few times. Here are single bounds and numbers; `join` (`joins.rt`) widens states by them.

ghost use Rattle.std.specs.Prelude.{◌≤ℤ◌};

use crate::lists::get_or;
use bpf_insn::{Insn, Operand, Program};
use bpf_num::{KnownBits, Num, Signed, Unsigned, WordDomain};
use bpf_state::FARTHEST;
use std::alloc::{AllocError, Global};

/// The constants of a program and their neighbours, at which a bound that moves may stop.
#[derive(Drop)]
pub struct Stops {
    unsigned: Vec<u64>,
    signed: Vec<i64>,
}

/// The constant in an instruction, as the 64 bits that it stands for.
fn constant_in(insn: &Insn) -> Option<i64> {
    match *insn {
        Insn::Alu {
            src: Operand::Imm(imm),
            ..
        } => Some(imm as i64),
        Insn::JumpIf {
            src: Operand::Imm(imm),
            off: _off,
            ..
        } => Some(imm as i64),
        Insn::StoreImm { imm, off: _off, .. } => Some(imm as i64),
        Insn::LoadImm64 { value, .. } => Some(value.cast_signed()),
        Insn::Alu {
            src: Operand::Reg(_reg),
            ..
        }
        | Insn::JumpIf {
            src: Operand::Reg(_reg),
            ..
        } => None,
        Insn::Neg { .. } | Insn::MovSx { .. } | Insn::End { .. } => None,
        Insn::Load { .. } | Insn::LoadSx { .. } | Insn::Store { .. } | Insn::Atomic { .. } => None,
        Insn::Ja { .. } | Insn::JaLong { .. } | Insn::CallLocal { .. } | Insn::Exit => None,
    }
}

/// A lower bound; if it fell, the stop at or below it, else the least of all.
fn lowered<T: Ord + Copy>(stops: &[T], old: T, new: T, least: T) -> T {
    if new >= old {
        return new;
    }
    match stops.binary_search(&new) {
        Ok(_) => new,
        Err(above) => get_or(stops, above.wrapping_sub(1), least),
    }
}

/// An upper bound; if it rose, the stop at or above it, else the greatest of all.
fn raised<T: Ord + Copy>(stops: &[T], old: T, new: T, greatest: T) -> T {
    if new <= old {
        return new;
    }
    match stops.binary_search(&new) {
        Ok(_) => new,
        Err(above) => get_or(stops, above, greatest),
    }
}

impl Stops {
    /// The stops of a program on contexts of `least` to `most` bytes, which are constants of it too.
    pub fn of(
        alloc: Global,
        program: &Program,
        least: u32,
        most: u32,
    ) -> Result<Stops, AllocError> {
        let mut stops = Stops::new(alloc);
        stops.add(least as i64)?;
        stops.add(most as i64)?;
        for slot in 0..program.slots() {
            if let Some(constant) = program.at(slot).and_then(constant_in) {
                stops.add(constant)?;
            }
        }
        stops.sort()?;
        Ok(stops)
    }

    /// No stops: bounds that move are moved to their extremes.
    pub fn new(alloc: Global) -> Stops {
        Stops {
            unsigned: Vec::new(alloc),
            signed: Vec::new(alloc),
        }
    }

    /// Whether there is none.
    pub fn is_empty(&self) -> bool {
        self.signed.is_empty()
    }

    /// Adds a constant and its neighbours. Sort when all are there.
    pub fn add(&mut self, constant: i64) -> Result<(), AllocError> {
        for stop in [constant.wrapping_sub(1), constant, constant.wrapping_add(1)] {
            self.add_alone(stop)?;
        }
        Ok(())
    }

    /// Adds a stop. Sort when all are there.
    pub fn add_alone(&mut self, stop: i64) -> Result<(), AllocError> {
        self.signed.push(stop)?;
        self.unsigned.push(stop.cast_unsigned())?;
        Ok(())
    }

    /// Puts the stops in order.
    pub fn sort(&mut self) -> Result<(), AllocError> {
        self.unsigned.sort()?;
        self.signed.sort()?;
        Ok(())
    }

    /// The new interval with each bound that moved moved on to a stop.
    fn unsigned(&self, old: Unsigned, new: Unsigned) -> Unsigned {
        new.valid();
        let lo = lowered(&self.unsigned, old.lo(), new.lo(), u64::MIN);
        let hi = raised(&self.unsigned, old.hi(), new.hi(), u64::MAX);
        Unsigned::new(lo.min(new.lo()), hi.max(new.hi()))
    }

    /// The new interval with each bound that moved moved on to a stop.
    fn signed(&self, old: Signed, new: Signed) -> Signed {
        new.valid();
        let lo = lowered(&self.signed, old.lo(), new.lo(), i64::MIN);
        let hi = raised(&self.signed, old.hi(), new.hi(), i64::MAX);
        Signed::new(lo.min(new.lo()), hi.max(new.hi()))
    }

    /// The new number with each bound that moved moved on to a stop, and where a bit is no longer known all above it
    /// unknown too.
    pub fn number(&self, old: Num, new: Num) -> Num {
        Num::of(
            bits(old.bits(), new.bits()),
            self.unsigned(old.unsigned(), new.unsigned()),
            self.signed(old.signed(), new.signed()),
        )
    }

    /// The least offset of a pointer, moved on to a stop if it moved.
    pub fn least(&self, old: i64, new: i64) -> i64
        ensures { result ≤ℤ new }
    {
        lowered(&self.signed, old, new, i64::MIN)
            .max(-FARTHEST)
            .min(new)
    }

    /// The greatest offset of a pointer, moved on to a stop if it moved.
    pub fn greatest(&self, old: i64, new: i64) -> i64
        ensures { new ≤ℤ result }
    {
        raised(&self.signed, old, new, i64::MAX)
            .min(FARTHEST)
            .max(new)
    }
}

/// The bits that stay known; none from the lowest lost one on, since a sum carries and would lose one a round.
fn bits(old: KnownBits, new: KnownBits) -> KnownBits {
    let lost = new.mask() & !old.mask();
    let lowest = lost & lost.wrapping_neg();
    new.join(KnownBits::constant(new.value() ^ lowest.wrapping_neg()))
}
