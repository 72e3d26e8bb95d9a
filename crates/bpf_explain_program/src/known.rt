//! What is known, as text.

use arrayvec::ArrayVec;
use bpf_cert::cut;
use bpf_insn::{Insn, Reg};
use bpf_num::{KnownBits, Num, Signed, Unsigned, WordDomain};
use bpf_state::{Area, Moved, Place, Pointer, RegState, SlotState, value_slot};
use std::fmt;
use std::str::from_utf8;

/// A register or slot by its name, as `r6` or `s1`.
#[derive(Clone, Copy)]
pub struct Name(pub Place);

impl fmt::Display for Name {
    fn fmt<W: fmt::Write>(&self, f: &mut fmt::Formatter<W>) -> fmt::Result {
        let (letter, number) = match self.0 {
            Place::Register(r) => ("r", r as u8),
            Place::Slot(k) => ("s", k),
        };
        write!(f, "{letter}{number}")
    }
}

/// What is known of a number. A part that follows from the unsigned bounds is left out.
#[derive(Clone, Copy)]
pub struct Number(pub Num);

/// What follows from unsigned bounds alone.
fn within(bounds: Unsigned) -> Num {
    let number = Num::of(KnownBits::top(), bounds, Signed::top());
    number.tighten().unwrap_or(number)
}

/// Whether the signed bounds say more than the unsigned ones do.
fn says_more_signed(n: Num) -> bool {
    let known = within(n.unsigned()).signed();
    n.signed().lo() > known.lo() || n.signed().hi() < known.hi()
}

/// Whether the bits say more than the bounds do.
fn says_more_bits(n: Num) -> bool {
    let known = within(n.unsigned()).bits();
    !n.bits().mask() & known.mask() != 0
}

/// A constant, with its signed value behind it where that is negative.
fn write_constant<W: fmt::Write>(f: &mut fmt::Formatter<W>, value: u64) -> fmt::Result {
    let signed = value.cast_signed();
    if signed >= 0 {
        return fmt::Display::fmt(&value, f);
    }
    write!(f, "{value} ({signed})")
}

/// A part of what is known of a number: its letter, and two numbers with what stands between them.
type NumPart = (&'static str, i128, &'static str, i128);

/// The unsigned bounds, if they say something.
fn unsigned_part(n: Num) -> Option<NumPart> {
    let (lo, hi) = (n.unsigned().lo(), n.unsigned().hi());
    if lo == 0 && hi == u64::MAX {
        None
    } else {
        Some(("u", i128::from(lo), "..", i128::from(hi)))
    }
}

/// The signed bounds, if they say more than the unsigned ones do.
fn signed_part(n: Num) -> Option<NumPart> {
    if says_more_signed(n) {
        let (lo, hi) = (n.signed().lo(), n.signed().hi());
        Some(("s", i128::from(lo), "..", i128::from(hi)))
    } else {
        None
    }
}

/// The bits, if they say more than the bounds do.
fn bits_part(n: Num) -> Option<NumPart> {
    if says_more_bits(n) {
        let (value, mask) = (n.bits().value(), n.bits().mask());
        Some(("k", i128::from(value), "/", i128::from(mask)))
    } else {
        None
    }
}

/// The parts of a number with what stands between them.
fn write_parts<W: fmt::Write>(f: &mut fmt::Formatter<W>, n: Num) -> fmt::Result {
    let mut comma = "";
    for part in [unsigned_part(n), signed_part(n), bits_part(n)] {
        if let Some((letter, first, between, second)) = part {
            write!(f, "{comma}{letter}{first}{between}{second}")?;
            comma = ",";
        }
    }
    f.write_str(if comma.is_empty() { "any number" } else { "" })
}

impl fmt::Display for Number {
    fn fmt<W: fmt::Write>(&self, f: &mut fmt::Formatter<W>) -> fmt::Result {
        let bounds = self.0.unsigned();
        if bounds.lo() == bounds.hi() {
            write_constant(f, bounds.lo())
        } else {
            write_parts(f, self.0)
        }
    }
}

/// What a pointer points into.
fn base_name(area: Area) -> &'static str {
    match area {
        Area::Context => "ctx",
        Area::Frame => "fp",
    }
}

/// A pointer with its bounds, as `ctx1..8`.
#[derive(Clone, Copy)]
pub struct Pointed(pub Moved);

impl fmt::Display for Pointed {
    fn fmt<W: fmt::Write>(&self, f: &mut fmt::Formatter<W>) -> fmt::Result {
        let Moved { area, lo, hi } = self.0;
        let base = base_name(area);
        write!(f, "{base}{lo}..{hi}")
    }
}

/// What is known of a place.
#[derive(Clone, Copy)]
pub struct Known(pub SlotState);

impl fmt::Display for Known {
    fn fmt<W: fmt::Write>(&self, f: &mut fmt::Formatter<W>) -> fmt::Result {
        match self.0 {
            SlotState::Bytes(0) => f.write_str("anything"),
            SlotState::Bytes(mask) => write!(f, "b{mask}"),
            SlotState::Word(number) => fmt::Display::fmt(&Number(number), f),
            SlotState::Spilled(Pointer { area, lo, hi }) => {
                let (lo, hi) = (i128::from(lo), i128::from(hi));
                fmt::Display::fmt(&Pointed(Moved { area, lo, hi }), f)
            }
        }
    }
}

/// What is known of a register.
pub fn known_register(state: RegState) -> Known {
    Known(value_slot(state))
}

/// An instruction in the one spelling of the language, without the line's end.
#[derive(Clone, Copy)]
pub struct SpelledInsn(pub Insn);

impl fmt::Display for SpelledInsn {
    fn fmt<W: fmt::Write>(&self, f: &mut fmt::Formatter<W>) -> fmt::Result {
        let mut text: ArrayVec<u8, 64> = ArrayVec::new();
        let _ = bpf_text::write_line(&mut text, &self.0);
        let _ = text.pop();
        f.pad(from_utf8(text.as_slice()).unwrap_or(""))
    }
}

/// An offset with its sign and a blank between, as `+ 8`.
#[derive(Clone, Copy)]
pub struct Offset(pub i64);

impl fmt::Display for Offset {
    fn fmt<W: fmt::Write>(&self, f: &mut fmt::Formatter<W>) -> fmt::Result {
        let amount = self.0.unsigned_abs();
        let sign = if self.0 < 0 { "-" } else { "+" };
        write!(f, "{sign} {amount}")
    }
}

/// What a place holds, as a certificate's line spells it behind the place's name.
#[derive(Clone, Copy)]
pub struct Written(pub SlotState);

/// What stands behind the first blank of a line, without the line's end.
fn behind_blank(line: &[u8]) -> &[u8] {
    match cut(line, b' ') {
        Some((_name, rest)) => rest.get(..rest.len().saturating_sub(1)).unwrap_or(&[]),
        None => &[],
    }
}

impl fmt::Display for Written {
    fn fmt<W: fmt::Write>(&self, f: &mut fmt::Formatter<W>) -> fmt::Result {
        if let SlotState::Bytes(0) = self.0 {
            return f.write_str("nothing");
        }
        // The name in front is cut off, so that any will do.
        let line = bpf_cert::entry_text(Place::Register(Reg::R0), self.0);
        let text = behind_blank(line.as_slice());
        f.write_str(from_utf8(text).unwrap_or(""))
    }
}
