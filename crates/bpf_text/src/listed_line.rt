//! A line of a listing, put together part by part.

ghost use Rattle.std.specs.Prelude.{◌≡◌, ◌++◌, ◌<◌, List, [], ℕ, decimal, false};
ghost use Rattle.std.specs.Fmt.{digits, digit_glyph};
ghost use Rattle.bpf_text.specs.Spelling.{register_text};
ghost use Rattle.bpf_text.specs.Listing.{with_sign, number_text, offset_text, distance_text, hex_text, operand_text};
ghost use Rattle.bpf_text.specs.code.Puts.{Puts};

use crate::spelling::{Register, Spelled};
use arrayvec::ArrayVec;
use bpf_insn::{Operand, Reg, Width};
use itoa::Buffer;
use std::marker::Model;

/// A digit in base 16, with lower-case letters.
pub fn glyph(digit: u8) -> u8
    requires { digit < 16 }
    ensures { result ≡ digit_glyph false digit }
{
    if digit < 10 {
        b'0' + digit
    } else {
        b'a' + (digit - 10)
    }
}

/// What is written of a line: its first 256 bytes, more than any line has.
#[derive(Drop)]
pub struct ListedLine {
    text: ArrayVec<u8, 256>,
}

impl Model for ListedLine {
    ghost Value = { List ℕ };

    ghost view = { λ l. l.text.items };
}

impl ListedLine {
    /// Nothing is written.
    pub fn new() -> Self
        ensures { result ≡ [] }
    {
        ListedLine {
            text: ArrayVec::new(),
        }
    }

    /// Forgets what is written.
    pub fn clear(&mut self)
        ensures { self.new ≡ [] }
    {
        self.text.clear();
    }

    pub fn as_bytes(&self) -> &[u8]
        ensures { result.now ≡ self.now }
    {
        self.text.as_slice()
    }

    /// Puts bytes, as far as there is room.
    #[inline(always)]
    fn put(&mut self, bytes: &[u8])
        ensures { Puts self.old bytes.now self.new }
    {
        let count = self.text.remaining_capacity().min(bytes.len());
        match self.text.try_extend_from_slice(&bytes[..count]) {
            Ok(()) => {}
            Err(_) => unreachable!(),
        }
    }

    #[inline(always)]
    pub fn put_text(&mut self, text: &str)
        ensures { Puts self.old text.now self.new }
    {
        self.put(text.as_bytes());
    }

    /// Puts a text and a number in decimal.
    #[inline(always)]
    fn decimal_behind(&mut self, front: &str, value: u32)
        ensures { Puts self.old (front.now ++ decimal value) self.new }
    {
        self.put_text(front);
        self.put_text(Buffer::new().format(value));
    }

    /// Puts a number in base 16.
    fn digits(&mut self, value: u64)
        ensures { Puts self.old (digits 16 false value) self.new }
    {
        if value >= 16 {
            self.digits(value / 16);
            self.put(&[glyph((value % 16) as u8)]);
        } else {
            self.put(&[glyph(value as u8)]);
        }
    }

    /// Puts a number in decimal, with one text in front from 0 on and another below.
    #[inline(always)]
    fn signed(&mut self, plus: &str, minus: &str, value: i32)
        ensures { Puts self.old (with_sign plus.now minus.now value) self.new }
    {
        let front = if value < 0 { minus } else { plus };
        self.decimal_behind(front, value.unsigned_abs());
    }

    /// `5` or `-5`
    pub fn number(&mut self, number: i32)
        ensures { Puts self.old (number_text number) self.new }
    {
        self.signed("", "-", number);
    }

    /// `+ 8` or `- 8`
    pub fn offset(&mut self, off: i16)
        ensures { Puts self.old (offset_text off) self.new }
    {
        self.signed("+ ", "- ", i32::from(off));
    }

    /// `+3` or `-1`
    pub fn distance(&mut self, off: i32)
        ensures { Puts self.old (distance_text off) self.new }
    {
        self.signed("+", "-", off);
    }

    /// the same with 16 bits
    pub fn near_distance(&mut self, off: i16)
        ensures { Puts self.old (distance_text off) self.new }
    {
        self.signed("+", "-", i32::from(off));
    }

    /// `0x5`
    pub fn hex(&mut self, value: u64)
        ensures { Puts self.old (hex_text value) self.new }
    {
        self.put_text("0x");
        self.digits(value);
    }

    #[inline(always)]
    pub fn spelled<T: Spelled + Copy>(&mut self, thing: T)
        ensures { Puts self.old (T.spelling thing) self.new }
    {
        self.put_text(thing.text());
    }

    #[inline(always)]
    pub fn register(&mut self, width: Width, reg: Reg)
        ensures { Puts self.old (register_text width reg) self.new }
    {
        self.spelled(Register(width, reg));
    }

    pub fn operand(&mut self, width: Width, src: Operand)
        ensures { Puts self.old (operand_text width src) self.new }
    {
        match src {
            Operand::Reg(reg) => self.register(width, reg),
            Operand::Imm(imm) => self.number(imm),
        }
    }
}
