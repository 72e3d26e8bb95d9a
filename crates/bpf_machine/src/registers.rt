//! The registers: eleven numbers, and apart what each of them is.

ghost use Rattle.std.specs.Prelude.{◌≡◌, ◌<◌, get_or, slice_set, replicate, [], ◌∷◌, Some, None, is_some, option_and_then, IsSome};
ghost use Rattle.bpf_insn.specs.Instruction.{register_number};
ghost use Rattle.bpf_semantics.specs.State.{number_in};
ghost use Rattle.bpf_semantics.specs.Step.{alu_result};
ghost use Rattle.bpf_semantics.specs.declared.value.Value.TheVariants.{Number, Pointer};
ghost use Rattle.std.specs.Int.{w64, cast_unsigned};
ghost use Rattle.bpf_machine.specs.code.PackedRegisters.{value_of, word_value, kept_values, registers_entered};

use bpf_insn::{AluOp, Reg, Width};
use bpf_semantics::{Region, Value};
use std::marker::Model;

/// How many registers there are.
const REGISTERS: usize = bpf_insn::REGISTERS;

/// What the number of a register is: nothing, a number, or the offset of a pointer into the context or the stack at a
/// depth.
#[derive(Clone, Copy)]
pub(crate) enum Kind {
    Unset,
    Number,
    Context,
    Frame(u8),
}

/// A register as a call keeps it.
#[derive(Clone, Copy)]
pub(crate) struct Word {
    number: u64,
    kind: Kind,
}

/// What a call keeps of the registers: r6 to r10.
#[derive(Clone, Copy)]
pub(crate) struct Kept {
    r6: Word,
    r7: Word,
    r8: Word,
    r9: Word,
    r10: Word,
}

impl Default for Kept {
    fn default() -> Self {
        let word = Word {
            number: 0,
            kind: Kind::Unset,
        };
        Kept {
            r6: word,
            r7: word,
            r8: word,
            r9: word,
            r10: word,
        }
    }
}

/// The place of a register among the eleven.
#[inline(always)]
fn index_of(r: Reg) -> usize
    ensures number { result ≡ register_number r }
    ensures few { result < 11 }
{
    r as usize
}

/// The registers. A number whose kind is unset may be anything.
#[derive(Drop)]
pub(crate) struct Registers {
    numbers: [u64; REGISTERS],
    kinds: [Kind; REGISTERS],
}

impl Model for Registers {
    ghost use Rattle.std.specs.Prelude.{List, Option};
    ghost use Rattle.bpf_semantics.specs.declared.value.Value.{Value as Held};
    ghost use Rattle.bpf_machine.specs.code.PackedRegisters.{packed_registers};

    ghost Value = { List (Option Held) };

    ghost view = { λ r. packed_registers r.kinds r.numbers };

    ghost use Rattle.std.specs.Prelude.{◌≡◌, length};

    ghost invariant = { λ r. length r.kinds ≡ 11 };
}

impl Registers {
    /// Registers that hold nothing.
    #[tactic(auto, unfolding(crate::specs::code::PackedRegisters::packed_registers))]
    pub(crate) fn new() -> Self
        ensures { result ≡ replicate 11 None }
    {
        Registers {
            numbers: [0; REGISTERS],
            kinds: [Kind::Unset; REGISTERS],
        }
    }

    /// The value of a register; None where it holds nothing.
    #[inline(always)]
    pub(crate) fn value(&self, r: Reg) -> Option<Value>
        ensures { result ≡ get_or self.now (register_number r) None }
    {
        let at = index_of(r);
        let number = self.numbers[at];
        match self.kinds[at] {
            Kind::Unset => None,
            Kind::Number => Some(Value::Number(number)),
            Kind::Context => Some(Value::Pointer(Region::Context, number.cast_signed())),
            Kind::Frame(depth) => {
                Some(Value::Pointer(Region::Frame(depth), number.cast_signed()))
            }
        }
    }

    /// The number in a register; None where it holds nothing or a pointer.
    #[inline(always)]
    pub(crate) fn number(&self, r: Reg) -> Option<u64>
        ensures { result ≡ option_and_then number_in (get_or self.now (register_number r) None) }
    {
        let at = index_of(r);
        match self.kinds[at] {
            Kind::Number => Some(self.numbers[at]),
            Kind::Unset => None,
            Kind::Context => None,
            Kind::Frame(_depth) => None,
        }
    }

    /// Whether a register holds a value.
    #[inline(always)]
    pub(crate) fn is_set(&self, r: Reg) -> bool
        ensures { result ≡ is_some (get_or self.now (register_number r) None) }
    {
        let at = index_of(r);
        match self.kinds[at] {
            Kind::Unset => false,
            Kind::Number => true,
            Kind::Context => true,
            Kind::Frame(_depth) => true,
        }
    }

    /// Copies what a register holds to another.
    #[inline(always)]
    pub(crate) fn copy(&mut self, to: Reg, from: Reg)
        ensures { self.new ≡ slice_set self.old (register_number to) (get_or self.old (register_number from) None) }
    {
        let there = index_of(to);
        let here = index_of(from);
        self.numbers[there] = self.numbers[here];
        self.kinds[there] = self.kinds[here];
    }

    /// Writes a number to a register.
    #[inline(always)]
    pub(crate) fn set_number(&mut self, r: Reg, x: u64)
        ensures { self.new ≡ slice_set self.old (register_number r) (Some (Number x)) }
    {
        let at = index_of(r);
        self.numbers[at] = x;
        self.kinds[at] = Kind::Number;
    }

    /// Writes a number to a register that holds one, whose kind stays.
    #[inline(always)]
    pub(crate) fn update(&mut self, r: Reg, x: u64)
        requires { IsSome (option_and_then number_in (get_or self.old (register_number r) None)) }
        ensures { self.new ≡ slice_set self.old (register_number r) (Some (Number x)) }
    {
        let at = index_of(r);
        self.numbers[at] = x;
    }

    /// Adds to what a register holds, a number or the offset of a pointer: what it is stays, also where it holds nothing.
    #[inline(always)]
    pub(crate) fn add(&mut self, r: Reg, x: u64)
        ensures { self.new ≡ slice_set self.old (register_number r) (alu_result Width.W64 AluOp.Add (get_or self.old (register_number r) None) (Number x)) }
    {
        let at = index_of(r);
        self.numbers[at] = AluOp::Add.compute(Width::W64, self.numbers[at], x);
    }

    /// Writes a value to a register.
    #[inline(always)]
    pub(crate) fn set(&mut self, r: Reg, value: Value)
        ensures { self.new ≡ slice_set self.old (register_number r) (Some value) }
    {
        match value {
            Value::Number(x) => self.set_number(r, x),
            Value::Pointer(Region::Context, off) => self.set_pointer(r, Kind::Context, off),
            Value::Pointer(Region::Frame(depth), off) => {
                self.set_pointer(r, Kind::Frame(depth), off)
            }
        }
    }

    /// Writes an offset, and of which kind it is.
    #[inline(always)]
    fn set_pointer(&mut self, r: Reg, kind: Kind, off: i64)
        ensures { self.new ≡ slice_set self.old (register_number r) (value_of kind (cast_unsigned w64 off)) }
    {
        let at = index_of(r);
        self.numbers[at] = off.cast_unsigned();
        self.kinds[at] = kind;
    }

    /// The registers at the start of a function whose frame is at a depth: r1 to r5 stay, r10 is the frame's end.
    #[inline(always)]
    pub(crate) fn enter(&mut self, depth: u8)
        ensures { self.new ≡ registers_entered depth self.old }
    {
        self.kinds[0] = Kind::Unset;
        self.kinds[6] = Kind::Unset;
        self.kinds[7] = Kind::Unset;
        self.kinds[8] = Kind::Unset;
        self.kinds[9] = Kind::Unset;
        self.kinds[10] = Kind::Frame(depth);
        self.numbers[10] = 0;
    }

    /// What a call keeps: r6 to r10.
    #[inline(always)]
    pub(crate) fn kept(&self) -> Kept
        ensures { kept_values result ≡ get_or self.now 6 None ∷ get_or self.now 7 None ∷ get_or self.now 8 None ∷ get_or self.now 9 None ∷ get_or self.now 10 None ∷ [] }
    {
        Kept {
            r6: self.word(Reg::R6),
            r7: self.word(Reg::R7),
            r8: self.word(Reg::R8),
            r9: self.word(Reg::R9),
            r10: self.word(Reg::R10),
        }
    }

    /// A register as it is kept.
    #[inline(always)]
    fn word(&self, r: Reg) -> Word
        ensures { word_value result ≡ get_or self.now (register_number r) None }
    {
        let at = index_of(r);
        Word {
            number: self.numbers[at],
            kind: self.kinds[at],
        }
    }

    /// The registers behind a call that gave a number.
    #[inline(always)]
    #[tactic(auto, unfolding(crate::specs::code::PackedRegisters::packed_registers))]
    pub(crate) fn leave(&mut self, value: u64, kept: Kept)
        ensures { self.new ≡ Some (Number value) ∷ None ∷ None ∷ None ∷ None ∷ None ∷ kept_values kept }
    {
        self.numbers = [
            value,
            0,
            0,
            0,
            0,
            0,
            kept.r6.number,
            kept.r7.number,
            kept.r8.number,
            kept.r9.number,
            kept.r10.number,
        ];
        self.kinds = [
            Kind::Number,
            Kind::Unset,
            Kind::Unset,
            Kind::Unset,
            Kind::Unset,
            Kind::Unset,
            kept.r6.kind,
            kept.r7.kind,
            kept.r8.kind,
            kept.r9.kind,
            kept.r10.kind,
        ];
    }
}
