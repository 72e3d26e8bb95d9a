//! How an opcode uses the fields of its slot (RFC 9669, sections 3 to 5).

ghost use Rattle.std.specs.Prelude.{◌≡◌, not};
ghost use Rattle.bpf_insn.specs.code.Form.{uses_of};
ghost use Rattle.bpf_insn.specs.Refusal.{uses, table, uses_in, is_choice, is_selected, is_zero_if_unused, each_field, wrong_fields};

use crate::fields::Fields;
use crate::form::{Form, Source};
use crate::forms::form_of;
use crate::instruction::Width;

/// Which values a field may have that selects the operation.
#[derive(Clone, Copy)]
pub enum Choice {
    /// Offset of a division or a remainder: 0 without sign, 1 with sign (section 4.1).
    Signedness,
    /// Offset of a move of 32 bits: 0, or 8 or 16 bits of which the sign is extended (section 4.1).
    MoveBits32,
    /// Offset of a move of 64 bits: 0, or 8, 16 or 32 bits of which the sign is extended (section 4.1).
    MoveBits64,
    /// Imm of a byte swap: 16, 32 or 64 bits (section 4.2).
    SwapBits,
    /// Imm of an atomic operation: its code, with 1 more for a fetch (section 5.3).
    AtomicCode,
    /// Src of a call: 1, for a function of the program (section 4.3.2).
    Callee,
}

/// How an instruction uses a field: as it is, to select the operation, or not at all, and then it is zero.
#[derive(Clone, Copy)]
pub enum Use {
    Used,
    Selects(Choice),
    Zero,
}

/// How an instruction uses the fields of its first slot.
#[derive(Clone, Copy)]
pub struct Uses {
    pub dst: Use,
    pub src: Use,
    pub offset: Use,
    pub imm: Use,
}

/// Some of the fields of a slot, and the reserved bits of the second slot of a wide instruction.
#[derive(Clone, Copy, Debug, PartialEq, Eq)]
pub struct FieldSet {
    pub dst: bool,
    pub src: bool,
    pub offset: bool,
    pub imm: bool,
    pub reserved: bool,
}

impl Choice {
    /// Whether the value is one of those.
    fn has(self, value: i32) -> bool
        ensures { result ≡ is_choice self value }
    {
        match self {
            Choice::Signedness => matches!(value, 0 | 1),
            Choice::MoveBits32 => matches!(value, 0 | 8 | 16),
            Choice::MoveBits64 => matches!(value, 0 | 8 | 16 | 32),
            Choice::SwapBits => matches!(value, 16 | 32 | 64),
            Choice::AtomicCode => matches!(
                value,
                0x00 | 0x40 | 0x50 | 0xa0 | 0x01 | 0x41 | 0x51 | 0xa1 | 0xe1 | 0xf1
            ),
            Choice::Callee => value == 1,
        }
    }
}

impl Use {
    /// Whether a field with this value selects an operation, where it selects one.
    fn is_selected(self, value: i32) -> bool
        ensures { result ≡ is_selected self value }
    {
        match self {
            Use::Selects(choice) => choice.has(value),
            Use::Used | Use::Zero => true,
        }
    }

    /// Whether a field with this value is zero, where it isn't used.
    fn is_zero_if_unused(self, value: i32) -> bool
        ensures { result ≡ is_zero_if_unused self value }
    {
        match self {
            Use::Zero => value == 0,
            Use::Used | Use::Selects(_) => true,
        }
    }
}

impl Uses {
    /// Whether each field that selects the operation has a value that is defined.
    pub fn are_selected(&self, f: &Fields) -> bool
        ensures { result ≡ each_field is_selected self.now f.now }
    {
        self.dst.is_selected(i32::from(f.dst))
            && self.src.is_selected(i32::from(f.src))
            && self.offset.is_selected(i32::from(f.offset))
            && self.imm.is_selected(f.imm)
    }

    /// Whether each field that isn't used is zero.
    pub fn are_zero_if_unused(&self, f: &Fields) -> bool
        ensures { result ≡ each_field is_zero_if_unused self.now f.now }
    {
        self.dst.is_zero_if_unused(i32::from(f.dst))
            && self.src.is_zero_if_unused(i32::from(f.src))
            && self.offset.is_zero_if_unused(i32::from(f.offset))
            && self.imm.is_zero_if_unused(f.imm)
    }

    /// The fields that must be zero and aren't; of a wide instruction's reserved bits the caller knows.
    pub fn wrong(&self, f: &Fields, reserved: bool) -> FieldSet
        ensures { result ≡ wrong_fields self.now f.now reserved }
    {
        FieldSet {
            dst: !self.dst.is_zero_if_unused(i32::from(f.dst)),
            src: !self.src.is_zero_if_unused(i32::from(f.src)),
            offset: !self.offset.is_zero_if_unused(i32::from(f.offset)),
            imm: !self.imm.is_zero_if_unused(f.imm),
            reserved,
        }
    }
}

fn of_fields(dst: Use, src: Use, offset: Use, imm: Use) -> Uses
    ensures { result ≡ uses dst src offset imm }
{
    Uses {
        dst,
        src,
        offset,
        imm,
    }
}

/// How the instructions of a form use their fields.
fn uses_by(form: Form) -> Uses
    ensures { result ≡ uses_of form }
{
    let (used, zero) = (Use::Used, Use::Zero);
    let signedness = Use::Selects(Choice::Signedness);
    match form {
        Form::Alu {
            source: Source::Imm,
            ..
        } => of_fields(used, zero, zero, used),
        Form::Alu {
            source: Source::Reg,
            ..
        } => of_fields(used, used, zero, zero),
        Form::Divide {
            source: Source::Imm,
            ..
        } => of_fields(used, zero, signedness, used),
        Form::Divide {
            source: Source::Reg,
            ..
        } => of_fields(used, used, signedness, zero),
        Form::Remainder {
            source: Source::Imm,
            ..
        } => of_fields(used, zero, signedness, used),
        Form::Remainder {
            source: Source::Reg,
            ..
        } => of_fields(used, used, signedness, zero),
        Form::Move { width: Width::W32 } => {
            of_fields(used, used, Use::Selects(Choice::MoveBits32), zero)
        }
        Form::Move { width: Width::W64 } => {
            of_fields(used, used, Use::Selects(Choice::MoveBits64), zero)
        }
        Form::Neg { .. } => of_fields(used, zero, zero, zero),
        Form::End { .. } => of_fields(used, zero, zero, Use::Selects(Choice::SwapBits)),
        Form::LoadImm64 => of_fields(used, zero, zero, used),
        Form::Load { .. } => of_fields(used, used, used, zero),
        Form::LoadSx { .. } => of_fields(used, used, used, zero),
        Form::StoreImm { .. } => of_fields(used, zero, used, used),
        Form::Store { .. } => of_fields(used, used, used, zero),
        Form::Atomic { .. } => of_fields(used, used, used, Use::Selects(Choice::AtomicCode)),
        Form::Ja => of_fields(zero, zero, used, zero),
        Form::JaLong => of_fields(zero, zero, zero, used),
        Form::JumpIf {
            source: Source::Imm,
            ..
        } => of_fields(used, zero, used, used),
        Form::JumpIf {
            source: Source::Reg,
            ..
        } => of_fields(used, used, used, zero),
        Form::CallLocal => of_fields(zero, Use::Selects(Choice::Callee), zero, used),
        Form::Exit => of_fields(zero, zero, zero, zero),
    }
}

/// How instructions with this opcode use their fields, if there are any in this profile (RFC 9669, sections 3 to 5).
#[tactic(auto, using(crate::proofs::TableLemmas::uses_by_form))]
pub fn uses_of(opcode: u8) -> Option<Uses>
    ensures { result ≡ uses_in table opcode }
{
    match form_of(opcode) {
        Some(form) => Some(uses_by(form)),
        None => None,
    }
}
