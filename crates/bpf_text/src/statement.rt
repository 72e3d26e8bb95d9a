//! The statement of a line.

mod memory;

ghost use Rattle.std.specs.Prelude.{◌≡◌, option_map};
ghost use Rattle.bpf_text.specs.Statements.{seen, plain};
ghost use Rattle.bpf_text.specs.Numerals.{fits_16, fits_32, fits_wide};
ghost use Rattle.bpf_text.specs.code.StatementReading.{same_width, register_in, operand_in, constant_in, negative_in, extension_in, swap_in, assigned_in, assignment_in, name_in, target_in, test_in, branch_in, plainly, keyword_in, statement_in, whole_statement};
ghost use Rattle.bpf_text.specs.Statements.{is_extension, jump_by};
ghost use Rattle.bpf_text.specs.Characters.{is_name};

use crate::lookup::{
    any_register, condition, extension_bits, keyword_named, operation, register_named, swap,
};
use crate::spelling::{Keyword, Register, Spelled, Swap};
use crate::statement::memory::{atomic, load, store};
use crate::token::{behind, behind_mark, is_digit, number, signed, skip_blanks, unsigned, word};
use bpf_insn::{AluOp, Cond, Insn, Operand, Reg, SignBits, Width};

/// A jump or call, without its target.
#[derive(Clone, Copy)]
pub enum Jump {
    Goto,
    GotoLong,
    Call,
    If(Cond, Width, Reg, Operand),
}

/// What a line says: an instruction, or a jump or call to a label.
#[derive(Clone, Copy)]
pub enum Statement<'a> {
    Plain(Insn),
    ToLabel(Jump, &'a [u8]),
}

/// What is read, None where a number is out of its range; and the text behind it.
pub type Read<'a, T> = Option<(Option<T>, &'a [u8])>;

pub fn fits_16(number: i128) -> Option<i16>
    ensures { result ≡ fits_16 number }
{
    if number >= -32_768 && number <= 32_767 {
        Some(number as i16)
    } else {
        None
    }
}

pub fn fits_32(number: i128) -> Option<i32>
    ensures { result ≡ fits_32 number }
{
    if number >= -2_147_483_648 && number <= 2_147_483_647 {
        Some(number as i32)
    } else {
        None
    }
}

fn fits_wide(number: i128) -> Option<u64>
    ensures { result ≡ fits_wide number }
{
    if number >= 0 && number < 1 << 64 {
        Some(number as u64)
    } else {
        None
    }
}

fn same_width(left: Width, right: Width) -> bool
    ensures { result ≡ same_width left right }
{
    matches!(
        (left, right),
        (Width::W32, Width::W32) | (Width::W64, Width::W64)
    )
}

#[tactic(auto, unfolding(crate::specs::code::StatementReading::register_in))]
pub fn register(width: Width, text: &[u8]) -> Option<(Reg, &[u8])>
    ensures { option_map (λ x. (x.0, x.1.now)) result ≡ register_in width text.now }
{
    let (found, rest) = any_register(text)?;
    if same_width(found.0, width) {
        Some((found.1, rest))
    } else {
        None
    }
}

#[tactic(auto, unfolding(crate::specs::code::StatementReading::operand_in))]
pub fn operand(width: Width, text: &[u8]) -> Read<'_, Operand>
    ensures { option_map (λ x. (x.0, x.1.now)) result ≡ operand_in width text.now }
{
    if let Some((reg, rest)) = register(width, text) {
        return Some((Some(Operand::Reg(reg)), rest));
    }
    let (number, rest) = number(text)?;
    Some((fits_32(number).map(Operand::Imm), rest))
}

fn move_constant(width: Width, dst: Reg, number: i128) -> Option<Insn>
    ensures { result ≡ option_map (λ imm. Insn.Alu AluOp.Mov width dst (Operand.Imm imm)) (fits_32 number) }
{
    Some(Insn::Alu {
        op: AluOp::Mov,
        width,
        dst,
        src: Operand::Imm(fits_32(number)?),
    })
}

fn load_constant(dst: Reg, number: i128) -> Option<Insn>
    ensures { result ≡ option_map (Insn.LoadImm64 dst) (fits_wide number) }
{
    Some(Insn::LoadImm64 {
        dst,
        value: fits_wide(number)?,
    })
}

/// A constant, with `ll` behind it one of 64 bits.
#[tactic(auto, unfolding(crate::specs::code::StatementReading::constant_in))]
fn constant(width: Width, dst: Reg, number: i128, text: &[u8]) -> Read<'_, Insn>
    ensures { option_map (λ x. (x.0, x.1.now)) result ≡ constant_in width dst number text.now }
{
    match (behind(text, "ll"), width) {
        (None, _) => Some((move_constant(width, dst, number), text)),
        (Some(rest), Width::W64) => Some((load_constant(dst, number), rest)),
        (Some(_), Width::W32) => None,
    }
}

/// What stands behind `= -`: the same register, or a number.
#[tactic(auto, unfolding(crate::specs::code::StatementReading::negative_in))]
fn negative(width: Width, dst: Reg, text: &[u8]) -> Read<'_, Insn>
    ensures { option_map (λ x. (x.0, x.1.now)) result ≡ negative_in width dst text.now }
{
    if let Some(rest) = behind(text, Register(width, dst).text()) {
        return Some((Some(Insn::Neg { width, dst }), rest));
    }
    let (value, rest) = unsigned(text)?;
    constant(width, dst, -(value as i128), rest)
}

fn is_extension(width: Width, bits: SignBits) -> bool
    ensures { result ≡ is_extension width bits }
{
    match (width, bits) {
        (Width::W32, SignBits::B32) => false,
        (Width::W32, SignBits::B8 | SignBits::B16) => true,
        (Width::W64, _) => true,
    }
}

/// What stands behind `= (`.
#[tactic(auto, unfolding(crate::specs::code::StatementReading::extension_in))]
fn extension(width: Width, dst: Reg, text: &[u8]) -> Read<'_, Insn>
    ensures { option_map (λ x. (x.0, x.1.now)) result ≡ extension_in width dst text.now }
{
    let (bits, rest) = extension_bits(text)?;
    let rest = behind_mark(rest, b')')?;
    let (src, rest) = register(width, rest)?;
    if is_extension(width, bits) {
        let insn = Insn::MovSx {
            width,
            bits,
            dst,
            src,
        };
        Some((Some(insn), rest))
    } else {
        None
    }
}

#[tactic(auto, unfolding(crate::specs::code::StatementReading::swap_in))]
fn byte_swap(width: Width, dst: Reg, swap: Swap, text: &[u8]) -> Read<'_, Insn>
    ensures { option_map (λ x. (x.0, x.1.now)) result ≡ swap_in width dst swap text.now }
{
    match width {
        Width::W32 => None,
        Width::W64 => {
            let rest = behind(text, Register(Width::W64, dst).text())?;
            let insn = Insn::End {
                kind: swap.0,
                bits: swap.1,
                dst,
            };
            Some((Some(insn), rest))
        }
    }
}

fn move_register(width: Width, dst: Reg, src: Reg) -> Insn
    ensures { result ≡ Insn.Alu AluOp.Mov width dst (Operand.Reg src) }
{
    Insn::Alu {
        op: AluOp::Mov,
        width,
        dst,
        src: Operand::Reg(src),
    }
}

/// What stands behind `=`.
#[tactic(auto, unfolding(crate::specs::code::StatementReading::assigned_in))]
fn assigned(width: Width, dst: Reg, text: &[u8]) -> Read<'_, Insn>
    ensures { option_map (λ x. (x.0, x.1.now)) result ≡ assigned_in width dst text.now }
{
    if let Some(rest) = behind_mark(text, b'-') {
        return negative(width, dst, rest);
    }
    if let Some(rest) = behind_mark(text, b'(') {
        return extension(width, dst, rest);
    }
    if behind_mark(text, b'*').is_some() {
        return load(width, dst, text);
    }
    if let Some((found, rest)) = swap(text) {
        return byte_swap(width, dst, found, rest);
    }
    if let Some((src, rest)) = register(width, text) {
        return Some((Some(move_register(width, dst, src)), rest));
    }
    let (value, rest) = unsigned(text)?;
    constant(width, dst, value as i128, rest)
}

fn operation_of(op: AluOp, width: Width, dst: Reg, src: Option<Operand>) -> Option<Insn>
    ensures { result ≡ option_map (λ s. Insn.Alu op width dst s) src }
{
    Some(Insn::Alu {
        op,
        width,
        dst,
        src: src?,
    })
}

/// What stands behind a register.
#[tactic(auto, unfolding(crate::specs::code::StatementReading::assignment_in))]
fn assignment(width: Width, dst: Reg, text: &[u8]) -> Read<'_, Insn>
    ensures { option_map (λ x. (x.0, x.1.now)) result ≡ assignment_in width dst text.now }
{
    let (op, rest) = operation(text)?;
    if let AluOp::Mov = op {
        return assigned(width, dst, rest);
    }
    let (src, rest) = operand(width, rest)?;
    Some((operation_of(op, width, dst, src), rest))
}

impl Jump {
    /// The jump or call by a distance in slots from the next instruction; None where the distance does not fit.
    pub fn by(self, distance: i128) -> Option<Insn>
        ensures { result ≡ jump_by self distance }
    {
        Some(match self {
            Jump::Goto => Insn::Ja {
                off: fits_16(distance)?,
            },
            Jump::GotoLong => Insn::JaLong {
                off: fits_32(distance)?,
            },
            Jump::Call => Insn::CallLocal {
                off: fits_32(distance)?,
            },
            Jump::If(cond, width, dst, src) => Insn::JumpIf {
                cond,
                width,
                dst,
                src,
                off: fits_16(distance)?,
            },
        })
    }
}

pub fn is_name(word: &[u8]) -> bool
    ensures { result ≡ is_name word.now }
{
    match word {
        [] => false,
        [first, ..] => !is_digit(*first) && word.len() <= 64,
    }
}

#[tactic(auto, unfolding(crate::specs::code::StatementReading::name_in))]
fn name(jump: Jump, text: &[u8]) -> Read<'_, Statement<'_>>
    ensures { option_map (λ x. (option_map seen x.0, x.1.now)) result ≡ name_in jump text.now }
{
    let (name, rest) = word(text)?;
    if is_name(name) {
        Some((Some(Statement::ToLabel(jump, name)), rest))
    } else {
        None
    }
}

fn plain(insn: Option<Insn>) -> Option<Statement<'static>>
    ensures { option_map seen result ≡ option_map plain insn }
{
    Some(Statement::Plain(insn?))
}

/// The target of a jump or call: a distance or a name.
#[tactic(auto, unfolding(crate::specs::code::StatementReading::target_in))]
fn target(jump: Jump, text: &[u8]) -> Read<'_, Statement<'_>>
    ensures { option_map (λ x. (option_map seen x.0, x.1.now)) result ≡ target_in jump text.now }
{
    if let Some((distance, rest)) = signed(text) {
        return Some((plain(jump.by(distance)), rest));
    }
    name(jump, text)
}

/// The target of a conditional jump. Where the operand is out of its range, it needs a form all the same.
fn test(
    cond: Cond,
    width: Width,
    dst: Reg,
    src: Option<Operand>,
    text: &[u8],
) -> Read<'_, Statement<'_>>
    ensures { option_map (λ x. (option_map seen x.0, x.1.now)) result ≡ test_in cond width dst src text.now }
{
    match src {
        Some(src) => target(Jump::If(cond, width, dst, src), text),
        None => {
            let (_, rest) = target(Jump::Goto, text)?;
            Some((None, rest))
        }
    }
}

/// What stands behind `if`.
#[tactic(auto, unfolding(crate::specs::code::StatementReading::branch_in))]
fn branch(text: &[u8]) -> Read<'_, Statement<'_>>
    ensures { option_map (λ x. (option_map seen x.0, x.1.now)) result ≡ branch_in text.now }
{
    let (dst, rest) = any_register(text)?;
    let (cond, rest) = condition(rest)?;
    let (src, rest) = operand(dst.0, rest)?;
    let rest = behind(rest, "goto")?;
    test(cond, dst.0, dst.1, src, rest)
}

fn plainly(read: Read<'_, Insn>) -> Read<'_, Statement<'_>>
    ensures { option_map (λ x. (option_map seen x.0, x.1.now)) result ≡ plainly (option_map (λ x. (x.0, x.1.now)) read.entry) }
{
    let (insn, rest) = read?;
    Some((plain(insn), rest))
}

fn keyword(word: Keyword, text: &[u8]) -> Read<'_, Statement<'_>>
    ensures { option_map (λ x. (option_map seen x.0, x.1.now)) result ≡ keyword_in word text.now }
{
    match word {
        Keyword::Lock => plainly(atomic(text)),
        Keyword::If => branch(text),
        Keyword::Goto => target(Jump::Goto, text),
        Keyword::GotoLong => target(Jump::GotoLong, text),
        Keyword::Call => target(Jump::Call, text),
        Keyword::Exit => Some((Some(Statement::Plain(Insn::Exit)), text)),
    }
}

/// The statement in front of a text, told by its first word.
fn front(text: &[u8]) -> Read<'_, Statement<'_>>
    ensures { option_map (λ x. (option_map seen x.0, x.1.now)) result ≡ statement_in text.now }
{
    let Some((first, rest)) = word(text) else {
        return plainly(store(text));
    };
    if let Some(dst) = register_named(first) {
        return plainly(assignment(dst.0, dst.1, rest));
    }
    match keyword_named(first) {
        Some(found) => keyword(found, rest),
        None => plainly(store(text)),
    }
}

/// The statement that a text is: None where it is none, `Some(None)` where a number is out of its range.
#[tactic(auto, unfolding(crate::specs::code::StatementReading::whole_statement))]
pub fn statement_of(text: &[u8]) -> Option<Option<Statement<'_>>>
    ensures { option_map (λ s. option_map seen s) result ≡ whole_statement text.now }
{
    let (statement, rest) = front(text)?;
    if skip_blanks(rest).is_empty() {
        Some(statement)
    } else {
        None
    }
}
