//! The assembler.

ghost use Rattle.std.specs.Prelude.{◌≡◌, ◌⊎◌, ℕ, List, [], map, option_map, IfOk, IfErr, OnOk, MatchResult, Some, None, Ok, Err, pos, ◌-ℤ◌, ◌+◌};
ghost use Rattle.bpf_text.specs.declared.error.TextError.TheVariants.{DefinedAgain, Memory};
ghost use Rattle.bpf_text.specs.code.Seen.{label_seen};
ghost use Rattle.bpf_text.specs.code.SourceSeen.{said_seen, source_seen};
ghost use Rattle.bpf_text.specs.code.Slots.{slots_in};
ghost use Rattle.bpf_text.specs.Assembly.{jump_over, jump_from, insn_of, linked, instructions_of, line_at, program_error, Assembles, IsRefused};

use crate::error::TextError;
use crate::names::{Names, slots_by_name};
use crate::source::{Said, Source, source_of};
use crate::statement::{Jump, Statement, fits_32};
use bpf_insn::{BuildError, Insn, Order, Program};
use std::alloc::Global;

fn jump_over(jump: Jump, distance: i128) -> Option<Insn>
    ensures { result ≡ jump_over jump distance }
{
    match jump {
        Jump::GotoLong => Some(Insn::JaLong {
            off: fits_32(distance).unwrap_or(0),
        }),
        Jump::Call => Some(Insn::CallLocal {
            off: fits_32(distance).unwrap_or(0),
        }),
        Jump::Goto => jump.by(distance),
        Jump::If(_, _, _, _) => jump.by(distance),
    }
}

/// How many slots it is from the next instruction to the target.
fn distance(slot: usize, target: usize) -> i128
    ensures { result ≡ pos target -ℤ pos (slot + 1) }
{
    target as i128 - (slot as i128 + 1)
}

/// The jump or call at a slot to the slot of a label.
fn jump_from(line: usize, slot: usize, jump: Jump, target: Option<usize>) -> Result<Insn, TextError>
    ensures { result ≡ jump_from line slot jump target }
{
    let Some(target) = target else {
        return Err(TextError::Undefined { line });
    };
    match jump_over(jump, distance(slot, target)) {
        None => Err(TextError::TooFar { line }),
        Some(insn) => Ok(insn),
    }
}

fn insn_of(slots: &Names, said: &Said) -> Result<Insn, TextError>
    ensures { result ≡ insn_of (slots_in slots.now) (said_seen said.now) }
{
    match said.statement {
        Statement::Plain(insn) => Ok(insn),
        Statement::ToLabel(jump, name) => {
            let target = slots.slot(name);
            jump_from(said.line, said.slot, jump, target)
        }
    }
}

fn linked(alloc: Global, slots: &Names, said: &[Said]) -> Result<Vec<Insn>, TextError>
    ensures ok { IfOk result (λ v. linked (slots_in slots.now) (map said_seen said.now) ≡ Ok v.items) }
    ensures err { IfErr result (λ e. (e ≡ Memory) ⊎ (linked (slots_in slots.now) (map said_seen said.now) ≡ Err e)) }
{
    let mut insns = Vec::new(alloc);
    for statement in said {
        match insn_of(slots, statement) {
            Ok(insn) => {
                if insns.push(insn).is_err() {
                    return Err(TextError::Memory);
                }
            }
            Err(error) => return Err(error),
        }
    }
    Ok(insns)
}

/// The line of the statement at a slot.
fn line_at(slot: u32, said: &[Said]) -> usize
    ensures { result ≡ line_at slot (map said_seen said.now) }
{
    for statement in said {
        if statement.slot == slot as usize {
            return statement.line;
        }
    }
    1
}

fn program_error(said: &[Said], error: BuildError) -> TextError
    ensures { result ≡ program_error (map said_seen said.now) error }
{
    match error {
        BuildError::Length => TextError::Program { line: 1, error },
        BuildError::NoEncoding { slot } => TextError::Program {
            line: line_at(slot, said),
            error,
        },
        BuildError::Target { slot } => TextError::Program {
            line: line_at(slot, said),
            error,
        },
        BuildError::Memory => TextError::Memory,
    }
}

/// The instructions that a source says.
fn instructions_of(alloc: Global, source: &Source) -> Result<Vec<Insn>, TextError>
    ensures ok { IfOk result (λ v. instructions_of (source_seen source.now) ≡ Ok v.items) }
    ensures err { IfErr result (λ e. (e ≡ Memory) ⊎ (instructions_of (source_seen source.now) ≡ Err e)) }
{
    let slots = match slots_by_name(alloc, &source.labels) {
        Ok(slots) => slots,
        Err(error) => return Err(error),
    };
    match source.fault {
        Some(fault) => Err(fault),
        None => linked(alloc, &slots, &source.said),
    }
}

/// Assembles a text to a program of a byte order. The refusals come in this order: the lowest line with A1, A2 or A3
/// (in this order in one line), the lowest line with A4 or A5, A6; A7 where memory ran out. The time is linear in the
/// text, or with many labels whose names have one hash in the text times the logarithm of their number.
pub fn assemble(alloc: Global, text: &str, order: Order) -> Result<Program, TextError>
    ensures ok { IfOk result (λ p. Assembles text.now p.list × (p.order ≡ order)) }
    ensures err { IfErr result (λ e. (e ≡ Memory) ⊎ IsRefused text.now e) }
    ensures accepts { (is : List Insn) → Assembles text.now is → MatchResult result (λ p. p.list ≡ is) (λ e. e ≡ Memory) }
{
    let Ok(source) = source_of(alloc, text.as_bytes()) else {
        return Err(TextError::Memory);
    };
    let insns = match instructions_of(alloc, &source) {
        Ok(insns) => insns,
        Err(error) => return Err(error),
    };
    match Program::new(alloc, insns, order) {
        Ok(program) => Ok(program),
        Err(error) => Err(program_error(&source.said, error)),
    }
}
