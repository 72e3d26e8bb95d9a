//! What may stand behind the front of a statement: endings, one of which completes each front.

ghost use Rattle.std.specs.Prelude.{◌≡◌, IfOk, ◌∷◌, ◌++◌, map, option_map};
ghost use Rattle.std.specs.List.{list_any, filter};
ghost use Rattle.bpf_text.specs.Stop.{passes};
ghost use Rattle.bpf_text.specs.Statements.{seen};
ghost use Rattle.bpf_text.specs.code.Endings.{completes, endings, completing, ending_seen};

use crate::line::LineFault;
use crate::statement::{Statement, statement_of};
use std::alloc::{AllocError, Global};

/// What stands first in an ending.
#[derive(Clone, Copy)]
pub enum Item {
    /// Nothing: the line may end.
    End,
    /// A register.
    Register,
    /// A number without a sign.
    Number,
    /// A number of 64 bits, with `ll` behind it.
    Wide,
    /// A sign, with a number behind it.
    Sign,
    /// `=`, by itself or as the rest of an operation.
    Assignment,
    /// An operation as `+=`.
    Operation,
    /// A condition as `==`.
    Condition,
    /// A byte swap as `le16`.
    Swap,
    /// The size of an access or of a move with sign.
    Size,
    /// The size of a move with sign in parentheses.
    Extension,
    /// A memory operand.
    Memory,
    /// Another mark.
    Mark,
    /// `lock`.
    Lock,
    /// `fetch`.
    Fetch,
    /// `xchg`.
    Exchange,
    /// `cmpxchg`.
    CompareExchange,
    /// `if`.
    If,
    /// `goto`.
    Goto,
    /// `gotol`.
    GotoLong,
    /// `call`.
    Call,
    /// `exit`.
    Exit,
    /// `ll`.
    Ll,
    /// The name of a label.
    Name,
}

/// Endings of statements, those of an item in a row. For each front of a statement there is one that completes it, which is
/// proved: a form of the language that is new may need one more here.
const ENDINGS: [(Item, &str); 112] = [
    (Item::End, ""),
    (Item::Register, "r1"),
    (Item::Register, "r0"),
    (Item::Register, "r2"),
    (Item::Register, "r3"),
    (Item::Register, "r4"),
    (Item::Register, "r5"),
    (Item::Register, "r6"),
    (Item::Register, "r7"),
    (Item::Register, "r8"),
    (Item::Register, "r9"),
    (Item::Register, "r10"),
    (Item::Register, "w1"),
    (Item::Register, "w0"),
    (Item::Register, "w2"),
    (Item::Register, "w3"),
    (Item::Register, "w4"),
    (Item::Register, "w5"),
    (Item::Register, "w6"),
    (Item::Register, "w7"),
    (Item::Register, "w8"),
    (Item::Register, "w9"),
    (Item::Register, "w10"),
    (Item::Register, "r1 = 5"),
    (Item::Register, "r1 == 5 goto out"),
    (Item::Register, "r1 + 0)"),
    (Item::Register, "r1 + 0) = 5"),
    (Item::Register, "r1 + 0) += r1"),
    (Item::Register, "r1 + 0), r1"),
    (Item::Number, "5"),
    (Item::Number, "5 goto out"),
    (Item::Number, "0)"),
    (Item::Number, "0) = 5"),
    (Item::Number, "0) += r1"),
    (Item::Number, "0), r1"),
    (Item::Wide, "5 ll"),
    (Item::Sign, "-5"),
    (Item::Sign, "-5 goto out"),
    (Item::Sign, "+ 0)"),
    (Item::Sign, "+ 0) = 5"),
    (Item::Sign, "+ 0) += r1"),
    (Item::Sign, "+ 0), r1"),
    (Item::Sign, "+5"),
    (Item::Assignment, "= 5"),
    (Item::Assignment, "= 5 goto out"),
    (Item::Assignment, "= r1"),
    (Item::Operation, "+= 5"),
    (Item::Operation, "+= r1"),
    (Item::Condition, "== 5 goto out"),
    (Item::Swap, "le16 r1"),
    (Item::Swap, "le16 r0"),
    (Item::Swap, "le16 r2"),
    (Item::Swap, "le16 r3"),
    (Item::Swap, "le16 r4"),
    (Item::Swap, "le16 r5"),
    (Item::Swap, "le16 r6"),
    (Item::Swap, "le16 r7"),
    (Item::Swap, "le16 r8"),
    (Item::Swap, "le16 r9"),
    (Item::Swap, "le16 r10"),
    (Item::Size, "u64 *)(r1 + 0)"),
    (Item::Size, "u64 *)(r1 + 0) = 5"),
    (Item::Size, "u64 *)(r1 + 0) += r1"),
    (Item::Size, "u64 *)(r1 + 0), r1"),
    (Item::Size, "s8)r1"),
    (Item::Size, "s8)w1"),
    (Item::Extension, "(s8)r1"),
    (Item::Extension, "(s8)w1"),
    (Item::Memory, "*(u64 *)(r1 + 0)"),
    (Item::Memory, "*(u64 *)(r1 + 0) = 5"),
    (Item::Memory, "*(u64 *)(r1 + 0) += r1"),
    (Item::Memory, "*(u64 *)(r1 + 0), r1"),
    (Item::Mark, "(u64 *)(r1 + 0)"),
    (Item::Mark, "(u64 *)(r1 + 0) = 5"),
    (Item::Mark, "(u64 *)(r1 + 0) += r1"),
    (Item::Mark, "(u64 *)(r1 + 0), r1"),
    (Item::Mark, "*)(r1 + 0)"),
    (Item::Mark, "*)(r1 + 0) = 5"),
    (Item::Mark, "*)(r1 + 0) += r1"),
    (Item::Mark, "*)(r1 + 0), r1"),
    (Item::Mark, ")(r1 + 0)"),
    (Item::Mark, ")(r1 + 0) = 5"),
    (Item::Mark, ")(r1 + 0) += r1"),
    (Item::Mark, ")(r1 + 0), r1"),
    (Item::Mark, "(r1 + 0)"),
    (Item::Mark, "(r1 + 0) = 5"),
    (Item::Mark, "(r1 + 0) += r1"),
    (Item::Mark, "(r1 + 0), r1"),
    (Item::Mark, ")"),
    (Item::Mark, ") = 5"),
    (Item::Mark, ") += r1"),
    (Item::Mark, "), r1"),
    (Item::Mark, ")r1"),
    (Item::Mark, ")w1"),
    (Item::Mark, "/= 5"),
    (Item::Mark, "%= 5"),
    (Item::Mark, ">>= 5"),
    (Item::Mark, ">= 5"),
    (Item::Mark, "<= 5"),
    (Item::Mark, "> 5 goto out"),
    (Item::Mark, ", r1"),
    (Item::Lock, "lock *(u64 *)(r1 + 0) += r1"),
    (Item::Fetch, "fetch *(u64 *)(r1 + 0) += r1"),
    (Item::Exchange, "xchg *(u64 *)(r1 + 0), r1"),
    (Item::CompareExchange, "cmpxchg *(u64 *)(r1 + 0), r1"),
    (Item::If, "if r1 == 5 goto out"),
    (Item::Goto, "goto out"),
    (Item::GotoLong, "gotol out"),
    (Item::Call, "call out"),
    (Item::Exit, "exit"),
    (Item::Ll, "ll"),
    (Item::Name, "out"),
];

/// A front with a part behind a blank, which ends a word.
pub fn joined(alloc: Global, front: &[u8], part: &[u8]) -> Result<Vec<u8>, AllocError>
    ensures { IfOk result (λ line. line.items ≡ front.now ++ 32 ∷ part.now) }
{
    let mut line = Vec::new(alloc);
    line.extend_from_slice(front)?;
    line.push(b' ')?;
    line.extend_from_slice(part)?;
    Ok(line)
}

/// Whether what is read is a statement; beside A2, one whose numbers are in their ranges.
fn passes(fault: LineFault, read: Option<Option<Statement>>) -> bool
    ensures { result ≡ passes fault (option_map (λ s. option_map seen s) read.entry) }
{
    match (fault, read) {
        (_, None) => false,
        (LineFault::NoForm, Some(_)) => true,
        (LineFault::OutOfRange, Some(said)) => said.is_some(),
    }
}

/// Whether an ending makes a statement of a front.
#[tactic(auto, unfolding(crate::specs::code::Endings::completes))]
fn completes(
    alloc: Global,
    fault: LineFault,
    front: &[u8],
    ending: &str,
) -> Result<bool, AllocError>
    ensures { IfOk result (λ is. is ≡ completes fault front.now ending.now) }
{
    let line = joined(alloc, front, ending.as_bytes())?;
    Ok(passes(fault, statement_of(&line)))
}

/// Whether one of some endings completes a front.
fn any_completes(
    alloc: Global,
    fault: LineFault,
    front: &[u8],
    endings: &[(Item, &'static str)],
) -> Result<bool, AllocError>
    ensures { IfOk result (λ is. is ≡ list_any (completes fault front.now) (map (λ e. e.1.now) endings.now)) }
{
    for (_, ending) in endings {
        if completes(alloc, fault, front, ending)? {
            return Ok(true);
        }
    }
    Ok(false)
}

/// Those of some endings that complete a front.
fn all_completing(
    alloc: Global,
    fault: LineFault,
    front: &[u8],
    endings: &[(Item, &'static str)],
) -> Result<Vec<(Item, &'static str)>, AllocError>
    ensures { IfOk result (λ found. map ending_seen found.items ≡ filter (λ e. completes fault front.now e.1) (map ending_seen endings.now)) }
{
    let mut found = Vec::new(alloc);
    for ending in endings {
        if completes(alloc, fault, front, ending.1)? {
            found.push(*ending)?;
        }
    }
    Ok(found)
}

/// Whether a statement begins with a front: whether one of the endings completes it.
#[tactic(auto, unfolding(crate::specs::code::Endings::endings))]
pub fn goes_on(alloc: Global, fault: LineFault, front: &[u8]) -> Result<bool, AllocError>
    ensures { IfOk result (λ is. is ≡ list_any (completes fault front.now) endings) }
{
    any_completes(alloc, fault, front, &ENDINGS)
}

/// What may stand behind a front of a statement, as [`line_stop`](crate::line_stop) tells it: the endings that complete it, those of
/// an item in a row.
#[tactic(auto, unfolding(crate::specs::code::Endings::item_endings))]
pub fn endings_of(
    alloc: Global,
    fault: LineFault,
    front: &[u8],
) -> Result<Vec<(Item, &'static str)>, AllocError>
    ensures { IfOk result (λ found. map ending_seen found.items ≡ completing fault front.now) }
{
    all_completing(alloc, fault, front, &ENDINGS)
}
