//! Where a line that is refused leaves the language: its fronts are completed by endings, token by token, and read as a statement each.

ghost use Rattle.std.specs.Prelude.{◌≡◌, IfOk, MatchOption, IfSome, IsTrue, option_map, Err};
ghost use Rattle.std.specs.Result.{is_ok};
ghost use Rattle.bpf_text.specs.code.Endings.{token_in, is_number_behind, range_behind};
ghost use Rattle.bpf_text.specs.code.LineReading.{line_in};
ghost use Rattle.bpf_text.specs.Stop.{Stops, LineStops};

use crate::endings::{goes_on, joined};
use crate::line::{LineFault, statement_in, unlabelled};
use crate::token::{skip_blanks, word};
use std::alloc::{AllocError, Global};

/// Where a line is refused.
#[derive(Drop)]
pub struct Stop<'a> {
    /// A1 or A2.
    pub fault: LineFault,
    /// The tokens behind the labels that a statement begins with, each behind a blank; with A2, a statement whose numbers are
    /// in their ranges.
    pub front: Vec<u8>,
    /// The text from the next token on, with which none begins; empty where the line ends.
    pub rest: &'a [u8],
}

/// The numbers that may stand somewhere.
#[derive(Clone, Copy)]
pub enum Range {
    /// -32,768 to 32,767.
    Bits16,
    /// -2,147,483,648 to 2,147,483,647.
    Bits32,
    /// 0 to 18,446,744,073,709,551,615, with `ll` behind it.
    Bits64,
}

/// The first token of a text, a word or a mark, and what stands behind it.
#[tactic(auto, unfolding(crate::specs::code::Endings::token_in))]
pub fn first_token(text: &[u8]) -> Option<(&[u8], &[u8])>
    ensures { option_map (λ x. (x.0.now, x.1.now)) result ≡ token_in text.now }
{
    if let Some(found) = word(text) {
        return Some(found);
    }
    match skip_blanks(text) {
        [] => None,
        marks => Some(marks.split_at(1)),
    }
}

/// Where a text that is no statement stops to be one.
fn stop_of(alloc: Global, fault: LineFault, text: &[u8]) -> Result<Stop<'_>, AllocError>
    ensures fault { IfOk result (λ stop. stop.fault ≡ fault) }
    ensures stops { IfOk result (λ stop. Stops fault text.now stop.front.items stop.rest.now) }
{
    let mut front = Vec::new(alloc);
    let mut rest = text;
    'tokens: while let Some((token, more)) = first_token(rest) {
        let longer = joined(alloc, &front, token)?;
        if !goes_on(alloc, fault, &longer)? {
            break;
        }
        front = longer;
        rest = more;
    }
    let rest = skip_blanks(rest);
    Ok(Stop { fault, front, rest })
}

/// Where a line without its comment is refused; None if it isn't: if it is any number of labels and then at most one statement,
/// with numbers in their ranges.
pub fn line_stop(alloc: Global, line: &[u8]) -> Result<Option<Stop<'_>>, AllocError>
    ensures refused { IfOk result (λ found. MatchOption found (IsTrue (is_ok (line_in line.now))) (λ stop. line_in line.now ≡ Err stop.fault)) }
    ensures stops { IfOk result (λ found. IfSome found (λ stop. LineStops stop.fault line.now stop.front.items stop.rest.now)) }
{
    match statement_in(line) {
        Ok(_) => Ok(None),
        Err(fault) => Ok(Some(stop_of(alloc, fault, unlabelled(line))?)),
    }
}

/// Whether a statement with numbers in their ranges begins with a front and a number behind it.
fn fits(alloc: Global, front: &[u8], number: &str) -> Result<bool, AllocError>
    ensures { IfOk result (λ is. is ≡ is_number_behind front.now number.now) }
{
    let longer = joined(alloc, front, number.as_bytes())?;
    goes_on(alloc, LineFault::OutOfRange, &longer)
}

/// The greatest range of a number that may stand behind a front of a statement, as [`line_stop`] tells it.
pub fn range_behind(alloc: Global, front: &[u8]) -> Result<Range, AllocError>
    ensures { IfOk result (λ range. range ≡ range_behind front.now) }
{
    if !fits(alloc, front, "32769")? {
        return Ok(Range::Bits16);
    }
    if fits(alloc, front, "2147483649")? {
        Ok(Range::Bits64)
    } else {
        Ok(Range::Bits32)
    }
}
