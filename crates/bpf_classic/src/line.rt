//! What a line tells.

ghost use Rattle.std.specs.Prelude.{◌≡◌};
ghost use Rattle.bpf_classic.specs.Text.{line_of, none_found, numbers, row_of, with_number, with_word};

use crate::border::{Border, cut};
use crate::number::number;
use crate::raw::Raw;

/// The numbers of a line so far, as those of an instruction.
#[derive(Clone, Copy)]
pub(crate) struct NumbersSoFar {
    count: u32,
    code: u32,
    jt: u32,
    jf: u32,
    k: u32,
}

/// What a line tells: nothing, how many instructions follow, or one.
#[derive(Clone, Copy)]
pub(crate) enum TextLine {
    Blank,
    Count(u32),
    Row(Raw),
    Other,
}

/// No numbers.
fn none_found() -> NumbersSoFar
    ensures { result ≡ none_found }
{
    NumbersSoFar {
        count: 0,
        code: 0,
        jt: 0,
        jf: 0,
        k: 0,
    }
}

/// The same with one more number; None where there are four.
fn with_number(f: NumbersSoFar, number: u32) -> Option<NumbersSoFar>
    ensures { result ≡ with_number f number }
{
    match f.count {
        0 => Some(NumbersSoFar {
            count: 1,
            code: number,
            ..f
        }),
        1 => Some(NumbersSoFar {
            count: 2,
            jt: number,
            ..f
        }),
        2 => Some(NumbersSoFar {
            count: 3,
            jf: number,
            ..f
        }),
        3 => Some(NumbersSoFar {
            count: 4,
            k: number,
            ..f
        }),
        _ => None,
    }
}

/// The same with one more word, if that is a number. Between two borders side by side there is none.
fn with_word(f: NumbersSoFar, word: &[u8]) -> Option<NumbersSoFar>
    ensures { result ≡ with_word f word.now }
{
    if word.is_empty() {
        return Some(f);
    }
    with_number(f, number(word)?)
}

/// The numbers of a line; None where something else stands there, or more than four.
fn numbers(line: &[u8]) -> Option<NumbersSoFar>
    ensures { result ≡ numbers line.now }
{
    let mut found = none_found();
    let mut rest = Some(line);
    'words: while let Some(text) = rest {
        let (word, behind) = cut(Border::Word, text);
        rest = behind;
        found = with_word(found, word)?;
    }
    Some(found)
}

/// The instruction of four numbers.
fn row_of(f: NumbersSoFar) -> TextLine
    ensures { result ≡ row_of f }
{
    if f.code < 0x1_0000 && f.jt < 0x100 && f.jf < 0x100 {
        TextLine::Row(Raw {
            code: f.code as u16,
            jt: f.jt as u8,
            jf: f.jf as u8,
            k: f.k,
        })
    } else {
        TextLine::Other
    }
}

pub(crate) fn line_of(line: &[u8]) -> TextLine
    ensures { result ≡ line_of line.now }
{
    let Some(found) = numbers(line) else {
        return TextLine::Other;
    };
    match found.count {
        0 => TextLine::Blank,
        1 => TextLine::Count(found.code),
        4 => row_of(found),
        _ => TextLine::Other,
    }
}
