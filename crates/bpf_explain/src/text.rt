//! Diagnostics of the assembler: why a text is no program, with the line, the column and the word at fault, and how the line may go on there.

use crate::texts::{Excerpt, parted};
use bpf_insn::{BuildError, Code};
use bpf_streams::{Count, Page, Tell};
use bpf_text::{
    Item, LineFault, Range, Stop, TextError, code_at, endings_of, first_token, label_name,
    line_stop, range_behind, target_name,
};
use std::alloc::{AllocError, Global};
use std::collections::BTreeMap;
use std::io::{self, Write};

/// A line without its comment.
fn code_of(line: &[u8]) -> &[u8] {
    parted(line, b';').0
}

// ---- words

/// A word as it stands, its first 40 bytes at most.
fn quoted(word: &[u8]) -> Excerpt<'_> {
    Excerpt::of(word, 40, "a byte that is no ASCII")
}

/// The word or mark in front of a text; empty where there is none.
fn token_of(text: &[u8]) -> &[u8] {
    match first_token(text) {
        Some((token, _)) => token,
        None => &[],
    }
}

/// A front, each of whose tokens stands behind a blank, without its last token, and that token.
fn last_parted(front: &[u8]) -> (&[u8], &[u8]) {
    for end in (0..front.len()).rev() {
        let (rest, token) = front.split_at(end);
        if let [b' ', token @ ..] = token {
            return (rest, token);
        }
    }
    (&[], front)
}

/// The last token of a front.
fn last_token(front: &[u8]) -> &[u8] {
    last_parted(front).1
}

/// The column of what stands from here on, counted from 1.
fn column_of(line: &[u8], rest: &[u8]) -> usize {
    line.len().saturating_sub(rest.len()).saturating_add(1)
}

/// A line without the blanks at its end.
fn without_blanks(line: &[u8]) -> &[u8] {
    let mut rest = line;
    for _ in 0..line.len() {
        match rest {
            [front @ .., b' ' | b'\t' | b'\r'] => rest = front,
            _ => break,
        }
    }
    rest
}

// ---- A1

/// What is at fault in a line from a column on, and why, in two parts.
#[derive(Clone, Copy)]
struct TextFinding<'a> {
    column: usize,
    what: Excerpt<'a>,
    rule: &'static str,
    more: &'static str,
}

/// Tells what is at fault in a line.
fn tell_finding<W: Tell>(out: &mut W, found: TextFinding<'_>) {
    let (column, what, rule, more) = (found.column, found.what, found.rule, found.more);
    write!(out, ", column {column}: {what}{rule}{more}\n");
}

/// Whether a comment of another language stands here.
fn is_comment(rest: &[u8]) -> bool {
    rest.starts_with(b"//") || rest.starts_with(b"#")
}

/// What stands in front of a colon behind the labels of a line, where it begins no instruction.
fn no_label<'a>(stop: &Stop<'a>) -> Option<&'a [u8]> {
    let (front, behind) = parted(stop.rest, b':');
    if behind.is_none() || !stop.front.is_empty() || is_comment(front) {
        None
    } else {
        Some(front)
    }
}

/// Whether the name of a label begins one of some endings.
fn has_name(endings: &[(Item, &'static str)]) -> bool {
    for (item, _) in endings {
        if let Item::Name = *item {
            return true;
        }
    }
    false
}

/// Whether an ending is told beside the one in front of it: of those that begin with one item the first is; where a name may
/// stand any word is one, and is told as such.
fn is_told(item: Item, before: Item, is_name: bool) -> bool {
    match item {
        Item::Mark => true,
        Item::End => false,
        Item::Sign | Item::Name => item as u8 != before as u8,
        _ => !is_name && item as u8 != before as u8,
    }
}

/// What is told behind the endings that aren't the line's end.
fn last_words(endings: &[(Item, &'static str)]) -> &'static str {
    match endings.first() {
        Some((Item::End, _)) if endings.len() == 1 => "the line must end here\n",
        Some((Item::End, _)) => ", or end here\n",
        _ => "\n",
    }
}

/// How a line may go on: the endings that are told.
fn tell_each<W: Tell>(out: &mut W, endings: &[(Item, &'static str)]) {
    let is_name = has_name(endings);
    let mut comma = "the line may go on so: ";
    let mut before = Item::End;
    for (item, ending) in endings {
        if is_told(*item, before, is_name) {
            write!(out, "{comma}{ending}");
            comma = ", ";
        }
        before = *item;
    }
    out.say(last_words(endings));
}

/// How a line may go on from where it stops.
fn tell_endings<'a, W: Tell>(alloc: Global, out: &mut W, stop: &Stop<'a>) {
    if let Ok(endings) = endings_of(alloc, stop.fault, &stop.front) {
        tell_each(out, &endings);
    }
}

/// Where a line leaves all forms.
fn place_finding<'s>(line: &[u8], rest: &'s [u8]) -> TextFinding<'s> {
    let (what, rule) = if rest.is_empty() {
        (Excerpt::plain("the line ends here"), "")
    } else {
        (quoted(token_of(rest)), " can't stand here")
    };
    TextFinding {
        column: column_of(line, rest),
        what,
        rule,
        more: "",
    }
}

/// Where a line leaves all forms, and how it may go on.
fn tell_place<'a, W: Tell>(alloc: Global, out: &mut W, line: &[u8], stop: &Stop<'a>) {
    tell_finding(out, place_finding(line, stop.rest));
    if is_comment(stop.rest) {
        out.say("a comment begins with `;`\n");
    } else {
        tell_endings(alloc, out, stop);
    }
}

/// What should be a label.
fn label_finding(column: usize, name: &[u8]) -> TextFinding<'_> {
    TextFinding {
        column,
        what: quoted(name),
        rule: " is no label: a name has 1 to 64 letters, digits and `_`, and begins with no digit",
        more: "",
    }
}

// ---- A2

/// The words in front of distances.
const LEADING: [&[u8]; 3] = [b"goto", b"gotol", b"call"];

/// Whether a number behind a front is the distance of a jump or a call: behind their word, and a sign.
fn is_distance(front: &[u8]) -> bool {
    let (rest, token) = last_parted(front);
    let is_signed = matches!(token, [b'+' | b'-']);
    let word = if is_signed { last_token(rest) } else { token };
    for leading in &LEADING {
        if word == *leading {
            return true;
        }
    }
    false
}

/// What a number behind a front is, and its range.
fn range_text(front: &[u8], range: Range) -> &'static str {
    match (range, is_distance(front)) {
        (Range::Bits16, false) => "an offset is -32768 to 32767",
        (Range::Bits16, true) => "a distance of goto and if is -32768 to 32767",
        (Range::Bits32, false) => "a constant here is -2147483648 to 2147483647",
        (Range::Bits32, true) => "a distance of gotol and call is -2147483648 to 2147483647",
        (Range::Bits64, _) => CONSTANT_RANGE,
    }
}

/// The numbers that a constant of a move may be.
const CONSTANT_RANGE: &str =
    "a constant is -2147483648 to 2147483647, with `ll` behind it 0 to 18446744073709551615";

const OUT_OF_RANGE: &str = " is out of its range: ";

/// A number behind a front, with its sign.
fn signed<'s>(front: &[u8], number: &'s [u8]) -> Excerpt<'s> {
    let word = quoted(number);
    let open = if matches!(last_token(front), [b'-']) {
        "minus `"
    } else {
        "`"
    };
    Excerpt { open, ..word }
}

/// A number behind a front that is out of its range.
fn excess_finding<'s>(
    alloc: Global,
    column: usize,
    front: &[u8],
    number: &'s [u8],
) -> TextFinding<'s> {
    let (rule, more) = match range_behind(alloc, front) {
        Ok(range) => (OUT_OF_RANGE, range_text(front, range)),
        Err(_) => (" is out of its range", ""),
    };
    TextFinding {
        column,
        what: signed(front, number),
        rule,
        more,
    }
}

/// A number that is out of the range of constants.
fn constant_finding(column: usize, what: Excerpt<'_>) -> TextFinding<'_> {
    TextFinding {
        column,
        what,
        rule: OUT_OF_RANGE,
        more: CONSTANT_RANGE,
    }
}

/// Which number is out of its range: the next one; or the last one, for the lack of an `ll` or for the one that stands there.
fn number_finding<'s>(alloc: Global, line: &'s [u8], stop: &'s Stop<'_>) -> TextFinding<'s> {
    let token = token_of(stop.rest);
    let column = column_of(line, stop.rest);
    if token.is_empty() {
        let number = last_token(&stop.front);
        let column = column_of(without_blanks(line), number);
        return constant_finding(column, quoted(number));
    }
    if let b"ll" = token {
        return constant_finding(column, Excerpt::plain("the number before `ll`"));
    }
    excess_finding(alloc, column, &stop.front, token)
}

/// A1: where a line leaves all forms, or what in it is no label. A2: which number is out of its range.
fn tell_stop<'a, W: Tell>(alloc: Global, out: &mut W, line: &[u8], stop: &Stop<'a>) {
    match (stop.fault, no_label(stop)) {
        (LineFault::OutOfRange, _) => tell_finding(out, number_finding(alloc, line, stop)),
        (LineFault::NoForm, Some(name)) => {
            tell_finding(out, label_finding(column_of(line, stop.rest), name));
        }
        (LineFault::NoForm, None) => tell_place(alloc, out, line, stop),
    }
}

/// Why a line is refused by itself.
fn tell_line<W: Tell>(alloc: Global, out: &mut W, text: &[u8], number: usize) {
    let line = code_at(text, number);
    match line_stop(alloc, line) {
        Ok(Some(stop)) => tell_stop(alloc, out, line, &stop),
        _ => {
            let memory = TextError::Memory;
            write!(out, ": {memory}\n");
        }
    }
}

// ---- A3 to A6

/// Notes the labels of a line by their names, but those that are noted at a line above.
fn note_labels<'a>(
    labels: &mut BTreeMap<&'a [u8], usize>,
    line: &'a [u8],
    number: usize,
) -> Result<(), AllocError> {
    let mut rest = code_of(line);
    for _ in 0..line.len() {
        let (front, Some(more)) = parted(rest, b':') else {
            break;
        };
        if let Some(name) = label_name(front) {
            labels.entry(name)?.or_insert(number);
        }
        rest = more;
    }
    Ok(())
}

/// The labels above a line by their names, each with the first line that it stands in.
fn labels_above(
    alloc: Global,
    text: &[u8],
    number: usize,
) -> Result<BTreeMap<&[u8], usize>, AllocError> {
    let mut labels = BTreeMap::new(alloc);
    let mut rest = text;
    for above in 1..number {
        let (line, more) = parted(rest, b'\n');
        note_labels(&mut labels, line, above)?;
        rest = more.unwrap_or(&[]);
    }
    Ok(labels)
}

/// The name of the first label of a line that stands above, too, and the line there.
fn second_label(
    alloc: Global,
    text: &[u8],
    number: usize,
) -> Result<Option<(&[u8], usize)>, AllocError> {
    let labels = labels_above(alloc, text, number)?;
    let mut rest = code_at(text, number);
    for _ in 0..rest.len() {
        let (front, Some(more)) = parted(rest, b':') else {
            break;
        };
        if let Some(name) = label_name(front) {
            if let Some(above) = labels.get(name) {
                return Ok(Some((name, *above)));
            }
        }
        rest = more;
    }
    Ok(None)
}

/// A3: which label is defined again, and where it was before.
fn tell_second<W: Tell>(alloc: Global, out: &mut W, text: &[u8], number: usize) {
    match second_label(alloc, text, number) {
        Ok(Some((name, above))) => {
            let word = quoted(name);
            write!(out, ": the label {word} is defined at line {above}, too\n");
        }
        Ok(None) => out.say(": a label is defined twice in the line\n"),
        Err(_) => out.say(": a label is defined again\n"),
    }
}

/// A4 and A5: what is wrong with the label that a jump names.
fn tell_target<W: Tell>(out: &mut W, text: &[u8], number: usize, words: &str) {
    let word = quoted(target_name(code_at(text, number)).unwrap_or(&[]));
    write!(out, ": the label {word} {words}\n");
}

/// A6: why the instructions are no program.
fn tell_program<W: Tell>(out: &mut W, error: BuildError) {
    let cause = error.number();
    write!(out, " (E{cause}): ");
    match error {
        BuildError::Length => {
            out.say("a program has 1 to 65536 slots, 2 for each 64-bit constant\n");
        }
        BuildError::Target { .. } => out.say(
            "the jump or call leads to no instruction: in front of the program, behind it, or into a 64-bit constant\n",
        ),
        BuildError::NoEncoding { .. } | BuildError::Memory => write!(out, "{error}\n"),
    }
}

/// Tells a refusal.
fn tell_error<W: Tell>(alloc: Global, out: &mut W, text: &[u8], error: TextError) {
    let (number, line) = (error.number(), error.line());
    if let TextError::Memory = error {
        return write!(out, "A{number}: {error}\n");
    }
    write!(out, "A{number} at line {line}");
    match error {
        TextError::Form { .. } | TextError::Range { .. } => tell_line(alloc, out, text, line),
        TextError::DefinedAgain { .. } => tell_second(alloc, out, text, line),
        TextError::Undefined { .. } => tell_target(out, text, line, "isn't defined"),
        TextError::TooFar { .. } => tell_target(
            out,
            text,
            line,
            "is more than 32767 slots away: `gotol` reaches it",
        ),
        TextError::Program { error, .. } => tell_program(out, error),
        TextError::Memory => {}
    }
}

/// Tells in words why a text is refused as a program's: the column, the word at fault, and how the line may go on from there. A
/// fault of the writer, or a write of no bytes, ends it.
pub fn write_text_refusal<W: Write>(
    alloc: Global,
    text: &[u8],
    error: TextError,
    out: &mut W,
) -> io::Result<()> {
    let mut page = Page::new(out);
    tell_error(alloc, &mut page, text, error);
    page.finish()
}

/// Tells how many slots a program has. A fault of the writer, or a write of no bytes, ends it.
pub fn write_program<C: Code, W: Write>(program: &C, out: &mut W) -> io::Result<()> {
    let mut page = Page::new(out);
    let slots = Count(program.slots(), "slot");
    write!(page, "a program of {slots}\n");
    page.finish()
}
