//! Why a text is no certificate, in words.

use crate::texts::{Excerpt, parted};
use bpf_cert::{CertError, LAST_SLOT, MAX_BASE, MAX_DEPTH, MAX_FUNCTIONS, MAX_TERMS, MAX_WEIGHT};
use bpf_insn::{MAX_CONTEXT, MAX_SLOTS};
use bpf_state::FARTHEST;
use bpf_streams::{Page, Tell};
use std::io::{self, Write};

/// What a line of a certificate begins with.
#[derive(Clone, Copy)]
enum LineKind {
    Header,
    Function,
    Label,
    Register,
    Slot,
    End,
    Other,
}

/// The words that lines begin with.
const WORDS: [(&[u8], LineKind); 4] = [
    (b"bpfcert", LineKind::Header),
    (b"fn", LineKind::Function),
    (b"at", LineKind::Label),
    (b"end", LineKind::End),
];

/// What a line begins with that begins with none of those words.
fn kind_of_place(word: &[u8]) -> LineKind {
    let [letter, digit, ..] = word else {
        return LineKind::Other;
    };
    match (*letter, digit.is_ascii_digit()) {
        (b'r', true) => LineKind::Register,
        (b's', true) => LineKind::Slot,
        _ => LineKind::Other,
    }
}

/// What a line begins with.
fn kind_of(line: &[u8]) -> LineKind {
    let word = parted(line, b' ').0;
    for (name, kind) in &WORDS {
        if word == *name {
            return *kind;
        }
    }
    kind_of_place(word)
}

/// The form of a line, and what its fields mean.
fn form_of(kind: LineKind) -> &'static str {
    match kind {
        LineKind::Header => "`bpfcert 1 <len> <steps>` or `bpfcert 2 <least> <most> <steps>`",
        LineKind::Function => "`fn <first> <depth> <num>`, as `fn 0 1 *`",
        LineKind::Label => "`at <slot> <base> <term>...`, as `at 1 2 +2*r6` or `at 1 2 +2*(10-r6)`",
        LineKind::Register => "`r<i> <what>`, as `r6 u1..10`, `r1 ctx0..0` or `r3 *`",
        LineKind::Slot => "`s<k> <what>`, as `s1 *`, `s1 b15` or `s2 ctx0..0`",
        LineKind::End => "`end`",
        LineKind::Other => "`bpfcert`, `fn`, `at`, `r<i>`, `s<k>` or `end`",
    }
}

/// The lines that may follow a line.
fn followers(kind: LineKind) -> &'static str {
    match kind {
        LineKind::Header => "a line `fn <first> <depth> <num>` must follow the first",
        LineKind::Function => "a line `at <slot> <base> <term>...` must follow a function's",
        LineKind::Label | LineKind::Register | LineKind::Slot => {
            "`r<i> <what>`, `s<k> <what>`, another `at` or `fn`, or `end` may stand here"
        }
        LineKind::End => "nothing may follow `end`",
        LineKind::Other =>
            "the first line must be `bpfcert 1 <len> <steps>` or `bpfcert 2 <least> <most> <steps>`",
    }
}

/// Whether a line of a kind may follow a line of another one. Registers behind slots are out of order, which is K2.
fn may_follow(before: LineKind, kind: LineKind) -> bool {
    match before {
        LineKind::Header => matches!(kind, LineKind::Function),
        LineKind::Function => matches!(kind, LineKind::Label),
        LineKind::Label | LineKind::Register | LineKind::Slot => !matches!(
            kind,
            LineKind::Header | LineKind::Other
        ),
        LineKind::End => false,
        LineKind::Other => matches!(kind, LineKind::Header),
    }
}

// ---- the line at fault

/// A line, and the one before it.
#[derive(Clone, Copy)]
struct LineAt<'a> {
    before: &'a [u8],
    line: &'a [u8],
    is_there: bool,
    /// Whether an LF ends it.
    is_ended: bool,
}

/// The line with a number, counted from 1.
fn line_at(bytes: &[u8], number: usize) -> LineAt<'_> {
    let mut before: &[u8] = &[];
    let mut rest = bytes;
    for _ in 1..number {
        let (line, more) = parted(rest, b'\n');
        before = line;
        rest = more.unwrap_or(&[]);
    }
    let (line, more) = parted(rest, b'\n');
    LineAt {
        before,
        line,
        is_there: !rest.is_empty(),
        is_ended: more.is_some(),
    }
}

/// A line as it stands, its first 80 bytes at most.
fn quoted(line: &[u8]) -> Excerpt<'_> {
    Excerpt::of(line, 80, "a line that is no text")
}

/// Why a line is refused: what is at fault, and behind a colon the rule that it breaks, in two parts.
#[derive(Clone, Copy)]
struct LineFinding<'a> {
    what: Excerpt<'a>,
    colon: &'static str,
    rule: &'static str,
    more: &'static str,
}

impl<'a> LineFinding<'a> {
    /// What is at fault, and the rule.
    fn of(what: Excerpt<'a>, rule: (&'static str, &'static str)) -> Self {
        LineFinding {
            what,
            colon: ": ",
            rule: rule.0,
            more: rule.1,
        }
    }

    /// Words alone.
    fn told(words: &'static str) -> Self {
        LineFinding {
            what: Excerpt::plain(words),
            colon: "",
            rule: "",
            more: "",
        }
    }
}

// ---- K1

/// Whether a line behind one of a kind is the byte that ends a string of C.
fn is_string_end(before: LineKind, line: &[u8]) -> bool {
    matches!(before, LineKind::End) && matches!(line, [0])
}

/// What is wrong with a line that stands where a line may stand; None where it is the line's kind or its form.
fn fault_of_line(line: &[u8], is_ended: bool) -> Option<&'static str> {
    if line.contains(&b'\r') {
        return Some("a CR stands in it, and lines end with LF alone");
    }
    if !is_ended {
        return Some("no LF ends the line");
    }
    None
}

/// What was expected of a line behind one of a kind.
fn syntax_rule(found: LineAt<'_>, before: LineKind) -> (&'static str, &'static str) {
    if !found.is_there || matches!(before, LineKind::End) {
        return (followers(before), "");
    }
    if let Some(fault) = fault_of_line(found.line, found.is_ended) {
        return (fault, "");
    }
    let kind = kind_of(found.line);
    if may_follow(before, kind) {
        ("a line that begins so has the form ", form_of(kind))
    } else {
        (followers(before), "")
    }
}

/// K1: what was expected of a line.
fn syntax_finding(found: LineAt<'_>) -> LineFinding<'_> {
    let before = kind_of(found.before);
    if is_string_end(before, found.line) {
        let rule = "a certificate's length doesn't count the one that ends a string of C";
        return LineFinding::of(Excerpt::plain("a byte 0 behind the last line"), (rule, ""));
    }
    let what = if found.is_there {
        quoted(found.line)
    } else {
        Excerpt::plain("the text ends here without `end`")
    };
    LineFinding::of(what, syntax_rule(found, before))
}

// ---- K2

/// What makes the text of a number the one spelling of it.
const SPELLING: &str =
    "; the parts of a number come in the order u, s, k, one that says nothing is left out, and 0 has no sign";

/// Whether a number in a line has a needless zero in front.
fn has_padded_number(line: &[u8]) -> bool {
    let mut last = b' ';
    let mut is_zero = false;
    for byte in line {
        let is_digit = byte.is_ascii_digit();
        if is_zero && is_digit {
            return true;
        }
        is_zero = *byte == b'0' && !last.is_ascii_digit();
        last = *byte;
    }
    false
}

/// What makes a line of a kind the one spelling of what it says.
fn order_of(kind: LineKind) -> (&'static str, &'static str) {
    match kind {
        LineKind::Function => ("functions rise by their first slots", SPELLING),
        LineKind::Label => (
            "a function's labels rise by their slots, and terms by their places, registers first",
            "",
        ),
        LineKind::Register | LineKind::Slot => (
            "registers rise and then slots, each once, and one that may hold anything has no line",
            SPELLING,
        ),
        LineKind::Header | LineKind::End | LineKind::Other => (
            "each certificate has one spelling",
            "",
        ),
    }
}

/// K2: why a line isn't the one spelling of what it says.
fn spelling_rule(line: &[u8]) -> (&'static str, &'static str) {
    if has_padded_number(line) {
        ("a number has a needless zero in front", "")
    } else {
        order_of(kind_of(line))
    }
}

// ---- K3

const LONG_LINE: &str = "a line has at most 256 bytes";

/// The limits of a number.
const BOUNDS: &str =
    "; u is 0 to 18446744073709551615, s -9223372036854775808 to 9223372036854775807, lo is at most hi, value and mask share no bit";

/// The limits of the fields of a line of a kind.
fn limits_of(kind: LineKind) -> (&'static str, &'static str) {
    match kind {
        LineKind::Header => (
            "lengths are 0 to 4096, the least first, and steps 1 to 4294967295; a function must follow",
            "",
        ),
        LineKind::Function => (
            "first is 0 to 65535, depth 1 to 8; there are at most 256 functions, each with a label",
            BOUNDS,
        ),
        LineKind::Label => (
            "slot is 0 to 65535, base at most 1099511627776, a weight 1 to 1048576, a limit at most 18446744073709551615, a place r0 to r9 or s1 to s64; there are at most 4 terms and 65536 labels",
            "",
        ),
        LineKind::Register => (
            "registers are r0 to r9, offsets -2147483648 to 2147483648",
            BOUNDS,
        ),
        LineKind::Slot => (
            "slots are s1 to s64, masks b1 to b254, offsets -2147483648 to 2147483648",
            BOUNDS,
        ),
        LineKind::End => (
            "there must be a function, and each function must have a label",
            "",
        ),
        LineKind::Other => (LONG_LINE, ""),
    }
}

// The numbers in these texts. There are as many labels as slots.
const _: () = prove!(MAX_CONTEXT == 4096 && LAST_SLOT == 65535 && MAX_SLOTS == 65536);

const _: () = prove!(MAX_DEPTH == 8 && MAX_FUNCTIONS == 256 && MAX_TERMS == 4);

const _: () = prove!(MAX_BASE == 1099511627776 && MAX_WEIGHT == 1048576 && FARTHEST == 2147483648);

/// K3: the limits of what stands in a line.
fn limit_finding(line: &[u8]) -> LineFinding<'_> {
    if line.len() > 256 {
        LineFinding::told(LONG_LINE)
    } else {
        LineFinding::of(quoted(line), limits_of(kind_of(line)))
    }
}

// ---- refusals

/// Why a line is refused.
fn finding_of<'a>(found: LineAt<'a>, error: CertError) -> LineFinding<'a> {
    let line = found.line;
    match error {
        CertError::Syntax { .. } => syntax_finding(found),
        CertError::NotCanonical { .. } => LineFinding::of(quoted(line), spelling_rule(line)),
        CertError::Limit { .. } => limit_finding(line),
        CertError::Memory | CertError::Read { .. } => LineFinding::told(error.text()),
    }
}

/// Tells a refusal.
fn tell_error<W: Tell>(out: &mut W, bytes: &[u8], error: CertError) {
    let (number, at) = (error.number(), error.line());
    let found = finding_of(line_at(bytes, at), error);
    let (what, colon, rule, more) = (found.what, found.colon, found.rule, found.more);
    write!(out, "K{number} at line {at}: {what}{colon}{rule}{more}\n");
}

/// Tells in words why bytes are refused as a certificate: the line, and what was expected of it. A fault of the writer, or a
/// write of no bytes, ends it.
pub fn write_fault<W: Write>(bytes: &[u8], error: CertError, out: &mut W) -> io::Result<()> {
    let mut page = Page::new(out);
    tell_error(&mut page, bytes, error);
    page.finish()
}
