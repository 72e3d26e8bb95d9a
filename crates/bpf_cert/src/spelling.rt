//! The spelling of each line.

ghost use Rattle.std.specs.Prelude.{◌≡◌, ◌≤◌, ◌<◌, ◌+◌, ◌++◌, ◌∷◌, [], length, codes, decimal, All};
ghost use Rattle.bpf_cert.specs.Numeral.{digits_of_int};
ghost use Rattle.bpf_cert.specs.Line.{range_text, signed_text, number_text, place_text, content_text, measure_text, term_text};
ghost use Rattle.bpf_cert.specs.Spelling.{unsigned_parts, signed_parts, bits_parts, number_of, content_of, spelled_place, measure_of, term_of, header_line, function_line, label_line, line_with_end};
ghost use Rattle.bpf_cert.specs.code.SpellingParts.{is_cons, parts_tail, terms_tail, area_text};
ghost use Rattle.bpf_cert.specs.View.{function_view, label_view};
ghost use Rattle.bpf_cert.specs.Line.Line.{entry};
ghost use Rattle.bpf_state.specs.declared.known.SlotState.TheVariants.{Spilled};

use crate::certificate::{Function, Label, Measure, Term};
use crate::header::Header;
use arrayvec::ArrayVec;
use bpf_num::{KnownBits, Num, Signed, Unsigned};
use bpf_state::{Area, Place, Pointer, SlotState};
use itoa::{Buffer, Integer};

/// A line of text.
pub type LineText = ArrayVec<u8, 256>;

#[tactic(auto, using(crate::proofs::SpellingLemmas::texts))]
fn word(line: &mut LineText, bytes: &[u8])
    requires { length line.old.items + length bytes.now ≤ 256 }
    ensures text { line.new.items ≡ line.old.items ++ bytes.now }
    ensures grows { length line.new.items ≡ length line.old.items + length bytes.now }
{
    match line.try_extend_from_slice(bytes) {
        Ok(()) => {}
        Err(_) => unreachable!(),
    }
}

#[tactic(auto, using(crate::proofs::SpellingLemmas::texts))]
fn number<I: Integer>(line: &mut LineText, n: I)
    requires { length line.old.items + I.MAX_STR_LEN ≤ 256 }
    ensures text { line.new.items ≡ line.old.items ++ I.text n }
    ensures grows { length line.new.items ≤ length line.old.items + I.MAX_STR_LEN }
{
    let mut buffer = Buffer::new();
    word(line, buffer.format(n).as_bytes());
}

#[tactic(auto, using(crate::proofs::SpellingLemmas::texts))]
fn signed_range(line: &mut LineText, lo: i64, hi: i64)
    requires { length line.old.items + 42 ≤ 256 }
    ensures text { line.new.items ≡ line.old.items ++ (range_text (signed_text (digits_of_int lo)) (signed_text (digits_of_int hi))) }
    ensures grows { length line.new.items ≤ length line.old.items + 42 }
{
    number(line, lo);
    word(line, b"..");
    number(line, hi);
}

#[tactic(auto, using(crate::proofs::SpellingLemmas::texts))]
fn unsigned_part(line: &mut LineText, u: Unsigned)
    requires { length line.old.items + 43 ≤ 256 }
    ensures text { line.new.items ≡ line.old.items ++ (codes "u" ++ range_text (decimal u.lo) (decimal u.hi)) }
    ensures grows { length line.new.items ≤ length line.old.items + 43 }
{
    word(line, b"u");
    number(line, u.lo());
    word(line, b"..");
    number(line, u.hi());
}

#[tactic(auto, using(crate::proofs::SpellingLemmas::texts))]
fn signed_part(line: &mut LineText, s: Signed)
    requires { length line.old.items + 43 ≤ 256 }
    ensures text { line.new.items ≡ line.old.items ++ (codes "s" ++ range_text (signed_text (digits_of_int s.lo)) (signed_text (digits_of_int s.hi))) }
    ensures grows { length line.new.items ≤ length line.old.items + 43 }
{
    word(line, b"s");
    signed_range(line, s.lo(), s.hi());
}

#[tactic(auto, using(crate::proofs::SpellingLemmas::texts))]
fn bits_part(line: &mut LineText, k: KnownBits)
    requires { length line.old.items + 42 ≤ 256 }
    ensures text { line.new.items ≡ line.old.items ++ (codes "k" ++ decimal k.value ++ codes "/" ++ decimal k.mask) }
    ensures grows { length line.new.items ≤ length line.old.items + 42 }
{
    word(line, b"k");
    number(line, k.value());
    word(line, b"/");
    number(line, k.mask());
}

#[tactic(auto, using(crate::proofs::SpellingLemmas::texts))]
fn has_unsigned(u: Unsigned) -> bool
    ensures { result ≡ is_cons (unsigned_parts u) }
{
    u.lo() != 0 || u.hi() != u64::MAX
}

#[tactic(auto, using(crate::proofs::SpellingLemmas::texts))]
fn has_signed(s: Signed) -> bool
    ensures { result ≡ is_cons (signed_parts s) }
{
    s.lo() != i64::MIN || s.hi() != i64::MAX
}

#[tactic(auto, using(crate::proofs::SpellingLemmas::texts))]
fn has_bits(k: KnownBits) -> bool
    ensures { result ≡ is_cons (bits_parts k) }
{
    k.value() != 0 || k.mask() != u64::MAX
}

// The part behind others.
#[tactic(auto, using(crate::proofs::SpellingLemmas::texts))]
fn signed_behind(line: &mut LineText, s: Signed)
    requires { length line.old.items + 44 ≤ 256 }
    ensures text { line.new.items ≡ line.old.items ++ (parts_tail (signed_parts s)) }
    ensures grows { length line.new.items ≤ length line.old.items + 44 }
{
    if has_signed(s) {
        word(line, b",");
        signed_part(line, s);
    }
}

// The part behind others.
#[tactic(auto, using(crate::proofs::SpellingLemmas::texts))]
fn bits_behind(line: &mut LineText, k: KnownBits)
    requires { length line.old.items + 43 ≤ 256 }
    ensures text { line.new.items ≡ line.old.items ++ (parts_tail (bits_parts k)) }
    ensures grows { length line.new.items ≤ length line.old.items + 43 }
{
    if has_bits(k) {
        word(line, b",");
        bits_part(line, k);
    }
}

#[tactic(auto, using(crate::proofs::SpellingLemmas::texts))]
fn num(line: &mut LineText, n: Num)
    requires { length line.old.items + 130 ≤ 256 }
    ensures text { line.new.items ≡ line.old.items ++ (number_text (number_of n)) }
    ensures grows { length line.new.items ≤ length line.old.items + 130 }
{
    if has_unsigned(n.unsigned()) {
        unsigned_part(line, n.unsigned());
        signed_behind(line, n.signed());
        bits_behind(line, n.bits());
    } else if has_signed(n.signed()) {
        signed_part(line, n.signed());
        bits_behind(line, n.bits());
    } else if has_bits(n.bits()) {
        bits_part(line, n.bits());
    } else {
        word(line, b"*");
    }
}

#[tactic(auto, using(crate::proofs::SpellingLemmas::texts))]
fn area(line: &mut LineText, area: Area)
    requires { length line.old.items + 3 ≤ 256 }
    ensures text { line.new.items ≡ line.old.items ++ (area_text area) }
    ensures grows { length line.new.items ≤ length line.old.items + 3 }
{
    match area {
        Area::Context => word(line, b"ctx"),
        Area::Frame => word(line, b"fp"),
    }
}

#[tactic(auto, using(crate::proofs::SpellingLemmas::texts))]
fn pointer(line: &mut LineText, pointer: Pointer)
    requires { length line.old.items + 45 ≤ 256 }
    ensures text { line.new.items ≡ line.old.items ++ (content_text (content_of (Spilled pointer))) }
    ensures grows { length line.new.items ≤ length line.old.items + 45 }
{
    area(line, pointer.area);
    signed_range(line, pointer.lo, pointer.hi);
}

#[tactic(auto, using(crate::proofs::SpellingLemmas::texts))]
fn content(line: &mut LineText, value: SlotState)
    requires { length line.old.items + 130 ≤ 256 }
    ensures text { line.new.items ≡ line.old.items ++ (content_text (content_of value)) }
    ensures grows { length line.new.items ≤ length line.old.items + 130 }
{
    match value {
        SlotState::Bytes(mask) => {
            word(line, b"b");
            number(line, mask);
        }
        SlotState::Word(n) => num(line, n),
        SlotState::Spilled(p) => pointer(line, p),
    }
}

#[tactic(auto, using(crate::proofs::SpellingLemmas::texts))]
fn place(line: &mut LineText, place: Place)
    requires { length line.old.items + 4 ≤ 256 }
    ensures text { line.new.items ≡ line.old.items ++ (place_text (spelled_place place)) }
    ensures grows { length line.new.items ≤ length line.old.items + 4 }
{
    match place {
        Place::Register(r) => {
            word(line, b"r");
            number(line, r as u8);
        }
        Place::Slot(k) => {
            word(line, b"s");
            number(line, k);
        }
    }
}

#[tactic(auto, using(crate::proofs::SpellingLemmas::texts))]
fn measure(line: &mut LineText, measure: Measure)
    requires { length line.old.items + 27 ≤ 256 }
    ensures text { line.new.items ≡ line.old.items ++ (measure_text (measure_of measure)) }
    ensures grows { length line.new.items ≤ length line.old.items + 27 }
{
    match measure {
        Measure::Down(down) => place(line, down),
        Measure::Up(up, limit) => {
            word(line, b"(");
            number(line, limit);
            word(line, b"-");
            place(line, up);
            word(line, b")");
        }
    }
}

#[tactic(auto, using(crate::proofs::SpellingLemmas::texts))]
fn term(line: &mut LineText, term: &Term)
    requires { length line.old.items + 39 ≤ 256 }
    ensures text { line.new.items ≡ line.old.items ++ term_text (term_of term.now) }
    ensures grows { length line.new.items ≤ length line.old.items + 39 }
{
    word(line, b"+");
    number(line, term.weight);
    word(line, b"*");
    measure(line, term.measure);
}

#[tactic(auto, using(crate::proofs::SpellingLemmas::texts))]
fn terms(line: &mut LineText, terms: &[Term])
    requires room { length line.old.items + 160 ≤ 256 }
    requires few { length terms.now ≤ 4 }
    ensures text { line.new.items ≡ line.old.items ++ terms_tail terms.now }
    ensures grows { length line.new.items ≤ length line.old.items + 160 }
{
    for item in terms {
        word(line, b" ");
        term(line, item);
    }
}

/// The line of the whole certificate.
#[tactic(auto, using(crate::proofs::SpellingLemmas::texts))]
pub fn header_text(header: Header) -> LineText
    ensures { result.items ≡ line_with_end (header_line header) }
{
    let mut line = LineText::new();
    if header.version == 1 {
        word(&mut line, b"bpfcert 1 ");
        number(&mut line, header.least);
    } else {
        word(&mut line, b"bpfcert 2 ");
        number(&mut line, header.least);
        word(&mut line, b" ");
        number(&mut line, header.most);
    }
    word(&mut line, b" ");
    number(&mut line, header.steps);
    word(&mut line, b"\n");
    line
}

/// The line of a function.
#[tactic(auto, using(crate::proofs::SpellingLemmas::texts))]
pub fn function_text(function: &Function) -> LineText
    ensures { result.items ≡ line_with_end (function_line (function_view function.now)) }
{
    let mut line = LineText::new();
    word(&mut line, b"fn ");
    number(&mut line, function.first);
    word(&mut line, b" ");
    number(&mut line, function.depth);
    word(&mut line, b" ");
    num(&mut line, function.ret);
    word(&mut line, b"\n");
    line
}

/// The line of a label, and of its budget.
#[tactic(auto, using(crate::proofs::SpellingLemmas::texts))]
pub fn label_text(label: &Label) -> LineText
    ensures { result.items ≡ line_with_end (label_line (label_view label.now)) }
{
    let mut line = LineText::new();
    word(&mut line, b"at ");
    number(&mut line, label.slot);
    word(&mut line, b" ");
    number(&mut line, label.budget.base);
    terms(&mut line, label.budget.terms.as_slice());
    word(&mut line, b"\n");
    line
}

/// The line of what a place holds.
#[tactic(auto, using(crate::proofs::SpellingLemmas::texts))]
pub fn entry_text(at: Place, value: SlotState) -> LineText
    ensures { result.items ≡ line_with_end (entry (spelled_place at) (content_of value)) }
{
    let mut line = LineText::new();
    place(&mut line, at);
    word(&mut line, b" ");
    content(&mut line, value);
    word(&mut line, b"\n");
    line
}
