//! The first line: its version, the lengths of the contexts, and the steps.

ghost use Rattle.std.specs.Prelude.{◌≡◌, option_map, Some, IfOk, true};
ghost use Rattle.bpf_cert.specs.Line.{Line, Lengths, is_line};
ghost use Rattle.bpf_cert.specs.Line.Lengths.{one, range};
ghost use Rattle.bpf_cert.specs.Numeral.{is_numeral};
ghost use Rattle.bpf_cert.specs.Faults.{is_canonical, is_limited};
ghost use Rattle.bpf_cert.specs.Limits.{is_limited_header};
ghost use Rattle.bpf_cert.specs.code.Findings.{found, valued};
ghost use Rattle.bpf_cert.specs.Reading.{one_length_in, two_lengths_in, header_in};
ghost use Rattle.bpf_cert.specs.code.Seen.{header_seen};
ghost use Rattle.bpf_cert.specs.Spelling.{header_line};
ghost use Rattle.bpf_cert.specs.code.Standing.{HeaderIs, fields_in};

use crate::decimal::{between, is_numeral, is_plain, number};
use crate::fields::{next_field, three_fields, two_fields};
use crate::finding::{PartFault, both, tested};
use crate::num::are_plain;
use bpf_insn::MAX_CONTEXT;

/// What the first line says.
#[derive(Clone, Copy, Debug)]
pub struct Header {
    /// 1 or 2.
    pub version: u32,
    /// The least length of a context in bytes.
    pub least: u32,
    /// The greatest; in version 1 it is the least, too.
    pub most: u32,
    pub steps: u32,
}

/// The digits of a first line, of version 1 or of version 2.
#[derive(Clone, Copy)]
pub enum HeaderForm<'a> {
    One {
        len: &'a [u8],
        steps: &'a [u8],
    },
    Range {
        least: &'a [u8],
        most: &'a [u8],
        steps: &'a [u8],
    },
}

// The fields behind version 1: the length and the steps.
fn one_length(rest: Option<&[u8]>) -> Option<HeaderForm<'_>>
    ensures { HeaderIs (one_length_in (fields_in (option_map (λ x. x.now) rest.entry))) (option_map header_seen result) }
{
    let Some((len, steps)) = two_fields(rest) else {
        return None;
    };
    if both(is_numeral(len), is_numeral(steps)) {
        Some(HeaderForm::One { len, steps })
    } else {
        None
    }
}

// The fields behind version 2: the least length, the greatest, and the steps.
fn two_lengths(rest: Option<&[u8]>) -> Option<HeaderForm<'_>>
    ensures { HeaderIs (two_lengths_in (fields_in (option_map (λ x. x.now) rest.entry))) (option_map header_seen result) }
{
    let Some((least, most, steps)) = three_fields(rest) else {
        return None;
    };
    let lengths = both(is_numeral(least), is_numeral(most));
    if both(lengths, is_numeral(steps)) {
        Some(HeaderForm::Range { least, most, steps })
    } else {
        None
    }
}

/// The fields behind `bpfcert`.
pub fn header_form(rest: Option<&[u8]>) -> Option<HeaderForm<'_>>
    ensures { HeaderIs (header_in (fields_in (option_map (λ x. x.now) rest.entry))) (option_map header_seen result) }
{
    let Some((version, rest)) = next_field(rest) else {
        return None;
    };
    if version == b"1".as_slice() {
        return one_length(rest);
    }
    if version == b"2".as_slice() {
        return two_lengths(rest);
    }
    None
}

// What version 1 says: its length is the least and the greatest.
fn one_value(len: &[u8], steps: &[u8]) -> Result<Header, PartFault>
    requires len { is_numeral len.now ≡ true }
    requires steps { is_numeral steps.now ≡ true }
    ensures value { valued header_line result ≡ found is_canonical is_limited (Some (Line.header (one len.now) steps.now)) }
    ensures kept { IfOk result (λ h. is_limited_header h ≡ true) }
{
    let bytes = number(len);
    let most = number(steps);
    let limited = both(bytes <= MAX_CONTEXT as u128, between(1, 0xffff_ffff, most));
    match tested(are_plain(len, steps), limited) {
        Ok(()) => Ok(Header {
            version: 1,
            least: bytes as u32,
            most: bytes as u32,
            steps: most as u32,
        }),
        Err(flaw) => Err(flaw),
    }
}

// What version 2 says.
fn range_value(least: &[u8], most: &[u8], steps: &[u8]) -> Result<Header, PartFault>
    requires least { is_numeral least.now ≡ true }
    requires most { is_numeral most.now ≡ true }
    requires steps { is_numeral steps.now ≡ true }
    ensures value { valued header_line result ≡ found is_canonical is_limited (Some (Line.header (range least.now most.now) steps.now)) }
    ensures kept { IfOk result (λ h. is_limited_header h ≡ true) }
{
    let low = number(least);
    let high = number(most);
    let count = number(steps);
    let canonical = both(are_plain(least, most), is_plain(steps));
    let lengths = both(low <= high, high <= MAX_CONTEXT as u128);
    let limited = both(lengths, between(1, 0xffff_ffff, count));
    match tested(canonical, limited) {
        Ok(()) => Ok(Header {
            version: 2,
            least: low as u32,
            most: high as u32,
            steps: count as u32,
        }),
        Err(flaw) => Err(flaw),
    }
}

/// What a first line says.
pub fn header_value(form: HeaderForm<'_>) -> Result<Header, PartFault>
    requires { is_line (header_seen form) ≡ true }
    ensures value { valued header_line result ≡ found is_canonical is_limited (Some (header_seen form.entry)) }
    ensures kept { IfOk result (λ h. is_limited_header h ≡ true) }
{
    match form {
        HeaderForm::One { len, steps } => one_value(len, steps),
        HeaderForm::Range { least, most, steps } => range_value(least, most, steps),
    }
}
