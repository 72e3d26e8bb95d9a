//! Cutting a text at a byte, or into fields.

ghost use Rattle.std.specs.Prelude.{◌≡◌, ◌+◌, ◌<◌, length, option_map, IfSome};
ghost use Rattle.bpf_cert.specs.Reading.{cut};
ghost use Rattle.bpf_cert.specs.code.Standing.{fields_in, uncons, two_of, three_of};

/// What stands before the first such byte and after it.
pub fn cut(text: &[u8], mark: u8) -> Option<(&[u8], &[u8])>
    ensures parts { option_map (λ x. (x.0.now, x.1.now)) result ≡ cut mark text.now }
    ensures sizes { IfSome result (λ x. length x.0.now + length x.1.now < length text.now) }
{
    for (at, byte) in text.iter().enumerate() {
        if *byte == mark {
            return Some((&text[..at], &text[at + 1..]));
        }
    }
    None
}

/// A field, and what stands behind it.
type Split<'a> = Option<(&'a [u8], Option<&'a [u8]>)>;

/// The next field: between two stands one space.
pub fn next_field(rest: Option<&[u8]>) -> Split<'_>
    ensures { option_map (λ x. (x.0.now, fields_in (option_map (λ y. y.now) x.1))) result ≡ uncons (fields_in (option_map (λ x. x.now) rest.entry)) }
{
    let Some(text) = rest else {
        return None;
    };
    match cut(text, b' ') {
        Some((field, more)) => Some((field, Some(more))),
        None => Some((text, None)),
    }
}

/// Two fields and no more.
pub fn two_fields(rest: Option<&[u8]>) -> Option<(&[u8], &[u8])>
    ensures { option_map (λ x. (x.0.now, x.1.now)) result ≡ two_of (fields_in (option_map (λ x. x.now) rest.entry)) }
{
    let (first, rest) = next_field(rest)?;
    let (second, rest) = next_field(rest)?;
    match next_field(rest) {
        Some(_) => None,
        None => Some((first, second)),
    }
}

/// Three fields and no more.
pub fn three_fields(rest: Option<&[u8]>) -> Option<(&[u8], &[u8], &[u8])>
    ensures { option_map (λ x. (x.0.now, x.1.now, x.2.now)) result ≡ three_of (fields_in (option_map (λ x. x.now) rest.entry)) }
{
    let (first, rest) = next_field(rest)?;
    let (second, rest) = next_field(rest)?;
    let (third, rest) = next_field(rest)?;
    match next_field(rest) {
        Some(_) => None,
        None => Some((first, second, third)),
    }
}
