//! The parts of a text.

ghost use Rattle.std.specs.Prelude.{◌≡◌, ◌<◌, [], ◌∷◌, length, IfSome};
ghost use Rattle.std.specs.Option.{option_map_or};
ghost use Rattle.bpf_classic.specs.Text.{ends_line, ends_word, is_border, parts};

/// Where a part of a text ends: at the end of a line, or at what stands between words.
#[derive(Clone, Copy)]
pub(crate) enum Border {
    Line,
    Word,
}

fn ends_line(byte: u8) -> bool
    ensures { result ≡ ends_line byte }
{
    byte == b'\n'
}

fn ends_word(byte: u8) -> bool
    ensures { result ≡ ends_word byte }
{
    byte == b' ' || byte == b'\t' || byte == b'\r' || byte == b',' || byte == b'{' || byte == b'}'
}

fn is_border(border: Border, byte: u8) -> bool
    ensures { result ≡ is_border border byte }
{
    match border {
        Border::Line => ends_line(byte),
        Border::Word => ends_word(byte),
    }
}

/// The first part, and what stands behind its border, if there is one.
pub(crate) fn cut<'a>(border: Border, text: &'a [u8]) -> (&'a [u8], Option<&'a [u8]>)
    ensures split { parts border text.now ≡ result.0.now ∷ option_map_or (λ rest. parts border rest.now) result.1 [] }
    ensures shorter { IfSome result.1 (λ rest. length rest.now < length text.now) }
{
    for at in 0..text.len() {
        if is_border(border, text[at]) {
            return (&text[..at], Some(&text[at + 1..]));
        }
    }
    (text, None)
}
