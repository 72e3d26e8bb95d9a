//! Texts parted at a byte, and quoted.

use bpf_cert::cut;
use std::fmt;
use std::str::from_utf8;

/// What stands in front of the first such byte, and what stands behind it, if it is there.
pub fn parted(text: &[u8], mark: u8) -> (&[u8], Option<&[u8]>) {
    match cut(text, mark) {
        Some((front, rest)) => (front, Some(rest)),
        None => (text, None),
    }
}

/// A part of a text as it stands, between quotes, or words in its place.
#[derive(Clone, Copy)]
pub struct Excerpt<'a> {
    pub open: &'static str,
    pub text: &'a str,
    pub close: &'static str,
}

impl<'a> Excerpt<'a> {
    /// Words without quotes.
    pub fn plain(text: &'a str) -> Self {
        Excerpt {
            open: "",
            text,
            close: "",
        }
    }

    /// At most so many bytes of a text; other words where they aren't UTF-8.
    pub fn of(bytes: &'a [u8], most: usize, other: &'static str) -> Self {
        let shown = bytes.get(..bytes.len().min(most)).unwrap_or(bytes);
        match from_utf8(shown) {
            Ok(text) => Excerpt {
                open: "`",
                text,
                close: "`",
            },
            Err(_) => Excerpt::plain(other),
        }
    }
}

impl<'a> fmt::Display for Excerpt<'a> {
    fn fmt<W: fmt::Write>(&self, f: &mut fmt::Formatter<W>) -> fmt::Result {
        let (open, text, close) = (self.open, self.text, self.close);
        write!(f, "{open}{text}{close}")
    }
}
