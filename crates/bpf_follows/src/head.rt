//! The first line: of which runs notes speak.

ghost use Rattle.std.specs.Prelude.{◌≡◌};
ghost use Rattle.bpf_follows.specs.code.Reading.{padded_in, said_head};

use crate::digits::{number_in, short_in};
use bpf_kept::Bounds;
use bpf_streams::behind;

/// Whether the end of the first line says that contexts are blocks.
#[tactic(auto, unfolding(crate::specs::code::Reading::padded_in))]
fn is_padded(text: &[u8]) -> bool
    ensures { result ≡ padded_in text.now }
{
    behind(text, b" padded").is_some()
}

/// What the first line says, if it is one of notes: what is read here is spelled again, and compared.
#[tactic(auto, unfolding(crate::specs::code::Reading::said_head))]
pub fn said_head(text: &[u8]) -> Option<Bounds>
    ensures { result ≡ said_head text.now }
{
    let (length, rest) = short_in(text, b"bpfnotes 2 length ")?;
    let (turns, rest) = number_in(rest, b" turns ")?;
    let (untouched, rest) = short_in(rest, b" untouched ")?;
    let padded = is_padded(rest);
    Some(Bounds {
        length,
        padded,
        turns,
        untouched,
    })
}
