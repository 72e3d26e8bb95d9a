//! What a line says, if it is one of notes: what is read here is spelled again, and compared.

ghost use Rattle.std.specs.Prelude.{◌≡◌, option_map};
ghost use Rattle.bpf_follows.specs.code.Reading.{extras_in, said_in, note_in};

use crate::digits::{number_in, said_number, short_in};
use crate::lists::{back_in, counters_in, facts_in, marks_in};
use bpf_kept::{FACTS, Note};
use bpf_streams::behind;

/// How many extra instructions there are: 0 where nothing is said of that.
#[tactic(auto, unfolding(crate::specs::code::Reading::extras_in))]
fn extras_in(text: &[u8]) -> Option<(u32, &[u8])>
    ensures { option_map (λ x. (x.0, x.1.now)) result ≡ extras_in text.now }
{
    if let Some(found) = short_in(text, b" extras ") {
        return Some(found);
    }
    Some((0, text))
}

/// The note that is said.
#[tactic(auto, unfolding(crate::specs::code::Reading::said_in))]
fn said_in(text: &[u8]) -> Option<Note>
    ensures { result ≡ said_in text.now }
{
    let (old, rest) = short_in(text, b" old ")?;
    let (extras, rest) = extras_in(rest)?;
    let (facts, rest) = facts_in::<FACTS>(rest);
    let (apart, rest) = marks_in(rest, b" apart ");
    let (zeros, rest) = marks_in(rest, b" zeros ");
    let (counters, rest) = counters_in(rest);
    let (back, rest) = back_in(rest);
    let (spare, rest) = said_number(rest, b" spare ");
    let (barred, _) = said_number(rest, b" barred ");
    Some(Note {
        old,
        extras,
        apart,
        zeros,
        facts,
        counters,
        back,
        spare,
        barred,
    })
}

/// What is said of a slot.
#[tactic(auto, unfolding(crate::specs::code::Reading::note_in))]
pub fn note_in(text: &[u8]) -> Option<Option<Note>>
    ensures { result ≡ note_in text.now }
{
    let (_slot, rest) = number_in(text, b"")?;
    if behind(rest, b" none").is_some() {
        return Some(None);
    }
    let note = said_in(rest)?;
    Some(Some(note))
}
