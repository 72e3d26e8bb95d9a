//! What facts and counters are read as: what is read here is spelled again, and compared.

ghost use Rattle.std.specs.Prelude.{◌≡◌, option_map};
ghost use Rattle.bpf_follows.specs.code.Reading.{differs_in, low_in, by_in, fact_in, place_in, placed_in, turns_in, counted_in};

use crate::digits::{at_in, short_in};
use crate::same::same;
use crate::terms::{holder_in, term_in};
use bpf_kept::{Fact, Holder, TurnsLeft};
use bpf_streams::behind;

/// That a place differs by a term.
#[tactic(auto, unfolding(crate::specs::code::Reading::differs_in))]
fn differs_in(of: Option<Holder>, text: &[u8]) -> Option<(Fact, &[u8])>
    ensures { option_map (λ x. (x.0, x.1.now)) result ≡ differs_in of text.now }
{
    let (base, rest) = holder_in(text)?;
    let (t, rest) = term_in(rest)?;
    let by = Some(t);
    Some((Fact { of, base, by }, rest))
}

/// That its low half is the same.
#[tactic(auto, unfolding(crate::specs::code::Reading::low_in))]
fn low_in(of: Option<Holder>, text: &[u8]) -> Option<(Fact, &[u8])>
    ensures { option_map (λ x. (x.0, x.1.now)) result ≡ low_in of text.now }
{
    let rest = behind(text, b"~")?;
    let (base, rest) = holder_in(rest)?;
    Some((Fact { of, base, by: None }, rest))
}

/// What a place holds by another one. Where that isn't said, it is the same.
#[tactic(auto, unfolding(crate::specs::code::Reading::by_in))]
fn by_in(of: Option<Holder>, text: &[u8]) -> Option<(Fact, &[u8])>
    ensures { option_map (λ x. (x.0, x.1.now)) result ≡ by_in of text.now }
{
    if let Some(rest) = behind(text, b"=") {
        return differs_in(of, rest);
    }
    if let Some(found) = low_in(of, text) {
        return Some(found);
    }
    Some((same(of), text))
}

/// The fact at the front, and what stands behind it.
#[tactic(auto, unfolding(crate::specs::code::Reading::fact_in))]
fn fact_in(text: &[u8]) -> Option<(Fact, &[u8])>
    ensures { option_map (λ x. (x.0, x.1.now)) result ≡ fact_in text.now }
{
    let (of, rest) = holder_in(text)?;
    by_in(of, rest)
}

/// What stands behind the place of a fact, which is named behind one that says nothing.
#[tactic(auto, unfolding(crate::specs::code::Reading::place_in))]
fn place_in(text: &[u8], gap: bool, at: usize) -> Option<&[u8]>
    ensures { option_map (λ x. x.now) result ≡ place_in gap at text.now }
{
    if gap {
        at_in(text, b" #", at, b":")
    } else {
        behind(text, b" ")
    }
}

/// The fact of a place.
#[tactic(auto, unfolding(crate::specs::code::Reading::placed_in))]
pub fn placed_in(text: &[u8], gap: bool, at: usize) -> Option<(Fact, &[u8])>
    ensures { option_map (λ x. (x.0, x.1.now)) result ≡ placed_in gap at text.now }
{
    let rest = place_in(text, gap, at)?;
    fact_in(rest)
}

/// The counter at the front, and what stands behind it.
#[tactic(auto, unfolding(crate::specs::code::Reading::turns_in))]
fn turns_in(text: &[u8]) -> Option<(Option<TurnsLeft>, &[u8])>
    ensures { option_map (λ x. (x.0, x.1.now)) result ≡ turns_in text.now }
{
    let (place, rest) = holder_in(text)?;
    let of = place?;
    let (head, rest) = short_in(rest, b" head ")?;
    let (taken, rest) = short_in(rest, b" taken ")?;
    Some((Some(TurnsLeft { of, head, taken }), rest))
}

/// The counter of a place.
#[tactic(auto, unfolding(crate::specs::code::Reading::counted_in))]
pub fn counted_in(text: &[u8], at: usize) -> Option<(Option<TurnsLeft>, &[u8])>
    ensures { option_map (λ x. (x.0, x.1.now)) result ≡ counted_in at text.now }
{
    let rest = at_in(text, b" counter ", at, b":")?;
    turns_in(rest)
}
