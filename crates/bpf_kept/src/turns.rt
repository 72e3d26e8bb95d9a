//! Of how many turns notes speak.

ghost use Rattle.std.specs.Prelude.{◌≡◌, false};
ghost use Rattle.std.specs.Option.{option_map_or, is_some};
ghost use Rattle.bpf_kept.specs.Matching.{counts, has_counter, shown_turns};

use crate::bounds::Turns;
use crate::notes::{Note, TurnsLeft};

/// Whether a place has a counter.
fn is_counter(place: Option<TurnsLeft>) -> bool
    ensures { result ≡ is_some place }
{
    match place {
        Some(_counter) => true,
        None => false,
    }
}

/// Whether a note has one.
fn counts(note: &Note) -> bool
    ensures { result ≡ counts note.now }
{
    note.counters.iter().any(|place| is_counter(*place))
}

/// Whether what is noted has one, if something is noted.
fn counts_here(place: &Option<Note>) -> bool
    ensures { result ≡ option_map_or counts place.now false }
{
    match place {
        Some(note) => counts(note),
        None => false,
    }
}

/// Whether something counts turns in front of an instruction.
pub fn has_counter(notes: &[Option<Note>]) -> bool
    ensures { result ≡ has_counter notes.now }
{
    notes.iter().any(counts_here)
}

/// Of how many turns notes speak that match for so many: where nothing counts, of any number.
pub fn turns_shown(notes: &[Option<Note>], turns: u64) -> Turns
    ensures { result ≡ shown_turns notes.now turns }
{
    if has_counter(notes) {
        Turns::Most(turns)
    } else {
        Turns::Any
    }
}
