//! `bpf list IN`, and the same with `--slots` and `--bytes`.

ghost use Rattle.std.specs.Prelude.{◌≡◌, IfOk, IfErr, None, Some, ◌∷◌, []};
ghost use Rattle.bpf_answers.specs.Loaded.{ImageFails, OpensFirst};
ghost use Rattle.bpf_answers.specs.Told.{IsQuiet};
ghost use Rattle.bpf_command.specs.Printed.{ImageSays, ListSays, notes_of};

use crate::request::Listing;
use bpf_answers::{Answer, CommentedListing, Failure, Places, image_at, program_at};
use bpf_insn::{Order, decode};
use bpf_text::Notes;
use std::alloc::Global;

/// The instructions of an image, one a line.
fn listed_plainly<'a, P: Places>(
    alloc: Global,
    places: &mut P,
    input: &'a str,
    order: Order,
) -> Result<Answer, Failure<'a>>
    ensures ok { IfOk result (ImageSays P.opens order places.old input.entry.now places.new (ListSays None)) }
    ensures err { IfErr result (ImageFails P.opens places.old input.entry.now places.new) }
    ensures quiet { IfErr result IsQuiet }
    ensures opened { OpensFirst P.opens (input.entry.now ∷ []) places.old places.new }
{
    match program_at(alloc, places, input, order)? {
        Ok(program) => Ok(Answer::Lists(program)),
        Err(error) => Ok(Answer::NoImage(error)),
    }
}

/// The same with comments.
fn listed_with<'a, P: Places>(
    alloc: Global,
    places: &mut P,
    input: &'a str,
    notes: Notes,
    order: Order,
) -> Result<Answer, Failure<'a>>
    ensures ok { IfOk result (ImageSays P.opens order places.old input.entry.now places.new (ListSays (Some notes))) }
    ensures err { IfErr result (ImageFails P.opens places.old input.entry.now places.new) }
    ensures quiet { IfErr result IsQuiet }
    ensures opened { OpensFirst P.opens (input.entry.now ∷ []) places.old places.new }
{
    let bytes = match image_at(alloc, places, input)? {
        Ok(bytes) => bytes,
        Err(error) => return Ok(Answer::NoImage(error)),
    };
    match decode(alloc, &bytes, order) {
        Ok(program) => Ok(Answer::Annotates(CommentedListing::new(program, bytes, notes))),
        Err(error) => Ok(Answer::NoImage(error)),
    }
}

/// The comments that two flags ask for.
fn notes_of(slots: bool, bytes: bool) -> Option<Notes>
    ensures { result ≡ notes_of slots bytes }
{
    match (slots, bytes) {
        (true, true) => Some(Notes::Both),
        (true, false) => Some(Notes::Slots),
        (false, true) => Some(Notes::Bytes),
        (false, false) => None,
    }
}

/// The instructions of an image, one a line, with their slots and their bytes in comments where that is asked for.
pub fn listed<'a, P: Places>(
    alloc: Global,
    places: &mut P,
    asked: Listing<'a>,
) -> Result<Answer, Failure<'a>>
    ensures ok { IfOk result (ImageSays P.opens asked.entry.order places.old asked.entry.input.now places.new
        (ListSays (notes_of asked.entry.slots asked.entry.bytes))) }
    ensures err { IfErr result (ImageFails P.opens places.old asked.entry.input.now places.new) }
    ensures quiet { IfErr result IsQuiet }
    ensures opened { OpensFirst P.opens (asked.entry.input.now ∷ []) places.old places.new }
{
    match notes_of(asked.slots, asked.bytes) {
        Some(notes) => listed_with(alloc, places, asked.input, notes, asked.order),
        None => listed_plainly(alloc, places, asked.input, asked.order),
    }
}
