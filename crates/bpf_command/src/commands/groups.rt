//! `bpf groups IN`.

ghost use Rattle.std.specs.Prelude.{IfOk, IfErr, ◌∷◌, []};
ghost use Rattle.bpf_answers.specs.Loaded.{ImageFails, OpensFirst};
ghost use Rattle.bpf_answers.specs.Told.{IsQuiet};
ghost use Rattle.bpf_command.specs.Printed.{GroupsSay, ImageSays};

use crate::request::Grouping;
use bpf_answers::{Answer, Failure, Places, image_at};
use bpf_insn::ProgramView;
use std::alloc::Global;

/// The conformance groups that occur in an image.
pub fn grouped<'a, P: Places>(
    alloc: Global,
    places: &mut P,
    asked: Grouping<'a>,
) -> Result<Answer, Failure<'a>>
    ensures ok { IfOk result (ImageSays P.opens asked.entry.order places.old asked.entry.input.now places.new GroupsSay) }
    ensures err { IfErr result (ImageFails P.opens places.old asked.entry.input.now places.new) }
    ensures quiet { IfErr result IsQuiet }
    ensures opened { OpensFirst P.opens (asked.entry.input.now ∷ []) places.old places.new }
{
    let bytes = match image_at(alloc, places, asked.input)? {
        Ok(bytes) => bytes,
        Err(error) => return Ok(Answer::NoImage(error)),
    };
    match ProgramView::of(&bytes, asked.order) {
        Ok(program) => Ok(Answer::Occur(program.groups())),
        Err(error) => Ok(Answer::NoImage(error)),
    }
}
