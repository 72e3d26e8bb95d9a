//! `bpf asm IN OUT`.

ghost use Rattle.std.specs.Prelude.{IfOk, IfErr};
ghost use Rattle.bpf_answers.specs.Made.{making};
ghost use Rattle.bpf_command.specs.Printed.{AsmSays, AsmFails, NotAssembled};

use crate::request::Assembling;
use bpf_answers::{Answer, Failure, Places, put, text_at};
use bpf_text::assemble;
use std::alloc::Global;

/// Writes the image of a text. The place for it is made only where there is an image.
pub fn assembled<'a, P: Places>(
    alloc: Global,
    places: &mut P,
    asked: Assembling<'a>,
) -> Result<Answer, Failure<'a>>
    ensures ok { IfOk result (AsmSays P.opens (making P.creates P.ends P.Writer.contents) places.old asked.entry places.new) }
    ensures err { IfErr result (AsmFails P.opens (making P.creates P.ends P.Writer.contents) places.old asked.entry places.new) }
    ensures names { IfErr result (λ _. NotAssembled P.opens (making P.creates P.ends P.Writer.contents) places.old asked.entry places.new) }
{
    let text = text_at(alloc, places, asked.input)?;
    let program = match assemble(alloc, text.as_str(), asked.order) {
        Ok(program) => program,
        Err(error) => return Ok(Answer::NoText(error)),
    };
    match put(places, asked.output, &program) {
        Ok(_) => Ok(Answer::Written),
        Err(failure) => Err(failure),
    }
}
