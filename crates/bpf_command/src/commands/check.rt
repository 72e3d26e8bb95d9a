//! `bpf check IN CERT`.

ghost use Rattle.std.specs.Prelude.{IfOk, IfErr, ◌∷◌, []};
ghost use Rattle.bpf_answers.specs.Loaded.{OpensFirst};
ghost use Rattle.bpf_answers.specs.Told.{IsQuiet};
ghost use Rattle.bpf_command.specs.Printed.{CheckSays, LoadedFails};

use crate::commands::judged::{WantedOfChecked, judged};
use crate::request::Checking;
use bpf_answers::{Answer, Failure, Places, image_at};
use bpf_insn::{ProgramView, image_is_injective};
use bpf_safety::{certified_is_flat_safe, certified_is_safe};
use std::alloc::Global;

/// Judges whether the certificate certifies the image's program, and answers what it promises, and where it is asked for
/// the work of the check. The image is judged before the certificate is opened. The program takes no memory.
pub fn checked<'a, P: Places>(
    alloc: Global,
    places: &mut P,
    asked: Checking<'a>,
) -> Result<Answer, Failure<'a>>
    ensures ok { IfOk result (CheckSays P.opens asked.entry.order places.old asked.entry.input.now asked.entry.certificate.now places.new asked.entry.work) }
    ensures err { IfErr result (LoadedFails P.opens asked.entry.order places.old asked.entry.input.now asked.entry.certificate.now places.new) }
    ensures quiet { IfErr result IsQuiet }
    ensures opened { OpensFirst P.opens (asked.entry.input.now ∷ asked.entry.certificate.now ∷ []) places.old places.new }
{
    image_is_injective();
    certified_is_safe();
    certified_is_flat_safe();
    let bytes = match image_at(alloc, places, asked.input)? {
        Ok(bytes) => bytes,
        Err(error) => return Ok(Answer::NoImage(error)),
    };
    match ProgramView::of(&bytes, asked.order) {
        Ok(program) => {
            let wish = WantedOfChecked::Promise {
                counted: asked.work,
            };
            judged(alloc, places, &program, asked.certificate, wish)
        }
        Err(error) => Ok(Answer::NoImage(error)),
    }
}
