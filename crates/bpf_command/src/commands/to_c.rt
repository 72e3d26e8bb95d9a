//! `bpf to-c IN CERT OUT`.

ghost use Rattle.std.specs.Prelude.{IfOk, IfErr};
ghost use Rattle.bpf_answers.specs.Made.{making};
ghost use Rattle.bpf_command.specs.Emitted.{EmitFails, EmitSays, JudgedFails, JudgedSays, NotEmitted, NotJudged};

use crate::commands::emitting::{Text, promise_of};
use crate::request::Emitting;
use bpf_answers::{Answer, Failure, Places, certificate_at, program_at, put};
use bpf_check::check;
use bpf_insn::Code;
use std::alloc::Global;

/// Reads the certificate, judges whether it certifies the program, and writes the text once it does. The place for it is made only then.
fn emitted_of<'a, P: Places, C: Code>(
    alloc: Global,
    places: &mut P,
    program: &C,
    asked: Emitting<'a>,
) -> Result<Answer, Failure<'a>>
    ensures ok { IfOk result (JudgedSays P.opens (making P.creates P.ends P.Writer.contents) places.old (C.program program.now) asked.entry places.new) }
    ensures err { IfErr result (JudgedFails P.opens (making P.creates P.ends P.Writer.contents) places.old (C.program program.now) asked.entry places.new) }
    ensures names { IfErr result (λ _. NotJudged P.opens (making P.creates P.ends P.Writer.contents) places.old (C.program program.now) asked.entry places.new) }
{
    let certificate = match certificate_at(alloc, places, asked.certificate)? {
        Ok(certificate) => certificate,
        Err(error) => return Ok(Answer::NoCertificate(error)),
    };
    let promise = match check(program, &certificate) {
        Ok(checked) => promise_of(&checked),
        Err(refusal) => return Ok(Answer::NotCertified(refusal)),
    };
    let text = Text {
        program,
        promise,
        name: asked.name,
    };
    match put(places, asked.output, &text) {
        Ok(_) => Ok(Answer::Written),
        Err(failure) => Err(failure),
    }
}

/// Writes the function of C of an image that its certificate certifies. The image is judged before the certificate is opened, and the place for the
/// text is made once the certificate certifies it. Whether C can have the name is for the caller to know.
pub fn emitted<'a, P: Places>(
    alloc: Global,
    places: &mut P,
    asked: Emitting<'a>,
) -> Result<Answer, Failure<'a>>
    ensures ok { IfOk result (EmitSays P.opens (making P.creates P.ends P.Writer.contents) places.old asked.entry places.new) }
    ensures err { IfErr result (EmitFails P.opens (making P.creates P.ends P.Writer.contents) places.old asked.entry places.new) }
    ensures names { IfErr result (λ _. NotEmitted P.opens (making P.creates P.ends P.Writer.contents) places.old asked.entry places.new) }
{
    match program_at(alloc, places, asked.input, asked.order)? {
        Ok(program) => emitted_of(alloc, places, &program, asked),
        Err(error) => Ok(Answer::NoImage(error)),
    }
}
