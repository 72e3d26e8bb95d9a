//! `bpf run-checked IN CERT HEX`, and the same with `--context FILE` or `--contexts FILE` in place of HEX; with `--notes NOTES` where a run ends at a
//! trap.

ghost use Rattle.std.specs.Prelude.{Some, IfOk, IfErr, ◌∷◌, []};
ghost use Rattle.bpf_answers.specs.Loaded.{OpensFirst};
ghost use Rattle.bpf_command.specs.RunNames.{names_checked, names_checked_on};
ghost use Rattle.bpf_command.specs.Given.{CheckedBesideFails, CheckedBesideLeaves, CheckedBesideSays, CheckedFails, CheckedLeaves, CheckedSays, FailsBehind, NotedEachFails, NotedEachLeaves, NotedEachSays, NotedGivenFails, NotedGivenLeaves, NotedGivenSays, NotedOneSays, OnNamed, OnWord, OneCheckedFails};
ghost use Rattle.bpf_command.specs.Printed.{FailsWith};

use crate::commands::judged::{NotedRunning, WantedOfChecked, judged, judged_each};
use crate::request::{CheckedRunning, Contexts};
use bpf_answers::{Answer, Failure, Places, Reply, context_at, context_of, notes_at, program_at};
use std::alloc::Global;
use std::io::Write;

/// Runs the image's program on a context once the certificate has certified it.
fn run_certified<'a, P: Places>(
    alloc: Global,
    places: &mut P,
    running: NotedRunning<'a, '_>,
    context: &[u8],
) -> Result<Answer, Failure<'a>>
    ensures ok { IfOk result (NotedOneSays P.opens places.old running.entry places.new context.now) }
    ensures err { IfErr result (OneCheckedFails P.opens places.old running.entry.asked places.new) }
    ensures opened { OpensFirst P.opens (running.entry.asked.input.now ∷ running.entry.asked.certificate.now ∷ []) places.old places.new }
{
    let asked = running.asked;
    match program_at(alloc, places, asked.input, asked.order)? {
        Ok(program) => {
            let wish = WantedOfChecked::Run {
                context,
                notes: running.notes,
            };
            judged(alloc, places, &program, asked.certificate, wish)
        }
        Err(error) => Ok(Answer::NoImage(error)),
    }
}

/// Runs the image's program on the context that a word spells, once the certificate has certified it. The context's word is judged first, then
/// the image, the certificate, the check, and the context's length last.
fn ran_checked<'a, P: Places>(
    alloc: Global,
    places: &mut P,
    running: NotedRunning<'a, '_>,
    hex: &'a str,
) -> Result<Answer, Failure<'a>>
    ensures ok { IfOk result (OnWord hex.entry.now (NotedOneSays P.opens places.old running.entry places.new)) }
    ensures err { IfErr result (FailsWith places.old places.new hex.entry.now (OneCheckedFails P.opens places.old running.entry.asked places.new)) }
    ensures opened { OpensFirst P.opens (running.entry.asked.input.now ∷ running.entry.asked.certificate.now ∷ []) places.old places.new }
{
    let context = match context_of(alloc, hex) {
        Ok(context) => context,
        Err(error) => return Err(Failure::BadContext(error)),
    };
    run_certified(alloc, places, running, &context)
}

/// The same with the context at a name, which is read first.
fn ran_checked_at<'a, P: Places>(
    alloc: Global,
    places: &mut P,
    running: NotedRunning<'a, '_>,
    context: &'a str,
) -> Result<Answer, Failure<'a>>
    ensures ok { IfOk result (OnNamed P.opens places.old context.entry.now (λ between. NotedOneSays P.opens between running.entry places.new)) }
    ensures err { IfErr result (FailsBehind P.opens places.old context.entry.now places.new
        (λ between. OneCheckedFails P.opens between running.entry.asked places.new)) }
    ensures opened { OpensFirst P.opens (context.entry.now ∷ running.entry.asked.input.now ∷ running.entry.asked.certificate.now ∷ []) places.old places.new }
{
    let context = context_at(alloc, places, context)?;
    run_certified(alloc, places, running, &context)
}

/// The same with each context of the lines at a name, which is opened once the certificate has certified the program. Each answer is printed
/// as it is found.
fn ran_checked_each<'a, P: Places, W: Write>(
    alloc: Global,
    places: &mut P,
    out: &mut W,
    running: NotedRunning<'a, '_>,
    contexts: &'a str,
) -> Result<Reply, Failure<'a>>
    ensures ok { IfOk result (NotedEachSays P.opens places.old running.entry contexts.entry places.new (W.contents out.old) (W.contents out.new)) }
    ensures err { IfErr result (NotedEachFails P.opens places.old running.entry contexts.entry places.new (W.contents out.old) (W.contents out.new)) }
    ensures begun { IfErr result (λ _. NotedEachLeaves P.opens places.old running.entry contexts.entry places.new (W.contents out.old) (W.contents out.new)) }
    ensures opened { OpensFirst P.opens (running.entry.asked.input.now ∷ running.entry.asked.certificate.now ∷ contexts.entry.now ∷ []) places.old places.new }
{
    let asked = running.asked;
    match program_at(alloc, places, asked.input, asked.order)? {
        Ok(program) => judged_each(alloc, places, out, &program, running, contexts),
        Err(error) => Ok(Reply::One(Answer::NoImage(error))),
    }
}

/// Runs the image's program on the contexts that are given, once the certificate has certified it, beside notes or none.
fn ran_checked_given<'a, P: Places, W: Write>(
    alloc: Global,
    places: &mut P,
    out: &mut W,
    running: NotedRunning<'a, '_>,
) -> Result<Reply, Failure<'a>>
    ensures ok { IfOk result (NotedGivenSays P.opens places.old running.entry places.new (W.contents out.old) (W.contents out.new)) }
    ensures err { IfErr result (NotedGivenFails P.opens places.old running.entry places.new (W.contents out.old) (W.contents out.new)) }
    ensures begun { IfErr result (λ _. NotedGivenLeaves P.opens places.old running.entry places.new (W.contents out.old) (W.contents out.new)) }
    ensures opened { OpensFirst P.opens (names_checked_on running.entry.asked.input.now running.entry.asked.certificate.now running.entry.asked.contexts) places.old places.new }
{
    match running.asked.contexts {
        Contexts::Word(hex) => match ran_checked(alloc, places, running, hex) {
            Ok(answer) => Ok(Reply::One(answer)),
            Err(failure) => Err(failure),
        },
        Contexts::Bytes(name) => match ran_checked_at(alloc, places, running, name) {
            Ok(answer) => Ok(Reply::One(answer)),
            Err(failure) => Err(failure),
        },
        Contexts::Lines(name) => ran_checked_each(alloc, places, out, running, name),
        Contexts::Nothing => Err(Failure::NoContext),
        Contexts::Several => Err(Failure::ContextTwice),
    }
}

/// The same beside the notes at a name, which are read first.
fn ran_checked_noted<'a, P: Places, W: Write>(
    alloc: Global,
    places: &mut P,
    out: &mut W,
    asked: CheckedRunning<'a>,
    notes: &'a str,
) -> Result<Reply, Failure<'a>>
    ensures ok { IfOk result (CheckedBesideSays P.opens places.old asked.entry (Some notes.entry) places.new (W.contents out.old) (W.contents out.new)) }
    ensures err { IfErr result (CheckedBesideFails P.opens places.old asked.entry (Some notes.entry) places.new (W.contents out.old) (W.contents out.new)) }
    ensures begun { IfErr result (λ _. CheckedBesideLeaves P.opens places.old asked.entry (Some notes.entry) places.new (W.contents out.old) (W.contents out.new)) }
    ensures opened { OpensFirst P.opens (notes.entry.now ∷ names_checked_on asked.entry.input.now asked.entry.certificate.now asked.entry.contexts) places.old places.new }
{
    let noted = match notes_at(alloc, places, notes)? {
        Ok(noted) => noted,
        Err(error) => return Ok(Reply::One(Answer::NoNotes(error))),
    };
    let running = NotedRunning {
        asked,
        notes: Some(&noted.notes),
    };
    match ran_checked_given(alloc, places, out, running) {
        Ok(reply) => Ok(reply),
        Err(failure) => Err(failure),
    }
}

/// Runs the image's program on the contexts that are given, once the certificate has certified it. Notes are judged first, where traps are to be told.
pub fn ran_checked_on<'a, P: Places, W: Write>(
    alloc: Global,
    places: &mut P,
    out: &mut W,
    asked: CheckedRunning<'a>,
) -> Result<Reply, Failure<'a>>
    ensures ok { IfOk result (CheckedSays P.opens places.old asked.entry places.new (W.contents out.old) (W.contents out.new)) }
    ensures err { IfErr result (CheckedFails P.opens places.old asked.entry places.new (W.contents out.old) (W.contents out.new)) }
    ensures begun { IfErr result (λ _. CheckedLeaves P.opens places.old asked.entry places.new (W.contents out.old) (W.contents out.new)) }
    ensures opened { OpensFirst P.opens (names_checked asked.entry) places.old places.new }
{
    match asked.notes {
        Some(notes) => ran_checked_noted(alloc, places, out, asked, notes),
        None => ran_checked_given(alloc, places, out, NotedRunning { asked, notes: None }),
    }
}
