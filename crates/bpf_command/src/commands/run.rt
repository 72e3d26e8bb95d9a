//! `bpf run IN HEX --steps N`, and the same with `--context FILE` or `--contexts FILE` in place of HEX; with `--notes NOTES` where a run ends at a trap.

ghost use Rattle.bpf_insn.specs.Limits.{max_context};
ghost use Rattle.std.specs.Prelude.{◌≤◌, Some, IfOk, IfErr, length, ◌∷◌, []};
ghost use Rattle.bpf_machine.specs.Answers.{IsRun};
ghost use Rattle.bpf_answers.specs.Loaded.{ImageFails, OpensFirst};
ghost use Rattle.bpf_command.specs.RunNames.{names_run, names_run_on};
ghost use Rattle.bpf_command.specs.Noted.{noted_in};
ghost use Rattle.bpf_command.specs.Printed.{FailsWith, OutcomeSays};
ghost use Rattle.bpf_command.specs.Given.{FailsBehind, OnNamed, OnWord, OneRunSays, RunBesideFails, RunBesideLeaves, RunBesideSays, RunEachFails, RunEachLeaves, RunEachSays, RunFails, RunGivenFails, RunGivenLeaves, RunGivenSays, RunLeaves, RunSays};

use crate::commands::tracer::Tracer;
use crate::request::{Contexts, Running};
use bpf_answers::{
    Answer, Failure, Places, Reply, Runner, answered, context_at, context_of, notes_at, program_at,
};
use bpf_follows::{exit_slot, is_trap};
use bpf_insn::{Code, Program};
use bpf_kept::Note;
use bpf_machine::{Outcome, run};
use std::alloc::Global;
use std::io::Write;

/// How a run of a program on a context ends, which is told.
fn outcome_of<C: Code, T: Tracer>(program: &C, context: &[u8], steps: u32, tracer: &T) -> Outcome
    requires { length context.now ≤ max_context }
    ensures { IsRun (C.program program.now) context.now steps result }
{
    let outcome = run(program, context, u64::from(steps));
    tracer.tell(program, context, outcome, u64::from(steps));
    outcome
}

/// Who is told how runs end, and the notes by which traps are told.
#[derive(Drop)]
struct TrapTeller<'a, 'n, T: Tracer> {
    tracer: &'a T,
    notes: Option<&'n [Option<Note>]>,
}

/// The answer to a run that ends so, by notes.
fn noted_answer<C: Code>(
    program: &C,
    context: &[u8],
    fuel: u32,
    outcome: Outcome,
    notes: &[Option<Note>],
) -> Answer
    requires short { length context.now ≤ max_context }
    requires run { IsRun (C.program program.now) context.now fuel outcome }
    ensures { OutcomeSays (Some notes.now) context.now fuel (C.program program.now) result }
{
    match outcome {
        Outcome::Done { value, steps } => {
            if is_trap(notes, exit_slot(program, context, steps)) {
                Answer::RanToTrap { value, steps }
            } else {
                Answer::Ran(Outcome::Done { value, steps })
            }
        }
        Outcome::Fault { .. } => Answer::Ran(outcome),
        Outcome::OutOfFuel => Answer::Ran(outcome),
    }
}

/// How a run of a program on a context ends, at a trap or elsewhere.
fn answer_of<C: Code, T: Tracer>(
    program: &C,
    context: &[u8],
    steps: u32,
    teller: &TrapTeller<'_, '_, T>,
) -> Answer
    requires { length context.now ≤ max_context }
    ensures { OutcomeSays (noted_in teller.now.notes) context.now steps (C.program program.now) result }
{
    let outcome = outcome_of(program, context, steps, teller.tracer);
    match teller.notes {
        Some(notes) => noted_answer(program, context, steps, outcome, notes),
        None => Answer::Ran(outcome),
    }
}

/// Runs the image on a context. A program of its own is decoded once, where a view would be at each step.
fn run_image<'a, P: Places, T: Tracer>(
    alloc: Global,
    places: &mut P,
    teller: &TrapTeller<'_, '_, T>,
    asked: Running<'a>,
    context: &[u8],
) -> Result<Answer, Failure<'a>>
    requires { length context.now ≤ max_context }
    ensures ok { IfOk result (OneRunSays P.opens places.old asked.entry (noted_in teller.now.notes) places.new context.now) }
    ensures err { IfErr result (ImageFails P.opens places.old asked.entry.input.now places.new) }
    ensures opened { OpensFirst P.opens (asked.entry.input.now ∷ []) places.old places.new }
{
    match program_at(alloc, places, asked.input, asked.order)? {
        Ok(program) => Ok(answer_of(&program, context, asked.steps, teller)),
        Err(error) => Ok(Answer::NoImage(error)),
    }
}

/// Runs the image on the context that a word spells. The context is judged first, then the image.
fn ran<'a, P: Places, T: Tracer>(
    alloc: Global,
    places: &mut P,
    teller: &TrapTeller<'_, '_, T>,
    asked: Running<'a>,
    hex: &'a str,
) -> Result<Answer, Failure<'a>>
    ensures ok { IfOk result (OnWord hex.entry.now (OneRunSays P.opens places.old asked.entry (noted_in teller.now.notes) places.new)) }
    ensures err { IfErr result (FailsWith places.old places.new hex.entry.now (ImageFails P.opens places.old asked.entry.input.now places.new)) }
    ensures opened { OpensFirst P.opens (asked.entry.input.now ∷ []) places.old places.new }
{
    let context = match context_of(alloc, hex) {
        Ok(context) => context,
        Err(error) => return Err(Failure::BadContext(error)),
    };
    run_image(alloc, places, teller, asked, &context)
}

/// The same with the context at a name, which is read first.
fn ran_at<'a, P: Places, T: Tracer>(
    alloc: Global,
    places: &mut P,
    teller: &TrapTeller<'_, '_, T>,
    asked: Running<'a>,
    context: &'a str,
) -> Result<Answer, Failure<'a>>
    ensures ok { IfOk result (OnNamed P.opens places.old context.entry.now (λ between. OneRunSays P.opens between asked.entry (noted_in teller.now.notes) places.new)) }
    ensures err { IfErr result (FailsBehind P.opens places.old context.entry.now places.new
        (λ between. ImageFails P.opens between asked.entry.input.now places.new)) }
    ensures opened { OpensFirst P.opens (context.entry.now ∷ asked.entry.input.now ∷ []) places.old places.new }
{
    let context = context_at(alloc, places, context)?;
    run_image(alloc, places, teller, asked, &context)
}

/// A program, the most instructions that each run of it does, and who is told how each ends.
#[derive(Drop)]
struct Fueled<'a, 'w, 'n, T: Tracer> {
    program: &'a Program,
    steps: u32,
    teller: &'a TrapTeller<'w, 'n, T>,
}

impl<'a, 'w, 'n, T: Tracer> Runner for Fueled<'a, 'w, 'n, T> {
    ghost use Rattle.bpf_command.specs.Noted.{noted_in};
    ghost use Rattle.bpf_command.specs.Printed.{OutcomeSays};

    ghost says = { λ f context answer. OutcomeSays (noted_in f.teller.now.notes) context f.steps f.program.now answer };

    fn answer(&self, context: &[u8]) -> Answer {
        answer_of(self.program, context, self.steps, self.teller)
    }
}

/// The same with each context of the lines at a name, which is opened once the image is judged. Each answer is printed as it is found.
fn ran_each<'a, P: Places, W: Write, T: Tracer>(
    alloc: Global,
    places: &mut P,
    out: &mut W,
    teller: &TrapTeller<'_, '_, T>,
    asked: Running<'a>,
    contexts: &'a str,
) -> Result<Reply, Failure<'a>>
    ensures ok { IfOk result (RunEachSays P.opens places.old asked.entry (noted_in teller.now.notes) contexts.entry places.new (W.contents out.old) (W.contents out.new)) }
    ensures err { IfErr result (RunEachFails P.opens places.old asked.entry (noted_in teller.now.notes) contexts.entry places.new (W.contents out.old) (W.contents out.new)) }
    ensures begun { IfErr result (λ _. RunEachLeaves P.opens places.old asked.entry (noted_in teller.now.notes) contexts.entry places.new (W.contents out.old) (W.contents out.new)) }
    ensures opened { OpensFirst P.opens (asked.entry.input.now ∷ contexts.entry.now ∷ []) places.old places.new }
{
    let program = match program_at(alloc, places, asked.input, asked.order)? {
        Ok(program) => program,
        Err(error) => return Ok(Reply::One(Answer::NoImage(error))),
    };
    let runner = Fueled {
        program: &program,
        steps: asked.steps,
        teller,
    };
    match answered(places, out, &runner, contexts) {
        Ok(status) => Ok(Reply::Each(status)),
        Err(failure) => Err(failure),
    }
}

/// Runs the image on the contexts that are given, beside these notes or none.
fn ran_given<'a, P: Places, W: Write, T: Tracer>(
    alloc: Global,
    places: &mut P,
    out: &mut W,
    teller: &TrapTeller<'_, '_, T>,
    asked: Running<'a>,
) -> Result<Reply, Failure<'a>>
    ensures ok { IfOk result (RunGivenSays P.opens places.old asked.entry (noted_in teller.now.notes) places.new (W.contents out.old) (W.contents out.new)) }
    ensures err { IfErr result (RunGivenFails P.opens places.old asked.entry (noted_in teller.now.notes) places.new (W.contents out.old) (W.contents out.new)) }
    ensures begun { IfErr result (λ _. RunGivenLeaves P.opens places.old asked.entry (noted_in teller.now.notes) places.new (W.contents out.old) (W.contents out.new)) }
    ensures opened { OpensFirst P.opens (names_run_on asked.entry.input.now asked.entry.contexts) places.old places.new }
{
    match asked.contexts {
        Contexts::Word(hex) => match ran(alloc, places, teller, asked, hex) {
            Ok(answer) => Ok(Reply::One(answer)),
            Err(failure) => Err(failure),
        },
        Contexts::Bytes(name) => match ran_at(alloc, places, teller, asked, name) {
            Ok(answer) => Ok(Reply::One(answer)),
            Err(failure) => Err(failure),
        },
        Contexts::Lines(name) => ran_each(alloc, places, out, teller, asked, name),
        Contexts::Nothing => Err(Failure::NoContext),
        Contexts::Several => Err(Failure::ContextTwice),
    }
}

/// The same beside the notes at a name, which are read first.
fn ran_noted<'a, P: Places, W: Write, T: Tracer>(
    alloc: Global,
    places: &mut P,
    out: &mut W,
    tracer: &T,
    asked: Running<'a>,
    notes: &'a str,
) -> Result<Reply, Failure<'a>>
    ensures ok { IfOk result (RunBesideSays P.opens places.old asked.entry (Some notes.entry) places.new (W.contents out.old) (W.contents out.new)) }
    ensures err { IfErr result (RunBesideFails P.opens places.old asked.entry (Some notes.entry) places.new (W.contents out.old) (W.contents out.new)) }
    ensures begun { IfErr result (λ _. RunBesideLeaves P.opens places.old asked.entry (Some notes.entry) places.new (W.contents out.old) (W.contents out.new)) }
    ensures opened { OpensFirst P.opens (notes.entry.now ∷ names_run_on asked.entry.input.now asked.entry.contexts) places.old places.new }
{
    let noted = match notes_at(alloc, places, notes)? {
        Ok(noted) => noted,
        Err(error) => return Ok(Reply::One(Answer::NoNotes(error))),
    };
    let known: &[Option<Note>] = &noted.notes;
    let notes = Some(known);
    let teller = TrapTeller { tracer, notes };
    match ran_given(alloc, places, out, &teller, asked) {
        Ok(reply) => Ok(reply),
        Err(failure) => Err(failure),
    }
}

/// Runs the image on the contexts that are given. Notes are judged first, where traps are to be told.
pub fn ran_on<'a, P: Places, W: Write, T: Tracer>(
    alloc: Global,
    places: &mut P,
    out: &mut W,
    tracer: &T,
    asked: Running<'a>,
) -> Result<Reply, Failure<'a>>
    ensures ok { IfOk result (RunSays P.opens places.old asked.entry places.new (W.contents out.old) (W.contents out.new)) }
    ensures err { IfErr result (RunFails P.opens places.old asked.entry places.new (W.contents out.old) (W.contents out.new)) }
    ensures begun { IfErr result (λ _. RunLeaves P.opens places.old asked.entry places.new (W.contents out.old) (W.contents out.new)) }
    ensures opened { OpensFirst P.opens (names_run asked.entry) places.old places.new }
{
    match asked.notes {
        Some(notes) => ran_noted(alloc, places, out, tracer, asked, notes),
        None => {
            let teller = TrapTeller {
                tracer,
                notes: None,
            };
            ran_given(alloc, places, out, &teller, asked)
        }
    }
}
