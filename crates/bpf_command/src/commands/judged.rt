//! A program and the certificate at a name: what `check` and `run-checked` have in common.

ghost use Rattle.std.specs.Prelude.{◌≡◌, IfOk, IfErr, ◌∷◌, []};
ghost use Rattle.bpf_answers.specs.Loaded.{CertificateFails, OpensFirst};
ghost use Rattle.bpf_answers.specs.Told.{IsQuiet};
ghost use Rattle.bpf_command.specs.Printed.{JudgedSays, ResultSays, WishSays, YesSays};
ghost use Rattle.bpf_command.specs.Noted.{noted_in};
ghost use Rattle.bpf_command.specs.Given.{NotedLinesFail, NotedLinesLeave, NotedLinesSay};

use crate::commands::noted::is_trapped;
use crate::request::CheckedRunning;
use bpf_answers::{Answer, Counted, Failure, Places, Reply, Runner, answered, certificate_at};
use bpf_check::{Checked, Runnable, check};
use bpf_insn::Code;
use bpf_kept::Note;
use std::alloc::Global;
use std::io::Write;
use std::marker::Model;

/// What is wanted of a program that its certificate certifies.
#[derive(Clone, Copy)]
pub enum WantedOfChecked<'a> {
    /// The promise, and where it is asked for the work of the check.
    Promise {
        counted: bool,
    },
    /// The number with which it ends on a context, and whether that is at a trap of the notes.
    Run {
        context: &'a [u8],
        notes: Option<&'a [Option<Note>]>,
    },
}

/// Which image is to be run once its certificate certifies it, and the notes by which traps are told.
#[derive(Clone, Copy)]
pub struct NotedRunning<'a, 'n> {
    pub asked: CheckedRunning<'a>,
    pub notes: Option<&'n [Option<Note>]>,
}

/// What is promised, and the work of the check where it is asked for.
fn promise<C: Code>(checked: &Checked<'_, C>, counted: bool) -> Answer
    ensures { YesSays counted checked.now result }
{
    let work = if counted {
        Some(Counted::of(checked.work()))
    } else {
        None
    };
    Answer::Yes {
        least: checked.least(),
        most: checked.most(),
        bound: checked.bound(),
        work,
    }
}

/// Runs a checked program on the context, if that has a length of which the certificate speaks.
fn run_on<C: Code>(
    program: &C,
    runnable: &Runnable<'_, '_, C>,
    context: &[u8],
    notes: Option<&[Option<Note>]>,
) -> Answer
    requires same { runnable.now.program ≡ C.program program.now }
    ensures { ResultSays (noted_in notes.entry) context.now runnable.now result }
{
    let checked = runnable.checked();
    checked.valid();
    let least = checked.least();
    let most = checked.most();
    let count = context.len();
    if count < least as usize || count > most as usize {
        return Answer::NoContext { count, least, most };
    }
    let value = runnable.run(context);
    if is_trapped(program, checked, context, notes) {
        Answer::EndsAtTrap(value)
    } else {
        Answer::Ends(value)
    }
}

/// What is wanted of a checked program.
fn grant<C: Code>(
    alloc: Global,
    program: &C,
    checked: &Checked<'_, C>,
    wish: WantedOfChecked<'_>,
) -> Answer
    requires same { checked.now.program ≡ C.program program.now }
    ensures { WishSays wish.entry checked.now result }
{
    match wish {
        WantedOfChecked::Promise { counted } => promise(checked, counted),
        WantedOfChecked::Run { context, notes } => {
            let runnable = Runnable::of(alloc, checked);
            run_on(program, &runnable, context, notes)
        }
    }
}

/// A checked program with notes, as what answers contexts.
#[derive(Drop)]
struct ContextAnswerer<'a, 'p, C: Code> {
    program: &'p C,
    runnable: &'a Runnable<'a, 'p, C>,
    notes: Option<&'a [Option<Note>]>,
}

impl<'a, 'p, C: Code> Model for ContextAnswerer<'a, 'p, C> {
    ghost use Rattle.std.specs.Prelude.{◌≡◌};
    ghost use Rattle.bpf_command.specs.Noted.{Answering, noted_in};

    ghost Value = { Answering };

    ghost view = { λ r. record { checked = r.runnable.now; noted = noted_in r.notes } };

    ghost invariant = { λ r. r.runnable.now.program ≡ C.program r.program.now };
}

impl<'a, 'p, C: Code> Runner for ContextAnswerer<'a, 'p, C> {
    ghost use Rattle.bpf_command.specs.Printed.{ResultSays};

    ghost says = { λ r context answer. ResultSays r.noted context r.checked answer };

    fn answer(&self, context: &[u8]) -> Answer {
        run_on(self.program, self.runnable, context, self.notes)
    }
}

/// Reads the certificate that is asked for, judges whether it certifies the program, and answers the contexts of the lines at
/// another name, which is opened last.
pub fn judged_each<'a, P: Places, C: Code, W: Write>(
    alloc: Global,
    places: &mut P,
    out: &mut W,
    program: &C,
    running: NotedRunning<'a, '_>,
    contexts: &'a str,
) -> Result<Reply, Failure<'a>>
    ensures ok { IfOk result (NotedLinesSay P.opens places.old running.entry contexts.entry places.new (C.program program.now) (W.contents out.old) (W.contents out.new)) }
    ensures err { IfErr result (NotedLinesFail P.opens places.old running.entry contexts.entry places.new (C.program program.now) (W.contents out.old) (W.contents out.new)) }
    ensures begun { IfErr result (λ _. NotedLinesLeave P.opens places.old running.entry contexts.entry places.new (C.program program.now)
        (W.contents out.old) (W.contents out.new)) }
    ensures opened { OpensFirst P.opens (running.entry.asked.certificate.now ∷ contexts.entry.now ∷ []) places.old places.new }
{
    let certificate = match certificate_at(alloc, places, running.asked.certificate)? {
        Ok(certificate) => certificate,
        Err(error) => return Ok(Reply::One(Answer::NoCertificate(error))),
    };
    let checked = match check(program, &certificate) {
        Ok(checked) => checked,
        Err(refusal) => return Ok(Reply::One(Answer::NotCertified(refusal))),
    };
    let answerer = ContextAnswerer {
        program,
        runnable: &Runnable::of(alloc, &checked),
        notes: running.notes,
    };
    match answered(places, out, &answerer, contexts) {
        Ok(status) => Ok(Reply::Each(status)),
        Err(failure) => Err(failure),
    }
}

/// Reads the certificate at a name, judges whether it certifies the program, and answers what is wanted, or why not.
pub fn judged<'a, P: Places, C: Code>(
    alloc: Global,
    places: &mut P,
    program: &C,
    certificate: &'a str,
    wish: WantedOfChecked<'_>,
) -> Result<Answer, Failure<'a>>
    ensures ok { IfOk result (JudgedSays P.opens places.old certificate.entry.now places.new (C.program program.now) (WishSays wish.entry)) }
    ensures err { IfErr result (CertificateFails P.opens places.old certificate.entry.now places.new) }
    ensures quiet { IfErr result IsQuiet }
    ensures opened { OpensFirst P.opens (certificate.entry.now ∷ []) places.old places.new }
{
    let certificate = match certificate_at(alloc, places, certificate)? {
        Ok(certificate) => certificate,
        Err(error) => return Ok(Answer::NoCertificate(error)),
    };
    match check(program, &certificate) {
        Ok(checked) => Ok(grant(alloc, program, &checked, wish)),
        Err(refusal) => Ok(Answer::NotCertified(refusal)),
    }
}
