//! `bpf certify IN LEN OUT CERT`.

ghost use Rattle.std.specs.Prelude.{◌≡◌, ◌≤◌, IfOk, IfErr, IfSome, false, IsTrue};
ghost use Rattle.bpf_insn.specs.Limits.{max_context};
ghost use Rattle.bpf_certify.specs.Certified.{Answers as IsAnswer, IsRefused};
ghost use Rattle.bpf_answers.specs.Both.{putting};
ghost use Rattle.bpf_command.specs.Certified.{CertifyFails, CertifySays, CertifyWithFails, CertifyWithSays, IsPutBeside, NotCertified, NotCertifiedWith, NotPutBeside, assessment_answer, made_of, notes_told, refused_as, retold, rewriting_of, runs_told, told_of, wish_of};

use crate::commands::explain::lines_at;
use crate::commands::texts::{SideTexts, changes_of, put_beside, text_of};
use crate::request::Certifying;
use bpf_answers::{Answer, Certification, Failure, Places, Rewriting, program_at, put_both};
use bpf_cert::Certificate;
use bpf_certify::{Certified, CertifyError, MOST_BOUND, Rewritten, Wish, certify};
use bpf_harden::HardenError;
use bpf_insn::{Code, DecodeError, MAX_CONTEXT, Program};
use bpf_kept::Bounds;
use std::alloc::{AllocError, Global};

/// What the certification of an image came to.
#[derive(Clone, Copy)]
pub enum Assessment {
    /// What is at the name is no image.
    NoImage(DecodeError),
    /// Its program isn't certified.
    Refused(CertifyError),
    /// The image and its certificate stand at their names.
    Passed(Certification),
}

/// The same with the table of the lines of the program's source, which may be empty.
#[derive(Drop)]
pub struct Assessed {
    pub assessment: Assessment,
    pub lines: String,
}

/// What is answered where a program isn't certified.
fn refused_as(error: CertifyError) -> Answer
    ensures { result ≡ refused_as error }
{
    match error {
        CertifyError::Unhardened(error) => Answer::NotHardened(error),
        CertifyError::Unshown(mismatch) => Answer::NotShown(mismatch),
        CertifyError::TooDear { .. } => Answer::TooDear,
        CertifyError::Uncertified(_) => Answer::Uncertified,
    }
}

impl Assessment {
    /// What is answered of it.
    pub fn answer(self) -> Answer
        ensures { result ≡ assessment_answer self }
    {
        match self {
            Assessment::NoImage(error) => Answer::NoImage(error),
            Assessment::Refused(error) => refused_as(error),
            Assessment::Passed(told) => Answer::Certified(told),
        }
    }
}

/// How a program is certified.
fn wish_of(asked: Certifying<'_>) -> Wish
    ensures { result ≡ wish_of asked.entry }
{
    Wish {
        bound: asked.bound.unwrap_or(MOST_BOUND),
        turns: asked.turns,
        otherwise: asked.otherwise,
        padded: asked.padded,
        unproved: asked.unproved,
        notes: asked.notes.is_some(),
    }
}

/// The length of the contexts; the words' parser has seen that it is at most the greatest.
fn length_of(asked: Certifying<'_>) -> u32
    ensures short { result ≤ max_context }
    ensures given { asked.entry.length ≤ max_context → result ≡ asked.entry.length }
{
    asked.length.min(MAX_CONTEXT as u32)
}

/// What is told of what was done to a program.
fn retold(asked: Certifying<'_>, rewritten: &Rewritten) -> Rewriting
    ensures { result ≡ retold asked.entry rewritten.now }
{
    Rewriting {
        turns: rewritten.turns,
        told: rewritten.told(),
        padded: asked.padded,
        untouched: rewritten.untouched,
        is_shown: rewritten.is_shown,
    }
}

/// The same; None of one that stands as it is.
fn rewriting_of(asked: Certifying<'_>, certified: &Certified) -> Option<Rewriting>
    ensures { result ≡ rewriting_of asked.entry certified.now.rewritten }
{
    match &certified.rewritten {
        None => None,
        Some(rewritten) => Some(retold(asked, rewritten)),
    }
}

/// The runs that are told.
fn runs_told(length: u32, told: Rewriting) -> Bounds
    ensures { result ≡ runs_told length told }
{
    Bounds {
        length,
        padded: told.padded,
        turns: u64::from(told.turns),
        untouched: told.untouched,
    }
}

/// What is told of a certified program.
fn told_of(asked: Certifying<'_>, length: u32, certified: &Certified) -> Certification
    ensures { result ≡ told_of asked.entry length certified.now }
{
    Certification {
        length,
        bound: certified.bound,
        rewriting: rewriting_of(asked, certified),
    }
}

/// The program for which a certificate is: the one that was given, or what was made of it.
fn made_of<'a>(program: &'a Program, certified: &'a Certified) -> &'a Program
    ensures { result.now ≡ made_of program.now certified.now }
{
    match &certified.rewritten {
        None => program,
        Some(rewritten) => &rewritten.hardened.program,
    }
}

/// What goes beside the image and its certificate: nothing of a program that stands as it is.
fn beside_of(
    alloc: Global,
    asked: Certifying<'_>,
    length: u32,
    certified: &Certified,
) -> Result<SideTexts, AllocError>
    ensures { IfOk result (λ beside. IfSome asked.entry.notes (λ _. beside.notes.items ≡ notes_told asked.entry length certified.now)) }
{
    let Some(rewritten) = &certified.rewritten else {
        return Ok(SideTexts {
            notes: Vec::new(alloc),
            changes: String::new(alloc),
        });
    };
    let runs = runs_told(length, retold(asked, rewritten));
    let notes = text_of(alloc, asked.hardening(), runs, &rewritten.notes)?;
    let changes = changes_of(alloc, asked.hardening(), &rewritten.hardened)?;
    Ok(SideTexts { notes, changes })
}

/// Writes the image and its certificate, both or neither, and then the texts, each where a name for it is given.
fn put_all<'a, P: Places>(
    places: &mut P,
    asked: Certifying<'a>,
    made: &Program,
    certificate: &Certificate,
    beside: &SideTexts,
) -> Result<u8, Failure<'a>>
    ensures ok { IfOk result (IsPutBeside (putting P.creates P.ends P.Writer.contents) places.old asked.entry made.now certificate.now beside.now places.new) }
    ensures err { IfErr result (NotPutBeside (putting P.creates P.ends P.Writer.contents) places.old asked.entry made.now certificate.now beside.now places.new) }
{
    put_both(places, asked.output, made, asked.certificate, certificate)?;
    put_beside(places, asked.hardening(), beside)
}

/// What is certified of a program, and what goes beside the image and its certificate.
#[derive(Drop)]
struct FoundWithin {
    certified: Certified,
    beside: SideTexts,
}

/// What is certified of a program, with what goes beside it.
fn found_for(
    alloc: Global,
    program: &Program,
    asked: Certifying<'_>,
    length: u32,
) -> Result<FoundWithin, CertifyError>
    requires { length ≤ max_context }
    ensures ok { IfOk result (λ f. IsAnswer program.now length (wish_of asked.entry) f.certified) }
    ensures shown { asked.entry.unproved ≡ false → IfOk result (λ f. IfSome f.certified.rewritten (λ r. IsTrue r.is_shown)) }
    ensures notes { IfOk result (λ f. IfSome asked.entry.notes (λ _. f.beside.notes.items ≡ notes_told asked.entry length f.certified)) }
    ensures err { IfErr result (IsRefused program.now length (wish_of asked.entry)) }
{
    let _slots = Code::slots(program);
    let certified = certify(alloc, program, length, wish_of(asked))?;
    match beside_of(alloc, asked, length, &certified) {
        Ok(beside) => Ok(FoundWithin { certified, beside }),
        Err(_no_memory) => Err(CertifyError::Unhardened(HardenError::Memory)),
    }
}

/// Writes an image and its certificate, and the texts beside them.
fn assess<'a, P: Places>(
    alloc: Global,
    places: &mut P,
    asked: Certifying<'a>,
) -> Result<Assessment, Failure<'a>>
    ensures ok { IfOk result (CertifySays P.opens (putting P.creates P.ends P.Writer.contents)
        places.old asked.entry places.new) }
    ensures err { IfErr result (CertifyFails P.opens (putting P.creates P.ends P.Writer.contents)
        places.old asked.entry places.new) }
    ensures names { IfErr result (λ _. NotCertified P.opens (putting P.creates P.ends P.Writer.contents)
        places.old asked.entry places.new) }
{
    let program = match program_at(alloc, places, asked.input, asked.order)? {
        Ok(program) => program,
        Err(error) => return Ok(Assessment::NoImage(error)),
    };
    let length = length_of(asked);
    let found = match found_for(alloc, &program, asked, length) {
        Ok(found) => found,
        Err(error) => return Ok(Assessment::Refused(error)),
    };
    let FoundWithin { certified, beside } = &found;
    let told = told_of(asked, length, certified);
    let made = made_of(&program, certified);
    put_all(places, asked, made, &certified.certificate, beside)?;
    Ok(Assessment::Passed(told))
}

/// Writes the image of a program that has a certificate within the bound that is asked for: the program as it stands, or hardened. It writes its certificate,
/// notes that `follows` reads, and what was done, too. The places for them are made only where there is something to write. The lines of the source are read
/// first.
pub fn certified<'a, P: Places>(
    alloc: Global,
    places: &mut P,
    asked: Certifying<'a>,
) -> Result<Assessed, Failure<'a>>
    ensures ok { IfOk result (CertifyWithSays P.opens (putting P.creates P.ends P.Writer.contents) places.old asked.entry places.new) }
    ensures err { IfErr result (CertifyWithFails P.opens (putting P.creates P.ends P.Writer.contents)
        places.old asked.entry places.new) }
    ensures names { IfErr result (λ _. NotCertifiedWith P.opens (putting P.creates P.ends P.Writer.contents)
        places.old asked.entry places.new) }
{
    let lines = lines_at(alloc, places, asked.lines)?;
    match assess(alloc, places, asked) {
        Ok(assessment) => Ok(Assessed { assessment, lines }),
        Err(failure) => Err(failure),
    }
}
