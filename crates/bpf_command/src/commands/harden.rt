//! `bpf harden IN LEN OUT`.

ghost use Rattle.std.specs.Prelude.{◌≡◌, ◌<◌, IfOk, IfErr, IfSome, IsSome, None, false};
ghost use Rattle.bpf_insn.specs.Instruction.{slots};
ghost use Rattle.bpf_insn.specs.Image.{IsProgram};
ghost use Rattle.bpf_infer_base.specs.HardenNumbers.{harden_slot};
ghost use Rattle.bpf_kept.specs.Matching.{shown_turns};
ghost use Rattle.bpf_command.specs.Hardened.{AreLeft, HardenFails, HardenSays, IsEvidenceFor, IsLeftSaid, IsNoted, IsUnshown, NotAllMade, asked_bytes, attempt_answer, bounds_of, found_text, goes_out, texts_behind};
ghost use Rattle.bpf_command.specs.Texts.{PutTexts, TextsFail, named};
ghost use Rattle.bpf_answers.specs.Made.{making};

use crate::commands::texts::{SideTexts, changes_of, put_beside, put_if, text_of};
use crate::request::Hardening;
use bpf_answers::{Answer, DONE, Failure, Places, program_at, put};
use bpf_certify::{Evidence, evidence_for, evidence_of};
use bpf_harden::{HardenError, Hardened, Options, harden};
use bpf_insn::{Code, DecodeError, MAX_CONTEXT, Program};
use bpf_kept::{Bounds, Mismatch, Turns, turns_shown};
use std::alloc::{AllocError, Global};

/// What is shown of a hardened program by its notes.
#[derive(Clone, Copy)]
pub struct KeptMeaning {
    /// The contexts and runs of which it is judged.
    pub bounds: Bounds,
    /// Of how many turns, where the notes show it.
    pub turns: Turns,
    /// What fails of the notes; None where they show that the program keeps the meaning.
    pub mismatch: Option<Mismatch>,
    /// The bytes of each frame that runs leave to r10, where they are some and nobody asked for them.
    pub said: Option<u32>,
}

/// What the hardening of an image came to.
#[derive(Clone, Copy)]
pub enum Attempt {
    /// What is at the name is no image.
    NoImage(DecodeError),
    /// Its program isn't hardened.
    NotHardened(HardenError),
    /// It is, and isn't shown to keep its meaning.
    NotShown(Mismatch),
    /// The hardened image stands at its name.
    Hardened(KeptMeaning),
}

impl Attempt {
    /// What is answered of it.
    pub fn answer(self) -> Answer
        ensures { result ≡ attempt_answer self }
    {
        match self {
            Attempt::NoImage(error) => Answer::NoImage(error),
            Attempt::NotHardened(error) => Answer::NotHardened(error),
            Attempt::NotShown(mismatch) => Answer::NotShown(mismatch),
            Attempt::Hardened(KeptMeaning { said: None, .. }) => Answer::Written,
            Attempt::Hardened(
                KeptMeaning {
                    said: Some(untouched),
                    ..
                },
            ) => Answer::WrittenFor(untouched),
        }
    }
}

/// How a program is hardened.
fn options_of(asked: Hardening<'_>) -> Options
    ensures turns { result.turns ≡ asked.entry.turns }
    ensures otherwise { result.otherwise ≡ asked.entry.otherwise }
    ensures padded { result.padded ≡ asked.entry.padded }
    ensures only { result.everywhere ≡ false }
{
    Options {
        turns: asked.turns,
        otherwise: asked.otherwise,
        padded: asked.padded,
        everywhere: false,
    }
}

/// For which contexts and runs the new program is to keep the meaning: those that leave so many of the lowest bytes of each frame to r10.
fn bounds_of(asked: Hardening<'_>, untouched: u32) -> Bounds
    ensures { result ≡ bounds_of asked.entry untouched }
{
    Bounds {
        length: asked.length,
        padded: asked.padded,
        turns: u64::from(asked.turns),
        untouched,
    }
}

/// How many of these bytes are asked for: none, unless it is said.
fn asked_bytes(asked: Hardening<'_>) -> u32
    ensures { result ≡ asked_bytes asked.entry }
{
    asked.untouched.unwrap_or(0)
}

/// The hardened program, with what was done.
fn answer_of(
    alloc: Global,
    program: &Program,
    asked: Hardening<'_>,
) -> Result<Hardened, HardenError>
    ensures program { IfOk result (λ hardened. IsProgram hardened.program.list) }
    ensures slot { IfErr result (λ e. harden_slot e < slots program.now.list) }
{
    // The words' parser has seen that it is at most the greatest.
    let length = asked.length.min(MAX_CONTEXT as u32);
    let hardened = harden(alloc, program, length, &options_of(asked))?;
    let _ = Code::slots(&hardened.program);
    Ok(hardened)
}

/// Why a hardened program isn't shown to keep the meaning.
#[derive(Clone, Copy)]
pub enum UnshownMeaning {
    /// Memory ran out.
    Memory,
    /// Its notes fail.
    Differs(Mismatch),
}

impl From<AllocError> for UnshownMeaning {
    ghost use Rattle.std.specs.Prelude.{◌≡◌};
    ghost use Rattle.bpf_command.specs.declared.commands.harden.UnshownMeaning.TheVariants.{Memory};

    ghost from_gives = { λ _ why. why ≡ Memory };

    fn from(_error: AllocError) -> UnshownMeaning {
        UnshownMeaning::Memory
    }
}

/// Whether standard output takes none of what is written.
fn is_free(asked: Hardening<'_>) -> bool {
    let taken = [
        asked.output,
        asked.certificate.unwrap_or(""),
        asked.notes.unwrap_or(""),
        asked.changes.unwrap_or(""),
    ];
    taken[0] != "-" && taken[1] != "-" && taken[2] != "-" && taken[3] != "-"
}

/// Notes of a hardened program beside its certificate, for the runs that are asked for. Where nothing is said of untouched bytes, and it can be told, they
/// are for each run. Or they are for those that leave the bytes to r10 that hardening takes.
fn evidence(
    alloc: Global,
    program: &Program,
    hardened: &Hardened,
    asked: Hardening<'_>,
) -> Result<Evidence, AllocError>
    ensures left { IfOk result (λ found. AreLeft asked.entry found.untouched) }
    ensures all { IfOk result (λ found. IfSome found.mismatch (λ _. found.untouched ≡ asked_bytes asked.entry)) }
    ensures exact { IfOk result (IsEvidenceFor program.now hardened.now asked.entry) }
{
    match asked.untouched {
        None if is_free(asked) => evidence_of(alloc, program, hardened, bounds_of(asked, 0)),
        _ => evidence_for(
            alloc,
            program,
            hardened,
            bounds_of(asked, asked_bytes(asked)),
        ),
    }
}

/// What is said of untouched bytes for which it is shown: nothing of those that are asked for.
fn said_of(asked: Hardening<'_>, untouched: u32) -> Option<u32>
    requires { AreLeft asked untouched }
    ensures { IsLeftSaid asked.entry untouched result }
{
    match asked.untouched {
        Some(_asked) => None,
        None => {
            if untouched == 0 {
                None
            } else {
                Some(untouched)
            }
        }
    }
}

/// Whether a hardened program goes out of which this fails: with `--unproved`. A certificate that is asked for has to be there all the same.
fn goes_out(asked: Hardening<'_>, mismatch: Mismatch) -> bool
    ensures { result ≡ goes_out asked.entry mismatch }
{
    match mismatch {
        Mismatch::Length => asked.unproved && asked.certificate.is_none(),
        Mismatch::Order | Mismatch::Start | Mismatch::TooMany => asked.unproved,
        Mismatch::At { .. } | Mismatch::NoExit => asked.unproved,
    }
}

/// Notes of a hardened program. They show that it keeps the meaning, or it is refused, but with `--unproved`.
fn shown(
    alloc: Global,
    program: &Program,
    hardened: &Hardened,
    asked: Hardening<'_>,
) -> Result<Evidence, UnshownMeaning>
    ensures left { IfOk result (λ found. AreLeft asked.entry found.untouched) }
    ensures kept { IfOk result (IsEvidenceFor program.now hardened.now asked.entry) }
    ensures proved { IfOk result (λ found. asked.entry.unproved ≡ false → found.mismatch ≡ None) }
    ensures there { IfOk result (λ _. IfSome asked.entry.certificate (λ _. IsSome hardened.now.certificate)) }
    ensures err { IfErr result (IsUnshown program.now hardened.now.program asked.entry) }
{
    let found = evidence(alloc, program, hardened, asked)?;
    match found.mismatch {
        Some(mismatch) if !goes_out(asked, mismatch) => Err(UnshownMeaning::Differs(mismatch)),
        Some(_) | None => Ok(found),
    }
}

/// Of how many turns the notes speak.
fn turns_of(found: &Evidence, bounds: Bounds) -> Turns
    ensures { result ≡ shown_turns found.now.notes.items bounds.turns }
{
    turns_shown(&found.notes, bounds.turns)
}

/// What goes behind a hardened image, and what is shown of it.
#[derive(Drop)]
struct HardenedNoted {
    beside: SideTexts,
    kept: KeptMeaning,
}

/// What goes beside a hardened program, and what is shown of it.
fn notes_for(
    alloc: Global,
    program: &Program,
    hardened: &Hardened,
    asked: Hardening<'_>,
) -> Result<HardenedNoted, UnshownMeaning>
    ensures kept { IfOk result (λ n. IsNoted program.now hardened.now.program asked.entry hardened.now.certificate n.kept n.beside.notes.items) }
    ensures err { IfErr result (IsUnshown program.now hardened.now.program asked.entry) }
{
    let found = shown(alloc, program, hardened, asked)?;
    let bounds = bounds_of(asked, found.untouched);
    let notes = text_of(alloc, asked, bounds, &found.notes)?;
    let changes = changes_of(alloc, asked, hardened)?;
    Ok(HardenedNoted {
        beside: SideTexts { notes, changes },
        kept: KeptMeaning {
            bounds,
            turns: turns_of(&found, bounds),
            mismatch: found.mismatch,
            said: said_of(asked, found.untouched),
        },
    })
}

/// Puts the certificate that hardening found at a name, if one is given.
fn put_found<'a, P: Places>(
    places: &mut P,
    name: Option<&'a str>,
    hardened: &Hardened,
) -> Result<u8, Failure<'a>>
    requires { IfSome name (λ _. IsSome hardened.now.certificate) }
    ensures ok { IfOk result (PutTexts (making P.creates P.ends P.Writer.contents) places.old
        (named name.entry (found_text hardened.now.certificate)) places.new) }
    ensures err { IfErr result (TextsFail (making P.creates P.ends P.Writer.contents) places.old
        (named name.entry (found_text hardened.now.certificate)) places.new) }
{
    match &hardened.certificate {
        Some(certificate) => put_if(places, name, certificate),
        None => Ok(DONE),
    }
}

/// Writes the texts behind the image, each where a name for it is given: the certificate, the notes, and then the changes.
fn put_texts<'a, P: Places>(
    places: &mut P,
    asked: Hardening<'a>,
    hardened: &Hardened,
    beside: &SideTexts,
) -> Result<u8, Failure<'a>>
    requires { IfSome asked.certificate (λ _. IsSome hardened.now.certificate) }
    ensures ok { IfOk result (PutTexts (making P.creates P.ends P.Writer.contents) places.old
        (texts_behind asked.entry hardened.now.certificate beside.now) places.new) }
    ensures err { IfErr result (TextsFail (making P.creates P.ends P.Writer.contents) places.old
        (texts_behind asked.entry hardened.now.certificate beside.now) places.new) }
{
    put_found(places, asked.certificate, hardened)?;
    put_beside(places, asked, beside)
}

/// Writes the hardened image of an image, its certificate, notes that `follows` reads beside it, and what was done. The places for what is written
/// are made only where there is an image to write.
pub fn hardened<'a, P: Places>(
    alloc: Global,
    places: &mut P,
    asked: Hardening<'a>,
) -> Result<Attempt, Failure<'a>>
    ensures ok { IfOk result (HardenSays P.opens (making P.creates P.ends P.Writer.contents) places.old asked.entry places.new) }
    ensures err { IfErr result (HardenFails P.opens (making P.creates P.ends P.Writer.contents) places.old asked.entry places.new) }
    ensures names { IfErr result (λ _. NotAllMade P.opens (making P.creates P.ends P.Writer.contents) places.old asked.entry places.new) }
{
    let program = match program_at(alloc, places, asked.input, asked.order)? {
        Ok(program) => program,
        Err(error) => return Ok(Attempt::NoImage(error)),
    };
    let hardened = match answer_of(alloc, &program, asked) {
        Ok(hardened) => hardened,
        Err(error) => return Ok(Attempt::NotHardened(error)),
    };
    let HardenedNoted { beside, kept } = match notes_for(alloc, &program, &hardened, asked) {
        Ok(noted) => noted,
        Err(UnshownMeaning::Memory) => return Ok(Attempt::NotHardened(HardenError::Memory)),
        Err(UnshownMeaning::Differs(mismatch)) => return Ok(Attempt::NotShown(mismatch)),
    };
    put(places, asked.output, &hardened.program)?;
    put_texts(places, asked, &hardened, &beside)?;
    Ok(Attempt::Hardened(kept))
}
