//! `bpf explain IN`, and the same with a certificate, over the inferrer's work, and of a text.

ghost use Rattle.std.specs.Prelude.{◌≡◌, IfOk, IfErr, IfSome, IfNone, None, false, ◌∷◌, []};
ghost use Rattle.std.specs.String.{string_bytes};
ghost use Rattle.bpf_command.specs.Names.{behind_lines, names_explained, names_opened};
ghost use Rattle.bpf_answers.specs.Loaded.{CertificateFails, ImageFails, OpensFirst, ReadableFails, ReadsCertificateAt, Tried};
ghost use Rattle.bpf_command.specs.Explained.{Answers, ExplainFails, ExplainSays, ExplainWithFails, ExplainWithSays, HardenedSays, JudgesOf, LinesAt, LinesFail, SoughtSays, TaskSays, TextSays};
ghost use Rattle.bpf_command.specs.Printed.{ImageSays, JudgedSays, ListSays, LoadedFails, LoadedSays, YesSays};
ghost use Rattle.bpf_answers.specs.Told.{OutputFails};

use crate::request::{Aspect, Explaining, Subject, USUAL_TURNS};
use bpf_answers::{
    Answer, DONE, Failure, Keeping, Places, REFUSED, image_at, print, readable_text_at, text_at,
};
use bpf_cert::{CertError, Certificate, read};
use bpf_check::Refusal;
use bpf_explain::{
    CertificateSearch, HardeningAsked, Shown, explain, explain_hardening, explain_search, is_table,
    write_alone, write_fault, write_program, write_refusal, write_text_refusal,
};
use bpf_infer::{WantedCertificate, Watch};
use bpf_insn::{Code, DecodeError, MAX_CONTEXT, Order, Program, ProgramView, decode};
use bpf_text::{TextError, assemble};
use std::alloc::Global;
use std::io::{self, Write};

// ---- images and texts

/// The status that is answered where words were written.
fn told<'a>(words: io::Result<()>, status: u8) -> Result<u8, Failure<'a>>
    ensures ok { IfOk result (λ s. s ≡ status) }
    ensures err { IfErr result OutputFails }
{
    match words {
        Ok(()) => Ok(status),
        Err(_) => Err(Failure::CannotWrite("standard output")),
    }
}

/// Explains why bytes are refused as an image.
fn refused_image<'a, W: Write>(
    out: &mut W,
    bytes: &[u8],
    order: Order,
    error: DecodeError,
) -> Result<u8, Failure<'a>>
    ensures ok { IfOk result (λ s. s ≡ 1) }
    ensures err { IfErr result OutputFails }
{
    told(write_refusal(bytes, order, error, out), REFUSED)
}

/// Explains an image, or draws the graph of its program.
fn explained_image<'a, P: Places, W: Write>(
    alloc: Global,
    places: &mut P,
    out: &mut W,
    input: &'a str,
    order: Order,
    is_graph: bool,
) -> Result<u8, Failure<'a>>
    ensures ok { IfOk result (Answers (ImageSays P.opens order places.old input.entry.now places.new (ListSays None))) }
    ensures err { IfErr result (ImageFails P.opens places.old input.entry.now places.new) }
    ensures opened { OpensFirst P.opens (input.entry.now ∷ []) places.old places.new }
{
    let bytes = match image_at(alloc, places, input)? {
        Ok(bytes) => bytes,
        Err(error) => return print(out, &Answer::NoImage(error)),
    };
    match ProgramView::of(&bytes, order) {
        Ok(program) => told(write_alone(&program, is_graph, out), DONE),
        Err(error) => refused_image(out, &bytes, order, error),
    }
}

/// Explains a text.
fn explained_text<'a, P: Places, W: Write>(
    alloc: Global,
    places: &mut P,
    out: &mut W,
    input: &'a str,
    order: Order,
) -> Result<u8, Failure<'a>>
    ensures ok { IfOk result (Answers (TextSays P.opens places.old input.entry.now places.new)) }
    ensures err { IfErr result (ReadableFails P.opens places.old input.entry.now places.new) }
    ensures opened { OpensFirst P.opens (input.entry.now ∷ []) places.old places.new }
{
    let text = readable_text_at(alloc, places, input)?;
    match assemble(alloc, text.as_str(), order) {
        Ok(program) => told(write_program(&program, out), DONE),
        Err(TextError::Memory) => print(out, &Answer::NoText(TextError::Memory)),
        Err(error) => told(
            write_text_refusal(alloc, text.as_str().as_bytes(), error, out),
            REFUSED,
        ),
    }
}

// ---- certificates

/// Shows a program with its certificate, and answers the status.
fn say_program<'a, C: Code, W: Write>(
    out: &mut W,
    program: &C,
    certificate: &Certificate,
    shown: Shown<'_>,
) -> Result<u8, Failure<'a>>
    ensures ok { IfOk result (JudgesOf (C.program program.now) certificate.now) }
    ensures err { IfErr result OutputFails }
{
    match explain(program, certificate, shown, out) {
        Ok(None) => Ok(DONE),
        Ok(Some(_refusal)) => Ok(REFUSED),
        Err(_) => Err(Failure::CannotWrite("standard output")),
    }
}

/// Explains why a certificate's text is refused.
fn refused_text<'a, W: Write>(
    out: &mut W,
    bytes: Option<Vec<u8>>,
    error: CertError,
) -> Result<u8, Failure<'a>>
    ensures ok { IfOk result (λ s. s ≡ 1) }
    ensures err { IfErr result OutputFails }
{
    let Some(bytes) = bytes else {
        return Err(Failure::NoMemory);
    };
    told(write_fault(&bytes, error, out), REFUSED)
}

/// The certificate at a name, or why it is refused; and its bytes as far as they were read, unless memory ran out.
fn certificate_kept<'a, P: Places>(
    alloc: Global,
    places: &mut P,
    name: &'a str,
) -> Result<(Result<Certificate, CertError>, Option<Vec<u8>>), Failure<'a>>
    ensures ok { IfOk result (λ found. ReadsCertificateAt P.opens places.old name.entry.now places.new found.0) }
    ensures err { IfErr result (CertificateFails P.opens places.old name.entry.now places.new) }
    ensures names { Tried P.opens places.old name.entry.now places.new }
{
    let Ok(reader) = places.open(name) else {
        return Err(Failure::CannotRead(name));
    };
    let mut keeping = Keeping::new(alloc, reader);
    match read(alloc, &mut keeping) {
        Err(CertError::Read { .. }) => Err(Failure::CannotRead(name)),
        answer => Ok((answer, keeping.into_kept())),
    }
}

/// Explains a program with the certificate at a name, or why there is none.
fn explained_with<'a, P: Places, C: Code, W: Write>(
    alloc: Global,
    places: &mut P,
    out: &mut W,
    program: &C,
    certificate: &'a str,
    shown: Shown<'_>,
) -> Result<u8, Failure<'a>>
    ensures ok { IfOk result (Answers (JudgedSays P.opens places.old certificate.entry.now places.new (C.program program.now) (YesSays false))) }
    ensures err { IfErr result (CertificateFails P.opens places.old certificate.entry.now places.new) }
    ensures opened { OpensFirst P.opens (certificate.entry.now ∷ []) places.old places.new }
{
    let (answer, bytes) = certificate_kept(alloc, places, certificate)?;
    match answer {
        Ok(certificate) => say_program(out, program, &certificate, shown),
        Err(CertError::Memory) => print(out, &Answer::NoCertificate(CertError::Memory)),
        Err(error) => refused_text(out, bytes, error),
    }
}

/// Explains the image's program with a certificate, or why one of the two is refused. The image is judged before the
/// certificate is opened.
fn explained_certified<'a, P: Places, W: Write>(
    alloc: Global,
    places: &mut P,
    out: &mut W,
    input: &'a str,
    certificate: &'a str,
    shown: Shown<'_>,
    order: Order,
) -> Result<u8, Failure<'a>>
    ensures ok { IfOk result (Answers (LoadedSays P.opens order places.old input.entry.now certificate.entry.now places.new (λ bytes. YesSays false))) }
    ensures err { IfErr result (LoadedFails P.opens order places.old input.entry.now certificate.entry.now places.new) }
    ensures opened { OpensFirst P.opens (input.entry.now ∷ certificate.entry.now ∷ []) places.old places.new }
{
    let bytes = match image_at(alloc, places, input)? {
        Ok(bytes) => bytes,
        Err(error) => return print(out, &Answer::NoImage(error)),
    };
    match ProgramView::of(&bytes, order) {
        Ok(program) => explained_with(alloc, places, out, &program, certificate, shown),
        Err(error) => refused_image(out, &bytes, order, error),
    }
}

// ---- the inferrer

/// The status of a certificate that was found, by the checker's refusal.
fn status_by(refusal: Option<Refusal>) -> u8
    ensures yes { IfNone refusal (result ≡ 0) }
    ensures no { IfSome refusal (λ r. result ≡ 1) }
{
    match refusal {
        None => DONE,
        Some(_refusal) => REFUSED,
    }
}

/// Explains what a search finds for a program, and answers the status.
fn say_inferred<'a, W: Write, H: Watch>(
    alloc: Global,
    out: &mut W,
    watch: &mut H,
    program: &Program,
    asked: CertificateSearch<'_>,
) -> Result<u8, Failure<'a>>
    ensures ok { IfOk result (Answers (SoughtSays asked.entry.wanted.least asked.entry.wanted.most program.now)) }
    ensures err { IfErr result OutputFails }
{
    // `respond` has seen that the lengths are in order, and the words' parser that they are at most the greatest.
    let most = asked.wanted.most.min(MAX_CONTEXT as u32);
    let wanted = WantedCertificate {
        least: asked.wanted.least.min(most),
        most,
        ..asked.wanted
    };
    let within = CertificateSearch { wanted, ..asked };
    match explain_search(alloc, program, within, watch, out) {
        Ok(Ok(found)) => Ok(status_by(found.refusal)),
        Ok(Err(_error)) => Ok(REFUSED),
        Err(_) => Err(Failure::CannotWrite("standard output")),
    }
}

// ---- hardening

/// Explains what hardening makes of a program, and answers the status.
fn say_hardened<'a, W: Write, H: Watch>(
    alloc: Global,
    out: &mut W,
    watch: &mut H,
    program: &Program,
    asked: HardeningAsked<'_>,
) -> Result<u8, Failure<'a>>
    ensures ok { IfOk result (Answers (HardenedSays asked.entry.length asked.entry.padded asked.entry.turns program.now)) }
    ensures err { IfErr result OutputFails }
{
    // The words' parser has seen that it is at most the greatest.
    let length = asked.length.min(MAX_CONTEXT as u32);
    let within = HardeningAsked { length, ..asked };
    match explain_hardening(alloc, program, within, watch, out) {
        Ok(Ok((_made, refusal))) => Ok(status_by(refusal)),
        Ok(Err(_why)) => Ok(REFUSED),
        Err(_) => Err(Failure::CannotWrite("standard output")),
    }
}

// ---- what is made for a program before it is explained

/// What is made for a program before it is explained.
#[derive(Clone, Copy)]
pub enum ExplainTask<'t> {
    /// A certificate.
    Search(CertificateSearch<'t>),
    /// A hardened program.
    Harden(HardeningAsked<'t>),
}

/// Explains what is made for a program, and answers the status.
fn say_made<'a, W: Write, H: Watch>(
    alloc: Global,
    out: &mut W,
    watch: &mut H,
    program: &Program,
    task: ExplainTask<'_>,
) -> Result<u8, Failure<'a>>
    ensures ok { IfOk result (Answers (TaskSays task.entry program.now)) }
    ensures err { IfErr result OutputFails }
{
    match task {
        ExplainTask::Search(asked) => say_inferred(alloc, out, watch, program, asked),
        ExplainTask::Harden(asked) => say_hardened(alloc, out, watch, program, asked),
    }
}

/// Explains what is made for the image's program.
fn explained_made<'a, P: Places, W: Write, H: Watch>(
    alloc: Global,
    places: &mut P,
    out: &mut W,
    watch: &mut H,
    input: &'a str,
    task: ExplainTask<'_>,
    order: Order,
) -> Result<u8, Failure<'a>>
    ensures ok { IfOk result (Answers (ImageSays P.opens order places.old input.entry.now places.new (TaskSays task.entry))) }
    ensures err { IfErr result (ImageFails P.opens places.old input.entry.now places.new) }
    ensures opened { OpensFirst P.opens (input.entry.now ∷ []) places.old places.new }
{
    let bytes = match image_at(alloc, places, input)? {
        Ok(bytes) => bytes,
        Err(error) => return print(out, &Answer::NoImage(error)),
    };
    match decode(alloc, &bytes, order) {
        Ok(program) => say_made(alloc, out, watch, &program, task),
        Err(DecodeError::Memory) => print(out, &Answer::NoImage(DecodeError::Memory)),
        Err(error) => refused_image(out, &bytes, order, error),
    }
}

// ---- what is asked for

/// The table of source lines at a name; an empty one where no name is given. What isn't one can't be read.
pub(super) fn lines_at<'a, P: Places>(
    alloc: Global,
    places: &mut P,
    lines: Option<&'a str>,
) -> Result<String, Failure<'a>>
    ensures ok { IfOk result (λ table. LinesAt P.opens places.old lines.entry places.new (string_bytes table)) }
    ensures err { IfErr result (LinesFail P.opens places.old lines.entry places.new) }
    ensures opened { OpensFirst P.opens (behind_lines lines.entry []) places.old places.new }
{
    let Some(name) = lines else {
        return Ok(String::new(alloc));
    };
    let table = text_at(alloc, places, name)?;
    if !is_table(table.as_str().as_bytes()) {
        return Err(Failure::CannotRead(name));
    }
    Ok(table)
}

/// What is shown, with a table of source lines.
fn shown_of(aspect: Aspect, lines: &[u8]) -> Shown<'_> {
    match aspect {
        Aspect::Listing => Shown::Listing { lines },
        Aspect::Slot(slot) => Shown::Slot { slot, lines },
        Aspect::Graph => Shown::Graph,
    }
}

/// Explains what is asked for, with a table of source lines.
fn explained_subject<'a, P: Places, W: Write, H: Watch>(
    alloc: Global,
    places: &mut P,
    out: &mut W,
    watch: &mut H,
    asked: Explaining<'a>,
    lines: &[u8],
) -> Result<u8, Failure<'a>>
    ensures ok { IfOk result (ExplainSays P.opens asked.entry.order places.old asked.entry.input.now asked.entry.subject places.new) }
    ensures err { IfErr result (ExplainFails P.opens asked.entry.order places.old asked.entry.input.now asked.entry.subject places.new) }
    ensures opened { OpensFirst P.opens (names_explained asked.entry.input.now asked.entry.subject) places.old places.new }
{
    let Explaining { input, order, .. } = asked;
    match asked.subject {
        Subject::Image => explained_image(alloc, places, out, input, order, false),
        Subject::GraphAlone => explained_image(alloc, places, out, input, order, true),
        Subject::Text => explained_text(alloc, places, out, input, order),
        Subject::Certified(certificate) => {
            let shown = Shown::Listing { lines };
            explained_certified(alloc, places, out, input, certificate, shown, order)
        }
        Subject::Graph(certificate) => {
            explained_certified(alloc, places, out, input, certificate, Shown::Graph, order)
        }
        Subject::Slot { certificate, slot } => {
            let shown = Shown::Slot { slot, lines };
            explained_certified(alloc, places, out, input, certificate, shown, order)
        }
        Subject::Inferred {
            least,
            most,
            deep,
            aspect,
        } => {
            let task = ExplainTask::Search(CertificateSearch {
                wanted: WantedCertificate { least, most, deep },
                shown: shown_of(aspect, lines),
            });
            explained_made(alloc, places, out, watch, input, task, order)
        }
        Subject::Hardened {
            length,
            padded,
            aspect,
        } => {
            let task = ExplainTask::Harden(HardeningAsked {
                length,
                padded,
                turns: USUAL_TURNS,
                shown: shown_of(aspect, lines),
            });
            explained_made(alloc, places, out, watch, input, task, order)
        }
        Subject::Misfit(_) => Err(Failure::NotTogether),
    }
}

/// Explains a program, or why an input is refused, with the lines of its source at a name, which is opened first. The status is
/// that of the command that judges the same. Who watches is told how far a deep search is.
pub fn explained<'a, P: Places, W: Write, H: Watch>(
    alloc: Global,
    places: &mut P,
    out: &mut W,
    watch: &mut H,
    asked: Explaining<'a>,
) -> Result<u8, Failure<'a>>
    ensures ok { IfOk result (ExplainWithSays P.opens places.old asked.entry places.new) }
    ensures err { IfErr result (ExplainWithFails P.opens places.old asked.entry places.new) }
    ensures opened { OpensFirst P.opens (names_opened asked.entry) places.old places.new }
{
    let table = lines_at(alloc, places, asked.lines)?;
    explained_subject(alloc, places, out, watch, asked, table.as_str().as_bytes())
}
