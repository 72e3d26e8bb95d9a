//! Which words of a request can't stand together.

ghost use Rattle.std.specs.Prelude.{◌≡◌};
ghost use Rattle.bpf_command.specs.Conflicts.{certify_conflict, conflict_of, conflict_with, conversion_conflict, dashed, dashed_if, emission_conflict, harden_conflict, is_misfit, misplaced, misplaced_in, name_given, out_of_order, same_name, same_names, thrice, twice, twice_in_four, written_twice};

use crate::request::{Aspect, Certifying, Converting, Emitting, Hardening, Request, Subject};
use bpf_answers::Failure;
use bpf_c::is_name;
use bpf_semantics::HEAD_BYTES;

/// Standard input can be read once.
fn twice(first: &str, second: &str) -> Option<Failure<'static>>
    ensures { result ≡ twice first.now second.now }
{
    if first == "-" && second == "-" {
        Some(Failure::InputTwice)
    } else {
        None
    }
}

/// Of three names at most one is standard input.
fn thrice(first: &str, second: &str, third: &str) -> Option<Failure<'static>>
    ensures { result ≡ thrice first.now second.now third.now }
{
    twice(first, second)
        .or(twice(first, third))
        .or(twice(second, third))
}

/// So of four.
fn twice_in_four(first: &str, second: &str, third: &str, fourth: &str) -> Option<Failure<'static>>
    ensures { result ≡ twice_in_four first.now second.now third.now fourth.now }
{
    thrice(first, second, third)
        .or(twice(first, fourth))
        .or(twice(second, fourth))
        .or(twice(third, fourth))
}

/// What isn't wanted there is given: source lines where none are shown, notes where no trap is told.
fn misplaced(lines: Option<&str>) -> Option<Failure<'static>>
    ensures { result ≡ misplaced lines.entry }
{
    match lines {
        Some(_name) => Some(Failure::NotTogether),
        None => None,
    }
}

/// Source lines are given to a graph.
fn misplaced_in(lines: Option<&str>, aspect: Aspect) -> Option<Failure<'static>>
    ensures { result ≡ misplaced_in lines.entry aspect }
{
    match aspect {
        Aspect::Listing | Aspect::Slot(_) => None,
        Aspect::Graph => misplaced(lines),
    }
}

/// The name that is given; empty where none is.
fn name_given<'a>(name: Option<&'a str>) -> &'a str
    ensures { result.now ≡ name_given name.entry }
{
    name.unwrap_or("")
}

/// The greatest length of contexts is at least the least.
fn out_of_order(least: u32, most: u32) -> Option<Failure<'static>>
    ensures { result ≡ out_of_order least most }
{
    if most < least {
        Some(Failure::MostBelowLeast)
    } else {
        None
    }
}

/// Two things that are written have two names.
fn same_name(first: &str, second: Option<&str>) -> Option<Failure<'static>>
    ensures { result ≡ same_name first.now second.entry }
{
    match second {
        Some(second) if first == second => Some(Failure::NotTogether),
        _ => None,
    }
}

/// The same where neither needs a name.
fn same_names(first: Option<&str>, second: Option<&str>) -> Option<Failure<'static>>
    ensures { result ≡ same_names first.entry second.entry }
{
    match first {
        Some(first) => same_name(first, second),
        None => None,
    }
}

/// The image, the notes and the changes are written at names of their own.
fn written_twice(
    output: &str,
    notes: Option<&str>,
    changes: Option<&str>,
) -> Option<Failure<'static>>
    ensures { result ≡ written_twice output.now notes.entry changes.entry }
{
    same_name(output, notes)
        .or(same_name(output, changes))
        .or(same_names(notes, changes))
}

/// The image, the certificate, the notes and the changes of a hardening are.
fn harden_conflict(asked: Hardening<'_>) -> Option<Failure<'static>>
    ensures { result ≡ harden_conflict asked.entry }
{
    written_twice(asked.output, asked.notes, asked.changes)
        .or(same_name(asked.output, asked.certificate))
        .or(same_names(asked.certificate, asked.notes))
        .or(same_names(asked.certificate, asked.changes))
}

/// Standard output takes the line, and no file.
fn dashed(name: &str) -> Option<Failure<'static>>
    ensures { result ≡ dashed name.now }
{
    if name == "-" {
        Some(Failure::NotTogether)
    } else {
        None
    }
}

/// The same of a name that may be left out.
fn dashed_if(name: Option<&str>) -> Option<Failure<'static>>
    ensures { result ≡ dashed_if name.entry }
{
    match name {
        Some(name) => dashed(name),
        None => None,
    }
}

/// What is certified is written to files of its own, and standard input is read once.
fn certify_conflict(asked: Certifying<'_>) -> Option<Failure<'static>>
    ensures { result ≡ certify_conflict asked.entry }
{
    let dashes = dashed(asked.output)
        .or(dashed(asked.certificate))
        .or(dashed_if(asked.notes))
        .or(dashed_if(asked.changes));
    let twice_written = written_twice(asked.output, asked.notes, asked.changes)
        .or(written_twice(asked.certificate, asked.notes, asked.changes))
        .or(same_name(asked.output, Some(asked.certificate)));
    let twice_read = twice(asked.input, name_given(asked.lines));
    dashes.or(twice_written).or(twice_read)
}

/// The bytes in front of the packet of a block with the words of Linux's auxiliary data.
const LONG_HEAD: u32 = 72;

/// The bytes of `struct seccomp_data`.
const SECCOMP: u32 = 64;

/// Whether a length isn't one of the form's contexts.
fn is_misfit(asked: Converting<'_>) -> bool
    ensures { result ≡ is_misfit asked.entry }
{
    if asked.seccomp {
        asked.plain || asked.extensions || asked.length != SECCOMP
    } else if asked.extensions {
        asked.plain || asked.length < LONG_HEAD
    } else {
        !asked.plain && asked.length < HEAD_BYTES
    }
}

/// What a conversion can't be asked for: contexts of two forms, or of a length that their form doesn't have; standard output for a file; one name for two
/// files. Standard output takes the line.
fn conversion_conflict(asked: Converting<'_>) -> Option<Failure<'static>>
    ensures { result ≡ conversion_conflict asked.entry }
{
    if is_misfit(asked) {
        return Some(Failure::NotTogether);
    }
    let dashes = dashed(asked.output)
        .or(dashed(asked.certificate))
        .or(dashed_if(asked.listing));
    dashes.or(written_twice(asked.output, Some(asked.certificate), asked.listing))
}

/// What words can't ask for together: standard input for the image and the certificate; a name that C can't have.
fn emission_conflict(asked: Emitting<'_>) -> Option<Failure<'static>>
    ensures { result ≡ emission_conflict asked.entry }
{
    if asked.input == "-" && asked.certificate == "-" {
        Some(Failure::InputTwice)
    } else if is_name(asked.name) {
        None
    } else {
        Some(Failure::NotTogether)
    }
}

/// What can't be explained of this input.
fn conflict_with(input: &str, lines: Option<&str>, subject: Subject<'_>) -> Option<Failure<'static>>
    ensures { result ≡ conflict_with input.now lines.entry subject.entry }
{
    match subject {
        Subject::Image | Subject::Text | Subject::GraphAlone => misplaced(lines),
        Subject::Certified(certificate) | Subject::Slot { certificate, .. } => {
            thrice(input, certificate, name_given(lines))
        }
        Subject::Inferred {
            least,
            most,
            aspect,
            ..
        } => out_of_order(least, most).or(misplaced_in(lines, aspect).or(twice(
            input,
            name_given(lines),
        ))),
        Subject::Hardened { aspect, .. } => {
            misplaced_in(lines, aspect).or(twice(input, name_given(lines)))
        }
        Subject::Graph(certificate) => misplaced(lines).or(twice(input, certificate)),
        Subject::Misfit(_) => Some(Failure::NotTogether),
    }
}

/// What two words of a request can't ask for together.
pub fn conflict_in(request: Request<'_>) -> Option<Failure<'static>>
    ensures { result ≡ conflict_of request.entry }
{
    match request {
        Request::Groups(_) | Request::Asm(_) | Request::List(_) | Request::Migrate(_) => None,
        Request::Explain(asked) => conflict_with(asked.input, asked.lines, asked.subject),
        Request::Run(asked) => {
            thrice(asked.input, asked.contexts.name(), name_given(asked.notes))
        }
        Request::Check(asked) => twice(asked.input, asked.certificate),
        Request::RunChecked(asked) => {
            twice_in_four(
                asked.input,
                asked.certificate,
                asked.contexts.name(),
                name_given(asked.notes),
            )
        }
        Request::Replay(asked) => {
            misplaced(asked.notes).or(thrice(
                asked.input,
                asked.certificate,
                name_given(asked.packets),
            ))
        }
        Request::Infer(asked) => out_of_order(asked.least, asked.most),
        Request::Harden(asked) => harden_conflict(asked),
        Request::Certify(asked) => certify_conflict(asked),
        Request::Convert(asked) => conversion_conflict(asked),
        Request::ToC(asked) => emission_conflict(asked),
        Request::Follows(asked) => {
            twice_in_four(
                asked.original,
                asked.rewritten,
                asked.notes,
                asked.certificate,
            )
        }
    }
}
