//! Reads the filter of classic BPF at a name, a text or its structs, and makes a program of it with a certificate, for `bpf convert`.

ghost use Rattle.std.specs.Prelude.{◌≡◌, ◌⊎◌, ◌≤◌, Ok, Err, IfOk, IfErr};
ghost use Rattle.bpf_insn.specs.Limits.{max_context};
ghost use Rattle.bpf_classic.specs.declared.fault.TextFault.TheVariants.{Memory};
ghost use Rattle.bpf_answers.specs.Loaded.{BytesAt, Tried, max_text};
ghost use Rattle.bpf_command.specs.Converted.{FilterUnread, IsUnconvertible, form_of, spelled};
ghost use Rattle.bpf_classic.specs.Template.{head, usual_turns};
ghost use Rattle.bpf_command.specs.Spelled.{IsMadeOf, turns_or, wanted_of};

use crate::commands::unconvertible::Unconvertible;
use crate::request::{Converting, MAX_TURNS};
use bpf_answers::{BytesError, Failure, MAX_TEXT, Places, bytes_at};
use bpf_classic::{Form, Raw, TextFault, Wanted, raws_in, raws_of, usual_turns};
use bpf_conversion::{Made, converted};
use std::alloc::Global;

/// The bytes of the filter at a name. It can't be read where there are more than of a text.
pub(crate) fn filter_at<'a, P: Places>(
    alloc: Global,
    places: &mut P,
    name: &'a str,
) -> Result<Vec<u8>, Failure<'a>>
    ensures ok { IfOk result (λ v. BytesAt max_text P.opens places.old name.entry.now places.new v.items) }
    ensures err { IfErr result (FilterUnread P.opens places.old name.entry.now places.new) }
    ensures names { Tried P.opens places.old name.entry.now places.new }
{
    match bytes_at(alloc, places, name, MAX_TEXT) {
        Ok(bytes) => Ok(bytes),
        Err(BytesError::Unreadable | BytesError::TooLong) => Err(Failure::CannotRead(name)),
        Err(BytesError::Memory) => Err(Failure::NoMemory),
    }
}

/// The instructions that bytes spell.
fn spelled(alloc: Global, bytes: &[u8], asked: Converting<'_>) -> Result<Vec<Raw>, TextFault>
    ensures ok { IfOk result (λ raws. spelled asked.entry bytes.now ≡ Ok raws.items) }
    ensures err { IfErr result (λ fault. (fault ≡ Memory) ⊎ (spelled asked.entry bytes.now ≡ Err fault)) }
{
    if asked.raw {
        raws_in(alloc, bytes, asked.order)
    } else {
        raws_of(alloc, bytes)
    }
}

/// The form of the contexts.
fn form_of(asked: Converting<'_>) -> Form
    ensures { result ≡ form_of asked.entry }
{
    if asked.seccomp {
        Form::Seccomp
    } else if asked.extensions {
        Form::Extended
    } else if asked.plain {
        Form::Plain
    } else {
        Form::Blocks
    }
}

/// How often a run may jump back.
fn turns_of(asked: Converting<'_>, form: Form, length: u32) -> u16
    requires { length ≤ max_context }
    ensures { result ≡ turns_or asked.entry.turns (usual_turns form length) }
{
    match asked.turns {
        Some(turns) => turns.min(MAX_TURNS) as u16,
        None => usual_turns(form, length),
    }
}

/// What is wanted, for contexts of this length.
fn wanted_of(asked: Converting<'_>, length: u32) -> Wanted
    requires { length ≤ max_context }
    ensures { result ≡ wanted_of asked.entry length }
{
    let form = form_of(asked);
    Wanted {
        form,
        length,
        order: asked.order,
        turns: turns_of(asked, form, length),
    }
}

/// The instructions that bytes spell, and the program of this filter for contexts of this length, with its certificate.
pub(crate) fn made_of(
    alloc: Global,
    bytes: &[u8],
    asked: Converting<'_>,
    length: u32,
) -> Result<(Vec<Raw>, Made), Unconvertible>
    requires short { length ≤ max_context }
    requires room { head (form_of asked) ≤ length }
    ensures ok { IfOk result (λ found. IsMadeOf asked.entry length bytes.now found.0.items found.1) }
    ensures err { IfErr result (IsUnconvertible asked.entry bytes.now) }
{
    let raws = match spelled(alloc, bytes, asked) {
        Ok(raws) => raws,
        Err(fault) => return Err(Unconvertible::Text(fault)),
    };
    match converted(alloc, &raws, wanted_of(asked, length)) {
        Ok(made) => Ok((raws, made)),
        Err(error) => Err(Unconvertible::Filter(error)),
    }
}
