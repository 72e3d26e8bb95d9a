//! `bpf convert IN LEN OUT CERT`.

ghost use Rattle.std.specs.Prelude.{◌≡◌, ◌≤◌, false, IfOk, IfErr};
ghost use Rattle.bpf_insn.specs.Limits.{max_context};
ghost use Rattle.bpf_classic.specs.Template.{head};
ghost use Rattle.bpf_command.specs.Converted.{ConvertFails, ConvertSays, NotConverted, form_of, is_misfit, placing, told_of};

use crate::commands::conversion::Conversion;
use crate::commands::placed::put_all;
use crate::commands::reading::{filter_at, made_of};
use crate::request::Converting;
use bpf_answers::{Certification, Failure, Places};
use bpf_conversion::Made;
use bpf_insn::MAX_CONTEXT;
use bpf_refusals::Tells;
use std::alloc::Global;

/// The length of the contexts; the words' parser has seen that it is at most the greatest.
#[tactic(auto, using(crate::proofs::ConvertedLemmas::within))]
fn length_of(asked: Converting<'_>) -> u32
    ensures short { result ≤ max_context }
    ensures given { asked.entry.length ≤ max_context → result ≡ asked.entry.length }
    ensures room { is_misfit asked.entry ≡ false → head (form_of asked.entry) ≤ result }
{
    asked.length.min(MAX_CONTEXT as u32)
}

/// What is told of what was made.
fn told_of(length: u32, made: &Made) -> Certification
    ensures { result ≡ told_of length made.now }
{
    Certification {
        length,
        bound: made.certificate.steps(),
        rewriting: None,
    }
}

/// Writes the image of a filter of classic BPF, its certificate, and a listing where one is asked for, once all of it is made. The places for them
/// are made only then. The words ask for contexts of one form, and of a length that it has.
pub fn converted<'a, P: Places>(
    alloc: Global,
    places: &mut P,
    asked: Converting<'a>,
) -> Result<Conversion, Failure<'a>>
    requires { is_misfit asked ≡ false }
    ensures ok { IfOk result (ConvertSays P.opens (placing P.creates P.ends P.Writer.contents) places.old asked.entry places.new) }
    ensures err { IfErr result (ConvertFails P.opens (placing P.creates P.ends P.Writer.contents) places.old asked.entry places.new) }
    ensures names { IfErr result (λ _. NotConverted P.opens (placing P.creates P.ends P.Writer.contents) places.old asked.entry places.new) }
{
    let bytes = match filter_at(alloc, places, asked.input) {
        Ok(bytes) => bytes,
        Err(failure) => return Err(failure),
    };
    let length = length_of(asked);
    let (raws, made) = match made_of(alloc, &bytes, asked, length) {
        Ok(found) => found,
        Err(error) => return Ok(Conversion::Refused(error)),
    };
    let told = told_of(length, &made);
    match put_all(alloc, places, asked, &raws, &made) {
        Ok(()) => Ok(Conversion::Made(told)),
        Err(failure) => Err(failure),
    }
}
