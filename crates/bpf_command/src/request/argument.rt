//! The arguments of commands, each with what help says of it, as the parser knows them.

ghost use Rattle.std.specs.Prelude.{◌≡◌, Some, false};
ghost use Rattle.clap.specs.Words.{new_rule, rule_of};
ghost use Rattle.clap.specs.declared.builder.value_parser.ValueParser.TheVariants.{Signed};
ghost use Rattle.bpf_command.specs.Commands.{flag, option, otherwise, place, trace};
ghost use Rattle.bpf_command.specs.Entries.{rule};

use bpf_insn::MAX_CONTEXT;
use clap::builder::ValueParser;
use clap::{Arg, ArgAction};
use std::alloc::Global;

/// An argument: its name where it isn't the only one of its kind, then what else the kind leaves open; at the end the text of help.
#[derive(Clone, Copy)]
pub enum Argument {
    /// A required word.
    Place(&'static str, &'static str),
    /// A word that may be left out.
    Extra(&'static str, &'static str),
    /// The required word for the length of the contexts.
    Length(&'static str),
    Flag(&'static str, &'static str),
    /// An option with the name of a file.
    Named(&'static str, &'static str),
    /// An option with a word: what help calls the word.
    Word(&'static str, &'static str, &'static str),
    /// An option with a number: what help calls the number, the least and the greatest.
    Number(&'static str, &'static str, i64, i64, &'static str),
    /// The option for the most steps.
    Steps(&'static str),
    /// The option for the last steps of a run.
    Trace(&'static str),
    /// The option for the number with which a trap ends the program.
    Otherwise(&'static str),
}

/// A word that may be left out.
fn extra<'a>(alloc: Global, id: &'a str, help: &'a str) -> Arg<'a>
    ensures rule { rule_of result ≡ new_rule id.entry.now }
    ensures local { result.global ≡ false }
{
    Arg::new(alloc, id).help(help)
}

fn place<'a>(alloc: Global, id: &'a str, help: &'a str) -> Arg<'a>
    ensures rule { rule_of result ≡ place id.entry.now }
    ensures local { result.global ≡ false }
{
    extra(alloc, id, help).required(true)
}

fn flag<'a>(alloc: Global, id: &'a str, help: &'a str) -> Arg<'a>
    ensures rule { rule_of result ≡ flag id.entry.now }
    ensures local { result.global ≡ false }
{
    extra(alloc, id, help).long(id).action(ArgAction::SetTrue)
}

/// An option with a word, which help calls by this name.
fn option<'a>(alloc: Global, id: &'a str, name: &'a str, help: &'a str) -> Arg<'a>
    ensures rule { rule_of result ≡ option id.entry.now }
    ensures local { result.global ≡ false }
{
    extra(alloc, id, help).long(id).value_name(name)
}

/// The argument, whose word is a number within these bounds.
fn bounded<'a>(arg: Arg<'a>, least: i64, most: i64) -> Arg<'a>
    ensures rule { rule_of result ≡ record (rule_of arg.entry) { parser = Some (Signed least most) } }
    ensures local { result.global ≡ arg.entry.global }
{
    arg.value_parser(ValueParser::signed(least, most))
}

fn trace<'a>(alloc: Global, help: &'a str) -> Arg<'a>
    ensures rule { rule_of result ≡ trace }
    ensures local { result.global ≡ false }
{
    let arg = option(alloc, "trace", "N", help)
        .num_args(0..=1)
        .default_missing_value("1000");
    bounded(arg, 1, u32::MAX as i64)
}

fn otherwise<'a>(alloc: Global, help: &'a str) -> Arg<'a>
    ensures rule { rule_of result ≡ otherwise }
    ensures local { result.global ≡ false }
{
    option(alloc, "otherwise", "V", help).value_parser(ValueParser::unsigned(0, u64::MAX))
}

/// The argument as the parser knows it.
pub fn arg_of<'a>(alloc: Global, argument: Argument) -> Arg<'a>
    ensures rule { rule_of result ≡ rule argument }
    ensures local { result.global ≡ false }
{
    match argument {
        Argument::Place(id, help) => place(alloc, id, help),
        Argument::Extra(id, help) => extra(alloc, id, help),
        Argument::Length(help) => bounded(place(alloc, "LEN", help), 0, MAX_CONTEXT as i64),
        Argument::Flag(id, help) => flag(alloc, id, help),
        Argument::Named(id, help) => option(alloc, id, "FILE", help),
        Argument::Word(id, name, help) => option(alloc, id, name, help),
        Argument::Number(id, name, least, most, help) => bounded(
            option(alloc, id, name, help),
            least,
            most,
        ),
        Argument::Steps(help) => bounded(
            option(alloc, "steps", "N", help).required(true),
            0,
            u32::MAX as i64,
        ),
        Argument::Trace(help) => trace(alloc, help),
        Argument::Otherwise(help) => otherwise(alloc, help),
    }
}
