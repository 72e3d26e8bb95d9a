//! The commands and their arguments, as the parser knows them.

ghost use Rattle.clap.specs.Words.{App, new_app};
ghost use Rattle.bpf_command.specs.Commands.{Grows, bpf, top, with_proposals, without_certificates};
ghost use Rattle.bpf_command.specs.Entries.{app_in, with_entries};

use crate::request::argument::{Argument, arg_of};
use crate::request::table::{Entry, FIRST, LAST, SECOND};
use clap::Command;
use std::alloc::{AllocError, Global};

/// The command's version, and in a line of its own the kit that it is proved with, as `rt version` names it.
const VERSION: &str = "0.3.4\nrattle-kit-13f logic dac8208d650f15bf";

/// A command with what was added to it, or the want of memory that ended that.
type Grown<'a> = Result<Command<'a>, AllocError>;

/// The command of an entry.
fn command_in<'a>(alloc: Global, entry: &Entry) -> Grown<'a>
    ensures { Grows result (app_in entry.now) }
{
    let mut command = Command::new(alloc, entry.name).about(entry.about);
    'arguments: for argument in entry.arguments {
        command = command.arg(arg_of(alloc, *argument))?;
    }
    Ok(command)
}

/// The command with these below it.
fn over<'a>(alloc: Global, command: Grown<'a>, entries: &[Entry]) -> Grown<'a>
    ensures { (a : App) → Grows command.entry a → Grows result (with_entries a entries.now) }
{
    let mut command = command?;
    'entries: for entry in entries {
        let lower = command_in(alloc, entry)?;
        command = command.subcommand(lower)?;
    }
    Ok(command)
}

/// `bpf` without a command.
fn top<'a>(alloc: Global) -> Grown<'a>
    ensures { Grows result top }
{
    Ok(
        Command::new(alloc, "bpf")
            .version(VERSION)
            .about("Works on eBPF programs (RFC 9669, integer profile)")
            .subcommand_required(true),
    )
}

/// `bpf` with the commands that take no certificate.
fn first_commands<'a>(alloc: Global) -> Grown<'a>
    ensures { Grows result without_certificates }
{
    over(alloc, top(alloc), &FIRST)
}

/// `bpf` with the commands that judge, run and propose as well.
fn with_proposals<'a>(alloc: Global) -> Grown<'a>
    ensures { Grows result with_proposals }
{
    over(alloc, first_commands(alloc), &SECOND)
}

/// `bpf` with all its commands.
pub fn command<'a>(alloc: Global) -> Grown<'a>
    ensures { Grows result bpf }
{
    over(alloc, with_proposals(alloc), &LAST)
}
