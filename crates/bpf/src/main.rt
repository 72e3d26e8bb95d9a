//! The command `bpf`: a toolchain for eBPF programs that hosts can trust.
#![tactic(auto)]

use bpf_answers::{Cause, Failure, FilePlaces, LastFault, Noted};
use bpf_command::{Progress, fail, respond};
use std::io::{ErrorKind, IsTerminal};
use std::process::ExitCode;
use std::rt::Env;
use std::{env, io};

/// The words of the command line, the command's own name first.
fn words_of(rt: &(impl Env + AllocGlobal)) -> io::Result<Vec<String>> {
    Ok(env::args(rt)?.collect(rt.alloc())?)
}

fn main(rt: HostRuntime) -> ExitCode {
    let fault = LastFault::new();
    let mut out = Noted::new(rt.stdout(), &fault);
    let mut err = rt.stderr();
    let status = match words_of(&rt) {
        Ok(words) => respond(
            rt.alloc(),
            &words,
            &mut FilePlaces::new(&rt, &fault, rt.alloc(), rt.stdin(), rt.stdout()),
            &mut out,
            &mut err,
            &mut Progress::new(&rt, rt.stderr(), rt.stderr().is_terminal()),
        ),
        Err(error) if error.kind() == ErrorKind::OutOfMemory => fail(
            Failure::NoMemory,
            Cause::Unknown,
            &mut err,
        ),
        Err(_) => fail(Failure::NotUtf8, Cause::Unknown, &mut err),
    };
    ExitCode::from(status)
}
