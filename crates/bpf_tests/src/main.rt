//! Programs of tests that answer lines of standard input. The first word of a line tells which:
//!
//! - `little` or `big`: `hardened.rt` hardens a program by force, and runs it beside the old one.
//! - `old`, `new`, `none`, `note`, `certificate`, `follows`, `written`, `reads` or `#`: `kept.rt` sets programs and notes, and tells what they show.
//! - `calls`: `calls.rt` makes the calls that no command makes alone.
//! - `blocks`, `plain`, `seccomp` or `extended`: `converted.rt` converts a filter, and runs it on packets. So it does with any other line.
#![tactic(auto)]

mod calls;
mod converted;
mod hardened;
mod kept;
mod states;
mod words;

use kept::Session;
use std::alloc::Global;
use std::io::{self, BufRead, BufReader, BufWriter, Write};

/// Answers a case in one line, but for its end.
fn answer_case(alloc: Global, out: &mut impl Write, line: &str) -> io::Result<()> {
    match line.split_whitespace().next() {
        Some("little" | "big") => hardened::answer(alloc, out, line),
        _ => converted::answer(alloc, out, line),
    }
}

/// Answers a line. One of notes may have no answer, and `calls` has many lines.
fn answer(
    alloc: Global,
    out: &mut impl Write,
    session: &mut Session,
    line: &str,
) -> io::Result<()> {
    match line.split_whitespace().next() {
        Some("calls") => calls::tell_calls(alloc, out),
        Some(
            "old" | "new" | "none" | "note" | "certificate" | "follows" | "written" | "reads" | "#",
        ) => kept::heed(alloc, out, session, line),
        _ => {
            answer_case(alloc, out, line)?;
            write!(out, "\n")
        }
    }
}

fn main(rt: HostRuntime) -> io::Result<()> {
    let alloc = rt.alloc();
    let mut out = BufWriter::new(alloc, io::writer(&rt))?;
    let mut session = Session::new(alloc);
    for line in BufReader::new(alloc, rt.reader())?.lines(alloc) {
        answer(alloc, &mut out, &mut session, &line?)?;
    }
    out.flush()
}
