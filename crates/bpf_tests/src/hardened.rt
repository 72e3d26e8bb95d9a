//! Programs with guards and counters forced on each access and loop, run beside the old ones: `tests/forced.py` holds the one to the
//! other.
//!
//! Each line is a case: `little` or `big`, the length of contexts, the turns that a loop has, an image in hex, and
//! contexts in hex, `none` for an empty one. The line that answers it has `yes` where the new program is shown to keep the meaning, `yes-32`
//! where that is for runs that leave the lowest 32 bytes of each frame alone, else the number of what fails, as `M3`, or `M9` where no certificate
//! is found for it; and then `OLD/NEW` for each context, what the old and the new program end with: a number, `trap`, the number of a fault, as `F3`,
//! or `on` where it goes on. Where there is no new program it has the number of the refusal, as `E3` or `H2`.

ghost use Rattle.std.specs.Prelude.{◌≤◌, IfSome, length};
ghost use Rattle.bpf_insn.specs.Limits.{max_context};

use crate::words::number_of;
use bpf_certify::evidence_of;
use bpf_harden::{Hardened, Options, harden};
use bpf_infer::{Unwatched, search};
use bpf_insn::{MAX_CONTEXT, Order, Program, decode};
use bpf_kept::{Bounds, Mismatch};
use bpf_machine::{Outcome, run};
use std::alloc::Global;
use std::io::{self, Write};
use std::str::SplitWhitespace;

/// How many steps an old program may make, and how many a new one.
const STEPS: u64 = 20_000;

const NEW_STEPS: u64 = 400_000;

/// What a trap ends a program with: a number that nothing else comes to.
const TRAP: u64 = 0x7261_7074_7261_7074;

/// What a line asks for.
#[derive(Clone, Copy)]
struct Case<'a> {
    order: Order,
    /// The length of the contexts in bytes.
    length: u32,
    turns: u32,
    /// In hex.
    image: &'a str,
}

/// Why there is no new program.
enum NotHardened {
    /// The image isn't hex, or memory ran out.
    Hex,
    Image(u8),
    Hardening(u8),
}

/// An old program, and the new one, with what fails of its notes.
#[derive(Drop)]
struct Pair {
    old: Program,
    new: Program,
    mismatch: Option<Mismatch>,
    /// How many of the lowest bytes of each frame runs have to leave to r10 for that.
    untouched: u32,
}

impl<'a> Case<'a> {
    /// The case that words begin with.
    fn of(words: &mut SplitWhitespace<'a>) -> Case<'a> {
        Case {
            order: match words.next() {
                Some("big") => Order::Big,
                _ => Order::Little,
            },
            length: number_of(words.next()).min(MAX_CONTEXT as u32),
            turns: number_of(words.next()),
            image: words.next().unwrap_or(""),
        }
    }
}

/// The program of a case with guards and counters forced on it, and the certificate that the search finds for it, if it does.
fn forced(alloc: Global, old: &Program, length: u32, turns: u32) -> Result<Hardened, NotHardened>
    requires { length ≤ max_context }
{
    let options = Options {
        turns,
        otherwise: TRAP,
        padded: false,
        everywhere: true,
    };
    let mut hardened = match harden(alloc, old, length, &options) {
        Ok(hardened) => hardened,
        Err(error) => return Err(NotHardened::Hardening(error.number())),
    };
    let found = search(alloc, &hardened.program, length, length, &mut Unwatched);
    hardened.certificate = found.ok();
    Ok(hardened)
}

impl Pair {
    /// The programs of a case.
    fn of(alloc: Global, case: Case<'_>) -> Result<Pair, NotHardened> {
        let Ok(bytes) = hex::decode(alloc, case.image) else {
            return Err(NotHardened::Hex);
        };
        let old = match decode(alloc, &bytes, case.order) {
            Ok(old) => old,
            Err(error) => return Err(NotHardened::Image(error.number())),
        };
        let length = case.length.min(MAX_CONTEXT as u32);
        let hardened = forced(alloc, &old, length, case.turns)?;
        let runs = Bounds {
            length,
            padded: false,
            turns: u64::from(case.turns),
            untouched: 0,
        };
        let Ok(found) = evidence_of(alloc, &old, &hardened, runs) else {
            return Err(NotHardened::Hex);
        };
        Ok(Pair {
            old,
            new: hardened.program,
            mismatch: found.mismatch,
            untouched: found.untouched,
        })
    }

    /// Writes whether the new program is shown to keep the meaning.
    fn tell_shown(&self, out: &mut impl Write) -> io::Result<()> {
        match self.mismatch {
            Some(mismatch) => {
                let number = mismatch.number();
                write!(out, "M{number}")
            }
            None if self.untouched > 0 => {
                let untouched = self.untouched;
                write!(out, "yes-{untouched}")
            }
            None => write!(out, "yes"),
        }
    }

    /// Writes what both end with on a context.
    fn tell(&self, out: &mut impl Write, context: &[u8]) -> io::Result<()>
        requires { length context.now ≤ max_context }
    {
        write!(out, " ")?;
        tell_end(out, run(&self.old, context, STEPS))?;
        write!(out, "/")?;
        tell_end(out, run(&self.new, context, NEW_STEPS))
    }
}

/// Writes what a run ended with.
fn tell_end(out: &mut impl Write, outcome: Outcome) -> io::Result<()> {
    match outcome {
        Outcome::Done { value: TRAP, .. } => write!(out, "trap"),
        Outcome::Done { value, .. } => write!(out, "{value}"),
        Outcome::Fault { reason, .. } => {
            let number = reason.number();
            write!(out, "F{number}")
        }
        Outcome::OutOfFuel => write!(out, "on"),
    }
}

/// Writes why there is no new program.
fn tell_refusal(out: &mut impl Write, refusal: NotHardened) -> io::Result<()> {
    match refusal {
        NotHardened::Hex => write!(out, "no hex"),
        NotHardened::Image(number) => write!(out, "E{number}"),
        NotHardened::Hardening(number) => write!(out, "H{number}"),
    }
}

/// The bytes of a context, or none where it isn't one.
fn context_of(alloc: Global, word: &str) -> Option<Vec<u8>>
    ensures { IfSome result (λ context. length context.items ≤ max_context) }
{
    let text = if word == "none" { "" } else { word };
    match hex::decode(alloc, text) {
        Ok(bytes) if bytes.len() <= MAX_CONTEXT => Some(bytes),
        _ => None,
    }
}

/// Answers a line.
pub fn answer(alloc: Global, out: &mut impl Write, line: &str) -> io::Result<()> {
    let mut words = line.split_whitespace();
    let pair = match Pair::of(alloc, Case::of(&mut words)) {
        Ok(pair) => pair,
        Err(refusal) => return tell_refusal(out, refusal),
    };
    pair.tell_shown(out)?;
    for word in words {
        match context_of(alloc, word) {
            Some(context) => pair.tell(out, &context)?,
            None => write!(out, " no context")?,
        }
    }
    Ok(())
}
