//! `bpf run --trace`: the last steps of a run, a line each.

ghost use Rattle.std.specs.Prelude.{◌≤◌, length};
ghost use Rattle.bpf_insn.specs.Limits.{max_context};
ghost use Rattle.bpf_machine.specs.Answers.{IsRun};

use crate::aside::Aside;
use crate::commands::tracer::Tracer;
use bpf_explain_program::{SpelledInsn, register, write_padded};
use bpf_insn::{Code, Insn, REGISTERS, Reg};
use bpf_machine::{Machine, Outcome, Region, Value};
use bpf_streams::{Page, Tell};
use std::fmt;
use std::io::Write;

/// What r0 to r10 hold.
type TracedRegisters = [Option<Value>; REGISTERS];

/// Where the last steps of runs are told, and at most how many lines of a run.
#[derive(Drop)]
pub struct Trace<'a, H: Aside> {
    pub aside: &'a H,
    /// None where no steps are told.
    pub lines: Option<u32>,
}

/// What a register holds, as text: `5`, `ctx4`, `fp-8`, with the depth of a frame that isn't the outermost.
#[derive(Clone, Copy)]
struct RegisterText(Option<Value>);

impl fmt::Display for RegisterText {
    fn fmt<W: fmt::Write>(&self, f: &mut fmt::Formatter<W>) -> fmt::Result {
        match self.0 {
            None => f.write_str("nothing"),
            Some(Value::Number(x)) => write!(f, "{x}"),
            Some(Value::Pointer(Region::Context, at)) => write!(f, "ctx{at}"),
            Some(Value::Pointer(Region::Frame(0), at)) => write!(f, "fp{at}"),
            Some(Value::Pointer(Region::Frame(depth), at)) => write!(f, "fp{at} at depth {depth}"),
        }
    }
}

fn registers_of<C: Code>(machine: &Machine<'_, C>) -> TracedRegisters {
    let mut held = [None; REGISTERS];
    for k in 0..REGISTERS {
        held[k] = machine.register(Reg::numbered(k as u8));
    }
    held
}

/// `    1  r6 += -1                            ; r6 becomes 9`
fn write_step<W: Tell>(
    out: &mut W,
    slot: u32,
    insn: Insn,
    before: &TracedRegisters,
    after: &TracedRegisters,
) {
    if before == after {
        let text = SpelledInsn(insn);
        write!(out, "{slot:>5}  {text}\n");
        return;
    }
    write_padded(out, slot, &insn);
    for k in 0..REGISTERS {
        if before[k] != after[k] {
            let (name, held) = (register(Reg::numbered(k as u8)), RegisterText(after[k]));
            write!(out, "; {name} becomes {held}");
        }
    }
    write!(out, "\n");
}

/// Does the next instruction, and tells it.
fn tell_step<C: Code, W: Tell>(out: &mut W, program: &C, machine: &mut Machine<'_, C>) {
    let slot = machine.slot();
    let before = registers_of(machine);
    let _ = machine.step();
    if let Some(insn) = program.insn(slot) {
        write_step(out, slot, insn, &before, &registers_of(machine));
    }
}

/// The line of an instruction that isn't done, with the reason.
fn write_stop<C: Code, W: Tell>(out: &mut W, program: &C, slot: u32, outcome: Outcome) {
    match program.insn(slot) {
        Some(insn) => write_padded(out, slot, &insn),
        None => write!(out, "{slot:>5}  "),
    }
    match outcome {
        Outcome::Fault { reason, .. } => {
            let number = reason.number();
            write!(out, "! F{number}: {reason}\n");
        }
        Outcome::OutOfFuel => write!(out, "! not done: out of fuel\n"),
        Outcome::Done { .. } => write!(out, "\n"),
    }
}

/// How a run ended that had so much fuel.
#[derive(Clone, Copy)]
struct End {
    outcome: Outcome,
    fuel: u64,
}

impl End {
    /// How many instructions were done.
    fn done(self) -> u64 {
        match self.outcome {
            Outcome::Done { steps, .. } | Outcome::Fault { steps, .. } => steps,
            Outcome::OutOfFuel => self.fuel,
        }
    }

    /// Whether it came to an instruction that it didn't do.
    fn is_cut_off(self) -> bool {
        !matches!(self.outcome, Outcome::Done { .. })
    }
}

/// Makes a run once more whose end is known, and tells its last steps. It takes no memory.
fn tell_run<C: Code, W: Tell>(out: &mut W, program: &C, context: &[u8], end: End, most: u64)
    requires short { length context.now ≤ max_context }
    requires run { IsRun (C.program program.now) context.now end.fuel end.outcome }
{
    let kept = most.saturating_sub(u64::from(end.is_cut_off()));
    let mut machine = Machine::start(program, context);
    for behind in (0..end.done()).rev() {
        if behind < kept {
            tell_step(out, program, &mut machine);
        } else {
            let _ = machine.step();
        }
    }
    if end.is_cut_off() {
        write_stop(out, program, machine.slot(), end.outcome);
    }
}

impl<'a, H: Aside> Tracer for Trace<'a, H> {
    // The last steps are told, where that is asked for.
    fn tell<C: Code>(&self, program: &C, context: &[u8], outcome: Outcome, fuel: u64) {
        let Some(most) = self.lines else {
            return;
        };
        let end = End { outcome, fuel };
        let mut stream = self.aside.stream();
        let mut page = Page::new(&mut stream);
        tell_run(&mut page, program, context, end, u64::from(most));
        // Whether it can be told makes no difference to the answer.
        let _ = page.finish();
    }
}
