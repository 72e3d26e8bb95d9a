//! The lines of runs that end at a trap.

ghost use Rattle.std.specs.Prelude.{◌++◌, OnOk, OnErr};
ghost use Rattle.std.specs.Io.KnownBytes.{Appends};
ghost use Rattle.bpf_insn.specs.Written.{AppendsBeginning, Gathers};
ghost use Rattle.bpf_answers.specs.Answer.{end_at_trap_line, run_to_trap_line};

use crate::pieces::{put_pieces, write_pieces};
use bpf_insn::written::Pending;
use itoa::Buffer;
use std::io::{self, Write};

/// Puts that a run ended so behind what waits: `done 0 steps 23 trap`.
pub fn put_run_to_trap<W: Write>(
    pending: &mut Pending,
    out: &mut W,
    value: u64,
    steps: u64,
) -> io::Result<()>
    ensures ok { OnOk result (Gathers (W.contents out.old) (W.contents out.new) pending.old pending.new (run_to_trap_line value steps)) }
    ensures err { OnErr result (AppendsBeginning (W.contents out.old) (W.contents out.new) (pending.old ++ run_to_trap_line value steps)) }
{
    let mut first = Buffer::new();
    let mut second = Buffer::new();
    let value = first.format(value);
    let steps = second.format(steps);
    put_pieces(pending, out, &["done ", value, " steps ", steps, " trap\n"])
}

/// Writes the same.
pub fn write_run_to_trap<W: Write>(out: &mut W, value: u64, steps: u64) -> io::Result<()>
    ensures ok { OnOk result (Appends (W.contents out.old) (W.contents out.new) (run_to_trap_line value steps)) }
    ensures err { OnErr result (AppendsBeginning (W.contents out.old) (W.contents out.new) (run_to_trap_line value steps)) }
{
    let mut first = Buffer::new();
    let mut second = Buffer::new();
    let value = first.format(value);
    let steps = second.format(steps);
    write_pieces(out, &["done ", value, " steps ", steps, " trap\n"])
}

/// Puts that a checked program ended so behind what waits: `done 0 trap`.
pub fn put_end_at_trap<W: Write>(pending: &mut Pending, out: &mut W, value: u64) -> io::Result<()>
    ensures ok { OnOk result (Gathers (W.contents out.old) (W.contents out.new) pending.old pending.new (end_at_trap_line value)) }
    ensures err { OnErr result (AppendsBeginning (W.contents out.old) (W.contents out.new) (pending.old ++ end_at_trap_line value)) }
{
    let mut digits = Buffer::new();
    put_pieces(pending, out, &["done ", digits.format(value), " trap\n"])
}

/// Writes the same.
pub fn write_end_at_trap<W: Write>(out: &mut W, value: u64) -> io::Result<()>
    ensures ok { OnOk result (Appends (W.contents out.old) (W.contents out.new) (end_at_trap_line value)) }
    ensures err { OnErr result (AppendsBeginning (W.contents out.old) (W.contents out.new) (end_at_trap_line value)) }
{
    let mut digits = Buffer::new();
    write_pieces(out, &["done ", digits.format(value), " trap\n"])
}
