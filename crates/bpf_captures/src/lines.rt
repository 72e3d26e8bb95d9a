//! The lines of answers, which wait and go out in pieces.

ghost use Rattle.std.specs.Prelude.{◌++◌, OnOk, OnErr};
ghost use Rattle.bpf_insn.specs.Written.{AppendsBeginning, Gathers};
ghost use Rattle.bpf_captures.specs.Lines.{count_line, value_line};

use arrayvec::ArrayString;
use bpf_insn::written::Pending;
use itoa::Buffer;
use std::io::{self, Write};

/// Puts the line of a number behind those that wait. Takes no memory.
pub fn put_value<W: Write>(out: &mut W, pending: &mut Pending, value: u64) -> io::Result<()>
    ensures ok { OnOk result (Gathers (W.contents out.old) (W.contents out.new) pending.old pending.new (value_line value)) }
    ensures err { OnErr result (AppendsBeginning (W.contents out.old) (W.contents out.new) (pending.old ++ value_line value)) }
{
    let mut digits = Buffer::new();
    let mut line: ArrayString<32> = ArrayString::new();
    line.push_str("done ");
    line.push_str(digits.format(value));
    line.push_str("\n");
    pending.put(out, line.as_str().as_bytes())
}

/// Puts the line of a number and how often it came behind those that wait. Takes no memory.
pub fn put_count<W: Write>(
    out: &mut W,
    pending: &mut Pending,
    value: u64,
    times: u64,
) -> io::Result<()>
    ensures ok { OnOk result (Gathers (W.contents out.old) (W.contents out.new) pending.old pending.new (count_line (value, times))) }
    ensures err { OnErr result (AppendsBeginning (W.contents out.old) (W.contents out.new) (pending.old ++ count_line (value, times))) }
{
    let mut digits = Buffer::new();
    let mut line: ArrayString<64> = ArrayString::new();
    line.push_str("done ");
    line.push_str(digits.format(value));
    line.push_str(" times ");
    line.push_str(digits.format(times));
    line.push_str("\n");
    pending.put(out, line.as_str().as_bytes())
}
