//! The lines of answers that are more than a letter, a number and a place.

ghost use Rattle.std.specs.Prelude.{◌≡◌, ◌++◌, OnOk, OnErr, Some};
ghost use Rattle.std.specs.Io.KnownBytes.{Appends};
ghost use Rattle.bpf_insn.specs.Written.{AppendsBeginning, Gathers};
ghost use Rattle.bpf_answers.specs.Answer.{capture_line, certified_line, follows_line, groups_line, infer_refusal_line, no_context_line, padded_word, proved_end, run_line, text_of, text_refusal_line, turns_word, untouched_number, untouched_word, work_line, yes_line};
ghost use Rattle.bpf_answers.specs.declared.answer.Answer.TheVariants.{Yes};
ghost use Rattle.bpf_text.specs.declared.error.TextError.TheVariants.{Program as InProgram};
ghost use Rattle.bpf_infer_base.specs.declared.error.InferError.TheVariants.{Fault as NoState};

use crate::certified::{Certification, Rewriting};
use crate::counted::Counted;
use crate::pieces::{put_pieces, write_at, write_pieces};
use bpf_captures::CaptureRefusal;
use bpf_infer_base::{ForeseenCondition, InferError};
use bpf_insn::written::{Pending, write_bytes};
use bpf_insn::{BuildError, Groups};
use bpf_kept::{Bounds, Turns};
use bpf_machine::Outcome;
use bpf_text::TextError;
use itoa::Buffer;
use std::io::{self, Write};

/// `yes length 0..4096 bound 23`, or `yes length 16 bound 23`.
fn write_yes<W: Write>(out: &mut W, least: u32, most: u32, bound: u32) -> io::Result<()>
    ensures ok { OnOk result (Appends (W.contents out.old) (W.contents out.new) (yes_line least most bound)) }
    ensures err { OnErr result (AppendsBeginning (W.contents out.old) (W.contents out.new) (yes_line least most bound)) }
{
    let mut first = Buffer::new();
    let mut second = Buffer::new();
    let mut third = Buffer::new();
    let length = first.format(least);
    let bound = third.format(bound);
    if least == most {
        write_pieces(out, &["yes length ", length, " bound ", bound, "\n"])
    } else {
        let most = second.format(most);
        write_pieces(
            out,
            &["yes length ", length, "..", most, " bound ", bound, "\n"],
        )
    }
}

/// `transfers 5 comparisons 4`.
fn write_work<W: Write>(out: &mut W, work: &Counted) -> io::Result<()>
    ensures ok { OnOk result (Appends (W.contents out.old) (W.contents out.new) (work_line work.now)) }
    ensures err { OnErr result (AppendsBeginning (W.contents out.old) (W.contents out.new) (work_line work.now)) }
{
    let mut first = Buffer::new();
    let mut second = Buffer::new();
    let transfers = first.format(work.transfers());
    let comparisons = second.format(work.comparisons());
    write_pieces(
        out,
        &["transfers ", transfers, " comparisons ", comparisons, "\n"],
    )
}

/// Both lines.
fn write_counted<W: Write>(
    out: &mut W,
    least: u32,
    most: u32,
    bound: u32,
    work: &Counted,
) -> io::Result<()>
    ensures ok { OnOk result (Appends (W.contents out.old) (W.contents out.new) (yes_line least most bound ++ work_line work.now)) }
    ensures err { OnErr result (AppendsBeginning (W.contents out.old) (W.contents out.new) (yes_line least most bound ++ work_line work.now)) }
{
    write_yes(out, least, most, bound)?;
    write_work(out, work)
}

/// What a certificate promises, and the work of the check where it is told.
pub fn write_promise<W: Write>(
    out: &mut W,
    least: u32,
    most: u32,
    bound: u32,
    work: &Option<Counted>,
) -> io::Result<()>
    ensures ok { OnOk result (Appends (W.contents out.old) (W.contents out.new) (text_of (Yes least most bound work.now))) }
    ensures err { OnErr result (AppendsBeginning (W.contents out.old) (W.contents out.new) (text_of (Yes least most bound work.now))) }
{
    match work {
        None => write_yes(out, least, most, bound),
        Some(work) => write_counted(out, least, most, bound, work),
    }
}

/// `no A6 at line 1 (E8 at slot 0)`.
fn write_in_program<W: Write>(out: &mut W, line: usize, error: BuildError) -> io::Result<()>
    ensures ok { OnOk result (Appends (W.contents out.old) (W.contents out.new) (text_refusal_line (InProgram line error))) }
    ensures err { OnErr result (AppendsBeginning (W.contents out.old) (W.contents out.new) (text_refusal_line (InProgram line error))) }
{
    let mut first = Buffer::new();
    let mut second = Buffer::new();
    let mut third = Buffer::new();
    let line = first.format(line);
    let number = second.format(error.number());
    let slot = third.format(error.slot());
    write_pieces(
        out,
        &[
            "no A6 at line ",
            line,
            " (E",
            number,
            " at slot ",
            slot,
            ")\n",
        ],
    )
}

/// Why a text is no program.
pub fn write_text_refusal<W: Write>(out: &mut W, error: TextError) -> io::Result<()>
    ensures ok { OnOk result (Appends (W.contents out.old) (W.contents out.new) (text_refusal_line error)) }
    ensures err { OnErr result (AppendsBeginning (W.contents out.old) (W.contents out.new) (text_refusal_line error)) }
{
    match error {
        TextError::Form { line } => write_at(out, "no A1 at line ", line as u64),
        TextError::Range { line } => write_at(out, "no A2 at line ", line as u64),
        TextError::DefinedAgain { line } => write_at(out, "no A3 at line ", line as u64),
        TextError::Undefined { line } => write_at(out, "no A4 at line ", line as u64),
        TextError::TooFar { line } => write_at(out, "no A5 at line ", line as u64),
        TextError::Program { line, error } => write_in_program(out, line, error),
        TextError::Memory => write_bytes(out, "no A7 at line 0\n".as_bytes()),
    }
}

/// `no I4 (C5) at slot 0`.
fn write_no_state<W: Write>(out: &mut W, slot: u32, condition: ForeseenCondition) -> io::Result<()>
    ensures ok { OnOk result (Appends (W.contents out.old) (W.contents out.new) (infer_refusal_line (NoState slot condition))) }
    ensures err { OnErr result (AppendsBeginning (W.contents out.old) (W.contents out.new) (infer_refusal_line (NoState slot condition))) }
{
    let mut first = Buffer::new();
    let mut second = Buffer::new();
    let number = first.format(condition.number());
    let slot = second.format(slot);
    write_pieces(out, &["no I4 (C", number, ") at slot ", slot, "\n"])
}

/// Why no certificate is proposed.
pub fn write_infer_refusal<W: Write>(out: &mut W, error: InferError) -> io::Result<()>
    ensures ok { OnOk result (Appends (W.contents out.old) (W.contents out.new) (infer_refusal_line error)) }
    ensures err { OnErr result (AppendsBeginning (W.contents out.old) (W.contents out.new) (infer_refusal_line error)) }
{
    match error {
        InferError::Unstable { slot } => write_at(out, "no I1 at slot ", u64::from(slot)),
        InferError::NoBudget { slot } => write_at(out, "no I2 at slot ", u64::from(slot)),
        InferError::Recursion { slot } => write_at(out, "no I3 at slot ", u64::from(slot)),
        InferError::Fault { slot, condition } => write_no_state(out, slot, condition),
        InferError::Memory => write_bytes(out, "no I5 at slot 0\n".as_bytes()),
    }
}

/// Why a capture is refused, and where: `no P4 at packet 3 byte 1060`.
pub fn write_no_capture<W: Write>(out: &mut W, refusal: CaptureRefusal) -> io::Result<()>
    ensures ok { OnOk result (Appends (W.contents out.old) (W.contents out.new) (capture_line refusal)) }
    ensures err { OnErr result (AppendsBeginning (W.contents out.old) (W.contents out.new) (capture_line refusal)) }
{
    let mut first = Buffer::new();
    let mut second = Buffer::new();
    let mut third = Buffer::new();
    let number = first.format(refusal.error.number());
    let packet = second.format(refusal.packet);
    let byte = third.format(refusal.byte);
    write_pieces(
        out,
        &["no P", number, " at packet ", packet, " byte ", byte, "\n"],
    )
}

/// The word for contexts that are blocks.
fn padded_word(padded: bool) -> &'static str
    ensures { result.now ≡ padded_word padded }
{
    if padded { " padded" } else { "" }
}

/// The end of a certified program's line: what isn't shown is named.
fn proved_end(is_shown: bool) -> &'static str
    ensures { result.now ≡ proved_end is_shown }
{
    if is_shown { "\n" } else { " unproved\n" }
}

/// A number of turns in words: `any`, or the greatest.
fn turns_word(buffer: &mut Buffer, turns: Turns) -> &str
    ensures { result.now ≡ turns_word turns }
{
    match turns {
        Turns::Any => "any",
        Turns::Most(most) => buffer.format(most),
    }
}

/// The word in front of how many bytes are left alone; nothing where none is.
fn untouched_word(untouched: u32) -> &'static str
    ensures { result.now ≡ untouched_word untouched }
{
    if untouched == 0 { "" } else { " untouched " }
}

/// How many bytes are left alone; nothing where none is.
fn untouched_number(buffer: &mut Buffer, untouched: u32) -> &str
    ensures { result.now ≡ untouched_number untouched }
{
    if untouched == 0 {
        ""
    } else {
        buffer.format(untouched)
    }
}

/// The line of a certified program that was hardened.
fn write_rewritten<W: Write>(
    out: &mut W,
    length: u32,
    bound: u32,
    rewriting: Rewriting,
) -> io::Result<()>
    ensures ok { OnOk result (Appends (W.contents out.old) (W.contents out.new) (certified_line length bound (Some rewriting))) }
    ensures err { OnErr result (AppendsBeginning (W.contents out.old) (W.contents out.new) (certified_line length bound (Some rewriting))) }
{
    let mut first = Buffer::new();
    let mut second = Buffer::new();
    let mut third = Buffer::new();
    let mut fourth = Buffer::new();
    let length = first.format(length);
    let bound = second.format(bound);
    let turns = turns_word(&mut third, rewriting.told);
    let word = padded_word(rewriting.padded);
    let front = untouched_word(rewriting.untouched);
    let count = untouched_number(&mut fourth, rewriting.untouched);
    let end = proved_end(rewriting.is_shown);
    write_pieces(
        out,
        &[
            "yes length ",
            length,
            " bound ",
            bound,
            " hardened turns ",
            turns,
            word,
            front,
            count,
            end,
        ],
    )
}

/// For which contexts and within which bound an image is certified, and what was done to it.
pub fn write_certified<W: Write>(out: &mut W, told: Certification) -> io::Result<()>
    ensures ok { OnOk result (Appends (W.contents out.old) (W.contents out.new) (certified_line told.length told.bound told.rewriting)) }
    ensures err { OnErr result (AppendsBeginning (W.contents out.old) (W.contents out.new) (certified_line told.length told.bound told.rewriting)) }
{
    match told.rewriting {
        Some(rewriting) => write_rewritten(out, told.length, told.bound, rewriting),
        None => {
            let mut first = Buffer::new();
            let mut second = Buffer::new();
            let length = first.format(told.length);
            let bound = second.format(told.bound);
            write_pieces(out, &["yes length ", length, " bound ", bound, "\n"])
        }
    }
}

/// For which contexts and runs notes show that a meaning is kept, and within which bound the new program is certified:
/// `yes length 16 turns 65536 bound 23`, or `yes length 16 turns any bound 23`.
pub fn write_followed<W: Write>(
    out: &mut W,
    runs: Bounds,
    turns: Turns,
    bound: u32,
) -> io::Result<()>
    ensures ok { OnOk result (Appends (W.contents out.old) (W.contents out.new) (follows_line runs turns bound)) }
    ensures err { OnErr result (AppendsBeginning (W.contents out.old) (W.contents out.new) (follows_line runs turns bound)) }
{
    let mut first = Buffer::new();
    let mut second = Buffer::new();
    let mut third = Buffer::new();
    let mut fourth = Buffer::new();
    let length = first.format(runs.length);
    let turns = turns_word(&mut second, turns);
    let bound = third.format(bound);
    let word = padded_word(runs.padded);
    let front = untouched_word(runs.untouched);
    let count = untouched_number(&mut fourth, runs.untouched);
    write_pieces(
        out,
        &[
            "yes length ",
            length,
            " turns ",
            turns,
            " bound ",
            bound,
            word,
            front,
            count,
            "\n",
        ],
    )
}

/// `no context of 3 bytes, want 16`.
pub fn write_no_context<W: Write>(
    out: &mut W,
    count: usize,
    least: u32,
    most: u32,
) -> io::Result<()>
    ensures ok { OnOk result (Appends (W.contents out.old) (W.contents out.new) (no_context_line count least most)) }
    ensures err { OnErr result (AppendsBeginning (W.contents out.old) (W.contents out.new) (no_context_line count least most)) }
{
    let mut first = Buffer::new();
    let mut second = Buffer::new();
    let mut third = Buffer::new();
    let count = first.format(count);
    let length = second.format(least);
    if least == most {
        write_pieces(
            out,
            &["no context of ", count, " bytes, want ", length, "\n"],
        )
    } else {
        let most = third.format(most);
        write_pieces(
            out,
            &[
                "no context of ",
                count,
                " bytes, want ",
                length,
                "..",
                most,
                "\n",
            ],
        )
    }
}

/// Puts how a run ended behind what waits: `done 0 steps 23`, `fault F1 at slot 2 steps 4`, `out of fuel`.
pub fn put_run<W: Write>(pending: &mut Pending, out: &mut W, outcome: Outcome) -> io::Result<()>
    ensures ok { OnOk result (Gathers (W.contents out.old) (W.contents out.new) pending.old pending.new (run_line outcome)) }
    ensures err { OnErr result (AppendsBeginning (W.contents out.old) (W.contents out.new) (pending.old ++ run_line outcome)) }
{
    let mut first = Buffer::new();
    let mut second = Buffer::new();
    let mut third = Buffer::new();
    match outcome {
        Outcome::Done { value, steps } => {
            let value = first.format(value);
            let steps = second.format(steps);
            put_pieces(pending, out, &["done ", value, " steps ", steps, "\n"])
        }
        Outcome::Fault {
            slot,
            reason,
            steps,
        } => {
            let number = first.format(reason.number());
            let slot = second.format(slot);
            let steps = third.format(steps);
            put_pieces(
                pending,
                out,
                &["fault F", number, " at slot ", slot, " steps ", steps, "\n"],
            )
        }
        Outcome::OutOfFuel => pending.put(out, "out of fuel\n".as_bytes()),
    }
}

/// Writes how a run ended.
pub fn write_run<W: Write>(out: &mut W, outcome: Outcome) -> io::Result<()>
    ensures ok { OnOk result (Appends (W.contents out.old) (W.contents out.new) (run_line outcome)) }
    ensures err { OnErr result (AppendsBeginning (W.contents out.old) (W.contents out.new) (run_line outcome)) }
{
    let mut pending = Pending::new();
    put_run(&mut pending, out, outcome)?;
    pending.flush(out)
}

/// The names of groups in their order, joined by a space.
fn groups_line(groups: Groups) -> &'static str
    ensures { result.now ≡ groups_line groups }
{
    match (groups.base, groups.divmul, groups.atomic) {
        (false, false, false) => "\n",
        (true, false, false) => "base\n",
        (false, true, false) => "divmul\n",
        (false, false, true) => "atomic\n",
        (true, true, false) => "base divmul\n",
        (true, false, true) => "base atomic\n",
        (false, true, true) => "divmul atomic\n",
        (true, true, true) => "base divmul atomic\n",
    }
}

/// The conformance groups that occur: `base divmul atomic`.
pub fn write_groups<W: Write>(out: &mut W, groups: Groups) -> io::Result<()>
    ensures ok { OnOk result (Appends (W.contents out.old) (W.contents out.new) (groups_line groups)) }
    ensures err { OnErr result (AppendsBeginning (W.contents out.old) (W.contents out.new) (groups_line groups)) }
{
    write_bytes(out, groups_line(groups).as_bytes())
}
