//! The listing of a converted filter.

ghost use Rattle.std.specs.Prelude.{◌≡◌, ◌++◌, ◌+◌, ◌<◌, ◌^◌, length, codes, IfOk, OnOk};
ghost use Rattle.bpf_conversion.specs.Listed.{comment, entry_text, exit_slots, exit_text, headed, listed, slot_text, slots_text, start_of, template_text, templates_end, templates_text};

use bpf_classic::{Converted, Raw, put_raw};
use bpf_insn::Program;
use bpf_text::write_line;
use std::alloc::{AllocError, Global};

/// The slots of the exit that answers 0.
const EXIT: u32 = 2;

/// Puts the line of the instruction that begins at a slot, if one does.
fn put_slot(out: &mut Vec<u8>, program: &Program, slot: u32) -> Result<(), AllocError>
    ensures { OnOk result (out.new.items ≡ out.old.items ++ slot_text program.now.list slot) }
{
    let Some(insn) = program.at(slot) else {
        return Ok(());
    };
    match write_line(out, insn) {
        Ok(()) => Ok(()),
        Err(_) => Err(AllocError),
    }
}

/// Puts the lines from one slot up to another.
fn put_slots(out: &mut Vec<u8>, program: &Program, from: u32, to: u32) -> Result<(), AllocError>
    ensures { OnOk result (out.new.items ≡ out.old.items ++ slots_text program.now.list from to) }
{
    for slot in from..to {
        put_slot(out, program, slot)?;
    }
    Ok(())
}

/// Puts them below a line, if there are any.
fn put_headed(
    out: &mut Vec<u8>,
    head: &str,
    program: &Program,
    from: u32,
    to: u32,
) -> Result<(), AllocError>
    ensures { OnOk result (out.new.items ≡ out.old.items ++ headed head.now program.now.list from to) }
{
    if from >= to {
        return Ok(());
    }
    out.extend_from_slice(head.as_bytes())?;
    put_slots(out, program, from, to)
}

/// Puts the comment that an instruction of the filter is.
fn put_comment(alloc: Global, out: &mut Vec<u8>, at: usize, raw: &Raw) -> Result<(), AllocError>
    requires { at < 2 ^ 60 }
    ensures { OnOk result (out.new.items ≡ out.old.items ++ comment at raw.now) }
{
    let mut line = String::from_str(alloc, "; ")?;
    put_raw(&mut line, at, raw)?;
    line.push_str("\n")?;
    out.extend_from_slice(line.as_bytes())
}

/// How many slots the exit that answers 0 has, if there is one.
fn exit_slots(converted: &Converted) -> u32
    ensures { result ≡ exit_slots converted.now }
{
    if converted.layout().trap { EXIT } else { 0 }
}

/// The slot at which the templates end.
fn templates_end(converted: &Converted) -> u32
    ensures { result ≡ templates_end converted.now }
{
    let slots = converted.program().slots();
    slots.saturating_sub(exit_slots(converted))
}

/// The slot at which the template of an instruction begins; behind the last one, that at which the templates end.
fn start_of(converted: &Converted, at: usize) -> u32
    ensures { result ≡ start_of converted.now at }
{
    match converted.starts().get(at) {
        Some(slot) => u32::from(*slot),
        None => templates_end(converted),
    }
}

/// Puts an instruction of the filter, and the slots that came from it.
fn put_template(
    alloc: Global,
    out: &mut Vec<u8>,
    converted: &Converted,
    at: usize,
    raw: &Raw,
) -> Result<(), AllocError>
    requires { at < 2 ^ 60 }
    ensures { OnOk result (out.new.items ≡ out.old.items ++ template_text converted.now at raw.now) }
{
    put_comment(alloc, out, at, raw)?;
    let from = start_of(converted, at);
    let to = start_of(converted, at + 1);
    put_slots(out, converted.program(), from, to)
}

fn put_entry(out: &mut Vec<u8>, converted: &Converted) -> Result<(), AllocError>
    ensures { OnOk result (out.new.items ≡ out.old.items ++ entry_text converted.now) }
{
    let first = start_of(converted, 0);
    put_headed(out, "; entry\n", converted.program(), 0, first)
}

fn put_exit(out: &mut Vec<u8>, converted: &Converted) -> Result<(), AllocError>
    ensures { OnOk result (out.new.items ≡ out.old.items ++ exit_text converted.now) }
{
    let program = converted.program();
    let end = templates_end(converted);
    put_headed(out, "; answers 0\n", program, end, program.slots())
}

/// Puts the instructions of the filter, each with the slots that came from it.
fn put_templates(
    alloc: Global,
    out: &mut Vec<u8>,
    converted: &Converted,
    raws: &[Raw],
) -> Result<(), AllocError>
    ensures { OnOk result (out.new.items ≡ out.old.items ++ templates_text converted.now 0 raws.now) }
{
    for at in 0..raws.len() {
        put_template(alloc, out, converted, at, &raws[at])?;
    }
    Ok(())
}

/// The listing of a filter's program, with each of the filter's instructions in a comment above the slots that came from it. These are the
/// instructions that were converted. It assembles to the program again.
pub fn listed(alloc: Global, converted: &Converted, raws: &[Raw]) -> Result<Vec<u8>, AllocError>
    ensures { IfOk result (λ text. text.items ≡ listed converted.now raws.now) }
{
    let mut out = Vec::new(alloc);
    put_entry(&mut out, converted)?;
    put_templates(alloc, &mut out, converted, raws)?;
    put_exit(&mut out, converted)?;
    Ok(out)
}
