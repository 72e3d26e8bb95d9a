//! A program alone, without a certificate.

use crate::graph::tell_plain_dot;
use crate::reach::tell_unreached;
use bpf_insn::{Code, Insn, MAX_SLOTS};
use bpf_streams::{Count, Page, Tell};
use std::io::{self, Write};

/// What a lost relocation leaves most often: a call to itself, or a 64-bit constant that is 0.
fn suspicion_of(insn: &Insn) -> Option<&'static str> {
    if let Insn::CallLocal { off: -1 } = *insn {
        return Some(
            "calls itself: mostly a call of another object's function that was never linked",
        );
    }
    if let Insn::LoadImm64 { value: 0, .. } = *insn {
        return Some("loads a 64-bit 0: mostly an address that a lost relocation left out");
    }
    None
}

/// Tells what is suspicious in an instruction.
fn tell_suspect<W: Tell>(out: &mut W, slot: u32, insn: &Insn) {
    if let Some(suspicion) = suspicion_of(insn) {
        write!(out, "slot {slot} {suspicion}\n");
    }
}

/// Tells how many slots a program has, and what is suspicious.
fn tell_alone<C: Code, W: Tell>(program: &C, out: &mut W) {
    let slots = Count(program.slots(), "slot");
    write!(out, "an image of {slots}\n");
    for slot in 0..program.slots().min(MAX_SLOTS as u32) {
        if let Some(insn) = program.insn(slot) {
            tell_suspect(out, slot, &insn);
        }
    }
    tell_unreached(program, out);
}

/// Draws the graph of a program (`is_graph`), or tells how many slots it has, what looks like a lost relocation, and what nothing reaches. A
/// fault of the writer, or a write of no bytes, ends it. It takes no memory, and writes pieces of up to 4,096 bytes.
pub fn write_alone<C: Code, W: Write>(program: &C, is_graph: bool, out: &mut W) -> io::Result<()> {
    let mut page = Page::new(out);
    if is_graph {
        tell_plain_dot(program, &mut page);
    } else {
        tell_alone(program, &mut page);
    }
    page.finish()
}
