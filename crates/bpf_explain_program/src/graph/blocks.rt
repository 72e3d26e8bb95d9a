//! The nodes of a graph: blocks of instructions, in functions.

use crate::graph::Scene;
use crate::known::SpelledInsn;
use crate::listing::{write_budget, write_function};
use bpf_check::{Index, Refusal, function_at, label_at};
use bpf_insn::{Code, Insn, MAX_SLOTS};
use bpf_streams::Tell;

/// How a block looks.
#[derive(Clone, Copy)]
enum Look {
    Plain,
    /// No state reaches it.
    Unreached,
    /// The refused instruction is in it.
    Refused,
}

/// The blocks as far as they are written.
#[derive(Drop)]
struct Drawn {
    /// How the block that is being written looks; None in front of the first.
    block: Option<Look>,
    in_function: bool,
}

/// The number of the first flaw, if it is at an instruction.
fn flaw_at(refusal: Option<Refusal>, slot: u32, insn: &Insn) -> Option<u8> {
    let refusal = refusal?;
    let at = refusal.slot();
    if slot <= at && at - slot < insn.slots() {
        Some(refusal.number())
    } else {
        None
    }
}

/// The first line of the function at a slot.
fn write_head<W: Tell>(out: &mut W, certificate: Option<&Index>, slot: u32) {
    if let Some(certificate) = certificate {
        if let Some(function) = function_at(certificate, slot) {
            return write_function(out, function);
        }
    }
    write!(out, "fn {slot}\n");
}

/// The line of the label at a slot, if one stands there and budgets are told.
fn write_promise<'a, 'b, W: Tell>(out: &mut W, scene: &Scene<'a, 'b>, slot: u32) {
    let Some(certificate) = scene.certificate else {
        return;
    };
    if !scene.has_budgets {
        return;
    }
    if let Some(label) = label_at(certificate, slot) {
        write!(out, "at {slot}: budget ");
        write_budget(out, label);
        out.say("\n");
    }
}

/// The line of an instruction, with the number of its flaw.
fn write_insn<W: Tell>(out: &mut W, slot: u32, insn: &Insn, flaw: Option<u8>) {
    let text = SpelledInsn(*insn);
    match flaw {
        Some(number) => write!(out, "{slot:>5}  {text}  ! C{number}\n"),
        None => write!(out, "{slot:>5}  {text}\n"),
    }
}

impl Drawn {
    /// Ends the block that is being written.
    fn end_block<W: Tell>(&mut self, out: &mut W) {
        let Some(look) = self.block else {
            return;
        };
        self.block = None;
        let rest = match look {
            Look::Plain => "\"];\n",
            Look::Unreached => "\", color=gray, fontcolor=gray];\n",
            Look::Refused => "\", color=red, penwidth=2];\n",
        };
        out.say(rest);
    }

    /// Ends the function that is being written, if there is one.
    fn end_function<W: Tell>(&mut self, out: &mut W) {
        if self.in_function {
            self.in_function = false;
            out.say("  }\n");
        }
    }

    /// Begins the function at a slot.
    fn begin_function<'a, 'b, W: Tell>(&mut self, out: &mut W, scene: &Scene<'a, 'b>, slot: u32) {
        self.end_function(out);
        self.in_function = true;
        write!(out, "  subgraph cluster_{slot} {{\n    label=\"");
        out.set_quoted(true);
        write_head(out, scene.certificate, slot);
        out.set_quoted(false);
        out.say("\";\n");
    }

    /// Begins the block at a slot, with its label.
    fn begin_block<'a, 'b, W: Tell>(&mut self, out: &mut W, scene: &Scene<'a, 'b>, slot: u32) {
        self.end_block(out);
        if scene.plan.functions.has(slot) {
            self.begin_function(out, scene, slot);
        }
        let is_reached = scene.reached.has(slot) && scene.flow.reached.has(slot);
        self.block = Some(if is_reached {
            Look::Plain
        } else {
            Look::Unreached
        });
        write!(out, "    b{slot} [label=\"");
        out.set_quoted(true);
        write_promise(out, scene, slot);
        out.set_quoted(false);
    }

    /// The line of an instruction.
    fn write_line<'a, 'b, W: Tell>(
        &mut self,
        out: &mut W,
        scene: &Scene<'a, 'b>,
        slot: u32,
        insn: &Insn,
    ) {
        let flaw = flaw_at(scene.refusal, slot, insn);
        if flaw.is_some() {
            self.block = Some(Look::Refused);
        }
        out.set_quoted(true);
        write_insn(out, slot, insn, flaw);
        out.set_quoted(false);
    }
}

/// Writes the blocks by their slots, each in its function.
pub fn write_blocks<'a, 'b, C: Code, W: Tell>(out: &mut W, program: &C, scene: &Scene<'a, 'b>) {
    let mut drawn = Drawn {
        block: None,
        in_function: false,
    };
    for slot in 0..program.slots().min(MAX_SLOTS as u32) {
        if let Some(insn) = program.insn(slot) {
            if scene.plan.blocks.has(slot) {
                drawn.begin_block(out, scene, slot);
            }
            drawn.write_line(out, scene, slot, &insn);
        }
    }
    drawn.end_block(out);
    drawn.end_function(out);
}
