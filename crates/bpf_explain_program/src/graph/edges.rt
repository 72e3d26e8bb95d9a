//! The edges of a graph.

ghost use Rattle.std.specs.Prelude.{◌≤◌};
ghost use Rattle.bpf_insn.specs.Limits.{greatest_slot};

use crate::graph::Scene;
use crate::graph::plan::call_target;
use crate::sight::is_test;
use bpf_check::jump_target;
use bpf_insn::{Code, Insn, MAX_SLOTS};
use bpf_streams::Tell;

/// What is written behind the ends of an edge that is live, and of one that is dead.
type Style = (&'static str, &'static str);

const NEXT: Style = (";\n", " [style=dashed, color=gray];\n");

const IF_SO: Style = (
    " [label=\"if so\"];\n",
    " [label=\"if so\", style=dashed, color=gray, fontcolor=gray];\n",
);

const IF_NOT: Style = (
    " [label=\"if not\"];\n",
    " [label=\"if not\", style=dashed, color=gray, fontcolor=gray];\n",
);

const CALL: Style = (
    " [label=\"call\", style=dotted];\n",
    " [label=\"call\", style=dotted, color=gray, fontcolor=gray];\n",
);

/// The line of an edge.
fn write_edge<W: Tell>(out: &mut W, from: u32, to: u32, style: Style, is_live: bool) {
    let rest = if is_live { style.0 } else { style.1 };
    write!(out, "  b{from} -> b{to}{rest}");
}

/// The edges of the instruction at a slot, in the block that begins at `from`.
fn write_from<'a, 'b, W: Tell>(
    out: &mut W,
    scene: &Scene<'a, 'b>,
    from: u32,
    slot: u32,
    insn: &Insn,
    slots: u32,
)
    requires { slot ≤ greatest_slot }
{
    let (so, not) = if is_test(insn) {
        (IF_SO, IF_NOT)
    } else {
        (NEXT, NEXT)
    };
    if let Some(to) = call_target(slot, insn) {
        write_edge(out, from, to, CALL, scene.flow.reached.has(slot));
    }
    if let Some(to) = jump_target(slot, insn) {
        write_edge(out, from, to, so, scene.flow.jumps.has(slot));
    }
    let next = slot + insn.slots();
    if insn.goes_on() && next < slots && scene.plan.blocks.has(next) {
        write_edge(out, from, next, not, scene.flow.nexts.has(slot));
    }
}

/// Writes the edges by the slots from which they lead.
pub fn write_edges<'a, 'b, C: Code, W: Tell>(out: &mut W, program: &C, scene: &Scene<'a, 'b>) {
    let slots = program.slots().min(MAX_SLOTS as u32);
    let mut from = 0;
    for slot in 0..slots {
        if let Some(insn) = program.insn(slot) {
            if scene.plan.blocks.has(slot) {
                from = slot;
            }
            write_from(out, scene, from, slot, &insn, slots);
        }
    }
}
