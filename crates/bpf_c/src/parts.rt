//! Where a program is cut into functions, so that a compiler's time stays linear, and the jumps between them.

ghost use Rattle.std.specs.Prelude.{◌≡◌, ◌≤◌};
ghost use Rattle.bpf_insn.specs.Limits.{max_slots};
ghost use Rattle.bpf_c.specs.Parts.{part_of, entrance, part_to, goto_text, jump_text, branch_text, call_text, entrance_text, way_text};
ghost use Rattle.bpf_c.specs.code.Says.{Says};

use crate::page::Waiting;
use crate::statement::{put_operand, put_register};
use crate::words::{cond_word, width_word};
use bpf_insn::{Cond, Insn, Operand, Reg, Width, target};
use std::io::Write;

/// How many slots of a program one function has.
pub const PART_SLOTS: u32 = 1_024;

/// The part that a slot is in.
pub fn part_of(slot: u32) -> u32
    ensures { result ≡ part_of slot }
{
    slot / PART_SLOTS
}

/// `goto L5;`, or `bpf_leave(1, 5);` where the target is in another part
fn put_goto<W: Write>(page: &mut Waiting, out: &mut W, slot: u32, to: u32)
    ensures { Says (W.contents out.old) page.old (goto_text slot to) (W.contents out.new) page.new }
{
    if part_of(slot) == part_of(to) {
        page.put(out, "goto L");
        page.number(out, to);
        page.put(out, ";\n");
    } else {
        page.put(out, "bpf_leave(");
        page.number(out, part_of(to));
        page.put(out, ", ");
        page.number(out, slot);
        page.put(out, ");\n");
    }
}

/// A jump by a distance; nothing is done where the distance leads below slot 0, as in no program.
fn put_way<W: Write>(page: &mut Waiting, out: &mut W, slot: u32, off: i32)
    requires { slot ≤ max_slots }
    ensures { Says (W.contents out.old) page.old (way_text slot off) (W.contents out.new) page.new }
{
    match target(slot, off) {
        Some(to) => put_goto(page, out, slot, to),
        None => page.put(out, ";\n"),
    }
}

pub fn put_jump<W: Write>(page: &mut Waiting, out: &mut W, slot: u32, off: i32)
    requires { slot ≤ max_slots }
    ensures { Says (W.contents out.old) page.old (jump_text slot off) (W.contents out.new) page.new }
{
    page.put(out, "    ");
    put_way(page, out, slot, off);
}

/// The test of a conditional jump.
#[derive(Clone, Copy)]
pub struct JumpTest {
    pub cond: Cond,
    pub width: Width,
    pub dst: Reg,
    pub src: Operand,
}

/// `if (bpf_eq64(r1, UINT64_C(5))) goto L5;`
pub fn put_branch<W: Write>(page: &mut Waiting, out: &mut W, slot: u32, test: JumpTest, off: i32)
    requires { slot ≤ max_slots }
    ensures { Says (W.contents out.old) page.old (branch_text slot test off) (W.contents out.new) page.new }
{
    page.put(out, cond_word(test.cond));
    page.put(out, width_word(test.width));
    put_register(page, out, test.dst);
    page.put(out, ", ");
    put_operand(page, out, test.src);
    page.put(out, ")) ");
    put_way(page, out, slot, off);
}

/// The part of a target; in a program there is one.
fn part_to(target: Option<u32>) -> u32
    ensures { result ≡ part_to target }
{
    match target {
        Some(to) => part_of(to),
        None => 0,
    }
}

/// `bpf_call(filter_from, 0, 5);`
pub fn put_call<W: Write>(page: &mut Waiting, out: &mut W, name: &str, slot: u32, off: i32)
    requires { slot ≤ max_slots }
    ensures { Says (W.contents out.old) page.old (call_text name.now slot off) (W.contents out.new) page.new }
{
    page.put(out, "    bpf_call(");
    page.put(out, name);
    page.put(out, "_from, ");
    page.number(out, part_to(target(slot, off)));
    page.put(out, ", ");
    page.number(out, slot);
    page.put(out, ");\n");
}

/// The slot of a part to which an instruction leads from outside: by a call, or by a jump from another part.
fn entrance(part: u32, slot: u32, insn: &Insn) -> Option<u32>
    requires { slot ≤ max_slots }
    ensures { result ≡ entrance part slot insn.now }
{
    let to = target(slot, insn.distance()?)?;
    let is_call = matches!(*insn, Insn::CallLocal { .. });
    if part_of(to) == part && (is_call || part_of(slot) != part) {
        Some(to)
    } else {
        None
    }
}

/// `case 5: goto L1030;`
pub fn put_entrance<W: Write>(page: &mut Waiting, out: &mut W, part: u32, slot: u32, insn: &Insn)
    requires { slot ≤ max_slots }
    ensures { Says (W.contents out.old) page.old (entrance_text part slot insn.now) (W.contents out.new) page.new }
{
    if let Some(to) = entrance(part, slot, insn) {
        page.put(out, "    case ");
        page.number(out, slot);
        page.put(out, ": goto L");
        page.number(out, to);
        page.put(out, ";\n");
    }
}
