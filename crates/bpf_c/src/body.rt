//! The lines of a part: a label for each slot, and the statement of its instruction.

ghost use Rattle.std.specs.Prelude.{◌≡◌, ◌≤◌, ◌+◌};
ghost use Rattle.bpf_insn.specs.Limits.{max_slots};
ghost use Rattle.bpf_c.specs.Statements.{load_text, store_text};
ghost use Rattle.bpf_c.specs.Unit.{statement_text, line_text, lines_text, entrances_text, way_in_text};
ghost use Rattle.bpf_c.specs.code.Says.{Says};

use crate::memory::{Cell, put_atomic, put_load, put_store};
use crate::page::Waiting;
use crate::parts::{JumpTest, put_branch, put_call, put_entrance, put_jump};
use crate::statement::{put_alu, put_extension, put_neg, put_swap, put_wide};
use bpf_insn::{Code, Insn, Operand, Order, Size};
use std::io::Write;

/// Puts the statement of an instruction at a slot.
fn put_statement<W: Write>(
    page: &mut Waiting,
    out: &mut W,
    name: &str,
    order: Order,
    slot: u32,
    insn: &Insn,
)
    requires { slot ≤ max_slots }
    ensures { Says (W.contents out.old) page.old (statement_text name.now order slot insn.now) (W.contents out.new) page.new }
{
    match *insn {
        Insn::Alu {
            op,
            width,
            dst,
            src,
        } => put_alu(page, out, op, width, dst, src),
        Insn::Neg { width, dst } => put_neg(page, out, width, dst),
        Insn::MovSx {
            width,
            bits,
            dst,
            src,
        } => put_extension(page, out, width, bits, dst, src),
        Insn::End { kind, bits, dst } => put_swap(page, out, order, kind, bits, dst),
        Insn::LoadImm64 { dst, value } => put_wide(page, out, dst, value),
        Insn::Load {
            size,
            dst,
            src,
            off,
        } => {
            put_load(
                page,
                out,
                "    bpf_load",
                dst,
                Cell {
                    order,
                    size,
                    base: src,
                    off,
                },
            )
        }
        Insn::LoadSx {
            size,
            dst,
            src,
            off,
        } => {
            put_load(
                page,
                out,
                "    bpf_loads",
                dst,
                Cell {
                    order,
                    size,
                    base: src,
                    off,
                },
            )
        }
        Insn::Store {
            size,
            dst,
            off,
            src,
        } => {
            put_store(
                page,
                out,
                Cell {
                    order,
                    size,
                    base: dst,
                    off,
                },
                Operand::Reg(src),
            )
        }
        Insn::StoreImm {
            size,
            dst,
            off,
            imm,
        } => {
            put_store(
                page,
                out,
                Cell {
                    order,
                    size,
                    base: dst,
                    off,
                },
                Operand::Imm(imm),
            )
        }
        Insn::Atomic {
            wide,
            op,
            dst,
            off,
            src,
        } => {
            let size = Size::of_word(wide);
            put_atomic(
                page,
                out,
                op,
                Cell {
                    order,
                    size,
                    base: dst,
                    off,
                },
                src,
            )
        }
        Insn::Ja { off } => put_jump(page, out, slot, i32::from(off)),
        Insn::JaLong { off } => put_jump(page, out, slot, off),
        Insn::JumpIf {
            cond,
            width,
            dst,
            src,
            off,
        } => {
            put_branch(
                page,
                out,
                slot,
                JumpTest {
                    cond,
                    width,
                    dst,
                    src,
                },
                i32::from(off),
            )
        }
        Insn::CallLocal { off } => put_call(page, out, name, slot, off),
        Insn::Exit => page.put(out, "    bpf_exit();\n"),
    }
}

/// `L5:     bpf_add64(r1, r2);`, and nothing at a second slot
fn put_line<C: Code, W: Write>(page: &mut Waiting, out: &mut W, name: &str, program: &C, slot: u32)
    requires { slot ≤ max_slots }
    ensures { Says (W.contents out.old) page.old (line_text name.now (C.program program.now) slot) (W.contents out.new) page.new }
{
    if let Some(insn) = program.insn(slot) {
        page.put(out, "L");
        page.number(out, slot);
        page.put(out, ":");
        put_statement(page, out, name, program.order(), slot, &insn);
    }
}

/// The lines of `count` slots from a slot on.
pub fn put_lines<C: Code, W: Write>(
    page: &mut Waiting,
    out: &mut W,
    name: &str,
    program: &C,
    first: u32,
    count: u32,
)
    requires { first + count ≤ max_slots }
    ensures { Says (W.contents out.old) page.old (lines_text name.now (C.program program.now) first count) (W.contents out.new) page.new }
{
    for index in 0..count {
        put_line(page, out, name, program, first + index);
    }
}

fn put_way_in<C: Code, W: Write>(page: &mut Waiting, out: &mut W, program: &C, part: u32, slot: u32)
    requires { slot ≤ max_slots }
    ensures { Says (W.contents out.old) page.old (way_in_text (C.program program.now) part slot) (W.contents out.new) page.new }
{
    if let Some(insn) = program.insn(slot) {
        put_entrance(page, out, part, slot, &insn);
    }
}

/// The ways into a part from outside.
pub fn put_entrances<C: Code, W: Write>(page: &mut Waiting, out: &mut W, program: &C, part: u32)
    ensures { Says (W.contents out.old) page.old (entrances_text (C.program program.now) part) (W.contents out.new) page.new }
{
    for slot in 0..program.slots() {
        put_way_in(page, out, program, part, slot);
    }
}
