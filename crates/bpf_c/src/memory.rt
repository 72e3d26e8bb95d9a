//! Statements that read and write memory, in the byte order of the program's image.

ghost use Rattle.bpf_c.specs.Statements.{place_text, load_text, store_text, atomic_text};
ghost use Rattle.bpf_c.specs.code.Says.{Says};

use crate::page::Waiting;
use crate::statement::{put_constant, put_operand, put_register};
use crate::words::{atomic_word, order_word, size_word};
use bpf_insn::{AtomicOp, Operand, Order, Reg, Size};
use std::io::Write;

/// Where a load, a store or an atomic operation works: `64_le(`, with what it names still to come.
#[derive(Clone, Copy)]
pub struct Cell {
    pub order: Order,
    pub size: Size,
    pub base: Reg,
    pub off: i16,
}

/// `r1, UINT64_C(8)`
fn put_place<W: Write>(page: &mut Waiting, out: &mut W, cell: Cell)
    ensures { Says (W.contents out.old) page.old (place_text cell) (W.contents out.new) page.new }
{
    put_register(page, out, cell.base);
    page.put(out, ", ");
    put_constant(page, out, i32::from(cell.off));
}

/// `bpf_load64_le(r0, r1, UINT64_C(8));`, by the word in front
pub fn put_load<W: Write>(page: &mut Waiting, out: &mut W, word: &str, dst: Reg, cell: Cell)
    ensures { Says (W.contents out.old) page.old (load_text word.now dst cell) (W.contents out.new) page.new }
{
    page.put(out, word);
    page.put(out, size_word(cell.size));
    page.put(out, order_word(cell.order));
    put_register(page, out, dst);
    page.put(out, ", ");
    put_place(page, out, cell);
    page.put(out, ");\n");
}

/// `bpf_store64_le(r10, -UINT64_C(8), r1);`
pub fn put_store<W: Write>(page: &mut Waiting, out: &mut W, cell: Cell, src: Operand)
    ensures { Says (W.contents out.old) page.old (store_text cell src) (W.contents out.new) page.new }
{
    page.put(out, "    bpf_store");
    page.put(out, size_word(cell.size));
    page.put(out, order_word(cell.order));
    put_place(page, out, cell);
    page.put(out, ", ");
    put_operand(page, out, src);
    page.put(out, ");\n");
}

/// `bpf_fetch_add64_le(r10, -UINT64_C(8), r1);`
pub fn put_atomic<W: Write>(page: &mut Waiting, out: &mut W, op: AtomicOp, cell: Cell, src: Reg)
    ensures { Says (W.contents out.old) page.old (atomic_text op cell src) (W.contents out.new) page.new }
{
    page.put(out, atomic_word(op));
    page.put(out, size_word(cell.size));
    page.put(out, order_word(cell.order));
    put_place(page, out, cell);
    page.put(out, ", ");
    put_register(page, out, src);
    page.put(out, ");\n");
}
