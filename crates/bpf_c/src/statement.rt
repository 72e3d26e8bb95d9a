//! Statements of arithmetic: a name, and in brackets the registers and constants that it is for.

ghost use Rattle.std.specs.Prelude.{codes};
ghost use Rattle.bpf_c.specs.Statements.{constant_text, operand_text, alu_text, neg_text, extension_text, swap_text, wide_text};
ghost use Rattle.bpf_c.specs.Words.{register_word};
ghost use Rattle.bpf_c.specs.code.Says.{Says};

use crate::page::Waiting;
use crate::words::{alu_word, bits_word, extension_word, register_word, swap_word, width_word};
use bpf_insn::{AluOp, EndBits, EndKind, Operand, Order, Reg, SignBits, Width};
use std::io::Write;

pub fn put_register<W: Write>(page: &mut Waiting, out: &mut W, reg: Reg)
    ensures { Says (W.contents out.old) page.old (register_word reg) (W.contents out.new) page.new }
{
    page.put(out, register_word(reg));
}

/// `UINT64_C(5)`, or `-UINT64_C(5)`
pub fn put_constant<W: Write>(page: &mut Waiting, out: &mut W, value: i32)
    ensures { Says (W.contents out.old) page.old (constant_text value) (W.contents out.new) page.new }
{
    let front = if value < 0 { "-UINT64_C(" } else { "UINT64_C(" };
    page.put(out, front);
    page.number(out, value.unsigned_abs());
    page.put(out, ")");
}

pub fn put_operand<W: Write>(page: &mut Waiting, out: &mut W, src: Operand)
    ensures { Says (W.contents out.old) page.old (operand_text src) (W.contents out.new) page.new }
{
    match src {
        Operand::Reg(reg) => put_register(page, out, reg),
        Operand::Imm(imm) => put_constant(page, out, imm),
    }
}

/// `bpf_add64(r1, r2);`
pub fn put_alu<W: Write>(
    page: &mut Waiting,
    out: &mut W,
    op: AluOp,
    width: Width,
    dst: Reg,
    src: Operand,
)
    ensures { Says (W.contents out.old) page.old (alu_text op width dst src) (W.contents out.new) page.new }
{
    page.put(out, alu_word(op));
    page.put(out, width_word(width));
    put_register(page, out, dst);
    page.put(out, ", ");
    put_operand(page, out, src);
    page.put(out, ");\n");
}

/// `bpf_neg64(r1);`
pub fn put_neg<W: Write>(page: &mut Waiting, out: &mut W, width: Width, dst: Reg)
    ensures { Says (W.contents out.old) page.old (neg_text width dst) (W.contents out.new) page.new }
{
    page.put(out, "    bpf_neg");
    page.put(out, width_word(width));
    put_register(page, out, dst);
    page.put(out, ");\n");
}

/// `bpf_s8to64(r1, r2);`
pub fn put_extension<W: Write>(
    page: &mut Waiting,
    out: &mut W,
    width: Width,
    bits: SignBits,
    dst: Reg,
    src: Reg,
)
    ensures { Says (W.contents out.old) page.old (extension_text width bits dst src) (W.contents out.new) page.new }
{
    page.put(out, extension_word(bits));
    page.put(out, width_word(width));
    put_register(page, out, dst);
    page.put(out, ", ");
    put_register(page, out, src);
    page.put(out, ");\n");
}

/// `bpf_swap16(r1);`
pub fn put_swap<W: Write>(
    page: &mut Waiting,
    out: &mut W,
    order: Order,
    kind: EndKind,
    bits: EndBits,
    dst: Reg,
)
    ensures { Says (W.contents out.old) page.old (swap_text order kind bits dst) (W.contents out.new) page.new }
{
    page.put(out, swap_word(order, kind));
    page.put(out, bits_word(bits));
    put_register(page, out, dst);
    page.put(out, ");\n");
}

/// `bpf_mov64(r1, UINT64_C(5));`
pub fn put_wide<W: Write>(page: &mut Waiting, out: &mut W, dst: Reg, value: u64)
    ensures { Says (W.contents out.old) page.old (wide_text dst value) (W.contents out.new) page.new }
{
    page.put(out, "    bpf_mov64(");
    put_register(page, out, dst);
    page.put(out, ", UINT64_C(");
    page.wide(out, value);
    page.put(out, "));\n");
}
