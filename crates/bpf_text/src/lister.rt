//! The lister.

ghost use Rattle.std.specs.Prelude.{◌≡◌, ◌++◌, OnOk, OnErr, codes};
ghost use Rattle.std.specs.Io.KnownBytes.{Appends};
ghost use Rattle.bpf_insn.specs.Written.{AppendsBeginning, Gathers};
ghost use Rattle.bpf_text.specs.Listing.{line_text, listing, atomic_word, atomic_sign, distance_text};
ghost use Rattle.bpf_text.specs.code.Puts.{Puts, memory_operand_text, load_text, store_text};

use crate::listed_line::ListedLine;
use crate::spelling::{Memory, Swap};
use bpf_insn::written::{Pending, write_bytes};
use bpf_insn::{
    AluOp, AtomicOp, Cond, EndBits, EndKind, Insn, Modify, Operand, Program, Reg, SignBits, Size,
    Width,
};
use std::io::{self, Write};

fn atomic_word(op: AtomicOp) -> &'static str
    ensures { result.now ≡ atomic_word op }
{
    match op {
        AtomicOp::Modify { fetch: false, .. } => "",
        AtomicOp::Modify { fetch: true, .. } => "fetch ",
        AtomicOp::Xchg => "xchg ",
        AtomicOp::CmpXchg => "cmpxchg ",
    }
}

fn atomic_sign(op: AtomicOp) -> &'static str
    ensures { result.now ≡ atomic_sign op }
{
    match op {
        AtomicOp::Modify {
            by: Modify::Add,
            ..
        } => ") += ",
        AtomicOp::Modify { by: Modify::Or, .. } => ") |= ",
        AtomicOp::Modify {
            by: Modify::And,
            ..
        } => ") &= ",
        AtomicOp::Modify {
            by: Modify::Xor,
            ..
        } => ") ^= ",
        AtomicOp::Xchg | AtomicOp::CmpXchg => "), ",
    }
}

fn put_atomic_word(line: &mut ListedLine, op: AtomicOp)
    ensures { Puts line.old (atomic_word op) line.new }
{
    line.put_text(atomic_word(op));
}

fn put_atomic_sign(line: &mut ListedLine, op: AtomicOp)
    ensures { Puts line.old (atomic_sign op) line.new }
{
    line.put_text(atomic_sign(op));
}

/// `r1 += r2`
fn put_alu(line: &mut ListedLine, op: AluOp, width: Width, dst: Reg, src: Operand)
    ensures { Puts line.old (line_text (Insn.Alu op width dst src)) line.new }
{
    line.register(width, dst);
    line.put_text(" ");
    line.spelled(op);
    line.put_text(" ");
    line.operand(width, src);
    line.put_text("\n");
}

/// `r1 = -r1`
fn put_neg(line: &mut ListedLine, width: Width, dst: Reg)
    ensures { Puts line.old (line_text (Insn.Neg width dst)) line.new }
{
    line.register(width, dst);
    line.put_text(" = -");
    line.register(width, dst);
    line.put_text("\n");
}

/// `r1 = (s8)r2`
fn put_extension(line: &mut ListedLine, width: Width, bits: SignBits, dst: Reg, src: Reg)
    ensures { Puts line.old (line_text (Insn.MovSx width bits dst src)) line.new }
{
    line.register(width, dst);
    line.put_text(" = (");
    line.spelled(bits);
    line.put_text(")");
    line.register(width, src);
    line.put_text("\n");
}

/// `r1 = le16 r1`
fn put_swap(line: &mut ListedLine, kind: EndKind, bits: EndBits, dst: Reg)
    ensures { Puts line.old (line_text (Insn.End kind bits dst)) line.new }
{
    line.register(Width::W64, dst);
    line.put_text(" = ");
    line.spelled(Swap(kind, bits));
    line.put_text(" ");
    line.register(Width::W64, dst);
    line.put_text("\n");
}

/// `r1 = 0x5 ll`
fn put_constant(line: &mut ListedLine, dst: Reg, value: u64)
    ensures { Puts line.old (line_text (Insn.LoadImm64 dst value)) line.new }
{
    line.register(Width::W64, dst);
    line.put_text(" = ");
    line.hex(value);
    line.put_text(" ll\n");
}

/// `*(u8 *)(r1 + 0`, with what is said behind it still to come
fn put_memory_operand(line: &mut ListedLine, memory: Memory, base: Reg, off: i16)
    ensures { Puts line.old (memory_operand_text memory base off) line.new }
{
    line.put_text("*(");
    line.spelled(memory);
    line.put_text(" *)(");
    line.register(Width::W64, base);
    line.put_text(" ");
    line.offset(off);
}

/// `r0 = *(u8 *)(r1 + 0)`
fn put_load(line: &mut ListedLine, memory: Memory, dst: Reg, src: Reg, off: i16)
    ensures { Puts line.old (load_text memory dst src off) line.new }
{
    line.register(Width::W64, dst);
    line.put_text(" = ");
    put_memory_operand(line, memory, src, off);
    line.put_text(")\n");
}

/// `*(u8 *)(r1 + 0) = r2`
fn put_store(line: &mut ListedLine, size: Size, dst: Reg, off: i16, src: Operand)
    ensures { Puts line.old (store_text size dst off src) line.new }
{
    put_memory_operand(line, Memory::Unsigned(size), dst, off);
    line.put_text(") = ");
    line.operand(Width::W64, src);
    line.put_text("\n");
}

/// `lock fetch *(u64 *)(r1 + 0) += r2`
fn put_atomic(line: &mut ListedLine, wide: bool, op: AtomicOp, dst: Reg, off: i16, src: Reg)
    ensures { Puts line.old (line_text (Insn.Atomic wide op dst off src)) line.new }
{
    line.put_text("lock ");
    put_atomic_word(line, op);
    put_memory_operand(line, Memory::Unsigned(Size::of_word(wide)), dst, off);
    put_atomic_sign(line, op);
    line.register(Width::W64, src);
    line.put_text("\n");
}

/// `if r1 == 5 goto +3`
fn put_branch(line: &mut ListedLine, cond: Cond, width: Width, dst: Reg, src: Operand, off: i16)
    ensures { Puts line.old (line_text (Insn.JumpIf cond width dst src off)) line.new }
{
    line.put_text("if ");
    line.register(width, dst);
    line.put_text(" ");
    line.spelled(cond);
    line.put_text(" ");
    line.operand(width, src);
    line.put_text(" goto ");
    line.near_distance(off);
    line.put_text("\n");
}

/// `goto +3`, `gotol +3` and `call +3`, by the word in front
fn put_jump(line: &mut ListedLine, word: &str, off: i32)
    ensures { Puts line.old (word.now ++ (distance_text off ++ codes "\n")) line.new }
{
    line.put_text(word);
    line.distance(off);
    line.put_text("\n");
}

/// Puts the line of an instruction.
fn put_insn(line: &mut ListedLine, insn: &Insn)
    ensures { Puts line.old (line_text insn.now) line.new }
{
    match *insn {
        Insn::Alu {
            op,
            width,
            dst,
            src,
        } => put_alu(line, op, width, dst, src),
        Insn::Neg { width, dst } => put_neg(line, width, dst),
        Insn::MovSx {
            width,
            bits,
            dst,
            src,
        } => put_extension(line, width, bits, dst, src),
        Insn::End { kind, bits, dst } => put_swap(line, kind, bits, dst),
        Insn::LoadImm64 { dst, value } => put_constant(line, dst, value),
        Insn::Load {
            size,
            dst,
            src,
            off,
        } => put_load(line, Memory::Unsigned(size), dst, src, off),
        Insn::LoadSx {
            size,
            dst,
            src,
            off,
        } => put_load(line, Memory::Signed(size), dst, src, off),
        Insn::Store {
            size,
            dst,
            off,
            src,
        } => put_store(line, size, dst, off, Operand::Reg(src)),
        Insn::StoreImm {
            size,
            dst,
            off,
            imm,
        } => put_store(line, size, dst, off, Operand::Imm(imm)),
        Insn::Atomic {
            wide,
            op,
            dst,
            off,
            src,
        } => put_atomic(line, wide, op, dst, off, src),
        Insn::Ja { off } => put_jump(line, "goto ", i32::from(off)),
        Insn::JaLong { off } => put_jump(line, "gotol ", off),
        Insn::JumpIf {
            cond,
            width,
            dst,
            src,
            off,
        } => put_branch(line, cond, width, dst, src, off),
        Insn::CallLocal { off } => put_jump(line, "call ", off),
        Insn::Exit => line.put_text("exit\n"),
    }
}

/// Makes a line that of an instruction.
fn make_line(line: &mut ListedLine, insn: &Insn)
    ensures { line.new ≡ line_text insn.now }
{
    line.clear();
    put_insn(line, insn);
}

/// Puts the line of an instruction behind what waits.
fn put_line<W: Write>(
    line: &mut ListedLine,
    pending: &mut Pending,
    out: &mut W,
    insn: &Insn,
) -> io::Result<()>
    ensures ok { OnOk result (Gathers (W.contents out.old) (W.contents out.new) pending.old pending.new (line_text insn.now)) }
    ensures err { OnErr result (AppendsBeginning (W.contents out.old) (W.contents out.new) (pending.old ++ (line_text insn.now))) }
{
    make_line(line, insn);
    pending.put(out, line.as_bytes())
}

/// Writes the line of an instruction, in the one spelling of the language. A fault of the writer, or a write of no bytes, ends
/// it; what went out is then a beginning of the line.
pub fn write_line<W: Write>(out: &mut W, insn: &Insn) -> io::Result<()>
    ensures ok { OnOk result (Appends (W.contents out.old) (W.contents out.new) (line_text insn.now)) }
    ensures err { OnErr result (AppendsBeginning (W.contents out.old) (W.contents out.new) (line_text insn.now)) }
{
    let mut line = ListedLine::new();
    make_line(&mut line, insn);
    write_bytes(out, line.as_bytes())
}

/// Writes the listing of a program: a line for each instruction, in the one spelling of the language, in pieces of 4,096
/// bytes. A fault of the writer, or a write of no bytes, ends it; what went out is then a beginning of the listing. It takes
/// no memory.
pub fn list<W: Write>(program: &Program, out: &mut W) -> io::Result<()>
    ensures ok { OnOk result (Appends (W.contents out.old) (W.contents out.new) (listing program.now.list)) }
    ensures err { OnErr result (AppendsBeginning (W.contents out.old) (W.contents out.new) (listing program.now.list)) }
{
    let mut line = ListedLine::new();
    let mut pending = Pending::new();
    for slot in 0..program.slots() {
        if let Some(insn) = program.at(slot) {
            put_line(&mut line, &mut pending, out, insn)?;
        }
    }
    pending.flush(out)
}
