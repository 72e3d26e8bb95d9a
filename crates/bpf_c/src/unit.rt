//! The whole text: the operations, a function for each part, one that goes from part to part, and the function for hosts.

ghost use Rattle.std.specs.Prelude.{◌≡◌, ◌≤◌, ◌<◌, ◌*◌, OnOk, OnErr, flat_map};
ghost use Rattle.std.specs.Io.KnownBytes.{Appends};
ghost use Rattle.bpf_insn.specs.Limits.{max_slots};
ghost use Rattle.bpf_insn.specs.Written.{AppendsBeginning};
ghost use Rattle.bpf_c.specs.Parts.{part_count, part_length};
ghost use Rattle.bpf_c.specs.Unit.{operations_text, define_text, defines_text, declarations_text, part_lines_text, part_word, part_text, parts_text, case_text, cases_text, frame_text, host_text, unit_text};
ghost use Rattle.bpf_c.specs.code.Says.{Says};

use crate::body::{put_entrances, put_lines};
use crate::bounds::Promise;
use crate::operations::OPERATIONS;
use crate::page::Waiting;
use crate::parts::PART_SLOTS;
use bpf_insn::Code;
use std::io::{self, Write};

const ARGUMENTS: &str =
    "_from(uint32_t part, uint32_t site, uint64_t r1, uint64_t r2, uint64_t r3, uint64_t r4, uint64_t r5)";

/// What stands at the head of a part's function, behind its name.
const ENTER: &str =
    "(uint32_t *site, uint64_t *r)\n{\n    uint64_t r0 = r[0], r1 = r[1], r2 = r[2], r3 = r[3], r4 = r[4], r5 = r[5];\n    uint64_t r6 = r[6], r7 = r[7], r8 = r[8], r9 = r[9], r10 = r[10];\n    uint32_t part;\n    switch (*site) {\n";

const ENTERED: &str = "    default: break;\n    }\n";

/// What stands at its end: a run goes on at the next part, or leaves for another one.
const GO_ON: &str = "    *site = 65536;\n    part = ";

const LEAVE: &str =
    ";\nleave:\n    r[0] = r0; r[1] = r1; r[2] = r2; r[3] = r3; r[4] = r4; r[5] = r5;\n    r[6] = r6; r[7] = r7; r[8] = r8; r[9] = r9; r[10] = r10;\n    return part;\n}\n\n";

const FRAME: &str =
    "\n{\n    uint8_t frame[512] = {0};\n    uint64_t r[11] = {0, r1, r2, r3, r4, r5, 0, 0, 0, 0, (uint64_t)(uintptr_t)frame + 512};\n    for (;;) switch (part) {\n";

const END: &str = "    default: return r[0];\n    }\n}\n\n";

fn put_each<W: Write>(page: &mut Waiting, out: &mut W, lines: &[&str])
    ensures { Says (W.contents out.old) page.old (flat_map (λ line. line.now) lines.now) (W.contents out.new) page.new }
{
    for line in lines {
        page.put(out, line);
    }
}

fn put_operations<W: Write>(page: &mut Waiting, out: &mut W)
    ensures { Says (W.contents out.old) page.old operations_text (W.contents out.new) page.new }
{
    put_each(page, out, &OPERATIONS);
}

/// `#define filter_LEAST UINT64_C(16)`
fn put_define<W: Write>(page: &mut Waiting, out: &mut W, name: &str, word: &str, value: u32)
    ensures { Says (W.contents out.old) page.old (define_text name.now word.now value) (W.contents out.new) page.new }
{
    page.put(out, "#define ");
    page.put(out, name);
    page.put(out, word);
    page.number(out, value);
    page.put(out, ")\n");
}

fn put_defines<W: Write>(page: &mut Waiting, out: &mut W, name: &str, promise: Promise)
    ensures { Says (W.contents out.old) page.old (defines_text name.now promise) (W.contents out.new) page.new }
{
    put_define(page, out, name, "_LEAST UINT64_C(", promise.least);
    put_define(page, out, name, "_MOST UINT64_C(", promise.most);
    put_define(page, out, name, "_BOUND UINT64_C(", promise.bound);
}

fn put_declarations<W: Write>(page: &mut Waiting, out: &mut W, name: &str)
    ensures { Says (W.contents out.old) page.old (declarations_text name.now) (W.contents out.new) page.new }
{
    page.put(out, "\nint ");
    page.put(out, name);
    page.put(out, "_takes(uint64_t length);\nuint64_t ");
    page.put(out, name);
    page.put(
        out,
        "(const uint8_t *context, uint64_t length);\n\n#if defined(__GNUC__)\n#pragma GCC diagnostic push\n#pragma GCC diagnostic ignored \"-Wunused-label\"\n#pragma GCC diagnostic ignored \"-Wtype-limits\"\n#endif\nstatic uint64_t ",
    );
    page.put(out, name);
    page.put(out, ARGUMENTS);
    page.put(out, ";\n\n");
}

/// How many slots of a program of so many a part has.
fn part_length(slots: u32, part: u32) -> u32
    requires { part * 1024 ≤ slots }
    ensures { result ≡ part_length slots part }
{
    PART_SLOTS.min(slots - part * PART_SLOTS)
}

/// How many parts a program has. None has the number 64, by which a part says that a run has ended.
fn part_count<C: Code>(program: &C) -> u32
    ensures count { result ≡ part_count (C.program program.now) }
    ensures few { result ≤ 64 }
{
    (program.slots() - 1) / PART_SLOTS + 1
}

/// The lines of a part.
fn put_part_lines<C: Code, W: Write>(
    page: &mut Waiting,
    out: &mut W,
    name: &str,
    program: &C,
    part: u32,
)
    requires { part < part_count (C.program program.now) }
    ensures { Says (W.contents out.old) page.old (part_lines_text name.now (C.program program.now) part) (W.contents out.new) page.new }
{
    let count = part_length(program.slots(), part);
    put_lines(page, out, name, program, part * PART_SLOTS, count);
}

/// How the function of a part begins. Where a program has several, no compiler is to take one into another.
fn part_word<C: Code>(program: &C) -> &'static str
    ensures { result.now ≡ part_word (part_count (C.program program.now)) }
{
    if part_count(program) > 1 {
        "BPF_PART uint32_t "
    } else {
        "static uint32_t "
    }
}

/// The function of a part.
fn put_part<C: Code, W: Write>(page: &mut Waiting, out: &mut W, name: &str, program: &C, part: u32)
    requires inside { part < part_count (C.program program.now) }
    requires few { part < 64 }
    ensures { Says (W.contents out.old) page.old (part_text name.now (C.program program.now) part) (W.contents out.new) page.new }
{
    page.put(out, part_word(program));
    page.put(out, name);
    page.put(out, "_part_");
    page.number(out, part);
    page.put(out, ENTER);
    put_entrances(page, out, program, part);
    page.put(out, ENTERED);
    put_part_lines(page, out, name, program, part);
    page.put(out, GO_ON);
    page.number(out, part + 1);
    page.put(out, LEAVE);
}

fn put_parts<C: Code, W: Write>(
    page: &mut Waiting,
    out: &mut W,
    name: &str,
    program: &C,
    count: u32,
)
    requires all { count ≡ part_count (C.program program.now) }
    requires few { count ≤ 64 }
    ensures { Says (W.contents out.old) page.old (parts_text name.now (C.program program.now)) (W.contents out.new) page.new }
{
    for part in 0..count {
        put_part(page, out, name, program, part);
    }
}

/// `case 0: part = filter_part_0(&site, r); break;`
fn put_case<W: Write>(page: &mut Waiting, out: &mut W, name: &str, part: u32)
    ensures { Says (W.contents out.old) page.old (case_text name.now part) (W.contents out.new) page.new }
{
    page.put(out, "    case ");
    page.number(out, part);
    page.put(out, ": part = ");
    page.put(out, name);
    page.put(out, "_part_");
    page.number(out, part);
    page.put(out, "(&site, r); break;\n");
}

fn put_cases<W: Write>(page: &mut Waiting, out: &mut W, name: &str, count: u32)
    ensures { Says (W.contents out.old) page.old (cases_text name.now count) (W.contents out.new) page.new }
{
    for part in 0..count {
        put_case(page, out, name, part);
    }
}

/// The function of a frame: a run goes from part to part in it, until an `exit`.
fn put_frame<W: Write>(page: &mut Waiting, out: &mut W, name: &str, count: u32)
    ensures { Says (W.contents out.old) page.old (frame_text name.now count) (W.contents out.new) page.new }
{
    page.put(out, "static uint64_t ");
    page.put(out, name);
    page.put(out, ARGUMENTS);
    page.put(out, FRAME);
    put_cases(page, out, name, count);
    page.put(out, END);
}

/// The functions for hosts.
fn put_host<W: Write>(page: &mut Waiting, out: &mut W, name: &str)
    ensures { Says (W.contents out.old) page.old (host_text name.now) (W.contents out.new) page.new }
{
    page.put(
        out,
        "#if defined(__GNUC__)\n#pragma GCC diagnostic pop\n#endif\n\nint ",
    );
    page.put(out, name);
    page.put(out, "_takes(uint64_t length)\n{\n    return length - ");
    page.put(out, name);
    page.put(out, "_LEAST <= ");
    page.put(out, name);
    page.put(out, "_MOST - ");
    page.put(out, name);
    page.put(out, "_LEAST;\n}\n\nuint64_t ");
    page.put(out, name);
    page.put(
        out,
        "(const uint8_t *context, uint64_t length)\n{\n    return ",
    );
    page.put(out, name);
    page.put(out, "_takes(length) ? ");
    page.put(out, name);
    page.put(
        out,
        "_from(0, 65536, (uint64_t)(uintptr_t)context, length, 0, 0, 0) : 0;\n}\n",
    );
}

/// Writes a program as the text of a function of C11, `uint64_t NAME(const uint8_t *context, uint64_t length)`, with what its
/// certificate promises: for a length that `promise` leaves out the function does nothing and answers 0. The text is made of the
/// statements of `bpf_c/specs/Statements`, one for each instruction, in parts of 1,024 slots. It goes out in pieces of 4,096 bytes;
/// a fault of the writer, or a write of no bytes, ends it, and what went out is then a beginning of the text. It takes no memory.
/// Whether the program is certified is for the caller to know, and that `name` is one ([`is_name`](crate::is_name)).
pub fn write_c<C: Code, W: Write>(
    program: &C,
    name: &str,
    promise: Promise,
    out: &mut W,
) -> io::Result<()>
    ensures ok { OnOk result (Appends (W.contents out.old) (W.contents out.new) (unit_text name.now promise (C.program program.now))) }
    ensures err { OnErr result (AppendsBeginning (W.contents out.old) (W.contents out.new) (unit_text name.now promise (C.program program.now))) }
{
    let count = part_count(program);
    let mut page = Waiting::new();
    put_operations(&mut page, out);
    put_defines(&mut page, out, name, promise);
    put_declarations(&mut page, out, name);
    put_parts(&mut page, out, name, program, count);
    put_frame(&mut page, out, name, count);
    put_host(&mut page, out, name);
    page.finish(out)
}
