//! The words of which the names of operations are made.

ghost use Rattle.std.specs.Prelude.{◌≡◌};
ghost use Rattle.bpf_c.specs.Words.{alu_word, width_word, size_word, order_word, swap_word, bits_word, extension_word, cond_word, atomic_word, register_word};

use bpf_insn::{
    AluOp, AtomicOp, Cond, EndBits, EndKind, Modify, Order, Reg, SignBits, Size, Width,
};

pub fn alu_word(op: AluOp) -> &'static str
    ensures { result.now ≡ alu_word op }
{
    match op {
        AluOp::Add => "    bpf_add",
        AluOp::Sub => "    bpf_sub",
        AluOp::Mul => "    bpf_mul",
        AluOp::Div => "    bpf_div",
        AluOp::SDiv => "    bpf_sdiv",
        AluOp::Or => "    bpf_or",
        AluOp::And => "    bpf_and",
        AluOp::Lsh => "    bpf_lsh",
        AluOp::Rsh => "    bpf_rsh",
        AluOp::Mod => "    bpf_mod",
        AluOp::SMod => "    bpf_smod",
        AluOp::Xor => "    bpf_xor",
        AluOp::Mov => "    bpf_mov",
        AluOp::Arsh => "    bpf_arsh",
    }
}

pub fn width_word(width: Width) -> &'static str
    ensures { result.now ≡ width_word width }
{
    match width {
        Width::W32 => "32(",
        Width::W64 => "64(",
    }
}

pub fn size_word(size: Size) -> &'static str
    ensures { result.now ≡ size_word size }
{
    match size {
        Size::B => "8",
        Size::H => "16",
        Size::W => "32",
        Size::DW => "64",
    }
}

pub fn order_word(order: Order) -> &'static str
    ensures { result.now ≡ order_word order }
{
    match order {
        Order::Little => "_le(",
        Order::Big => "_be(",
    }
}

pub fn swap_word(order: Order, kind: EndKind) -> &'static str
    ensures { result.now ≡ swap_word order kind }
{
    match (kind, order) {
        (EndKind::Le, Order::Little) => "    bpf_keep",
        (EndKind::Le, Order::Big) => "    bpf_swap",
        (EndKind::Be, Order::Little) => "    bpf_swap",
        (EndKind::Be, Order::Big) => "    bpf_keep",
        (EndKind::Swap, Order::Little) => "    bpf_swap",
        (EndKind::Swap, Order::Big) => "    bpf_swap",
    }
}

pub fn bits_word(bits: EndBits) -> &'static str
    ensures { result.now ≡ bits_word bits }
{
    match bits {
        EndBits::B16 => "16(",
        EndBits::B32 => "32(",
        EndBits::B64 => "64(",
    }
}

pub fn extension_word(bits: SignBits) -> &'static str
    ensures { result.now ≡ extension_word bits }
{
    match bits {
        SignBits::B8 => "    bpf_s8to",
        SignBits::B16 => "    bpf_s16to",
        SignBits::B32 => "    bpf_s32to",
    }
}

pub fn cond_word(cond: Cond) -> &'static str
    ensures { result.now ≡ cond_word cond }
{
    match cond {
        Cond::Eq => "    if (bpf_eq",
        Cond::Gt => "    if (bpf_gt",
        Cond::Ge => "    if (bpf_ge",
        Cond::Set => "    if (bpf_set",
        Cond::Ne => "    if (bpf_ne",
        Cond::SGt => "    if (bpf_sgt",
        Cond::SGe => "    if (bpf_sge",
        Cond::Lt => "    if (bpf_lt",
        Cond::Le => "    if (bpf_le",
        Cond::SLt => "    if (bpf_slt",
        Cond::SLe => "    if (bpf_sle",
    }
}

pub fn atomic_word(op: AtomicOp) -> &'static str
    ensures { result.now ≡ atomic_word op }
{
    match op {
        AtomicOp::Modify {
            by: Modify::Add,
            fetch: false,
        } => "    bpf_atomic_add",
        AtomicOp::Modify {
            by: Modify::Or,
            fetch: false,
        } => "    bpf_atomic_or",
        AtomicOp::Modify {
            by: Modify::And,
            fetch: false,
        } => "    bpf_atomic_and",
        AtomicOp::Modify {
            by: Modify::Xor,
            fetch: false,
        } => "    bpf_atomic_xor",
        AtomicOp::Modify {
            by: Modify::Add,
            fetch: true,
        } => "    bpf_fetch_add",
        AtomicOp::Modify {
            by: Modify::Or,
            fetch: true,
        } => "    bpf_fetch_or",
        AtomicOp::Modify {
            by: Modify::And,
            fetch: true,
        } => "    bpf_fetch_and",
        AtomicOp::Modify {
            by: Modify::Xor,
            fetch: true,
        } => "    bpf_fetch_xor",
        AtomicOp::Xchg => "    bpf_xchg",
        AtomicOp::CmpXchg => "    bpf_cmpxchg",
    }
}

pub fn register_word(reg: Reg) -> &'static str
    ensures { result.now ≡ register_word reg }
{
    match reg {
        Reg::R0 => "r0",
        Reg::R1 => "r1",
        Reg::R2 => "r2",
        Reg::R3 => "r3",
        Reg::R4 => "r4",
        Reg::R5 => "r5",
        Reg::R6 => "r6",
        Reg::R7 => "r7",
        Reg::R8 => "r8",
        Reg::R9 => "r9",
        Reg::R10 => "r10",
    }
}
