//! Counters: registers and slots of the new program that count the turns that are left.

ghost use Rattle.std.specs.Prelude.{◌≡◌, ℕ, ◌+◌, ◌-◌, None, false, if◌then◌else◌};
ghost use Rattle.std.specs.Option.{option_map_or};
ghost use Rattle.bpf_insn.specs.declared.instruction.AluOp.TheVariants.{Add, Mov};
ghost use Rattle.bpf_insn.specs.declared.instruction.Insn.TheVariants.{Alu, Load};
ghost use Rattle.bpf_insn.specs.declared.instruction.Operand.TheVariants.{Imm};
ghost use Rattle.bpf_insn.specs.declared.instruction.Reg.{Reg};
ghost use Rattle.bpf_insn.specs.declared.instruction.Width.TheVariants.{W64};
ghost use Rattle.bpf_kept.specs.Counters.{any_counter, is_turn_of, tells, makes_counter, is_spared, is_made, is_left, counts_behind, all_count_behind, is_tested_turn, has_turn};
ghost use Rattle.bpf_kept.specs.Knowns.{known_of};

use crate::facts::same_holder;
use crate::known::KnownHere;
use crate::notes::{Change, Holder, TurnsLeft};
use crate::slots::{Displaced, is_clear, slot_at};
use bpf_insn::{AluOp, Cond, Insn, Operand, Reg, Size, Width, extended};

// ---- which counters give which

/// Whether the old program's instruction, None where it stands still, is the one whose turns are counted.
fn is_turn_of(step: Option<u32>, head: u32) -> bool
    ensures { result ≡ is_turn_of step head }
{
    match step {
        Some(slot) => slot == head,
        None => false,
    }
}

/// How many turns are taken ahead behind the old program's instruction, so many more in front of it.
fn taken_behind(step: Option<u32>, more: u32, have: TurnsLeft) -> u64
    ensures { result ≡ (have.taken + more) - (if is_turn_of step have.head then 1 else 0) }
{
    let taken = u64::from(have.taken) + u64::from(more);
    if is_turn_of(step, have.head) {
        taken.saturating_sub(1)
    } else {
        taken
    }
}

/// Whether what a register or slot counts tells what is wanted, if so many turns more are taken ahead.
fn tells(step: Option<u32>, h: Holder, more: u32, want: TurnsLeft, have: TurnsLeft) -> bool
    ensures { result ≡ tells step h more want have }
{
    same_holder(have.of, h)
        && have.head == want.head
        && taken_behind(step, more, have) <= u64::from(want.taken)
}

/// Whether a place for a counter does, if one stands there.
fn place_tells(h: Holder, more: u32, want: TurnsLeft, place: Option<TurnsLeft>) -> bool
    ensures { result ≡ option_map_or (tells None h more want) place false }
{
    match place {
        Some(have) => tells(None, h, more, want, have),
        None => false,
    }
}

/// Whether one of the counters does, while the old program stands still.
fn is_counted(counters: &[Option<TurnsLeft>], h: Holder, more: u32, want: TurnsLeft) -> bool
    ensures { result ≡ any_counter (tells None h more want) counters.now }
{
    counters
        .iter()
        .any(|place| place_tells(h, more, want, *place))
}

// ---- what an extra instruction makes of them

/// Whether a load of a whole slot counts as wanted.
fn loads_counter(
    counters: &[Option<TurnsLeft>],
    size: Size,
    from: Displaced,
    want: TurnsLeft,
) -> bool
    ensures { (turns : ℕ) (dst : Reg) → result ≡ makes_counter turns counters.now (Load size dst from.base from.off) want }
{
    match slot_at(size, from) {
        Some(n) => is_counted(counters, Holder::Slot(n), 0, want),
        None => false,
    }
}

/// Whether a sum with a constant does: a counter loses one.
fn takes_turn(counters: &[Option<TurnsLeft>], dst: Reg, imm: i32, want: TurnsLeft) -> bool
    ensures { (turns : ℕ) → result ≡ makes_counter turns counters.now (Alu Add W64 dst (Imm imm)) want }
{
    imm == -1 && is_counted(counters, Holder::Register(dst), 1, want)
}

/// Whether a sum does.
fn adds_counter(
    counters: &[Option<TurnsLeft>],
    width: Width,
    dst: Reg,
    src: Operand,
    want: TurnsLeft,
) -> bool
    ensures { (turns : ℕ) → result ≡ makes_counter turns counters.now (Alu Add width dst src) want }
{
    match (width, src) {
        (Width::W64, Operand::Imm(imm)) => takes_turn(counters, dst, imm, want),
        (Width::W64, Operand::Reg(_r)) => false,
        (Width::W32, _) => false,
    }
}

/// Whether a move does.
fn moves_counter(
    turns: u64,
    counters: &[Option<TurnsLeft>],
    width: Width,
    src: Operand,
    want: TurnsLeft,
) -> bool
    ensures { (dst : Reg) → result ≡ makes_counter turns counters.now (Alu Mov width dst src) want }
{
    match (width, src) {
        (Width::W64, Operand::Imm(imm)) => turns <= extended(imm),
        (Width::W64, Operand::Reg(r)) => is_counted(counters, Holder::Register(r), 0, want),
        (Width::W32, _) => false,
    }
}

/// Whether what an extra instruction puts counts as wanted: it begins with all turns, is moved, or loses one.
fn makes_counter(turns: u64, counters: &[Option<TurnsLeft>], insn: &Insn, want: TurnsLeft) -> bool
    ensures { result ≡ makes_counter turns counters.now insn.now want }
{
    match *insn {
        Insn::Alu {
            op,
            width,
            dst,
            src,
        } => match op {
            AluOp::Add => adds_counter(counters, width, dst, src, want),
            AluOp::Mov => moves_counter(turns, counters, width, src, want),
            AluOp::Sub | AluOp::Mul | AluOp::Div | AluOp::SDiv | AluOp::Mod | AluOp::SMod => false,
            AluOp::Or | AluOp::And | AluOp::Xor | AluOp::Lsh | AluOp::Rsh | AluOp::Arsh => false,
        },
        Insn::LoadImm64 { value, .. } => turns <= value,
        Insn::Load { size, src, off, .. } => {
            loads_counter(counters, size, Displaced { base: src, off }, want)
        }
        Insn::Store { src, .. } => is_counted(counters, Holder::Register(src), 0, want),
        Insn::StoreImm { imm, .. } => turns <= extended(imm),
        Insn::Neg { .. } | Insn::MovSx { .. } | Insn::End { .. } | Insn::LoadSx { .. } => false,
        Insn::Atomic { .. } | Insn::Ja { .. } | Insn::JaLong { .. } => false,
        Insn::JumpIf { .. } | Insn::CallLocal { .. } | Insn::Exit => false,
    }
}

// ---- behind a change

/// Whether a change doesn't overwrite a register or slot.
pub fn is_spared(change: Change, h: Holder) -> bool
    ensures { result ≡ is_spared change h }
{
    match change {
        Change::Kept => true,
        Change::Put { fact, .. } => match fact.of {
            Some(into) => !same_holder(h, into),
            None => true,
        },
        Change::Stored { from, to } => is_clear(from, to, Some(h)),
        Change::Fetched { from, to, into } => {
            is_clear(from, to, Some(h)) && !same_holder(h, Holder::Register(into))
        }
        Change::Made { into, .. } => !same_holder(h, into),
    }
}

/// Whether an extra instruction makes what is wanted.
fn is_made(known: &KnownHere<'_>, change: Change, want: TurnsLeft) -> bool
    ensures { result ≡ is_made (known_of known.now) change want }
{
    match change {
        Change::Made { into, insn } => {
            same_holder(into, want.of) && makes_counter(known.turns, known.counters, &insn, want)
        }
        Change::Kept | Change::Put { .. } => false,
        Change::Stored { .. } | Change::Fetched { .. } => false,
    }
}

/// Whether a counter that a change doesn't overwrite tells what is wanted.
fn is_left(change: Change, step: Option<u32>, want: TurnsLeft, have: TurnsLeft) -> bool
    ensures { result ≡ is_left change step want have }
{
    is_spared(change, have.of) && tells(step, want.of, 0, want, have)
}

/// Whether one in a place does.
fn is_left_in(change: Change, step: Option<u32>, want: TurnsLeft, place: Option<TurnsLeft>) -> bool
    ensures { result ≡ option_map_or (is_left change step want) place false }
{
    match place {
        Some(have) => is_left(change, step, want, have),
        None => false,
    }
}

/// Whether one of them does.
fn any_left(known: &KnownHere<'_>, change: Change, step: Option<u32>, want: TurnsLeft) -> bool
    ensures { result ≡ any_counter (is_left change step want) known.now.counters.now }
{
    known
        .counters
        .iter()
        .any(|place| is_left_in(change, step, want, *place))
}

/// Whether what is wanted, if it is something, counts behind a change.
pub fn counts_behind(
    known: &KnownHere<'_>,
    change: Change,
    step: Option<u32>,
    want: Option<TurnsLeft>,
) -> bool
    ensures { result ≡ counts_behind (known_of known.now) change step want }
{
    match want {
        Some(want) => is_made(known, change, want) || any_left(known, change, step, want),
        None => true,
    }
}

/// Whether all that is wanted does.
#[tactic(auto, unfolding(crate::specs::Counters::all_count_behind))]
pub fn all_count_behind(
    known: &KnownHere<'_>,
    change: Change,
    step: Option<u32>,
    wants: &[Option<TurnsLeft>],
) -> bool
    ensures { result ≡ all_count_behind (known_of known.now) change step wants.now }
{
    wants
        .iter()
        .all(|want| counts_behind(known, change, step, *want))
}

// ---- the test of a counter

/// Whether a register counts the turns at a slot, and none is taken ahead.
fn is_tested_turn(slot: u32, dst: Reg, counter: TurnsLeft) -> bool
    ensures { result ≡ is_tested_turn slot dst counter }
{
    same_holder(counter.of, Holder::Register(dst)) && counter.head == slot && counter.taken == 0
}

/// Whether what stands in a place does.
fn is_tested_in(slot: u32, dst: Reg, place: Option<TurnsLeft>) -> bool
    ensures { result ≡ option_map_or (is_tested_turn slot dst) place false }
{
    match place {
        Some(counter) => is_tested_turn(slot, dst, counter),
        None => false,
    }
}

/// Whether one of them does.
fn counts_turns(counters: &[Option<TurnsLeft>], slot: u32, dst: Reg) -> bool
    ensures { result ≡ any_counter (is_tested_turn slot dst) counters.now }
{
    counters.iter().any(|place| is_tested_in(slot, dst, *place))
}

/// Whether an instruction tests a counter in front of the one whose turns it counts: it never leads to its trap.
#[tactic(auto, unfolding(crate::specs::Counters::has_turn))]
pub fn has_turn(counters: &[Option<TurnsLeft>], slot: u32, insn: &Insn) -> bool
    ensures { result ≡ has_turn counters.now slot insn.now }
{
    let Insn::JumpIf {
        cond: Cond::Eq,
        width: Width::W64,
        dst,
        src: Operand::Imm(imm),
        off: _off,
    } = *insn
    else {
        return false;
    };
    imm == 0 && counts_turns(counters, slot, dst)
}
