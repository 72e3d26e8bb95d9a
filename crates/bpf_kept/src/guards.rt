//! Guards: extra tests that never lead to their trap, since an access of the old program surely follows.

ghost use Rattle.std.specs.Prelude.{◌≡◌, ◌==◌, ◌<◌, ◌&&◌, ◌||◌, ℤ, pos, ◌+ℤ◌, ◌-ℤ◌, false};
ghost use Rattle.std.specs.Option.{option_map_or};
ghost use Rattle.bpf_insn.specs.Effects.{register_written};
ghost use Rattle.bpf_insn.specs.Instruction.{byte_count, register_number};
ghost use Rattle.std.specs.List.{list_any};
ghost use Rattle.bpf_kept.specs.Fronts.{front};
ghost use Rattle.bpf_kept.specs.Guards.{if_by, accesses_by, is_passed, is_met, is_ahead, begins_low, ends_high, is_within, is_tested_by, is_tested, guarded, front_behind, is_added, guards_sum, is_limited, is_end_term, is_end, has_end, is_reached_by, is_reached, register_reached, number_reached, end_reached, most_limit, passes};
ghost use Rattle.bpf_kept.specs.Knowns.{known_of};
ghost use Rattle.bpf_kept.specs.Rules.{pinned};
ghost use Rattle.bpf_kept.specs.declared.reach.GuardLimit.TheVariants.{Least};
ghost use Rattle.bpf_kept.specs.declared.notes.Holder.TheVariants.{Register};
ghost use Rattle.bpf_insn.specs.declared.instruction.Width.TheVariants.{W64};
ghost use Rattle.bpf_insn.specs.declared.instruction.Insn.TheVariants.{JumpIf};
ghost use Rattle.bpf_insn.specs.Limits.{max_slots};

use crate::bounds::Bounds;
use crate::code::insn_at;
use crate::facts::{is_holder, is_register, is_same, pinned, same_register};
use crate::known::KnownHere;
use crate::made::of_number;
use crate::notes::{Fact, Holder, Need, Term};
use crate::reach::{GuardLimit, GuardReach, in_context, reach_of};
use crate::states::is_small;
use bpf_insn::{Access, AluOp, Code, Cond, Insn, Operand, Reg, Size, Width, extended};
use bpf_semantics::HEAD_BYTES;

/// How many instructions are looked at.
const FARTHEST_AHEAD: u32 = 33;

/// In front of which old instruction a guard stands, and of which runs it is said that it passes.
#[derive(Clone, Copy)]
pub struct GuardSite {
    pub slot: u32,
    pub bounds: Bounds,
}

// ---- accesses that surely follow

/// Where an access ends.
fn end_of(off: i16, size: Size) -> i128
    ensures { result ≡ (off +ℤ pos (byte_count size)) }
{
    i128::from(off) + i128::from(size.bytes())
}

/// Whether an access is as a guard needs it.
fn is_met(need: Need, access: Access) -> bool
    ensures { result ≡ is_met need access }
{
    match need {
        Need::Below { offset } => i128::from(access.off) <= offset,
        Need::Above { offset } => offset <= end_of(access.off, access.size),
    }
}

/// Whether it is, and goes by a register.
fn is_met_by(r: Reg, need: Need, access: Access) -> bool
    ensures { result ≡ list_any (is_met need) (if_by r access) }
{
    same_register(access.base, r) && is_met(need, access)
}

/// Whether an instruction makes such an access by a register.
fn meets(insn: &Insn, r: Reg, need: Need) -> bool
    ensures { result ≡ list_any (is_met need) (accesses_by r insn.now) }
{
    match insn.access() {
        Some(access) => is_met_by(r, need, access),
        None => false,
    }
}

/// Whether an instruction writes the register.
fn writes(insn: &Insn, r: Reg) -> bool
    ensures { result ≡ option_map_or (λ w. register_number w == register_number r) (register_written insn.now) false }
{
    match insn.register_written() {
        Some(written) => same_register(written, r),
        None => false,
    }
}

/// Whether the instruction behind surely follows, with the same in the register.
fn is_passed(insn: &Insn, r: Reg) -> bool
    ensures { result ≡ is_passed r insn.now }
{
    insn.is_straight() && !writes(insn, r)
}

/// Whether such an access surely follows from a slot on.
fn is_ahead<C: Code>(old: &C, slot: u32, r: Reg, need: Need) -> bool
    ensures { result ≡ is_ahead (C.program old.now) r slot need }
{
    let mut slot = slot;
    let mut left = FARTHEST_AHEAD;
    'ahead: while left > 0 {
        left -= 1;
        let insn = match insn_at(old, slot) {
            Some(insn) => insn,
            None => return false,
        };
        if meets(&insn, r, need) {
            return true;
        }
        if !is_passed(&insn, r) {
            return false;
        }
        slot += insn.slots();
    }
    false
}

// ---- the rule

/// Where an access has to begin or to end, so that what is tested is so far from a byte that it goes to.
fn needed(byte: u64, moved: i64, limit: u64) -> i128
    ensures { result ≡ ((pos byte +ℤ moved) -ℤ pos limit) }
{
    i128::from(byte) + i128::from(moved) - i128::from(limit)
}

/// Whether an access follows that begins so low that what is tested is no less than a number.
fn begins_low<C: Code>(old: &C, site: GuardSite, r: Reg, reach: GuardReach, least: u64) -> bool
    ensures { result ≡ begins_low (front (C.program old.now) site) r reach least }
{
    let low = Need::Below {
        offset: needed(reach.first, reach.moved, least),
    };
    is_ahead(old, site.slot, r, low)
}

/// Whether an access follows that ends so far on that what is tested is no greater than a number.
fn ends_high<C: Code>(old: &C, site: GuardSite, r: Reg, reach: GuardReach, most: u64) -> bool
    ensures { result ≡ ends_high (front (C.program old.now) site) r reach most }
{
    let high = Need::Above {
        offset: needed(reach.end, reach.moved, most),
    };
    is_ahead(old, site.slot, r, high)
}

/// Whether accesses follow that keep what is tested within the limit.
fn is_within<C: Code>(
    old: &C,
    site: GuardSite,
    limit: GuardLimit,
    r: Reg,
    reach: GuardReach,
) -> bool
    ensures { result ≡ is_within (front (C.program old.now) site) limit r reach }
{
    match limit {
        GuardLimit::Most { most } => {
            begins_low(old, site, r, reach, 0) && ends_high(old, site, r, reach, most)
        }
        GuardLimit::MostOfSmall { most } => ends_high(old, site, r, reach, most),
        GuardLimit::Least { least } => begins_low(old, site, r, reach, least),
    }
}

/// Whether a number passes that is so far from a pointer of the old program.
fn is_tested_by<C: Code>(old: &C, site: GuardSite, limit: GuardLimit, t: Term, r: Reg) -> bool
    ensures { result ≡ is_tested_by (front (C.program old.now) site) limit t r }
{
    match reach_of(site.bounds, t, r) {
        Some(reach) => is_within(old, site, limit, r, reach),
        None => false,
    }
}

/// Whether a number passes of which a fact is known.
fn is_tested<C: Code>(old: &C, site: GuardSite, limit: GuardLimit, fact: Fact) -> bool
    ensures { result ≡ is_tested (front (C.program old.now) site) limit fact }
{
    match (fact.by, fact.base) {
        (Some(t), Some(Holder::Register(r))) => is_tested_by(old, site, limit, t, r),
        _ => false,
    }
}

/// A register, and which numbers of it pass.
#[derive(Clone, Copy)]
struct TestedRegister {
    dst: Reg,
    limit: GuardLimit,
}

/// Whether a register passes by a fact of it.
fn guarded<C: Code>(old: &C, site: GuardSite, tested: TestedRegister, fact: Fact) -> bool
    ensures { result ≡ guarded (front (C.program old.now) site) tested.dst tested.limit fact }
{
    is_register(tested.dst, fact.of) && is_tested(old, site, tested.limit, fact)
}

/// Whether a register is known to be within what passes.
fn guards_itself<C: Code>(old: &C, site: GuardSite, facts: &[Fact], tested: TestedRegister) -> bool
    ensures { result ≡ list_any (guarded (front (C.program old.now) site) tested.dst tested.limit) facts.now }
{
    facts.iter().any(|fact| guarded(old, site, tested, *fact))
}

/// Whether the sum of a pointer, whose address is known, and a number passes.
fn is_sum_tested<C: Code>(
    old: &C,
    site: GuardSite,
    facts: &[Fact],
    limit: GuardLimit,
    to: Reg,
) -> bool
    requires { site.slot < max_slots }
    ensures { result ≡ option_map_or (λ t. is_tested_by (front_behind (front (C.program old.now) site)) limit t to) (pinned facts.now (Register to)) false }
{
    let behind = GuardSite {
        slot: site.slot + 1,
        bounds: site.bounds,
    };
    match pinned(facts, Holder::Register(to)) {
        Some(t) => is_tested_by(old, behind, limit, t, to),
        None => false,
    }
}

/// Whether an old instruction adds what is tested to a pointer, and the sum passes.
fn is_added<C: Code>(
    old: &C,
    site: GuardSite,
    facts: &[Fact],
    tested: TestedRegister,
    insn: &Insn,
) -> bool
    requires { site.slot < max_slots }
    ensures { result ≡ is_added (front (C.program old.now) site) facts.now tested.dst tested.limit insn.now }
{
    let Insn::Alu {
        op: AluOp::Add,
        width: Width::W64,
        dst: to,
        src: Operand::Reg(r),
    } = *insn
    else {
        return false;
    };
    same_register(r, tested.dst)
        && is_same(facts, tested.dst)
        && is_sum_tested(old, site, facts, tested.limit, to)
}

/// Whether the old instruction that the guard stands in front of does.
#[tactic(auto, unfolding(crate::specs::Guards::guards_sum))]
fn guards_sum<C: Code>(old: &C, site: GuardSite, facts: &[Fact], tested: TestedRegister) -> bool
    ensures { result ≡ guards_sum (front (C.program old.now) site) facts.now tested.dst tested.limit }
{
    match insn_at(old, site.slot) {
        Some(insn) => is_added(old, site, facts, tested, &insn),
        None => false,
    }
}

/// Whether a register passes, by itself or behind the sum.
fn is_limited<C: Code>(
    old: &C,
    site: GuardSite,
    facts: &[Fact],
    dst: Reg,
    limit: GuardLimit,
) -> bool
    ensures { result ≡ is_limited (front (C.program old.now) site) facts.now dst limit }
{
    let tested = TestedRegister { dst, limit };
    guards_itself(old, site, facts, tested) || guards_sum(old, site, facts, tested)
}

// ---- by where the packet ends

/// Whether a number is that end, by the packet's length: the head lies in front.
fn is_end_term(t: Term) -> bool
    ensures { result ≡ is_end_term t }
{
    t.frames == 0 && t.moved == u64::from(HEAD_BYTES)
}

/// Whether a fact says that a register has it.
fn is_end(r: Reg, fact: Fact) -> bool
    ensures { result ≡ is_end r fact }
{
    is_register(r, fact.of)
        && is_holder(Holder::Length, fact.base)
        && match fact.by {
            Some(t) => is_end_term(t),
            None => false,
        }
}

/// Whether a register has it.
#[tactic(auto, unfolding(crate::specs::Guards::has_end))]
fn has_end(facts: &[Fact], r: Reg) -> bool
    ensures { result ≡ has_end facts.now r }
{
    facts.iter().any(|fact| is_end(r, *fact))
}

/// Whether accesses follow that keep the offset of a pointer, moved, from being behind that end.
fn is_reached_by<C: Code>(old: &C, site: GuardSite, r: Reg, reach: GuardReach) -> bool
    ensures { result ≡ is_reached_by (front (C.program old.now) site) r reach }
{
    let ends = Need::Above {
        offset: i128::from(reach.moved),
    };
    begins_low(old, site, r, reach, 0) && is_ahead(old, site.slot, r, ends)
}

/// Whether a number isn't behind it of which a fact is known.
fn is_reached<C: Code>(old: &C, site: GuardSite, fact: Fact) -> bool
    ensures { result ≡ is_reached (front (C.program old.now) site) fact }
{
    match (fact.by, fact.base) {
        (Some(t), Some(Holder::Register(r))) => {
            t.frames == 0 && is_reached_by(old, site, r, in_context(site.bounds, t))
        }
        _ => false,
    }
}

/// Whether a register isn't, by a fact of it.
fn register_reached<C: Code>(old: &C, site: GuardSite, dst: Reg, fact: Fact) -> bool
    ensures { result ≡ register_reached (front (C.program old.now) site) dst fact }
{
    is_register(dst, fact.of) && is_reached(old, site, fact)
}

/// Whether a constant isn't, by what 0 is.
fn number_reached<C: Code>(old: &C, site: GuardSite, n: u64, fact: Fact) -> bool
    ensures { result ≡ number_reached (front (C.program old.now) site) n fact }
{
    match of_number(n, fact) {
        Some(fact) => is_reached(old, site, fact),
        None => false,
    }
}

/// Whether a register isn't, by one of some facts.
fn is_register_reached<C: Code>(old: &C, site: GuardSite, facts: &[Fact], dst: Reg) -> bool
    ensures { result ≡ list_any (register_reached (front (C.program old.now) site) dst) facts.now }
{
    facts
        .iter()
        .any(|fact| register_reached(old, site, dst, *fact))
}

/// Whether a constant isn't, by one of some facts.
fn is_number_reached<C: Code>(old: &C, site: GuardSite, facts: &[Fact], n: u64) -> bool
    ensures { result ≡ list_any (number_reached (front (C.program old.now) site) n) facts.now }
{
    facts.iter().any(|fact| number_reached(old, site, n, *fact))
}

/// Whether a register passes that is tested against that end.
fn passes_end<C: Code>(old: &C, site: GuardSite, facts: &[Fact], dst: Reg, end: Reg) -> bool
    ensures { result ≡ (has_end facts.now end && list_any (register_reached (front (C.program old.now) site) dst) facts.now) }
{
    has_end(facts, end) && is_register_reached(old, site, facts, dst)
}

/// Whether that end passes, which is tested against a constant.
fn passes_least<C: Code>(old: &C, site: GuardSite, facts: &[Fact], end: Reg, least: u64) -> bool
    ensures { result ≡ end_reached (front (C.program old.now) site) facts.now end least }
{
    has_end(facts, end) && is_number_reached(old, site, facts, least)
}

// ---- tests

/// A test of 64 bits.
#[derive(Clone, Copy)]
struct WideTest {
    cond: Cond,
    dst: Reg,
    src: Operand,
}

/// Whether a register passes that is tested for being less than a constant.
fn passes_lower<C: Code>(old: &C, site: GuardSite, facts: &[Fact], dst: Reg, least: u64) -> bool
    ensures { result ≡ (end_reached (front (C.program old.now) site) facts.now dst least || is_limited (front (C.program old.now) site) facts.now dst (Least least)) }
{
    passes_least(old, site, facts, dst, least)
        || is_limited(old, site, facts, dst, GuardLimit::Least { least })
}

/// Which numbers of a register pass that is tested for being greater than one.
fn most_limit(known: &KnownHere<'_>, dst: Reg, most: u64) -> GuardLimit
    ensures { result ≡ most_limit (known_of known.now).state dst most }
{
    if is_small(known.state, dst) {
        GuardLimit::MostOfSmall { most }
    } else {
        GuardLimit::Most { most }
    }
}

/// Whether a test is a guard that passes.
#[tactic(auto, unfolding(crate::specs::Guards::passes))]
fn passes_test<C: Code>(old: &C, site: GuardSite, known: &KnownHere<'_>, test: WideTest) -> bool
    ensures { (off : ℤ) → result ≡ passes (front (C.program old.now) site) (known_of known.now) (JumpIf test.cond W64 test.dst test.src off) }
{
    let facts = known.facts;
    match (test.cond, test.src) {
        (Cond::Gt, Operand::Imm(imm)) => {
            let limit = most_limit(known, test.dst, extended(imm));
            is_limited(old, site, facts, test.dst, limit)
        }
        (Cond::Gt, Operand::Reg(end)) => passes_end(old, site, facts, test.dst, end),
        (Cond::Lt, Operand::Imm(imm)) => passes_lower(old, site, facts, test.dst, extended(imm)),
        _ => false,
    }
}

/// Whether an instruction is a guard that passes.
#[tactic(auto, unfolding(crate::specs::Guards::passes))]
pub fn passes<C: Code>(old: &C, site: GuardSite, known: &KnownHere<'_>, insn: &Insn) -> bool
    ensures { result ≡ passes (front (C.program old.now) site) (known_of known.now) insn.now }
{
    let Insn::JumpIf {
        cond,
        width: Width::W64,
        dst,
        src,
        off: _off,
    } = *insn
    else {
        return false;
    };
    passes_test(old, site, known, WideTest { cond, dst, src })
}
