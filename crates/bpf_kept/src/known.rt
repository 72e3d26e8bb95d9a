//! What is known in front of an instruction of the new program.

ghost use Rattle.std.specs.Prelude.{◌≡◌, ◌+◌, ◌++◌, ◌<◌, ◌≤◌, [], ◌∷◌, not, false, if◌then◌else◌, length as list_length};
ghost use Rattle.std.specs.List.{list_all};
ghost use Rattle.std.specs.Option.{option_map_or};
ghost use Rattle.bpf_insn.specs.Instruction.{insn_at};
ghost use Rattle.bpf_kept.specs.Far.{bytes_before};
ghost use Rattle.bpf_kept.specs.Terms.{is_noted, frame_slots};
ghost use Rattle.bpf_kept.specs.Slots.{slot_facts};
ghost use Rattle.bpf_kept.specs.Matching.{is_zero_slot, same_slot, said, end_facts, facts_at, hands_frame, left_alone, length_facts, start_facts};
ghost use Rattle.bpf_kept.specs.Knowns.{facts_in, first_facts, known_of, known_at_slot};

use crate::bounds::Bounds;
use crate::facts::{by_itself, known_number, pin_fact};
use crate::notes::{Fact, Holder, Note, SLOTS, TurnsLeft};
use crate::slots::is_noted;
use crate::terms::{MIDDLE, constant, context_offset, frame_end, negated, number_pin, zero};
use bpf_insn::{Code, FRAME_BYTES, Insn, Operand, Reg};
use bpf_semantics::HEAD_BYTES;
use bpf_state::State;

/// How many facts hold at most in front of an instruction: those of the note, one for each slot of the frame that the old program has 0 in, one for
/// each that is the same in both, those of r10, or of the start, and those that hold behind a call.
const MOST_FACTS: usize = 162;

/// Facts, in order: so many of the first ones.
#[derive(Drop)]
pub struct FactList {
    all: [Fact; MOST_FACTS],
    count: usize,
}

impl FactList {
    /// None.
    pub fn new() -> Self
        ensures facts { facts_in result ≡ [] }
        ensures count { result.count ≡ 0 }
    {
        let nothing = Fact {
            of: None,
            base: None,
            by: Some(zero()),
        };
        FactList {
            all: [nothing; MOST_FACTS],
            count: 0,
        }
    }

    /// One more.
    pub fn push(&mut self, fact: Fact)
        requires { self.old.count < 162 }
        ensures facts { facts_in self.new ≡ facts_in self.old ++ fact ∷ [] }
        ensures count { self.new.count ≡ self.old.count + 1 }
    {
        self.all[self.count] = fact;
        self.count += 1;
    }

    /// All of them.
    pub fn as_slice(&self) -> &[Fact]
        requires { self.now.count ≤ 162 }
        ensures { result.now ≡ facts_in self.now }
    {
        &self.all[..self.count]
    }
}

/// What is known in front of an instruction: facts; which slots of the frame may differ; what counts turns, where the old program may come to an
/// instruction so often; how many of the frame's lowest bytes no access by another register than r10 goes to; what the function
/// gives back, and a number that it never does; one that r0 of the new program isn't; and that program's state, if its certificate has one.
#[derive(Clone, Copy)]
pub struct KnownHere<'a> {
    pub facts: &'a [Fact],
    pub apart: &'a [bool],
    pub counters: &'a [Option<TurnsLeft>],
    pub turns: u64,
    pub left: u32,
    pub back: &'a [Fact],
    pub spare: Option<u64>,
    pub barred: Option<u64>,
    pub state: Option<&'a State>,
}

/// A slot of the new program, of which runs something is said, how many of the lowest bytes of its frames no access by another register than r10 goes
/// to, and the program's state there, if its certificate has one.
#[derive(Clone, Copy)]
pub struct NewSlot<'a> {
    pub slot: u32,
    pub bounds: Bounds,
    pub left: u32,
    pub state: Option<&'a State>,
}

// ---- facts of slots

/// That the old program has 0 in a slot.
pub fn is_zero_slot(n: u8) -> Fact
    ensures { result ≡ is_zero_slot n }
{
    Fact {
        of: None,
        base: Some(Holder::Slot(n)),
        by: Some(zero()),
    }
}

/// That both have the same in a slot.
pub fn same_slot(n: u8) -> Fact
    ensures { result ≡ same_slot n }
{
    by_itself(Holder::Slot(n))
}

/// Adds that the old program has 0 in a slot, where that is noted.
fn add_zero(facts: &mut FactList, zeros: &[bool], n: u8)
    requires { facts.old.count < 162 }
    ensures facts { facts_in facts.new ≡ facts_in facts.old ++ (if is_noted zeros.now n then is_zero_slot n ∷ [] else []) }
    ensures count { facts.new.count ≤ facts.old.count + 1 }
{
    if is_noted(zeros, n) {
        facts.push(is_zero_slot(n));
    }
}

/// Adds it of each slot of which it is noted.
pub fn add_zeros(facts: &mut FactList, zeros: &[bool])
    requires { facts.old.count ≤ 96 }
    ensures facts { facts_in facts.new ≡ facts_in facts.old ++ slot_facts is_zero_slot (is_noted zeros.now) frame_slots }
    ensures count { facts.new.count ≤ facts.old.count + frame_slots }
{
    let mut left = SLOTS as u8;
    'slots: while left > 0 {
        left -= 1;
        add_zero(facts, zeros, left);
    }
}

/// Adds that both have the same in a slot, where nothing else is noted.
fn add_common(facts: &mut FactList, apart: &[bool], n: u8)
    requires { facts.old.count < 162 }
    ensures facts { facts_in facts.new ≡ facts_in facts.old ++ (if not (is_noted apart.now n) then same_slot n ∷ [] else []) }
    ensures count { facts.new.count ≤ facts.old.count + 1 }
{
    if !is_noted(apart, n) {
        facts.push(same_slot(n));
    }
}

/// Adds it of each slot of which nothing else is noted.
pub fn add_same(facts: &mut FactList, apart: &[bool])
    requires { facts.old.count ≤ 96 }
    ensures facts { facts_in facts.new ≡ facts_in facts.old ++ slot_facts same_slot (λ n. not (is_noted apart.now n)) frame_slots }
    ensures count { facts.new.count ≤ facts.old.count + frame_slots }
{
    let mut left = SLOTS as u8;
    'slots: while left > 0 {
        left -= 1;
        add_common(facts, apart, left);
    }
}

// ---- a note

/// These facts.
fn facts_of(facts: &[Fact]) -> FactList
    requires { list_length facts.now ≤ 32 }
    ensures facts { facts_in result ≡ facts.now }
    ensures count { result.count ≡ list_length facts.now }
{
    let mut all = FactList::new();
    for fact in facts {
        all.push(*fact);
    }
    all
}

/// What a note says.
pub fn said(note: &Note) -> FactList
    ensures facts { facts_in result ≡ said note.now }
    ensures count { result.count ≤ 88 }
{
    let mut facts = facts_of(&note.facts);
    add_zeros(&mut facts, &note.zeros);
    facts
}

/// What holds of r10 all along: it is where the frame ends, in both.
pub fn end_facts() -> [Fact; 3]
    ensures { result ≡ end_facts }
{
    [
        by_itself(Holder::Register(Reg::R10)),
        pin_fact(Holder::Register(Reg::R10), negated(frame_end())),
        known_number(Some(Holder::Register(Reg::R10)), frame_end()),
    ]
}

/// Adds that.
fn add_end(facts: &mut FactList)
    requires { facts.old.count ≤ 96 }
    ensures facts { facts_in facts.new ≡ facts_in facts.old ++ end_facts }
    ensures count { facts.new.count ≡ facts.old.count + 3 }
{
    let [same, pin, number] = end_facts();
    facts.push(same);
    facts.push(pin);
    facts.push(number);
}

/// What holds where it is noted.
pub fn facts_at(note: &Note) -> FactList
    ensures facts { facts_in result ≡ facts_at note.now }
    ensures count { result.count ≤ 155 }
{
    let mut facts = said(note);
    add_end(&mut facts);
    add_same(&mut facts, &note.apart);
    facts
}

/// What is known there, with these facts.
pub fn known_here<'a>(facts: &'a [Fact], at: NewSlot<'a>, note: &'a Note) -> KnownHere<'a>
    requires { facts.now ≡ facts_at note.now }
    ensures { known_of result ≡ known_at_slot at.entry note.now }
{
    KnownHere {
        facts,
        apart: &note.apart,
        counters: &note.counters,
        turns: at.bounds.turns,
        left: at.left,
        back: &note.back,
        spare: note.spare,
        barred: note.barred,
        state: at.state,
    }
}

// ---- the start

/// How many bytes of a block lie before the packet; else there is none.
pub fn bytes_before(padded: bool) -> u64
    ensures { result ≡ bytes_before padded }
{
    if padded { u64::from(HEAD_BYTES) } else { 0 }
}

/// What holds of the registers at the start: r1 is where the context begins, in blocks a head before the packet; r2 is the packet's length; and all
/// else is the same in both.
fn first_facts(padded: bool) -> [Fact; 14]
    ensures { result ≡ first_facts padded }
{
    let before = bytes_before(padded);
    [
        Fact {
            of: Some(Holder::Register(Reg::R1)),
            base: None,
            by: Some(context_offset()),
        },
        Fact {
            of: None,
            base: Some(Holder::Register(Reg::R1)),
            by: Some(constant(MIDDLE - before)),
        },
        Fact {
            of: Some(Holder::Register(Reg::R1)),
            base: Some(Holder::Register(Reg::R1)),
            by: Some(negated(constant(before))),
        },
        Fact {
            of: Some(Holder::Register(Reg::R2)),
            base: Some(Holder::Length),
            by: Some(zero()),
        },
        by_itself(Holder::Register(Reg::R0)),
        by_itself(Holder::Register(Reg::R2)),
        by_itself(Holder::Register(Reg::R3)),
        by_itself(Holder::Register(Reg::R4)),
        by_itself(Holder::Register(Reg::R5)),
        by_itself(Holder::Register(Reg::R6)),
        by_itself(Holder::Register(Reg::R7)),
        by_itself(Holder::Register(Reg::R8)),
        by_itself(Holder::Register(Reg::R9)),
        by_itself(Holder::Register(Reg::R10)),
    ]
}

/// Adds that r2 is the length, which is known unless contexts are blocks.
fn add_length(facts: &mut FactList, padded: bool, length: u32)
    requires { facts.old.count < 32 }
    ensures facts { facts_in facts.new ≡ facts_in facts.old ++ length_facts padded length }
    ensures count { facts.new.count ≤ facts.old.count + 2 }
{
    let place = Holder::Register(Reg::R2);
    let length = u64::from(length);
    if !padded {
        facts.push(pin_fact(place, number_pin(length)));
        facts.push(known_number(Some(place), constant(length)));
    }
}

/// What holds at the start: that, and the frame is 0 in both.
pub fn start_facts(padded: bool, length: u32) -> FactList
    ensures facts { facts_in result ≡ start_facts padded length }
    ensures count { result.count ≤ 162 }
{
    let mut facts = facts_of(&first_facts(padded));
    add_length(&mut facts, padded, length);
    add_zeros(&mut facts, &[true; SLOTS]);
    add_same(&mut facts, &[]);
    facts
}

// ---- the lowest bytes of the frame

/// Whether an instruction may put where the frame ends, or begins, into a register or the frame.
fn hands_frame(insn: &Insn) -> bool
    ensures { result ≡ hands_frame insn.now }
{
    match *insn {
        Insn::Alu { src, .. } => match src {
            Operand::Imm(_imm) => false,
            Operand::Reg(r) => r.is_frame_pointer(),
        },
        Insn::Store { src, .. } => src.is_frame_pointer(),
        Insn::Neg { .. } | Insn::MovSx { .. } | Insn::End { .. } => false,
        Insn::LoadImm64 { .. } | Insn::Load { .. } | Insn::LoadSx { .. } => false,
        Insn::StoreImm { .. } | Insn::Atomic { .. } | Insn::Ja { .. } => false,
        Insn::JaLong { .. } | Insn::JumpIf { .. } | Insn::CallLocal { .. } | Insn::Exit => false,
    }
}

/// Whether the instruction at a slot does.
fn hands_at<N: Code>(new: &N, slot: u32) -> bool
    ensures { result ≡ option_map_or hands_frame (insn_at (N.program new.now).list slot) false }
{
    match new.insn(slot) {
        Some(insn) => hands_frame(&insn),
        None => false,
    }
}

/// Whether none does.
fn hands_none<N: Code>(new: &N) -> bool
    ensures { result ≡ list_all (λ i. not (hands_frame i)) (N.program new.now).list }
{
    for slot in 0..new.slots() {
        if hands_at(new, slot) {
            return false;
        }
    }
    true
}

/// How many of the lowest bytes of the frame no access by another register than r10 goes to.
#[tactic(auto, unfolding(crate::specs::Matching::left_alone))]
pub fn left_alone<N: Code>(new: &N, untouched: u32) -> u32
    ensures { result ≡ left_alone (N.program new.now) untouched }
{
    if hands_none(new) {
        FRAME_BYTES as u32
    } else {
        untouched
    }
}
