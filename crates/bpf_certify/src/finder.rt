//! A forward data flow over the slots of a hardened program, to the greatest fixed point (Kildall, 1973). Ways that neither
//! program goes are left out (Wegman and Zadeck, 1991).

use crate::functions::{FunctionTable, GivenBack, same_result};
use crate::note::{FlowEdge, first_note, join};
use crate::sites::{NewSite, sites_of};
use crate::states::numbers_of;
use crate::turns::{Head, heads_of};
use bpf_cert::Certificate;
use bpf_infer_base::{Flow, Hardened, SlotSet, get_or, held, put};
use bpf_insn::{Insn, MAX_SLOTS, Program, target};
use bpf_kept::{
    Bounds, Change, Fact, GuardSite, KnownHere, Note, apart_waits, are_same, entered_facts, extra,
    facts_at, is_dead, left_alone, paired, returned_counters, returned_facts, start_facts,
    start_slot,
};
use bpf_state::{Entries, State};
use std::alloc::{AllocError, Global};

/// The most slots of a program whose notes are sought: a note has some 2,000 bytes.
const MOST_SLOTS: u32 = 16_384;

/// How often each slot is looked at at most, in the mean.
const LOOKS: u32 = 64;

/// How often slots are looked at at most, all together. What isn't stable by then isn't shown.
const MOST_LOOKS: u32 = 65_536;

/// Both programs, and what is found so far.
#[derive(Drop)]
struct DataFlow<'a> {
    alloc: Global,
    old: &'a Program,
    new: &'a Program,
    bounds: Bounds,
    /// How many of the lowest bytes of the frame no access by another register than r10 goes to.
    left: u32,
    sites: Vec<Option<NewSite>>,
    heads: Vec<Head>,
    /// By new slots, what the certificate knows.
    numbers: Vec<Option<Entries>>,
    functions: FunctionTable,
    /// By new slots.
    notes: Vec<Option<Note>>,
    /// The new slots whose notes changed since they were looked at.
    waiting: SlotSet,
}

/// An old instruction, and the new one that stands for it.
#[derive(Clone, Copy)]
struct InsnPair {
    insn: Insn,
    moved: Insn,
}

/// The slot to which an instruction jumps.
fn led(slot: u32, insn: &Insn) -> Option<u32> {
    target(slot.min(MAX_SLOTS as u32), insn.distance()?)
}

impl<'a> DataFlow<'a> {
    /// Nothing is found.
    fn new(
        alloc: Global,
        old: &'a Program,
        new: &'a Hardened,
        certificate: &Certificate,
        bounds: Bounds,
    ) -> Result<DataFlow<'a>, AllocError> {
        let sites = sites_of(alloc, old, new)?;
        let heads = heads_of(alloc, &new.program, &sites)?;
        Ok(DataFlow {
            alloc,
            old,
            new: &new.program,
            bounds,
            left: left_alone(&new.program, bounds.untouched),
            sites,
            heads,
            numbers: numbers_of(alloc, &new.program, certificate)?,
            functions: FunctionTable::of(alloc, new)?,
            notes: vec![in alloc; None; new.program.slots() as usize]?,
            waiting: SlotSet::none(),
        })
    }

    /// What is known where something is noted, with these facts and numbers.
    fn known<'b>(
        &self,
        facts: &'b [Fact],
        note: &'b Note,
        state: Option<&'b State>,
    ) -> KnownHere<'b> {
        KnownHere {
            facts,
            apart: &note.apart,
            counters: &note.counters,
            turns: self.bounds.turns,
            left: self.left,
            state,
            back: &[],
            spare: None,
            barred: note.barred,
        }
    }

    /// A way leads to a new slot.
    fn arrive(&mut self, slot: u32, way: FlowEdge<'_>) -> Result<(), AllocError> {
        let Some(site) = get_or(&self.sites, slot as usize, None) else {
            return Ok(());
        };
        let mut is_new = true;
        let note = match held(&self.notes, slot as usize) {
            Some(before) => {
                let mut note = *before;
                is_new = join(&mut note, way);
                note
            }
            None => first_note(self.alloc, site, way, &self.heads)?,
        };
        if is_new {
            put(&mut self.notes, slot as usize, Some(note));
            self.waiting.add(slot);
        }
        Ok(())
    }

    /// The start leads to the first slot, in blocks behind the cut of the length.
    fn start(&mut self) -> Result<(), AllocError> {
        let facts = start_facts(self.bounds.padded, self.bounds.length);
        let known = KnownHere {
            facts: facts.as_slice(),
            apart: &[],
            counters: &[],
            turns: self.bounds.turns,
            left: self.left,
            state: None,
            back: &[],
            spare: None,
            barred: None,
        };
        let way = FlowEdge {
            known: &known,
            noted: known.facts,
            change: Change::Kept,
            step: None,
        };
        self.arrive(start_slot(self.bounds.padded), way)
    }

    /// Goes on from an extra instruction.
    fn pass_extra(
        &mut self,
        slot: u32,
        note: &Note,
        known: &KnownHere<'_>,
        insn: &Insn,
    ) -> Result<(), AllocError> {
        let site = GuardSite {
            slot: note.old,
            bounds: self.bounds,
        };
        let Some(change) = extra(self.old, site, known, insn) else {
            return Ok(());
        };
        let way = FlowEdge {
            known,
            noted: &note.facts,
            change,
            step: None,
        };
        self.arrive(slot.saturating_add(insn.slots()), way)
    }

    /// Goes on from an instruction that stands for an old one, on each way that a program may go.
    fn pass_body<'b>(
        &mut self,
        slot: u32,
        note: &'b Note,
        known: &'b KnownHere<'b>,
        moved: &Insn,
    ) -> Result<(), AllocError> {
        let Some(insn) = self.old.at(note.old).copied() else {
            return Ok(());
        };
        match (Flow::of(note.old, &insn), Flow::of(slot, moved)) {
            (Flow::Call(_), Flow::Call(to)) => self.pass_call(slot, note, known, to),
            (Flow::Exit, Flow::Exit) => {
                self.pass_exit(slot, note, known);
                Ok(())
            }
            _ => {
                let pair = InsnPair {
                    insn,
                    moved: *moved,
                };
                self.pass_pair(slot, note, known, pair)
            }
        }
    }

    /// Goes on from an instruction that stands for an old one, where neither calls or ends a function.
    fn pass_pair<'b>(
        &mut self,
        slot: u32,
        note: &'b Note,
        known: &'b KnownHere<'b>,
        pair: InsnPair,
    ) -> Result<(), AllocError> {
        let InsnPair { insn, moved } = &pair;
        let Some(change) = paired(known, are_same(insn, moved), insn, moved) else {
            return Ok(());
        };
        let way = FlowEdge {
            known,
            noted: &note.facts,
            change,
            step: Some(note.old),
        };
        if insn.goes_on() && !is_dead(known, insn, moved, false) {
            self.arrive(slot.saturating_add(moved.slots()), way)?;
        }
        if is_dead(known, insn, moved, true) {
            return Ok(());
        }
        match led(slot, moved) {
            Some(to) => self.arrive(to, way),
            None => Ok(()),
        }
    }

    /// Goes on from a call to the function's entry, and behind the call, once it is known what the function gives back.
    fn pass_call(
        &mut self,
        slot: u32,
        note: &Note,
        known: &KnownHere<'_>,
        to: u32,
    ) -> Result<(), AllocError> {
        if !apart_waits(known) {
            return Ok(());
        }
        let facts = entered_facts(note);
        let entered = KnownHere {
            facts: facts.as_slice(),
            apart: &[],
            counters: &[],
            barred: None,
            ..*known
        };
        let way = FlowEdge {
            known: &entered,
            noted: entered.facts,
            change: Change::Kept,
            step: None,
        };
        self.arrive(to, way)?;
        let given = self.functions.given(to);
        self.pass_behind(slot, note, known, given)
    }

    /// Goes on behind a call of a function that gives this back.
    fn pass_behind(
        &mut self,
        slot: u32,
        note: &Note,
        known: &KnownHere<'_>,
        given: GivenBack,
    ) -> Result<(), AllocError> {
        let Some(back) = given.facts else {
            return Ok(());
        };
        let facts = returned_facts(self.left, note, &back);
        let counters = returned_counters(self.left, note.counters);
        let returned = KnownHere {
            facts: facts.as_slice(),
            counters: &counters,
            barred: given.spare,
            ..*known
        };
        let way = FlowEdge {
            known: &returned,
            noted: returned.facts,
            change: Change::Kept,
            step: Some(note.old),
        };
        self.arrive(slot.saturating_add(1), way)
    }

    /// The function of a slot ends there.
    fn pass_exit(&mut self, slot: u32, note: &Note, known: &KnownHere<'_>) {
        let way = FlowEdge {
            known,
            noted: &note.facts,
            change: Change::Kept,
            step: None,
        };
        self.functions.end(slot, way, &mut self.waiting);
    }

    /// Goes on from a new slot.
    fn go_on(&mut self, slot: u32) -> Result<(), AllocError> {
        let (Some(note), Some(insn)) = (
            get_or(&self.notes, slot as usize, None),
            self.new.at(slot).copied(),
        ) else {
            return Ok(());
        };
        let state = held(&self.numbers, slot as usize).map(|numbers| numbers.state());
        let facts = facts_at(&note);
        let known = self.known(facts.as_slice(), &note, state.as_ref());
        if note.extras == 0 {
            self.pass_body(slot, &note, &known, &insn)
        } else {
            self.pass_extra(slot, &note, &known, &insn)
        }
    }

    /// Where no slot waits, the calls of functions do to whose entries a way is known to lead, and to whose ends none is.
    fn close_functions(&mut self) {
        for function in 0..self.functions.count() {
            let entry = self.functions.entry(function);
            if held(&self.notes, entry as usize).is_some() {
                self.functions.close(function, &mut self.waiting);
            }
        }
    }

    /// The lowest slot that waits.
    fn next_waiting(&mut self) -> Option<u32> {
        match self.waiting.take_first() {
            Some(slot) => Some(slot),
            None => {
                self.close_functions();
                self.waiting.take_first()
            }
        }
    }

    /// Goes on from the lowest slot where something is new, until nothing is, or no more slots may be looked at.
    fn settle(&mut self) -> Result<(), AllocError> {
        for _ in 0..self.new.slots().saturating_mul(LOOKS).min(MOST_LOOKS) {
            let Some(slot) = self.next_waiting() else {
                break;
            };
            self.go_on(slot)?;
        }
        Ok(())
    }

    /// Each note says of its function what that gives back.
    fn tell_given(&mut self) {
        for slot in 0..self.new.slots() {
            let given = self.functions.given(slot);
            if let Some(Some(note)) = self.notes.get_mut(slot as usize) {
                note.back = given.facts.unwrap_or(same_result());
                note.spare = given.spare;
            }
        }
    }
}

/// By the slots of a hardened program, what is noted of its instructions for some runs. `follows` of `bpf_follows` takes it beside a certificate that
/// certifies the program. None where no way is known to lead, and at second slots. Of programs that are too long nothing is noted.
pub fn notes_of(
    alloc: Global,
    old: &Program,
    new: &Hardened,
    certificate: &Certificate,
    bounds: Bounds,
) -> Result<Vec<Option<Note>>, AllocError> {
    if new.program.slots() > MOST_SLOTS {
        return Ok(Vec::new(alloc));
    }
    let mut finder = DataFlow::new(alloc, old, new, certificate, bounds)?;
    finder.start()?;
    finder.settle()?;
    finder.tell_given();
    Ok(finder.notes)
}
