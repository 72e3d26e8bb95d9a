//! The functions of a hardened program, and what each gives back.

use crate::note::{FlowEdge, left_of, nothing};
use crate::ranks::{RANKS, rank_of};
use bpf_infer_base::{Blocks, Call, FunctionNote, Hardened, SlotSet, calls_of, get_or, put};
use bpf_insn::{Reg, extended};
use bpf_kept::{BACK, Fact, Holder, are_results, by_itself, gives, spares};
use std::alloc::{AllocError, Global};

/// What a function gives back.
#[derive(Clone, Copy)]
pub struct GivenBack {
    /// What holds of r0 at each end to which a way is known to lead. None where none is.
    pub facts: Option<[Fact; BACK]>,
    /// A number that it never is there.
    pub spare: Option<u64>,
}

/// What the trap of a function answers, if its caller tests it.
fn spare_of(note: &FunctionNote) -> Option<u64> {
    let spare = note.spare?;
    Some(extended(spare))
}

/// Notes a fact, if it is new and there is room.
fn add_fact(facts: &mut [Fact; BACK], fact: Fact) {
    if facts.iter().any(|have| gives(*have, fact)) {
        return;
    }
    for place in facts.iter_mut() {
        if gives(nothing(), *place) {
            *place = fact;
            return;
        }
    }
}

/// Notes those of some facts that hold of r0 behind a way, of one rank.
fn add_held(facts: &mut [Fact; BACK], way: FlowEdge<'_>, rank: u8) {
    for fact in way.noted {
        if rank_of(fact) == rank && are_results(&[*fact]) && way.gives(*fact) {
            add_fact(facts, *fact);
        }
    }
}

/// That r0 is the same.
pub fn same_result() -> [Fact; BACK] {
    [by_itself(Holder::Register(Reg::R0)), nothing()]
}

/// What holds of r0 at the first end.
fn first_facts(way: FlowEdge<'_>) -> [Fact; BACK] {
    let same = by_itself(Holder::Register(Reg::R0));
    let mut facts = [nothing(); BACK];
    if way.gives(same) {
        add_fact(&mut facts, same);
    }
    for rank in 0..RANKS {
        add_held(&mut facts, way, rank);
    }
    facts
}

/// Whether facts that don't hold at a further end are taken away.
fn join_facts(facts: &mut [Fact; BACK], way: FlowEdge<'_>) -> bool {
    let mut is_less = false;
    for place in facts.iter_mut() {
        if !way.gives(*place) {
            *place = left_of(*place, way);
            is_less = true;
        }
    }
    is_less
}

impl GivenBack {
    /// What is said is cut to what holds at an end, too. Whether that is something else.
    fn end(&mut self, way: FlowEdge<'_>) -> bool {
        let is_spared = spares(way.known, self.spare);
        if !is_spared {
            self.spare = None;
        }
        match &mut self.facts {
            Some(facts) => join_facts(facts, way) || !is_spared,
            None => {
                self.facts = Some(first_facts(way));
                true
            }
        }
    }
}

/// The functions of a hardened program.
#[derive(Drop)]
pub struct FunctionTable {
    /// The slots, cut where functions begin.
    functions: Blocks,
    calls: Vec<Call>,
    /// By functions.
    given: Vec<GivenBack>,
}

impl FunctionTable {
    /// The first one gives back the same as the old program, and of the others nothing is known but what their traps answer.
    pub fn of(alloc: Global, new: &Hardened) -> Result<FunctionTable, AllocError> {
        let calls = calls_of(alloc, &new.program)?;
        let targets: Vec<u32> = calls.iter().map(|call| call.target).collect(alloc)?;
        let functions = Blocks::of(alloc, 0, new.program.slots(), &targets)?;
        let open = GivenBack {
            facts: None,
            spare: None,
        };
        let mut given = vec![in alloc; open; functions.count()]?;
        for note in &new.functions {
            let spare = spare_of(note);
            put(
                &mut given,
                functions.block_of(note.new),
                GivenBack { spare, ..open },
            );
        }
        let first = GivenBack {
            facts: Some(same_result()),
            spare: None,
        };
        put(&mut given, 0, first);
        Ok(FunctionTable {
            functions,
            calls,
            given,
        })
    }

    /// What the function of a slot gives back.
    pub fn given(&self, slot: u32) -> GivenBack {
        let open = GivenBack {
            facts: None,
            spare: None,
        };
        get_or(&self.given, self.functions.block_of(slot), open)
    }

    /// The calls of a function wait.
    fn wake(&self, function: usize, waiting: &mut SlotSet) {
        for call in &self.calls {
            if self.functions.block_of(call.target) == function {
                waiting.add(call.slot);
            }
        }
    }

    /// A way leads to an end of the function of a slot. The calls of the function wait if it gives back something else.
    pub fn end(&mut self, slot: u32, way: FlowEdge<'_>, waiting: &mut SlotSet) {
        let function = self.functions.block_of(slot);
        let is_new = match self.given.get_mut(function) {
            Some(given) => function > 0 && given.end(way),
            None => false,
        };
        if is_new {
            self.wake(function, waiting);
        }
    }

    /// Of a function that has a way to its entry, and none to an end, it is said that it gives back the same. Its calls wait.
    pub fn close(&mut self, function: usize, waiting: &mut SlotSet) {
        if let Some(given) = self.given.get_mut(function) {
            if given.facts.is_none() {
                given.facts = Some(same_result());
                self.wake(function, waiting);
            }
        }
    }

    /// How many functions there are.
    pub fn count(&self) -> usize {
        self.functions.count()
    }

    /// The first slot of one.
    pub fn entry(&self, function: usize) -> u32 {
        self.functions.label(function)
    }
}
