//! Which instructions and edges runs take, as far as the checker's pass knows.

use crate::pass::{Observer, pass_over};
use crate::sight::{EdgeSeen, Sight};
use bpf_check::Index;
use bpf_infer_base::SlotSet;
use bpf_insn::Code;

/// Which instructions and edges runs may take.
#[derive(Drop)]
pub struct FlowOfRuns {
    /// The instructions that a state reaches.
    pub reached: SlotSet,
    /// Those whose jump is live.
    pub jumps: SlotSet,
    /// Those from which a state goes on to the next.
    pub nexts: SlotSet,
    /// Those behind which nothing is known: no state reaches them, or they are refused.
    unknown: SlotSet,
}

impl FlowOfRuns {
    /// All four sets are of such words.
    fn filled(word: u64) -> Self {
        FlowOfRuns {
            reached: SlotSet::filled(word),
            jumps: SlotSet::filled(word),
            nexts: SlotSet::filled(word),
            unknown: SlotSet::filled(word),
        }
    }

    /// Nothing is ruled out.
    pub fn any() -> Self {
        FlowOfRuns::filled(u64::MAX)
    }

    /// Takes note of a way from the instruction at a slot.
    fn note(&mut self, slot: u32, way: EdgeSeen<'_, '_>) {
        if way.edge.is_live {
            if way.is_jump {
                self.jumps.add(slot);
            } else {
                self.nexts.add(slot);
            }
        }
    }

    /// Whether the jump at a slot may be taken, as far as is known.
    pub fn may_jump(&self, slot: u32) -> bool {
        self.jumps.has(slot) || self.unknown.has(slot)
    }

    /// Whether the next instruction may follow the one at a slot, as far as is known.
    pub fn may_go_on(&self, slot: u32) -> bool {
        self.nexts.has(slot) || self.unknown.has(slot)
    }
}

impl<C: Code> Observer<C> for FlowOfRuns {
    fn observe(&mut self, sight: &Sight<'_, C>) -> bool {
        let slot = sight.site.here.slot;
        if sight.here.is_some() {
            self.reached.add(slot);
        }
        if sight.seen.is_none() {
            self.unknown.add(slot);
        }
        for way in sight.ways().into_iter().flatten() {
            self.note(slot, way);
        }
        true
    }
}

/// Which instructions and edges runs may take, by the checker's pass.
pub fn flow_of<C: Code>(program: &C, certificate: &Index) -> FlowOfRuns {
    let mut flow = FlowOfRuns::filled(0);
    let _end = pass_over(program, certificate, false, &mut flow);
    flow
}
