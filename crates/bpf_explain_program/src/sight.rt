//! What the pass sees at an instruction.

use crate::flaws::Flaws;
use bpf_check::{Here, Index, JudgedEdge, Seen, Site, Spot, WayOut};
use bpf_insn::{Code, Insn};
use bpf_state::{Condition, State, Work};

/// An edge with the state that goes along it.
#[derive(Clone, Copy)]
pub struct EdgeSeen<'s, 'a> {
    pub edge: JudgedEdge<'a>,
    pub state: &'s State,
    pub is_jump: bool,
    /// What is told behind its end: which way the test of a conditional jump goes.
    pub condition: &'static str,
}

/// What the pass sees at an instruction.
#[derive(Drop)]
pub struct Sight<'a, C: Code> {
    pub program: &'a C,
    /// Whether budgets are told.
    pub has_budgets: bool,
    /// The instruction, with what the certificate says of its slot and of those that it leads to.
    pub site: Site<'a>,
    /// The last label and the cost since, in front of the instruction; None where no state reaches it.
    pub here: Option<Here<'a>>,
    /// What the checker saw, where a state reaches the instruction and it is allowed there.
    pub seen: Option<Seen<'a>>,
    /// How it leads out of its function, if it does.
    pub way_out: Option<WayOut>,
    pub flaws: Flaws,
    /// Whether no state reaches the instruction, and none is missing for another flaw.
    pub is_never: bool,
    /// The state in front of the instruction.
    pub before: State,
    /// The state on the edge to the next instruction; where there is none, the one behind the instruction.
    pub behind: State,
    /// The state where a conditional jump is taken.
    pub if_so: State,
    pub work: Work,
}

/// Whether an instruction is a conditional jump.
pub fn is_test(insn: &Insn) -> bool {
    matches!(*insn, Insn::JumpIf { .. })
}

impl<'a, C: Code> Sight<'a, C> {
    /// Nothing is seen yet.
    pub fn new(program: &'a C, certificate: &'a Index<'a>, has_budgets: bool) -> Self {
        Sight {
            program,
            has_budgets,
            site: Site::of(certificate, Spot::of(certificate, 0), Insn::Exit),
            here: None,
            seen: None,
            way_out: None,
            flaws: Flaws::NONE,
            is_never: false,
            before: State::blank(),
            behind: State::blank(),
            if_so: State::blank(),
            work: Work::new(),
        }
    }

    /// Turns to an instruction of which nothing is seen yet.
    pub fn turn_to(&mut self, site: Site<'a>) {
        self.site = site;
        self.here = None;
        self.seen = None;
        self.way_out = None;
        self.flaws = Flaws::NONE;
        self.is_never = false;
    }

    /// Takes note of what is seen of an instruction without fault.
    pub fn note(&mut self, seen: Seen<'a>) {
        let judged = seen.judged();
        self.flaws
            .add_if(judged.not_entailed, Condition::NotEntailed);
        self.flaws.add_if(judged.over_budget, Condition::OverBudget);
        self.flaws.add_if(judged.past_end, Condition::FallsOff);
        self.seen = Some(seen);
    }

    /// Whether a run may go on from the instruction, as far as is seen of it.
    pub fn goes_on(&self) -> bool {
        match &self.seen {
            Some(seen) => seen.is_alive,
            None => false,
        }
    }

    /// The cost since the last label, this instruction counted, if it is known.
    pub fn cost(&self) -> Option<i128> {
        self.seen.as_ref()?.cost
    }

    /// The edge of the jump, and the one to the next instruction, of which a dead one is told beside that of a conditional jump
    /// alone.
    pub fn ways(&self) -> [Option<EdgeSeen<'_, 'a>>; 2] {
        let Some(seen) = &self.seen else {
            return [None, None];
        };
        let is_test = is_test(&self.site.insn);
        let (so, not) = if is_test {
            (" if so", " if not")
        } else {
            ("", "")
        };
        let next = EdgeSeen {
            edge: seen.next,
            state: &self.behind,
            is_jump: false,
            condition: not,
        };
        let Some(edge) = seen.jump else {
            return [None, seen.next.is_live.then_some(next)];
        };
        let jump = EdgeSeen {
            edge,
            state: if is_test { &self.if_so } else { &self.behind },
            is_jump: true,
            condition: so,
        };
        let has_next = is_test || seen.next.is_live;
        [Some(jump), has_next.then_some(next)]
    }

    /// The state behind the instruction: on the edge to the next one, or in front of its edges. Tests and calls leave the state as
    /// it was.
    pub fn after(&self) -> &State {
        let goes_on = matches!(&self.seen, Some(seen) if seen.next.is_live);
        let stays = matches!(self.site.insn, Insn::JumpIf { .. } | Insn::CallLocal { .. });
        if stays && !goes_on {
            &self.before
        } else {
            &self.behind
        }
    }
}
