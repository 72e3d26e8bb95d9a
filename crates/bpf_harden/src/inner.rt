//! Loops inside others, and where they are come into: there their counters are set anew, so that what is left of their turns counts in no
//! budget of the loop around. A budget has few terms, and the loops inside one may be more.

use crate::heads::arcs_of;
use crate::old::Old;
use crate::plan::Plan;
use bpf_infer_base::{Arc, Components, Flow, Graph, put};
use std::alloc::{AllocError, Global};

/// How many counted loops are looked at in a program at most: each takes a pass over it.
const MOST_LOOPS: u32 = 32;

/// The counted loops of a program that weren't looked at yet, the lowest heads first.
#[derive(Clone, Copy)]
pub struct InnerLoops {
    /// No head lies below.
    next: u32,
    /// How many may be looked at.
    left: u32,
}

/// How an instruction leads to the head of a loop.
#[derive(Clone, Copy)]
enum LoopWay {
    /// From the loop itself.
    Back,
    /// From the loop around.
    Into,
    /// From farther away.
    Other,
    /// From behind the head, and not by a way within the loop: perhaps through a loop inside.
    Unclear,
}

/// A loop by its head, and what lies on cycles with it.
#[derive(Drop)]
struct CountedLoop<'a> {
    old: &'a Old<'a>,
    plan: &'a Plan,
    head: u32,
    /// By blocks, with those that ways into other counted heads close.
    around: Components,
    /// The same without these ways.
    within: Components,
}

impl<'a> CountedLoop<'a> {
    /// The loop with a head.
    fn of(
        alloc: Global,
        old: &'a Old<'a>,
        plan: &'a Plan,
        head: u32,
    ) -> Result<CountedLoop<'a>, AllocError> {
        let blocks = &old.cfg.blocks;
        let mut arcs = arcs_of(alloc, old, plan)?;
        let all = Graph::of(alloc, blocks.count(), arcs.to_vec(alloc)?)?;
        let own = blocks.block_of(head);
        arcs.retain(|arc| arc.to == own || !is_counted(old, plan, arc));
        let cut = Graph::of(alloc, blocks.count(), arcs)?;
        Ok(CountedLoop {
            old,
            plan,
            head,
            around: Components::of(alloc, &all)?,
            within: Components::of(alloc, &cut)?,
        })
    }

    /// How the instruction at a slot leads to the head, if it does.
    fn way(&self, slot: u32) -> Option<LoopWay> {
        let insn = self.plan.kept(self.old, slot)?;
        if !Flow::ways(slot, insn).contains(&Some(self.head)) {
            return None;
        }
        let blocks = &self.old.cfg.blocks;
        let arc = Arc::of(blocks.block_of(slot), blocks.block_of(self.head));
        Some(if self.within.contains(&arc) {
            LoopWay::Back
        } else if self.head <= slot {
            LoopWay::Unclear
        } else if self.around.contains(&arc) {
            LoopWay::Into
        } else {
            LoopWay::Other
        })
    }

    /// By slots, whether the loop is come into from the one around behind the instruction there. None where that isn't clear.
    fn entries(&self, alloc: Global) -> Result<Option<Vec<bool>>, AllocError> {
        let slots = self.old.program.slots();
        let mut entries = vec![in alloc; false; slots as usize]?;
        for slot in 0..slots {
            match self.way(slot) {
                Some(LoopWay::Into) => {
                    put(&mut entries, slot as usize, true);
                }
                Some(LoopWay::Unclear) => return Ok(None),
                Some(LoopWay::Back | LoopWay::Other) | None => {}
            }
        }
        Ok(Some(entries))
    }
}

/// Whether the turns of a loop are counted at the block to which an arc leads.
fn is_counted(old: &Old, plan: &Plan, arc: &Arc) -> bool {
    plan.at(old.cfg.blocks.label(arc.to)).counts
}

/// Sets the counter of the loop with a head anew where it is come into from a loop around. Whether it wasn't.
fn renew_at(alloc: Global, old: &Old, plan: &mut Plan, head: u32) -> Result<bool, AllocError> {
    let Some(entries) = CountedLoop::of(alloc, old, plan, head)?.entries(alloc)? else {
        return Ok(false);
    };
    let mut is_changed = false;
    for (slot, is_entry) in entries.iter().enumerate() {
        if let (true, Ok(slot)) = (*is_entry, u32::try_from(slot)) {
            is_changed = plan.renew(slot, head) || is_changed;
        }
    }
    Ok(is_changed)
}

impl InnerLoops {
    /// None is looked at yet.
    pub fn new() -> InnerLoops {
        InnerLoops {
            next: 0,
            left: MOST_LOOPS,
        }
    }

    /// Sets the counter of one more loop inside another one anew in front of it. Whether there was one.
    pub fn renew(&mut self, alloc: Global, old: &Old, plan: &mut Plan) -> Result<bool, AllocError> {
        for head in self.next..old.program.slots() {
            if !plan.at(head).counts || self.left == 0 {
                continue;
            }
            self.left = self.left.saturating_sub(1);
            self.next = head.saturating_add(1);
            if renew_at(alloc, old, plan, head)? {
                return Ok(true);
            }
        }
        Ok(false)
    }
}
