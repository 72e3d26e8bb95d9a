//! Visits: each instruction with what reaches it.

ghost use Rattle.std.specs.Prelude.{◌≡◌, ℕ, ◌+◌, ◌≤◌, List, option_map, is_some, IfSome, IfOk, IfErr, IsTrue, Some, None};
ghost use Rattle.bpf_cert.specs.View.{CertificateView, label_view};
ghost use Rattle.bpf_cert.specs.Limits.{is_limited_label};
ghost use Rattle.bpf_insn.specs.Instruction.{slot_count};
ghost use Rattle.bpf_state.specs.Fault.{fault_of};
ghost use Rattle.bpf_state.specs.Condition.{fault_number};
ghost use Rattle.bpf_state.specs.Transfer.{after};
ghost use Rattle.bpf_safety.specs.Flow.{arrives, cost_after};
ghost use Rattle.bpf_safety.specs.Flaw.{is_negative_if, enters_wrongly, returns_wrongly};
ghost use Rattle.bpf_check.specs.code.Least.{IsLeastRefusal};
ghost use Rattle.bpf_check.specs.code.Arrivals.{arrival_of, walk_of, IsReaching};
ghost use Rattle.bpf_check.specs.code.Edges.{left_at_exit, seen_of};
ghost use Rattle.bpf_check.specs.code.Visits.{IsJudgmentAt, judged_of, flaws_with, passed_with, passed_after, never_reached, visit_flaws, judged_flaws, shape_flaws, site_visit_with, site_visit_of};
ghost use Rattle.bpf_check.specs.code.Counting.{worked_at};
ghost use Rattle.bpf_check.specs.code.Sites.{IsSpot, IsSite, visit_at, jump_seen_at, next_seen_before};

use crate::arrival::{Here, Walk, cost_after, start_at};
use crate::edge::{calls_no_deeper, lacks_label, leaves_function};
use crate::judge::{JudgedEdge, enters_wrongly, judge_edges, left_at_exit, returns_wrongly};
use crate::least::{lesser, refused_if};
use crate::refusal::Refusal;
use crate::site::{Site, Spot};
use bpf_insn::Code;
use bpf_state::{Condition, StateFault, Work};

/// Which conditions on the state fail at an instruction without fault.
#[derive(Clone, Copy)]
pub struct Judged {
    pub not_entailed: bool,
    pub over_budget: bool,
    pub past_end: bool,
}

/// What is seen of an instruction without fault that a state reaches. Which conditions fail follows from it.
#[derive(Clone, Copy)]
pub struct Seen<'a> {
    /// The cost since the label before, the instruction counted, if it is known.
    pub cost: Option<i128>,
    /// Whether the state after the instruction has a member. Where it has none, no edge is live.
    pub is_alive: bool,
    /// The edge of its jump, if it is one and the state after it has a member.
    pub jump: Option<JudgedEdge<'a>>,
    /// The edge to the next instruction, a dead one where it doesn't go on there.
    pub next: JudgedEdge<'a>,
    /// Whether the label at a callee's entry doesn't take the state there.
    pub enters_wrongly: bool,
    /// Whether the result at EXIT doesn't lie in what the function returns.
    pub returns_wrongly: bool,
    /// What is left of the budget after EXIT, if it is known.
    pub left_at_exit: Option<i128>,
    /// Whether the edge to the next instruction is live, and leads past the program's end.
    pub past_end: bool,
}

/// Whether a budget that is known is below 0.
fn is_negative(left: Option<i128>) -> bool
    ensures { result ≡ is_negative_if left }
{
    match left {
        Some(left) => left < 0,
        None => false,
    }
}

impl<'a> Seen<'a> {
    /// Which conditions fail.
    #[inline(always)]
    pub fn judged(&self) -> Judged
        ensures { result ≡ judged_of self.now }
    {
        let (jump_refused, jump_unpaid) = match &self.jump {
            Some(jump) => (jump.is_refused, jump.is_unpaid()),
            None => (false, false),
        };
        let refused = jump_refused | self.next.is_refused;
        let unpaid = jump_unpaid | self.next.is_unpaid();
        Judged {
            not_entailed: refused | self.enters_wrongly | self.returns_wrongly,
            over_budget: unpaid | is_negative(self.left_at_exit),
            past_end: self.past_end,
        }
    }
}

/// Judges an instruction that a state reaches, and makes the walk what goes on from it: C3 to C7 if it isn't allowed there.
#[inline(always)]
pub fn judge<'a, P: Code>(
    program: &P,
    site: &Site<'a>,
    here: Here<'a>,
    walk: &mut Walk<'a>,
    work: &mut Work,
) -> Result<Seen<'a>, StateFault>
    requires site { IsSite site.now }
    requires valid { IsReaching site.now.here.slot here }
    ensures ok { IfOk result (λ s. IsJudgmentAt (P.program program.now) site.now (arrival_of walk.old.state here.entry) walk.new (judged_of s)) }
    ensures cost { IfOk result (λ s. s.cost ≡ cost_after site.now.certificate.now site.now.here.slot site.now.insn (arrival_of walk.old.state here.entry)) }
    ensures left { IfOk result (λ s. s.left_at_exit ≡ left_at_exit (arrival_of walk.old.state here.entry) s.cost site.now.insn) }
    ensures alive { IfOk result (λ s. s.is_alive ≡ is_some (after (P.program program.now).order site.now.insn walk.old.state)) }
    ensures jump { IfOk result (λ s. option_map seen_of s.jump ≡ jump_seen_at site.now (label_view here.entry.label.now) s.cost walk.old.state) }
    ensures next { IfOk result (λ s. seen_of s.next ≡ next_seen_before (P.program program.now) site.now (label_view here.entry.label.now) s.cost walk.old.state) }
    ensures enters { IfOk result (λ s. s.enters_wrongly ≡ enters_wrongly site.now.certificate.now (visit_at site.now) (arrival_of walk.old.state here.entry)) }
    ensures returns { IfOk result (λ s. s.returns_wrongly ≡ returns_wrongly site.now.certificate.now (visit_at site.now) (arrival_of walk.old.state here.entry) site.now.insn) }
    ensures err { IfErr result (λ e. fault_of site.now.certificate.now.least walk.old.state site.now.insn ≡ Some (fault_number e)) }
    ensures stops { IfErr result (λ e. walk.new.here ≡ None) }
    ensures work { work.new ≡ worked_at (P.program program.now) site.now.certificate.now (site_visit_with site.now (Some (arrival_of walk.old.state here.entry))) work.old }
{
    let last = site.next.slot == program.slots();
    let cost = cost_after(site, &here, &walk.state);
    let exits = left_at_exit(site, &here, cost);
    let enters = enters_wrongly(site, &walk.state, work);
    let returns = returns_wrongly(site, &walk.state, work);
    walk.here = None;
    let alive = match work.transfer_counted(
        &site.insn,
        site.certificate.least(),
        program.order(),
        &mut walk.state,
    ) {
        Ok(alive) => alive,
        Err(fault) => return Err(fault),
    };
    let stopped = Seen {
        cost,
        is_alive: alive,
        jump: None,
        next: JudgedEdge::dead(&site.next),
        enters_wrongly: enters,
        returns_wrongly: returns,
        left_at_exit: exits,
        past_end: false,
    };
    if !alive {
        return Ok(stopped);
    }
    let (jump, next) = judge_edges(site, &mut walk.state, here.label, cost, work);
    if !next.is_live {
        return Ok(Seen {
            jump,
            next,
            ..stopped
        });
    }
    walk.here = Some(Here {
        label: here.label,
        cost,
    });
    Ok(Seen {
        jump,
        next,
        past_end: last,
        ..stopped
    })
}

/// Visits an instruction with what reaches it, as far as a state is judged, and makes the walk what goes on from it.
#[inline(always)]
fn visit_arrival<'a, P: Code>(
    program: &P,
    site: &Site<'a>,
    walk: &mut Walk<'a>,
    work: &mut Work,
) -> Option<Refusal>
    requires site { IsSite site.now }
    requires valid { IfSome walk.old.here (λ h. IsReaching site.now.here.slot h) }
    ensures refusal { IsLeastRefusal (flaws_with (P.program program.now) site.now.certificate.now site.now.here.slot site.now.insn (walk_of walk.old)) result }
    ensures passed { walk_of walk.new ≡ passed_with (P.program program.now) site.now.certificate.now site.now.here.slot site.now.insn (walk_of walk.old) }
    ensures work { work.new ≡ worked_at (P.program program.now) site.now.certificate.now (site_visit_with site.now (walk_of walk.old)) work.old }
    ensures valid { IfSome walk.new.here (λ h. IsReaching (site.now.here.slot + slot_count site.now.insn) h) }
{
    let Some(here) = walk.here else {
        return None;
    };
    match judge(program, site, here, walk, work) {
        Err(fault) => refused_if(true, site.here.slot, Condition::State(fault)),
        Ok(seen) => flaw_of_state(site.here.slot, seen.judged()),
    }
}

/// The least refusal of what is found with a state. Mostly there is none, so that is looked at first.
fn flaw_of_state(slot: u32, judged: Judged) -> Option<Refusal>
    ensures { IsLeastRefusal (judged_flaws slot judged) result }
{
    let is_flawed = judged.not_entailed | judged.over_budget | judged.past_end;
    if !is_flawed {
        return None;
    }
    let state = refused_if(judged.not_entailed, slot, Condition::NotEntailed);
    let budget = refused_if(judged.over_budget, slot, Condition::OverBudget);
    let end = refused_if(judged.past_end, slot, Condition::FallsOff);
    lesser(lesser(state, budget), end)
}

/// The conditions on an instruction that need no state.
#[derive(Clone, Copy)]
struct Shape {
    /// No label stands at a jump's target.
    lacks_label: bool,
    /// A callee's depth isn't below its caller's.
    no_deeper: bool,
    /// Nothing reaches the instruction.
    never: bool,
    /// Another function is reached otherwise than by a call.
    leaves: bool,
}

/// The least refusal of an instruction, from the least of what is found with a state. Mostly no other condition fails, so
/// that is looked at first.
fn flaw_with(slot: u32, shape: Shape, refusal: Option<Refusal>) -> Option<Refusal>
    ensures { (xs : List (ℕ × ℕ)) → IsLeastRefusal xs refusal → IsLeastRefusal (shape_flaws slot shape xs) result }
{
    let is_flawed = shape.lacks_label | shape.no_deeper | shape.never | shape.leaves;
    if !is_flawed {
        return refusal;
    }
    let label = refused_if(shape.lacks_label, slot, Condition::NoLabel);
    let depth = refused_if(shape.no_deeper, slot, Condition::NoDeeper);
    let never = refused_if(shape.never, slot, Condition::FallsOff);
    let elsewhere = refused_if(shape.leaves, slot, Condition::LeavesFunction);
    lesser(
        lesser(lesser(lesser(label, refusal), depth), never),
        elsewhere,
    )
}

/// Makes the walk what reaches a slot: a label's own state, or what goes on from the instruction before. True if nothing
/// does and no label stands there.
pub fn arrive<'a>(here: &Spot<'a>, walk: &mut Walk<'a>) -> bool
    requires limited { IfSome here.now.label (λ l. IsTrue (is_limited_label (label_view l.now))) }
    requires valid { IfSome walk.old.here (λ h. IsReaching here.now.slot h) }
    ensures arrival { (c : CertificateView) → IsSpot c here.now → walk_of walk.new ≡ arrives c here.now.slot (walk_of walk.old) }
    ensures valid { IfSome walk.new.here (λ h. IsReaching here.now.slot h) }
    ensures never { (c : CertificateView) → IsSpot c here.now → result ≡ never_reached c here.now.slot (walk_of walk.old) }
{
    match here.label {
        Some(label) => {
            start_at(label, walk);
            false
        }
        None => walk.here.is_none(),
    }
}

/// Visits an instruction with what goes on to it from the one before, and makes the walk what goes on from it.
pub fn visit<'a, P: Code>(
    program: &P,
    site: &Site<'a>,
    walk: &mut Walk<'a>,
    work: &mut Work,
) -> Option<Refusal>
    requires site { IsSite site.now }
    requires valid { IfSome walk.old.here (λ h. IsReaching site.now.here.slot h) }
    ensures refusal { IsLeastRefusal (visit_flaws (P.program program.now) site.now.certificate.now (site_visit_of site.now (walk_of walk.old))) result }
    ensures passed { walk_of walk.new ≡ passed_after (P.program program.now) site.now.certificate.now site.now.here.slot site.now.insn (walk_of walk.old) }
    ensures work { work.new ≡ worked_at (P.program program.now) site.now.certificate.now (site_visit_of site.now (walk_of walk.old)) work.old }
    ensures valid { IfSome walk.new.here (λ h. IsReaching (site.now.here.slot + slot_count site.now.insn) h) }
{
    let never = arrive(&site.here, walk);
    let refusal = visit_arrival(program, site, walk, work);
    let shape = Shape {
        lacks_label: lacks_label(site),
        no_deeper: calls_no_deeper(site),
        never,
        leaves: leaves_function(program, site),
    };
    flaw_with(site.here.slot, shape, refusal)
}
