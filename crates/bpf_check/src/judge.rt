//! What is judged with a state: where it leads to, and whether that is paid.

ghost use Rattle.std.specs.Prelude.{◌≡◌, ℤ, ◌+◌, ◌*◌, ◌^◌, ◌≤◌, ◌∷◌, [], true, false, count_by, Option, IfSome, IsSome, IsTrue, Some, None, option_map, option_and_then, option_copied};
ghost use Rattle.bpf_cert.specs.View.{CertificateView, LabelView, label_view};
ghost use Rattle.bpf_cert.specs.Limits.{is_limited_label};
ghost use Rattle.bpf_state.specs.State.{AbstractState, IsRegister, callee_state};
ghost use Rattle.bpf_state.specs.Entails.{state_entails};
ghost use Rattle.bpf_state.specs.Answer.{edge_told};
ghost use Rattle.bpf_state.specs.Fault.{some_passes};
ghost use Rattle.bpf_safety.specs.Labels.{label_at};
ghost use Rattle.bpf_safety.specs.Flow.{Arrival, label_state};
ghost use Rattle.bpf_safety.specs.Flaw.{is_negative_if, enters_wrongly, returns_wrongly, exits_unpaid};
ghost use Rattle.bpf_check.specs.code.Slack.{IsWithin};
ghost use Rattle.bpf_check.specs.code.Arrivals.{arrival_of, IsReaching};
ghost use Rattle.bpf_safety.specs.Work.{leads_into_label, one_if, enters_label, returns_result};
ghost use Rattle.bpf_check.specs.code.Edges.{slack_to, left_at_exit, next_of, is_unpaid, seen_of, edge_seen, with_operands};
ghost use Rattle.bpf_check.specs.code.Sites.{IsSpot, IsSite, visit_at, jump_edge, edges_at, jump_seen_at, next_seen_at};
ghost use Rattle.bpf_check.specs.code.Counting.{compared};

use crate::arrival::Here;
use crate::budget::least_budget;
use crate::site::{Site, Spot};
use crate::spending::{Slack, slack_on};
use bpf_cert::Label;
use bpf_insn::{Insn, Operand, Reg};
use bpf_state::{RegState, State, Work, branch, enter, leave};

/// An edge of an instruction without fault: where it leads, and what is judged there.
#[derive(Clone, Copy)]
pub struct JudgedEdge<'a> {
    /// The slot at its end.
    pub to: u32,
    /// Whether a state goes along it. Nothing is judged where none does.
    pub is_live: bool,
    /// The label that stands at its end.
    pub label: Option<&'a Label>,
    /// Whether that label doesn't take the state.
    pub is_refused: bool,
    /// What is left of the budget at that label, if it is known.
    pub slack: Option<Slack>,
}

impl<'a> JudgedEdge<'a> {
    /// An edge that no state goes along.
    #[inline(always)]
    pub fn dead(to: &Spot<'a>) -> JudgedEdge<'a>
        ensures live { result.is_live ≡ false }
        ensures seen { (c : CertificateView) (old : LabelView) (cost : Option ℤ) → IsSpot c to.now → seen_of result ≡ edge_seen c old cost to.now.slot None }
    {
        JudgedEdge {
            to: to.slot,
            is_live: false,
            label: to.label,
            is_refused: false,
            slack: None,
        }
    }

    /// Whether the budgets at its ends don't cover the cost.
    pub fn is_unpaid(&self) -> bool
        ensures { result ≡ is_unpaid self.now }
    {
        match self.slack {
            Some(slack) => slack.left < 0,
            None => false,
        }
    }
}

/// What is left of the budget at an old label after a cost, on an edge into a new one, if there is one and the cost is known.
fn slack_into(old: &Label, cost: Option<i128>, edge: &State, new: Option<&Label>) -> Option<Slack>
    requires old { IsTrue (is_limited_label (label_view old.now)) }
    requires alive { IsSome (label_state (label_view old.now)) }
    requires new { IfSome new (λ l. IsTrue (is_limited_label (label_view l.now))) }
    requires cost { IfSome cost (λ z. IsWithin (2 ^ 112) z) }
    ensures { option_map (λ s. s.left) result ≡ slack_to (label_view old.now) cost edge.now (option_map label_view (option_copied new.entry)) }
{
    let (Some(spent), Some(new)) = (cost, new) else {
        return None;
    };
    slack_on(old, spent, edge, new)
}

/// Judges a live edge to a slot.
pub fn judge_edge<'a>(
    to: &Spot<'a>,
    state: &State,
    old: &Label,
    cost: Option<i128>,
    work: &mut Work,
) -> JudgedEdge<'a>
    requires limited { IfSome to.now.label (λ l. IsTrue (is_limited_label (label_view l.now))) }
    requires old { IsTrue (is_limited_label (label_view old.now)) }
    requires alive { IsSome (label_state (label_view old.now)) }
    requires cost { IfSome cost (λ z. IsWithin (2 ^ 112) z) }
    ensures live { result.is_live ≡ true }
    ensures seen { (c : CertificateView) → IsSpot c to.now → seen_of result ≡ edge_seen c (label_view old.now) cost to.now.slot (Some state.now) }
    ensures work { (c : CertificateView) → IsSpot c to.now → work.new ≡ compared (count_by (leads_into_label c) (record { slot = to.now.slot; state = state.now } ∷ [])) work.old }
{
    let is_refused = match to.label {
        Some(label) => !work.entails_label_counted(state, &label.state),
        None => false,
    };
    JudgedEdge {
        to: to.slot,
        is_live: true,
        label: to.label,
        is_refused,
        slack: slack_into(old, cost, state, to.label),
    }
}

/// Whether the state that a call leads to lies in a label. Of its own, so that nothing but a call makes room for a state.
#[inline(never)]
fn is_entered(label: &Label, state: &State, work: &mut Work) -> bool
    ensures answer { result ≡ state_entails (callee_state state.now) label.now.state }
    ensures work { work.new ≡ compared 1 work.old }
{
    let mut callee = State::blank();
    callee.copy_from(state);
    enter(&mut callee);
    work.entails_label_counted(&callee, &label.state)
}

/// Whether the state at a callee's entry doesn't lie in the label at its first slot.
pub fn enters_wrongly(site: &Site, state: &State, work: &mut Work) -> bool
    requires { IsSite site.now }
    ensures answer { (a : Arrival) → a.state ≡ state.now → result ≡ enters_wrongly site.now.certificate.now (visit_at site.now) a }
    ensures work { work.new ≡ compared (one_if (enters_label site.now.certificate.now (visit_at site.now))) work.old }
{
    let Some(callee) = site.callee else {
        return false;
    };
    match callee.label {
        Some(label) => !is_entered(label, state, work),
        None => false,
    }
}

/// Whether the result at EXIT doesn't lie in what the function returns.
pub fn returns_wrongly(site: &Site, state: &State, work: &mut Work) -> bool
    requires { IsSite site.now }
    ensures answer { (a : Arrival) → a.state ≡ state.now → result ≡ returns_wrongly site.now.certificate.now (visit_at site.now) a site.now.insn }
    ensures work { work.new ≡ compared (one_if (returns_result site.now.certificate.now (visit_at site.now) site.now.insn)) work.old }
{
    let Insn::Exit = site.insn else {
        return false;
    };
    match site.here.function {
        Some(function) => !work.returns_counted(state, &function.ret),
        None => false,
    }
}

/// What is left of the budget at the last label after the cost at EXIT, if both are known; None of other instructions.
pub fn left_at_exit(site: &Site, here: &Here, cost: Option<i128>) -> Option<i128>
    requires valid { IsReaching site.now.here.slot here.now }
    requires cost { IfSome cost (λ z. IsWithin (2 ^ 112) z) }
    ensures value { (s : AbstractState) → result ≡ left_at_exit (arrival_of s here.now) cost site.now.insn }
    ensures unpaid { (s : AbstractState) → is_negative_if result ≡ exits_unpaid (visit_at site.now) (arrival_of s here.now) cost site.now.insn }
{
    let Insn::Exit = site.insn else {
        return None;
    };
    let Some(spent) = cost else {
        return None;
    };
    match least_budget(here.label) {
        Some(least) => Some(least - spent),
        None => None,
    }
}

/// Puts back what is known of the operands of a test.
#[inline(always)]
fn put_back(dst: Reg, src: Operand, left: RegState, right: RegState, state: &mut State)
    requires left { IsRegister left }
    requires right { IsRegister right }
    ensures { state.new ≡ with_operands dst src left right state.old }
{
    state.set_reg(dst, left);
    match src {
        Operand::Reg(r) => state.set_reg(r, right),
        Operand::Imm(_imm) => {}
    }
}

/// Judges the edge of a jump, if it has one, live or dead. The state is the one after the instruction. A test changes it at the test's
/// operands alone, so it is judged in its place, and they are put back.
#[inline(always)]
pub fn judge_jump<'a>(
    site: &Site<'a>,
    state: &mut State,
    old: &Label,
    cost: Option<i128>,
    work: &mut Work,
) -> Option<JudgedEdge<'a>>
    requires site { IsSite site.now }
    requires old { IsTrue (is_limited_label (label_view old.now)) }
    requires alive { IsSome (label_state (label_view old.now)) }
    requires cost { IfSome cost (λ z. IsWithin (2 ^ 112) z) }
    ensures seen { option_map seen_of result ≡ jump_seen_at site.now (label_view old.now) cost state.old }
    ensures work { work.new ≡ compared (count_by (leads_into_label site.now.certificate.now) (jump_edge site.now state.old)) work.old }
    ensures kept { state.new ≡ state.old }
{
    let Some(to) = site.jump else {
        return None;
    };
    let Insn::JumpIf { dst, src, .. } = site.insn else {
        return Some(judge_edge(&to, &*state, old, cost, work));
    };
    let left = state.reg(dst);
    let right = state.operand(src);
    if !branch(&site.insn, true, state) {
        return Some(JudgedEdge::dead(&to));
    }
    let edge = judge_edge(&to, &*state, old, cost, work);
    put_back(dst, src, left, right, state);
    Some(edge)
}

/// Makes the state after an instruction the one on its edge to the next one. False if that edge is dead or isn't there.
#[inline(always)]
pub fn go_to_next(site: &Site, state: &mut State) -> bool
    requires { IsSite site.now }
    ensures { edge_told result state.new ≡ next_of site.now.certificate.now site.now.here.slot site.now.insn state.old }
{
    match site.insn {
        Insn::JumpIf { .. } => branch(&site.insn, false, state),
        Insn::CallLocal { .. } => match site.callee {
            Some(callee) => leave(state, callee.function.ret),
            None => false,
        },
        Insn::Ja { off: _off } => false,
        Insn::JaLong { off: _off } => false,
        Insn::Exit => false,
        Insn::Alu { .. } => true,
        Insn::Neg { .. } => true,
        Insn::MovSx { .. } => true,
        Insn::End { .. } => true,
        Insn::LoadImm64 { value: _value, .. } => true,
        Insn::Load { off: _off, .. } => true,
        Insn::LoadSx { off: _off, .. } => true,
        Insn::Store { off: _off, .. } => true,
        Insn::StoreImm { off: _off, .. } => true,
        Insn::Atomic { off: _off, .. } => true,
    }
}

/// Judges the edges of an instruction: of its jump, if it is one, and to the next instruction. Makes the state after it the one on
/// its edge to the next one, if a state goes along that.
#[inline(always)]
pub fn judge_edges<'a>(
    site: &Site<'a>,
    state: &mut State,
    old: &Label,
    cost: Option<i128>,
    work: &mut Work,
) -> (Option<JudgedEdge<'a>>, JudgedEdge<'a>)
    requires site { IsSite site.now }
    requires old { IsTrue (is_limited_label (label_view old.now)) }
    requires alive { IsSome (label_state (label_view old.now)) }
    requires cost { IfSome cost (λ z. IsWithin (2 ^ 112) z) }
    ensures jump { option_map seen_of result.0 ≡ jump_seen_at site.now (label_view old.now) cost state.old }
    ensures next { seen_of result.1 ≡ next_seen_at site.now (label_view old.now) cost state.old }
    ensures goes { edge_told result.1.is_live state.new ≡ next_of site.now.certificate.now site.now.here.slot site.now.insn state.old }
    ensures work { work.new ≡ compared (count_by (leads_into_label site.now.certificate.now) (edges_at site.now state.old)) work.old }
{
    let jump = judge_jump(site, state, old, cost, work);
    if !go_to_next(site, state) {
        return (jump, JudgedEdge::dead(&site.next));
    }
    let next = judge_edge(&site.next, state, old, cost, work);
    (jump, next)
}
