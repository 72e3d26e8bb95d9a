//! Whether a certificate fits the start of a program.

ghost use Rattle.std.specs.Prelude.{◌≡◌, ◌++◌, map, not, is_some, Some, IfSome};
ghost use Rattle.bpf_cert.specs.View.{function_view};
ghost use Rattle.bpf_state.specs.State.{first_state};
ghost use Rattle.bpf_state.specs.declared.condition.Condition.TheVariants.{Misshapen, OverBudget};
ghost use Rattle.bpf_state.specs.Fault.{some_passes};
ghost use Rattle.bpf_state.specs.Entails.{state_entails};
ghost use Rattle.bpf_safety.specs.Labels.{label_at};
ghost use Rattle.bpf_safety.specs.Flaw.{at, fails, begins_elsewhere, begins_wrongly, starts_over_budget};
ghost use Rattle.bpf_safety.specs.Work.{compared_at_start};
ghost use Rattle.bpf_check.specs.code.Counting.{compared};
ghost use Rattle.bpf_check.specs.code.Least.{IsLeastRefusal};
ghost use Rattle.bpf_check.specs.code.Standing.{budget_at_start};

use crate::budget::greatest_budget;
use crate::index::Index;
use crate::labels::label_at;
use crate::least::{lesser, refused_if};
use crate::refusal::Refusal;
use bpf_cert::Function;
use bpf_state::{Condition, State, Work};

/// No function begins at slot 0.
fn begins_elsewhere(functions: &[Function]) -> bool
    ensures { result ≡ begins_elsewhere (map function_view functions.now) }
{
    match functions.first() {
        Some(function) => function.first != 0,
        None => true,
    }
}

/// Makes a state the one at the start: r2 is the length of a context, from the least to the greatest.
fn put_start(certificate: &Index, state: &mut State)
    ensures { state.new ≡ first_state certificate.now.least certificate.now.most }
{
    certificate.valid();
    state.begin(certificate.least(), certificate.most());
}

/// The state at the start doesn't lie in the label at slot 0.
fn starts_outside(certificate: &Index, start: &State, work: &mut Work) -> bool
    requires { start.now ≡ first_state certificate.now.least certificate.now.most }
    ensures answer { result ≡ some_passes (λ l. not (state_entails (first_state certificate.now.least certificate.now.most) l.state)) (label_at certificate.now 0) }
    ensures work { work.new ≡ compared (compared_at_start certificate.now) work.old }
{
    let Some(label) = label_at(certificate, 0) else {
        return false;
    };
    !work.entails_label_counted(start, &label.state)
}

/// The greatest value of the budget at the start, if it is above the steps that are promised.
fn most_over(certificate: &Index, start: &State) -> Option<i128>
    requires { start.now ≡ first_state certificate.now.least certificate.now.most }
    ensures over { is_some result ≡ starts_over_budget certificate.now }
    ensures most { IfSome result (λ most. budget_at_start certificate.now ≡ Some most) }
{
    let Some(label) = label_at(certificate, 0) else {
        return None;
    };
    let Some(most) = greatest_budget(label, start) else {
        return None;
    };
    if i128::from(certificate.steps()) < most {
        Some(most)
    } else {
        None
    }
}

/// What is seen of the start. Which conditions fail follows from it.
#[derive(Clone, Copy)]
pub struct SeenStart {
    /// Whether no function begins at slot 0.
    pub is_elsewhere: bool,
    /// Whether the state at the start doesn't lie in the label at slot 0.
    pub is_outside: bool,
    /// The greatest value of the budget there, if it is above the steps that are promised.
    pub over: Option<i128>,
}

/// Sees the start, and makes a state the one there.
pub fn see_start(certificate: &Index, room: &mut State, work: &mut Work) -> SeenStart
    ensures elsewhere { result.is_elsewhere ≡ begins_elsewhere certificate.now.functions }
    ensures outside { result.is_outside ≡ some_passes (λ l. not (state_entails (first_state certificate.now.least certificate.now.most) l.state)) (label_at certificate.now 0) }
    ensures over { is_some result.over ≡ starts_over_budget certificate.now }
    ensures most { IfSome result.over (λ most. budget_at_start certificate.now ≡ Some most) }
    ensures state { room.new ≡ first_state certificate.now.least certificate.now.most }
    ensures work { work.new ≡ compared (compared_at_start certificate.now) work.old }
{
    put_start(certificate, room);
    SeenStart {
        is_elsewhere: begins_elsewhere(certificate.functions()),
        is_outside: starts_outside(certificate, room, work),
        over: most_over(certificate, room),
    }
}

/// The least flaw at the start, with room for the state there: C9 or C13 at slot 0.
pub fn start_flaw(certificate: &Index, room: &mut State, work: &mut Work) -> Option<Refusal>
    ensures refusal { IsLeastRefusal (at 0 (fails Misshapen (begins_wrongly certificate.now) ++ fails OverBudget (starts_over_budget certificate.now))) result }
    ensures work { work.new ≡ compared (compared_at_start certificate.now) work.old }
{
    let seen = see_start(certificate, room, work);
    let is_misshapen = seen.is_elsewhere | seen.is_outside;
    let misshapen = refused_if(is_misshapen, 0, Condition::Misshapen);
    let over = refused_if(seen.over.is_some(), 0, Condition::OverBudget);
    lesser(misshapen, over)
}
