//! What stands at a slot, function by function.

ghost use Rattle.std.specs.Prelude.{◌≡◌, ◌==◌, filter, option_map, option_copied, slice_get, IfSome, IsTrue};
ghost use Rattle.bpf_cert.specs.View.{label_view, function_view};
ghost use Rattle.bpf_cert.specs.Limits.{is_rising, slot_before, is_limited_label, is_limited_function};
ghost use Rattle.bpf_safety.specs.Labels.{first_with};
ghost use Rattle.bpf_check.specs.code.Standing.{IsSeenLabel, IsStanding, stands_at, told_at};

use crate::index::Index;
use crate::labels::{function_at, label_among};
use crate::shape::{SeenLabel, is_first_label, see_label};
use bpf_cert::{Function, Label};
use bpf_insn::Code;
use bpf_state::State;

/// What a function has at a slot. Which conditions on functions and labels fail there follows from it.
#[derive(Clone, Copy)]
pub struct Standing<'a> {
    pub function: &'a Function,
    /// Whether the function begins at the slot, and its first label doesn't stand there.
    pub lacks_label: bool,
    /// Its label at the slot.
    pub label: Option<SeenLabel<'a>>,
}

/// The label of a function at a slot.
fn label_in(function: &Function, slot: u32) -> Option<&Label>
    requires limited { IsTrue (is_limited_function (function_view function.now)) }
    requires rising { IsTrue (is_rising slot_before (function_view function.now).labels) }
    ensures value { option_map label_view (option_copied result) ≡ first_with (λ l. l.slot == slot) (function_view function.now).labels }
    ensures limited { IfSome result (λ l. IsTrue (is_limited_label (label_view l.now))) }
{
    label_among(&function.labels, slot, 0).0
}

/// What is seen of a function's label at a slot, if it has one there.
fn label_seen<'a, C: Code>(
    program: &C,
    certificate: &Index,
    function: &'a Function,
    slot: u32,
    room: &mut State,
) -> Option<SeenLabel<'a>>
    requires limited { IsTrue (is_limited_function (function_view function.now)) }
    requires rising { IsTrue (is_rising slot_before (function_view function.now).labels) }
    ensures label { option_map (λ l. label_view l.label.now) result ≡ first_with (λ l. l.slot == slot) (function_view function.now).labels }
    ensures seen { IfSome result (IsSeenLabel (C.program program.now) certificate.now (function_view function.now)) }
{
    match label_in(function, slot) {
        Some(label) => Some(see_label(program, certificate, function, label, room)),
        None => None,
    }
}

/// What a function has at a slot.
fn standing_of<'a, C: Code>(
    program: &C,
    certificate: &Index,
    function: &'a Function,
    slot: u32,
    room: &mut State,
) -> Standing<'a>
    requires limited { IsTrue (is_limited_function (function_view function.now)) }
    requires rising { IsTrue (is_rising slot_before (function_view function.now).labels) }
    ensures function { result.function.now ≡ function.now }
    ensures standing { IsStanding (C.program program.now) certificate.now slot result }
{
    Standing {
        function,
        lacks_label: (function.first == slot) & !is_first_label(function),
        label: label_seen(program, certificate, function, slot, room),
    }
}

/// What stands at a slot, by a number from 0 on: None behind the last. Where each label lies in its function, it is what the function
/// there has; else what each function has, in their order. With room for a label's state tightened.
pub fn standing_at<'a, C: Code>(
    program: &C,
    certificate: &'a Index,
    slot: u32,
    number: usize,
    room: &mut State,
) -> Option<Standing<'a>>
    ensures function { option_map (λ s. function_view s.function.now) result ≡ slice_get (told_at certificate.now slot) number }
    ensures standing { IfSome result (IsStanding (C.program program.now) certificate.now slot) }
    ensures all { filter (stands_at slot) (told_at certificate.now slot) ≡ filter (stands_at slot) certificate.now.functions }
{
    certificate.valid();
    if certificate.is_in_place() {
        if number > 0 {
            return None;
        }
        let Some(function) = function_at(certificate, slot) else {
            return None;
        };
        return Some(standing_of(program, certificate, function, slot, room));
    }
    let functions = certificate.functions();
    if number >= functions.len() {
        return None;
    }
    let function = &functions[number];
    Some(standing_of(program, certificate, function, slot, room))
}
