//! Which function and which label of a certificate stand at a slot, and up to where no other begins behind it.

ghost use Rattle.std.specs.Prelude.{◌≡◌, ◌==◌, ◌≤◌, ◌<◌, ℕ, map, option_map, option_copied, IfSome, IsTrue, None};
ghost use Rattle.bpf_cert.specs.View.{label_view, function_view};
ghost use Rattle.bpf_cert.specs.Limits.{is_rising, slot_before, first_before, is_limited_label, is_limited_function};
ghost use Rattle.bpf_safety.specs.Labels.{first_with, label_at, function_at, function_from};
ghost use Rattle.bpf_check.specs.code.Search.{rises, last_up_to, IsFoundIn};
ghost use Rattle.bpf_check.specs.LabelIndex.{are_in_place};

use crate::index::Index;
use bpf_cert::{Certificate, Function, Label};

/// What begins at a slot of a program: a function or a label.
trait Begins {
    /// Its slot.
    ghost slot: { Self → ℕ };

    fn begins_at(&self) -> u32
        ensures { result ≡ slot self.now };
}

impl Begins for Function {
    ghost slot = { λ f. f.first };

    fn begins_at(&self) -> u32 {
        self.first
    }
}

impl Begins for Label {
    ghost slot = { λ l. l.slot };

    fn begins_at(&self) -> u32 {
        self.slot
    }
}

/// The last that begins at a slot or before it, and up to where it stays the last.
fn last_from<T: Begins>(items: &[T], slot: u32) -> (Option<&T>, u32)
    requires { IsTrue (rises T.slot items.now) }
    ensures last { option_copied result.0 ≡ last_up_to T.slot None slot items.now }
    ensures until { (n : ℕ) → slot ≤ n → n < result.1 → last_up_to T.slot None n items.now ≡ last_up_to T.slot None slot items.now }
{
    let mut rest = items;
    let mut until = u32::MAX;
    'rest: while rest.len() > 1 {
        let (front, back) = rest.split_at(rest.len() / 2);
        let middle = back[0].begins_at();
        if middle <= slot {
            rest = back;
        } else {
            rest = front;
            until = until.min(middle);
        }
    }
    match rest.first() {
        Some(item) => {
            let first = item.begins_at();
            if first <= slot {
                (Some(item), until)
            } else {
                (None, until.min(first))
            }
        }
        None => (None, until),
    }
}

/// How many items are looked at from a place on, before all are.
const FEW: usize = 4;

/// The first few items, if the last up to a slot is one of them, or else all; and up to where that tells the last.
fn first_few<T: Begins>(items: &[T], slot: u32) -> (&[T], u32)
    requires { IsTrue (rises T.slot items.now) }
    ensures { IsFoundIn T.slot slot result.1 items.now result.0.now }
{
    if items.len() <= FEW {
        return (items, u32::MAX);
    }
    let (few, others) = items.split_at(FEW);
    let until = others[0].begins_at();
    if slot < until {
        (few, until)
    } else {
        (items, u32::MAX)
    }
}

/// A few items from a place on, if the last up to a slot is one of them, or else more; and up to where that tells the last.
fn few_from<T: Begins>(items: &[T], slot: u32, place: usize) -> (&[T], u32)
    requires { IsTrue (rises T.slot items.now) }
    ensures { IsFoundIn T.slot slot result.1 items.now result.0.now }
{
    if items.len() <= place {
        return (items, u32::MAX);
    }
    let (_before, from) = items.split_at(place);
    let first = from[0].begins_at();
    if first <= slot {
        first_few(from, slot)
    } else {
        (items, u32::MAX)
    }
}

/// The last that begins at a slot or before it, and up to where it stays the last. It is looked for at a place first, which
/// only the time depends on.
fn last_near<T: Begins>(items: &[T], slot: u32, place: usize) -> (Option<&T>, u32)
    requires { IsTrue (rises T.slot items.now) }
    ensures last { option_copied result.0 ≡ last_up_to T.slot None slot items.now }
    ensures until { (n : ℕ) → slot ≤ n → n < result.1 → last_up_to T.slot None n items.now ≡ last_up_to T.slot None slot items.now }
{
    let (few, within) = few_from(items, slot, place);
    let (last, until) = last_from(few, slot);
    (last, until.min(within))
}

/// The label at a slot among a function's labels, and up to where none stands behind it. It is looked for at a place among
/// them first.
pub fn label_among(labels: &[Label], slot: u32, place: usize) -> (Option<&Label>, u32)
    requires { IsTrue (is_rising slot_before (map label_view labels.now)) }
    ensures label { option_map label_view (option_copied result.0) ≡ first_with (λ l. l.slot == slot) (map label_view labels.now) }
    ensures until { (n : ℕ) → slot < n → n < result.1 → first_with (λ l. l.slot == n) (map label_view labels.now) ≡ None }
{
    // Most functions' labels lie all below the slot or all above it.
    if labels.is_empty() || labels[labels.len() - 1].slot < slot {
        return (None, u32::MAX);
    }
    let first = labels[0].slot;
    if slot < first {
        return (None, first);
    }
    let (last, until) = last_near(labels, slot, place);
    let Some(label) = last else {
        return (None, until);
    };
    if label.slot == slot {
        (Some(label), until)
    } else {
        (None, until)
    }
}

/// The label at a slot among all labels, of two the earlier.
fn first_label<'a>(certificate: &'a Index, slot: u32) -> Option<&'a Label>
    ensures { option_map label_view (option_copied result) ≡ label_at certificate.now slot }
{
    certificate.valid();
    let functions = certificate.functions();
    for function in functions {
        if let Some(label) = label_among(&function.labels, slot, 0).0 {
            return Some(label);
        }
    }
    None
}

/// The label at a slot among the labels of the function there, and up to where none stands behind it in that function. It
/// is looked for at a place among them first.
fn label_in_place<'a>(
    certificate: &'a Index,
    function: Option<&'a Function>,
    slot: u32,
    place: usize,
) -> (Option<&'a Label>, u32)
    requires place { IsTrue (are_in_place certificate.now) }
    requires function { option_map function_view (option_copied function) ≡ function_at certificate.now slot }
    ensures label { option_map label_view (option_copied result.0) ≡ label_at certificate.now slot }
    ensures until { (n : ℕ) → slot < n → n < result.1 → function_at certificate.now n ≡ function_at certificate.now slot → label_at certificate.now n ≡ None }
{
    certificate.valid();
    let Some(function) = function else {
        return (None, u32::MAX);
    };
    label_among(&function.labels, slot, place)
}

/// The label at a slot that lies in a function, of two the earlier, and up to where it is known that none stands behind it
/// in that function. Among the function's labels it is looked for at a place first.
pub fn label_given<'a>(
    certificate: &'a Index,
    function: Option<&'a Function>,
    slot: u32,
    place: usize,
) -> (Option<&'a Label>, u32)
    requires { option_map function_view (option_copied function) ≡ function_at certificate.now slot }
    ensures value { option_map label_view (option_copied result.0) ≡ label_at certificate.now slot }
    ensures limited { IfSome result.0 (λ l. IsTrue (is_limited_label (label_view l.now))) }
    ensures until { (n : ℕ) → slot < n → n < result.1 → function_at certificate.now n ≡ function_at certificate.now slot → label_at certificate.now n ≡ None }
{
    certificate.valid();
    if certificate.is_in_place() {
        label_in_place(certificate, function, slot, place)
    } else {
        (first_label(certificate, slot), slot)
    }
}

/// The label at a slot, of two the earlier.
pub fn label_at<'a>(certificate: &'a Index, slot: u32) -> Option<&'a Label>
    ensures value { option_map label_view (option_copied result) ≡ label_at certificate.now slot }
    ensures limited { IfSome result (λ l. IsTrue (is_limited_label (label_view l.now))) }
{
    label_given(certificate, function_at(certificate, slot), slot, 0).0
}

/// The function of a certificate that a slot lies in, and up to where the slots behind it lie in the same.
pub fn function_among(certificate: &Certificate, slot: u32) -> (Option<&Function>, u32)
    ensures value { option_map function_view (option_copied result.0) ≡ function_at certificate.now slot }
    ensures limited { IfSome result.0 (λ f. IsTrue (is_limited_function (function_view f.now))) }
    ensures until { (n : ℕ) → slot ≤ n → n < result.1 → function_at certificate.now n ≡ function_at certificate.now slot }
{
    certificate.valid();
    last_from(certificate.functions(), slot)
}

/// The function that a slot lies in, and up to where the slots behind it lie in the same.
pub fn function_near<'a>(certificate: &'a Index, slot: u32) -> (Option<&'a Function>, u32)
    ensures value { option_map function_view (option_copied result.0) ≡ function_at certificate.now slot }
    ensures limited { IfSome result.0 (λ f. IsTrue (is_limited_function (function_view f.now))) }
    ensures until { (n : ℕ) → slot ≤ n → n < result.1 → function_at certificate.now n ≡ function_at certificate.now slot }
{
    function_among(certificate.certificate(), slot)
}

/// The function that a slot lies in.
pub fn function_at<'a>(certificate: &'a Index, slot: u32) -> Option<&'a Function>
    ensures value { option_map function_view (option_copied result) ≡ function_at certificate.now slot }
    ensures limited { IfSome result (λ f. IsTrue (is_limited_function (function_view f.now))) }
{
    function_near(certificate, slot).0
}

/// The function that begins at a slot.
pub fn function_from<'a>(certificate: &'a Index, slot: u32) -> Option<&'a Function>
    ensures value { option_map function_view (option_copied result) ≡ function_from certificate.now slot }
    ensures limited { IfSome result (λ f. IsTrue (is_limited_function (function_view f.now))) }
{
    certificate.valid();
    let Some(function) = function_at(certificate, slot) else {
        return None;
    };
    if function.first == slot {
        Some(function)
    } else {
        None
    }
}
