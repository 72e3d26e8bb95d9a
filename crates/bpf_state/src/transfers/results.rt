//! What is known of the result of arithmetic: of numbers, of a pointer and a number, of two pointers.

ghost use Rattle.std.specs.Prelude.{◌≡◌, ◌≤ℤ◌, None, Some, Ok, IfSome, option_map};
ghost use Rattle.bpf_insn.specs.declared.instruction.Width.{Width};
ghost use Rattle.bpf_insn.specs.declared.instruction.Width.TheVariants.{W64};
ghost use Rattle.bpf_insn.specs.declared.instruction.AluOp.TheVariants.{Add, Sub, Mov};
ghost use Rattle.bpf_state.specs.declared.known.RegState.{RegState};
ghost use Rattle.bpf_state.specs.declared.known.RegState.TheVariants.{Num as Number, Ptr};
ghost use Rattle.bpf_state.specs.State.{IsPointer, IsRegister};
ghost use Rattle.bpf_state.specs.Fault.{difference, pointer_plus, pointer_minus};
ghost use Rattle.bpf_state.specs.Cause.{pointer_of};
ghost use Rattle.bpf_state.specs.code.Results.{IsKnown, near_value, moved_by_sum, moved_by_difference, moved_pointer, numbers_result, result_of};

use crate::fault::StateFault;
use crate::known::{Moved, Pointer, RegState};
use bpf_insn::{AluOp, Width};
use bpf_num::{KnownBits, Num, Signed, Unsigned, WordDomain};

pub(crate) fn number_state(number: Option<Num>) -> Option<RegState>
    ensures value { result ≡ option_map Number number }
    ensures ordered { IfSome result IsRegister }
{
    match number {
        Some(n) => Some(RegState::Num(n)),
        None => None,
    }
}

/// What is known of the difference of offsets in two intervals.
fn difference(lo: i64, hi: i64, least: i64, most: i64) -> Option<RegState>
    requires first { lo ≤ℤ hi }
    requires second { least ≤ℤ most }
    ensures value { result ≡ difference lo hi least most }
    ensures ordered { IfSome result IsRegister }
{
    let signed = Signed::new(lo, hi).alu(AluOp::Sub, Signed::new(least, most));
    number_state(Num::of(KnownBits::top(), Unsigned::top(), signed).tighten())
}

/// The pointer, if it isn't too far off.
fn near(made: Moved) -> Result<Option<RegState>, StateFault>
    requires { made.lo ≤ℤ made.hi }
    ensures value { result ≡ near_value (pointer_of made) }
    ensures ordered { IsKnown result }
{
    if made.is_far() {
        return Err(StateFault::OutOfBounds);
    }
    Ok(Some(RegState::Ptr(Pointer {
        area: made.area,
        lo: made.lo as i64,
        hi: made.hi as i64,
    })))
}

fn pointer_plus(p: Pointer, n: Num) -> Moved
    requires { IsPointer p }
    ensures value { pointer_of result ≡ pointer_plus p n }
    ensures ordered { result.lo ≤ℤ result.hi }
{
    n.valid();
    let by = n.signed();
    Moved {
        area: p.area,
        lo: p.lo as i128 + by.lo() as i128,
        hi: p.hi as i128 + by.hi() as i128,
    }
}

fn pointer_minus(p: Pointer, n: Num) -> Moved
    requires { IsPointer p }
    ensures value { pointer_of result ≡ pointer_minus p n }
    ensures ordered { result.lo ≤ℤ result.hi }
{
    n.valid();
    let by = n.signed();
    Moved {
        area: p.area,
        lo: p.lo as i128 - by.hi() as i128,
        hi: p.hi as i128 - by.lo() as i128,
    }
}

/// The pointer that the sum of a pointer and a number is.
fn moved_by_sum(a: &RegState, b: &RegState) -> Option<Moved>
    requires left { IsRegister a.now }
    requires right { IsRegister b.now }
    ensures value { option_map pointer_of result ≡ moved_by_sum a.now b.now }
    ensures ordered { IfSome result (λ made. made.lo ≤ℤ made.hi) }
{
    match *a {
        RegState::Ptr(p) => match *b {
            RegState::Num(n) => Some(pointer_plus(p, n)),
            RegState::Any | RegState::Ptr(_) => None,
        },
        RegState::Num(n) => match *b {
            RegState::Ptr(p) => Some(pointer_plus(p, n)),
            RegState::Any | RegState::Num(_) => None,
        },
        RegState::Any => None,
    }
}

/// The pointer that a pointer less a number is.
fn moved_by_difference(a: &RegState, b: &RegState) -> Option<Moved>
    requires left { IsRegister a.now }
    ensures value { option_map pointer_of result ≡ moved_by_difference a.now b.now }
    ensures ordered { IfSome result (λ made. made.lo ≤ℤ made.hi) }
{
    match *a {
        RegState::Ptr(p) => match *b {
            RegState::Num(n) => Some(pointer_minus(p, n)),
            RegState::Any | RegState::Ptr(_) => None,
        },
        RegState::Any | RegState::Num(_) => None,
    }
}

/// The pointer that an operation other than a move makes, however far off it is.
pub(crate) fn moved_pointer(width: Width, op: AluOp, a: &RegState, b: &RegState) -> Option<Moved>
    requires left { IsRegister a.now }
    requires right { IsRegister b.now }
    ensures { option_map pointer_of result ≡ moved_pointer width op a.now b.now }
{
    match (width, op) {
        (Width::W64, AluOp::Add) => moved_by_sum(a, b),
        (Width::W64, AluOp::Sub) => moved_by_difference(a, b),
        _ => None,
    }
}

/// What is known of the difference of two pointers, if both are into the same.
fn pointer_difference(p: Pointer, q: Pointer) -> Result<Option<RegState>, StateFault>
    requires left { IsPointer p }
    requires right { IsPointer q }
    ensures value { result ≡ result_of W64 Sub (Ptr p) (Ptr q) }
    ensures ordered { IsKnown result }
{
    if p.area.is_same(q.area) {
        Ok(difference(p.lo, p.hi, q.lo, q.hi))
    } else {
        Err(StateFault::WrongKinds)
    }
}

/// The result of an operation on numbers; C4 on anything else.
fn numbers_result(
    width: Width,
    op: AluOp,
    a: RegState,
    b: RegState,
) -> Result<Option<RegState>, StateFault>
    ensures value { result ≡ numbers_result width op a b }
    ensures ordered { IsKnown result }
{
    match a {
        RegState::Num(m) => match b {
            RegState::Num(n) => Ok(number_state(m.alu(op, width, n))),
            RegState::Any | RegState::Ptr(_) => Err(StateFault::WrongKinds),
        },
        RegState::Any | RegState::Ptr(_) => Err(StateFault::WrongKinds),
    }
}

fn move_result(width: Width, b: RegState) -> Result<Option<RegState>, StateFault>
    requires { IsRegister b }
    ensures value { (a : RegState) → result ≡ result_of width Mov a b }
    ensures ordered { IsKnown result }
{
    match width {
        Width::W64 => Ok(Some(b)),
        Width::W32 => match b {
            RegState::Num(n) => Ok(number_state(n.alu(AluOp::Mov, Width::W32, n))),
            RegState::Any | RegState::Ptr(_) => Err(StateFault::WrongKinds),
        },
    }
}

/// The sum of two numbers, or of a pointer and a number.
fn sum_result(a: RegState, b: RegState) -> Result<Option<RegState>, StateFault>
    requires left { IsRegister a }
    requires right { IsRegister b }
    ensures value { result ≡ result_of W64 Add a b }
    ensures ordered { IsKnown result }
{
    match moved_by_sum(&a, &b) {
        Some(made) => near(made),
        None => numbers_result(Width::W64, AluOp::Add, a, b),
    }
}

/// The difference of two numbers, of a pointer and a number, or of two pointers into the same.
fn difference_result(a: RegState, b: RegState) -> Result<Option<RegState>, StateFault>
    requires left { IsRegister a }
    requires right { IsRegister b }
    ensures value { result ≡ result_of W64 Sub a b }
    ensures ordered { IsKnown result }
{
    if let Some(made) = moved_by_difference(&a, &b) {
        return near(made);
    }
    match a {
        RegState::Num(_) => numbers_result(Width::W64, AluOp::Sub, a, b),
        RegState::Ptr(p) => match b {
            RegState::Ptr(q) => pointer_difference(p, q),
            RegState::Any | RegState::Num(_) => Err(StateFault::WrongKinds),
        },
        RegState::Any => Err(StateFault::WrongKinds),
    }
}

/// What is known of the result of an operation; None only if it has no member. C4 if it isn't allowed on the kinds of its
/// operands, C5 if it gives a pointer too far off.
pub(crate) fn result_of(
    width: Width,
    op: AluOp,
    a: RegState,
    b: RegState,
) -> Result<Option<RegState>, StateFault>
    requires left { IsRegister a }
    requires right { IsRegister b }
    ensures value { result ≡ result_of width op a b }
    ensures ordered { IsKnown result }
{
    match op {
        AluOp::Mov => move_result(width, b),
        AluOp::Add => match width {
            Width::W64 => sum_result(a, b),
            Width::W32 => numbers_result(width, op, a, b),
        },
        AluOp::Sub => match width {
            Width::W64 => difference_result(a, b),
            Width::W32 => numbers_result(width, op, a, b),
        },
        _ => numbers_result(width, op, a, b),
    }
}
