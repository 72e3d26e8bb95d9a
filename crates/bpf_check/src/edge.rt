//! Where an instruction goes on, and what is judged without a state.

ghost use Rattle.std.specs.Prelude.{◌≡◌, ◌≤◌, option_map, option_copied, IfSome, IsTrue};
ghost use Rattle.bpf_insn.specs.Limits.{max_slots};
ghost use Rattle.bpf_cert.specs.View.{CertificateView, function_view};
ghost use Rattle.bpf_cert.specs.Limits.{is_limited_function};
ghost use Rattle.bpf_safety.specs.Labels.{function_at};
ghost use Rattle.bpf_safety.specs.Flow.{callee, jump_target};
ghost use Rattle.bpf_safety.specs.Flaw.{lacks_label, calls_no_deeper, leaves_function, next_slot, calls_nowhere, is_not};
ghost use Rattle.bpf_check.specs.code.Sites.{IsSpot, IsSite, visit_at};
ghost use Rattle.bpf_check.specs.code.Ways.{slot_outside, way_out};
ghost use Rattle.bpf_check.specs.declared.edge.WayOut.TheVariants.{Jump, Next};

use crate::index::Index;
use crate::labels::function_from;
use crate::site::{Site, Spot};
use bpf_cert::Function;
use bpf_insn::{Code, Insn, target};

/// Where a jump leads.
pub fn jump_target(slot: u32, insn: &Insn) -> Option<u32>
    requires { slot ≤ max_slots }
    ensures { result ≡ jump_target slot insn.now }
{
    match *insn {
        Insn::Ja { off } => target(slot, i32::from(off)),
        Insn::JaLong { off } => target(slot, off),
        Insn::JumpIf { off, .. } => target(slot, i32::from(off)),
        Insn::CallLocal { off: _off } => None,
        Insn::Alu { .. } => None,
        Insn::Neg { .. } => None,
        Insn::MovSx { .. } => None,
        Insn::End { .. } => None,
        Insn::LoadImm64 { value: _value, .. } => None,
        Insn::Load { off: _off, .. } => None,
        Insn::LoadSx { off: _off, .. } => None,
        Insn::Store { off: _off, .. } => None,
        Insn::StoreImm { off: _off, .. } => None,
        Insn::Atomic { off: _off, .. } => None,
        Insn::Exit => None,
    }
}

/// The function that an instruction calls.
pub fn callee<'a>(certificate: &'a Index, slot: u32, insn: &Insn) -> Option<&'a Function>
    requires { slot ≤ max_slots }
    ensures value { option_map function_view (option_copied result) ≡ callee certificate.now slot insn.now }
    ensures limited { IfSome result (λ f. IsTrue (is_limited_function (function_view f.now))) }
{
    let Insn::CallLocal { off } = *insn else {
        return None;
    };
    match target(slot, off) {
        Some(first) => function_from(certificate, first),
        None => None,
    }
}

/// Whether no label stands at a jump's target.
pub fn lacks_label(site: &Site) -> bool
    requires { IsSite site.now }
    ensures { result ≡ lacks_label site.now.certificate.now (visit_at site.now) }
{
    match site.jump {
        Some(to) => to.label.is_none(),
        None => false,
    }
}

/// Whether a callee's depth isn't below its caller's.
pub fn calls_no_deeper(site: &Site) -> bool
    requires { IsSite site.now }
    ensures { result ≡ calls_no_deeper site.now.certificate.now (visit_at site.now) }
{
    let Some(callee) = site.callee else {
        return false;
    };
    match site.here.function {
        Some(caller) => caller.depth <= callee.function.depth,
        None => false,
    }
}

/// Whether a slot isn't in a function.
fn is_elsewhere(function: &Function, to: &Spot) -> bool
    ensures { (c : CertificateView) → IsSpot c to.now → result ≡ is_not (option_map (λ g. g.first) (function_at c to.now.slot)) function.now.first }
{
    match to.function {
        Some(other) => other.first != function.first,
        None => true,
    }
}

/// How an instruction leads out of its function.
#[derive(Clone, Copy)]
pub enum WayOut {
    /// By a call of a slot at which no function begins.
    Call,
    /// By a jump to a slot of another function, or of none.
    Jump(u32),
    /// By going on at a slot of another function.
    Next(u32),
}

/// How a jump, if there is one, leads out of a function.
fn jump_out(site: &Site, function: &Function) -> Option<WayOut>
    requires { IsSite site.now }
    ensures { result ≡ option_map Jump (slot_outside site.now.certificate.now (function_view function.now) (jump_target site.now.here.slot site.now.insn)) }
{
    let Some(to) = site.jump else {
        return None;
    };
    if is_elsewhere(function, &to) {
        Some(WayOut::Jump(to.slot))
    } else {
        None
    }
}

/// How the next instruction, if this one may go on there and isn't the last, lies out of a function.
fn next_out<P: Code>(program: &P, site: &Site, function: &Function) -> Option<WayOut>
    requires { IsSite site.now }
    ensures { result ≡ option_map Next (slot_outside site.now.certificate.now (function_view function.now) (next_slot (P.program program.now) (visit_at site.now))) }
{
    if !site.insn.goes_on() || site.next.slot == program.slots() {
        return None;
    }
    if is_elsewhere(function, &site.next) {
        Some(WayOut::Next(site.next.slot))
    } else {
        None
    }
}

/// Whether a call leads to no function.
fn calls_nowhere(site: &Site) -> bool
    requires { IsSite site.now }
    ensures { result ≡ calls_nowhere site.now.certificate.now (visit_at site.now) site.now.insn }
{
    matches!(site.insn, Insn::CallLocal { .. }) && site.callee.is_none()
}

/// How an instruction leads out of its function, or that it calls none; None where it does neither.
pub fn way_out<P: Code>(program: &P, site: &Site) -> Option<WayOut>
    requires { IsSite site.now }
    ensures { result ≡ way_out (P.program program.now) site.now.certificate.now (visit_at site.now) }
{
    if calls_nowhere(site) {
        return Some(WayOut::Call);
    }
    let Some(function) = site.here.function else {
        return None;
    };
    match jump_out(site, function) {
        Some(way) => Some(way),
        None => next_out(program, site, function),
    }
}

/// Whether a jump or the next instruction lies in another function, or a call leads to none.
pub fn leaves_function<P: Code>(program: &P, site: &Site) -> bool
    requires { IsSite site.now }
    ensures { result ≡ leaves_function (P.program program.now) site.now.certificate.now (visit_at site.now) }
{
    way_out(program, site).is_some()
}
