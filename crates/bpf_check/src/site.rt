//! An instruction in its place: what a certificate says of its slot and of those that it leads to, looked up once for all
//! conditions that ask.

ghost use Rattle.std.specs.Prelude.{◌≡◌, ◌≤◌, ◌<◌, option_map, IfSome};
ghost use Rattle.bpf_insn.specs.Limits.{greatest_slot, max_slots};
ghost use Rattle.bpf_cert.specs.View.{function_view};
ghost use Rattle.bpf_safety.specs.Flow.{callee, jump_target};
ghost use Rattle.bpf_check.specs.code.Sites.{IsSpot, IsEntry, IsSite};

use crate::edge::{callee, jump_target};
use crate::index::Index;
use crate::labels::{function_near, label_at, label_given};
use bpf_cert::{Function, Label};
use bpf_insn::Insn;

/// A slot, the function that it lies in, and the label there.
#[derive(Clone, Copy)]
pub struct Spot<'a> {
    pub slot: u32,
    pub function: Option<&'a Function>,
    pub label: Option<&'a Label>,
    /// No label stands and no function begins behind the slot and below this one.
    pub until: u32,
    /// A guess at the place of the last label up to the slot among its function's labels. Only the time depends on it.
    pub place: usize,
}

impl<'a> Spot<'a> {
    /// Looks up a slot.
    pub fn of(certificate: &'a Index, slot: u32) -> Spot<'a>
        ensures slot { result.slot ≡ slot }
        ensures value { IsSpot certificate.now result }
    {
        Spot::near(certificate, slot, 0)
    }

    /// Looks up a slot, and its label at a place among its function's labels first.
    fn near(certificate: &'a Index, slot: u32, place: usize) -> Spot<'a>
        ensures slot { result.slot ≡ slot }
        ensures value { IsSpot certificate.now result }
    {
        let (function, within) = function_near(certificate, slot);
        let (label, unlabelled) = label_given(certificate, function, slot, place);
        // The labels that a pass comes to are counted from the function's first slot on.
        let place = match (function, label) {
            (Some(function), _) if function.first == slot => 0,
            (_, Some(_label)) => place.saturating_add(1),
            (_, None) => place,
        };
        Spot {
            slot,
            function,
            label,
            until: within.min(unlabelled),
            place,
        }
    }

    /// Looks up a slot behind this one.
    #[tactic(auto, using(crate::proofs::PlaceLemmas::spot_behind))]
    #[inline(always)]
    fn behind(certificate: &'a Index, here: &Spot<'a>, slot: u32) -> Spot<'a>
        requires here { IsSpot certificate.now here.now }
        requires behind { here.now.slot < slot }
        ensures slot { result.slot ≡ slot }
        ensures value { IsSpot certificate.now result }
    {
        if slot < here.until {
            Spot {
                slot,
                function: here.function,
                label: None,
                until: here.until,
                place: here.place,
            }
        } else {
            Spot::near(certificate, slot, here.place)
        }
    }
}

/// A function that an instruction calls, and the label at its first slot.
#[derive(Clone, Copy)]
pub struct Callee<'a> {
    pub function: &'a Function,
    pub label: Option<&'a Label>,
}

/// An instruction, its slot, and those that it leads to.
#[derive(Clone, Copy)]
pub struct Site<'a> {
    pub certificate: &'a Index<'a>,
    pub insn: Insn,
    pub here: Spot<'a>,
    /// The slot behind the instruction, whether it goes on there or not.
    pub next: Spot<'a>,
    /// Where the instruction jumps.
    pub jump: Option<Spot<'a>>,
    /// What it calls.
    pub callee: Option<Callee<'a>>,
}

impl<'a> Site<'a> {
    /// Looks up where an instruction leads.
    #[inline(always)]
    pub fn of(certificate: &'a Index<'a>, here: Spot<'a>, insn: Insn) -> Site<'a>
        requires few { here.slot ≤ greatest_slot }
        requires here { IsSpot certificate.now here }
        ensures certificate { result.certificate.now ≡ certificate.now }
        ensures insn { result.insn ≡ insn }
        ensures here { result.here ≡ here.entry }
        ensures value { IsSite result }
    {
        Site {
            certificate,
            insn,
            here,
            next: Spot::behind(certificate, &here, here.slot + insn.slots()),
            jump: jump_of(certificate, &here, &insn),
            callee: callee_of(certificate, here.slot, &insn),
        }
    }
}

/// Where an instruction jumps, looked up.
#[inline(always)]
fn jump_of<'a>(certificate: &'a Index, here: &Spot<'a>, insn: &Insn) -> Option<Spot<'a>>
    requires { here.now.slot ≤ max_slots }
    ensures slot { option_map (λ t. t.slot) result ≡ jump_target here.now.slot insn.now }
    ensures value { IfSome result (λ t. IsSpot certificate.now t) }
{
    match jump_target(here.slot, insn) {
        Some(to) => Some(Spot::near(certificate, to, here.place)),
        None => None,
    }
}

/// What an instruction calls, looked up.
#[inline(always)]
fn callee_of<'a>(certificate: &'a Index, slot: u32, insn: &Insn) -> Option<Callee<'a>>
    requires { slot ≤ max_slots }
    ensures value { option_map (λ f. function_view f.function.now) result ≡ callee certificate.now slot insn.now }
    ensures entry { IfSome result (λ f. IsEntry certificate.now f) }
{
    match callee(certificate, slot, insn) {
        Some(function) => Some(Callee {
            function,
            label: label_at(certificate, function.first),
        }),
        None => None,
    }
}
