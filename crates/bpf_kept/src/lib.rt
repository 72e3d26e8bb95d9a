//! Semantic preservation on plain addresses: notes that are a simulation relation (Milner) between a new program and an old one, the laws,
//! and what is checked of the notes at a slot. The pass over all slots is in `bpf_follows`.
#![tactic(auto)]

mod accesses;
mod alike;
mod atomics;
mod begin;
mod behind;
mod bounds;
mod calls;
mod code;
mod commons;
mod counters;
mod cut;
mod edges;
mod entries;
mod exits;
mod facts;
mod faults;
mod guards;
mod known;
mod laws;
mod made;
mod mismatch;
mod notes;
mod pins;
mod reach;
mod results;
mod slots;
mod stands;
mod states;
mod terms;
mod turns;
mod ways;
mod widened;

pub use alike::{are_same, paired};
pub use begin::{begun, start_slot};
pub use behind::{holds_behind, is_told};
pub use bounds::{Bounds, Turns};
pub use calls::{
    apart_waits, are_results, entered_facts, returned_counters, returned_facts, spares,
};
pub use counters::{counts_behind, is_spared};
pub use exits::stands_for_exit;
pub use facts::{by_itself, gives, is_holder, known_number, same_holder};
pub use faults::judged_at;
pub use guards::GuardSite;
pub use known::{
    FactList, KnownHere, NewSlot, end_facts, facts_at, is_zero_slot, left_alone, same_slot,
    start_facts,
};
pub use laws::{
    certified_keeps_flat_meaning, exact_runs_are_flat, far_is_placement, flat_meaning_is_exact,
    flat_meaning_is_far, matching_keeps_flat_meaning, near_and_wide_are_far, no_exit_no_answer,
    one_address_is_context, one_distance_is_frame, other_exits_are_traps, zero_run_ends,
    zero_start_fits, zero_step_is_step,
};
pub use mismatch::{Mismatch, NoteFault, mismatch_text};
pub use notes::{BACK, COUNTERS, Change, FACTS, Fact, Holder, Need, Note, SLOTS, Term, TurnsLeft};
pub use slots::{Displaced, slot_at};
pub use stands::extra;
pub use terms::{constant, frame_end, minus, plus, zero};
pub use turns::{has_counter, turns_shown};
pub use ways::is_dead;
