//! What stands in the way of a certificate, in words.

use bpf_cert::{MAX_BASE, MAX_TERMS, MAX_WEIGHT};
use bpf_explain_program::{Name, register};
use bpf_infer::{CounterTrial, Limit, Loss, Move, Obstacle, Tangle};
use bpf_streams::Tell;

// The numbers in the words below.
const _: () = prove!(MAX_BASE == 1099511627776 && MAX_WEIGHT == 1048576 && MAX_TERMS == 4);

/// How a C compiler leaves a number that counts in its loop.
const COMPILE_SO: &str = "where the C source does, compile it with `-mllvm -disable-lsr`";

/// A place, and what is told of it.
fn write_told<W: Tell>(out: &mut W, name: Name, words: &str) {
    write!(out, "  {name} {words}\n");
}

/// A place that isn't followed for what a slot does.
fn write_lost<W: Tell>(out: &mut W, name: Name, front: &str, slot: u32, behind: &str) {
    write!(
        out,
        "  {name} isn't followed: {front}slot {slot} {behind}\n"
    );
}

/// A place that may hold too much, or too little, at a slot.
fn write_passed<W: Tell>(out: &mut W, name: Name, deed: &str, slot: u32, bounds: (u64, u64)) {
    let (least, most) = bounds;
    write!(
        out,
        "  {name} may {deed}: it is u{least}..{most} at slot {slot}; test it against a constant before\n"
    );
}

/// Why a place isn't followed through a loop.
fn write_loss<W: Tell>(out: &mut W, name: Name, loss: Loss) {
    match loss {
        Loss::Given => write_told(
            out,
            name,
            "isn't followed: on some way it is given another value",
        ),
        Loss::Short { slot } => write_lost(
            out,
            name,
            "",
            slot,
            "computes it in 32 bits, and only 64-bit sums are followed: in C, count in a `u64`",
        ),
        Loss::Varying { slot } => {
            write_lost(out, name, "what ", slot, "adds or takes isn't a constant");
        }
        Loss::Far { slot } => {
            write_lost(
                out,
                name,
                "",
                slot,
                "moves it by more than 1099511627776 in all",
            );
        }
        Loss::Above { slot, least, most } => {
            write_passed(out, name, "pass 2^64", slot, (least, most));
        }
        Loss::Below { slot, least, most } => {
            write_passed(out, name, "fall below 0", slot, (least, most));
        }
    }
}

/// A place that was tried as a counter, and why it isn't one.
fn write_trial<W: Tell>(out: &mut W, trial: &CounterTrial) {
    let name = Name(trial.place);
    match trial.moves {
        Move::By {
            least: 0,
            greatest: 0,
        } => write_told(out, name, "stays as it is"),
        Move::By { least, greatest } => write!(
            out,
            "  {name} moves by {least} to {greatest} in a round, and a counter must fall in each or rise in each\n"
        ),
        Move::Lost(loss) => write_loss(out, name, loss),
        Move::Pointer => write!(
            out,
            "  {name} is a pointer, and only numbers count: count the rounds in a register; {COMPILE_SO}\n"
        ),
    }
}

/// The places that were tried as counters of a loop.
fn write_trials<W: Tell>(out: &mut W, slot: u32, trials: &[CounterTrial]) {
    write!(
        out,
        "nothing counts the rounds of the loop at slot {slot}:\n"
    );
    if trials.is_empty() {
        out.say("  no place holds a number there\n");
    }
    for trial in trials {
        write_trial(out, trial);
    }
}

/// What begins between a slot and the last way back to it.
fn write_tangle<W: Tell>(out: &mut W, slot: u32, tangle: Tangle) {
    match tangle {
        Tangle::Nested { inner } => write!(
            out,
            "another loop begins at slot {inner}, in the loop at slot {slot}: put the inner one into a function\n"
        ),
        Tangle::Middle { from, to, back } => write!(
            out,
            "slot {from} leads back to slot {to}, in the middle of the loop from slot {slot} to slot {back}: lead it back to slot {slot}, or keep the loops apart\n"
        ),
        Tangle::Backward { from } => write!(
            out,
            "slot {from} leads back to slot {slot} and makes no loop, but what leads back is taken for one: let the code run on downwards\n"
        ),
    }
}

/// What is told of a limit in front of its first number and behind it, and behind the second one, if there is one.
fn words_of(limit: Limit) -> [&'static str; 3] {
    match limit {
        Limit::Weight { .. } => [
            "a round of the loop at slot ",
            " costs up to ",
            " instructions, and at most 1048576 can be counted for one: let the loops in it turn less often, or test their bounds against constants",
        ],
        Limit::Base { .. } => [
            "from slot ",
            " on up to ",
            " instructions are done, and at most 1099511627776 can be counted: let the loops turn less often, or test their bounds against constants",
        ],
        Limit::Steps { .. } => [
            "a run takes up to ",
            " instructions, and at most 4294967295 can be promised: let the loops turn less often, or test their bounds against constants",
            "",
        ],
        Limit::Terms => [
            "the loop at slot ",
            " lies in loops whose counters take all 4 terms of its budget: put the inner loops into a function",
            "",
        ],
        Limit::Depth => [
            "loops lie in one another more than 32 deep in the function at slot ",
            ": put the inner ones into a function",
            "",
        ],
        Limit::Passes => [
            "what the ways through the loop at slot ",
            " cost wasn't found in 1024 passes: make the loop smaller, or put a part of it into a function",
            "",
        ],
        Limit::Work { .. } => [
            "the search went over ",
            " slots, and the function at slot ",
            " still changed: make it smaller, or put its loops into functions",
        ],
        Limit::Entries { .. } => [
            "at the jumps of the function at slot ",
            " more than ",
            " places are known: make it smaller, or put a part of it into a function",
        ],
        Limit::Returns { .. } => [
            "what the functions return still changed after ",
            " passes over the program: let them return less, or be fewer",
            "",
        ],
    }
}

/// The numbers that are told of a limit at a slot.
fn numbers_of(slot: u32, limit: Limit) -> (u64, Option<u64>) {
    let slot = u64::from(slot);
    match limit {
        Limit::Weight { wanted } | Limit::Base { wanted } => (slot, Some(wanted)),
        Limit::Entries { most } => (slot, Some(most)),
        Limit::Work { most } => (most, Some(slot)),
        Limit::Steps { wanted } => (wanted, None),
        Limit::Returns { passes } => (u64::from(passes), None),
        Limit::Terms | Limit::Depth | Limit::Passes => (slot, None),
    }
}

/// A limit of certificates or of the search that is passed, with what would be wanted.
fn write_limit<W: Tell>(out: &mut W, slot: u32, limit: Limit) {
    let [front, middle, behind] = words_of(limit);
    match numbers_of(slot, limit) {
        (first, Some(second)) => write!(out, "{front}{first}{middle}{second}{behind}\n"),
        (first, None) => write!(out, "{front}{first}{middle}\n"),
    }
}

/// I2: a loop has no counter, or a limit is passed.
pub fn write_obstacle<W: Tell>(out: &mut W, slot: u32, obstacle: &Obstacle) {
    match obstacle {
        Obstacle::Tangled(tangle) => write_tangle(out, slot, *tangle),
        Obstacle::NoCounter(trials) => write_trials(out, slot, trials),
        Obstacle::Over(limit) => write_limit(out, slot, *limit),
        Obstacle::Limit => write!(
            out,
            "the budget at slot {slot} passes a limit: a weight of 1048576, a base of 1099511627776 or 4294967295 steps; a counter's bound isn't known, mostly: test it against a constant before the loop\n"
        ),
        Obstacle::Walking { reg, head } => {
            let name = register(*reg);
            write!(
                out,
                "{name} is a pointer that the loop at slot {head} moves, and only numbers count and have bounds: count the rounds in a register, and add it to a pointer that stays; {COMPILE_SO}\n"
            );
        }
    }
}

/// I2 where nothing more is known.
pub fn write_no_budget<W: Tell>(out: &mut W, slot: u32) {
    write!(
        out,
        "no budget was found for slot {slot}: let a number fall or rise by a constant in each round of each loop, and test it against a constant before\n"
    );
}
