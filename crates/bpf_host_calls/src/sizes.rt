//! How much memory does for what is made of an image.

ghost use Rattle.std.specs.Prelude.{◌≡◌, ◌/◌, min};
ghost use Rattle.bpf_insn.specs.Limits.{max_slots};
ghost use Rattle.bpf_host_calls.specs.Sizes.{infer_size, explain_size};

use bpf_insn::{MAX_SLOTS, PLACES};

/// A header, and the last line.
const ENDS: usize = 64;

/// The line of a function and that of a label, of which a slot has one each at most.
const HEADS: usize = 320;

/// The line of a register or a slot of the frame.
const ENTRY: usize = 136;

/// How many such lines a label has at most: of r0 to r9, and of 64 slots.
const LABEL_ENTRIES: usize = PLACES - 1;

/// How many of them a search keeps at most.
const MOST_ENTRIES: usize = 16 * MAX_SLOTS;

/// What is told of an image as a whole.
const WHOLE_WORDS: usize = 100_000;

/// What is told of each instruction of it.
const SLOT_WORDS: usize = 8192;

/// How many slots an image of so many bytes has at most.
fn slots_in(image_len: usize) -> usize
    ensures { result ≡ min (image_len / 8) max_slots }
{
    (image_len / 8).min(MAX_SLOTS)
}

/// How many bytes do for a certificate that `infer` proposes for an image of so many bytes.
pub fn infer_size(image_len: usize) -> usize
    ensures { result ≡ infer_size image_len }
{
    let slots = slots_in(image_len);
    ENDS + HEADS * slots + ENTRY * (LABEL_ENTRIES * slots).min(MOST_ENTRIES)
}

/// How many bytes do for the words of an explanation, of an image, a certificate and lines of a source of so many bytes each. The greatest number where that
/// isn't one.
pub fn explain_size(image_len: usize, certificate_len: usize, lines_len: usize) -> usize
    ensures { result ≡ explain_size image_len certificate_len lines_len }
{
    let slots = slots_in(image_len);
    let given = certificate_len.saturating_add(lines_len);
    given
        .saturating_mul(4)
        .saturating_add(WHOLE_WORDS + SLOT_WORDS * slots)
}
