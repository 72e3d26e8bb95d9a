//! What accesses read of the slots, and what they leave there.

ghost use Rattle.std.specs.Prelude.{◌≡◌, ◌≤◌, ◌&&◌, not, length, All, IfSome, is_some, IsTrue, true, false, None, if◌then◌else◌};
ghost use Rattle.bpf_state.specs.State.{IsSlot};
ghost use Rattle.bpf_state.specs.Access.{is_known, is_slot, touches, touched_bytes, is_pointer_slot, are_known_bytes, any_slot, IsFirstSlot};
ghost use Rattle.bpf_state.specs.Transfer.{slot_written, slot_maybe_written, each_slot, each_slot_tag, with_touched};

use crate::access::Reach;
use crate::known::{SlotState, Tag};
use crate::masked::Slots;
use crate::state::State;
use crate::tags::SlotTags;
use bpf_num::Num;

/// What the slot holds after some of its bytes, not all, are written as bytes of a number.
fn written(held: SlotState, bytes: u8) -> SlotState
    requires held { IsSlot held }
    requires partial { bytes ≤ 254 }
    ensures value { result ≡ slot_written bytes held }
    ensures mask { IsSlot result }
{
    match held {
        SlotState::Spilled(_) => SlotState::Bytes(bytes),
        SlotState::Word(_) => SlotState::Word(Num::top()),
        SlotState::Bytes(mask) => {
            if mask | bytes == 255 {
                SlotState::Word(Num::top())
            } else {
                SlotState::Bytes(mask | bytes)
            }
        }
    }
}

/// What the slot holds after some of its bytes may be written.
fn maybe_written(held: SlotState) -> SlotState
    requires { IsSlot held }
    ensures value { result ≡ slot_maybe_written held }
    ensures mask { IsSlot result }
{
    match held {
        SlotState::Spilled(_) => SlotState::Bytes(0),
        SlotState::Word(_) => SlotState::Word(Num::top()),
        SlotState::Bytes(mask) => SlotState::Bytes(mask),
    }
}

fn is_pointer_slot(held: SlotState) -> bool
    ensures { result ≡ is_pointer_slot held }
{
    match held {
        SlotState::Spilled(_) => true,
        SlotState::Bytes(_) | SlotState::Word(_) => false,
    }
}

/// The first slot that may be touched and holds a pointer, by its number.
pub(crate) fn pointer_slot(slots: &Slots, reach: Reach) -> Option<u8>
    ensures some { is_some result ≡ any_slot (λ k held. touches reach k && is_pointer_slot held) 1 slots.now }
    ensures first { IfSome result (IsFirstSlot (λ k held. touches reach k && is_pointer_slot held) slots.now) }
{
    slots.valid();
    let (first, end) = reach.slots();
    for i in first..end {
        if is_pointer_slot(slots.get(i)) {
            return Some(i as u8 + 1);
        }
    }
    None
}

/// The first slot of which a byte may be touched that isn't known as initialised, by its number.
pub(crate) fn unknown_slot(slots: &Slots, reach: Reach) -> Option<u8>
    ensures some { is_some result ≡ any_slot (λ k held. touches reach k && not (are_known_bytes (touched_bytes reach k) held)) 1 slots.now }
    ensures first { IfSome result (IsFirstSlot (λ k held. touches reach k && not (are_known_bytes (touched_bytes reach k) held)) slots.now) }
{
    slots.valid();
    let (first, end) = reach.slots();
    for i in first..end {
        if !slots.knows(i, reach.mask(i)) {
            return Some(i as u8 + 1);
        }
    }
    None
}

fn write_slots(slots: &mut Slots, reach: Reach)
    requires known { is_known reach ≡ true }
    requires partial { is_slot reach ≡ false }
    requires masks { All IsSlot slots.old }
    ensures value { slots.new ≡ each_slot (λ k held. if touches reach k then slot_written (touched_bytes reach k) held else held) 1 slots.old }
    ensures masks { All IsSlot slots.new }
    ensures long { length slots.new ≡ 64 }
{
    reach.valid();
    slots.valid();
    let (first, end) = reach.slots();
    for i in first..end {
        slots.set(i, written(slots.get(i), reach.mask(i)));
    }
}

fn maybe_write_slots(slots: &mut Slots, reach: Reach)
    requires { All IsSlot slots.old }
    ensures value { slots.new ≡ each_slot (λ k held. if touches reach k then slot_maybe_written held else held) 1 slots.old }
    ensures masks { All IsSlot slots.new }
    ensures long { length slots.new ≡ 64 }
{
    slots.valid();
    let (first, end) = reach.slots();
    for i in first..end {
        slots.set(i, maybe_written(slots.get(i)));
    }
}

fn forget_counters(tags: &mut SlotTags, reach: Reach)
    ensures value { tags.new ≡ each_slot_tag (λ k tag. if touches reach k then None else tag) 1 tags.old }
    ensures long { length tags.new ≡ 64 }
{
    tags.valid();
    let (first, end) = reach.slots();
    for i in first..end {
        tags.set(i, None);
    }
}

/// Writes bytes of a number at one known offset; it isn't a whole slot.
pub(crate) fn write(state: &mut State, reach: Reach)
    requires known { is_known reach ≡ true }
    requires partial { is_slot reach ≡ false }
    ensures { state.new ≡ with_touched reach (λ k held. slot_written (touched_bytes reach k) held) state.old }
{
    write_slots(&mut state.slots, reach);
    forget_counters(&mut state.slot_tags, reach);
}

/// Writes bytes of a number at one of several offsets.
pub(crate) fn maybe_write(state: &mut State, reach: Reach)
    ensures { state.new ≡ with_touched reach (λ k held. slot_maybe_written held) state.old }
{
    maybe_write_slots(&mut state.slots, reach);
    forget_counters(&mut state.slot_tags, reach);
}
