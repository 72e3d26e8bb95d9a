//! Sets of slots.

use bpf_insn::MAX_SLOTS;

/// How many words of 64 slots a program has.
const WORDS: usize = MAX_SLOTS / 64;

/// A set of slots, each a bit.
#[derive(Drop)]
pub struct SlotSet {
    held: [u64; WORDS],
    /// No word in front of this one holds a slot.
    low: usize,
}

impl SlotSet {
    /// No slot is in it.
    pub fn none() -> Self {
        SlotSet::filled(0)
    }

    /// Each word of 64 slots is this one.
    pub fn filled(word: u64) -> Self {
        SlotSet {
            held: [word; WORDS],
            low: 0,
        }
    }

    /// Puts a slot in, if it is at most 65,535.
    pub fn add(&mut self, slot: u32) {
        let index = slot as usize / 64;
        if let Some(word) = self.held.get_mut(index) {
            *word |= 1 << (slot % 64);
            self.low = self.low.min(index);
        }
    }

    /// Takes the first slot out.
    pub fn take_first(&mut self) -> Option<u32> {
        for index in self.low..WORDS {
            if let Some(word) = self.held.get_mut(index) {
                if *word != 0 {
                    let slot = (index as u32 * 64).saturating_add(word.trailing_zeros());
                    *word &= *word - 1;
                    self.low = index;
                    return Some(slot);
                }
            }
        }
        self.low = WORDS;
        None
    }

    /// Whether a slot is in it.
    pub fn has(&self, slot: u32) -> bool {
        match self.held.get(slot as usize / 64) {
            Some(word) => (*word >> (slot % 64)) & 1 == 1,
            None => false,
        }
    }
}
