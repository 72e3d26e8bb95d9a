//! The slots of a frame, their byte masks together.

use crate::known::{Area, Pointer, SlotState};
use crate::lanes::{are_zero, covers};
use bpf_num::Num;
use std::fmt::{self, Debug, Formatter, Write};
use std::marker::Model;

/// What a slot holds as a whole.
#[derive(Clone, Copy)]
pub(crate) enum Whole {
    Ptr(Pointer),
    Word(Num),
}

/// The 64 slots of a frame: the initialised bytes of each as a mask, and what it holds as a whole if the mask is full. What
/// stands beside another mask says nothing, and may be left there.
#[derive(Drop)]
pub(crate) struct Slots {
    masks: [u8; 64],
    wholes: [Whole; 64],
}

impl Model for Slots {
    ghost use Rattle.std.specs.Prelude.{List};
    ghost use Rattle.bpf_state.specs.declared.known.SlotState.{SlotState};

    ghost Value = { List SlotState };

    ghost use Rattle.bpf_state.specs.code.Masked.{held_slots, AreSlots};

    ghost view = { λ s. held_slots s.masks s.wholes };

    ghost invariant = { λ s. AreSlots s.masks s.wholes };
}

impl Slots {
    ghost use Rattle.std.specs.Prelude.{◌≡◌, ◌↔◌, ◌<◌, IsTrue, true, length, get_or, map, slice_set, replicate};
    ghost use Rattle.bpf_state.specs.declared.known.SlotState.TheVariants.{Bytes};
    ghost use Rattle.bpf_state.specs.State.{IsSlot};
    ghost use Rattle.bpf_state.specs.Access.{are_known_bytes};
    ghost use Rattle.bpf_state.specs.code.Masked.{mask_of};
    ghost use Rattle.bpf_state.specs.Covers.{Covers};

    /// Nothing is known of any byte.
    pub(crate) fn blank() -> Self
        ensures { result ≡ replicate 64 (Bytes 0) }
    {
        Slots {
            masks: [0; 64],
            wholes: [Whole::Ptr(Pointer::start_of(Area::Context)); 64],
        }
    }

    /// There are 64.
    pub(crate) fn valid(&self)
        ensures { length self.now ≡ 64 }
    {
        let _masks = &self.masks;
    }

    /// The initialised bytes of a slot, by its place; all where it holds something whole.
    pub(crate) fn mask(&self, index: usize) -> u8
        requires { index < 64 }
        ensures { result ≡ mask_of (get_or self.now index (Bytes 0)) }
    {
        self.masks[index]
    }

    /// Whether the bytes of a mask are initialised, pointers aside.
    pub(crate) fn knows(&self, index: usize, bytes: u8) -> bool
        requires { index < 64 }
        ensures { result ≡ are_known_bytes bytes (get_or self.now index (Bytes 0)) }
    {
        bytes & self.mask(index) == bytes
    }

    /// Whether nothing is known of any byte, by the masks.
    pub(crate) fn is_blank(&self) -> bool
        ensures { result ≡ true → self.now ≡ replicate 64 (Bytes 0) }
    {
        are_zero(&self.masks)
    }

    /// Whether each initialised byte of others is one here too, by the masks.
    pub(crate) fn cover(&self, others: &Slots) -> bool
        ensures { IsTrue result ↔ Covers (map mask_of self.now) (map mask_of others.now) }
    {
        covers(&self.masks, &others.masks)
    }

    /// What is known of a slot, by its place.
    pub(crate) fn get(&self, index: usize) -> SlotState
        requires { index < 64 }
        ensures { result ≡ get_or self.now index (Bytes 0) }
    {
        let mask = self.masks[index];
        if mask == 255 {
            match self.wholes[index] {
                Whole::Word(n) => SlotState::Word(n),
                Whole::Ptr(p) => SlotState::Spilled(p),
            }
        } else {
            SlotState::Bytes(mask)
        }
    }

    /// Makes this what is known of a slot, by its place.
    pub(crate) fn set(&mut self, index: usize, value: SlotState)
        requires place { index < 64 }
        requires value { IsSlot value }
        ensures { self.new ≡ slice_set self.old index value }
    {
        match value {
            SlotState::Bytes(mask) => self.masks[index] = mask,
            SlotState::Word(n) => {
                self.masks[index] = 255;
                self.wholes[index] = Whole::Word(n);
            }
            SlotState::Spilled(p) => {
                self.masks[index] = 255;
                self.wholes[index] = Whole::Ptr(p);
            }
        }
    }

    /// Forgets all of them.
    pub(crate) fn clear(&mut self)
        ensures { self.new ≡ replicate 64 (Bytes 0) }
    {
        self.masks = [0; 64];
    }

    /// Makes them the same as others. Of the wholes only those that are held are copied.
    pub(crate) fn copy_from(&mut self, other: &Slots)
        ensures { self.new ≡ other.now }
    {
        self.masks.copy_from_slice(&other.masks);
        if other.is_blank() {
            return;
        }
        for i in 0..64 {
            if other.masks[i] == 255 {
                self.wholes[i] = other.wholes[i];
            }
        }
    }
}

impl Debug for Slots {
    fn fmt<W: Write>(&self, f: &mut Formatter<W>) -> fmt::Result {
        let mut list = f.debug_list();
        for i in 0..64 {
            list.entry(&self.get(i));
        }
        list.finish()
    }
}
