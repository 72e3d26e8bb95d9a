//! The counters that the slots of a frame hold.

use crate::known::Tag;
use std::fmt::{self, Debug, Formatter, Write};
use std::marker::Model;

/// The counter that each of the 64 slots of a frame holds, if it holds one. Mostly none does, and then what stands in their
/// places says nothing, and may be left there.
#[derive(Drop)]
pub(crate) struct SlotTags {
    is_any: bool,
    tags: [Option<Tag>; 64],
}

impl Model for SlotTags {
    ghost use Rattle.std.specs.Prelude.{◌≡◌, List, Option, length};
    ghost use Rattle.bpf_state.specs.declared.known.Tag.{Tag};
    ghost use Rattle.bpf_state.specs.code.Tags.{held_tags};

    ghost Value = { List (Option Tag) };

    ghost view = { λ t. held_tags t.is_any t.tags };

    ghost invariant = { λ t. length t.tags ≡ 64 };
}

impl SlotTags {
    ghost use Rattle.std.specs.Prelude.{◌≡◌, ◌<◌, Some, None, length, get_or, slice_set};
    ghost use Rattle.bpf_state.specs.State.{no_tags};

    /// No slot holds a counter.
    pub(crate) fn none() -> Self
        ensures { result ≡ no_tags 64 }
    {
        SlotTags {
            is_any: false,
            tags: [None; 64],
        }
    }

    /// There are 64.
    pub(crate) fn valid(&self)
        ensures { length self.now ≡ 64 }
    {
        let _tags = &self.tags;
    }

    /// The counter that a slot holds, by its place.
    pub(crate) fn get(&self, index: usize) -> Option<Tag>
        requires { index < 64 }
        ensures { result ≡ get_or self.now index None }
    {
        if self.is_any { self.tags[index] } else { None }
    }

    /// Makes this the first counter that a slot holds, by its place.
    fn begin(&mut self, index: usize, tag: Tag)
        requires { index < 64 }
        ensures { self.new ≡ slice_set (no_tags 64) index (Some tag) }
    {
        self.tags = [None; 64];
        self.tags[index] = Some(tag);
        self.is_any = true;
    }

    /// Makes this the counter that a slot holds, or none, by its place.
    pub(crate) fn set(&mut self, index: usize, tag: Option<Tag>)
        requires { index < 64 }
        ensures { self.new ≡ slice_set self.old index tag }
    {
        if self.is_any {
            self.tags[index] = tag;
            return;
        }
        match tag {
            Some(tag) => self.begin(index, tag),
            None => {}
        }
    }

    /// Forgets all of them.
    pub(crate) fn clear(&mut self)
        ensures { self.new ≡ no_tags 64 }
    {
        self.is_any = false;
    }

    /// Makes them the same as others.
    pub(crate) fn copy_from(&mut self, other: &SlotTags)
        ensures { self.new ≡ other.now }
    {
        self.is_any = other.is_any;
        if other.is_any {
            self.tags.copy_from_slice(&other.tags);
        }
    }
}

impl Debug for SlotTags {
    fn fmt<W: Write>(&self, f: &mut Formatter<W>) -> fmt::Result {
        let mut list = f.debug_list();
        for i in 0..64 {
            list.entry(&self.get(i));
        }
        list.finish()
    }
}
