//! Notes of what was done.

use crate::draft::Draft;
use crate::old::Old;
use crate::rooms::Rooms;
use bpf_cert::Certificate;
use bpf_infer_base::{FunctionNote, HardenError, Hardened, Note, get_or};
use std::alloc::{AllocError, Global};

/// What was done at each slot of a new program.
fn notes_of(alloc: Global, draft: &Draft) -> Result<Vec<Note>, AllocError> {
    let note_at = |new| {
        let owner = draft.owner(new);
        let change = owner.change.filter(|_change| owner.is_first)?;
        Some(Note {
            old: owner.old,
            new,
            change,
        })
    };
    (0..draft.program.slots())
        .filter_map(note_at)
        .collect(alloc)
}

/// How a function was hardened, if it was kept.
fn function_note(old: &Old, rooms: &Rooms, draft: &Draft, function: usize) -> Option<FunctionNote> {
    let new = get_or(&draft.entries, function, None)?;
    let uses = old.uses(function);
    let room = rooms.room(function);
    Some(FunctionNote {
        old: uses.first,
        new,
        reach: room.reach,
        base: room.base,
        end: room.end,
        handed: if function > 0 { room.handed } else { None },
        spare: if room.traps { room.spare } else { None },
    })
}

/// A hardened program, with notes of what was done.
pub fn recorded(
    alloc: Global,
    old: &Old,
    rooms: &Rooms,
    draft: Draft,
    certificate: Option<Certificate>,
) -> Result<Hardened, HardenError> {
    let note_of = |function| function_note(old, rooms, &draft, function);
    let functions = (0..old.count()).filter_map(note_of).collect(alloc)?;
    let notes = notes_of(alloc, &draft)?;
    Ok(Hardened {
        program: draft.program,
        certificate,
        slots: draft.starts,
        functions,
        notes,
    })
}
