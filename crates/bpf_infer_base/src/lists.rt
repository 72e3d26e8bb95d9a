//! Elements of lists by their index, which may be past the end.

ghost use Rattle.std.specs.Prelude.{◌≡◌, get_or, slice_set, replicate, None, IfOk};

use std::alloc::{AllocError, Global};

/// The element at an index, or another one where there is none.
pub fn get_or<T: Copy>(list: &[T], index: usize, other: T) -> T
    ensures { result ≡ get_or list.now index other }
{
    match list.get(index) {
        Some(element) => *element,
        None => other,
    }
}

/// What stands at an index, if something does.
pub fn held<T>(list: &[Option<T>], index: usize) -> Option<&T> {
    list.get(index)?.as_ref()
}

/// Puts an element into its place, if there is one.
pub fn put<T: Drop>(list: &mut Vec<T>, index: usize, element: T)
    ensures { list.new.items ≡ slice_set list.old.items index element }
{
    if let Some(place) = list.get_mut(index) {
        *place = element;
    }
}

/// A list of so many places with nothing in them.
pub fn vacant<T: Drop>(alloc: Global, count: usize) -> Result<Vec<Option<T>>, AllocError>
    ensures { IfOk result (λ list. list.items ≡ replicate count None) }
{
    let mut list = Vec::with_capacity(alloc, count)?;
    for _ in 0..count {
        list.push(None)?;
    }
    Ok(list)
}
