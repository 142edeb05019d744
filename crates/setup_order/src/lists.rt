//! Lists by number: makes empty lists, and adds an item to one of them.

ghost use Rattle.std.specs.Prelude.{◌≡◌, ◌<◌, ◌++◌, ◌∷◌, [], IfOk, OnOk, map, vec_len, slice_set, replicate};
ghost use Rattle.std.specs.List.{slice_index_or};

use smallvec::SmallVec;
use std::alloc::{AllocError, Global};

/// Makes `count` empty lists, one for each number below `count`.
///
/// The error means that a request for memory was refused. Nothing is made then. (Our own profile.)
pub fn empty_lists<T: Copy + Default, const N: usize>(
    alloc: Global,
    count: usize,
) -> Result<Vec<SmallVec<T, N>>, AllocError>
    ensures { IfOk result (λ lists. map (λ list. list.items) lists.items ≡ replicate count []) }
{
    let mut lists = Vec::with_capacity(alloc, count)?;
    for _made in 0..count {
        lists.push(SmallVec::new(alloc))?;
    }
    Ok(lists)
}

/// Adds an item at the end of the list with the number `place`. The other lists stay as they are.
///
/// The error means that a request for memory was refused. The number of lists is then the same, but no clause
/// states their contents, so callers abandon them. (Our own profile.)
pub fn push_to_list<T: Copy + Default, const N: usize>(
    lists: &mut Vec<SmallVec<T, N>>,
    place: u32,
    item: T,
) -> Result<(), AllocError>
    requires { place < vec_len lists.old }
    ensures size { vec_len lists.new ≡ vec_len lists.old }
    ensures pushed { OnOk result (map (λ list. list.items) lists.new.items ≡
        slice_set (map (λ list. list.items) lists.old.items) place
        (slice_index_or (map (λ list. list.items) lists.old.items) place [] ++ item ∷ [])) }
{
    lists[place as usize].push(item)?;
    Ok(())
}
