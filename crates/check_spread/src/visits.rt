//! The order in which objects are visited, by the ranks of their positions.
//!
//! Positions with a smaller remainder by the interleave factor are visited first. At equal remainders the
//! smaller position comes first. So a rank is the number of scheduled objects with smaller remainders,
//! plus the number of those with the same remainder that came before.

ghost use Rattle.std.specs.Prelude.{◌≡◌, ◌<◌, ◌≤◌, IfOk, length, sum};
ghost use Rattle.check_spread.specs.Visits.{has_less_remainder, sums_before, HasCounts};

use crate::spread::is_scheduled;
use check_objects::{MAX_OBJECTS, Object};
use std::alloc::{AllocError, Global};

/// For each remainder by the factor, the rank of the first scheduled object that has it.
pub(crate) fn first_ranks(
    alloc: Global,
    objects: &[Object],
    factor: usize,
) -> Result<Vec<u64>, AllocError>
    requires bounded { length objects.now ≤ MAX_OBJECTS }
    requires steps { 0 < factor }
    ensures { IfOk result (λ ranks.
        HasCounts (has_less_remainder factor) factor objects.now ranks.items) }
{
    // the number of scheduled objects with each remainder
    let mut counts = vec![in alloc; 0; factor]?;
    for (position, object) in objects.iter().enumerate() {
        if is_scheduled(object) {
            counts[position % factor] += 1;
        }
    }
    sums_before(alloc, &counts)
}

/// For each place, the sum of the counts before it.
fn sums_before(alloc: Global, counts: &[u64]) -> Result<Vec<u64>, AllocError>
    requires { sum counts.now ≤ MAX_OBJECTS }
    ensures { IfOk result (λ sums. sums.items ≡ sums_before 0 counts.now) }
{
    let mut sums = Vec::with_capacity(alloc, counts.len())?;
    let mut sum = 0;
    for count in counts {
        sums.push(sum)?;
        sum += *count;
    }
    Ok(sums)
}
