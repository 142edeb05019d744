//! An entry of the queue, and the order of entries.

ghost use Rattle.std.specs.Prelude.{◌≡◌, ◌+◌, ◌*◌, ◌^◌};
ghost use Rattle.check_queue.specs.Entries.{is_entry_before};

/// A number and its time. The number is as wide as the time, so that an entry is two words and moves as two
/// words.
#[derive(Clone, Copy)]
pub(crate) struct Entry {
    pub(crate) time: u64,
    pub(crate) number: u64,
}

/// Whether `a` comes before `b`: its time is less, or the times are equal and its number is less.
pub(crate) fn is_before(a: Entry, b: Entry) -> bool
    ensures { result ≡ is_entry_before a b }
{
    rank(a) < rank(b)
}

/// The rank of an entry among all possible entries. The processor compares two ranks by one
/// subtraction, without a branch. No rank is stored.
fn rank(entry: Entry) -> u128
    ensures { result ≡ entry.time * 2 ^ 64 + entry.number }
{
    u128::from(entry.time) * (1 << 64) + u128::from(entry.number)
}
