//! The statuses of the functions. The header says when each comes.

ghost use Rattle.std.specs.Prelude.{◌≡◌};
ghost use Rattle.nagsched_c.specs.declared.status.TheConstants.{MISSING, NO_MEMORY, OK, REFUSED, SPENT, WAIT, WRONG};

/// The function did its work.
pub(crate) const OK: u32 = 0;

/// The turn hasn't come.
pub(crate) const WAIT: u32 = 1;

/// The pass has no call left.
pub(crate) const SPENT: u32 = 2;

/// Out of memory.
pub(crate) const NO_MEMORY: u32 = 3;

/// The document isn't a setup, or the text isn't a saved state.
pub(crate) const REFUSED: u32 = 4;

/// Passes aren't gathered, no object has that name, the object is a host, or no check of it is running.
pub(crate) const MISSING: u32 = 5;

/// A mistake of the caller's.
pub(crate) const WRONG: u32 = 6;

/// The number of each status, as in the header.
pub fn numbers_of_statuses()
    ensures ok { OK ≡ 0 }
    ensures wait { WAIT ≡ 1 }
    ensures spent { SPENT ≡ 2 }
    ensures no_memory { NO_MEMORY ≡ 3 }
    ensures refused { REFUSED ≡ 4 }
    ensures missing { MISSING ≡ 5 }
    ensures wrong { WRONG ≡ 6 }
{}
