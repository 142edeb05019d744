//! An object that waits for its check.

ghost use Rattle.std.specs.Prelude.{◌≡◌};
ghost use Rattle.check_sched.specs.Candidate.{earlier_of, if_due};

/// An object that waits for its check: the time for which it waits, and its number.
pub(crate) type Candidate = (u64, u32);

/// The earlier of two candidates, or the only one. If the times are equal, it is the first.
pub(crate) fn earlier(first: Option<Candidate>, second: Option<Candidate>) -> Option<Candidate>
    ensures { result ≡ earlier_of first second }
{
    match (first, second) {
        (Some(one), Some(other)) if other.0 < one.0 => Some(other),
        (Some(one), _) => Some(one),
        (None, _) => second,
    }
}

/// The candidate, if it is due at the moment `now`.
pub(crate) fn if_due(candidate: Option<Candidate>, now: u64) -> Option<Candidate>
    ensures { result ≡ if_due now candidate }
{
    let candidate = candidate?;
    if candidate.0 <= now {
        Some(candidate)
    } else {
        None
    }
}
