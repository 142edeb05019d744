//! The law of every seat.

ghost use Rattle.std.specs.Prelude.{◌<◌, ◌≤◌, ◌^◌, length};
ghost use Rattle.ticket_steps.specs.History.{IsLegal};
ghost use Rattle.ticket_steps.specs.Sums.{occurrences};
ghost use Rattle.ticket_lock.specs.declared.lock.TicketLock.{TicketLock as LockOf};
ghost use Rattle.ticket_lock.specs.declared.tokens.Seat.{Seat as SeatOf};
ghost use Rattle.ticket_lock.specs.Tokens.{seat_of, start_of, IsSeatOf};

use ticket_steps::Kept;

/// A law without code. It holds of every seat, at any time.
///
/// A seat answers for its own number (`own`), and for at most 1,024 numbers (`bounded`). It has ended fewer than
/// 2^42 calls (`bounded_calls`). It has seen a legal history from the book with which its lock was opened
/// (`legal`).
pub fn every_seat<K: Kept>()
    ensures own { (seat : SeatOf K K.Call K.Reply K.Kept)
        → 0 < occurrences (seat_of seat).own (seat_of seat).numbers }
    ensures nonempty { (seat : SeatOf K K.Call K.Reply K.Kept) → 0 < length (seat_of seat).numbers }
    ensures bounded { (seat : SeatOf K K.Call K.Reply K.Kept) → length (seat_of seat).numbers ≤ 1024 }
    ensures bounded_calls { (seat : SeatOf K K.Call K.Reply K.Kept) → (seat_of seat).calls < 2 ^ 42 }
    ensures legal { (lock : LockOf K K.Call K.Reply K.Kept) → (seat : SeatOf K K.Call K.Reply K.Kept)
        → IsSeatOf lock seat
        → IsLegal K.step (K.opening (start_of lock).book) (seat_of seat).seen }
{}
