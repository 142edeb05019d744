//! One call over the counter book, as a layer above uses the lock.

ghost use Rattle.std.specs.Prelude.{◌≡◌, ◌+◌, MatchResult};
ghost use Rattle.ticket_lock.specs.Tokens.{seat_of, turn_of, IsSeatOf, IsTurnOf};

use ticket_lock::{Look, Seat, TicketLock, Turn};
use ticket_steps::counter::CounterBook;
use ticket_steps::{Kept, NoMemory};

/// Looks. If the ticket is served, records the call under the seat's own number, posts it if it has a place
/// on the board, and leaves.
pub(crate) fn try_call(
    lock: &TicketLock<CounterBook>,
    turn: Turn<CounterBook>,
    call: u8,
) -> Result<(Seat<CounterBook>, Result<u64, NoMemory>), Turn<CounterBook>>
    requires { IsTurnOf lock.now turn }
    ensures lock { MatchResult result (λ done. IsSeatOf lock.now done.0)
        (λ back. IsTurnOf lock.now back) }
    ensures calls { MatchResult result (λ done. (seat_of done.0).calls ≡ (turn_of turn).calls + 1)
        (λ back. turn_of back ≡ turn_of turn) }
{
    match lock.look(turn) {
        Look::Held(hold, mut book) => {
            let place = book.posts(call);
            let reply = book.record(hold.number(), call);
            let seat = match place {
                Some(place) => {
                    let hold = lock.post(hold, &book, place);
                    lock.leave(hold, book)
                }
                None => lock.leave(hold, book),
            };
            Ok((seat, reply))
        }
        Look::Waiting(turn) => Err(turn),
    }
}
