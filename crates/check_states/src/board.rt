//! A standing as one word, for a board that is read without the lock. (Our own profile.)

ghost use Rattle.std.specs.Prelude.{◌≡◌, ◌<◌, ◌^◌, Some, IfSome};
ghost use Rattle.check_states.specs.Board.{standing_of_word, word_of_standing, flag, has_bit};

use crate::standing::{Kind, Standing};
use crate::state::State;

/// The word of a standing. Bit 0 says whether the object was checked. Bits 1 to 3 are its state, and bit 4
/// says whether the state is hard. Bits 5 to 12 are the attempt, and bits 13 to 15 the last hard state. Bit
/// 16 says whether the object flaps. OK, WARNING, CRITICAL, UNKNOWN, UP, DOWN, UNREACHABLE are 0 to 6.
/// [`decode`] reads the word. (Our own profile.)
pub fn code(standing: Standing) -> u64
    ensures value { result ≡ word_of_standing standing }
    ensures read { standing_of_word result ≡ Some standing }
    ensures within { result < 2 ^ 17 }
{
    flag(standing.checked)
        + 2 * u64::from(standing.state.number())
        + 16 * u64::from(standing.kind.number())
        + 32 * u64::from(standing.attempt)
        + 8192 * u64::from(standing.last_hard.number())
        + 65536 * flag(standing.flapping)
}

/// The standing with this word. No other word has it. None if no standing has the word: one of the two states has the number 7, or
/// a bit above bit 16 is set. (Our own profile.)
pub fn decode(word: u64) -> Option<Standing>
    ensures value { result ≡ standing_of_word word }
    ensures only { IfSome result (λ standing. word ≡ word_of_standing standing) }
{
    if word >= 131_072 {
        return None;
    }
    let state = State::from_number(word / 2 % 8)?;
    let last_hard = State::from_number(word / 8192 % 8)?;
    Some(Standing {
        checked: has_bit(word, 1),
        state,
        kind: if has_bit(word, 16) {
            Kind::Hard
        } else {
            Kind::Soft
        },
        attempt: (word / 32 % 256) as u8,
        last_hard,
        flapping: has_bit(word, 65536),
    })
}

/// Whether the bit of this weight is set.
fn has_bit(word: u64, weight: u64) -> bool
    requires { 0 < weight }
    ensures { result ≡ has_bit word weight }
{
    word / weight % 2 == 1
}

fn flag(is_set: bool) -> u64
    ensures value { result ≡ flag is_set }
    ensures within { result < 2 }
{
    u64::from(is_set)
}
