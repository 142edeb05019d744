//! Standings as words of a board.

use check_states::{Kind, Standing, State, code, decode, pending};
use std::process::Abort;

/// A standing of an object that was checked.
fn standing(state: State, kind: Kind, attempt: u8, last_hard: State) -> Standing {
    Standing {
        checked: true,
        state,
        kind,
        attempt,
        last_hard,
        flapping: false,
    }
}

/// A hard problem in this state, at the third attempt.
fn hard(state: State) -> Standing {
    standing(state, Kind::Hard, 3, state)
}

/// Compares a standing with its word, both ways.
fn assert_word(rt: &impl Abort, standing: Standing, word: u64) {
    assert!(rt;
        code(standing) == word && decode(word) == Some(standing),
        "{word}"
    );
}

/// The words of a service and of a host that were never checked, of a soft problem, of one that
/// flaps, and of a hard problem in each state that is one; each is read back.
#[test]
fn words_of_standings(rt: HostRuntime) {
    let flapping = Standing {
        flapping: true,
        ..standing(State::Unreachable, Kind::Hard, 255, State::Unreachable)
    };
    let soft = standing(State::Critical, Kind::Soft, 1, State::Ok);
    assert_word(&rt, pending(false), 48);
    assert_word(&rt, pending(true), 32_824);
    assert_word(&rt, soft, 37);
    assert_word(&rt, hard(State::Warning), 1 + 2 + 16 + 32 * 3 + 8192);
    assert_word(
        &rt,
        hard(State::Critical),
        1 + 2 * 2 + 16 + 32 * 3 + 8192 * 2,
    );
    assert_word(
        &rt,
        hard(State::Unknown),
        1 + 2 * 3 + 16 + 32 * 3 + 8192 * 3,
    );
    assert_word(&rt, hard(State::Down), 1 + 2 * 5 + 16 + 32 * 3 + 8192 * 5);
    assert_word(&rt, flapping, 1 + 2 * 6 + 16 + 32 * 255 + 8192 * 6 + 65_536);
}

/// No standing has a state 7, or a bit above bit 16.
#[test]
fn words_of_no_standing(rt: HostRuntime) {
    for word in [2 * 7 + 48, 8192 * 7 + 48, 131_072 + 48, u64::MAX] {
        assert!(rt; decode(word).is_none(), "{word}");
    }
}
