//! The words of states and kinds, and the letters of states.

use crate::standing::Kind;
use crate::state::State;

impl State {
    ghost use Rattle.std.specs.Prelude.{◌≡◌, ◌≤◌, ◌∷◌, [], length};
    ghost use Rattle.check_states.specs.Words.{is_letter, state_of_letter, state_letter, state_word, state_of_word};

    /// The word of the state, in capitals: `OK` to `UNREACHABLE`. (Manual: "State Types".)
    pub fn word(self) -> &'static str
        ensures text { result.now ≡ state_word self }
        ensures bounded { length result.now ≤ 11 }
    {
        match self {
            State::Ok => "OK",
            State::Warning => "WARNING",
            State::Critical => "CRITICAL",
            State::Unknown => "UNKNOWN",
            State::Up => "UP",
            State::Down => "DOWN",
            State::Unreachable => "UNREACHABLE",
        }
    }

    /// The state with this word, if there is one. (Manual: "State Types".)
    pub fn from_word(word: &str) -> Option<State>
        ensures { result ≡ state_of_word word.now }
    {
        match word {
            "OK" => Some(State::Ok),
            "WARNING" => Some(State::Warning),
            "CRITICAL" => Some(State::Critical),
            "UNKNOWN" => Some(State::Unknown),
            "UP" => Some(State::Up),
            "DOWN" => Some(State::Down),
            "UNREACHABLE" => Some(State::Unreachable),
            _ => None,
        }
    }

    /// The letter of the state: `o`, `w`, `c`, `u` of OK, WARNING, CRITICAL, UNKNOWN, and `o`, `d`, `u`
    /// of UP, DOWN, UNREACHABLE. (Our own profile.)
    pub fn letter(self) -> &'static str
        ensures { result.now ≡ state_letter self ∷ [] }
    {
        match self {
            State::Ok | State::Up => "o",
            State::Warning => "w",
            State::Critical => "c",
            State::Unknown | State::Unreachable => "u",
            State::Down => "d",
        }
    }

    /// Whether a byte is the letter of a state, of either sort of object.
    pub fn is_letter(byte: u8) -> bool
        ensures { result ≡ is_letter byte }
    {
        byte == b'o' || byte == b'w' || byte == b'u' || byte == b'c' || byte == b'd'
    }

    /// The state of a host, or of a service, with this letter. A letter of the other sort is a state of that
    /// sort. A byte that isn't a letter counts as the letter of DOWN.
    pub fn from_letter(host: bool, letter: u8) -> State
        ensures { result ≡ state_of_letter host letter }
    {
        match letter {
            b'o' if host => State::Up,
            b'o' => State::Ok,
            b'w' => State::Warning,
            b'u' if host => State::Unreachable,
            b'u' => State::Unknown,
            b'c' => State::Critical,
            _ => State::Down,
        }
    }
}

impl Kind {
    ghost use Rattle.std.specs.Prelude.{◌≡◌, ◌≤◌, length};
    ghost use Rattle.check_states.specs.Words.{kind_word, kind_of_word};

    /// The kind with this word, if there is one. (Manual: "State Types".)
    pub fn from_word(word: &str) -> Option<Kind>
        ensures { result ≡ kind_of_word word.now }
    {
        match word {
            "SOFT" => Some(Kind::Soft),
            "HARD" => Some(Kind::Hard),
            _ => None,
        }
    }

    /// The word of the kind: `SOFT` or `HARD`. (Manual: "State Types".)
    pub fn word(self) -> &'static str
        ensures text { result.now ≡ kind_word self }
        ensures bounded { length result.now ≤ 4 }
    {
        match self {
            Kind::Soft => "SOFT",
            Kind::Hard => "HARD",
        }
    }
}
