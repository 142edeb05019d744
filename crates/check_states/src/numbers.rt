//! The numbers of return codes, states and kinds, in both directions.

use crate::standing::Kind;
use crate::state::{Code, State};

impl Code {
    ghost use Rattle.std.specs.Prelude.{◌≡◌};
    ghost use Rattle.check_states.specs.Numbers.{code_number, code_of_number};

    /// The number of the code, 0 to 3. (Manual: "Plugin API", return code.)
    pub fn number(self) -> u32
        ensures { result ≡ code_number self }
    {
        match self {
            Code::Ok => 0,
            Code::Warning => 1,
            Code::Critical => 2,
            Code::Unknown => 3,
        }
    }

    /// The code of this number. None for a number above 3. (Manual: "Plugin API", return code.)
    pub fn from_number(number: u64) -> Option<Code>
        ensures { result ≡ code_of_number number }
    {
        match number {
            0 => Some(Code::Ok),
            1 => Some(Code::Warning),
            2 => Some(Code::Critical),
            3 => Some(Code::Unknown),
            _ => None,
        }
    }
}

impl State {
    ghost use Rattle.std.specs.Prelude.{◌≡◌, ◌<◌};
    ghost use Rattle.check_states.specs.Numbers.{state_of_number, state_number};

    /// The number of the state: OK, WARNING, CRITICAL, UNKNOWN are 0 to 3, UP, DOWN, UNREACHABLE 4 to
    /// 6. (Our own profile.)
    pub fn number(self) -> u32
        ensures value { result ≡ state_number self }
        ensures within { result < 7 }
    {
        match self {
            State::Ok => 0,
            State::Warning => 1,
            State::Critical => 2,
            State::Unknown => 3,
            State::Up => 4,
            State::Down => 5,
            State::Unreachable => 6,
        }
    }

    /// The state of this number. None for a number above 6. (Our own profile.)
    pub fn from_number(number: u64) -> Option<State>
        ensures { result ≡ state_of_number number }
    {
        match number {
            0 => Some(State::Ok),
            1 => Some(State::Warning),
            2 => Some(State::Critical),
            3 => Some(State::Unknown),
            4 => Some(State::Up),
            5 => Some(State::Down),
            6 => Some(State::Unreachable),
            _ => None,
        }
    }
}

impl Kind {
    ghost use Rattle.std.specs.Prelude.{◌≡◌, ◌<◌};
    ghost use Rattle.check_states.specs.Numbers.{kind_number};

    /// The number of the kind: 0 for soft, 1 for hard. (Our own profile.)
    pub fn number(self) -> u32
        ensures value { result ≡ kind_number self }
        ensures within { result < 2 }
    {
        match self {
            Kind::Soft => 0,
            Kind::Hard => 1,
        }
    }
}
