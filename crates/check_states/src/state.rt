//! The return codes of checks, and the states of services and hosts.

/// The return code of a check, 0 to 3. (Manual: "Plugin API", return code.)
#[derive(Clone, Copy, Debug, PartialEq, Eq)]
pub enum Code {
    /// 0
    Ok,
    /// 1
    Warning,
    /// 2
    Critical,
    /// 3
    Unknown,
}

/// The state of a service, `Ok` to `Unknown`, or of a host, `Up` to `Unreachable`. (Manual:
/// "Determining Status and Reachability of Network Hosts", "Plugin API".)
#[derive(Clone, Copy, Debug, PartialEq, Eq)]
pub enum State {
    Ok,
    Warning,
    Critical,
    Unknown,
    Up,
    Down,
    Unreachable,
}

impl State {
    ghost use Rattle.std.specs.Prelude.{◌≡◌};
    ghost use Rattle.check_states.specs.State.{ok_or_up_state, is_another_state, is_down_state, is_host_state, is_problem};

    /// Whether this is a state of hosts, and not one of services.
    pub fn is_host(self) -> bool
        ensures { result ≡ is_host_state self }
    {
        matches!(self, State::Up | State::Down | State::Unreachable)
    }

    /// Whether this is a problem: any state except `Ok` and `Up`.
    pub fn is_problem(self) -> bool
        ensures { result ≡ is_problem self }
    {
        !matches!(self, State::Ok | State::Up)
    }

    /// Whether this is the state of a host that is down: `Down` or `Unreachable`.
    pub(crate) fn is_down(self) -> bool
        ensures { result ≡ is_down_state self }
    {
        matches!(self, State::Down | State::Unreachable)
    }

    /// Whether this state differs from the other.
    pub(crate) fn is_another(self, other: State) -> bool
        ensures { result ≡ is_another_state self other }
    {
        self != other
    }

    /// `Up` for a host, `Ok` for a service.
    pub(crate) fn ok_or_up(is_host: bool) -> State
        ensures { result ≡ ok_or_up_state is_host }
    {
        if is_host { State::Up } else { State::Ok }
    }
}

ghost use Rattle.std.specs.Prelude.{◌≡◌, false};
ghost use Rattle.check_states.specs.State.{is_host_state, service_state_of};

/// The state of a service whose check returned this code: 0, 1, 2, 3 are OK, WARNING, CRITICAL,
/// UNKNOWN. (Manual: "Plugin API", return code.)
pub fn service_state(code: Code) -> State
    ensures value { result ≡ service_state_of code }
    ensures of_service { is_host_state result ≡ false }
{
    match code {
        Code::Ok => State::Ok,
        Code::Warning => State::Warning,
        Code::Critical => State::Critical,
        Code::Unknown => State::Unknown,
    }
}
