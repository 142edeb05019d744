//! The help texts, with line breaks for 80 columns.

/// The help text of the program or of a subcommand.
#[derive(Clone, Copy)]
pub(crate) struct Help {
    /// The text about its purpose.
    pub(crate) about: &'static str,
    /// The text at the end of its own help.
    pub(crate) notes: &'static str,
}

/// The help of the program.
pub(crate) const HELP: Help = Help {
    about: "\
Schedules the active checks of hosts and services by the rules of Nagios Core 4,
with some differences: it decides which check is due, and what a result does to
state, attempt and next time. It runs no plugins: return codes are part of its
input.

A setup and a script come from standard input. `run` makes the script's calls
one after another, and answers each with a line. `live` answers each line as
soon as it arrives. `check` prints what is in a setup, or why it is refused.
`drill` has workers in threads share one scheduler, and writes their history.
Without a command it does `run --start 0`.",
    notes: "\
Input:
  Line 1 is the setup, a JSON object with options, hosts and services. Each
  later line is a JSON array: `nagsched run --help` and `nagsched drill --help`
  list them. `run` and `drill` check the whole input before the first call.
  nagsched(1) and nagsched(5) describe every member, line and refusal.

Exit status:
  0  ran, or wrote its help or its version
  1  the input was refused: a line says why and where, from `check` two lines
  2  the arguments were refused, with the line `refused words`
  3  standard input or standard output failed
  4  out of memory

Example:
  printf '%s\\n' '{\"hosts\":[{\"name\":\"gateway\",\"max_check_attempts\":3}]}' \\
    '[\"take\",0]' '[\"report\",\"gateway\",1,2]' | nagsched run",
};

/// The help of a subcommand, from its purpose, its notes and an example. A text about the exit statuses 0 and 1
/// may come before the example. Without one, they are those of `run`.
macro_rules! subcommand_help {
    ($about:literal, $notes:literal, $example:literal) => {
        subcommand_help!($about, $notes, "ran  1 input refused", $example)
    };
    ($about:literal, $notes:literal, $ended:literal, $example:literal) => {
        Help {
            about: $about,
            notes: concat!(
                $notes,
                "

nagsched(1) and nagsched(5) describe every line, member and refusal.

Exit status:
  0 ",
                $ended,
                "  2 arguments refused  3 device failed  4 out of memory

",
                $example,
            ),
        }
    };
}

/// The help of the subcommand `run`.
pub(crate) const HELP_RUN: Help = subcommand_help!(
    "Makes the calls of a script on one scheduler",
    "\
Input after the setup, one call per line; moments and times in milliseconds:
  [\"take\",now]                    asks what is due, and takes it
  [\"report\",name,run,code]        the return code of a check, 0 to 3
  [\"abandon\",name,run,now]        gives up a check that won't return
  [\"reschedule\",name,time,forced] sets the next check
  [\"enable\",name,on]              switches an object's active checks
  [\"status\",name]                 asks for the state of an object
  [\"save\"]                        asks for the state to save; isn't a call
  [\"list\"]                        asks for all objects; isn't a call
With --resume line 2 is a saved state, as `saved` wrote it without that word.
With --json the lines and the answers are those of `nagsched live --json`.

Output, one line per call:
  taken RUN NAME        putoff TIME NAME        idle TIME        atlimit
  standing STATE KIND ATTEMPT CHANGED FLAP TIME NAME
  freed TIME NAME       done NAME               refused CODE WHY
  saved STATE           the answer to `save`
  listed COUNT          the answer to `list`; COUNT lines follow it:
  object STATE KIND ATTEMPT FLAP TIME RUN NAME",
    "\
Example:
  printf '%s\\n' '{\"hosts\":[{\"name\":\"gateway\",\"max_check_attempts\":3}]}' \\
    '[\"take\",0]' '[\"report\",\"gateway\",1,2]' | nagsched run --start 0"
);

/// The help of the subcommand `live`.
pub(crate) const HELP_LIVE: Help = subcommand_help!(
    "Answers each line as soon as it arrives, and waits for the next",
    "\
Input and output are those of `run`, but each line is answered as soon as it
arrives, before more is read, and there is no limit on the whole.
  A line that isn't a command is answered with `refused CODE WHY LINE`, and
  changes nothing. The conversation continues.
  A blank line has no answer: don't wait for one.
  With --json each answer is one JSON object on one line. `line` is the number
  of the line that it answers, and `answer` its kind; the rest are its fields.
  A refusal has `explanation`. A request may end with {\"id\":..}, a text or a
  whole number, which its answer repeats.
  A refused setup is answered with its line, and ends the conversation. So is a
  refused saved state, which is line 2 with --resume.
It doesn't read while it writes: if you send more than a pipe holds, read the
answers meanwhile.",
    "ran  1 setup refused",
    "\
Example, whose second answer comes two seconds after the first:
  (printf '%s\\n' '{\"hosts\":[{\"name\":\"gateway\",\"max_check_attempts\":3}]}' \\
    '[\"take\",0]'; sleep 2; echo '[\"report\",\"gateway\",1,2]') | nagsched live"
);

/// The help of the subcommand `check`.
pub(crate) const HELP_CHECK: Help = subcommand_help!(
    "Prints what is in a setup, or why it is refused",
    "\
Input is one setup, on any number of lines. No check is scheduled.

Output, one word and its value per line:
  setup ok
  hosts, services, dependencies, parents         how many there are
  dependency_chain, parent_chain                 how long the longest chain is
  scheduled, disabled, without_interval          objects, each in one of these
  host_delay, host_first, host_last              the delay method of hosts, and
                                                 the first and last first check
  service_delay, service_first, service_last     the same for services
  interleave_factor                              the one of services
With --line it writes the setup itself, on one line, and nothing else.
A refused setup is answered with the line that `run` writes, and one that says
where and why in plain words.

With --resume, which doesn't go with --line, line 1 is the setup and line 2 a
saved state. After the figures, the output says what becomes of saved objects:
  kept, new, dropped        objects of both, of the setup alone, and of the
                            saved state alone
  given_up                  runs that are given up, because more services are
                            running than the setup allows
  changed attempts NAME     the setup has another maximum of attempts for it;
                            likewise `interval` and `enabled`
A refused saved state is answered like a refused setup. --start is the start of
the run to come.",
    "good  1 input refused",
    "\
Example:
  echo '{\"hosts\":[{\"name\":\"gateway\",\"max_check_attempts\":3}]}' |
    nagsched check"
);

/// The help of the subcommand `drill`.
pub(crate) const HELP_DRILL: Help = subcommand_help!(
    "Has workers share one scheduler, with scripted plugins",
    "\
Input after the setup, in any order:
  [\"plugin\",name,code,..]  the return codes of an object's plugin, by the run's
                           number, over and over; without such a line it is 0
  [\"moment\",now]           one more moment, in ms, at which each worker takes

Output:
  PASS LINE              the worker's pass and the line of `run`, for each call
  total ENTRIES REFUSED  calls recorded, and refused out of memory",
    "\
Example:
  printf '%s\\n' '{\"hosts\":[{\"name\":\"gateway\",\"max_check_attempts\":3}]}' \\
    '[\"plugin\",\"gateway\",2]' '[\"moment\",0]' | nagsched drill --workers 1"
);

/// The help of the subcommand `schema`.
pub(crate) const HELP_SCHEMA: Help = subcommand_help!(
    "Writes the JSON schema of a setup",
    "\
No input is read. Output is a JSON schema of draft 2020-12, with the name, the
kind, the limits and the default of each member.",
    "written",
    "\
Example:
  nagsched schema"
);

/// The help text of the option `--start` of `drill`.
pub(crate) const ABOUT_START: &str = "Moment of the start, in ms, from 0 to 2^60";

/// The help text of the option `--start` of `run`, `live` and `check`.
pub(crate) const ABOUT_OPEN_START: &str =
    "Start in ms, 0 to 2^60 [default: 0, with --resume the saved]";

/// The help text of the flag `--resume` of `run` and `live`.
pub(crate) const ABOUT_RESUME: &str = "Resumes a saved state, which is line 2";

/// The help text of the flag `--resume` of `check`.
pub(crate) const ABOUT_CHECK_RESUME: &str = "Checks a saved state too, which is line 2";

/// The help text of the flag `--line`.
pub(crate) const ABOUT_LINE: &str = "Writes the setup as one line, for `run` and `live`";

/// The help text of the flag `--json`.
pub(crate) const ABOUT_JSON: &str = "Answers each line with one JSON object";

/// The help text of the flag `--explain`.
pub(crate) const ABOUT_EXPLAIN: &str = "Explains each refusal on a second line, `explained WHY`";

/// The help text of the option `--workers`.
pub(crate) const ABOUT_WORKERS: &str = "Workers, 1 to 64; N take N - 1 threads";

/// The help text of the option `--room`.
pub(crate) const ABOUT_ROOM: &str = "Calls to make room for, from 0 to 1000000";
