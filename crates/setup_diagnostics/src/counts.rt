//! Counts past their limits.

ghost use Rattle.std.specs.Prelude.{◌≡◌, ◌++◌, false, OnOk};
ghost use Rattle.setup_diagnostics.specs.Counts.{count_text, count_words, count_limit};
ghost use Rattle.setup_diagnostics.specs.Feeds.{has_line_feed};

use crate::line::{Line, Pushed};
use setup_model::{Count, MAX_DEPENDENCIES, MAX_OBJECTS, MAX_PARENTS};

/// Appends a count that is past its limit, and the limit.
pub(crate) fn push_count(line: &mut Line, count: Count, number: u64) -> Pushed
    ensures { OnOk result (line.new ≡ line.old ++ count_text count number) }
{
    let (limit, words) = limit_and_words(count);
    line.push_words("there are ")?;
    line.push_number(number)?;
    line.push_words(words)?;
    line.push_words("; there can be ")?;
    line.push_number(limit)
}

/// The limit of a count, and the words for the things that it counts.
fn limit_and_words(count: Count) -> (u64, &'static str)
    ensures limit { result.0 ≡ count_limit count }
    ensures words { result.1.now ≡ count_words count }
    ensures no_line_feed { has_line_feed result.1.now ≡ false }
{
    match count {
        Count::Objects => (MAX_OBJECTS as u64, " hosts and services"),
        Count::Parents => (MAX_PARENTS as u64, " parents of all hosts"),
        Count::Dependencies => (MAX_DEPENDENCIES as u64, " dependencies of both sorts"),
    }
}
