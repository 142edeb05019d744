//! Numbers out of their limits.

ghost use Rattle.std.specs.Prelude.{◌≡◌, ◌++◌, OnOk};
ghost use Rattle.serde_json.specs.View.{view};
ghost use Rattle.setup_model.specs.Fault.{range_view};
ghost use Rattle.setup_model.specs.Member.{as_row, limits_of};
ghost use Rattle.setup_diagnostics.specs.Ranges.{above_text, between_text, limits_text, number_text, range_text, wrong_number_text};

use crate::line::{Line, Pushed};
use crate::places::push_place;
use serde_json::Value;
use setup_model::options::{
    HIGH_HOST_FLAP_THRESHOLD, HIGH_SERVICE_FLAP_THRESHOLD, LOW_HOST_FLAP_THRESHOLD,
    LOW_SERVICE_FLAP_THRESHOLD,
};
use setup_model::{Kind, Member, Place, RangeFault};

/// Appends which number is out of its limits, and its limits.
pub(crate) fn push_range(line: &mut Line, tree: &Value, place: Place, fault: RangeFault) -> Pushed
    ensures { OnOk result (line.new ≡ line.old ++ range_text (view tree.now) place (range_view fault)) }
{
    push_place(line, tree, place)?;
    push_wrong_number(line, fault)
}

fn push_wrong_number(line: &mut Line, fault: RangeFault) -> Pushed
    ensures { OnOk result (line.new ≡ line.old ++ wrong_number_text (range_view fault)) }
{
    match fault {
        RangeFault::OutOfRange(member, number) => {
            push_number(line, member, number)?;
            push_limits(line, member.kind)
        }
        RangeFault::ServiceThresholds(low, high) => {
            push_number(line, LOW_SERVICE_FLAP_THRESHOLD, low)?;
            push_above(line, HIGH_SERVICE_FLAP_THRESHOLD, high)
        }
        RangeFault::HostThresholds(low, high) => {
            push_number(line, LOW_HOST_FLAP_THRESHOLD, low)?;
            push_above(line, HIGH_HOST_FLAP_THRESHOLD, high)
        }
    }
}

/// Appends the number of a member.
fn push_number(line: &mut Line, member: Member, number: u64) -> Pushed
    ensures { OnOk result (line.new ≡ line.old ++ number_text (as_row member) number) }
{
    line.push_text(member.name)?;
    line.push_words(" is ")?;
    line.push_number(number)
}

/// Appends the least and the greatest number of a kind.
fn push_limits(line: &mut Line, kind: Kind) -> Pushed
    ensures { OnOk result (line.new ≡ line.old ++ limits_text (limits_of kind)) }
{
    match kind.limits() {
        Some((low, high)) => push_between(line, low, high),
        None => Ok(()),
    }
}

fn push_between(line: &mut Line, low: u64, high: u64) -> Pushed
    ensures { OnOk result (line.new ≡ line.old ++ between_text low high) }
{
    line.push_words("; it can be ")?;
    line.push_number(low)?;
    line.push_words(" to ")?;
    line.push_number(high)
}

/// Appends the member that a number can't be above, and its number.
fn push_above(line: &mut Line, member: Member, number: u64) -> Pushed
    ensures { OnOk result (line.new ≡ line.old ++ above_text (as_row member) number) }
{
    line.push_words("; it can't be above ")?;
    line.push_text(member.name)?;
    line.push_words(", which is ")?;
    line.push_number(number)
}
