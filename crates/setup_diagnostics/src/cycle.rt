//! Cycles of objects: each object is linked to the next one, and the last object to the first.

ghost use Rattle.std.specs.Prelude.{◌≡◌, ◌++◌, OnOk, map, string_bytes, take};
ghost use Rattle.setup_diagnostics.specs.Cycles.{cycle_text, dependency_part, dependency_cycle_text, first_text, more_text, object_text, objects_text};
ghost use Rattle.setup_diagnostics.specs.Cycles.{parent_cycle_text};

use crate::line::{Line, Pushed};
use crate::places::part_words;
use setup_model::Part;

/// The number of objects of a cycle that are named. The other objects are only counted.
const MAX_NAMED_OBJECTS: usize = 8;

/// Appends a cycle of hosts: each host has the next one for a parent, and the last host has the first.
pub(crate) fn push_parent_cycle(line: &mut Line, cycle: &[String]) -> Pushed
    ensures { OnOk result (line.new
        ≡ line.old ++ parent_cycle_text (map string_bytes cycle.now)) }
{
    line.push_words("parents")?;
    push_cycle(line, cycle)
}

/// Appends a cycle of objects of a part: each depends on the next one, and the last on the first.
pub(crate) fn push_dependency_cycle(line: &mut Line, part: Part, cycle: &[String]) -> Pushed
    ensures { OnOk result (line.new
        ≡ line.old ++ dependency_cycle_text part (map string_bytes cycle.now)) }
{
    line.push_words(part_words(dependency_part(part)))?;
    push_cycle(line, cycle)
}

/// The list of dependencies between objects of a part.
fn dependency_part(part: Part) -> Part
    ensures { result ≡ dependency_part part }
{
    match part {
        Part::Services => Part::ServiceDependencies,
        _ => Part::HostDependencies,
    }
}

/// Appends the objects of a cycle, and the first one again.
fn push_cycle(line: &mut Line, cycle: &[String]) -> Pushed
    ensures { OnOk result (line.new ≡ line.old ++ cycle_text (map string_bytes cycle.now)) }
{
    line.push_words(" go round:")?;
    push_objects(line, first_objects(cycle))?;
    push_more(line, cycle.len())?;
    push_first(line, cycle)
}

/// The objects that are named.
fn first_objects(cycle: &[String]) -> &[String]
    ensures { result.now ≡ take 8 cycle.now }
{
    if cycle.len() > MAX_NAMED_OBJECTS {
        &cycle[..MAX_NAMED_OBJECTS]
    } else {
        cycle
    }
}

/// Appends objects, and an arrow after each.
fn push_objects(line: &mut Line, objects: &[String]) -> Pushed
    ensures { OnOk result (line.new ≡ line.old ++ objects_text (map string_bytes objects.now)) }
{
    for object in objects {
        push_object(line, object)?;
        line.push_words(" ->")?;
    }
    Ok(())
}

/// Appends a space and the name of an object.
fn push_object(line: &mut Line, object: &String) -> Pushed
    ensures { OnOk result (line.new ≡ line.old ++ object_text (string_bytes object.now)) }
{
    line.push_words(" ")?;
    line.push_text(object.as_str())
}

/// Appends how many objects of a cycle of this length aren't named.
fn push_more(line: &mut Line, count: usize) -> Pushed
    ensures { OnOk result (line.new ≡ line.old ++ more_text count) }
{
    if count > MAX_NAMED_OBJECTS {
        line.push_words(" (")?;
        line.push_number((count - MAX_NAMED_OBJECTS) as u64)?;
        line.push_words(" more) ->")
    } else {
        Ok(())
    }
}

/// Appends the first object.
fn push_first(line: &mut Line, cycle: &[String]) -> Pushed
    ensures { OnOk result (line.new ≡ line.old ++ first_text (map string_bytes cycle.now)) }
{
    match cycle.first() {
        Some(object) => push_object(line, object),
        None => Ok(()),
    }
}
