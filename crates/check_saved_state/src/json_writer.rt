//! Writes a saved state as JSON. The members of each object are in the order of their names.

ghost use Rattle.std.specs.Prelude.{◌∷◌, OnOk};
ghost use Rattle.json.specs.Token.{key};
ghost use Rattle.serde_json.specs.Data.{array, boolean, null, string};
ghost use Rattle.check_saved_state.specs.Object.{number_tree, object_tree, run_tree, time_tree};
ghost use Rattle.check_saved_state.specs.Saved.{IsSaved};
ghost use Rattle.check_saved_state.specs.Tree.{Adds, objects_tree, saved_tree, tokens_after, tokens_of};

use crate::result_letters::letters_of;
use crate::saved::{Saved, SavedObject, SavedRun};
use crate::table::FORMAT;
use crate::words::flapping_word;
use json::Writer;
use std::alloc::{AllocError, Global};

/// Writes a saved state.
pub(crate) fn write_saved(out: &mut Writer, alloc: Global, saved: &Saved) -> Result<(), AllocError>
    ensures written { OnOk result (Adds out.old out.new (tokens_of (saved_tree saved.now))) }
    ensures saved { OnOk result (IsSaved saved.now) }
{
    out.begin_object()?;
    write_number(out, "format", FORMAT)?;
    out.key("objects")?;
    write_objects(out, alloc, saved.objects())?;
    write_number(out, "runs", saved.runs())?;
    write_number(out, "start", saved.start())?;
    out.end_object()
}

fn write_objects(out: &mut Writer, alloc: Global, objects: &[SavedObject]) -> Result<(), AllocError>
    ensures { OnOk result (Adds out.old out.new (tokens_of (array (objects_tree objects.now)))) }
{
    out.begin_array()?;
    for object in objects {
        write_object(out, alloc, object)?;
    }
    out.end_array()
}

fn write_object(out: &mut Writer, alloc: Global, object: &SavedObject) -> Result<(), AllocError>
    ensures { OnOk result (Adds out.old out.new (tokens_of (object_tree object.now))) }
{
    out.begin_object()?;
    write_number(out, "attempt", u64::from(object.standing.attempt))?;
    write_number(out, "check_interval", object.interval)?;
    write_switch(out, "checked", object.standing.checked)?;
    write_switch(out, "enabled", object.enabled)?;
    write_switch(out, "enabled_in_setup", object.setup_enabled)?;
    write_from_flapping(out, alloc, object)
}

/// Writes the members from the sixth on, and closes the object.
fn write_from_flapping(
    out: &mut Writer,
    alloc: Global,
    object: &SavedObject,
) -> Result<(), AllocError>
    ensures { OnOk result (Adds out.old out.new (tokens_after 5 object.now)) }
{
    let standing = object.standing;
    write_text(out, "flapping", flapping_word(standing.flapping))?;
    write_switch(out, "forced", object.forced)?;
    write_text(out, "kind", standing.kind.word())?;
    write_text(out, "last_hard_state", standing.last_hard.word())?;
    write_number(out, "max_check_attempts", u64::from(object.max_attempts))?;
    write_from_name(out, alloc, object)
}

/// Writes the members from the eleventh on, and closes the object.
fn write_from_name(out: &mut Writer, alloc: Global, object: &SavedObject) -> Result<(), AllocError>
    ensures { OnOk result (Adds out.old out.new (tokens_after 10 object.now)) }
{
    write_text(out, "name", object.name.as_str())?;
    write_time(out, "next_check", object.next)?;
    write_from_results(out, alloc, object)
}

/// Writes the members from the thirteenth on, and closes the object.
fn write_from_results(
    out: &mut Writer,
    alloc: Global,
    object: &SavedObject,
) -> Result<(), AllocError>
    ensures { OnOk result (Adds out.old out.new (tokens_after 12 object.now)) }
{
    let letters = letters_of(alloc, &object.results)?;
    write_text(out, "results", letters.as_str())?;
    write_run(out, "run", object.run)?;
    write_text(out, "state", object.standing.state.word())?;
    out.end_object()
}

// ---- members

fn write_number(out: &mut Writer, name: &str, number: u64) -> Result<(), AllocError>
    ensures { OnOk result (Adds out.old out.new (key name.now ∷ tokens_of (number_tree number))) }
{
    out.key(name)?;
    out.u64(number)
}

fn write_switch(out: &mut Writer, name: &str, is_on: bool) -> Result<(), AllocError>
    ensures { OnOk result (Adds out.old out.new (key name.now ∷ tokens_of (boolean is_on))) }
{
    out.key(name)?;
    out.boolean(is_on)
}

fn write_text(out: &mut Writer, name: &str, text: &str) -> Result<(), AllocError>
    ensures { OnOk result (Adds out.old out.new (key name.now ∷ tokens_of (string text.now))) }
{
    out.key(name)?;
    out.string(text)
}

/// Writes a time, or `null` if no time is set.
fn write_time(out: &mut Writer, name: &str, time: Option<u64>) -> Result<(), AllocError>
    ensures { OnOk result (Adds out.old out.new (key name.now ∷ tokens_of (time_tree time))) }
{
    match time {
        Some(time) => write_number(out, name, time),
        None => write_null(out, name),
    }
}

/// Writes a run, or `null`.
fn write_run(out: &mut Writer, name: &str, run: Option<SavedRun>) -> Result<(), AllocError>
    ensures { OnOk result (Adds out.old out.new (key name.now ∷ tokens_of (run_tree run))) }
{
    let Some(run) = run else {
        return write_null(out, name);
    };
    out.key(name)?;
    out.begin_object()?;
    write_number(out, "number", run.number)?;
    write_number(out, "start", run.start)?;
    out.end_object()
}

fn write_null(out: &mut Writer, name: &str) -> Result<(), AllocError>
    ensures { OnOk result (Adds out.old out.new (key name.now ∷ tokens_of null)) }
{
    out.key(name)?;
    out.null()
}
