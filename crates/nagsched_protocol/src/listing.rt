//! The lines of all objects, by which a client finds its checks again.

ghost use Rattle.std.specs.Prelude.{◌≡◌, ◌<◌, ◌++◌, IfOk, OnOk, string_bytes};
ghost use Rattle.check_objects.specs.Configuration.{object_count};
ghost use Rattle.nagsched_protocol.specs.Text.{list_lines, listed_line};

use crate::text::{Pushed, flapping_word, state_text};
use check_sched::Sched;
use std::alloc::{AllocError, Global};
use std::fmt;

/// The line with the number of objects, and then the line of each object, by number. The scheduler
/// stays as it is.
#[tactic(auto, unfolding(crate::specs::Text::list_lines))]
pub(crate) fn list_lines(alloc: Global, sched: &Sched) -> Result<String, AllocError>
    ensures { IfOk result (λ text. string_bytes text ≡ list_lines sched.now) }
{
    let mut text = String::new(alloc);
    let count = sched.setup().len();
    writeln!(text, "listed {count}")?;
    for number in 0..count {
        push_object(&mut text, sched, number as u32)?;
    }
    Ok(text)
}

/// Appends the line of the object with this number: its standing, the time of its next check, and the
/// number of its run.
fn push_object(text: &mut String, sched: &Sched, number: u32) -> Pushed
    requires { number < object_count sched.now.setup }
    ensures { OnOk result
        (string_bytes text.new ≡ string_bytes text.old ++ listed_line sched.now number) }
{
    let standing = sched.standing(number);
    let state = state_text(standing);
    let kind = standing.kind.word();
    let attempt = standing.attempt;
    let flapping = flapping_word(standing.flapping);
    let next = OrNone(sched.next_of(number));
    let run = OrNone(sched.running(number));
    let name = sched.setup().name(number);
    writeln!(
        text,
        "object {state} {kind} {attempt} {flapping} {next} {run} {name}"
    )
}

/// A number, or `none`.
#[derive(Clone, Copy)]
struct OrNone(Option<u64>);

impl fmt::Display for OrNone {
    ghost use Rattle.std.specs.Prelude.{Some};
    ghost use Rattle.nagsched_protocol.specs.Text.{time_text};

    ghost output = { λ number. Some (time_text number.0) };

    fn fmt<W: fmt::Write>(&self, f: &mut fmt::Formatter<W>) -> fmt::Result {
        match self.0 {
            Some(number) => write!(f, "{number}"),
            None => f.write_str("none"),
        }
    }
}
