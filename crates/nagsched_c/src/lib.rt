#![tactic(auto)]
//! The desk for C: the functions that `nagsched.h` declares.
//!
//! C has one type, a [`Handle`](nagsched_handles::Handle), and passes a pointer to it to each function.
//! All other arguments and results are numbers, texts and structs of numbers. A function that is called
//! wrongly reports it, if it can see the mistake, and changes nothing. Each function that uses what a
//! handle leads to takes this target out of the handle, works on it, and puts it back.
//!
//! The crate nagsched_handles has the handle, its target, and the structs.
//!
//! The modules:
//!
//! - `status`: the statuses of the functions.
//! - `reading`: reads a setup, and frees a handle.
//! - `naming`: the objects.
//! - `opening`: opens a desk.
//! - `calls`: the six calls.
//! - `glancing`: a glance at an object.
//! - `closing`: gathers passes, closes a desk, and renews a book.
//! - `saving`: saves and resumes states, and reports running checks.
//! - `history`: the entries of a history.
//! - `texts`: the lines of a refusal, a reply and an entry.

ghost use Rattle.std.specs.Prelude.{◌≡◌};

mod calls;
mod closing;
mod glancing;
mod history;
mod naming;
mod opening;
mod reading;
mod saving;
mod status;
mod texts;

pub use status::numbers_of_statuses;

/// The version of the interface in `nagsched.h`.
#[unsafe(no_mangle)]
pub extern "C" fn nagsched_version() -> u32
    ensures { result ≡ 3 }
{
    3
}
