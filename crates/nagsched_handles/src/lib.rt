#![tactic(auto)]
//! The handles of the C library and its structs of numbers. A handle owns a value on the heap.
//!
//! A [`Handle`] leads to a setup, a pass of a desk, a book or an old history. A call takes this target out
//! of the handle, uses it, and puts it back. A struct is made from a standing, a call, a reply, an entry, or a
//! refusal of a document or of a saved state, and is read back. This crate has no status: the crate that
//! exports a function says what C gets.
//!
//! The modules of handles:
//!
//! - `handle`: the handle; `raw` and `box_parts` have the address in it, and `target` what it leads to.
//! - `desk_pass`, `shared`, `pass_state`: a pass of a desk.
//! - `reading`: makes a setup.
//! - `opening`: makes the passes of a desk.
//! - `closing`: joins passes, ends a desk, and renews a book.
//! - `resuming`: makes the book that resumes a saved state.
//!
//! The modules of structs:
//!
//! - `kinds`: the numbers of calls, replies and refusals; `numbers`: those of switches, times
//!   and indices.
//! - `structs`: the structs, each made from its value; `from_c`: reads structs back.
//! - `document_faults`, `saved_faults`: make and read the structs for the refusals of a document and of a
//!   saved state.
//! - `laws`: the law that nothing is lost on the way, and the number of each kind.

mod box_parts;
pub mod closing;
mod desk_pass;
mod document_faults;
mod from_c;
mod handle;
mod kinds;
pub mod laws;
mod numbers;
pub mod opening;
mod pass_state;
mod raw;
pub mod reading;
pub mod resuming;
mod saved_faults;
mod shared;
mod structs;
mod target;

pub use desk_pass::DeskPass;
pub use document_faults::{c_refusal, refusal_of};
pub use from_c::{call_of, entry_of, reply_of};
pub use handle::Handle;
pub use numbers::flag_of;
pub use pass_state::Step;
pub use saved_faults::{c_fault, fault_of};
pub use structs::{
    CCall, CEntry, CRefusal, CReply, CStanding, c_call, c_entry, c_reply, c_standing, write_reply,
};
pub use target::{HandleTarget, NamedBook, NamedSetup};
