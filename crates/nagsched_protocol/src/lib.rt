#![tactic(auto)]
//! The lines that `nagsched` reads and writes: an input with its setup and commands, and the texts of replies,
//! standings and refusals.
//!
//! The modules of reading (a byte goes through `input`, `script` and `line`, in this order):
//!
//! - `input`: bytes from a reader, and lines. `reader` asks a reader.
//! - `script`: a setup, a saved state if the scheduler starts from one, and a command for each later line.
//! - `line`: the command of one line by its length, its tree and its word. Each vocabulary implements
//!   the trait [`Command`].
//! - `flat_line`: lines that are read without a tree.
//! - `command`: the vocabulary of `run`. `request` adds an id to it.
//! - `drill_command`: the vocabulary of `drill`. `drill_script` puts its commands together.
//! - `start`: how a scheduler starts; it also starts one.
//! - `refusal`: the errors of an input.
//! - `outcome`: how a job ends. `drive_error`: why it ends early.
//! - `line_reader`: the lines of a conversation.
//! - `live_error`: why a conversation ends early.
//!
//! The modules of writing:
//!
//! - `text`: the text of each line, with one definition for all subcommands. `refusal_text` has the refusals,
//!   and `explanation` the sentences that explain them. `call_explanation` has those of refused calls.
//! - `listing`: the lines of all objects.
//! - `json_text`: the same answers as JSON objects. `answer_form` names the forms.
//! - `output`: gives bytes to a writer, all of them or up to a fault.
//! - `laws`: laws of the text of a conversation, and the limits of an input and of a reply.

mod answer_form;
mod call_explanation;
mod command;
mod drill_command;
mod drill_script;
mod drive_error;
mod explanation;
mod flat_line;
mod input;
mod json_text;
pub mod laws;
mod line;
mod line_reader;
mod listing;
mod live_error;
mod outcome;
mod output;
mod reader;
mod refusal;
mod refusal_text;
mod request;
mod script;
mod start;
mod text;

pub use answer_form::AnswerForm;
pub use command::RunCommand;
pub use drill_command::DrillCommand;
pub use drill_script::DrillScript;
pub use drive_error::DriveError;
pub use input::{Lines, MAX_READ_BYTES, read_at_most, split_line};
pub use json_text::Head;
pub use line::Command;
pub use line_reader::{
    InputBuffer, LINE_PREFIX_BYTES, LineBuffer, READ_BYTES, SAVED_PREFIX_BYTES, SETUP_PREFIX_BYTES,
    read_buffered, read_request, take_document,
};
pub use live_error::LiveError;
pub use outcome::{Ended, Outcome};
pub use output::{
    flush, print_text, push_explained_reply, refuse_as, refuse_input, write_json_list,
    write_json_reply, write_json_saved, write_list, write_saved, write_text,
};
pub use reader::{ReaderFault, ask_reader};
pub use refusal::{
    CommandError, InputRefusal, LineFault, LineShape, ScriptError, ValueKind, Vocabulary,
};
pub use refusal_text::push_refusal;
pub use request::{Request, RequestId};
pub use script::{MAX_INPUT_BYTES, Script, read_saved, read_setup, test_requests};
pub use start::{Start, moment_of, open, resume};
pub use text::{Pushed, REPLY_BYTES, push_entry, push_reply, push_total};
