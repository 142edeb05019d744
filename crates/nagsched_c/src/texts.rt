//! The lines that the program writes for a refusal, a reply and an entry.

ghost use Rattle.nagsched_handles.specs.Handles.{contents_of, handle_setup, MatchSetup};
ghost use Rattle.std.specs.Prelude.{◌≡◌};
ghost use Rattle.nagsched_protocol.specs.Text.{refusal_line};
ghost use Rattle.nagsched_c.specs.Texts.{HasEntryText, HasRefusalText, HasReplyText, IsTextOutput};

use crate::naming::put;
use crate::status::{NO_MEMORY, WRONG};
use check_objects::Setup;
use nagsched_handles::{
    CCall, CEntry, CRefusal, CReply, Handle, call_of, entry_of, fault_of, refusal_of, reply_of,
};
use nagsched_protocol::{InputRefusal, push_entry, push_refusal, push_reply};
use std::alloc::Global;

/// The text of a refusal of a document or of a saved state, into the room at `text`; `bytes` is its
/// length.
///
/// `WRONG` exactly if no such refusal has this struct, or if the text is longer than the room. Then
/// nothing is written, except in the last case its length. If memory is refused, nothing is written.
#[unsafe(no_mangle)]
pub extern "C" fn nagsched_refusal_text(
    alloc: Global,
    refusal: &CRefusal,
    text: &mut [u8],
    bytes: &mut usize,
) -> u32
    ensures { HasRefusalText refusal.now text.old bytes.old result text.new bytes.new }
{
    if let Some(error) = refusal_of(*refusal) {
        return put_refusal(alloc, InputRefusal::Setup(error), text, bytes);
    }
    match fault_of(*refusal) {
        Some(fault) => put_refusal(alloc, InputRefusal::Saved(fault), text, bytes),
        None => WRONG,
    }
}

/// Puts the text of a refusal.
fn put_refusal(alloc: Global, refusal: InputRefusal, text: &mut [u8], bytes: &mut usize) -> u32
    ensures { IsTextOutput (refusal_line refusal) text.old bytes.old result text.new bytes.new }
{
    let mut line = String::new(alloc);
    match push_refusal(&mut line, refusal) {
        Ok(()) => put(line.as_bytes(), text, bytes),
        Err(_) => NO_MEMORY,
    }
}

/// The text of the reply to a call, into the room at `text`; `bytes` is its length. The objects are
/// those of a setup, a pass or a book. A number without an object has no name in the text.
///
/// `WRONG` exactly if the handle has none of these, if no call or no reply has such a struct, or if the
/// text is longer than the room. Then nothing is written, except in the last case its length. If memory
/// is refused, nothing is written.
#[unsafe(no_mangle)]
pub extern "C" fn nagsched_reply_text(
    alloc: Global,
    named: &mut Handle,
    call: &CCall,
    reply: &CReply,
    text: &mut [u8],
    bytes: &mut usize,
) -> u32
    ensures handle { contents_of named.new ≡ contents_of named.old }
    ensures output { MatchSetup (handle_setup (contents_of named.old))
        (λ setup. HasReplyText setup call.now reply.now text.old bytes.old result text.new bytes.new)
        ((result ≡ WRONG) × (text.new ≡ text.old) × (bytes.new ≡ bytes.old)) }
{
    let Some(target) = named.take(alloc) else {
        return WRONG;
    };
    let status = match target.setup() {
        Some(setup) => put_reply(alloc, setup, call, reply, text, bytes),
        None => WRONG,
    };
    *named = Handle::of(target);
    status
}

/// Puts the text of the reply to a call.
fn put_reply(
    alloc: Global,
    setup: &Setup,
    call: &CCall,
    reply: &CReply,
    text: &mut [u8],
    bytes: &mut usize,
) -> u32
    ensures { HasReplyText setup.now call.now reply.now text.old bytes.old result text.new bytes.new }
{
    let Some(call) = call_of(*call) else {
        return WRONG;
    };
    let Some(reply) = reply_of(*reply) else {
        return WRONG;
    };
    let mut line = String::new(alloc);
    match push_reply(&mut line, setup, call, reply) {
        Ok(()) => put(line.as_bytes(), text, bytes),
        Err(_) => NO_MEMORY,
    }
}

/// The text of an entry of a history, into the room at `text`; `bytes` is its length. The rest is as for
/// [`nagsched_reply_text`].
#[unsafe(no_mangle)]
pub extern "C" fn nagsched_entry_text(
    alloc: Global,
    named: &mut Handle,
    entry: &CEntry,
    text: &mut [u8],
    bytes: &mut usize,
) -> u32
    ensures handle { contents_of named.new ≡ contents_of named.old }
    ensures output { MatchSetup (handle_setup (contents_of named.old))
        (λ setup. HasEntryText setup entry.now text.old bytes.old result text.new bytes.new)
        ((result ≡ WRONG) × (text.new ≡ text.old) × (bytes.new ≡ bytes.old)) }
{
    let Some(target) = named.take(alloc) else {
        return WRONG;
    };
    let status = match target.setup() {
        Some(setup) => put_entry(alloc, setup, entry, text, bytes),
        None => WRONG,
    };
    *named = Handle::of(target);
    status
}

/// Puts the text of an entry.
fn put_entry(
    alloc: Global,
    setup: &Setup,
    entry: &CEntry,
    text: &mut [u8],
    bytes: &mut usize,
) -> u32
    ensures { HasEntryText setup.now entry.now text.old bytes.old result text.new bytes.new }
{
    let Some(entry) = entry_of(*entry) else {
        return WRONG;
    };
    let mut line = String::new(alloc);
    match push_entry(&mut line, setup, &entry) {
        Ok(()) => put(line.as_bytes(), text, bytes),
        Err(_) => NO_MEMORY,
    }
}
