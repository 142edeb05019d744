//! Answers as JSON objects. Each has one definition, in `specs/JsonText.antt`, over the same table of
//! answers as their words.

ghost use Rattle.std.specs.Prelude.{◌≡◌, ◌<◌, ◌++◌, ◌∷◌, [], IfOk, codes, decimal, option_map, string_bytes};
ghost use Rattle.json.specs.Token.{begin_object, end_object, end_array, key, string, number, boolean};
ghost use Rattle.json.specs.Print.{print};
ghost use Rattle.check_objects.specs.Configuration.{object_count};
ghost use Rattle.std.specs.List.{after_first, before_first};
ghost use Rattle.nagsched_protocol.specs.JsonText.{Puts, answer_members, first_tokens, id_tokens, index_fields, is_space, json_answer_line, json_list_line};
ghost use Rattle.nagsched_protocol.specs.JsonText.{listed_tokens};
ghost use Rattle.nagsched_protocol.specs.JsonText.{json_refusal_line, json_saved_line, members_of, object_tokens, place_fields, refusal_fields};
ghost use Rattle.nagsched_protocol.specs.JsonText.{refused_line, time_token};
ghost use Rattle.nagsched_protocol.specs.Text.{answer_of, attempt_field, kind_field, line_of, listed_answer, name_field, next_field, refusal_field};
ghost use Rattle.nagsched_protocol.specs.Text.{state_field};
ghost use Rattle.nagsched_protocol.specs.CallExplanation.{explained_answer, sentence_fields};
ghost use Rattle.nagsched_protocol.specs.Requested.{head_id, id_view};

use crate::call_explanation::explain_reply;
use crate::explanation::explain_refusal;
use crate::refusal::InputRefusal;
use crate::refusal_text::{line_fault_text, saved_index, saved_reason};
use crate::request::{RequestId, id_of_line};
use crate::text::{asked_name, call_refusal_text, name_or_empty, state_text};
use check_objects::{Place, Setup};
use check_sched::{Call, Reply, Sched};
use check_states::Standing;
use json::Writer;
use std::alloc::{AllocError, Global};

/// The outcome of writing members to an object. An Err means out of memory, and a part may have been
/// written.
type Put = Result<(), AllocError>;

/// What begins the object that answers a line: the number of the line, and the id of its request.
#[derive(Clone, Copy)]
pub struct Head<'a> {
    pub line: usize,
    pub id: Option<&'a RequestId>,
}

/// The line of the reply to a call, as an object. If the call was refused, its last member explains why.
pub fn json_reply_line(
    alloc: Global,
    head: Head,
    setup: &Setup,
    call: Call,
    reply: Reply,
) -> Result<Vec<u8>, AllocError>
    ensures { IfOk result (λ text. text.items
        ≡ json_answer_line head.entry.line (head_id head.entry)
        (explained_answer head.entry.line setup.now call reply)) }
{
    let mut json = begin_line(alloc, head)?;
    put_reply(&mut json, setup, call, reply)?;
    let explanation = explain_reply(alloc, head.line, setup, call, reply)?;
    put_explanation(&mut json, explanation.as_ref())?;
    end_line(json)
}

/// Writes the sentence about a refused call, if there is one.
fn put_explanation(json: &mut Writer, explanation: Option<&String>) -> Put
    ensures { Puts result json.old json.new
        (members_of (sentence_fields (option_map (λ text. string_bytes text.now) explanation.entry))) }
{
    match explanation {
        Some(sentence) => put_text(json, "explanation", sentence.as_str()),
        None => Ok(()),
    }
}

/// The line of a refusal, as an object. `line` has the bytes of the refused line.
pub fn json_refusal_line(
    alloc: Global,
    line: &[u8],
    refusal: InputRefusal,
) -> Result<Vec<u8>, AllocError>
    ensures { IfOk result (λ text. text.items ≡ json_refusal_line line.now refusal) }
{
    let id = id_of_line(alloc, line)?;
    let explanation = explain_refusal(alloc, line, refusal)?;
    let head = Head {
        line: refused_line(refusal),
        id: id.as_ref(),
    };
    let mut json = begin_line(alloc, head)?;
    put_text(&mut json, "answer", "refused")?;
    put_input_refusal(&mut json, refusal)?;
    put_text(&mut json, "explanation", explanation.as_str())?;
    end_line(json)
}

/// The line of a scheduler's saved state, as an object. The scheduler stays as it is.
pub fn json_saved_line(alloc: Global, head: Head, sched: &Sched) -> Result<Vec<u8>, AllocError>
    ensures { IfOk result (λ text. text.items ≡ json_saved_line head.entry.line (head_id head.entry) sched.now) }
{
    let saved = sched.save(alloc)?.write(alloc)?;
    let mut json = begin_line(alloc, head)?;
    put_text(&mut json, "answer", "saved")?;
    json.key("saved")?;
    end_with_text(json, &saved)
}

/// The line of all objects, as an object. The scheduler stays as it is.
pub fn json_list_line(alloc: Global, head: Head, sched: &Sched) -> Result<Vec<u8>, AllocError>
    ensures { IfOk result (λ text. text.items ≡ json_list_line head.entry.line (head_id head.entry) sched.now) }
{
    let mut json = begin_line(alloc, head)?;
    put_text(&mut json, "answer", "listed")?;
    json.key("objects")?;
    json.begin_array()?;
    let count = sched.setup().len();
    for number in 0..count {
        put_object(&mut json, sched, number as u32)?;
    }
    json.end_array()?;
    end_line(json)
}

/// The beginning of the object that answers a line.
fn begin_line(alloc: Global, head: Head) -> Result<Writer, AllocError>
    ensures { IfOk result (λ json. (json.before ≡ [])
        × (json.tokens ≡ first_tokens head.entry.line (head_id head.entry))) }
{
    let mut json = Writer::new(Vec::new(alloc));
    json.begin_object()?;
    json.key("line")?;
    json.u64(head.line as u64)?;
    put_id(&mut json, head.id)?;
    Ok(json)
}

/// Writes the id of a request, if it has one.
fn put_id(json: &mut Writer, id: Option<&RequestId>) -> Put
    ensures { Puts result json.old json.new (id_tokens (option_map (λ id. id_view id.now) id.entry)) }
{
    match id {
        Some(RequestId::Number(number)) => put_number(json, "id", *number),
        Some(RequestId::Text(text)) => put_text(json, "id", text.as_str()),
        None => Ok(()),
    }
}

/// The line of an object, after its last member.
fn end_line(json: Writer) -> Result<Vec<u8>, AllocError>
    requires { json.before ≡ [] }
    ensures { IfOk result (λ text. text.items ≡ line_of (print (json.tokens ++ end_object ∷ []))) }
{
    let mut json = json;
    json.end_object()?;
    let mut text = json.into_inner();
    text.push(b'\n')?;
    Ok(text)
}

/// The line of an object, after the key of its last member, whose value is this text.
fn end_with_text(json: Writer, value: &[u8]) -> Result<Vec<u8>, AllocError>
    requires { json.before ≡ [] }
    ensures { IfOk result (λ text. text.items ≡ line_of (print json.tokens ++ (value.now ++ codes "}"))) }
{
    let mut text = json.into_inner();
    text.extend_from_slice(value)?;
    text.push(b'}')?;
    text.push(b'\n')?;
    Ok(text)
}

/// Writes the kind of the answer to a call, and its fields.
fn put_reply(json: &mut Writer, setup: &Setup, call: Call, reply: Reply) -> Put
    ensures { Puts result json.old json.new (answer_members (answer_of setup.now call reply)) }
{
    match reply {
        Reply::Taken { object, run } => {
            put_text(json, "answer", "taken")?;
            put_number(json, "run", run)?;
            put_text(json, "name", name_or_empty(setup, object))
        }
        Reply::PutOff { object, until } => {
            put_text(json, "answer", "putoff")?;
            put_next(json, until, name_or_empty(setup, object))
        }
        Reply::Idle { next } => {
            put_text(json, "answer", "idle")?;
            put_time(json, "next_check", next)
        }
        Reply::AtLimit => put_text(json, "answer", "atlimit"),
        Reply::Standing {
            standing,
            changed,
            next,
        } => put_standing(json, setup, call, standing, changed, next),
        Reply::Freed { next } => {
            put_text(json, "answer", "freed")?;
            put_next(json, Some(next), asked_name(setup, call))
        }
        Reply::Done => {
            put_text(json, "answer", "done")?;
            put_text(json, "name", asked_name(setup, call))
        }
        Reply::Refused(refusal) => {
            put_text(json, "answer", "refused")?;
            put_refusal(json, call_refusal_text(refusal))
        }
    }
}

/// Writes the kind of an answer that is a standing, and its fields.
fn put_standing(
    json: &mut Writer,
    setup: &Setup,
    call: Call,
    standing: Standing,
    changed: bool,
    next: Option<u64>,
) -> Put
    ensures { Puts result json.old json.new (answer_members (answer_of setup.now call (Reply.Standing standing changed next))) }
{
    put_text(json, "answer", "standing")?;
    put_state(json, standing)?;
    put_flag(json, "changed", changed)?;
    put_flag(json, "flapping", standing.flapping)?;
    put_next(json, next, asked_name(setup, call))
}

/// Writes the object with this number, as a value of an array.
fn put_object(json: &mut Writer, sched: &Sched, object: u32) -> Put
    requires { object < object_count sched.now.setup }
    ensures { Puts result json.old json.new (object_tokens sched.now object) }
{
    let standing = sched.standing(object);
    let next = sched.next_of(object);
    let run = sched.running(object);
    let name = sched.setup().name(object);
    put_listed(json, standing, next, run, name)
}

/// Writes an object: its standing, the time of its next check, the number of its run, and its full name.
fn put_listed(
    json: &mut Writer,
    standing: Standing,
    next: Option<u64>,
    run: Option<u64>,
    name: &str,
) -> Put
    ensures { Puts result json.old json.new (listed_tokens (listed_answer standing next run name.now)) }
{
    json.begin_object()?;
    put_state(json, standing)?;
    put_flag(json, "flapping", standing.flapping)?;
    put_time(json, "next_check", next)?;
    put_time(json, "run", run)?;
    put_text(json, "name", name)?;
    json.end_object()
}

/// Writes the state of an object, its kind and the attempt.
fn put_state(json: &mut Writer, standing: Standing) -> Put
    ensures { Puts result json.old json.new (members_of (state_field standing ∷ kind_field standing ∷ attempt_field standing ∷ [])) }
{
    put_text(json, "state", state_text(standing))?;
    put_text(json, "kind", standing.kind.word())?;
    put_number(json, "attempt", standing.attempt as u64)
}

/// Writes the time of the next check, and the name of the object.
fn put_next(json: &mut Writer, next: Option<u64>, name: &str) -> Put
    ensures { Puts result json.old json.new (members_of (next_field next ∷ name_field name.now ∷ [])) }
{
    put_time(json, "next_check", next)?;
    put_text(json, "name", name)
}

/// Writes why an input is refused, and at which place.
fn put_input_refusal(json: &mut Writer, refusal: InputRefusal) -> Put
    ensures { Puts result json.old json.new (members_of (refusal_fields refusal)) }
{
    match refusal {
        InputRefusal::Setup(error) => {
            put_refusal(json, error.reason())?;
            put_place(json, error.place())
        }
        InputRefusal::Saved(fault) => {
            put_refusal(json, saved_reason(fault))?;
            put_index(json, saved_index(fault))
        }
        InputRefusal::Line { fault, .. } => put_refusal(json, line_fault_text(fault)),
    }
}

/// Writes the code and the name of a refusal, which have a space between them.
fn put_refusal(json: &mut Writer, reason: &str) -> Put
    ensures { Puts result json.old json.new (members_of (refusal_field reason.now ∷ [])) }
{
    let (code, name) = code_and_name(reason);
    put_text(json, "code", code)?;
    put_text(json, "reason", name)
}

/// The parts before and after the first space. Without a space, the first part is the whole text.
fn code_and_name(reason: &str) -> (&str, &str)
    ensures before { result.0.now ≡ before_first is_space reason.now }
    ensures after { result.1.now ≡ after_first is_space reason.now }
{
    match reason.split_once(' ') {
        Some(parts) => parts,
        None => (reason, ""),
    }
}

/// Writes a place in a setup document, if there is one.
fn put_place(json: &mut Writer, place: Option<Place>) -> Put
    ensures { Puts result json.old json.new (members_of (place_fields place)) }
{
    let Some(place) = place else {
        return Ok(());
    };
    put_text(json, "part", place.part.name())?;
    put_index(json, place.index)
}

/// Writes an index, if there is one.
fn put_index(json: &mut Writer, index: Option<usize>) -> Put
    ensures { Puts result json.old json.new (members_of (index_fields index)) }
{
    match index {
        Some(index) => put_number(json, "index", index as u64),
        None => Ok(()),
    }
}

/// Writes a member whose value is a text.
fn put_text(json: &mut Writer, name: &str, text: &str) -> Put
    ensures { Puts result json.old json.new (key name.now ∷ string text.now ∷ []) }
{
    json.key(name)?;
    json.string(text)
}

/// Writes a member whose value is a number.
fn put_number(json: &mut Writer, name: &str, value: u64) -> Put
    ensures { Puts result json.old json.new (key name.now ∷ number (decimal value) ∷ []) }
{
    json.key(name)?;
    json.u64(value)
}

/// Writes a member whose value is a time in milliseconds, or null.
fn put_time(json: &mut Writer, name: &str, time: Option<u64>) -> Put
    ensures { Puts result json.old json.new (key name.now ∷ time_token time ∷ []) }
{
    json.key(name)?;
    match time {
        Some(time) => json.u64(time),
        None => json.null(),
    }
}

/// Writes a member whose value is true or false.
fn put_flag(json: &mut Writer, name: &str, flag: bool) -> Put
    ensures { Puts result json.old json.new (key name.now ∷ boolean flag ∷ []) }
{
    json.key(name)?;
    json.boolean(flag)
}

/// The number of the line that is refused: a setup is line 1, and a saved state line 2.
fn refused_line(refusal: InputRefusal) -> usize
    ensures { result ≡ refused_line refusal }
{
    match refusal {
        InputRefusal::Setup(_) => 1,
        InputRefusal::Saved(_) => 2,
        InputRefusal::Line { line, .. } => line,
    }
}
