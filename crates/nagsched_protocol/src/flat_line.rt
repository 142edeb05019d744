//! Lines that are read token by token, without a tree. They are the calls of checks, `take` and
//! `report`, which are nearly all lines. Any other line is read as a tree.

ghost use Rattle.std.specs.Prelude.{◌≡◌, ◌∷◌, [], List, ℕ, IfSome, Ok, Some, option_map, true};
ghost use Rattle.json.specs.Token.{string, number, end_array};
ghost use Rattle.serde_json.specs.Data.{Items, unsigned};
ghost use Rattle.serde_json.specs.Read.{number_of};
ghost use Rattle.check_objects.specs.JsonTree.{tree_of};
ghost use Rattle.nagsched_protocol.specs.Command.{command_by, report_call, take_call};
ghost use Rattle.nagsched_protocol.specs.FlatLine.{data_of_tokens, items_after_bracket};
ghost use Rattle.nagsched_protocol.specs.Line.{command_in};
ghost use Rattle.nagsched_protocol.specs.declared.command.RunCommand.TheVariants as command;

use check_objects::Setup;
use check_sched::Call;
use check_states::Code;
use fast_float::Numeral;
use json::{Reader, Scratch, Token};
use simdutf8::compat::from_utf8;

/// The call of a line that is a `take` or a `report`. None says nothing about the line.
pub(crate) fn flat_call(setup: &Setup, line: &[u8], scratch: &mut Scratch) -> Option<Call>
    ensures { IfSome result (λ call. option_map (command_in (command_by setup.now)) (tree_of line.now)
        ≡ Some (Ok (command.Call call))) }
{
    let Ok(text) = from_utf8(line) else {
        return None;
    };
    let Ok(mut reader) = Reader::new(text, scratch) else {
        return None;
    };
    call_of_tokens(setup, &mut reader)
}

/// The call that these tokens are.
fn call_of_tokens(setup: &Setup, reader: &mut Reader<'_>) -> Option<Call>
    ensures { IfSome result (λ call. option_map (command_in (command_by setup.now)) (data_of_tokens reader.old)
        ≡ Some (Ok (command.Call call))) }
{
    let Some(Token::BeginArray) = reader.next() else {
        return None;
    };
    match next_text(reader)? {
        "take" => take_of_tokens(reader),
        "report" => report_of_tokens(setup, reader),
        _ => None,
    }
}

/// The take whose members these tokens are.
fn take_of_tokens(reader: &mut Reader<'_>) -> Option<Call>
    ensures { IfSome result (λ call. (members : Items)
        × (items_after_bracket reader.old ≡ Some (members, [])) × (take_call members ≡ Ok call)) }
{
    let now = next_number(reader)?;
    if ends(reader) {
        Some(Call::Take { now })
    } else {
        None
    }
}

/// The report whose members these tokens are.
fn report_of_tokens(setup: &Setup, reader: &mut Reader<'_>) -> Option<Call>
    ensures { IfSome result (λ call. (members : Items)
        × (items_after_bracket reader.old ≡ Some (members, [])) × (report_call setup.now members ≡ Ok call)) }
{
    let name = next_text(reader)?;
    let run = next_number(reader)?;
    let code = Code::from_number(next_number(reader)?)?;
    if ends(reader) {
        let object = setup.number(name)?;
        Some(Call::Report { object, run, code })
    } else {
        None
    }
}

/// The next token, if it is a text.
fn next_text<'a>(reader: &mut Reader<'a>) -> Option<&'a str>
    ensures { IfSome result (λ text. reader.old ≡ string text.now ∷ reader.new) }
{
    match reader.next() {
        Some(Token::String(text)) => Some(text),
        _ => None,
    }
}

/// The next token, if it is a whole number from 0 to 2^64 - 1.
fn next_number(reader: &mut Reader<'_>) -> Option<u64>
    ensures { IfSome result (λ n. (digits : List ℕ) × (reader.old ≡ number digits ∷ reader.new)
        × (number_of digits ≡ Some (unsigned n))) }
{
    match reader.next() {
        Some(Token::Number(digits)) => whole_number(digits),
        _ => None,
    }
}

/// The number of a token, if it is whole and at most 2^64 - 1.
fn whole_number(digits: &str) -> Option<u64>
    ensures { IfSome result (λ n. number_of digits.now ≡ Some (unsigned n)) }
{
    let digits = digits.as_bytes();
    if digits.is_empty() || digits[0] == b'-' {
        return None;
    }
    Numeral::scan(digits).to_u64()
}

/// Whether the array ends here, and the line with it.
fn ends(reader: &mut Reader<'_>) -> bool
    ensures { result ≡ true → reader.old ≡ end_array ∷ [] }
{
    reader.take_end_array() && reader.next().is_none()
}
