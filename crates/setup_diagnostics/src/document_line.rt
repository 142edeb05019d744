//! The line of a setup document: the text of its tree.

ghost use Rattle.std.specs.Prelude.{◌≡◌, ◌≤◌, ◌<◌, ◌⊎◌, ℕ, IfOk, IfErr, List, Some, false, length};
ghost use Rattle.json.specs.{Lex.tokens, Print.print};
ghost use Rattle.serde_json.specs.View.{view};
ghost use Rattle.serde_json.specs.Written.{compact_text, has_float};
ghost use Rattle.setup_reader.specs.{Feeds.HasNoLineFeed, JsonTree.tree_of};

use serde_json::Value;
use setup_model::{Fault, MAX_DOCUMENT_BYTES};
use std::alloc::Global;

/// Writes the document with this tree in JSON's compact form, without a line feed in it or at its end. The
/// line is read to the same tree (`same`). The clauses `text` and `too_long` are about trees without a float.
/// A valid setup contains no float.
///
/// The error is `TooLong` if the line has more than 16,777,216 bytes, or `Memory`.
pub fn compact_document(alloc: Global, tree: &Value) -> Result<Vec<u8>, Fault>
    ensures same { IfOk result (λ line. (document : List ℕ) → tree_of document ≡ Some (view tree.now)
        → tree_of line.items ≡ Some (view tree.now)) }
    ensures one_line { IfOk result (λ line. HasNoLineFeed line.items) }
    ensures compact { IfOk result (λ line. line.items ≡ print (tokens line.items)) }
    ensures text { IfOk result (λ line. has_float (view tree.now) ≡ false
        → line.items ≡ compact_text (view tree.now)) }
    ensures fits { IfOk result (λ line. length line.items ≤ 16777216) }
    ensures err { IfErr result (λ e. (e ≡ Fault.TooLong) ⊎ (e ≡ Fault.Memory)) }
    ensures too_long { IfErr result (λ e. e ≡ Fault.TooLong → has_float (view tree.now) ≡ false
        → 16777216 < length (compact_text (view tree.now))) }
{
    let Ok(line) = tree.to_vec(alloc) else {
        return Err(Fault::Memory);
    };
    if line.len() > MAX_DOCUMENT_BYTES {
        return Err(Fault::TooLong);
    }
    Ok(line)
}
