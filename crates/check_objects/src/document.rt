//! The tree of a setup document.

ghost use Rattle.std.specs.Prelude.{◌≡◌, ◌<◌, Err, length};
ghost use Rattle.serde_json.specs.View.{view};
ghost use Rattle.setup_model.specs.Fault.{IsExpectedReading};
ghost use Rattle.check_objects.specs.Setup.{document_tree};

use serde_json::Value;
use setup_model::{Fault, MAX_DOCUMENT_BYTES};
use setup_reader::read_tree;
use std::alloc::Global;

/// The tree of a setup document, which is JSON of at most 16,777,216 bytes. `Memory` can come in place of a
/// tree and of `NotJson`.
pub fn read_document(alloc: Global, bytes: &[u8]) -> Result<Value, Fault>
    ensures exact { IsExpectedReading view result (document_tree bytes.now) }
    ensures too_long { 16777216 < length bytes.now → result ≡ Err Fault.TooLong }
{
    if bytes.len() > MAX_DOCUMENT_BYTES {
        return Err(Fault::TooLong);
    }
    read_tree(alloc, bytes)
}
