//! Writes a saved state as one line of JSON, and reads it.
use crate::draft::{ObjectDraft, SavedDraft};
use crate::fault::SavedFault;
use crate::invariants::verify_possible;
use crate::json_writer::write_saved;
use crate::reading::{read_draft, verify_format};
use crate::saved::{MAX_SAVED_BYTES, Saved, SavedObject};
use crate::verification::verify_draft;
use json::Writer;
use serde_json::Value;
use setup_model::Fault;
use setup_reader::read_tree;
use std::alloc::{AllocError, Global};

impl Saved {
    ghost use Rattle.std.specs.Prelude.{◌≡◌, ◌<◌, ◌≤◌, ◌++◌, Err, IfOk, Ok, length};
    ghost use Rattle.serde_json.specs.View.{view};
    ghost use Rattle.setup_reader.specs.Feeds.{HasNoLineFeed};
    ghost use Rattle.check_saved_state.specs.Saved.{IsSaved};
    ghost use Rattle.check_saved_state.specs.SavedFault.{IsExpectedResult};
    ghost use Rattle.check_saved_state.specs.Text.{saved_of_text, saved_of_tree, saved_text};

    /// Writes the saved state in JSON's compact form, without a line feed in it or at its end. The text is
    /// read as the same saved state.
    ///
    /// An error means out of memory. There is no other error.
    #[tactic(auto, using(crate::proofs::InverseLemmas::one_line, crate::proofs::InverseLemmas::fits, crate::proofs::InverseLemmas::inverse))]
    pub fn write(&self, alloc: Global) -> Result<Vec<u8>, AllocError>
        ensures text { IfOk result (λ text. text.items ≡ saved_text self.now) }
        ensures one_line { IfOk result (λ text. HasNoLineFeed text.items) }
        ensures fits { IfOk result (λ text. length text.items ≤ 16777216) }
        ensures reads_back { IfOk result (λ text. saved_of_text text.items ≡ Ok self.now) }
    {
        let text = self.write_after(alloc, Vec::new(alloc))?;
        Ok(text)
    }

    /// Writes the same text behind other bytes, in their buffer.
    ///
    /// An error means out of memory. There is no other error.
    pub fn write_after(&self, alloc: Global, front: Vec<u8>) -> Result<Vec<u8>, AllocError>
        ensures text { IfOk result (λ text. text.items ≡ front.items ++ saved_text self.now) }
        ensures saved { IfOk result (λ text. IsSaved self.now) }
    {
        let mut out = Writer::new(front);
        write_saved(&mut out, alloc, self)?;
        Ok(out.into_inner())
    }

    /// Reads a saved state from a text. The members can be in any order. An error is the first refusal.
    ///
    /// `Memory` can come in place of any other result except `TooLong`.
    pub fn read(alloc: Global, text: &[u8]) -> Result<Saved, SavedFault>
        ensures exact { IsExpectedResult (λ saved. saved) result (saved_of_text text.now) }
        ensures too_long { 16777216 < length text.now → result ≡ Err SavedFault.TooLong }
    {
        let tree = read_saved_tree(alloc, text)?;
        Saved::read_tree(alloc, &tree)
    }

    /// Reads a saved state from the tree of its text, which [`read_saved_tree`] reads. An error is the first
    /// refusal.
    ///
    /// `Memory` can come in place of any other result.
    pub fn read_tree(alloc: Global, tree: &Value) -> Result<Saved, SavedFault>
        ensures { IsExpectedResult (λ saved. saved) result (saved_of_tree (view tree.now)) }
    {
        verify_format(tree)?;
        let draft = read_draft(alloc, tree)?;
        saved_of_draft(alloc, &draft)
    }
}

ghost use Rattle.std.specs.Prelude.{◌≡◌, ◌<◌, All, Err, IfOk, length, ok_or};
ghost use Rattle.serde_json.specs.View.{view};
ghost use Rattle.setup_reader.specs.JsonTree.{tree_of};
ghost use Rattle.check_saved_state.specs.SavedFault.{IsExpectedResult};
ghost use Rattle.check_saved_state.specs.Text.{saved_tree_of};
ghost use Rattle.check_saved_state.specs.Verification.{HasBoundedAttempts, verified_saved};

/// Reads the tree of the text of a saved state. An error is `TooLong` or `NotJson`.
///
/// `Memory` can come in place of any other result except `TooLong`.
pub fn read_saved_tree(alloc: Global, text: &[u8]) -> Result<Value, SavedFault>
    ensures exact { IsExpectedResult view result (saved_tree_of text.now) }
    ensures too_long { 16777216 < length text.now → result ≡ Err SavedFault.TooLong }
{
    if text.len() > MAX_SAVED_BYTES {
        return Err(SavedFault::TooLong);
    }
    tree_of(alloc, text)
}

/// The tree of a text.
fn tree_of(alloc: Global, text: &[u8]) -> Result<Value, SavedFault>
    ensures { IsExpectedResult view result (ok_or (tree_of text.now) SavedFault.NotJson) }
{
    match read_tree(alloc, text) {
        Ok(tree) => Ok(tree),
        Err(Fault::Memory) => Err(SavedFault::Memory),
        Err(_) => Err(SavedFault::NotJson),
    }
}

fn saved_of_draft(alloc: Global, draft: &SavedDraft<'_>) -> Result<Saved, SavedFault>
    ensures { IsExpectedResult (λ saved. saved) result (verified_saved draft.now) }
{
    verify_draft(alloc, draft)?;
    let objects = objects_of(alloc, &draft.objects)?;
    verify_possible(alloc, draft.runs, &objects)?;
    Ok(Saved::of(draft.start, draft.runs, objects))
}

/// The saved objects of these drafts.
fn objects_of(alloc: Global, drafts: &[ObjectDraft<'_>]) -> Result<Vec<SavedObject>, AllocError>
    requires { All HasBoundedAttempts drafts.now }
    ensures { IfOk result (λ objects. objects.items ≡ drafts.now) }
{
    let mut objects = Vec::with_capacity(alloc, drafts.len())?;
    for draft in drafts {
        objects.push(draft.to_saved(alloc)?)?;
    }
    Ok(objects)
}
