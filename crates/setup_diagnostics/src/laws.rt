//! Laws of the definitions. Each is the contract of a function without parameters and code.

ghost use Rattle.std.specs.Prelude.{◌≡◌, ℕ, Err, List, None, Ok, Option, Some, false, is_some, slice_get, true};
ghost use Rattle.serde_json.specs.{Data.Data, Find.get, Written.has_float};
ghost use Rattle.setup_model.specs.Member.{Row, is_required};
ghost use Rattle.setup_model.specs.ParsedSetup.{ParsedSetup};
ghost use Rattle.setup_reader.specs.{JsonTree.tree_of, Reading.parsed_setup, Shapes.object_fault};
ghost use Rattle.check_saved_state.specs.Reading.{draft_in};
ghost use Rattle.check_saved_state.specs.declared.fault.SavedFault.TheVariants as SavedFault;
ghost use Rattle.setup_diagnostics.specs.{Kinds.IsReadAs, Numbers.has_non_u64, SavedShapes.saved_shape_fault};

/// Each number anywhere in a document of the right shape is a whole number from 0 to 2^64 - 1 (`whole`). So
/// no number is a float (`no_float`). The clauses of [`compact_document`](crate::compact_document) about documents
/// without a float therefore hold of every valid setup.
pub fn read_numbers_are_whole()
    ensures whole { (document : List ℕ) (tree : Data) (parsed : ParsedSetup)
        → tree_of document ≡ Some tree → parsed_setup tree ≡ Ok parsed
        → has_non_u64 tree ≡ false }
    ensures no_float { (document : List ℕ) (tree : Data) (parsed : ParsedSetup)
        → tree_of document ≡ Some tree → parsed_setup tree ≡ Ok parsed → has_float tree ≡ false }
{}

/// An object in which the table of members finds no fault has each member that is required (`required`). Each member
/// that it has is read as the value that it has, by the reader of its kind: what a reader gives for a value of another
/// kind never shows.
pub fn members_are_read_by_their_kinds()
    ensures required { (ms : List Row) (d : Data) (i : ℕ) (m : Row) → object_fault ms d ≡ None
        → slice_get ms i ≡ Some m → is_required m ≡ true → is_some (get m.name d) ≡ true }
    ensures read { (ms : List Row) (d value : Data) (i : ℕ) (m : Row) → object_fault ms d ≡ None
        → slice_get ms i ≡ Some m → get m.name d ≡ Some value → IsReadAs m.kind m d value }
{}

/// If a saved state is refused for its shape, there is a fault that its explanation names: one of the saved state
/// itself, or one of the object at the index of the refusal.
pub fn each_refusal_of_a_shape_has_a_fault()
    ensures { (tree : Data) → (index : Option ℕ) → draft_in tree ≡ Err (SavedFault.Shape index)
        → is_some (saved_shape_fault tree index) ≡ true }
{}
