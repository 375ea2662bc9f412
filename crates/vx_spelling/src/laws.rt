//! The laws of files. Each function does nothing: its clauses are the laws.

ghost use Rattle.std.specs.Prelude.{◌≡◌, ℕ, List, ◌++◌, Some};
ghost use Rattle.vx_model.specs.Tree.{Tree};
ghost use Rattle.vx_spelling.specs.FileSpelling.{AllCanBeStored, file_text, file_at};
ghost use Rattle.vx_spelling.specs.Storable.{IsStorable, NumbersFit};
ghost use Rattle.vx_spelling.specs.TreeSpelling.{tree_text};

/// No spelling of a storable tree is a prefix of another's: bytes begin with the spelling of at most one.
pub fn no_node_text_begins_another()
    ensures { (a b : Tree) (x y : List ℕ) → IsStorable a → NumbersFit a → IsStorable b → NumbersFit b → tree_text a ++ x ≡ tree_text b ++ y → (a ≡ b) × (x ≡ y) }
{}

/// Different lists of trees have different files.
pub fn unlike_lists_have_unlike_files()
    ensures { (ts us : List Tree) → AllCanBeStored ts → AllCanBeStored us → file_text ts ≡ file_text us → ts ≡ us }
{}

/// The file of a list of trees that can be stored is read back as that list, and no other bytes are read.
pub fn files_are_read_back()
    ensures round_trip { (ts : List Tree) → AllCanBeStored ts → file_at (file_text ts) ≡ Some ts }
    ensures canonical { (bytes : List ℕ) (ts : List Tree) → file_at bytes ≡ Some ts → AllCanBeStored ts × (bytes ≡ file_text ts) }
{}
