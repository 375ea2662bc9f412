//! The laws of metadata and of slices. Each function does nothing: its clause is the law.

ghost use Rattle.std.specs.Prelude.{◌≡◌};
ghost use Rattle.vx_sparse.specs.Metadata.{NumbersFit, spelling};
ghost use Rattle.vx_sparse.specs.Slices.{SparseSlicesCompose};
ghost use Rattle.vx_sparse.specs.declared.metadata.SparseMetadata.{SparseMetadata};

/// Different metadata have different spellings.
pub fn unlike_metadata_have_unlike_spellings()
    ensures { (a b : SparseMetadata) → NumbersFit a → NumbersFit b → spelling a ≡ spelling b → a ≡ b }
{}

/// A slice of a slice of a sparse array is the slice by summed starts.
pub fn sparse_slices_compose()
    ensures { SparseSlicesCompose }
{}
