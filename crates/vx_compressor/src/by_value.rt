//! Columns whose values alone decide the tree: empty, all null, or constant. No scheme is asked about them.

ghost use Rattle.std.specs.Prelude.{◌≡◌, ◌<◌, ◌^◌, true, length, unwrap_or};
ghost use Rattle.vx_base.specs.Answers.{Answers, OrMemory};
ghost use Rattle.vx_base.specs.PlainType.{is_flat};
ghost use Rattle.vx_model.specs.Column.{column_of};
ghost use Rattle.vx_model.specs.Leaf.{smaller_or_plain};
ghost use Rattle.vx_model.specs.Plain.{IsPlain};
ghost use Rattle.vx_model.specs.Rows.{rows};
ghost use Rattle.vx_model.specs.TreeType.{tree_type};
ghost use Rattle.vx_scheme.specs.Contexts.{site_of};
ghost use Rattle.vx_compressor.specs.ByValue.{IsByValue};

use crate::constant::{Shared, null_tree, shared_of, value_tree};
use std::alloc::Global;
use vx_array::ArrayRef;
use vx_base::VortexResult;
use vx_scheme::CompressorContext;

/// The tree that a plain tree's values alone decide, or None where schemes are to be asked. An empty column stays plain, and
/// nulls alone become a constant. Outside samples equal valid rows become a constant, masked where rows are null, if that
/// is smaller; a constant sample says nothing of the whole column.
pub(crate) fn by_value(
    alloc: Global,
    plain: &ArrayRef,
    site: &CompressorContext,
) -> VortexResult<Option<ArrayRef>>
    requires flat { is_flat (tree_type plain.now) ≡ true }
    requires plain { IsPlain plain.now }
    ensures { OrMemory result (IsByValue (column_of plain.now) (site_of site.now)) }
{
    if plain.len() == 0 {
        return Ok(Some(plain.copy(alloc)?));
    }
    match shared_of(plain) {
        Shared::Nothing => Ok(Some(null_tree(alloc, plain)?)),
        Shared::One(row) => {
            if site.is_sample() {
                return Ok(None);
            }
            let tree = value_tree(alloc, plain, row)?;
            Ok(Some(smaller_or_copy(alloc, tree, plain)?))
        }
        Shared::Many => Ok(None),
    }
}

// The tree where it is smaller than the plain tree, else a copy of the plain tree.
fn smaller_or_copy(alloc: Global, tree: ArrayRef, plain: &ArrayRef) -> VortexResult<ArrayRef>
    requires flat { is_flat (tree_type plain.now) ≡ true }
    requires plain { IsPlain plain.now }
    requires few { length (rows plain.now) < 2 ^ 64 }
    ensures { Answers result (smaller_or_plain (column_of plain.now) tree) }
{
    plain.known();
    if plain.nbytes() <= tree.nbytes() {
        return plain.copy(alloc);
    }
    Ok(tree)
}

/// What a site makes of a plain tree: another tree, if one stands, and beside it the plain tree, whose storage timestamps
/// compress too.
pub(crate) struct Beside {
    pub(crate) tree: Option<ArrayRef>,
    pub(crate) plain: ArrayRef,
}

impl Beside {
    /// The tree of the site: the other one, or the plain tree where there is none.
    pub(crate) fn into_tree(self) -> ArrayRef
        ensures { result ≡ unwrap_or self.tree self.plain }
    {
        let Beside { tree, plain } = self;
        match tree {
            Some(tree) => tree,
            None => plain,
        }
    }
}

/// The tree, where it is smaller than the plain tree, beside that: nothing that is compressed grows.
pub(crate) fn smaller(tree: ArrayRef, plain: ArrayRef) -> Beside
    requires flat { is_flat (tree_type plain) ≡ true }
    requires plain { IsPlain plain }
    requires few { length (rows plain) < 2 ^ 64 }
    ensures tree { unwrap_or result.tree result.plain ≡ smaller_or_plain (column_of plain) tree }
    ensures plain { result.plain ≡ plain }
{
    plain.known();
    if tree.nbytes() < plain.nbytes() {
        Beside {
            tree: Some(tree),
            plain,
        }
    } else {
        Beside { tree: None, plain }
    }
}
