//! Decoding of a fill and patches: the fill in every row, and then the patches over it.

ghost use Rattle.std.specs.Prelude.{◌≡◌, IsTrue, map};
ghost use Rattle.vx_array.specs.IsDecoded.{IsDecoded};
ghost use Rattle.vx_base.specs.Answers.{OrMemory};
ghost use Rattle.vx_base.specs.PlainType.{is_flat};
ghost use Rattle.vx_base.specs.PlainValue.{int};
ghost use Rattle.vx_model.specs.Rows.{rows};
ghost use Rattle.vx_model.specs.Tree.{sparse_of};
ghost use Rattle.vx_model.specs.TreeType.{tree_type};
ghost use Rattle.vx_values.specs.IntsOf.{wholes_of};

use crate::array::Patches;
use std::alloc::Global;
use vx_base::{Scalar, VortexResult};
use vx_flat::decoded_by_patches;
use vx_values::{Decoded, Ints};

// All rows, from the decoded indices and values of the patches.
pub(crate) fn decoded_sparse(
    alloc: Global,
    patches: &Patches,
    fill: &Scalar,
    indices: &Ints,
    values: Decoded,
) -> VortexResult<Decoded>
    requires flat { IsTrue (is_flat fill.now.dtype) }
    requires typed { tree_type patches.now.values ≡ fill.now.dtype }
    requires indices { map int (wholes_of indices.now) ≡ rows patches.now.indices }
    requires values { IsDecoded patches.now.values values }
    ensures { OrMemory result (λ rows. IsDecoded (sparse_of patches.now fill.now) rows) }
{
    patches.known();
    fill.known();
    let (offset, len) = (patches.offset, patches.array_len);
    decoded_by_patches(alloc, fill, values, indices, offset, len)
}
