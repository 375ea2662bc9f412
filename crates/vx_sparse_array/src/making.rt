//! How sparse arrays are made.

ghost use Rattle.std.specs.Prelude.{◌≡◌, None};
ghost use Rattle.vx_base.specs.Answers.{Makes};
ghost use Rattle.vx_base.specs.PlainType.{same_type};
ghost use Rattle.vx_sparse_array.specs.Refused.{parts_refusal};
ghost use Rattle.vx_model.specs.Refusals.{sparse_refusal};
ghost use Rattle.vx_model.specs.Tree.{sparse, sparse_of};
ghost use Rattle.vx_model.specs.TreeType.{tree_type};

use crate::array::SparseArray;
use crate::encode::Sparse;
use std::alloc::Global;
use vx_array::{ArrayRef, Patches};
use vx_base::{Refused, Scalar, VortexError};

impl Sparse {
    /// A sparse array of `len` rows: the values at the indices, the fill in every other row; offset 0. Refuses
    /// MismatchedTypes where the values are of another type than the fill, then as `Patches::new` does, and NoMemory.
    /// Indices, values and fill come back.
    pub fn try_new(
        alloc: Global,
        indices: ArrayRef,
        values: ArrayRef,
        len: u64,
        fill_value: Scalar,
    ) -> Result<SparseArray, Refused<(ArrayRef, ArrayRef, Scalar)>>
        ensures { Makes (parts_refusal len indices values fill_value) (sparse len 0 indices values fill_value) (indices, values, fill_value) result }
    {
        if !are_of_type(&values, &fill_value) {
            return Err(Refused {
                error: VortexError::MismatchedTypes,
                inputs: (indices, values, fill_value),
            });
        }
        match Patches::new(len, 0, indices, values) {
            Ok(patches) => over_patches(alloc, patches, fill_value),
            Err(refused) => {
                let Refused { error, inputs } = refused;
                let (indices, values) = inputs;
                Err(Refused {
                    error,
                    inputs: (indices, values, fill_value),
                })
            }
        }
    }

    /// A sparse array of patches, with the fill in every other row. Refuses MismatchedTypes where the values of the patches
    /// are of another type than the fill, and NoMemory. Patches and fill come back.
    pub fn try_new_from_patches(
        alloc: Global,
        patches: Patches,
        fill_value: Scalar,
    ) -> Result<SparseArray, Refused<(Patches, Scalar)>>
        ensures { Makes (sparse_refusal patches fill_value) (sparse_of patches fill_value) (patches, fill_value) result }
    {
        match ArrayRef::sparse(alloc, patches, fill_value) {
            Ok(array) => Ok(SparseArray { array }),
            Err(refused) => Err(refused),
        }
    }
}

// Whether values are of the type of a fill.
pub(crate) fn are_of_type(values: &ArrayRef, fill: &Scalar) -> bool
    ensures { result ≡ same_type (tree_type values.now) fill.now.dtype }
{
    *values.dtype() == *fill.dtype()
}

// A sparse array of patches of the fill's type. Refuses NoMemory alone, and hands the parts back.
fn over_patches(
    alloc: Global,
    patches: Patches,
    fill: Scalar,
) -> Result<SparseArray, Refused<(ArrayRef, ArrayRef, Scalar)>>
    requires { sparse_refusal patches fill ≡ None }
    ensures { Makes None (sparse_of patches fill) (patches.indices, patches.values, fill) result }
{
    match Sparse::try_new_from_patches(alloc, patches, fill) {
        Ok(array) => Ok(array),
        Err(refused) => {
            let Refused { error, inputs } = refused;
            let (patches, fill) = inputs;
            let (indices, values) = patches.into_parts();
            Err(Refused {
                error,
                inputs: (indices, values, fill),
            })
        }
    }
}
