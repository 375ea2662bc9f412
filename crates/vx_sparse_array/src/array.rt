//! Arrays whose root is a Sparse.

ghost use Rattle.std.specs.Prelude.{◌≡◌, MatchResult};
ghost use Rattle.vx_base.specs.declared.array_id.ArrayId.TheVariants as ids;
ghost use Rattle.vx_model.specs.Nodes.{encoding};

use std::marker::Model;
use vx_array::ArrayRef;
use vx_base::ArrayId;

/// An array whose root is a Sparse. Contracts see its tree.
#[derive(Drop)]
pub struct SparseArray {
    pub(crate) array: ArrayRef,
}

impl Model for SparseArray {
    ghost use Rattle.std.specs.Prelude.{◌≡◌};
    ghost use Rattle.vx_base.specs.declared.array_id.ArrayId.TheVariants as ids;
    ghost use Rattle.vx_model.specs.Nodes.{encoding};
    ghost use Rattle.vx_model.specs.Tree.{Tree};
    ghost use Rattle.vx_model.specs.TreeCode.{tree_code};

    ghost Value = { Tree };

    ghost coded = { tree_code };

    ghost view = { λ a. a.array };

    ghost invariant = { λ a. encoding a.array ≡ ids.Sparse };
}

impl SparseArray {
    /// The array as a SparseArray. The Err hands it back, exactly where its root isn't a Sparse.
    pub fn from_array(array: ArrayRef) -> Result<SparseArray, ArrayRef>
        ensures { MatchResult result (λ sparse. (sparse ≡ array) × (encoding array ≡ ids.Sparse)) (λ back. (back ≡ array) × (encoding array ≡ ids.Sparse → ⊥)) }
    {
        if array.encoding_id() == ArrayId::Sparse {
            Ok(SparseArray { array })
        } else {
            Err(array)
        }
    }

    pub fn as_array(&self) -> &ArrayRef
        ensures tree { result.now ≡ self.now }
        ensures root { encoding self.now ≡ ids.Sparse }
    {
        &self.array
    }

    pub fn into_array(self) -> ArrayRef
        ensures tree { result ≡ self }
        ensures root { encoding self ≡ ids.Sparse }
    {
        self.array
    }
}
