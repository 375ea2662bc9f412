//! Arrays whose root is DateTimeParts.

ghost use Rattle.std.specs.Prelude.{◌≡◌, MatchResult};
ghost use Rattle.vx_base.specs.declared.array_id.ArrayId.TheVariants as ids;
ghost use Rattle.vx_model.specs.Nodes.{encoding};

use std::marker::Model;
use vx_array::ArrayRef;
use vx_base::ArrayId;

/// An array whose root is DateTimeParts. Contracts see its tree.
#[derive(Drop)]
pub struct DateTimePartsArray {
    pub(crate) array: ArrayRef,
}

impl Model for DateTimePartsArray {
    ghost use Rattle.std.specs.Prelude.{◌≡◌};
    ghost use Rattle.vx_base.specs.declared.array_id.ArrayId.TheVariants as ids;
    ghost use Rattle.vx_model.specs.Nodes.{encoding};
    ghost use Rattle.vx_model.specs.Tree.{Tree};
    ghost use Rattle.vx_model.specs.TreeCode.{tree_code};

    ghost Value = { Tree };

    ghost coded = { tree_code };

    ghost view = { λ a. a.array };

    ghost invariant = { λ a. encoding a.array ≡ ids.DateTimeParts };
}

impl DateTimePartsArray {
    /// The array as a DateTimePartsArray. The Err hands it back, exactly where its root isn't DateTimeParts.
    pub fn from_array(array: ArrayRef) -> Result<DateTimePartsArray, ArrayRef>
        ensures { MatchResult result (λ made. (made ≡ array) × (encoding array ≡ ids.DateTimeParts)) (λ back. (back ≡ array) × (encoding array ≡ ids.DateTimeParts → ⊥)) }
    {
        if array.encoding_id() == ArrayId::DateTimeParts {
            Ok(DateTimePartsArray { array })
        } else {
            Err(array)
        }
    }

    pub fn as_array(&self) -> &ArrayRef
        ensures tree { result.now ≡ self.now }
        ensures root { encoding self.now ≡ ids.DateTimeParts }
    {
        &self.array
    }

    pub fn into_array(self) -> ArrayRef
        ensures tree { result ≡ self }
        ensures root { encoding self ≡ ids.DateTimeParts }
    {
        self.array
    }
}
