//! The elements of lists of texts or binaries, whose bytes move straight into rows.

ghost use Rattle.std.specs.List.{list_all};
ghost use Rattle.std.specs.Prelude.{◌≡◌, ◌-◌, IsTrue, map};
ghost use Rattle.vx_base.specs.Answers.{OrMemory};
ghost use Rattle.vx_base.specs.PlainScalar.{fits};
ghost use Rattle.vx_base.specs.PlainType.{is_bytes};
ghost use Rattle.vx_base.specs.TypeOf.{type_of, value_of};
ghost use Rattle.vx_model.specs.Nested.{list_rows, elements};
ghost use Rattle.vx_model.specs.Offsets.{offsets_of};
ghost use Rattle.vx_model.specs.Plain.{plain_of};

use crate::array::ArrayRef;
use std::alloc::Global;
use vx_base::{ByteRows, DType, Value, VortexResult};
use vx_flat::{byte_elements, element_validity};

// The plain tree of all lists' elements, concatenated, and the offsets between the lists.
pub(super) fn of_byte_lists(
    alloc: Global,
    dtype: &DType,
    values: Vec<Value>,
) -> VortexResult<(ArrayRef, Vec<u64>)>
    requires bytes { IsTrue (is_bytes (type_of dtype.now)) }
    requires fitting { IsTrue (list_all (fits (type_of dtype.now)) (elements (map value_of values.items))) }
    ensures { OrMemory result (λ parts. (parts.0 ≡ plain_of (type_of dtype.now) (elements (map value_of values.items))) × (parts.1.items ≡ offsets_of (list_rows (map value_of values.items)))) }
{
    let valid = element_validity(alloc, values.as_slice())?;
    let (rows, offsets) = byte_elements(alloc, values)?;
    let tree = ArrayRef::var_bin_view_of(ByteRows::from_vec(rows), valid, dtype.copy(alloc)?);
    Ok((tree, offsets))
}
