//! Take from encoded columns that needn't be decoded: of a constant each index has the same row.

ghost use Rattle.std.specs.List.{list_all};
ghost use Rattle.std.specs.Prelude.{◌≡◌, IsTrue, false};
ghost use Rattle.vx_base.specs.Answers.{OrMemory};
ghost use Rattle.vx_base.specs.PlainType.{allows_null};
ghost use Rattle.vx_model.specs.Column.{column_of};
ghost use Rattle.vx_model.specs.Rows.{rows};
ghost use Rattle.vx_model.specs.Tree.{constant, primitive};
ghost use Rattle.vx_model.specs.WellFormed.{WellFormed, is_place};
ghost use Rattle.vx_rules.specs.Selections.{taken};
ghost use Rattle.vx_values.specs.IntsOf.{ptype_of, wholes_of};

use std::alloc::Global;
use vx_array::ArrayRef;
use vx_base::{Mask, Nullability, Scalar, VortexResult};
use vx_values::Ints;

/// `take` of a constant of `len` rows by indices in bounds, none of which can be null: the scalar in as many rows as indices.
pub(super) fn taken_constant(
    alloc: Global,
    value: &Scalar,
    len: u64,
    codes: &Ints,
    valid: &Option<Mask>,
    nulls: Nullability,
) -> VortexResult<ArrayRef>
    requires well { WellFormed (primitive (ptype_of codes.now) (wholes_of codes.now) valid.now nulls) }
    requires no_null { allows_null nulls ≡ false }
    requires places { IsTrue (list_all (is_place len) (rows (primitive (ptype_of codes.now) (wholes_of codes.now) valid.now nulls))) }
    ensures { OrMemory result (λ out. column_of out ≡ taken (column_of (constant value.now len)) (column_of (primitive (ptype_of codes.now) (wholes_of codes.now) valid.now nulls))) }
{
    let value = value.copy(alloc)?;
    Ok(ArrayRef::constant(value, codes.len()))
}
