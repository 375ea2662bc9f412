//! Filter of encoded columns that needn't be decoded: a constant is shorter, and a dictionary has some of its codes.

ghost use Rattle.std.specs.Prelude.{◌≡◌, length};
ghost use Rattle.vx_base.specs.Answers.{OrMemory};
ghost use Rattle.vx_model.specs.Column.{column_of};
ghost use Rattle.vx_model.specs.Rows.{rows};
ghost use Rattle.vx_model.specs.Tree.{constant, dict};
ghost use Rattle.vx_model.specs.WellFormed.{WellFormed};
ghost use Rattle.vx_rules.specs.Selections.{filtered};

use super::compacting::true_bits;
use super::kept_integers;
use crate::over_values::over_values;
use std::alloc::Global;
use vx_array::ArrayRef;
use vx_base::{Scalar, VortexResult};

/// `filter` of a constant: the scalar in as many rows as bits are true.
pub(super) fn kept_constant(
    alloc: Global,
    value: &Scalar,
    len: u64,
    keep: &[bool],
) -> VortexResult<ArrayRef>
    requires { length keep.now ≡ len }
    ensures { OrMemory result (λ out. column_of out ≡ filtered (column_of (constant value.now len)) keep.now) }
{
    let value = value.copy(alloc)?;
    Ok(ArrayRef::constant(value, true_bits(keep) as u64))
}

/// `filter` of a dictionary: the codes that are kept, over a copy of the values.
pub(super) fn kept_dict(
    alloc: Global,
    codes: &ArrayRef,
    values: &ArrayRef,
    keep: &[bool],
) -> VortexResult<ArrayRef>
    requires well { WellFormed (dict codes.now values.now) }
    requires bits { length keep.now ≡ length (rows codes.now) }
    ensures { OrMemory result (λ out. column_of out ≡ filtered (column_of (dict codes.now values.now)) keep.now) }
{
    let chosen = kept_integers(alloc, codes, keep)?;
    over_values(alloc, chosen, values)
}
