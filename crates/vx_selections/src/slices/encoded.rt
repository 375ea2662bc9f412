//! Slice of encoded columns that needn't be decoded: a constant or a sequence is shorter, and a dictionary has a part of its
//! codes.

ghost use Rattle.std.specs.Prelude.{◌≡◌, ◌<◌, IsTrue, length};
ghost use Rattle.vx_base.specs.Answers.{OrMemory};
ghost use Rattle.vx_base.specs.Masks.{is_part};
ghost use Rattle.vx_model.specs.Column.{column_of};
ghost use Rattle.vx_model.specs.Rows.{rows};
ghost use Rattle.vx_model.specs.Tree.{constant, dict, sequence};
ghost use Rattle.vx_model.specs.WellFormed.{WellFormed};
ghost use Rattle.vx_rules.specs.Selections.{sliced};

use super::part_integers;
use crate::over_values::over_values;
use std::alloc::Global;
use vx_array::ArrayRef;
use vx_base::{Cell, Nullability, PType, Scalar, VortexResult};
use vx_flat::sequence_at;

/// `slice` of a constant of `len` rows: the scalar in fewer rows.
pub(super) fn part_constant(
    alloc: Global,
    value: &Scalar,
    len: u64,
    start: u64,
    end: u64,
) -> VortexResult<ArrayRef>
    requires { IsTrue (is_part len start end) }
    ensures { OrMemory result (λ out. column_of out ≡ sliced (column_of (constant value.now len)) start end) }
{
    let value = value.copy(alloc)?;
    Ok(ArrayRef::constant(value, end - start))
}

/// `slice` of a dictionary: the codes' part, over a copy of the values.
pub(super) fn part_dict(
    alloc: Global,
    codes: &ArrayRef,
    values: &ArrayRef,
    start: u64,
    end: u64,
) -> VortexResult<ArrayRef>
    requires well { WellFormed (dict codes.now values.now) }
    requires part { IsTrue (is_part (length (rows codes.now)) start end) }
    ensures { OrMemory result (λ out. column_of out ≡ sliced (column_of (dict codes.now values.now)) start end) }
{
    let chosen = part_integers(alloc, codes, start, end)?;
    over_values(alloc, chosen, values)
}

/// `slice` of a sequence, which takes no memory: a sequence from row `start` on.
pub(super) fn part_sequence(
    ptype: PType,
    nullability: Nullability,
    first: i128,
    step: i128,
    len: u64,
    start: u64,
    end: u64,
) -> VortexResult<ArrayRef>
    requires well { WellFormed (sequence ptype nullability first step len) }
    requires part { IsTrue (is_part len start end) }
    ensures { OrMemory result (λ out. column_of out ≡ sliced (column_of (sequence ptype nullability first step len)) start end) }
{
    // Row `len` isn't a row, and may lie outside the type.
    if start == end {
        return ArrayRef::sequence(ptype, nullability, first, step, 0);
    }
    match sequence_at(ptype, first, step, len, start) {
        Cell::Int(from) => ArrayRef::sequence(ptype, nullability, from, step, end - start),
        Cell::Null | Cell::Bool(_) | Cell::Bytes(_) => unreachable!(),
    }
}
