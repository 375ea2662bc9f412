//! Plain columns made of slices, and bundles over them.

ghost use Rattle.std.specs.Prelude.{◌≡◌, IfOk, IsTrue, true};
ghost use Rattle.vx_base.specs.PlainType.{is_integer};
ghost use Rattle.vx_model.specs.Plain.{IsPlain};
ghost use Rattle.vx_model.specs.TreeType.{tree_type};

use crate::making::{bits, integers};
use std::alloc::Global;
use vx_array::ArrayRef;
use vx_base::Nullability::{NonNullable, Nullable};
use vx_base::{ExecutionCtx, PType, VortexError, VortexResult, Words};
use vx_scheme::{ArrayAndStats, GenerateStatsOptions};

/// A context with the one sample word 0.
pub fn context(alloc: Global) -> VortexResult<ExecutionCtx> {
    let words = Words::from_vec(vec![in alloc; 0]?);
    Ok(ExecutionCtx::new(alloc, words))
}

/// The plain column of a type with these rows, None for null; nullable where some row is null. Refuses OutOfBounds where a
/// row doesn't fit the type.
pub fn column(alloc: Global, ptype: PType, rows: &[Option<i128>]) -> VortexResult<ArrayRef>
    ensures integer { IfOk result (λ array. IsTrue (is_integer (tree_type array))) }
    ensures plain { IfOk result (λ array. IsPlain array) }
{
    let mut wholes = Vec::new(alloc);
    let mut valid = Vec::new(alloc);
    for row in rows {
        wholes.push(row.unwrap_or(0))?;
        valid.push(row.is_some())?;
    }
    let nullability = if rows.iter().all(|row| row.is_some()) {
        NonNullable
    } else {
        Nullable
    };
    let values = integers(alloc, ptype, wholes.as_slice())?;
    match ArrayRef::primitive(values, Some(bits(alloc, valid.as_slice())?), nullability) {
        Ok(array) if array.is_plain() => Ok(array),
        Ok(_) => Err(VortexError::MismatchedTypes),
        Err(refused) => Err(refused.error),
    }
}

/// A bundle over that column without any statistics yet, whose options ask for distinct values.
pub fn bundle(alloc: Global, ptype: PType, rows: &[Option<i128>]) -> VortexResult<ArrayAndStats>
    ensures integer { IfOk result (λ column. IsTrue (is_integer (tree_type column.array))) }
    ensures asked { IfOk result (λ column. column.options.count_distinct_values ≡ true) }
{
    let options = GenerateStatsOptions {
        count_distinct_values: true,
    };
    Ok(ArrayAndStats::new(column(alloc, ptype, rows)?, options))
}
