//! Comparisons of texts or binaries with one value in every row.

ghost use Rattle.std.specs.Prelude.{◌≡◌, length, map, replicate, true};
ghost use Rattle.vx_base.specs.Answers.{Answers};
ghost use Rattle.vx_base.specs.CellValue.{cell_value};
ghost use Rattle.vx_base.specs.PlainValue.{bytes, truth};
ghost use Rattle.vx_model.specs.Refusals.{validity_length};
ghost use Rattle.vx_model.specs.Rows.{valid_rows};
ghost use Rattle.vx_rows.specs.Pairs.{bytes_hold, compared_rows};

use super::columns::compared_cells;
use crate::kernels::holds_with_bytes;
use crate::lent::Lent;
use crate::truths::Truths;
use std::alloc::Global;
use vx_base::{ByteRows, Cell, Mask, VortexResult};
use vx_rules::CompareOperator;
use vx_values::copy_validity;

/// `compared_rows` of a column of texts or binaries and one value in every row.
pub(super) fn byte_rows_with_same(
    alloc: Global,
    operator: CompareOperator,
    rows: &ByteRows,
    valid: &Option<Mask>,
    value: Cell<'_>,
    len: u64,
) -> VortexResult<Truths>
    requires whole { validity_length valid.now (length rows.now) ≡ true }
    requires lengths { length (valid_rows valid.now (map bytes rows.now)) ≡ len }
    ensures { Answers result (compared_rows operator (valid_rows valid.now (map bytes rows.now)) (replicate len (cell_value value.entry))) }
{
    match value {
        Cell::Bytes(value) => compared_with_bytes(alloc, operator, rows, valid, value),
        _ => {
            let (left, right) = (Lent::Bytes(rows, valid), Lent::Same(value, len));
            compared_cells(alloc, operator, left, right)
        }
    }
}

// Whether the operator holds between each text or binary and one other. What stands beneath a null is compared too, and not seen.
fn compared_with_bytes(
    alloc: Global,
    operator: CompareOperator,
    rows: &ByteRows,
    valid: &Option<Mask>,
    value: &[u8],
) -> VortexResult<Truths>
    requires { validity_length valid.now (length rows.now) ≡ true }
    ensures { Answers result (valid_rows valid.now (map truth (map (bytes_hold operator value.now) rows.now))) }
{
    let bits = holds_with_bytes(alloc, operator, rows, value)?;
    let valid = copy_validity(alloc, valid)?;
    Ok(Truths::new(bits, valid))
}
