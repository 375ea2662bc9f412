//! Rows that are read where they stand and their bounds: integers between two constants in one pass, others by a comparison with each
//! bound.

ghost use Rattle.std.specs.Prelude.{◌≡◌, IsTrue, length, map, replicate, true};
ghost use Rattle.vx_base.specs.Answers.{Answers};
ghost use Rattle.vx_base.specs.CellValue.{cell_value};
ghost use Rattle.vx_base.specs.PlainValue.{int, truth};
ghost use Rattle.vx_model.specs.Refusals.{validity_length};
ghost use Rattle.vx_model.specs.Rows.{valid_rows};
ghost use Rattle.vx_rows.specs.Pairs.{rows_within, whole_within};
ghost use Rattle.vx_rows.specs.Readable.{is_whole, lent_rows};
ghost use Rattle.vx_values.specs.IntsOf.{wholes_of};

use crate::comparing::compared_rows;
use crate::kernels::holds_within;
use crate::lent::Lent;
use crate::truths::Truths;
use std::alloc::Global;
use vx_base::{Cell, Mask, VortexResult};
use vx_rules::BetweenOptions;
use vx_values::{Ints, copy_validity};

/// Whether each row lies between its bounds, of columns that are equally long.
pub(super) fn rows_within(
    alloc: Global,
    options: BetweenOptions,
    rows: Lent<'_>,
    low: Lent<'_>,
    high: Lent<'_>,
) -> VortexResult<Truths>
    requires rows { IsTrue (is_whole rows) }
    requires low { IsTrue (is_whole low) }
    requires high { IsTrue (is_whole high) }
    requires lows { length (lent_rows rows) ≡ length (lent_rows low) }
    requires highs { length (lent_rows rows) ≡ length (lent_rows high) }
    ensures { Answers result (rows_within options (lent_rows rows.entry) (lent_rows low.entry) (lent_rows high.entry)) }
{
    match (rows, low, high) {
        (Lent::Ints(values, valid), Lent::Same(least, _), Lent::Same(greatest, len)) => {
            within_same(alloc, options, values, valid, least, greatest, len)
        }
        _ => within_each(alloc, options, rows, low, high),
    }
}

// `rows_within` of a column of integers and two values in every row.
fn within_same(
    alloc: Global,
    options: BetweenOptions,
    values: &Ints,
    valid: &Option<Mask>,
    low: Cell<'_>,
    high: Cell<'_>,
    len: u64,
) -> VortexResult<Truths>
    requires whole { validity_length valid.now (length (wholes_of values.now)) ≡ true }
    requires lengths { length (valid_rows valid.now (map int (wholes_of values.now))) ≡ len }
    ensures { Answers result (rows_within options (valid_rows valid.now (map int (wholes_of values.now))) (replicate len (cell_value low.entry)) (replicate len (cell_value high.entry))) }
{
    let least = low.integer();
    let greatest = high.integer();
    match (least, greatest) {
        (Some(low), Some(high)) => within_wholes(alloc, options, values, valid, low, high),
        _ => {
            let (lows, highs) = (Lent::Same(low, len), Lent::Same(high, len));
            within_each(alloc, options, Lent::Ints(values, valid), lows, highs)
        }
    }
}

// Whether each integer lies between two others.
fn within_wholes(
    alloc: Global,
    options: BetweenOptions,
    values: &Ints,
    valid: &Option<Mask>,
    low: i128,
    high: i128,
) -> VortexResult<Truths>
    requires { validity_length valid.now (length (wholes_of values.now)) ≡ true }
    ensures { Answers result (valid_rows valid.now (map truth (map (whole_within options low high) (wholes_of values.now)))) }
{
    let bits = holds_within(alloc, options, values, low, high)?;
    let valid = copy_validity(alloc, valid)?;
    Ok(Truths::new(bits, valid))
}

// `rows_within` by two comparisons.
fn within_each(
    alloc: Global,
    options: BetweenOptions,
    rows: Lent<'_>,
    low: Lent<'_>,
    high: Lent<'_>,
) -> VortexResult<Truths>
    requires rows { IsTrue (is_whole rows) }
    requires low { IsTrue (is_whole low) }
    requires high { IsTrue (is_whole high) }
    requires lows { length (lent_rows rows) ≡ length (lent_rows low) }
    requires highs { length (lent_rows rows) ≡ length (lent_rows high) }
    ensures { Answers result (rows_within options (lent_rows rows.entry) (lent_rows low.entry) (lent_rows high.entry)) }
{
    let above = compared_rows(alloc, options.lower_operator(), low, rows)?;
    let below = compared_rows(alloc, options.upper_operator(), rows, high)?;
    above.and(alloc, &below)
}
