//! The least and the greatest integer.

ghost use Rattle.std.specs.Prelude.{◌≡◌, length, map, option_map, true};
ghost use Rattle.vx_base.specs.CellValue.{cell_value};
ghost use Rattle.vx_base.specs.PlainValue.{int};
ghost use Rattle.vx_model.specs.Refusals.{validity_length};
ghost use Rattle.vx_model.specs.Rows.{valid_rows};
ghost use Rattle.vx_rules.specs.Aggregates.{greatest, least, valid_values};
ghost use Rattle.vx_values.specs.IntsOf.{wholes_of};

use crate::ints::with_ints;
use crate::kernels::{extremes, extremes_of_valid};
use vx_base::{Cell, Integer, Mask};
use vx_values::Ints;

/// The least and the greatest valid integer.
pub(super) fn integer_extremes(
    values: &Ints,
    valid: &Option<Mask>,
) -> Option<(Cell<'static>, Cell<'static>)>
    requires { validity_length valid.now (length (wholes_of values.now)) ≡ true }
    ensures least { option_map (λ p. cell_value p.0) result ≡ least (valid_values (valid_rows valid.now (map int (wholes_of values.now)))) }
    ensures greatest { option_map (λ p. cell_value p.1) result ≡ greatest (valid_values (valid_rows valid.now (map int (wholes_of values.now)))) }
{
    with_ints!(values, items => item_extremes(items.as_slice(), valid))
}

// `integer_extremes` of items of one type.
#[tactic(auto, using(crate::proofs::ExtremeLemmas::item_rows))]
fn item_extremes<T: Integer>(
    items: &[T],
    valid: &Option<Mask>,
) -> Option<(Cell<'static>, Cell<'static>)>
    requires { validity_length valid.now (length items.now) ≡ true }
    ensures least { option_map (λ p. cell_value p.0) result ≡ least (valid_values (valid_rows valid.now (map int (map T.whole items.now)))) }
    ensures greatest { option_map (λ p. cell_value p.1) result ≡ greatest (valid_values (valid_rows valid.now (map int (map T.whole items.now)))) }
{
    match valid {
        Some(mask) => found_cells(extremes_of_valid(items, mask.as_slice())),
        None => found_cells(extremes(items)),
    }
}

// The least and the greatest item as cells.
fn found_cells<T: Integer>(found: Option<(T, T)>) -> Option<(Cell<'static>, Cell<'static>)>
    ensures least { option_map (λ p. cell_value p.0) result ≡ option_map int (option_map (λ p. T.whole p.0) found) }
    ensures greatest { option_map (λ p. cell_value p.1) result ≡ option_map int (option_map (λ p. T.whole p.1) found) }
{
    match found {
        Some((least, greatest)) => Some((
            Cell::Int(least.to_whole()),
            Cell::Int(greatest.to_whole()),
        )),
        None => None,
    }
}
