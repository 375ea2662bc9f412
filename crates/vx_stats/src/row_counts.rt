//! The numbers of null and of valid rows.

ghost use Rattle.std.specs.Prelude.{◌≡◌, List, length, true, false, if◌then◌else◌};
ghost use Rattle.std.specs.List.{list_any};
ghost use Rattle.vx_base.specs.PlainValue.{PlainValue, is_null};
ghost use Rattle.vx_model.specs.Refusals.{validity_length};
ghost use Rattle.vx_model.specs.Rows.{valid_rows};
ghost use Rattle.vx_stats.specs.Rows.{valid_count};
ghost use Rattle.vx_stats.specs.Stats.{null_count};

use vx_base::Mask;

/// The numbers of null and of valid rows, of `len` rows with this validity.
pub(crate) fn counts_of_rows(len: u32, valid: &Option<Mask>) -> (u32, u32)
    requires { validity_length valid.now len ≡ true }
    ensures { (values : List PlainValue) → length values ≡ len → list_any is_null values ≡ false → (result.0 ≡ null_count (valid_rows valid.now values)) × (result.1 ≡ valid_count (valid_rows valid.now values)) }
{
    match valid {
        Some(mask) => {
            let value_count = mask.true_count() as u32;
            (len - value_count, value_count)
        }
        None => (0, len),
    }
}

/// The number of rows of `len` equal ones for which something holds, where `holds` tells it of one row.
pub(crate) fn copies_with(holds: bool, len: u32) -> u32
    ensures { result ≡ (if holds then len else 0) }
{
    if holds { len } else { 0 }
}
