//! Whether indices are the numbers of rows.

ghost use Rattle.std.specs.List.{list_all};
ghost use Rattle.std.specs.Prelude.{◌≡◌, ◌<◌, IsTrue, length, map, true};
ghost use Rattle.vx_base.specs.PlainType.{is_integer};
ghost use Rattle.vx_base.specs.PlainValue.{int};
ghost use Rattle.vx_model.specs.Refusals.{validity_length};
ghost use Rattle.vx_model.specs.Rows.{masked_rows, row_at, rows, valid_rows};
ghost use Rattle.vx_model.specs.TreeType.{tree_type};
ghost use Rattle.vx_model.specs.WellFormed.{is_place};
ghost use Rattle.vx_values.specs.IntsOf.{wholes_of};

use vx_array::ArrayRef;
use vx_base::Mask;
use vx_flat::is_place;
use vx_values::Ints;

/// Whether each index of an integer tree is null or the number of one of `len` rows: row by row, without memory.
pub(super) fn have_places(indices: &ArrayRef, len: u64) -> bool
    requires { IsTrue (is_integer (tree_type indices.now)) }
    ensures { result ≡ list_all (is_place len) (rows indices.now) }
{
    for row in 0..indices.len() {
        if !is_place(indices.integer_at(row), len) {
            return false;
        }
    }
    true
}

/// Whether each index is null or the number of one of `len` rows.
pub(super) fn are_places(codes: &Ints, valid: &Option<Mask>, len: u64) -> bool
    requires { validity_length valid.now (length (wholes_of codes.now)) ≡ true }
    ensures { result ≡ list_all (is_place len) (valid_rows valid.now (map int (wholes_of codes.now))) }
{
    match valid {
        Some(mask) => are_places_where(codes, mask.as_slice(), len),
        None => !codes.has_outside(len),
    }
}

// Whether each index whose bit is true is the number of one of `len` rows.
fn are_places_where(codes: &Ints, bits: &[bool], len: u64) -> bool
    requires { length bits.now ≡ length (wholes_of codes.now) }
    ensures { result ≡ list_all (is_place len) (masked_rows bits.now (map int (wholes_of codes.now))) }
{
    for row in 0..bits.len() {
        if !is_place_where(codes, bits, row, len) {
            return false;
        }
    }
    true
}

// Whether the index is the number of one of `len` rows, or its bit is false.
#[tactic(auto, using(crate::proofs::Places::places))]
fn is_place_where(codes: &Ints, bits: &[bool], row: usize, len: u64) -> bool
    requires same { length bits.now ≡ length (wholes_of codes.now) }
    requires within { row < length bits.now }
    ensures { result ≡ is_place len (row_at (masked_rows bits.now (map int (wholes_of codes.now))) row) }
{
    if bits[row] {
        is_place(Some(codes.whole_at(row as u64)), len)
    } else {
        true
    }
}
