//! Sums of one value in every row.

ghost use Rattle.std.specs.Prelude.{◌≡◌, ◌*◌, ◌*ℤ◌, ◌==◌, ◌||◌, IsTrue, map, pos, replicate};
ghost use Rattle.vx_base.specs.CellValue.{cell_value};
ghost use Rattle.vx_base.specs.Integers.{lies_in};
ghost use Rattle.vx_base.specs.PlainValue.{int};
ghost use Rattle.vx_base.specs.Undelta.{total};
ghost use Rattle.vx_base.specs.declared.ptype.PType.TheVariants.{I64};
ghost use Rattle.vx_rows.specs.Totals.{is_word, total_of};
ghost use Rattle.vx_rules.specs.Aggregates.{summand};

use super::Total;
use crate::kernels::is_in;
use vx_base::{Cell, PType};

// The sum of one value in every row.
#[tactic(auto, using(crate::proofs::TotalLemmas::same_rows))]
pub(super) fn same_total(value: Cell<'_>, len: u64) -> Total
    requires { IsTrue (is_word (cell_value value) || len == 0) }
    ensures { total_of result ≡ total (map summand (replicate len (cell_value value.entry))) }
{
    match value {
        Cell::Int(whole) => product(whole, len),
        Cell::Bool(true) => Total::Unsigned(len as u128),
        Cell::Bool(false) | Cell::Null | Cell::Bytes(_) => Total::Unsigned(0),
    }
}

// A number of rows times a number of 64 bits, signed or not.
fn product(whole: i128, len: u64) -> Total
    requires { IsTrue (is_word (int whole) || len == 0) }
    ensures { total_of result ≡ pos len *ℤ whole }
{
    if is_in(whole, PType::I64) {
        return Total::Signed(signed_product(whole, len));
    }
    match u64::try_from(whole) {
        Ok(whole) => Total::Unsigned(unsigned_product(whole, len)),
        Err(_) => Total::Unsigned(0),
    }
}

// A number of rows times a signed number of 64 bits.
fn signed_product(whole: i128, len: u64) -> i128
    requires { IsTrue (lies_in I64 whole) }
    ensures { result ≡ pos len *ℤ whole }
{
    i128::from(len) * whole
}

// A number of rows times an unsigned number of 64 bits.
fn unsigned_product(whole: u64, len: u64) -> u128
    ensures { result ≡ len * whole }
{
    u128::from(len) * u128::from(whole)
}
