//! Columns that several tests share.

use std::alloc::Global;
use vx_array::ArrayRef;
use vx_base::IntList;
use vx_buffers::{Refusal, given_integers};
use vx_values::Ints;

// Three rows whose second is null: the bits 3 to 5 are 1, 0 and 1.
pub(super) fn masked(alloc: Global, rows: Ints) -> Result<ArrayRef, Refusal> {
    given_integers(alloc, rows, 2, &[0b0010_1000], 3)
}

// Rows without validity.
pub(super) fn whole(alloc: Global, rows: Ints) -> Result<ArrayRef, Refusal> {
    given_integers(alloc, rows, 0, &[], 0)
}

// Two rows of `i64` with this validity.
pub(super) fn two(alloc: Global, form: u8, valid: &[u8], offset: u64) -> Result<ArrayRef, Refusal> {
    let rows = Vec::from_slice(alloc, &[1i64, 2])?;
    given_integers(
        alloc,
        Ints::I64(IntList::from_vec(rows)),
        form,
        valid,
        offset,
    )
}

// Why a column is refused.
pub(super) fn refusal(made: Result<ArrayRef, Refusal>) -> Option<Refusal> {
    match made {
        Ok(_) => None,
        Err(why) => Some(why),
    }
}
