//! Reads of single rows: offsets, and the places of patches.

ghost use Rattle.std.specs.Prelude.{◌≡◌, ◌<◌, ◌+◌, ◌^◌, IsTrue, length};
ghost use Rattle.vx_base.specs.PlainType.{is_integer};
ghost use Rattle.vx_model.specs.Rows.{offset_at, place_of, rows};
ghost use Rattle.vx_model.specs.TreeType.{tree_type};

use std::marker::Brand;
use std::sync::ledger::{Blank, Ledger};
use vx_array::{ArrayRef, Patches};
use vx_base::Steps;

/// Tells a proof that there are fewer than 2^64 rows.
pub(super) fn counted(tree: &ArrayRef)
    ensures { length (rows tree.now) < 2 ^ 64 }
{
    let _len = tree.len();
}

/// The offset at a place, 0 where there is no unsigned number.
pub(super) fn offset_at(offsets: &ArrayRef, place: u64) -> u128
    requires integers { IsTrue (is_integer (tree_type offsets.now)) }
    requires in_range { place < length (rows offsets.now) }
    ensures { result ≡ offset_at (rows offsets.now) place }
{
    match offsets.integer_at(place) {
        Some(offset) if offset >= 0 => offset as u128,
        _ => 0,
    }
}

/// The place of a row's patch, None where the row has none.
pub(super) fn patch_place(patches: &Patches, row: u64) -> Option<u64>
    requires { row < patches.now.array_len }
    ensures { result ≡ place_of (rows patches.now.indices) (patches.now.offset + row) }
{
    searched_place::<Brand>(patches, row, Blank::new(1))
}

// `patch_place` with a count of the probes, which nothing reads.
fn searched_place<L: Ledger>(patches: &Patches, row: u64, blank: Blank) -> Option<u64>
    requires row { row < patches.now.array_len }
    requires name { blank.name ≡ L.name }
    requires parts { blank.parts ≡ L.parts }
    requires some { 0 < L.parts }
    ensures { result ≡ place_of (rows patches.now.indices) (patches.now.offset + row) }
{
    let mut steps = Steps::<L>::new(blank);
    patches.search(row, &mut steps)
}
