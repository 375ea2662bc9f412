//! Where the value of each row stands among the values of runs in blocks, for all rows in one pass.

ghost use Rattle.std.specs.List.{list_all};
ghost use Rattle.std.specs.Prelude.{◌≡◌, ◌<◌, ◌-◌, ◌^◌, ◌*◌, ◌+ℤ◌, ◌≤ℤ◌, ℕ, length, map, pos, negsuc};
ghost use Rattle.vx_flat.specs.RunPlaces.{block_place, IsWord};
ghost use Rattle.vx_base.specs.Answers.{OrMemory};
ghost use Rattle.vx_base.specs.Packed.{block_count};
ghost use Rattle.vx_base.specs.PlainValue.{int};
ghost use Rattle.vx_base.specs.declared.ptype.PType.TheVariants.{U64};
ghost use Rattle.vx_model.specs.Rows.{below, block_rows};
ghost use Rattle.vx_model.specs.WellFormed.{is_place};
ghost use Rattle.vx_values.specs.IntsOf.{ptype_of, wholes_of};

use crate::by_type::with_ints;
use std::alloc::Global;
use vx_base::{IntList, Integer, VortexResult};
use vx_blocks::BLOCK_ROWS;
use vx_values::Ints;

/// `offsets[row / 1024] + indices[row]` in each row, of runs in blocks: the place of the row's value.
pub fn block_places(alloc: Global, indices: &Ints, offsets: &Ints, len: u64) -> VortexResult<Ints>
    requires enough { length (wholes_of indices.now) ≡ block_rows * block_count len }
    requires begins { length (wholes_of offsets.now) ≡ block_count len }
    requires held { (i : ℕ) → i < len → IsWord (block_place (wholes_of offsets.now) (wholes_of indices.now) i) }
    ensures { OrMemory result (λ places. (ptype_of places ≡ U64) × (wholes_of places ≡ below (block_place (wholes_of offsets.now) (wholes_of indices.now)) len)) }
{
    let offsets = wholes(alloc, offsets)?;
    let begins = offsets.as_slice();
    let places = with_ints!(indices, items => sums(alloc, items.as_slice(), begins, len)?);
    Ok(Ints::U64(places))
}

// The whole numbers of a list. The list is short, one number a block, so 16 bytes each cost little.
fn wholes(alloc: Global, ints: &Ints) -> VortexResult<Vec<i128>>
    ensures { OrMemory result (λ wholes. wholes.items ≡ wholes_of ints.now) }
{
    let mut wholes = Vec::new(alloc);
    for row in 0..ints.len() {
        wholes.push(ints.whole_at(row))?;
    }
    Ok(wholes)
}

// `block_places` over indices of one type.
fn sums<T: Integer>(
    alloc: Global,
    indices: &[T],
    offsets: &[i128],
    len: u64,
) -> VortexResult<IntList<u64>>
    requires enough { length indices.now ≡ block_rows * block_count len }
    requires begins { length offsets.now ≡ block_count len }
    requires held { (i : ℕ) → i < len → IsWord (block_place offsets.now (map T.whole indices.now) i) }
    ensures { OrMemory result (λ places. map pos places ≡ below (block_place offsets.now (map T.whole indices.now)) len) }
{
    let mut places = Vec::with_capacity(alloc, len as usize)?;
    for row in 0..len as usize {
        places.push(place(offsets[row / BLOCK_ROWS], indices[row].to_whole()))?;
    }
    Ok(IntList::from_vec(places))
}

// `offset + index`, which the caller knows to be a place.
fn place(offset: i128, index: i128) -> u64
    requires { IsWord (offset +ℤ index) }
    ensures { pos result ≡ offset +ℤ index }
{
    let sum = offset + index;
    sum as u64
}

/// Whether `offset + index` is in bounds of `values` values in every row, of runs in blocks. Indices behind the last row
/// are not tested.
pub fn sums_are_places(
    alloc: Global,
    values: u64,
    indices: &Ints,
    offsets: &Ints,
    len: u64,
) -> VortexResult<bool>
    requires enough { length (wholes_of indices.now) ≡ block_rows * block_count len }
    requires begins { length (wholes_of offsets.now) ≡ block_count len }
    ensures { OrMemory result (λ held. held ≡ list_all (is_place values) (below (λ i. int (block_place (wholes_of offsets.now) (wholes_of indices.now) i)) len)) }
{
    let offsets = wholes(alloc, offsets)?;
    let begins = offsets.as_slice();
    Ok(with_ints!(indices, items => are_places(values, items.as_slice(), begins, len)))
}

// `sums_are_places` over indices of one type.
#[tactic(auto, using(crate::proofs::RunPlaces::sum_places))]
fn are_places<T: Integer>(values: u64, indices: &[T], offsets: &[i128], len: u64) -> bool
    requires enough { length indices.now ≡ block_rows * block_count len }
    requires begins { length offsets.now ≡ block_count len }
    ensures { result ≡ list_all (is_place values) (below (λ i. int (block_place offsets.now (map T.whole indices.now) i)) len) }
{
    for row in 0..len as usize {
        if !is_sum_place(offsets[row / BLOCK_ROWS], indices[row].to_whole(), values) {
            return false;
        }
    }
    true
}

// Whether `0 <= offset + index < values`, where the sum itself could need more than 128 bits.
fn is_sum_place(offset: i128, index: i128, values: u64) -> bool
    requires least { negsuc (2 ^ 63 - 1) ≤ℤ index }
    requires most { index ≤ℤ pos (2 ^ 64 - 1) }
    ensures { result ≡ is_place values (int (offset +ℤ index)) }
{
    offset >= -index && offset < i128::from(values) - index
}
