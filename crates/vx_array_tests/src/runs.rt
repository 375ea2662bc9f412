//! Runs by their ends and in blocks, sequences and differences: rows, sizes, plain trees, copies and refusals.

use std::alloc::Global;
use std::test::Fail;
use vx_array::ArrayRef;
use vx_base::Nullability::{NonNullable, Nullable};
use vx_base::PType::{self, I8, I16, U8, U16, U32};
use vx_base::{VortexError, VortexResult};
use vx_fixtures::{accepted, bits, flat, has_wholes, is_made_plain, with_nulls};

#[test]
fn runs_last_up_to_their_ends(rt: HostRuntime) -> Result<(), Fail> {
    let alloc = rt.alloc();
    let ends = flat(alloc, U8, NonNullable, &[2, 3, 7])?;
    let values = with_nulls(alloc, I16, &[300, 0, -7], &[true, false, true])?;
    let tree = accepted(ArrayRef::run_end(alloc, ends, values))?;
    let run = Some(-7);
    let rows = [Some(300), Some(300), None, run, run, run, run];
    // Three ends, three values and the values' validity.
    assert!(rt; is_made_plain(alloc, &tree, (3 + 6 + 1, 15), &rows)?);
    Ok(())
}

// The refusal of these ends over this many values.
fn no_runs(alloc: Global, ends: &[i128], values: &[i128]) -> VortexResult<VortexError> {
    let ends = flat(alloc, U8, NonNullable, ends)?;
    match ArrayRef::run_end(alloc, ends, flat(alloc, I16, NonNullable, values)?) {
        Ok(_) => Ok(VortexError::NoMemory),
        Err(refused) => Ok(refused.error),
    }
}

#[test]
fn ends_rise_and_are_as_many_as_the_values(rt: HostRuntime) -> Result<(), Fail> {
    let alloc = rt.alloc();
    for (ends, refusal) in [
        ([2, 2].as_slice(), VortexError::OutOfBounds),
        ([0, 2].as_slice(), VortexError::OutOfBounds),
        ([2].as_slice(), VortexError::LengthMismatch),
    ] {
        assert!(rt; no_runs(alloc, ends, &[1, 2])? == refusal);
    }
    Ok(())
}

// The 1,024 indices of a block: these, then zeros.
fn block(alloc: Global, first: &[i128]) -> VortexResult<Vec<i128>> {
    let mut wholes = Vec::from_slice(alloc, first)?;
    wholes.resize(1024, 0)?;
    Ok(wholes)
}

#[test]
fn blocks_of_runs_have_values_by_offset_and_index(rt: HostRuntime) -> Result<(), Fail> {
    let alloc = rt.alloc();
    let values = flat(alloc, U32, NonNullable, &[9, 500, 70000])?;
    // The index behind the last row is out of bounds, and not tested.
    let indices = flat(
        alloc,
        I8,
        NonNullable,
        block(alloc, &[0, 0, 1, -1, 9])?.as_slice(),
    )?;
    let offsets = flat(alloc, U16, NonNullable, &[1])?;
    let tree = accepted(ArrayRef::rle(alloc, values, indices, offsets, 4))?;
    let rows = [Some(500), Some(500), Some(70000), Some(9)];
    assert!(rt; is_made_plain(alloc, &tree, (12 + 1024 + 2, 16), &rows)?);
    Ok(())
}

// The refusal of two rows of the values 9 and 500 by these indices and this offset.
fn no_blocks(alloc: Global, indices: &[i128], offset: i128) -> VortexResult<VortexError> {
    let values = flat(alloc, U32, NonNullable, &[9, 500])?;
    let indices = flat(alloc, U8, NonNullable, indices)?;
    let offsets = flat(alloc, U8, NonNullable, &[offset])?;
    match ArrayRef::rle(alloc, values, indices, offsets, 2) {
        Ok(_) => Ok(VortexError::NoMemory),
        Err(refused) => Ok(refused.error),
    }
}

#[test]
fn each_row_of_a_block_has_a_place(rt: HostRuntime) -> Result<(), Fail> {
    let indices = block(rt.alloc(), &[0, 1])?;
    let behind = no_blocks(rt.alloc(), indices.as_slice(), 1)?;
    let few = no_blocks(rt.alloc(), &[0, 1], 0)?;
    assert!(rt; behind == VortexError::OutOfBounds && few == VortexError::LengthMismatch);
    Ok(())
}

#[test]
fn rows_of_a_sequence_are_steps_apart(rt: HostRuntime) -> Result<(), Fail> {
    let alloc = rt.alloc();
    let tree = ArrayRef::sequence(I8, Nullable, 100, -60, 4)?;
    let rows = [Some(100), Some(40), Some(-20), Some(-80)];
    let none = ArrayRef::sequence(U8, NonNullable, 300, 3, 0)?;
    assert!(rt; is_made_plain(alloc, &tree, (0, 4), &rows)? && has_wholes(&none, &[]));
    Ok(())
}

#[test]
fn a_sequence_lies_in_its_type(rt: HostRuntime) -> Result<(), Fail> {
    let above = ArrayRef::sequence(U8, NonNullable, 250, 3, 3);
    assert!(rt; above.is_err_and(|error| error == VortexError::OutOfBounds));
    let below = ArrayRef::sequence(U8, NonNullable, 250, -3, 3);
    assert!(rt; below.is_err_and(|error| error == VortexError::OutOfBounds));
    Ok(())
}

#[test]
fn differences_are_summed_and_wrap(rt: HostRuntime) -> Result<(), Fail> {
    let alloc = rt.alloc();
    let bases = flat(alloc, I8, NonNullable, &[120])?;
    let deltas = flat(
        alloc,
        I8,
        NonNullable,
        block(alloc, &[0, 10, -3, 1])?.as_slice(),
    )?;
    let valid = Some(bits(alloc, &[true, true, false, true])?);
    let tree = accepted(ArrayRef::delta(alloc, bases, deltas, 4, valid, Nullable))?;
    let rows = [Some(120), Some(-126), None, Some(-128)];
    assert!(rt; is_made_plain(alloc, &tree, (1 + 1024 + 1, 5), &rows)?);
    Ok(())
}

// The refusal of `len` rows from base 120 by these differences of a type.
fn no_sums(alloc: Global, ptype: PType, deltas: &[i128], len: u64) -> VortexResult<VortexError> {
    let bases = flat(alloc, I8, NonNullable, &[120])?;
    let deltas = flat(alloc, ptype, NonNullable, deltas)?;
    match ArrayRef::delta(alloc, bases, deltas, len, None, NonNullable) {
        Ok(_) => Ok(VortexError::NoMemory),
        Err(refused) => Ok(refused.error),
    }
}

#[test]
fn differences_are_as_many_as_the_blocks_take(rt: HostRuntime) -> Result<(), Fail> {
    let few = no_sums(rt.alloc(), I8, &[0, 10, -3, 1], 4)?;
    let whole = block(rt.alloc(), &[0, 10])?;
    let others = no_sums(rt.alloc(), I16, whole.as_slice(), 2)?;
    assert!(rt; few == VortexError::LengthMismatch && others == VortexError::MismatchedTypes);
    Ok(())
}
