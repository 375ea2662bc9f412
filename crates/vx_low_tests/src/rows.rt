//! Runs, sequences and deltas of a few rows, and of rows in several blocks.

ghost use Rattle.std.specs.Prelude.{◌≡◌, length, vec_len, IfOk};

use std::alloc::{AllocError, Global};
use std::test::Fail;
use vx_base::Mask;
use vx_blocks::{
    BlockRuns, block_runs, delta_blocks, runs, sequence_of, undelta, undelta_gives_back,
};

fn all_valid(alloc: Global, rows: usize) -> Result<Mask, AllocError>
    ensures { IfOk result (λ mask. length mask ≡ rows) }
{
    Ok(Mask::from_bits(vec![in alloc; true; rows]?))
}

// 0, 40, .., 240, and again: the falls of 240 wrap in a u8.
fn waves(alloc: Global, rows: usize) -> Result<Vec<u8>, AllocError>
    ensures { IfOk result (λ values. vec_len values ≡ rows) }
{
    let mut values = vec![in alloc; 0u8; rows]?;
    for (i, slot) in values.iter_mut().enumerate() {
        *slot = (i % 7 * 40) as u8;
    }
    Ok(values)
}

// Whether runs in blocks have these heads and offsets, and run numbers of `rows` rows that begin with `begin`.
fn are_runs(made: &BlockRuns, heads: &[u64], offsets: &[u64], rows: u64, begin: &[u64]) -> bool {
    made.heads.as_slice() == heads
        && made.offsets.as_slice() == offsets
        && made.numbers.len() == rows
        && made.numbers.as_slice().starts_with(begin)
}

// The values beneath the nulls, 7 and 9, make no difference.
#[test]
fn runs_with_nulls(rt: HostRuntime) -> Result<(), Fail> {
    let values = [7i32, 7, 7, 9, 8];
    let valid = Mask::from_bits(vec![in rt.alloc(); true, true, false, false, true]?);
    let ends = runs(rt.alloc(), &values, &valid)?;
    let made = block_runs(rt.alloc(), &values, &valid)?;
    assert!(rt;
        ends.as_slice() == [2, 4, 5].as_slice()
            && are_runs(&made, &[0, 2, 4], &[0], 1024, &[0, 0, 1, 1, 2, 0])
    );
    Ok(())
}

#[test]
fn runs_end_with_their_block(rt: HostRuntime) -> Result<(), Fail> {
    let rows = 1500;
    let values = vec![in rt.alloc(); 7u8; rows]?;
    let valid = all_valid(rt.alloc(), rows)?;
    let ends = runs(rt.alloc(), values.as_slice(), &valid)?;
    let made = block_runs(rt.alloc(), values.as_slice(), &valid)?;
    assert!(rt;
        ends.as_slice() == [1500].as_slice() && are_runs(&made, &[0, 1024], &[0, 1], 2048, &[0, 0])
    );
    Ok(())
}

#[test]
fn no_rows(rt: HostRuntime) -> Result<(), Fail> {
    let valid = all_valid(rt.alloc(), 0)?;
    let ends = runs::<u8>(rt.alloc(), &[], &valid)?;
    let made = block_runs::<u8>(rt.alloc(), &[], &valid)?;
    assert!(rt; ends.is_empty() && are_runs(&made, &[], &[], 0, &[]));
    Ok(())
}

#[test]
fn no_deltas(rt: HostRuntime) -> Result<(), Fail> {
    let valid = all_valid(rt.alloc(), 0)?;
    let (bases, deltas) = delta_blocks::<u8>(rt.alloc(), &[], &valid)?;
    let rows = undelta(rt.alloc(), bases.as_slice(), deltas.as_slice())?;
    assert!(rt; bases.is_empty() && rows.is_empty());
    Ok(())
}

#[test]
fn sequences_and_others(rt: HostRuntime) {
    assert_eq!(rt; sequence_of(&[5i32]), None);
    assert_eq!(rt; sequence_of(&[0u8, 255]), Some((0, 255)));
    assert_eq!(rt; sequence_of(&[255u8, 0]), None);
    assert_eq!(rt; sequence_of(&[3i8, 2]), Some((3, -1)));
    assert_eq!(rt; sequence_of(&[5i32, 7, 9]), Some((5, 2)));
    assert_eq!(rt; sequence_of(&[5i32, 7, 10]), None);
}

#[test]
fn deltas_of_nulls(rt: HostRuntime) -> Result<(), Fail> {
    let values = [9u8, 3, 200, 10];
    let valid = Mask::from_bits(vec![in rt.alloc(); false, true, false, true]?);
    let (bases, deltas) = delta_blocks(rt.alloc(), &values, &valid)?;
    assert!(rt;
        bases.as_slice() == [0].as_slice()
            && deltas.len() == 1024
            && deltas.as_slice().starts_with([0, 3, 0, 7, 0].as_slice())
    );
    Ok(())
}

// 2,100 rows: three blocks, the last of them padded.
#[test]
fn deltas_and_back(rt: HostRuntime) -> Result<(), Fail> {
    let values = waves(rt.alloc(), 2100)?;
    let valid = all_valid(rt.alloc(), values.len())?;
    let (bases, deltas) = delta_blocks(rt.alloc(), values.as_slice(), &valid)?;
    let rows = undelta(rt.alloc(), bases.as_slice(), deltas.as_slice())?;
    assert!(rt;
        bases.as_slice() == [0, 80, 160].as_slice()
            && deltas.len() == 3072
            && rows.as_slice().starts_with(values.as_slice())
    );
    undelta_gives_back();
    Ok(())
}
