//! Rows packed and unpacked.

ghost use Rattle.std.specs.Prelude.{◌≡◌, ◌≤◌, length, vec_len, IfOk};

use std::alloc::{AllocError, Global};
use std::test::Fail;
use vx_base::Mask;
use vx_blocks::{get, pack, unpack, unpack_integers, wide_rows};

fn all_valid(alloc: Global, rows: usize) -> Result<Mask, AllocError>
    ensures { IfOk result (λ mask. length mask ≡ rows) }
{
    Ok(Mask::from_bits(vec![in alloc; true; rows]?))
}

#[test]
fn three_rows_at_two_bits(rt: HostRuntime) -> Result<(), Fail> {
    let valid = all_valid(rt.alloc(), 3)?;
    let packed = pack(rt.alloc(), &[1u8, 2, 3], &valid, 2)?;
    assert_eq!(rt; packed.len(), 256);
    assert_eq!(rt; &packed[..2], [0x39, 0].as_slice());
    let rows = unpack_integers::<u8>(rt.alloc(), packed.as_slice(), 2, 0, 3)?;
    assert_eq!(rt; rows.as_slice(), [1, 2, 3].as_slice());
    Ok(())
}

#[test]
fn nulls_and_wider_rows_are_zero(rt: HostRuntime) -> Result<(), Fail> {
    let values = [-1i16, 5, 3, 9];
    let valid = Mask::from_bits(vec![in rt.alloc(); true, true, true, false]?);
    let packed = pack(rt.alloc(), &values, &valid, 3)?;
    let rows = unpack(rt.alloc(), packed.as_slice(), 3, 0, 5)?;
    assert_eq!(rt; rows.as_slice(), [0, 5, 3, 0, 0].as_slice());
    let wide = wide_rows(rt.alloc(), &values, &valid, 3)?;
    assert_eq!(rt; wide.as_slice(), [0].as_slice());
    Ok(())
}

// Whether `unpack` and `get` read back what was packed, from row `start` on.
#[tactic(auto, using(vx_base::proofs::PackedLemmas::packed_size_le))]
fn reads_back(alloc: Global, values: &[u64], width: u32, start: u64) -> Result<bool, Fail>
    requires width { width ≤ 64 }
    requires start { start ≤ length values.now }
{
    let valid = all_valid(alloc, values.len())?;
    let packed = pack(alloc, values, &valid, width)?;
    let rows = unpack(alloc, packed.as_slice(), width, start, values.len() as u64)?;
    for (i, row) in rows.iter().enumerate() {
        let value = values[start as usize + i];
        let fits = width == 64 || value >> width == 0;
        if *row != if fits { value } else { 0 } {
            return Ok(false);
        }
        if *row != get(packed.as_slice(), width, start + i as u64) {
            return Ok(false);
        }
    }
    Ok(true)
}

// Pseudo-random numbers of `width` bits, by a linear congruential generator.
fn numbers(alloc: Global, rows: usize, width: u32) -> Result<Vec<u64>, AllocError>
    requires { width ≤ 64 }
    ensures { IfOk result (λ values. vec_len values ≡ rows) }
{
    let mut values = vec![in alloc; 0u64; rows]?;
    let mut x: u64 = 1;
    for slot in values.iter_mut() {
        x = x
            .wrapping_mul(6364136223846793005)
            .wrapping_add(1442695040888963407);
        *slot = if width == 0 { 0 } else { x >> (64 - width) };
    }
    Ok(values)
}

#[test]
fn every_width_reads_back(rt: HostRuntime) -> Result<(), Fail> {
    for width in 0..65u32 {
        let values = numbers(rt.alloc(), 1500, width)?;
        let values = values.as_slice();
        assert!(rt; reads_back(rt.alloc(), values, width, 0)?);
        assert!(rt; reads_back(rt.alloc(), values, width, 1029)?);
    }
    Ok(())
}
