//! Rows packed at a width for each block, worked by hand.

ghost use Rattle.std.specs.Prelude.{◌≡◌, length, vec_len, IfOk};

use std::alloc::{AllocError, Global};
use std::test::Fail;
use vx_base::{Mask, Words};
use vx_blocks::{best_widths, get, pack_blocks, unpack_blocks};

fn all_valid(alloc: Global, rows: usize) -> Result<Mask, AllocError>
    ensures { IfOk result (λ mask. length mask ≡ rows) }
{
    Ok(Mask::from_bits(vec![in alloc; true; rows]?))
}

// i modulo 2 below row 1,024, and i modulo 256 from there on.
fn two_widths(alloc: Global, rows: usize) -> Result<Vec<u32>, AllocError>
    ensures { IfOk result (λ values. vec_len values ≡ rows) }
{
    let mut values = vec![in alloc; 0u32; rows]?;
    for (i, slot) in values.iter_mut().enumerate() {
        *slot = if i < 1024 {
            (i % 2) as u32
        } else {
            (i % 256) as u32
        };
    }
    Ok(values)
}

#[test]
fn two_blocks_of_two_widths(rt: HostRuntime) -> Result<(), Fail> {
    let values = two_widths(rt.alloc(), 2048)?;
    let valid = all_valid(rt.alloc(), 2048)?;
    let widths = best_widths(rt.alloc(), values.as_slice(), &valid)?;
    assert_eq!(rt; widths.as_slice(), [1, 8].as_slice());
    let packed = pack_blocks(rt.alloc(), values.as_slice(), &valid, &widths)?;
    assert_eq!(rt; packed.len(), 1152);
    assert_eq!(rt; &packed[..2], [0xaa, 0xaa].as_slice());
    assert_eq!(rt; &packed[128..132], [0, 1, 2, 3].as_slice());
    assert_eq!(rt; get(&packed[128..], 8, 77), 77);
    let rows = unpack_blocks::<u32>(rt.alloc(), packed.as_slice(), &[0, 1, 9], 2048)?;
    assert_eq!(rt; rows.as_slice(), values.as_slice());
    Ok(())
}

// A block of nulls, over 255, and a last block of 76 rows.
#[test]
fn nulls_take_no_bits(rt: HostRuntime) -> Result<(), Fail> {
    let values = vec![in rt.alloc(); 255u8; 1100]?;
    let mut bits = vec![in rt.alloc(); false; 1024]?;
    bits.resize(1100, true)?;
    let valid = Mask::from_bits(bits);
    let widths = best_widths(rt.alloc(), values.as_slice(), &valid)?;
    assert_eq!(rt; widths.as_slice(), [0, 8].as_slice());
    let packed = pack_blocks(rt.alloc(), values.as_slice(), &valid, &widths)?;
    assert_eq!(rt; packed.len(), 1024);
    assert_eq!(rt; &packed[74..78], [255, 255, 0, 0].as_slice());
    let rows = unpack_blocks::<u8>(rt.alloc(), packed.as_slice(), &[0, 0, 8], 1100)?;
    assert_eq!(rt; rows.len(), 1100);
    assert_eq!(rt; &rows[1022..1026], [0, 0, 255, 255].as_slice());
    Ok(())
}

// -1 has all bits of its type, and a row that is wider than its block's width is 0.
#[test]
fn negatives_and_wider_rows(rt: HostRuntime) -> Result<(), Fail> {
    let values = [-1i16, 2, 3];
    let valid = all_valid(rt.alloc(), 3)?;
    let widths = Words::from_vec(vec![in rt.alloc(); 16u64]?);
    let packed = pack_blocks(rt.alloc(), &values, &valid, &widths)?;
    assert_eq!(rt; packed.len(), 2048);
    assert_eq!(rt; &packed[..6], [255, 255, 2, 0, 3, 0].as_slice());
    let widths = Words::from_vec(vec![in rt.alloc(); 2u64]?);
    let packed = pack_blocks(rt.alloc(), &values, &valid, &widths)?;
    let rows = unpack_blocks::<i16>(rt.alloc(), packed.as_slice(), &[0, 2], 3)?;
    assert_eq!(rt; rows.as_slice(), [0, 2, 3].as_slice());
    Ok(())
}

#[test]
fn no_blocks(rt: HostRuntime) -> Result<(), Fail> {
    let valid = all_valid(rt.alloc(), 0)?;
    let widths = best_widths::<u64>(rt.alloc(), &[], &valid)?;
    assert_eq!(rt; widths.len(), 0);
    let packed = pack_blocks::<u64>(rt.alloc(), &[], &valid, &widths)?;
    assert_eq!(rt; packed.len(), 0);
    let rows = unpack_blocks::<u64>(rt.alloc(), packed.as_slice(), &[0], 0)?;
    assert_eq!(rt; rows.len(), 0);
    Ok(())
}
