//! Histograms of digits and the cheapest width, worked by hand.

ghost use Rattle.std.specs.Prelude.{◌≡◌, length, vec_len, IfOk};

use std::alloc::{AllocError, Global};
use std::test::Fail;
use vx_base::{Mask, PType};
use vx_blocks::{best_width, bit_width_histogram, bit_widths_of_all};

// 0 to 9, over and over.
fn digits(alloc: Global, rows: u32) -> Result<Vec<u32>, AllocError>
    ensures { IfOk result (λ values. vec_len values ≡ rows) }
{
    let mut values = vec![in alloc; 0u32; rows as usize]?;
    for (i, slot) in values.iter_mut().enumerate() {
        *slot = (i % 10) as u32;
    }
    Ok(values)
}

#[test]
fn widths_of_decimal_digits(rt: HostRuntime) -> Result<(), Fail> {
    let values = digits(rt.alloc(), 1000)?;
    let valid = Mask::from_bits(vec![in rt.alloc(); true; values.len()]?);
    let counts = bit_width_histogram(rt.alloc(), values.as_slice(), &valid)?;
    assert_eq!(rt; &counts[..5], [100, 100, 200, 400, 200].as_slice());
    assert_eq!(rt; best_width(counts.as_slice(), PType::U32), 4);
    Ok(())
}

#[test]
fn widths_of_rows_without_nulls(rt: HostRuntime) -> Result<(), Fail> {
    let values = digits(rt.alloc(), 1000)?;
    let counts = bit_widths_of_all(rt.alloc(), values.as_slice())?;
    assert_eq!(rt; &counts[..5], [100, 100, 200, 400, 200].as_slice());
    Ok(())
}
