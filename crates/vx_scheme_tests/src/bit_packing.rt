//! The bit-packing scheme, over columns worked by hand.

use crate::shapes::makes;
use std::test::Fail;
use vx_base::ArrayId::{BitPacked, Constant, Primitive};
use vx_base::PType::{I8, I32, U8, U32};
use vx_fixtures::{Told, told_of};
use vx_scheme::CompressorContext;
use vx_schemes::BitPackingScheme;

#[test]
fn what_fits_fewer_bits_is_packed(rt: HostRuntime) -> Result<(), Fail> {
    let scheme = BitPackingScheme::v1();
    for (ptype, rows, estimate, encoding, nbytes) in [
        // A block of 1,024 rows takes 256 bytes at two bits, and 128 at one.
        (
            U8,
            &[Some(1), Some(2), Some(3)][..],
            Told::Sampled,
            BitPacked,
            256,
        ),
        (I8, &[Some(1), None, Some(0)], Told::Sampled, BitPacked, 129),
        // All bits of the type, and a negative value.
        (U8, &[Some(255), Some(255)], Told::Sampled, Primitive, 2),
        (
            I32,
            &[Some(5), None, Some(-3)],
            Told::Nothing,
            Primitive,
            13,
        ),
    ] {
        let told = told_of(rt.alloc(), &scheme, &CompressorContext::new(), ptype, rows)?;
        let made = makes(rt.alloc(), &scheme, 0, (encoding, ptype, nbytes, rows), &[])?;
        assert!(rt; told == (estimate, Told::Nothing) && made, "{ptype:?}");
    }
    Ok(())
}

// Ten ones and a 1,000: at one bit 2 bytes and a patch of 8, at ten bits 14 bytes.
#[test]
fn a_wide_row_is_a_patch(rt: HostRuntime) -> Result<(), Fail> {
    let mut rows = [Some(1); 11];
    rows[10] = Some(1000);
    let children = [
        (Primitive, U8, 1, &[Some(10)][..]),
        (Constant, U32, 5, &[Some(1000)][..]),
    ];
    let root = (BitPacked, U32, 134, &rows[..]);
    let made = makes(rt.alloc(), &BitPackingScheme::v1(), 0, root, &children)?;
    assert!(rt; made);
    Ok(())
}
