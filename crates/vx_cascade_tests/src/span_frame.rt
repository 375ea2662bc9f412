//! Span frames: their verdicts, and the trees of their part, with ample memory.

use crate::comparing::{
    Form, made_form, rows_by_both, tens_by_both, waves_by_both, wholes_by_both,
};
use std::alloc::Global;
use std::test::Fail;
use vx_base::ArrayId::{BitPacked, Dict, FoR, Primitive};
use vx_base::PType::{I64, U16};
use vx_base::VortexResult;
use vx_btrblocks::BtrBlocksCompressor;
use vx_examples::{SpanFrame, compressor_with_frames};
use vx_fixtures::{Told, rules_of, told_of};
use vx_scheme::{CompressorContext, Scheme};

#[test]
fn differences_are_one_part(rt: HostRuntime) -> Result<(), Fail> {
    let rows = [Some(1001), None, Some(1000)];
    let told = told_of(
        rt.alloc(),
        &SpanFrame,
        &CompressorContext::new(),
        U16,
        &rows,
    )?;
    let made = made_form(rt.alloc(), &SpanFrame, U16, &rows)?;
    let rules = rules_of(rt.alloc(), &SpanFrame)?;
    assert!(rt;
        told == (Told::Ratio(16, 1), Told::Nothing)
            && made == (1, (FoR, 7, Some(Primitive)))
            && rules == (0, 0)
    );
    Ok(())
}

// The shipped frame always packs its differences. In the last case the packed sample of the part takes no byte, so bit packing
// has no score and the dictionary stands: a byte a row, and the values 0 to 7 are a sequence.
#[test]
fn the_part_becomes_whatever_is_best_for_its_sample(rt: HostRuntime) -> Result<(), Fail> {
    let compressor = compressor_with_frames(rt.alloc())?;
    let framed = tens_by_both(rt.alloc(), &compressor, -3)?;
    let packed = tens_by_both(rt.alloc(), &compressor, 0)?;
    let coded = waves_by_both(rt.alloc(), &compressor, 1000)?;
    let frame = (FoR, 512, Some(BitPacked));
    assert!(rt;
        framed == (frame, frame)
            && packed == ((BitPacked, 512, None), (BitPacked, 512, None))
            && coded == ((FoR, 768, Some(BitPacked)), (FoR, 2048, Some(Dict)))
    );
    Ok(())
}

// 10^12 + 0, 10, .., 190, five times.
fn twenties(alloc: Global) -> VortexResult<Vec<i128>> {
    let mut wholes = Vec::new(alloc);
    for row in 0..100_u16 {
        wholes.push(1_000_000_000_000 + i128::from(row % 20) * 10)?;
    }
    Ok(wholes)
}

fn twenties_by_both<X: Scheme>(
    alloc: Global,
    compressor: &BtrBlocksCompressor<X>,
) -> VortexResult<(Form, Form)> {
    let wholes = twenties(alloc)?;
    wholes_by_both(alloc, compressor, I64, wholes.as_slice())
}

// Packed, the differences of the first column fill a block of 1,024 bytes, more than the plain column; their dictionary has
// 100 codes of one byte, and its 20 values are a sequence. The dictionary of the second column, 1,000 to 1,002 and a null, has 9
// codes and 2 bytes of validity, and its values are a sequence too.
#[test]
fn the_part_becomes_a_dictionary(rt: HostRuntime) -> Result<(), Fail> {
    let compressor = compressor_with_frames(rt.alloc())?;
    let of_twenties = twenties_by_both(rt.alloc(), &compressor)?;
    let three = [Some(1000), Some(1001), Some(1002)];
    let rows = [
        three[0], three[1], three[2], three[0], three[1], three[2], three[1], three[2], None,
    ];
    let of_three = rows_by_both(rt.alloc(), &compressor, U16, &rows)?;
    assert!(rt;
        of_twenties == ((Primitive, 800, None), (FoR, 100, Some(Dict)))
            && of_three == ((Primitive, 20, None), (FoR, 11, Some(Dict)))
    );
    Ok(())
}
