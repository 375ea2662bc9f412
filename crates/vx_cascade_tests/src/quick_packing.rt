//! Quick packing: its verdicts, its trees, and where it is chosen, with ample memory.

use crate::comparing::{made_form, tens_by_both, waves_by_both};
use std::test::Fail;
use vx_base::ArrayId::{BitPacked, Dict, FoR, Primitive};
use vx_base::PType::I32;
use vx_examples::{QuickPacking, compressor};
use vx_fixtures::{Told, rules_of, told_of};
use vx_scheme::CompressorContext;

#[test]
fn the_ratio_is_of_the_greatest_value(rt: HostRuntime) -> Result<(), Fail> {
    let scheme = QuickPacking::new();
    for (rows, estimate, encoding, nbytes) in [
        ([Some(3), Some(1)], Told::Ratio(32, 2), BitPacked, 256),
        ([Some(5), Some(-3)], Told::Nothing, Primitive, 8),
    ] {
        let told = told_of(rt.alloc(), &scheme, &CompressorContext::new(), I32, &rows)?;
        let made = made_form(rt.alloc(), &scheme, I32, &rows)?;
        assert!(rt; told == (estimate, Told::Nothing) && made == (0, (encoding, nbytes, None)));
    }
    let rules = rules_of(rt.alloc(), &scheme)?;
    assert!(rt; rules == (0, 0));
    Ok(())
}

#[test]
fn it_is_chosen_where_a_sample_sees_nothing_but_zeros(rt: HostRuntime) -> Result<(), Fail> {
    let compressor = compressor(rt.alloc())?;
    let waves = waves_by_both(rt.alloc(), &compressor, 0)?;
    let tens = tens_by_both(rt.alloc(), &compressor, -3)?;
    let frame = (FoR, 512, Some(BitPacked));
    assert!(rt;
        waves == ((Dict, 2048, Some(Primitive)), (BitPacked, 768, None)) && tens == (frame, frame)
    );
    Ok(())
}
