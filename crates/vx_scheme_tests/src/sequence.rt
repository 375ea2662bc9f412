//! The sequence scheme, over columns worked by hand.

use crate::shapes::makes;
use std::test::Fail;
use vx_base::ArrayId::{Primitive, Sequence};
use vx_base::Fraction;
use vx_base::PType::{I8, I32, U8};
use vx_fixtures::{Told, told_above, told_of};
use vx_scheme::CompressorContext;
use vx_schemes_runs::SequenceScheme;

#[test]
fn half_the_rows_of_a_sequence_are_expected(rt: HostRuntime) -> Result<(), Fail> {
    let top = CompressorContext::new();
    for (site, rows, told) in [
        (
            top,
            &[Some(5), Some(3), Some(1)][..],
            (Told::Later, Told::Ratio(3, 2)),
        ),
        (
            top,
            &[Some(5), Some(3), Some(2)],
            (Told::Later, Told::Nothing),
        ),
        // One row is no sequence, nor are rows with a null; the estimate of a sample isn't deferred.
        (top, &[Some(5)], (Told::Later, Told::Nothing)),
        (
            top,
            &[Some(5), None, Some(1)],
            (Told::Nothing, Told::Nothing),
        ),
        (
            top.with_sampling(),
            &[Some(5), Some(3)],
            (Told::Nothing, Told::Ratio(2, 2)),
        ),
    ] {
        let answers = told_of(rt.alloc(), &SequenceScheme, &site, I32, rows)?;
        assert!(rt; answers == told, "{rows:?}");
    }
    Ok(())
}

#[test]
fn a_threshold_is_passed_or_nothing_is_told(rt: HostRuntime) -> Result<(), Fail> {
    let top = CompressorContext::new();
    let rows = &[Some(5), Some(3), Some(1)];
    for (threshold, verdict) in [
        (Fraction::new(4, 3), Told::Ratio(3, 2)),
        (Fraction::new(3, 2), Told::Nothing),
        (Fraction::new(2, 1), Told::Nothing),
    ] {
        let told = told_above(
            rt.alloc(),
            &SequenceScheme,
            &top,
            Some(threshold),
            I32,
            rows,
        )?;
        assert!(rt; told == (Told::Later, verdict));
    }
    Ok(())
}

#[test]
fn a_sequence_takes_no_bytes_of_values(rt: HostRuntime) -> Result<(), Fail> {
    let rows = &[Some(3), Some(2), Some(1)];
    let stepped = makes(rt.alloc(), &SequenceScheme, 0, (Sequence, I8, 0, rows), &[])?;
    // A type without a sign has no step of -1.
    let kept = makes(
        rt.alloc(),
        &SequenceScheme,
        0,
        (Primitive, U8, 3, rows),
        &[],
    )?;
    assert!(rt; stepped && kept);
    Ok(())
}
