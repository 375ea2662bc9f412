//! A caller's scheme that defers its verdict, and shipped ones that do, as one of any scheme.

use crate::comparing::{Form, form_by};
use crate::whole::Whole;
use std::alloc::Global;
use std::test::Fail;
use vx_array::ArrayRef;
use vx_base::ArrayId::Primitive;
use vx_base::PType::{I64, U8};
use vx_base::{ExecutionCtx, Fraction, VortexError, VortexResult};
use vx_btrblocks::{AnyScheme, BtrBlocksCompressor};
use vx_compressor::{CascadingCompressor, Schemes};
use vx_fixtures::{Told, accepted, column, context, told_above, told_of};
use vx_scheme::{CompressionEstimate, CompressorContext, DeferredEstimate, NoScheme};
use vx_schemes::FoRScheme;
use vx_schemes_runs::SequenceScheme;

// A scheme that defers its verdict and awaits this threshold.
fn asked_later(awaits: Option<Fraction>) -> AnyScheme<Whole> {
    AnyScheme::Own(Whole {
        estimate: CompressionEstimate::Deferred(DeferredEstimate::Callback),
        awaits,
        is_root: false,
    })
}

// Whether a compressor makes a tree, and doesn't refuse NoMemory.
fn makes_a_tree(
    compressor: &BtrBlocksCompressor<Whole>,
    array: &ArrayRef,
    ctx: &mut ExecutionCtx,
) -> VortexResult<bool> {
    match form_by(compressor, array, ctx) {
        Ok(_) => Ok(true),
        Err(VortexError::NoMemory) => Ok(false),
        Err(error) => Err(error),
    }
}

// Whether the scheme gets the threshold that it awaits, behind a frame of reference whose immediate verdict on two rows is 4.
fn is_handed(alloc: Global, awaits: Option<Fraction>) -> VortexResult<bool> {
    let first = AnyScheme::FoR(FoRScheme::v1());
    let schemes = Schemes::from_vec(vec![in alloc; first, asked_later(awaits)]?);
    let compressor = BtrBlocksCompressor(accepted(CascadingCompressor::new(alloc, schemes))?);
    let array = column(alloc, U8, &[Some(9), Some(6)])?;
    let mut ctx = context(alloc)?;
    makes_a_tree(&compressor, &array, &mut ctx)
}

// What rows become by that scheme alone.
fn form_by_own(alloc: Global, rows: &[Option<i128>]) -> VortexResult<Form> {
    let schemes = Schemes::from_vec(vec![in alloc; asked_later(None)]?);
    let compressor = BtrBlocksCompressor(accepted(CascadingCompressor::new(alloc, schemes))?);
    let array = column(alloc, U8, rows)?;
    let mut ctx = context(alloc)?;
    form_by(&compressor, &array, &mut ctx)
}

#[test]
fn a_deferred_verdict_is_asked_for(rt: HostRuntime) -> Result<(), Fail> {
    let rows = [Some(7), Some(8), Some(7)];
    let own = asked_later(None);
    let told = told_of(rt.alloc(), &own, &CompressorContext::new(), U8, &rows)?;
    // It is chosen, but its tree is the column's own.
    let form = form_by_own(rt.alloc(), &rows)?;
    assert!(rt; told == (Told::Later, Told::Always) && form == (Primitive, 3, None));
    Ok(())
}

#[test]
fn the_best_score_so_far_is_the_threshold(rt: HostRuntime) -> Result<(), Fail> {
    let four = is_handed(rt.alloc(), Some(Fraction::new(4, 1)))?;
    let two = is_handed(rt.alloc(), Some(Fraction::new(2, 1)))?;
    let none = is_handed(rt.alloc(), None)?;
    assert!(rt; four && !two && !none);
    Ok(())
}

// What the shipped sequence answers as one of any scheme, where this is the threshold. Its ratio is 3/2.
fn sequence_above(alloc: Global, threshold: Option<Fraction>) -> VortexResult<(Told, Told)> {
    let any: AnyScheme<NoScheme> = AnyScheme::Sequence(SequenceScheme);
    let rows = [Some(1), Some(2), Some(3)];
    told_above(
        alloc,
        &any,
        &CompressorContext::new(),
        threshold,
        I64,
        &rows,
    )
}

#[test]
fn a_shipped_scheme_is_handed_the_threshold(rt: HostRuntime) -> Result<(), Fail> {
    let none = sequence_above(rt.alloc(), None)?;
    let below = sequence_above(rt.alloc(), Some(Fraction::new(1, 1)))?;
    let equal = sequence_above(rt.alloc(), Some(Fraction::new(3, 2)))?;
    assert!(rt;
        none == (Told::Later, Told::Ratio(3, 2))
            && below == (Told::Later, Told::Ratio(3, 2))
            && equal == (Told::Later, Told::Nothing)
    );
    Ok(())
}
