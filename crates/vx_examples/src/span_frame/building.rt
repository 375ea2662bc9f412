//! The compressor over span frames and the shipped schemes.

ghost use Rattle.std.specs.Prelude.{◌≡◌, map};
ghost use Rattle.vx_base.specs.Answers.{OrMemory};
ghost use Rattle.vx_btrblocks.specs.AnyMeaning.{any_meaning};
ghost use Rattle.vx_examples.specs.SpanFrame.{span_frame, with_span_frames};

use super::SpanFrame;
use std::alloc::Global;
use vx_base::VortexResult;
use vx_btrblocks::{AnyScheme, BtrBlocksCompressor, shipped_schemes};
use vx_compressor::{CascadingCompressor, Schemes};

// Span frames in front of the shipped schemes.
fn schemes(alloc: Global) -> VortexResult<Schemes<AnyScheme<SpanFrame>>>
    ensures { OrMemory result (λ schemes. map (any_meaning (λ scheme. span_frame)) schemes ≡ with_span_frames) }
{
    let mut schemes = shipped_schemes(alloc)?;
    schemes.insert(0, AnyScheme::Own(SpanFrame))?;
    Ok(Schemes::from_vec(schemes))
}

/// The compressor over the shipped schemes, with span frames in front of them. Refuses NoMemory alone.
pub fn compressor_with_frames(alloc: Global) -> VortexResult<BtrBlocksCompressor<SpanFrame>>
    ensures { OrMemory result (λ compressor. map (any_meaning (λ scheme. span_frame)) compressor.0 ≡ with_span_frames) }
{
    match CascadingCompressor::new(alloc, schemes(alloc)?) {
        Ok(compressor) => Ok(BtrBlocksCompressor(compressor)),
        Err(refused) => Err(refused.error),
    }
}
