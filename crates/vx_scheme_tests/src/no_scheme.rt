//! The scheme that takes nothing, which no contract binds on a column.

ghost use Rattle.std.specs.Prelude.{◌≡◌, ◌<◌};
ghost use Rattle.vx_scheme.specs.Asked.{IsSiteTree};

use std::alloc::Global;
use std::marker::Brand;
use std::sync::ledger::{Blank, Ledger};
use std::test::Fail;
use vx_array::Arrays;
use vx_base::{ExecutionCtx, PType, Steps, VortexResult};
use vx_fixtures::{Told, bundle, context, told_of};
use vx_scheme::{ArrayAndStats, CompressorContext, NoScheme, Scheme, Split};

// Whether it keeps a column of three rows, which stays as it is.
fn keeps_three<L: Ledger>(
    column: &mut ArrayAndStats,
    ctx: &mut ExecutionCtx,
    blank: Blank,
) -> VortexResult<bool>
    requires column { IsSiteTree column.old.array }
    requires name { blank.name ≡ L.name }
    requires parts { blank.parts ≡ L.parts }
    requires some { 0 < L.parts }
{
    let site = CompressorContext::new();
    let mut steps = Steps::<L>::new(blank);
    let split = NoScheme.split(column, &site, ctx, &mut steps)?;
    let trees = Arrays::new_in(ctx.alloc());
    let tree = NoScheme.join(column, &site, trees, ctx)?;
    Ok(matches!(split, Split::Kept) && tree.len() == 3 && column.array_len() == 3)
}

// Whether it keeps a column of three rows; false of one of another length.
fn keeps(column: &mut ArrayAndStats, ctx: &mut ExecutionCtx) -> VortexResult<bool> {
    if column.array().len() != 3 {
        return Ok(false);
    }
    keeps_three::<Brand>(column, ctx, Blank::new(1))
}

// Whether it keeps the u8 column of these rows.
fn keeps_rows(alloc: Global, rows: &[Option<i128>]) -> VortexResult<bool> {
    let mut ctx = context(alloc)?;
    let mut column = bundle(alloc, PType::U8, rows)?;
    keeps(&mut column, &mut ctx)
}

#[test]
fn no_scheme_skips_and_keeps_a_column(rt: HostRuntime) -> Result<(), Fail> {
    let rows = [Some(7), Some(8), Some(7)];
    let told = told_of(
        rt.alloc(),
        &NoScheme,
        &CompressorContext::new(),
        PType::U8,
        &rows,
    )?;
    let kept = keeps_rows(rt.alloc(), &rows)?;
    assert!(rt; told == (Told::Nothing, Told::Nothing) && kept);
    Ok(())
}
