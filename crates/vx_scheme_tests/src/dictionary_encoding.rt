//! Dictionaries of columns worked by hand.

ghost use Rattle.std.specs.Prelude.{IfOk, IsTrue};
ghost use Rattle.vx_base.specs.PlainType.{is_integer};
ghost use Rattle.vx_model.specs.TreeType.{tree_type};

use crate::shapes::{Shape, is_tree};
use std::test::Fail;
use vx_array::ArrayRef;
use vx_base::ArrayId::{Dict, Primitive};
use vx_base::ExecutionCtx;
use vx_base::PType::{I32, U8};
use vx_fixtures::{column, context};
use vx_scheme::{GenerateStatsOptions, IntegerStats};
use vx_schemes::integer_dictionary_encode;

const ASKED: GenerateStatsOptions = GenerateStatsOptions {
    count_distinct_values: true,
};

// The dictionary by the column's own statistics.
fn encoded(array: &ArrayRef, ctx: &mut ExecutionCtx) -> Result<ArrayRef, Fail>
    requires { IsTrue (is_integer (tree_type array.now)) }
    ensures { IfOk result (λ dict. IsTrue (is_integer (tree_type dict))) }
{
    let stats = IntegerStats::generate_opts(array, ASKED, ctx)?;
    if stats.value_count() == 0 {
        return Err(Fail::from("no value"));
    }
    Ok(integer_dictionary_encode(array, &stats, ctx)?)
}

// Whether a column's dictionary is this tree, and so is the dictionary's own.
fn is_encoded(
    array: &ArrayRef,
    ctx: &mut ExecutionCtx,
    root: Shape,
    children: &[Shape],
) -> Result<bool, Fail>
    requires { IsTrue (is_integer (tree_type array.now)) }
{
    let dict = encoded(array, ctx)?;
    let again = encoded(&dict, ctx)?;
    Ok(is_tree(&dict, root, children) && is_tree(&again, root, children))
}

#[test]
fn a_dictionary_is_encoded_as_its_column(rt: HostRuntime) -> Result<(), Fail> {
    let mut ctx = context(rt.alloc())?;
    let rows = &[Some(100), Some(200), Some(100), None, Some(100)];
    let array = column(rt.alloc(), I32, rows)?;
    let codes = &[Some(0), Some(1), Some(0), None, Some(0)][..];
    let values = &[Some(100), Some(200)][..];
    let children = [(Primitive, U8, 6, codes), (Primitive, I32, 8, values)];
    let made = is_encoded(&array, &mut ctx, (Dict, I32, 14, rows), &children)?;
    assert!(rt; made);
    Ok(())
}
