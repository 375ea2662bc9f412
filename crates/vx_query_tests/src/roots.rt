//! Operations on sparse arrays and on timestamps in parts, and queries of them: each by the kernels of the root.

use std::alloc::Global;
use std::test::Fail;
use vx_array::{ArrayRef, Patches};
use vx_base::Nullability::{NonNullable, Nullable};
use vx_base::PType::{I32, I64, U8, U16};
use vx_base::TimeUnit::Seconds;
use vx_base::{DType, Scalar, VortexResult};
use vx_fixtures::{accepted, bits, context, flat, has_rows, has_stamps, utc};
use vx_query::{RowAnswer, RowOp, RowQuery, apply_all};
use vx_rules::CompareOperator::Gt;

// The rows 1, 10, 1, 20, 1, 30, 1, 1 of `i32`: three patches over 1.
fn patched(alloc: Global) -> VortexResult<ArrayRef> {
    let indices = flat(alloc, U16, NonNullable, &[1, 3, 5])?;
    let values = flat(alloc, I32, NonNullable, &[10, 20, 30])?;
    let patches = accepted(Patches::new(8, 0, indices, values))?;
    let fill = Scalar::primitive(1, I32, NonNullable)?;
    accepted(ArrayRef::sparse(alloc, patches, fill))
}

// The first seconds of three days in a row.
fn days(alloc: Global) -> VortexResult<ArrayRef> {
    let days = flat(alloc, I32, NonNullable, &[0, 1, 2])?;
    let seconds = flat(alloc, U8, NonNullable, &[0, 0, 0])?;
    let subseconds = flat(alloc, U8, NonNullable, &[0, 0, 0])?;
    let kind = utc(alloc, Seconds)?;
    accepted(ArrayRef::datetime_parts(alloc, kind, NonNullable, days, seconds, subseconds))
}

// What a query answers after one operation, or of the tree as it is.
fn answer(
    alloc: Global,
    tree: &ArrayRef,
    op: Option<RowOp>,
    question: &RowQuery,
) -> VortexResult<RowAnswer> {
    let mut ops = Vec::new(alloc);
    if let Some(op) = op {
        ops.push(op)?;
    }
    apply_all(tree, ops.as_slice(), question, &mut context(alloc)?)
}

// Whether an operation leaves these rows of the patched column.
fn leaves(alloc: Global, op: RowOp, rows: &[Option<i128>]) -> VortexResult<bool> {
    match answer(alloc, &patched(alloc)?, Some(op), &RowQuery::Rows)? {
        RowAnswer::Column(left) => Ok(has_rows(&left, rows)),
        _ => Ok(false),
    }
}

#[test]
fn operations_on_patches(rt: HostRuntime) -> Result<(), Fail> {
    let alloc = rt.alloc();
    assert!(rt; leaves(alloc, RowOp::Slice(2, 5), &[Some(1), Some(20), Some(1)])?);
    let keep = bits(
        alloc,
        &[true, true, false, false, false, true, false, false],
    )?;
    assert!(rt; leaves(alloc, RowOp::Filter(keep), &[Some(1), Some(10), Some(30)])?);
    let indices = flat(alloc, U8, NonNullable, &[5, 0])?;
    assert!(rt; leaves(alloc, RowOp::Take(indices), &[Some(30), Some(1)])?);
    let none = bits(alloc, &[false; 8])?;
    assert!(rt; leaves(alloc, RowOp::Mask(none), &[None; 8])?);
    Ok(())
}

#[test]
fn other_types_of_patches(rt: HostRuntime) -> Result<(), Fail> {
    let alloc = rt.alloc();
    let rows = [1, 10, 1, 20, 1, 30, 1, 1];
    let mut own = [None; 8];
    for row in 0..8 {
        own[row] = Some(rows[row]);
    }
    let wider = RowOp::Cast(DType::primitive(I64, Nullable));
    assert!(rt; leaves(alloc, wider, &own)?);
    let filled = RowOp::FillNull(Scalar::primitive(0, I32, NonNullable)?);
    assert!(rt; leaves(alloc, filled, &own)?);
    Ok(())
}

#[test]
fn queries_of_patches(rt: HostRuntime) -> Result<(), Fail> {
    let alloc = rt.alloc();
    let tree = patched(alloc)?;
    let constant = answer(alloc, &tree, None, &RowQuery::IsConstant)?;
    assert!(rt; matches!(constant, RowAnswer::Yes(false)));
    let nulls = answer(alloc, &tree, None, &RowQuery::NullCount)?;
    assert!(rt; matches!(nulls, RowAnswer::Count(0)));
    let RowAnswer::One(sum) = answer(alloc, &tree, None, &RowQuery::Sum)? else {
        assert!(rt; false);
        return Ok(());
    };
    assert!(rt; sum.json(alloc)?.as_str() == "65");
    let RowAnswer::One(row) = answer(alloc, &tree, None, &RowQuery::Row(3))? else {
        assert!(rt; false);
        return Ok(());
    };
    assert!(rt; row.json(alloc)?.as_str() == "20");
    Ok(())
}

#[test]
fn comparisons_of_patches(rt: HostRuntime) -> Result<(), Fail> {
    let alloc = rt.alloc();
    let over = RowQuery::Compare(Gt, Scalar::primitive(10, I32, NonNullable)?);
    let RowAnswer::Column(truths) = answer(alloc, &patched(alloc)?, None, &over)? else {
        assert!(rt; false);
        return Ok(());
    };
    let mut ctx = context(alloc)?;
    let none: Vec<RowOp> = Vec::new(alloc);
    let counted = apply_all(&truths, none.as_slice(), &RowQuery::Sum, &mut ctx)?;
    let RowAnswer::One(sum) = counted else {
        assert!(rt; false);
        return Ok(());
    };
    assert!(rt; sum.json(alloc)?.as_str() == "2");
    Ok(())
}

#[test]
fn moments_by_their_parts(rt: HostRuntime) -> Result<(), Fail> {
    let alloc = rt.alloc();
    let tree = days(alloc)?;
    let part = answer(alloc, &tree, Some(RowOp::Slice(1, 3)), &RowQuery::Rows)?;
    let RowAnswer::Column(left) = part else {
        assert!(rt; false);
        return Ok(());
    };
    assert!(rt; has_stamps(&left, &[Some(86_400), Some(172_800)]));
    let constant = answer(alloc, &tree, None, &RowQuery::IsConstant)?;
    assert!(rt; matches!(constant, RowAnswer::Yes(false)));
    let one = answer(
        alloc,
        &tree,
        Some(RowOp::Slice(2, 3)),
        &RowQuery::IsConstant,
    )?;
    assert!(rt; matches!(one, RowAnswer::Yes(true)));
    Ok(())
}
