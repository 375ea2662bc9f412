//! Operations one after another, and a query of what they leave.

use crate::answers::{context, document};
use std::alloc::Global;
use std::test::Fail;
use vx_base::{ExecutionCtx, VortexError};
use vx_document::Document;
use vx_query::{RowAnswer, RowOp, RowQuery, apply_all};

// What a query answers of 5, null, 7 after operations.
fn answer(
    alloc: Global,
    ops: &[RowOp],
    question: &RowQuery,
) -> Result<Result<RowAnswer, VortexError>, Fail> {
    let Document {
        column,
        words: _,
        commands: _,
    } = document(alloc, "\"i32?\"", "[5,null,7]", "[]")?;
    let tree = column.into_plain(alloc)?;
    let mut ctx: ExecutionCtx = context(alloc)?;
    Ok(apply_all(&tree, ops, question, &mut ctx))
}

#[test]
fn a_query_of_what_is_left(rt: HostRuntime) -> Result<(), Fail> {
    let alloc = rt.alloc();
    let ops = vec![in alloc; RowOp::Slice(1, 3), RowOp::Slice(0, 1)]?;
    let count = answer(alloc, ops.as_slice(), &RowQuery::NullCount)??;
    assert!(rt; matches!(count, RowAnswer::Count(1)));
    let none: Vec<RowOp> = Vec::new(alloc);
    let whole = answer(alloc, none.as_slice(), &RowQuery::NullCount)??;
    assert!(rt; matches!(whole, RowAnswer::Count(1)));
    let constant = answer(alloc, ops.as_slice(), &RowQuery::IsConstant)??;
    assert!(rt; matches!(constant, RowAnswer::Yes(true)));
    Ok(())
}

#[test]
fn the_first_refusal(rt: HostRuntime) -> Result<(), Fail> {
    let alloc = rt.alloc();
    let ops = vec![in alloc; RowOp::Slice(1, 3), RowOp::Slice(0, 9)]?;
    let refused = answer(alloc, ops.as_slice(), &RowQuery::Not)?;
    assert!(rt; matches!(refused, Err(VortexError::OutOfBounds)));
    let none: Vec<RowOp> = Vec::new(alloc);
    let refused = answer(alloc, none.as_slice(), &RowQuery::Not)?;
    assert!(rt; matches!(refused, Err(VortexError::MismatchedTypes)));
    Ok(())
}
