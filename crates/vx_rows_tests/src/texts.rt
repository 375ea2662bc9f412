//! Comparisons of texts, and of truth values, in their order.

use crate::columns::{has_truths, text, texts, texts_with_nulls, truths};
use std::test::Fail;
use vx_array::ArrayRef;
use vx_fixtures::context;
use vx_rows::CompareOperator::{Eq, Gt, Gte, Lt, Lte, NotEq};
use vx_rows::{compare, compare_scalar};

#[test]
fn texts_are_compared_with_one_text(rt: HostRuntime) -> Result<(), Fail> {
    let alloc = rt.alloc();
    let mut ctx = context(alloc)?;
    let rows = ["b", "ab", "b", "ba", ""];
    let column = texts_with_nulls(alloc, &rows, &[true, true, false, true, true])?;
    let (yes, no) = (Some(true), Some(false));
    let answers = [
        (Eq, [yes, no, None, no, no]),
        (NotEq, [no, yes, None, yes, yes]),
        (Lt, [no, yes, None, no, yes]),
        (Lte, [yes, yes, None, no, yes]),
        (Gt, [no, no, None, yes, no]),
        (Gte, [yes, no, None, yes, no]),
    ];
    for (operator, rows) in answers {
        let out = compare_scalar(&column, &text(alloc, "b")?, operator, &mut ctx)?;
        assert!(rt; has_truths(&out, &rows));
    }
    let same = ArrayRef::constant(text(alloc, "b")?, 5);
    let out = compare(&same, &column, Gt, &mut ctx)?;
    assert!(rt; has_truths(&out, &[no, yes, None, no, yes]));
    Ok(())
}

#[test]
fn texts_are_ordered_by_bytes_and_truth_values_false_first(rt: HostRuntime) -> Result<(), Fail> {
    let alloc = rt.alloc();
    let mut ctx = context(alloc)?;
    let column = texts_with_nulls(alloc, &["ab", "b", ""], &[true, true, false])?;
    let others = texts(alloc, &["abc", "a", "z"])?;
    let out = compare(&column, &others, Lt, &mut ctx)?;
    assert!(rt; has_truths(&out, &[Some(true), Some(false), None]));
    let out = compare_scalar(&column, &text(alloc, "b")?, Gte, &mut ctx)?;
    assert!(rt; has_truths(&out, &[Some(false), Some(true), None]));
    let column = truths(alloc, &[Some(false), Some(true), None])?;
    let others = truths(alloc, &[Some(true), Some(true), Some(true)])?;
    let out = compare(&column, &others, Lt, &mut ctx)?;
    assert!(rt; has_truths(&out, &[Some(true), Some(false), None]));
    Ok(())
}
