//! Columns of trees as documents, and which are too many to be written. The expected texts are worked out by hand.

use std::alloc::Global;
use std::test::Fail;
use vx_array::{ArrayRef, Arrays, Patches};
use vx_base::Nullability::{NonNullable, Nullable};
use vx_base::PType::{I32, U8, U64};
use vx_base::VortexResult;
use vx_document::{documents_text, extents_are_few};
use vx_fixtures::{accepted, flat, list_scalar, with_nulls};

// Whether these columns are written as this text.
fn are_written(alloc: Global, trees: Vec<ArrayRef>, text: &str) -> Result<bool, Fail> {
    match documents_text(alloc, Arrays::from_vec(trees))? {
        Some(written) => Ok(written.as_str() == text),
        None => Ok(false),
    }
}

// Whether this column is written as this text.
fn is_written(alloc: Global, tree: ArrayRef, text: &str) -> Result<bool, Fail> {
    let mut trees = Vec::new(alloc);
    trees.push(tree)?;
    are_written(alloc, trees, text)
}

#[test]
fn each_column_is_a_line(rt: HostRuntime) -> Result<(), Fail> {
    let alloc = rt.alloc();
    let mut trees = Vec::new(alloc);
    trees.push(with_nulls(alloc, U8, &[3, 0], &[true, false])?)?;
    trees.push(ArrayRef::null(1))?;
    let text =
        "{\"type\":\"u8?\",\"rows\":[3,null],\"words\":[0]}\n{\"type\":\"null\",\"rows\":[null],\"words\":[0]}\n";
    assert!(rt; are_written(alloc, trees, text)?);
    Ok(())
}

// The rows 5, 6 and 9 as a base and differences, which fill a block.
fn deltas(alloc: Global) -> VortexResult<ArrayRef> {
    let bases = flat(alloc, I32, NonNullable, &[5])?;
    let mut steps = vec![in alloc; 0i128; 1024]?;
    steps[1] = 1;
    steps[2] = 3;
    let differences = flat(alloc, I32, NonNullable, steps.as_slice())?;
    accepted(ArrayRef::delta(alloc, bases, differences, 3, None, NonNullable))
}

#[test]
fn deltas_are_summed(rt: HostRuntime) -> Result<(), Fail> {
    let text = "{\"type\":\"i32\",\"rows\":[5,6,9],\"words\":[0]}\n";
    assert!(rt; is_written(rt.alloc(), deltas(rt.alloc())?, text)?);
    Ok(())
}

// A null list, which hides an element, and a list of two.
#[test]
fn deltas_within_lists_are_summed(rt: HostRuntime) -> Result<(), Fail> {
    let alloc = rt.alloc();
    let offsets = flat(alloc, U8, NonNullable, &[0, 1, 3])?;
    let valid = vx_fixtures::bits(alloc, &[false, true])?;
    let lists = accepted(ArrayRef::list(alloc, deltas(alloc)?, offsets, Some(valid), Nullable))?;
    let text =
        "{\"type\":{\"list\":\"i32\",\"nullable\":true},\"rows\":[null,[6,9]],\"words\":[0]}\n";
    assert!(rt; is_written(alloc, lists, text)?);
    Ok(())
}

// Five lists: 1 alone in row 3, and 7, 8 in the others.
fn sparse(alloc: Global, len: u64) -> VortexResult<ArrayRef> {
    let indices = flat(alloc, U64, NonNullable, &[3])?;
    let values = ArrayRef::constant(list_scalar(alloc, &[1])?, 1);
    let patches = accepted(Patches::new(len, 0, indices, values))?;
    accepted(ArrayRef::sparse(alloc, patches, list_scalar(alloc, &[7, 8])?))
}

#[test]
fn a_sparse_column_of_lists(rt: HostRuntime) -> Result<(), Fail> {
    let text =
        "{\"type\":{\"list\":\"i32\"},\"rows\":[[7,8],[7,8],[7,8],[1],[7,8]],\"words\":[0]}\n";
    assert!(rt; is_written(rt.alloc(), sparse(rt.alloc(), 5)?, text)?);
    Ok(())
}

// 2^26 rows are few, also of nested columns: three elements in each of 22,369,621 rows are 2^26 - 1, and two in each of 2^25
// rows beside one row of one are 2^26 + 1.
#[test]
fn columns_are_few_up_to_2_to_the_26_rows(rt: HostRuntime) -> Result<(), Fail> {
    let alloc = rt.alloc();
    let three = ArrayRef::constant(list_scalar(alloc, &[1, 2, 3])?, 22_369_621);
    let more = ArrayRef::constant(list_scalar(alloc, &[1, 2, 3])?, 22_369_622);
    assert!(rt;
        extents_are_few(&ArrayRef::null(1 << 26))
            && !extents_are_few(&ArrayRef::null((1 << 26) + 1))
    );
    assert!(rt; extents_are_few(&three) && !extents_are_few(&more));
    assert!(rt;
        extents_are_few(&sparse(alloc, 1 << 25)?)
            && !extents_are_few(&sparse(alloc, (1 << 25) + 1)?)
    );
    Ok(())
}

// As many rows as bytes: each takes more than one.
#[test]
fn a_long_text_is_none(rt: HostRuntime) -> Result<(), Fail> {
    let mut trees = Vec::new(rt.alloc());
    trees.push(ArrayRef::null(1 << 26))?;
    assert!(rt; documents_text(rt.alloc(), Arrays::from_vec(trees))?.is_none());
    Ok(())
}
