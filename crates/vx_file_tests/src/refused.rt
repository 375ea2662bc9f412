//! Bytes that are no file, and trees that no file holds.

use crate::making::{accepted, integer, is_bad, of_hex, one};
use std::alloc::Global;
use std::test::Fail;
use vx_array::{ArrayRef, Arrays};
use vx_base::PType::U8;
use vx_base::{DType, Nullability, Scalar, VortexResult};
use vx_file::{FileError, read_file, write_file};

// The mark of a file, and the number 1 of trees.
const HEAD: &str = "565854524545533101";

// Whether these bytes behind the mark and the number of trees are no file.
fn is_refused(alloc: Global, spelled: &str) -> VortexResult<bool> {
    is_bad(alloc, of_hex(alloc, HEAD, spelled)?.as_slice())
}

#[test]
fn a_byte_more_or_less_is_refused(rt: HostRuntime) -> Result<(), Fail> {
    let alloc = rt.alloc();
    let file = of_hex(alloc, HEAD, "0e0803020007010700000000000000")?;
    let file = file.as_slice();
    for end in 0..file.len() {
        assert!(rt; is_bad(alloc, &file[..end])?, "{end}");
    }
    assert!(rt; is_refused(alloc, "0e080302000701070000000000000000")?);
    Ok(())
}

#[test]
fn other_spellings_are_refused(rt: HostRuntime) -> Result<(), Fail> {
    let table = [
        // The length 14 in two bytes.
        "8e000803020007010700000000000000",
        // A frame longer than its tree.
        "0f080302000701070000000000000000",
        // Validity without a false.
        "06010102030103",
        // A padding bit that is 1.
        "050101020700",
        // A nullability, a type and an id that are none.
        "050102020100",
        "0702090002010200",
        "03170003",
        // A zone's flag 2, and a zone that is not UTF-8.
        "1007010202070001050000000000000000",
        "1207010101ff02070001050000000000000000",
        // A value of null in a type that has none.
        "06080302000000",
        // Chunk offsets of bit-packed patches.
        "1f0f060000030001030102000001020002060001fbffffff0001020000010000",
        // A code 2 over two values.
        "160a0200000300010200020600020a0000001400000000",
        // Rows above the limit.
        "0b0882a88080080200000107",
    ];
    for spelled in table {
        assert!(rt; is_refused(rt.alloc(), spelled)?, "{spelled}");
    }
    Ok(())
}

#[test]
fn counts_that_are_merely_named_take_no_memory(rt: HostRuntime) -> Result<(), Fail> {
    let table = [
        // 2^64 - 1 truth values, integers, texts and fields.
        "0d0100ffffffffffffffffff0100",
        "0e020000ffffffffffffffffff0100",
        "0e030300ffffffffffffffffff0100",
        "0f040001ffffffffffffffffff010000",
        // 2^31 packed rows of 64 bits.
        "0a0f030040808080800800",
    ];
    for spelled in table {
        assert!(rt; is_refused(rt.alloc(), spelled)?, "{spelled}");
    }
    Ok(())
}

// Whether the trees have a file that is read; else they are not storable.
fn are_stored(alloc: Global, trees: &Arrays) -> Result<bool, FileError> {
    match write_file(alloc, trees) {
        Ok(file) => {
            let read = read_file(alloc, &file)?;
            Ok(read.len() == trees.len())
        }
        Err(FileError::NotStorable) => Ok(false),
        Err(error) => Err(error),
    }
}

#[test]
fn rows_above_the_limit_are_not_stored(rt: HostRuntime) -> Result<(), Fail> {
    let alloc = rt.alloc();
    let most = one(alloc, ArrayRef::constant(integer(U8, 7)?, 2_147_488_769))?;
    assert!(rt; are_stored(alloc, &most)?);
    let above = one(alloc, ArrayRef::constant(integer(U8, 7)?, 2_147_488_770))?;
    assert!(rt; !are_stored(alloc, &above)?);
    Ok(())
}

// A path of nodes, all frames of reference but the last.
fn path(alloc: Global, nodes: u64) -> VortexResult<ArrayRef> {
    let mut tree = ArrayRef::constant(integer(U8, 0)?, 1);
    for _ in 1..nodes {
        tree = accepted(ArrayRef::frame_of_reference(alloc, tree, integer(U8, 1)?))?;
    }
    Ok(tree)
}

#[test]
fn paths_of_65_nodes_are_not_stored(rt: HostRuntime) -> Result<(), Fail> {
    let alloc = rt.alloc();
    assert!(rt; are_stored(alloc, &one(alloc, path(alloc, 64)?)?)?);
    assert!(rt; !are_stored(alloc, &one(alloc, path(alloc, 65)?)?)?);
    Ok(())
}

// A constant of null in lists of lists, so many types nested.
fn nested(alloc: Global, types: u64) -> VortexResult<ArrayRef> {
    let mut dtype = DType::null();
    for _ in 1..types {
        dtype = DType::list(Box::new(alloc, dtype)?, Nullability::Nullable);
    }
    Ok(ArrayRef::constant(accepted(Scalar::null(dtype))?, 1))
}

#[test]
fn types_that_nest_65_deep_are_not_stored(rt: HostRuntime) -> Result<(), Fail> {
    let alloc = rt.alloc();
    assert!(rt; are_stored(alloc, &one(alloc, nested(alloc, 64)?)?)?);
    assert!(rt; !are_stored(alloc, &one(alloc, nested(alloc, 65)?)?)?);
    Ok(())
}
