//! Files of each node, worked by a program of its own from the format alone.

use crate::making::{accepted, bits, bytes, flat, integer, integers, is_file, of_hex, one, text};
use std::alloc::Global;
use std::test::Fail;
use vx_array::{ArrayRef, Arrays, Patches};
use vx_base::Nullability::{NonNullable, Nullable};
use vx_base::PType::{I8, I16, I32, I64, U8, U16, U32};
use vx_base::{ByteRows, DType, Names, TimeUnit, TimestampType, VortexError, VortexResult};
use vx_file::FileError;

// Whether the file of a tree is these bytes, in hexadecimal, behind the mark and the number 1.
fn has_file(alloc: Global, tree: ArrayRef, expected: &str) -> Result<bool, FileError> {
    let trees = made(one(alloc, tree))?;
    let expected = made(of_hex(alloc, "565854524545533101", expected))?;
    is_file(alloc, &trees, expected.as_slice())
}

fn made<T: Drop>(made: VortexResult<T>) -> Result<T, FileError> {
    match made {
        Ok(made) => Ok(made),
        Err(_) => Err(FileError::NoMemory),
    }
}

#[test]
fn the_file_of_no_tree(rt: HostRuntime) -> Result<(), Fail> {
    let trees = Arrays::new_in(rt.alloc());
    let expected = [0x56, 0x58, 0x54, 0x52, 0x45, 0x45, 0x53, 0x31, 0];
    assert!(rt; is_file(rt.alloc(), &trees, &expected)?);
    Ok(())
}

#[test]
fn nulls_constants_and_sequences(rt: HostRuntime) -> Result<(), Fail> {
    let alloc = rt.alloc();
    assert!(rt; has_file(alloc, ArrayRef::null(3), "020003")?);
    let constant = ArrayRef::constant(integer(I64, 7)?, 3);
    assert!(rt; has_file(alloc, constant, "0e0803020007010700000000000000")?);
    let sequence = ArrayRef::sequence(I32, Nullable, 10, -3, 4)?;
    let spelled = "241606010a000000000000000000000000000000fdffffffffffffffffffffffffffffff04";
    assert!(rt; has_file(alloc, sequence, spelled)?);
    Ok(())
}

#[test]
fn truth_values_and_integers(rt: HostRuntime) -> Result<(), Fail> {
    let alloc = rt.alloc();
    let values = bits(
        alloc,
        &[true, false, true, true, false, true, true, true, true],
    )?;
    let valid = bits(
        alloc,
        &[true, true, true, true, true, true, true, true, false],
    )?;
    let truths = accepted(ArrayRef::bool(values, Some(valid), Nullable))?;
    assert!(rt; has_file(alloc, truths, "08010109ed0101ff00")?);
    let values = integers(alloc, I16, &[1, -2, 300])?;
    let valid = bits(alloc, &[true, false, true])?;
    let wholes = accepted(ArrayRef::primitive(values, Some(valid), Nullable))?;
    assert!(rt; has_file(alloc, wholes, "0c020501030100feff2c010105")?);
    Ok(())
}

#[test]
fn texts_and_binaries(rt: HostRuntime) -> Result<(), Fail> {
    let alloc = rt.alloc();
    let mut rows = ByteRows::new_in(alloc);
    for row in ["a", "", "é"] {
        let row = text(alloc, row)?.into_bytes();
        rows.push(row).ok().ok_or(VortexError::NoMemory)?;
    }
    let valid = bits(alloc, &[true, false, true])?;
    let texts = accepted(ArrayRef::var_bin_view(rows, Some(valid), DType::utf8(Nullable)))?;
    assert!(rt; has_file(alloc, texts, "0c0303010301610002c3a90105")?);
    let offsets = flat(alloc, U16, &[0, 1, 3])?;
    let content = bytes(alloc, b"abc")?;
    let valid = Some(bits(alloc, &[true, false])?);
    let pieces = ArrayRef::var_bin(alloc, offsets, content, valid, DType::utf8(Nullable));
    let spelled = "140b03010201000300000100030000036162630101";
    assert!(rt; has_file(alloc, accepted(pieces)?, spelled)?);
    Ok(())
}

#[test]
fn structs(rt: HostRuntime) -> Result<(), Fail> {
    let alloc = rt.alloc();
    let mut names = Names::new_in(alloc);
    let mut fields = Arrays::new_in(alloc);
    for name in ["a", ""] {
        let name = text(alloc, name)?;
        names.push(name).ok().ok_or(VortexError::NoMemory)?;
    }
    for field in [flat(alloc, U8, &[1, 2])?, ArrayRef::null(2)] {
        fields.push(field).ok().ok_or(VortexError::NoMemory)?;
    }
    let valid = Some(bits(alloc, &[false, true])?);
    let rows = accepted(ArrayRef::structure(alloc, names, fields, 2, valid, Nullable))?;
    assert!(rt; has_file(alloc, rows, "12040102020161020000020102000000020102")?);
    Ok(())
}

#[test]
fn lists(rt: HostRuntime) -> Result<(), Fail> {
    let alloc = rt.alloc();
    let elements = flat(alloc, U8, &[1, 2, 3])?;
    let offsets = flat(alloc, U8, &[0, 2, 2, 3])?;
    let valid = Some(bits(alloc, &[true, false, true])?);
    let lists = accepted(ArrayRef::list(alloc, elements, offsets, valid, Nullable))?;
    assert!(rt; has_file(alloc, lists, "15050102000003010203000200000400020203000105")?);
    let elements = flat(alloc, U8, &[1, 2, 3, 4])?;
    let valid = Some(bits(alloc, &[true, false])?);
    let pairs = ArrayRef::fixed_size_list(alloc, elements, 2, 2, valid, Nullable);
    assert!(rt; has_file(alloc, accepted(pairs)?, "0f060102020200000401020304000101")?);
    Ok(())
}

#[test]
fn timestamps(rt: HostRuntime) -> Result<(), Fail> {
    let alloc = rt.alloc();
    let zone = text(alloc, "UTC")?;
    let kind = accepted(TimestampType::new(TimeUnit::Microseconds, Some(zone)))?;
    let times = accepted(ArrayRef::timestamp(alloc, flat(alloc, I64, &[5])?, kind))?;
    let spelled = "140701010355544302070001050000000000000000";
    assert!(rt; has_file(alloc, times, spelled)?);
    let kind = accepted(TimestampType::new(TimeUnit::Seconds, None))?;
    let valid = Some(bits(alloc, &[true, false])?);
    let days = accepted(ArrayRef::primitive(integers(alloc, I32, &[1, 0])?, valid, Nullable))?;
    let seconds = flat(alloc, U32, &[60, 0])?;
    let subseconds = flat(alloc, U8, &[0, 0])?;
    let parts = ArrayRef::datetime_parts(alloc, kind, Nullable, days, seconds, subseconds);
    let spelled = "260d0300010206010201000000000000000101020200023c000000000000000002000002000000";
    assert!(rt; has_file(alloc, accepted(parts)?, spelled)?);
    Ok(())
}

#[test]
fn masks_codes_and_runs(rt: HostRuntime) -> Result<(), Fail> {
    let alloc = rt.alloc();
    let values = integers(alloc, U8, &[1, 2, 3])?;
    let child = accepted(ArrayRef::primitive(values, None, Nullable))?;
    let mask = bits(alloc, &[true, false, true])?;
    let masked = accepted(ArrayRef::masked(alloc, child, mask))?;
    assert!(rt; has_file(alloc, masked, "0a09020001030102030005")?);
    let codes = flat(alloc, U8, &[0, 1, 1])?;
    let dict = accepted(ArrayRef::dict(alloc, codes, flat(alloc, I32, &[10, 20])?))?;
    let spelled = "160a0200000300010100020600020a0000001400000000";
    assert!(rt; has_file(alloc, dict, spelled)?);
    let valid = Some(bits(alloc, &[true, false])?);
    let values = accepted(ArrayRef::primitive(integers(alloc, I64, &[7, 8])?, valid, Nullable))?;
    let runs = accepted(ArrayRef::run_end(alloc, flat(alloc, U8, &[2, 5])?, values))?;
    let spelled = "1e0e0200000202050002070102070000000000000008000000000000000101";
    assert!(rt; has_file(alloc, runs, spelled)?);
    Ok(())
}

#[test]
fn patches_over_a_fill(rt: HostRuntime) -> Result<(), Fail> {
    let alloc = rt.alloc();
    let values = flat(alloc, I8, &[1, -1])?;
    let patches = accepted(Patches::new(5, 2, flat(alloc, U8, &[3, 6])?, values))?;
    let sparse = accepted(ArrayRef::sparse(alloc, patches, integer(I8, 9)?))?;
    let spelled = "170c0502020000020306000204000201ff00000200040109";
    assert!(rt; has_file(alloc, sparse, spelled)?);
    let indices = flat(alloc, U16, &[1023, 1024])?;
    let values = flat(alloc, I8, &[1, -1])?;
    let chunks = flat(alloc, U8, &[0, 1])?;
    let patches = accepted(Patches::new_chunked(4, 1022, indices, values, chunks))?;
    let sparse = accepted(ArrayRef::sparse(alloc, patches, integer(I8, 9)?))?;
    let spelled = "210c04fe0702010002ff030004000204000201ff0001020000020001000200040109";
    assert!(rt; has_file(alloc, sparse, spelled)?);
    Ok(())
}

#[test]
fn packed_integers(rt: HostRuntime) -> Result<(), Fail> {
    let alloc = rt.alloc();
    let values = flat(alloc, I32, &[-5])?;
    let patches = Some(accepted(Patches::new(3, 1, flat(alloc, U8, &[2])?, values))?);
    let none = bytes(alloc, &[])?;
    let packed = ArrayRef::bit_packed(alloc, I32, 0, none, 3, None, patches, NonNullable);
    let spelled = "190f060000030001030102000001020002060001fbffffff0000";
    assert!(rt; has_file(alloc, accepted(packed)?, spelled)?);
    let offsets = flat(alloc, U8, &[0, 0])?;
    let none = bytes(alloc, &[])?;
    let blocks = ArrayRef::bit_packed_v2(alloc, U8, none, offsets, 3, None, None, NonNullable);
    assert!(rt; has_file(alloc, accepted(blocks)?, "0e1000000302000002000000000000")?);
    Ok(())
}

#[test]
fn references_and_zigzags(rt: HostRuntime) -> Result<(), Fail> {
    let alloc = rt.alloc();
    let encoded = flat(alloc, U8, &[0, 5])?;
    let frame = ArrayRef::frame_of_reference(alloc, encoded, integer(I8, -3)?);
    assert!(rt; has_file(alloc, accepted(frame)?, "0d110200000200050002000401fd")?);
    let valid = Some(bits(alloc, &[true, false])?);
    let encoded = accepted(ArrayRef::primitive(integers(alloc, U8, &[0, 5])?, valid, Nullable))?;
    let frames = ArrayRef::frame_of_reference_v2(alloc, encoded, flat(alloc, I8, &[-3])?);
    assert!(rt; has_file(alloc, accepted(frames)?, "0f12020001020005010102040001fd00")?);
    let zigzags = accepted(ArrayRef::zig_zag(alloc, flat(alloc, U16, &[3, 4])?))?;
    assert!(rt; has_file(alloc, zigzags, "0a15020100020300040000")?);
    Ok(())
}

#[test]
fn blocks_of_deltas_and_of_runs(rt: HostRuntime) -> Result<(), Fail> {
    let alloc = rt.alloc();
    let deltas = ArrayRef::constant(integer(U8, 2)?, 1024);
    let valid = Some(bits(alloc, &[false, true])?);
    let delta = ArrayRef::delta(alloc, flat(alloc, U8, &[3])?, deltas, 2, valid, Nullable);
    assert!(rt;
        has_file(
            alloc,
            accepted(delta)?,
            "1313010202000001030008800802000001020102"
        )?
    );
    let valid = Some(bits(alloc, &[true, false])?);
    let values = accepted(ArrayRef::primitive(integers(alloc, I16, &[4, 5])?, valid, Nullable))?;
    let indices = ArrayRef::sequence(U16, NonNullable, 0, 0, 1024)?;
    let runs = accepted(ArrayRef::rle(alloc, values, indices, flat(alloc, U8, &[1])?, 2))?;
    let spelled =
        "3714020205010204000500010116010000000000000000000000000000000000000000000000000000000000000000008008020000010100";
    assert!(rt; has_file(alloc, runs, spelled)?);
    Ok(())
}
