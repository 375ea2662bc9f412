//! The parts of columns of timestamps, and the trees over them.

use crate::asking::{bundle, split, stamp_bundle};
use std::alloc::Global;
use std::test::Fail;
use vx_array::ArrayRef;
use vx_base::Nullability::{NonNullable, Nullable};
use vx_base::PType::{I8, I16, I32, I64, U8, U16, U32};
use vx_base::TimeUnit::{Milliseconds, Seconds};
use vx_base::{ArrayId, DType, Nullability, PType, TimeUnit, VortexResult};
use vx_fixtures::{column, context, has_rows, has_stamps, made_of_taken};
use vx_scheme::Split;
use vx_schemes_time::TemporalScheme;

// Milliseconds in a day.
const DAY: i128 = 86_400_000;

// The type of a part and its rows.
type Part<'a> = (PType, &'a [Option<i128>]);

// Whether a part is the plain column of this type with these rows.
fn is_part(part: Option<&ArrayRef>, nullability: Nullability, (ptype, rows): Part) -> bool {
    match part {
        Some(part) => {
            let is_typed = *part.dtype() == DType::primitive(ptype, nullability);
            is_typed && part.is_plain() && has_rows(part, rows)
        }
        None => false,
    }
}

// Whether these are the parts of timestamps: days, seconds and subseconds.
fn has_parts(
    alloc: Global,
    unit: TimeUnit,
    rows: &[Option<i128>],
    parts: &[Part; 3],
) -> VortexResult<bool> {
    let mut column = stamp_bundle(alloc, unit, rows)?;
    let nullability = column.array().dtype().nullability();
    match split(&mut column, &mut context(alloc)?)? {
        Split::Parts(made) => Ok(
            made.len() == 3
                && is_part(made.get(0), nullability, parts[0])
                && is_part(made.get(1), NonNullable, parts[1])
                && is_part(made.get(2), NonNullable, parts[2]),
        ),
        _ => Ok(false),
    }
}

#[test]
fn a_null_has_no_day_and_zeros(rt: HostRuntime) -> Result<(), Fail> {
    let rows = [Some(3 * DAY + 5_250), None, Some(255 * DAY)];
    let parts = [
        (U8, &[Some(3), None, Some(255)][..]),
        (U8, &[Some(5), Some(0), Some(0)][..]),
        (U8, &[Some(250), Some(0), Some(0)][..]),
    ];
    assert!(rt; has_parts(rt.alloc(), Milliseconds, &rows, &parts)?);
    Ok(())
}

#[test]
fn each_part_has_its_narrowest_type(rt: HostRuntime) -> Result<(), Fail> {
    for (row, day, second, subsecond) in [
        (
            20_000 * DAY + 86_399_999,
            (U16, 20_000),
            (U32, 86_399),
            (U16, 999),
        ),
        (70_000 * DAY + 256_000, (U32, 70_000), (U16, 256), (U8, 0)),
        (-DAY - 128_001, (I8, -1), (I8, -128), (I8, -1)),
        (-300 * DAY - 300_300, (I16, -300), (I16, -300), (I16, -300)),
        (
            -40_000 * DAY - 40_000_000,
            (I32, -40_000),
            (I32, -40_000),
            (U8, 0),
        ),
    ] {
        let parts = [
            (day.0, &[Some(day.1), None][..]),
            (second.0, &[Some(second.1), Some(0)][..]),
            (subsecond.0, &[Some(subsecond.1), Some(0)][..]),
        ];
        let rows = [Some(row), None];
        assert!(rt;
            has_parts(rt.alloc(), Milliseconds, &rows, &parts)?,
            "{row}"
        );
    }
    Ok(())
}

#[test]
fn nulls_alone_are_split(rt: HostRuntime) -> Result<(), Fail> {
    let zeros = &[Some(0), Some(0)][..];
    let parts = [(U8, &[None, None][..]), (U8, zeros), (U8, zeros)];
    assert!(rt; has_parts(rt.alloc(), Milliseconds, &[None, None], &parts)?);
    Ok(())
}

#[test]
fn seconds_have_no_subseconds(rt: HostRuntime) -> Result<(), Fail> {
    let parts = [
        (U8, &[Some(1), Some(0)][..]),
        (I16, &[Some(3_723), Some(-1)][..]),
        (U8, &[Some(0), Some(0)][..]),
    ];
    let rows = [Some(90_123), Some(-1)];
    assert!(rt; has_parts(rt.alloc(), Seconds, &rows, &parts)?);
    Ok(())
}

// Whether a column stays plain.
fn is_kept(alloc: Global, array: ArrayRef) -> VortexResult<bool> {
    let made = split(&mut bundle(array)?, &mut context(alloc)?)?;
    Ok(matches!(made, Split::Kept))
}

#[test]
fn a_day_beyond_32_bits_keeps_the_column(rt: HostRuntime) -> Result<(), Fail> {
    let alloc = rt.alloc();
    let early = Some(i128::from(i64::MIN));
    let column = stamp_bundle(alloc, Seconds, &[Some(0), early])?;
    assert!(rt; is_kept(alloc, column.into_array())?);
    let parts = [
        (U8, &[Some(0), None][..]),
        (U8, &[Some(0), Some(0)][..]),
        (U8, &[Some(0), Some(0)][..]),
    ];
    assert!(rt; has_parts(alloc, Seconds, &[Some(0), None], &parts)?);
    Ok(())
}

#[test]
fn integers_are_kept(rt: HostRuntime) -> Result<(), Fail> {
    let alloc = rt.alloc();
    let array = column(alloc, I64, &[Some(86_400)])?;
    assert!(rt; is_kept(alloc, array)?);
    Ok(())
}

// Whether the tree over the parts is DateTimeParts of the column's type and rows.
fn comes_back(alloc: Global, unit: TimeUnit, rows: &[Option<i128>]) -> VortexResult<bool> {
    let mut column = stamp_bundle(alloc, unit, rows)?;
    let (parts, tree) = made_of_taken(&TemporalScheme, &mut column, &mut context(alloc)?)?;
    let is_tree = tree.encoding_id() == ArrayId::DateTimeParts;
    let is_typed = *tree.dtype() == *column.array().dtype();
    Ok(parts == 3 && is_tree && is_typed && has_stamps(&tree, rows))
}

#[test]
fn the_tree_has_the_rows(rt: HostRuntime) -> Result<(), Fail> {
    let alloc = rt.alloc();
    let moments = [Some(-86_400_001), None, Some(20_000 * DAY + 1), Some(0)];
    assert!(rt; comes_back(alloc, Milliseconds, &moments)?);
    assert!(rt; comes_back(alloc, Seconds, &[Some(-1), Some(90_123)])?);
    assert!(rt; comes_back(alloc, Milliseconds, &[None, None])?);
    Ok(())
}

#[test]
fn a_kept_column_is_joined_as_it_is(rt: HostRuntime) -> Result<(), Fail> {
    let alloc = rt.alloc();
    let rows = [Some(i128::from(i64::MAX)), None];
    let mut column = stamp_bundle(alloc, Seconds, &rows)?;
    let (parts, tree) = made_of_taken(&TemporalScheme, &mut column, &mut context(alloc)?)?;
    assert!(rt; parts == 0 && tree.is_plain() && has_stamps(&tree, &rows));
    Ok(())
}
