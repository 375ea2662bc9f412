//! Timestamps over their storage.

use std::alloc::Global;
use std::test::Fail;
use vx_array::ArrayRef;
use vx_base::PType::{I64, U64};
use vx_base::{Refused, Text, TimeUnit, TimestampType, VortexError, VortexResult};
use vx_fixtures::{accepted, with_nulls};

// Seconds in a time zone.
fn seconds(alloc: Global) -> VortexResult<TimestampType> {
    let zone = Text::from_string(String::from_str(alloc, "UTC")?);
    accepted(TimestampType::new(TimeUnit::Seconds, Some(zone)))
}

// Whether there are two rows, 5 and null.
fn begins(tree: &ArrayRef) -> bool {
    if tree.len() != 2 || !tree.dtype().is_flat() {
        return false;
    }
    tree.cell_at(0).integer() == Some(5) && tree.cell_at(1).is_null()
}

#[test]
fn timestamps_are_copied_and_made_plain(rt: HostRuntime) -> Result<(), Fail> {
    let storage = with_nulls(rt.alloc(), I64, &[5, -7], &[true, false])?;
    let tree = accepted(ArrayRef::timestamp(rt.alloc(), storage, seconds(rt.alloc())?))?;
    let plain = tree.copy(rt.alloc())?.canonical(rt.alloc())?;
    let was_not_plain = tree.nbytes() == 17 && tree.num_children() == 1 && !tree.is_plain();
    assert!(rt;
        was_not_plain && plain.is_plain() && plain.dtype() == tree.dtype() && begins(&plain)
    );
    Ok(())
}

#[test]
fn other_integers_are_no_timestamps(rt: HostRuntime) -> Result<(), Fail> {
    let storage = with_nulls(rt.alloc(), U64, &[5, 7], &[true, false])?;
    let Err(refused) = ArrayRef::timestamp(rt.alloc(), storage, seconds(rt.alloc())?) else {
        return Err(Fail::from("timestamps over u64"));
    };
    let Refused { error, inputs } = refused;
    assert!(rt; matches!(error, VortexError::MismatchedTypes) && inputs.0.len() == 2);
    Ok(())
}

#[test]
fn ranges_of_plain_timestamps_are_plain(rt: HostRuntime) -> Result<(), Fail> {
    let storage = with_nulls(rt.alloc(), I64, &[5, 0, 5], &[true, false, true])?;
    let tree = accepted(ArrayRef::timestamp(rt.alloc(), storage, seconds(rt.alloc())?))?;
    assert!(rt; tree.is_plain() && tree.dtype().is_flat() && tree.len() == 3);
    let some = tree.gather(rt.alloc(), &[(1, 3)])?;
    assert!(rt; some.is_plain() && some.dtype() == tree.dtype() && some.nbytes() == 17);
    Ok(())
}
