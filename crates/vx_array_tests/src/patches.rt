//! The search for the patch of a row.

ghost use Rattle.std.specs.Prelude.{◌≡◌, ◌<◌};

use std::marker::Brand;
use std::sync::ledger::{Blank, Ledger};
use std::test::Fail;
use vx_array::Patches;
use vx_base::Nullability::NonNullable;
use vx_base::PType::{I16, U8};
use vx_base::Steps;
use vx_fixtures::{accepted, flat};

// The place of the row's patch, with a count of its own.
fn found<L: Ledger>(patches: &Patches, row: u64, blank: Blank) -> Option<u64>
    requires row { row < patches.now.array_len }
    requires name { blank.name ≡ L.name }
    requires parts { blank.parts ≡ L.parts }
    requires some { 0 < L.parts }
{
    let mut steps = Steps::<L>::new(blank);
    patches.search(row, &mut steps)
}

// `found` where there is such a row, else None.
pub(crate) fn place_of(patches: &Patches, row: u64) -> Option<u64> {
    if row < patches.array_len() {
        found::<Brand>(patches, row, Blank::new(1))
    } else {
        None
    }
}

#[test]
fn a_patch_is_found_by_its_row(rt: HostRuntime) -> Result<(), Fail> {
    let indices = flat(rt.alloc(), U8, NonNullable, &[3, 5, 9])?;
    let values = flat(rt.alloc(), I16, NonNullable, &[9, 9, 9])?;
    // Of eight rows at offset 2: in rows 1, 3 and 7.
    let patches = accepted(Patches::new(8, 2, indices, values))?;
    assert!(rt;
        place_of(&patches, 1) == Some(0)
            && place_of(&patches, 7) == Some(2)
            && place_of(&patches, 0).is_none()
            && place_of(&patches, 6).is_none()
    );
    Ok(())
}
