//! Writers of timestamps, over their storage and in parts, behind their ids.

ghost use Rattle.std.specs.Prelude.{◌≡◌, ◌++◌, IsTrue, OnOk};
ghost use Rattle.vx_spelling.specs.Fields.{nullability, timestamp_kind};
ghost use Rattle.vx_spelling.specs.Storable.{all_within};
ghost use Rattle.vx_spelling.specs.TreeSpelling.{tree_text};

use super::fields::{put_kind, put_nullability};
use super::tree::{put_tree, put_two};
use std::alloc::AllocError;
use vx_array::Child;
use vx_base::{Nullability, TimestampType};

/// Appends timestamps: their kind, and the storage.
#[cycle(put_tree)]
pub(super) fn put_timestamp(
    out: &mut Vec<u8>,
    storage: &Child,
    kind: &TimestampType,
) -> Result<(), AllocError>
    requires { IsTrue (all_within storage.now.array.value) }
    ensures { OnOk result (out.new.items ≡ out.old.items ++ (timestamp_kind.spell kind.now ++ tree_text storage.now.array.value)) }
{
    put_kind(out, kind)?;
    put_tree(out, &storage.array)
}

/// Appends timestamps in parts: their kind and nullability, days, seconds, subseconds.
#[cycle(put_tree)]
pub(super) fn put_datetime_parts(
    out: &mut Vec<u8>,
    kind: &TimestampType,
    nulls: Nullability,
    days: &Child,
    seconds: &Child,
    subseconds: &Child,
) -> Result<(), AllocError>
    requires days_within { IsTrue (all_within days.now.array.value) }
    requires seconds_within { IsTrue (all_within seconds.now.array.value) }
    requires subseconds_within { IsTrue (all_within subseconds.now.array.value) }
    ensures { OnOk result (out.new.items ≡ out.old.items ++ ((timestamp_kind.spell kind.now ++ nullability.spell nulls) ++ (tree_text days.now.array.value ++ (tree_text seconds.now.array.value ++ tree_text subseconds.now.array.value)))) }
{
    put_kind(out, kind)?;
    put_nullability(out, nulls)?;
    put_tree(out, &days.array)?;
    put_two(out, seconds, subseconds)
}
