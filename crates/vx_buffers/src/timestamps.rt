//! Plain columns of a caller's timestamps.

ghost use Rattle.std.specs.Prelude.{◌≡◌, MatchOption, true, false};
ghost use Rattle.std.specs.Str.{is_utf8};
ghost use Rattle.vx_base.specs.Timestamps.{unit_at};
ghost use Rattle.vx_buffers.specs.Answered.{Answered};
ghost use Rattle.vx_buffers.specs.Given.{given_kind, given_timestamps, given_zone, stamped};

use crate::given::given_integers;
use crate::refusal::Refusal;
use std::alloc::Global;
use vx_array::ArrayRef;
use vx_base::{IntList, Text, TimeUnit, TimestampType};
use vx_values::Ints;

// The unit with a number; days above 3, which no timestamp has.
fn unit_at(number: u8) -> TimeUnit
    ensures { result ≡ unit_at number }
{
    match number {
        0 => TimeUnit::Nanoseconds,
        1 => TimeUnit::Microseconds,
        2 => TimeUnit::Milliseconds,
        3 => TimeUnit::Seconds,
        _ => TimeUnit::Days,
    }
}

// The bytes as a text, None where they aren't UTF-8.
fn as_text(bytes: &[u8]) -> Option<&str>
    ensures { MatchOption result (is_utf8 bytes.now ≡ false) (λ text. (text.now ≡ bytes.now) × (is_utf8 bytes.now ≡ true)) }
{
    match std::str::from_utf8(bytes) {
        Ok(text) => Some(text),
        Err(_) => None,
    }
}

// The zone with this name; none where the flag is 0.
fn given_zone(alloc: Global, has_zone: u8, name: &[u8]) -> Result<Option<Text>, Refusal>
    ensures { Answered (given_zone has_zone name.now) result }
{
    if has_zone == 0 {
        return Ok(None);
    }
    match as_text(name) {
        Some(text) => Ok(Some(Text::from_string(String::from_str(alloc, text)?))),
        None => Err(Refusal::NotUtf8),
    }
}

// The kind of timestamps of a unit and a zone.
#[tactic(auto, using(crate::proofs::Passing::passing))]
fn given_kind(alloc: Global, unit: u8, has_zone: u8, name: &[u8]) -> Result<TimestampType, Refusal>
    ensures { Answered (given_kind unit has_zone name.now) result }
{
    let zone = given_zone(alloc, has_zone, name)?;
    match TimestampType::new(unit_at(unit), zone) {
        Ok(kind) => Ok(kind),
        Err(_) => Err(Refusal::BadUnit),
    }
}

// The integers as timestamps of a kind.
fn stamped(alloc: Global, integers: ArrayRef, kind: TimestampType) -> Result<ArrayRef, Refusal>
    ensures { Answered (stamped integers kind) result }
{
    match ArrayRef::timestamp(alloc, integers, kind) {
        Ok(column) => Ok(column),
        Err(refused) => Err(Refusal::from(refused.error)),
    }
}

/// A column of timestamps. The unit is 0 of nanoseconds, 1 of microseconds, 2 of milliseconds and 3 of seconds; the zone has
/// the name where the flag isn't 0.
#[tactic(auto, using(crate::proofs::Passing::passing))]
pub fn given_timestamps(
    alloc: Global,
    rows: &[i64],
    form: u8,
    valid: &[u8],
    offset: u64,
    unit: u8,
    has_zone: u8,
    zone: &[u8],
) -> Result<ArrayRef, Refusal>
    ensures { Answered (given_timestamps rows.now form valid.now offset unit has_zone zone.now) result }
{
    let kind = given_kind(alloc, unit, has_zone, zone)?;
    let values = Ints::I64(IntList::from_vec(Vec::from_slice(alloc, rows)?));
    let integers = given_integers(alloc, values, form, valid, offset)?;
    stamped(alloc, integers, kind)
}
