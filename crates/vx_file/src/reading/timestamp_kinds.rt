//! The reader of kinds of timestamps.

ghost use Rattle.std.specs.Prelude.{IfOk, IsTrue};
ghost use Rattle.vx_base.specs.Timestamps.{divides};
ghost use Rattle.vx_codec.specs.Lists.{optional};
ghost use Rattle.vx_codec.specs.Reads.{Reads};
ghost use Rattle.vx_spelling.specs.Fields.{name, timestamp_kind, unit};

use super::fields::read_name;
use std::alloc::Global;
use vx_base::{Text, TimeUnit, TimestampType};
use vx_codec::{ReadError, read_byte};

// The unit of timestamps: 0 to 3, from nanoseconds to seconds.
fn read_unit(bytes: &[u8]) -> Result<(TimeUnit, &[u8]), ReadError>
    ensures read { Reads (λ x. (x.0, x.1.now)) result (unit.parse bytes.now) }
    ensures divides { IfOk result (λ x. IsTrue (divides x.0)) }
{
    let (number, rest) = read_byte(bytes)?;
    match number {
        0 => Ok((TimeUnit::Nanoseconds, rest)),
        1 => Ok((TimeUnit::Microseconds, rest)),
        2 => Ok((TimeUnit::Milliseconds, rest)),
        3 => Ok((TimeUnit::Seconds, rest)),
        _ => Err(ReadError::Malformed),
    }
}

// The zone: 0 where there is none, or 1 and its name.
fn read_zone(alloc: Global, bytes: &[u8]) -> Result<(Option<Text>, &[u8]), ReadError>
    ensures { Reads (λ x. (x.0, x.1.now)) result ((optional name).parse bytes.now) }
{
    let (flag, rest) = read_byte(bytes)?;
    match flag {
        0 => Ok((None, rest)),
        1 => {
            let (name, rest) = read_name(alloc, rest)?;
            Ok((Some(name), rest))
        }
        _ => Err(ReadError::Malformed),
    }
}

/// A kind of timestamps: the unit, and 0, or 1 and the name of the zone.
pub(super) fn read_kind(alloc: Global, bytes: &[u8]) -> Result<(TimestampType, &[u8]), ReadError>
    ensures { Reads (λ x. (x.0, x.1.now)) result (timestamp_kind.parse bytes.now) }
{
    let (unit, rest) = read_unit(bytes)?;
    let (zone, rest) = read_zone(alloc, rest)?;
    match TimestampType::new(unit, zone) {
        Ok(kind) => Ok((kind, rest)),
        Err(_) => Err(ReadError::Malformed),
    }
}
