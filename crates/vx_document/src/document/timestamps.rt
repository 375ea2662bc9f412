//! Reads a type of timestamps from an object.

ghost use Rattle.std.specs.Prelude.{◌≡◌, IfOk, IfSome, IsTrue, option_map};
ghost use Rattle.serde_json.specs.View.{view, members_view};
ghost use Rattle.vx_base.specs.Timestamps.{divides};
ghost use Rattle.vx_base.specs.TypeOf.{type_of};
ghost use Rattle.vx_document.specs.Reading.{Gives};
ghost use Rattle.vx_document.specs.Types.{unit_named, unit_in, zone_in, timestamp_of};

use crate::document::members::{has_only, take_member};
use crate::document::type_parts::read_nullability;
use crate::document::unread::Unread;
use serde_json::{Map, Value};
use vx_base::{DType, Text, TimeUnit, TimestampType};

// The unit with this name. Days have none here, since no timestamp counts them.
#[tactic(auto, unfolding(crate::specs::Types::unit_named))]
fn unit_named(text: &str) -> Option<TimeUnit>
    ensures unit { result ≡ unit_named text.now }
    ensures divides { IfSome result (λ unit. IsTrue (divides unit)) }
{
    match text {
        "s" => Some(TimeUnit::Seconds),
        "ms" => Some(TimeUnit::Milliseconds),
        "us" => Some(TimeUnit::Microseconds),
        "ns" => Some(TimeUnit::Nanoseconds),
        _ => None,
    }
}

// The unit at the key `timestamp`, which has to be there.
fn read_unit(value: Option<Value>) -> Result<TimeUnit, Unread>
    ensures unit { Gives (λ unit. unit) result (unit_in (option_map view value)) }
    ensures divides { IfOk result (λ unit. IsTrue (divides unit)) }
{
    match value {
        Some(Value::String(text)) => unit_named(text.as_str()).ok_or(Unread::BadDocument),
        _ => Err(Unread::BadDocument),
    }
}

// The zone at the key `zone`, which may be absent.
fn read_zone(value: Option<Value>) -> Result<Option<Text>, Unread>
    ensures { Gives (λ zone. zone) result (zone_in (option_map view value)) }
{
    match value {
        None => Ok(None),
        Some(Value::String(text)) => Ok(Some(Text::from_string(text))),
        Some(_) => Err(Unread::BadDocument),
    }
}

// The type of timestamps that an object names.
#[tactic(auto, unfolding(crate::specs::Types::timestamp_of))]
pub(crate) fn read_timestamp(mut map: Map<String, Value>) -> Result<DType, Unread>
    ensures { Gives type_of result (timestamp_of (members_view map.entries)) }
{
    if !has_only(&map, &["timestamp", "zone", "nullable"]) {
        return Err(Unread::BadDocument);
    }
    let unit = read_unit(take_member(&mut map, "timestamp"))?;
    let zone = read_zone(take_member(&mut map, "zone"))?;
    let nullability = read_nullability(take_member(&mut map, "nullable"))?;
    match TimestampType::new(unit, zone) {
        Ok(kind) => Ok(DType::timestamp(kind, nullability)),
        // Each unit with a name divides a second.
        Err(_) => unreachable!(),
    }
}
