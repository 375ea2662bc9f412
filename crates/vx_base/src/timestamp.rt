//! The unit and the time zone of timestamps.

ghost use Rattle.std.specs.Prelude.{◌≡◌, ◌↔◌, IsTrue, None, option_copied};
ghost use Rattle.vx_base.specs.Answers.{Answers, MakesSurely, unless};
ghost use Rattle.vx_base.specs.Timestamps.{divisor_of, divides, unit_number};
ghost use Rattle.vx_base.specs.TypeText.{unit_text};
ghost use Rattle.vx_base.specs.declared.error.VortexError.TheVariants.{DayUnit};

use crate::error::{Refused, VortexError, VortexResult};
use crate::text::Text;
use std::alloc::Global;
use std::marker::Model;

/// The units in which time is counted.
#[derive(Clone, Copy, Debug, PartialEq, Eq, Hash)]
pub enum TimeUnit {
    Nanoseconds,
    Microseconds,
    Milliseconds,
    Seconds,
    Days,
}

impl TimeUnit {
    /// The number of units in a second, None of days.
    pub fn divisor(self) -> Option<i64>
        ensures { result ≡ divisor_of self }
    {
        match self {
            TimeUnit::Nanoseconds => Some(1_000_000_000),
            TimeUnit::Microseconds => Some(1_000_000),
            TimeUnit::Milliseconds => Some(1_000),
            TimeUnit::Seconds => Some(1),
            TimeUnit::Days => None,
        }
    }

    /// The name, such as `us`.
    pub fn name(self) -> &'static str
        ensures { result.now ≡ unit_text self }
    {
        match self {
            TimeUnit::Nanoseconds => "ns",
            TimeUnit::Microseconds => "us",
            TimeUnit::Milliseconds => "ms",
            TimeUnit::Seconds => "s",
            TimeUnit::Days => "days",
        }
    }

    // The number that is hashed.
    pub(crate) fn number(self) -> u8
        ensures { result ≡ unit_number self }
    {
        match self {
            TimeUnit::Nanoseconds => 0,
            TimeUnit::Microseconds => 1,
            TimeUnit::Milliseconds => 2,
            TimeUnit::Seconds => 3,
            TimeUnit::Days => 4,
        }
    }
}

/// A unit that divides a second, and the name of a time zone if there is one.
#[derive(Debug, Drop)]
pub struct TimestampType {
    unit: TimeUnit,
    zone: Option<Text>,
}

impl Model for TimestampType {
    ghost use Rattle.std.specs.Prelude.{IsTrue};
    ghost use Rattle.vx_base.specs.Timestamps.{PlainTimestamp, kind, kind_code, divides};

    ghost Value = { PlainTimestamp };

    ghost coded = { kind_code };

    ghost view = { λ a. kind a.unit a.zone };

    ghost invariant = { λ a. IsTrue (divides a.unit) };
}

impl TimestampType {
    ghost use Rattle.vx_base.specs.Timestamps.{kind};

    /// A unit and a time zone, whose name may be any text. Refuses DayUnit where the unit is days, and hands the zone back.
    pub fn new(unit: TimeUnit, zone: Option<Text>) -> Result<TimestampType, Refused<Option<Text>>>
        ensures { MakesSurely (unless (divides unit) DayUnit None) (kind unit zone) zone result }
    {
        if unit.divisor().is_none() {
            return Err(Refused {
                error: VortexError::DayUnit,
                inputs: zone,
            });
        }
        Ok(TimestampType { unit, zone })
    }

    /// The unit, which is never days.
    pub fn unit(&self) -> TimeUnit
        ensures unit { result ≡ self.now.unit }
        ensures divides { IsTrue (divides result) }
    {
        self.unit
    }

    pub fn zone(&self) -> Option<&Text>
        ensures { option_copied result ≡ self.now.zone }
    {
        self.zone.as_ref()
    }

    /// A copy.
    pub fn copy(&self, alloc: Global) -> VortexResult<TimestampType>
        ensures { Answers result self.now }
    {
        let zone = match &self.zone {
            Some(zone) => Some(zone.copy(alloc)?),
            None => None,
        };
        Ok(TimestampType {
            unit: self.unit,
            zone,
        })
    }

    /// Whether unit and zone are equal.
    pub fn same(&self, other: &TimestampType) -> bool
        ensures { IsTrue result ↔ (self.now ≡ other.now) }
    {
        self.unit == other.unit && same_zone(&self.zone, &other.zone)
    }
}

fn same_zone(zone: &Option<Text>, other: &Option<Text>) -> bool
    ensures { IsTrue result ↔ (zone.now ≡ other.now) }
{
    match (zone, other) {
        (Some(zone), Some(other)) => zone.same(other),
        (None, None) => true,
        (Some(_), None) | (None, Some(_)) => false,
    }
}
