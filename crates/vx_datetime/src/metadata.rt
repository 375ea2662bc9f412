//! The metadata of timestamps in parts.

ghost use Rattle.std.specs.Prelude.{◌≡◌, pos, MatchOption, Some, None};
ghost use Rattle.vx_base.specs.Answers.{Decided};
ghost use Rattle.vx_base.specs.PlainType.{ptype_number};
ghost use Rattle.vx_datetime.specs.Metadata.{IsSpelled, metadata_in, of_ptypes, spelling, spelling_refusal};
ghost use Rattle.vx_datetime.specs.declared.metadata.DateTimePartsMetadata.{DateTimePartsMetadata};
ghost use Rattle.vx_metadata.specs.Answers.{ReadsTheOne};

use crate::array::DateTimePartsArray;
use std::alloc::Global;
use vx_array::Node;
use vx_base::{Bytes, PType, VortexError, VortexResult};
use vx_metadata::{ptype_number, ptype_of, put_numbers, read_numbers};

/// What an array of timestamps in parts has beside its type and its children: the integer types of days, seconds and
/// subseconds, by their numbers. As bytes it is a message of the fields 1, 2 and 3. The default names U8 thrice.
#[derive(Clone, Copy, Debug)]
pub struct DateTimePartsMetadata {
    pub days_ptype: i32,
    pub seconds_ptype: i32,
    pub subseconds_ptype: i32,
}

impl Default for DateTimePartsMetadata {
    ghost use Rattle.std.specs.Prelude.{◌≡◌, pos};
    ghost use Rattle.vx_datetime.specs.Metadata.{by_numbers};

    ghost is_default = { λ m. m ≡ by_numbers (pos 0) (pos 0) (pos 0) };

    fn default() -> DateTimePartsMetadata {
        of_ptypes(PType::U8, PType::U8, PType::U8)
    }
}

impl DateTimePartsMetadata {
    /// The metadata of an array, which can be serialized.
    pub fn of(array: &DateTimePartsArray) -> DateTimePartsMetadata
        ensures metadata { metadata_in array.now ≡ Some result }
        ensures named { spelling_refusal result ≡ None }
    {
        match array.as_array().node() {
            Node::DateTimeParts(_, _, days, seconds, subseconds) => of_ptypes(
                days.array.dtype().ptype(),
                seconds.array.dtype().ptype(),
                subseconds.array.dtype().ptype(),
            ),
            _ => unreachable!(),
        }
    }

    /// The spelling of the metadata. Refuses BadMetadata where a number is that of no integer type, and NoMemory.
    pub fn serialize(&self, alloc: Global) -> VortexResult<Bytes>
        ensures { Decided (spelling_refusal self.now) (λ bytes. bytes ≡ spelling self.now) result }
    {
        let days = ptype_number(self.get_days_ptype()?);
        let seconds = ptype_number(self.get_seconds_ptype()?);
        let subseconds = ptype_number(self.get_subseconds_ptype()?);
        let mut out = Vec::new(alloc);
        put_numbers(&mut out, days as u64, seconds as u64, subseconds as u64)?;
        Ok(Bytes::from_vec(out))
    }

    /// The metadata that bytes spell, of an array with a number of children. Refuses BadMetadata exactly where there are none:
    /// the bytes are no spelling, a number is that of no integer type, or the children aren't 3.
    pub fn deserialize(bytes: &Bytes, children: u64) -> VortexResult<DateTimePartsMetadata>
        ensures { ReadsTheOne (λ m. IsSpelled bytes.now children m) result }
    {
        if children != 3 {
            return Err(VortexError::BadMetadata);
        }
        match read_message(bytes.as_slice()) {
            Some(metadata) => Ok(metadata),
            None => Err(VortexError::BadMetadata),
        }
    }

    /// The integer type of the days; BadMetadata exactly where none has the number.
    pub fn get_days_ptype(&self) -> VortexResult<PType>
        ensures { ReadsTheOne (λ ptype. pos (ptype_number ptype) ≡ self.now.days_ptype) result }
    {
        named(self.days_ptype)
    }

    /// The integer type of the seconds; BadMetadata exactly where none has the number.
    pub fn get_seconds_ptype(&self) -> VortexResult<PType>
        ensures { ReadsTheOne (λ ptype. pos (ptype_number ptype) ≡ self.now.seconds_ptype) result }
    {
        named(self.seconds_ptype)
    }

    /// The integer type of the subseconds; BadMetadata exactly where none has the number.
    pub fn get_subseconds_ptype(&self) -> VortexResult<PType>
        ensures { ReadsTheOne (λ ptype. pos (ptype_number ptype) ≡ self.now.subseconds_ptype) result }
    {
        named(self.subseconds_ptype)
    }
}

// The numbers of three integer types.
fn of_ptypes(days: PType, seconds: PType, subseconds: PType) -> DateTimePartsMetadata
    ensures { result ≡ of_ptypes days seconds subseconds }
{
    DateTimePartsMetadata {
        days_ptype: i32::from(ptype_number(days)),
        seconds_ptype: i32::from(ptype_number(seconds)),
        subseconds_ptype: i32::from(ptype_number(subseconds)),
    }
}

// The metadata that bytes spell, of an array with three children; None exactly where there are none.
fn read_message(bytes: &[u8]) -> Option<DateTimePartsMetadata>
    ensures { MatchOption result ((m : DateTimePartsMetadata) → IsSpelled bytes.now 3 m → ⊥) (λ m. IsSpelled bytes.now 3 m) }
{
    let Ok((days, seconds, subseconds)) = read_numbers(bytes) else {
        return None;
    };
    let days = ptype_of(days)?;
    let seconds = ptype_of(seconds)?;
    let subseconds = ptype_of(subseconds)?;
    Some(of_ptypes(days, seconds, subseconds))
}

// The integer type with a number.
fn named(number: i32) -> VortexResult<PType>
    ensures { ReadsTheOne (λ ptype. pos (ptype_number ptype) ≡ number) result }
{
    if number < 0 {
        return Err(VortexError::BadMetadata);
    }
    match ptype_of(number as u64) {
        Some(ptype) => Ok(ptype),
        None => Err(VortexError::BadMetadata),
    }
}
