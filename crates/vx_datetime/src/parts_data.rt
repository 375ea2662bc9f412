//! The data of timestamps in parts beside their trees.

ghost use Rattle.vx_base.specs.Answers.{SurelyDecided};
ghost use Rattle.vx_base.specs.TypeOf.{type_of};
ghost use Rattle.vx_datetime.specs.Parts.{data_refusal};

use std::fmt;
use vx_array::ArrayRef;
use vx_base::{DType, VortexError, VortexResult};
use vx_temporal::are_parts_types;

/// The data of timestamps in parts beside their trees. There are none, so all are equal, and they print nothing.
#[derive(Clone, Copy, Debug)]
pub struct DateTimePartsData {}

impl DateTimePartsData {
    /// Whether three columns are the parts of timestamps of a type and `len` rows. Refuses MismatchedTypes where the type isn't
    /// one of timestamps, the parts aren't integers, the days are of another nullability, or seconds or subseconds are
    /// nullable, then LengthMismatch where a part has another length. Looks at no row.
    pub fn validate(
        dtype: &DType,
        days: &ArrayRef,
        seconds: &ArrayRef,
        subseconds: &ArrayRef,
        len: u64,
    ) -> VortexResult<()>
        ensures { SurelyDecided (data_refusal (type_of dtype.now) days.now seconds.now subseconds.now len) (λ _. Unit {0}) result }
    {
        let DType::Timestamp(_, nullability) = dtype else {
            return Err(VortexError::MismatchedTypes);
        };
        if !are_parts_types(*nullability, days, seconds, subseconds) {
            return Err(VortexError::MismatchedTypes);
        }
        if days.len() != len || seconds.len() != len || subseconds.len() != len {
            return Err(VortexError::LengthMismatch);
        }
        Ok(())
    }
}

impl PartialEq for DateTimePartsData {
    ghost use Rattle.std.specs.Prelude.{true, refl};

    ghost eq = { λ a b. true };

    ghost laws = { record { symm = λ a b. refl; trans = λ a b c d e. refl } };

    fn eq(&self, _other: &Self) -> bool {
        true
    }
}

impl Eq for DateTimePartsData {
    ghost use Rattle.std.specs.Prelude.{refl};

    ghost laws = { record { refl = λ a. refl; symm = λ a b. refl; congr = λ a b c e. refl } };
}

impl fmt::Display for DateTimePartsData {
    ghost use Rattle.std.specs.Prelude.{[], Some};

    ghost output = { λ a. Some [] };

    fn fmt<W: fmt::Write>(&self, _f: &mut fmt::Formatter<W>) -> fmt::Result {
        Ok(())
    }
}
