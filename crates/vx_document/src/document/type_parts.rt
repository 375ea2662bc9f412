//! The members that a type has beside its own key: its nullability, and the size of a fixed-size list.

ghost use Rattle.std.specs.Prelude.{option_map};
ghost use Rattle.serde_json.specs.View.{view};
ghost use Rattle.vx_document.specs.Reading.{Gives};
ghost use Rattle.vx_document.specs.Types.{nullability_in, size_in};

use crate::document::unread::Unread;
use serde_json::Value;
use vx_base::Nullability;

// The nullability at the key `nullable`; NonNullable where it is absent.
pub(crate) fn read_nullability(value: Option<Value>) -> Result<Nullability, Unread>
    ensures { Gives (λ n. n) result (nullability_in (option_map view value)) }
{
    match value {
        None | Some(Value::Bool(false)) => Ok(Nullability::NonNullable),
        Some(Value::Bool(true)) => Ok(Nullability::Nullable),
        Some(_) => Err(Unread::BadDocument),
    }
}

// The size at the key `size`, from 0 to 2^32 - 1, which has to be there.
pub(crate) fn read_size(value: Option<Value>) -> Result<u32, Unread>
    ensures { Gives (λ size. size) result (size_in (option_map view value)) }
{
    let Some(value) = value else {
        return Err(Unread::BadDocument);
    };
    let Some(size) = value.as_u64() else {
        return Err(Unread::BadDocument);
    };
    if size < 1 << 32 {
        Ok(size as u32)
    } else {
        Err(Unread::BadDocument)
    }
}
