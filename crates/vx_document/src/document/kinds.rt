//! The kinds of flat rows: how a row that isn't null is read, and the default beneath a null.

ghost use Rattle.std.specs.Prelude.{◌≡◌, false, option_map, string_bytes, refl};
ghost use Rattle.serde_json.specs.View.{view};
ghost use Rattle.vx_base.specs.declared.dtype.Nullability.TheVariants.{NonNullable};
ghost use Rattle.vx_base.specs.Defaults.{default_of};
ghost use Rattle.vx_base.specs.PlainType.{PlainType, boolean, primitive, utf8, binary, nullability_of};
ghost use Rattle.vx_base.specs.PlainValue.{PlainValue, truth, int, bytes, is_null, is_short};
ghost use Rattle.vx_base.specs.TypeOf.{value_of};
ghost use Rattle.vx_document.specs.Reading.{Gives, when};
ghost use Rattle.vx_document.specs.RowsOf.{row_of, bytes_of_digits};

use crate::document::unread::Unread;
use hex::FromHexError;
use serde_json::Value;
use std::alloc::Global;
use std::marker::PhantomData;
use vx_base::{Bytes, Integer, Text};

// A kind of flat rows.
pub(crate) trait Kind {
    // A row that isn't null.
    type Item: Drop;

    // The type, not nullable.
    ghost dtype: { PlainType };

    // The value that an item is.
    ghost seen: { Self.Item → PlainValue };

    // Reads a row that isn't null.
    fn read(alloc: Global, value: Value) -> Result<Self::Item, Unread>
        ensures { Gives seen result (row_of dtype (view value)) };

    // The default of the type, which stands beneath a null.
    fn default(alloc: Global) -> Self::Item
        ensures { seen result ≡ default_of dtype };

    // An item as a value.
    fn into_value(item: Self::Item) -> vx_base::Value
        ensures { value_of result ≡ seen item };

    ghost no_nulls: { nullability_of dtype ≡ NonNullable };

    ghost not_null: { (x : Self.Item) → is_null (seen x) ≡ false };
}

// Truth values.
pub(crate) struct Truths;

impl Kind for Truths {
    type Item = bool;

    ghost dtype = { boolean NonNullable };

    ghost seen = { truth };

    #[tactic(auto, unfolding(crate::specs::RowsOf::row_of))]
    fn read(_alloc: Global, value: Value) -> Result<bool, Unread> {
        match value {
            Value::Bool(bit) => Ok(bit),
            _ => Err(Unread::BadDocument),
        }
    }

    fn default(_alloc: Global) -> bool {
        false
    }

    fn into_value(item: bool) -> vx_base::Value {
        vx_base::Value::Bool(item)
    }

    ghost no_nulls = { refl };

    ghost not_null = { λ x. refl };
}

// Integers of a type.
pub(crate) struct Wholes<T>(PhantomData<T>);

impl<T: Integer> Kind for Wholes<T> {
    type Item = T;

    ghost dtype = { primitive T.kind NonNullable };

    ghost seen = { λ x. int (T.whole x) };

    #[tactic(auto, unfolding(crate::specs::RowsOf::row_of))]
    fn read(_alloc: Global, value: Value) -> Result<T, Unread> {
        let Value::Number(number) = value else {
            return Err(Unread::BadDocument);
        };
        let Some(whole) = number.as_i128() else {
            return Err(Unread::BadDocument);
        };
        let Some(item) = T::from_whole(whole) else {
            return Err(Unread::BadDocument);
        };
        let _held = item.to_whole();
        Ok(item)
    }

    fn default(_alloc: Global) -> T {
        T::zero()
    }

    fn into_value(item: T) -> vx_base::Value {
        vx_base::Value::Int(item.to_whole())
    }

    ghost no_nulls = { refl };

    ghost not_null = { λ x. refl };
}

// Refuses 2^32 bytes and more: a view has 32 bits for the length of a row.
fn short(bytes: Bytes) -> Result<Bytes, Unread>
    ensures { Gives (λ bytes. bytes) result (option_map (λ _. bytes) (when (is_short bytes))) }
{
    if bytes.len() < 1 << 32 {
        Ok(bytes)
    } else {
        Err(Unread::BadDocument)
    }
}

// Texts.
pub(crate) struct Texts;

impl Kind for Texts {
    type Item = Bytes;

    ghost dtype = { utf8 NonNullable };

    ghost seen = { bytes };

    #[tactic(auto, unfolding(crate::specs::RowsOf::row_of))]
    fn read(_alloc: Global, value: Value) -> Result<Bytes, Unread> {
        match value {
            Value::String(text) => short(Text::from_string(text).into_bytes()),
            _ => Err(Unread::BadDocument),
        }
    }

    fn default(alloc: Global) -> Bytes {
        Bytes::new_in(alloc)
    }

    fn into_value(item: Bytes) -> vx_base::Value {
        vx_base::Value::Bytes(item)
    }

    ghost no_nulls = { refl };

    ghost not_null = { λ x. refl };
}

// Binaries, which JSON has as hexadecimal texts.
pub(crate) struct Binaries;

impl Kind for Binaries {
    type Item = Bytes;

    ghost dtype = { binary NonNullable };

    ghost seen = { bytes };

    #[tactic(auto, unfolding(crate::specs::RowsOf::row_of))]
    fn read(alloc: Global, value: Value) -> Result<Bytes, Unread> {
        match value {
            Value::String(text) => short(bytes_of_digits(alloc, text)?),
            _ => Err(Unread::BadDocument),
        }
    }

    fn default(alloc: Global) -> Bytes {
        Bytes::new_in(alloc)
    }

    fn into_value(item: Bytes) -> vx_base::Value {
        vx_base::Value::Bytes(item)
    }

    ghost no_nulls = { refl };

    ghost not_null = { λ x. refl };
}

// The bytes that a text writes in hexadecimal.
fn bytes_of_digits(alloc: Global, text: String) -> Result<Bytes, Unread>
    ensures { Gives (λ bytes. bytes) result (bytes_of_digits (string_bytes text)) }
{
    match hex::decode(alloc, text) {
        Ok(bytes) => Ok(Bytes::from_vec(bytes)),
        Err(FromHexError::OutOfMemory) => Err(Unread::NoMemory),
        Err(_) => Err(Unread::BadDocument),
    }
}
