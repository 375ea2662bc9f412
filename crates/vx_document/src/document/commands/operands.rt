//! What a command's argument is: a value, a number, bits, indices, an operator or a flag.

ghost use Rattle.std.specs.Prelude.{◌≡◌, option_map};
ghost use Rattle.serde_json.specs.Find.{as_bool};
ghost use Rattle.serde_json.specs.View.{view, items_view};
ghost use Rattle.vx_document.specs.Arguments.{operand_of, bits_in, index_of, indices_in, operator_named, operator_of, bounds_of, negation_in};
ghost use Rattle.vx_document.specs.Reading.{Gives, all_by};
ghost use Rattle.vx_document.specs.Words.{word_of};

use crate::document::commands::floats::has_float;
use crate::document::unread::Unread;
use serde_json::Value;
use std::alloc::Global;
use vx_base::Mask;
use vx_rules::{BetweenOptions, CompareOperator, LikeOptions};

// A value without a float.
pub(crate) fn read_operand(value: Value) -> Result<Value, Unread>
    ensures { Gives view result (operand_of (view value)) }
{
    if has_float(&value) {
        return Err(Unread::BadDocument);
    }
    Ok(value)
}

// A whole number from 0 to 2^64 - 1.
pub(crate) fn read_number(value: Value) -> Result<u64, Unread>
    ensures { Gives (λ number. number) result (word_of (view value)) }
{
    value.as_u64().ok_or(Unread::BadDocument)
}

// A truth value.
pub(crate) fn read_flag(value: Value) -> Result<bool, Unread>
    ensures { Gives (λ flag. flag) result (as_bool (view value)) }
{
    match value {
        Value::Bool(flag) => Ok(flag),
        _ => Err(Unread::BadDocument),
    }
}

// The truth values of a list.
fn read_flags(alloc: Global, list: Vec<Value>) -> Result<Vec<bool>, Unread>
    ensures { Gives (λ flags. flags.items) result (all_by as_bool (items_view list.items)) }
{
    let mut flags = Vec::with_capacity(alloc, list.len())?;
    for value in list {
        flags.push(read_flag(value)?)?;
    }
    Ok(flags)
}

// A list of truth values.
pub(crate) fn read_bits(alloc: Global, value: Value) -> Result<Mask, Unread>
    ensures { Gives (λ bits. bits) result (bits_in (view value)) }
{
    let Value::Array(list) = value else {
        return Err(Unread::BadDocument);
    };
    Ok(Mask::from_bits(read_flags(alloc, list)?))
}

// An index from 0 to 2^64 - 1, or null.
fn read_index(value: Value) -> Result<Option<u64>, Unread>
    ensures { Gives (λ index. index) result (index_of (view value)) }
{
    if value.is_null() {
        return Ok(None);
    }
    Ok(Some(read_number(value)?))
}

// The indices of a list.
fn read_index_list(alloc: Global, list: Vec<Value>) -> Result<Vec<Option<u64>>, Unread>
    ensures { Gives (λ indices. indices.items) result (all_by index_of (items_view list.items)) }
{
    let mut indices = Vec::with_capacity(alloc, list.len())?;
    for value in list {
        indices.push(read_index(value)?)?;
    }
    Ok(indices)
}

// A list of indices.
pub(crate) fn read_indices(alloc: Global, value: Value) -> Result<Vec<Option<u64>>, Unread>
    ensures { Gives (λ indices. indices.items) result (indices_in (view value)) }
{
    let Value::Array(list) = value else {
        return Err(Unread::BadDocument);
    };
    read_index_list(alloc, list)
}

// The operator with this text.
#[tactic(auto, unfolding(crate::specs::Arguments::operator_named))]
fn operator_named(text: &str) -> Option<CompareOperator>
    ensures { result ≡ operator_named text.now }
{
    match text {
        "==" => Some(CompareOperator::Eq),
        "!=" => Some(CompareOperator::NotEq),
        ">" => Some(CompareOperator::Gt),
        ">=" => Some(CompareOperator::Gte),
        "<" => Some(CompareOperator::Lt),
        "<=" => Some(CompareOperator::Lte),
        _ => None,
    }
}

// An operator, by its text.
pub(crate) fn read_operator(value: Value) -> Result<CompareOperator, Unread>
    ensures { Gives (λ operator. operator) result (operator_of (view value)) }
{
    match value {
        Value::String(text) => operator_named(text.as_str()).ok_or(Unread::BadDocument),
        _ => Err(Unread::BadDocument),
    }
}

// Which bounds are strict, the lower one first.
pub(crate) fn read_bounds(flags: (Value, Value)) -> Result<BetweenOptions, Unread>
    ensures { Gives (λ options. options) result (bounds_of (view flags.0, view flags.1)) }
{
    let lower_strict = read_flag(flags.0)?;
    let upper_strict = read_flag(flags.1)?;
    Ok(BetweenOptions {
        lower_strict,
        upper_strict,
    })
}

// Whether the pattern is negated; absent, it isn't.
pub(crate) fn read_negation(value: Option<Value>) -> Result<LikeOptions, Unread>
    ensures { Gives (λ options. options) result (negation_in (option_map view value)) }
{
    match value {
        None => Ok(LikeOptions { negated: false }),
        Some(value) => Ok(LikeOptions {
            negated: read_flag(value)?,
        }),
    }
}
