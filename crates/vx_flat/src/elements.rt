//! The elements of lists of texts or binaries, whose bytes move straight into rows, without a vector of values in between.

ghost use Rattle.std.specs.List.{list_any};
ghost use Rattle.std.specs.Prelude.{◌≡◌, ◌++◌, ◌^◌, ◌-◌, OnOk, IfErr, length, map, min};
ghost use Rattle.std.specs.Prelude.{◌≡◌, ◌^◌, ◌-◌, [], map, min};
ghost use Rattle.vx_base.specs.Answers.{Answers, OrMemory};
ghost use Rattle.vx_base.specs.PlainValue.{is_null, bytes_or_empty, items_or_empty};
ghost use Rattle.vx_base.specs.PlainValue.{is_null, items_or_empty};
ghost use Rattle.vx_base.specs.TypeOf.{value_of};
ghost use Rattle.vx_base.specs.declared.error.VortexError.TheVariants.{NoMemory};
ghost use Rattle.vx_model.specs.Nested.{list_rows, elements};
ghost use Rattle.vx_model.specs.Offsets.{offsets_of};
ghost use Rattle.vx_model.specs.Plain.{valid_bits, validity};

use crate::lists::{has_null, is_null};
use std::alloc::Global;
use vx_base::{Bytes, Mask, Value, VortexResult};

/// The validity of all lists' elements, concatenated: bits exactly where some element is null.
pub fn element_validity(alloc: Global, lists: &[Value]) -> VortexResult<Option<Mask>>
    ensures { Answers result (validity (elements (map value_of lists.now))) }
{
    if !has_null_element(lists) {
        return Ok(None);
    }
    let mut bits = Vec::with_capacity(alloc, element_count(lists))?;
    for list in lists {
        push_valid(&mut bits, values_of(list))?;
    }
    Ok(Some(Mask::from_bits(bits)))
}

fn has_null_element(lists: &[Value]) -> bool
    ensures { result ≡ list_any is_null (elements (map value_of lists.now)) }
{
    for list in lists {
        if has_null(values_of(list)) {
            return true;
        }
    }
    false
}

// Adds a validity bit for each value.
fn push_valid(bits: &mut Vec<bool>, values: &[Value]) -> VortexResult<()>
    ensures ok { OnOk result (bits.new.items ≡ bits.old.items ++ valid_bits (map value_of values.now)) }
    ensures err { IfErr result (λ e. e ≡ NoMemory) }
{
    for value in values {
        bits.push(!is_null(value))?;
    }
    Ok(())
}

// How many elements all lists have together. Saturates at 2^64 - 1.
fn element_count(lists: &[Value]) -> usize
    ensures { result ≡ min (length (elements (map value_of lists.now))) (2 ^ 64 - 1) }
{
    let mut count: usize = 0;
    for list in lists {
        count = count.saturating_add(values_of(list).len());
    }
    count
}

/// The bytes of all lists' elements, concatenated, and the offsets between the lists; a null element has no bytes. The bytes
/// are moved; NoMemory drops them.
pub fn byte_elements(alloc: Global, values: Vec<Value>) -> VortexResult<(Vec<Bytes>, Vec<u64>)>
    ensures { OrMemory result (λ parts. (parts.0.items ≡ map bytes_or_empty (elements (map value_of values.items))) × (parts.1.items ≡ offsets_of (list_rows (map value_of values.items)))) }
{
    let mut rows = Vec::with_capacity(alloc, element_count(values.as_slice()))?;
    let mut offsets = Vec::with_capacity(alloc, values.len() + 1)?;
    offsets.push(0)?;
    for value in values {
        push_bytes(alloc, &mut rows, value)?;
        offsets.push(rows.len() as u64)?;
    }
    Ok((rows, offsets))
}

// Moves the bytes of each value within a value to the end of `rows`.
fn push_bytes(alloc: Global, rows: &mut Vec<Bytes>, value: Value) -> VortexResult<()>
    ensures ok { OnOk result (rows.new.items ≡ rows.old.items ++ map bytes_or_empty (items_or_empty (value_of value))) }
    ensures err { IfErr result (λ e. e ≡ NoMemory) }
{
    for item in value.into_values(alloc).into_vec() {
        rows.push(item.into_bytes(alloc))?;
    }
    Ok(())
}

/// The values within a value, none where it holds none.
#[tactic(auto, using(crate::proofs::ValueLemmas::lent))]
pub fn values_of(value: &Value) -> &[Value]
    ensures { map value_of result.now ≡ items_or_empty (value_of value.now) }
{
    match value {
        Value::List(values) => values.as_slice(),
        _ => &[],
    }
}
