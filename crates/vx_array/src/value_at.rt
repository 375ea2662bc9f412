//! Random access to rows of any type, as values.

ghost use Rattle.std.specs.List.{list_all};
ghost use Rattle.std.specs.Prelude.{◌≡◌, ◌<◌, ◌≤◌, ◌+◌, ◌*◌, ◌^◌, IsTrue, None, if◌then◌else◌, length, map, nat_lt};
ghost use Rattle.vx_base.specs.Answers.{Decided, OrMemory, unless};
ghost use Rattle.vx_base.specs.Masks.{rows_between};
ghost use Rattle.vx_base.specs.PlainScalar.{scalar};
ghost use Rattle.vx_base.specs.PlainType.{is_integer};
ghost use Rattle.vx_base.specs.PlainValue.{items, null, of_list};
ghost use Rattle.vx_base.specs.TypeOf.{value_of};
ghost use Rattle.vx_base.specs.declared.error.VortexError.TheVariants.{OutOfBounds};
ghost use Rattle.vx_model.specs.Rows.{rows, row_at, is_valid_at, offset_at, list_value};
ghost use Rattle.vx_model.specs.TreeType.{tree_type};
ghost use Rattle.vx_model.specs.WellFormed.{are_offsets};

use crate::array::{ArrayRef, Node};
use crate::arrays::Arrays;
use crate::node::{offset_at, sparse_value_at};
use std::alloc::Global;
use vx_base::{Mask, Scalar, Value, Values, VortexError, VortexResult};
use vx_values::is_valid;

impl ArrayRef {
    /// The value in a row, as a scalar of the tree's type. Refuses OutOfBounds where there is no such row.
    pub fn scalar_at(&self, alloc: Global, row: u64) -> VortexResult<Scalar>
        ensures { Decided (unless (nat_lt row (length (rows self.now))) OutOfBounds None) (λ s. s ≡ scalar (tree_type self.now) (row_at (rows self.now) row)) result }
    {
        if row >= self.len() {
            return Err(VortexError::OutOfBounds);
        }
        self.known();
        let value = self.value_at(alloc, row)?;
        match Scalar::new(self.dtype().copy(alloc)?, value) {
            Ok(scalar) => Ok(scalar),
            Err(refused) => Err(refused.error),
        }
    }

    // Tells a proof that there are fewer than 2^64 rows.
    fn counted(&self)
        ensures { length (rows self.now) < 2 ^ 64 }
    {
        let _len = self.len();
    }

    /// The value in a row. Lists and structs are read from the rows of their children.
    #[cycle(value_at)]
    pub fn value_at(&self, alloc: Global, row: u64) -> VortexResult<Value>
        requires in_range { row < length (rows self.now) }
        ensures { OrMemory result (λ value. value_of value ≡ row_at (rows self.now) row) }
    {
        if self.dtype().is_flat() {
            return self.cell_at(row).to_value(alloc);
        }
        self.known();
        match &self.node {
            Node::Null(_) => Ok(Value::Null),
            Node::Constant(value, _) => value.value().copy(alloc),
            Node::Struct(_, fields, _, valid, _) => struct_at(alloc, fields, valid, row),
            Node::List(elements, offsets, valid, _) => {
                list_at(alloc, &elements.array, &offsets.array, valid, row)
            }
            Node::FixedSizeList(elements, size, _, valid, _) => {
                fixed_at(alloc, &elements.array, *size, valid, row)
            }
            Node::Sparse(patches, fill) => sparse_value_at(alloc, patches, fill, row),
            _ => unreachable!(),
        }
    }
}

// A struct's value: those of the fields in the row, null where the row isn't valid.
#[cycle(value_at)]
fn struct_at(alloc: Global, fields: &Arrays, valid: &Option<Mask>, row: u64) -> VortexResult<Value>
    requires { IsTrue (list_all (λ t. nat_lt row (length (rows t))) fields.now) }
    ensures { OrMemory result (λ value. value_of value ≡ (if is_valid_at valid.now row then items (of_list (map (λ t. row_at (rows t) row) fields.now)) else null)) }
{
    if !is_valid(valid, row) {
        return Ok(Value::Null);
    }
    let mut values = Vec::new(alloc);
    for field in fields.as_slice() {
        values.push(field.value_at(alloc, row)?)?;
    }
    Ok(Value::List(Values::from_vec(values)))
}

// A list's value: the elements from the row's offset to the next one, null where the row isn't valid.
#[cycle(value_at)]
fn list_at(
    alloc: Global,
    elements: &ArrayRef,
    offsets: &ArrayRef,
    valid: &Option<Mask>,
    row: u64,
) -> VortexResult<Value>
    requires integers { IsTrue (is_integer (tree_type offsets.now)) }
    requires in_range { row + 1 < length (rows offsets.now) }
    requires ends { IsTrue (are_offsets (length (rows elements.now)) (rows offsets.now)) }
    ensures { OrMemory result (λ value. value_of value ≡ (if is_valid_at valid.now row then list_value (rows_between (rows elements.now) (offset_at (rows offsets.now) row) (offset_at (rows offsets.now) (row + 1))) else null)) }
{
    if !is_valid(valid, row) {
        return Ok(Value::Null);
    }
    elements.counted();
    offsets.counted();
    let start = offset_at(offsets, row);
    let end = offset_at(offsets, row + 1);
    elements_between(alloc, elements, start as u64, end as u64)
}

// A fixed-size list's value: elements `row * size .. (row + 1) * size`, null where the row isn't valid.
#[cycle(value_at)]
fn fixed_at(
    alloc: Global,
    elements: &ArrayRef,
    size: u32,
    valid: &Option<Mask>,
    row: u64,
) -> VortexResult<Value>
    requires { row * size + size ≤ length (rows elements.now) }
    ensures { OrMemory result (λ value. value_of value ≡ (if is_valid_at valid.now row then list_value (rows_between (rows elements.now) (row * size) (row * size + size)) else null)) }
{
    if !is_valid(valid, row) {
        return Ok(Value::Null);
    }
    elements.counted();
    let start = row * u64::from(size);
    elements_between(alloc, elements, start, start + u64::from(size))
}

// The elements `start .. end`, as a list.
#[cycle(value_at)]
fn elements_between(alloc: Global, elements: &ArrayRef, start: u64, end: u64) -> VortexResult<Value>
    requires order { start ≤ end }
    requires in_range { end ≤ length (rows elements.now) }
    ensures { OrMemory result (λ value. value_of value ≡ list_value (rows_between (rows elements.now) start end)) }
{
    let mut values = Vec::new(alloc);
    for row in start..end {
        values.push(elements.value_at(alloc, row)?)?;
    }
    Ok(Value::List(Values::from_vec(values)))
}
