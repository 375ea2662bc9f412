//! Compressed patches: narrow indices and chunk offsets, and one scalar for values that are all equal.

ghost use Rattle.std.specs.Prelude.{◌≡◌, ◌<◌, IsTrue, if◌then◌else◌, length, option_map, false, Some, None};
ghost use Rattle.vx_base.specs.Answers.{Answers, OrMemory};
ghost use Rattle.vx_base.specs.CellValue.{cell_value};
ghost use Rattle.vx_base.specs.PlainScalar.{scalar};
ghost use Rattle.vx_base.specs.PlainType.{is_flat};
ghost use Rattle.vx_base.specs.PlainValue.{is_null};
ghost use Rattle.vx_model.specs.Column.{column_of};
ghost use Rattle.vx_model.specs.Leaf.{each_null_or};
ghost use Rattle.vx_model.specs.Plain.{IsPlain};
ghost use Rattle.vx_model.specs.Rows.{rows, row_at};
ghost use Rattle.vx_model.specs.TreeType.{tree_type};
ghost use Rattle.vx_schemes_common.specs.Narrowed.{index_type};
ghost use Rattle.vx_schemes.specs.Patches.Compressed.{IsRising, narrowed, shared_value, constant_or_plain, compressed_patches, PatchAlike};

use std::alloc::Global;
use vx_array::{ArrayRef, Patches};
use vx_base::{Cell, ExecutionCtx, Nullability, PType, Scalar, VortexResult};
use vx_blocks::narrow_type;
use vx_schemes_common::whole_tree;

/// Patches with the same rows and values, compressed: plain indices of the narrowest unsigned type that holds them (U8
/// where there are none); values as a constant where there are some and all are equal, null equal to null, else plain.
/// Chunk offsets are narrowed like the indices; patches without them get none. The only error is NoMemory.
pub fn compress_patches(patches: &Patches, ctx: &mut ExecutionCtx) -> VortexResult<Patches>
    ensures answer { Answers result (compressed_patches patches.now) }
    ensures kept { OrMemory result (PatchAlike patches.now) }
    ensures ctx { ctx.new ≡ ctx.old }
{
    let alloc = ctx.alloc();
    patches.known();
    let indices = narrowed(alloc, patches.indices())?;
    let values = constant_or_plain(alloc, patches.values())?;
    let Some(offsets) = patches.chunk_offsets() else {
        return match Patches::new(patches.array_len(), patches.offset(), indices, values) {
            Ok(short) => Ok(short),
            Err(refused) => Err(refused.error),
        };
    };
    let chunks = narrowed(alloc, offsets)?;
    match Patches::new_chunked(
        patches.array_len(),
        patches.offset(),
        indices,
        values,
        chunks,
    ) {
        Ok(short) => Ok(short),
        Err(refused) => Err(refused.error),
    }
}

// The narrowest type of the numbers. They never decrease, so the last is the greatest.
fn index_type(numbers: &ArrayRef) -> PType
    requires { IsRising numbers.now }
    ensures { result ≡ index_type (rows numbers.now) }
{
    let count = numbers.len();
    if count == 0 {
        return PType::U8;
    }
    let Some(last) = numbers.integer_at(count - 1) else {
        unreachable!();
    };
    narrow_type(0, last)
}

// Indices or chunk offsets in their narrowest type.
#[tactic(auto, using(vx_model::proofs::PrimitiveLemmas::plain_roots))]
fn narrowed(alloc: Global, numbers: &ArrayRef) -> VortexResult<ArrayRef>
    requires { IsRising numbers.now }
    ensures { Answers result (narrowed numbers.now) }
{
    numbers.known();
    let ptype = index_type(numbers);
    let plain = numbers.canonical(alloc)?;
    let (wholes, _, _) = plain.as_primitive();
    whole_tree(wholes.in_unsigned(alloc, ptype)?, Nullability::NonNullable)
}

// The value of `row`, which isn't null, where every other row is null or equal to it.
#[tactic(auto, using(vx_array::proofs::Flat::flats))]
fn repeated(plain: &ArrayRef, row: u64) -> Option<Cell<'_>>
    requires plain { IsPlain plain.now }
    requires flat { IsTrue (is_flat (tree_type plain.now)) }
    requires in_range { row < length (rows plain.now) }
    requires value { is_null (row_at (rows plain.now) row) ≡ false }
    ensures { option_map cell_value result ≡ if each_null_or (row_at (rows plain.now) row) (rows plain.now) then Some (row_at (rows plain.now) row) else None }
{
    if plain.repeats(row) {
        Some(plain.cell_at(row))
    } else {
        None
    }
}

// The value that all rows share, `Cell::Null` where all are null; None where there is no row, or where two differ.
fn shared_value(plain: &ArrayRef) -> Option<Cell<'_>>
    requires plain { IsPlain plain.now }
    requires flat { IsTrue (is_flat (tree_type plain.now)) }
    ensures { option_map cell_value result ≡ shared_value (rows plain.now) }
{
    if plain.len() == 0 {
        return None;
    }
    let Some(row) = plain.first_valid() else {
        return Some(Cell::Null);
    };
    if plain.validity().is_some() {
        return None;
    }
    repeated(plain, row)
}

// The shared value of rows of any type, as a scalar.
fn shared_scalar(alloc: Global, plain: &ArrayRef) -> VortexResult<Option<Scalar>>
    requires { IsPlain plain.now }
    ensures { Answers result (option_map (scalar (tree_type plain.now)) (shared_value (rows plain.now))) }
{
    plain.known();
    let dtype = plain.dtype();
    if !dtype.is_flat() {
        return shared_row(alloc, plain);
    }
    match shared_value(plain) {
        Some(value) => Ok(Some(Scalar::of_cell(alloc, dtype, value)?)),
        None => Ok(None),
    }
}

// The shared value of lists and structs, which have no cells: each row is compared with the first.
fn shared_row(alloc: Global, plain: &ArrayRef) -> VortexResult<Option<Scalar>>
    ensures { Answers result (option_map (scalar (tree_type plain.now)) (shared_value (rows plain.now))) }
{
    if plain.len() == 0 {
        return Ok(None);
    }
    let first = plain.scalar_at(alloc, 0)?;
    for row in 1..plain.len() {
        let next = plain.scalar_at(alloc, row)?;
        if *next.value() != *first.value() {
            return Ok(None);
        }
    }
    Ok(Some(first))
}

// A constant where all values are equal, else the plain values.
fn constant_or_plain(alloc: Global, values: &ArrayRef) -> VortexResult<ArrayRef>
    ensures { Answers result (constant_or_plain (column_of values.now)) }
{
    values.known();
    let plain = values.canonical(alloc)?;
    match shared_scalar(alloc, &plain)? {
        Some(value) => Ok(ArrayRef::constant(value, plain.len())),
        None => Ok(plain),
    }
}
