//! The number of nulls.

ghost use Rattle.std.specs.List.{list_all};
ghost use Rattle.std.specs.Prelude.{◌≡◌, ◌<◌, count_by, length, IsTrue};
ghost use Rattle.vx_base.specs.Answers.{Answers};
ghost use Rattle.vx_base.specs.CellValue.{cell_value};
ghost use Rattle.vx_base.specs.PlainValue.{is_null};
ghost use Rattle.vx_model.specs.Column.{column_of};
ghost use Rattle.vx_model.specs.Refusals.{validity_length};
ghost use Rattle.vx_model.specs.Rows.{looked_up, row_at, rows};
ghost use Rattle.vx_model.specs.Tree.{dict};
ghost use Rattle.vx_model.specs.WellFormed.{WellFormed, is_place};
ghost use Rattle.vx_rows.specs.Nulls.{nulls_in};
ghost use Rattle.vx_rows.specs.Readable.{is_whole, lent_rows};
ghost use Rattle.vx_rules.specs.Aggregates.{null_count};

use crate::held::readable;
use crate::lent::{Lent, rows_of};
use std::alloc::Global;
use vx_array::{ArrayRef, Node};
use vx_base::{Cell, ExecutionCtx, Mask, VortexResult};

/// The number of nulls. Of a plain or nested tree the validity is read, of a constant its length, of a dictionary its codes and the
/// validity of its values; any other encoded tree is decoded. Refuses NoMemory alone.
pub fn null_count(array: &ArrayRef, ctx: &mut ExecutionCtx) -> VortexResult<u64>
    ensures answer { Answers result (null_count (column_of array.now)) }
    ensures ctx { ctx.new ≡ ctx.old }
{
    nulls_of(ctx.alloc(), array)
}

/// `null_count` by the root.
#[tactic(auto, using(crate::proofs::CountLemmas::node_nulls))]
pub(crate) fn nulls_of(alloc: Global, array: &ArrayRef) -> VortexResult<u64>
    ensures { Answers result (null_count (column_of array.now)) }
{
    match array.node() {
        Node::Null(len) => Ok(*len),
        Node::Constant(value, len) if value.is_null() => Ok(*len),
        Node::Constant(_, _) => Ok(0),
        Node::Bool(_, valid, _) | Node::Primitive(_, valid, _) => Ok(nulls_in(valid)),
        Node::VarBinView(_, valid, _) => Ok(nulls_in(valid)),
        Node::Struct(_, _, _, valid, _) => Ok(nulls_in(valid)),
        Node::List(_, _, valid, _) | Node::FixedSizeList(_, _, _, valid, _) => Ok(nulls_in(valid)),
        Node::Dict(codes, values) => dict_nulls(alloc, &codes.array, &values.array),
        _ => decoded_nulls(alloc, array),
    }
}

// The nulls of a tree that is decoded first.
fn decoded_nulls(alloc: Global, array: &ArrayRef) -> VortexResult<u64>
    ensures { Answers result (null_count (column_of array.now)) }
{
    let plain = array.canonical(alloc)?;
    Ok(plain_nulls(&plain))
}

// The nulls of a tree, row by row.
fn plain_nulls(array: &ArrayRef) -> u64
    ensures { result ≡ count_by is_null (rows array.now) }
{
    let mut count = 0;
    for row in 0..array.len() {
        if array.is_null_at(row) {
            count += 1;
        }
    }
    count
}

// The nulls of a dictionary, by its codes and the validity of its values.
fn dict_nulls(alloc: Global, codes: &ArrayRef, values: &ArrayRef) -> VortexResult<u64>
    requires { WellFormed (dict codes.now values.now) }
    ensures { Answers result (null_count (column_of (dict codes.now values.now))) }
{
    let read_codes = readable(alloc, codes)?;
    let read_values = readable(alloc, values)?;
    let code_rows = rows_of(&read_codes);
    let value_rows = rows_of(&read_values);
    Ok(picked_nulls(code_rows, value_rows))
}

// The codes that are null or pick a null. Where no value is null, only the validity of the codes is read.
#[tactic(auto, using(crate::proofs::PickedLemmas::picks_valid))]
fn picked_nulls(codes: Lent<'_>, values: Lent<'_>) -> u64
    requires codes { IsTrue (is_whole codes) }
    requires values { IsTrue (is_whole values) }
    requires places { IsTrue (list_all (is_place (length (lent_rows values))) (lent_rows codes)) }
    ensures { result ≡ count_by (λ code. is_null (looked_up (lent_rows values.entry) code)) (lent_rows codes.entry) }
{
    if lent_nulls(values) == 0 {
        lent_nulls(codes)
    } else {
        null_picks(codes, values)
    }
}

// `picked_nulls`, code by code.
fn null_picks(codes: Lent<'_>, values: Lent<'_>) -> u64
    requires codes { IsTrue (is_whole codes) }
    requires values { IsTrue (is_whole values) }
    requires places { IsTrue (list_all (is_place (length (lent_rows values))) (lent_rows codes)) }
    ensures { result ≡ count_by (λ code. is_null (looked_up (lent_rows values.entry) code)) (lent_rows codes.entry) }
{
    let mut count = 0;
    for row in 0..codes.len() {
        if is_null_pick(codes, values, row) {
            count += 1;
        }
    }
    count
}

// Whether the code in a row is null, or picks a null.
fn is_null_pick(codes: Lent<'_>, values: Lent<'_>, row: u64) -> bool
    requires codes { IsTrue (is_whole codes) }
    requires values { IsTrue (is_whole values) }
    requires places { IsTrue (list_all (is_place (length (lent_rows values))) (lent_rows codes)) }
    requires in_range { row < length (lent_rows codes) }
    ensures { result ≡ is_null (looked_up (lent_rows values.entry) (row_at (lent_rows codes.entry) row)) }
{
    picks_null(codes.cell(row), values)
}

// Whether a code is null, or picks a null.
#[tactic(auto, using(crate::proofs::UsedLemmas::index_is))]
fn picks_null(code: Cell<'_>, values: Lent<'_>) -> bool
    requires values { IsTrue (is_whole values) }
    requires place { IsTrue (is_place (length (lent_rows values)) (cell_value code)) }
    ensures { result ≡ is_null (looked_up (lent_rows values.entry) (cell_value code.entry)) }
{
    let _places = values.len();
    match code {
        Cell::Int(place) => values.cell(place as u64).is_null(),
        Cell::Null | Cell::Bool(_) | Cell::Bytes(_) => true,
    }
}

// The nulls of rows that are read where they stand.
#[tactic(auto, using(crate::proofs::CountLemmas::lent_nulls))]
fn lent_nulls(rows: Lent<'_>) -> u64
    requires { IsTrue (is_whole rows) }
    ensures { result ≡ count_by is_null (lent_rows rows.entry) }
{
    match rows {
        Lent::Bits(_, valid) | Lent::Ints(_, valid) | Lent::Bytes(_, valid) => nulls_in(valid),
        Lent::Same(value, len) if value.is_null() => len,
        Lent::Same(_, _) => 0,
    }
}

/// The number of rows that aren't valid.
#[tactic(auto, using(crate::proofs::CountLemmas::true_few))]
pub(crate) fn nulls_in(valid: &Option<Mask>) -> u64
    ensures { result ≡ nulls_in valid.now }
{
    match valid {
        Some(bits) => bits.len() - bits.true_count(),
        None => 0,
    }
}
