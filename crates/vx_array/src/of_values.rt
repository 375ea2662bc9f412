//! The plain tree of a column, from its values.

ghost use Rattle.std.specs.List.{list_all, list_any};
ghost use Rattle.std.specs.Prelude.{◌≡◌, IsTrue, Some, false, map};
ghost use Rattle.vx_base.specs.Answers.{Answers, OrMemory};
ghost use Rattle.vx_base.specs.PlainScalar.{fits, fields_fit};
ghost use Rattle.vx_base.specs.PlainType.{of_fields};
ghost use Rattle.vx_array.specs.PlainPieced.{has_rows_within};
ghost use Rattle.vx_base.specs.PlainValue.{is_null};
ghost use Rattle.vx_pieces.specs.Kept.{kept_items};
ghost use Rattle.vx_base.specs.PlainType as types;
ghost use Rattle.vx_base.specs.TypeOf.{type_of, value_of, fields_of};
ghost use Rattle.vx_model.specs.Column.{column, column_of};
ghost use Rattle.vx_model.specs.Nested.{names_of, within, list_rows, elements};
ghost use Rattle.vx_model.specs.Offsets.{offsets_of};
ghost use Rattle.vx_model.specs.Plain.{IsPlain, plain_fields, plain_of, valid_bits, validity};
ghost use Rattle.vx_model.specs.Tree.{of_list};

mod byte_lists;
mod flat;

use crate::array::ArrayRef;
use crate::arrays::Arrays;
use byte_lists::of_byte_lists;
use flat::{of_bytes, of_stamps, of_truths, of_wholes};
use std::alloc::Global;
use vx_base::{DType, Fields, IntList, Mask, Names, Nullability, Value, VortexResult};
use vx_flat::{field_columns, is_null, list_items, validity_of};
use vx_pieces::spread_pieces;
use vx_values::Ints;

impl ArrayRef {
    /// The plain tree (`tree`, `plain`) of a column of this type and these values, which each fit the type (`kept`).
    /// Beneath a null struct the fields hold their defaults, beneath a null fixed-size list its elements do, and a null
    /// list is empty. The values are moved into the tree. Refuses NoMemory alone, and then drops them.
    pub fn of_values(alloc: Global, dtype: &DType, values: Vec<Value>) -> VortexResult<ArrayRef>
        requires { IsTrue (list_all (fits (type_of dtype.now)) (map value_of values.items)) }
        ensures tree { Answers result (plain_of (type_of dtype.now) (map value_of values.items)) }
        ensures kept { OrMemory result (λ tree. column_of tree ≡ column (type_of dtype.now) (map value_of values.items)) }
        ensures plain { OrMemory result (λ tree. IsPlain tree) }
    {
        plain_tree(alloc, dtype, values)
    }
}

// The plain tree. Where structs or lists of one size are null, the tree of the others is made first and then spread: the
// defaults beneath nulls are laid into flat columns by their number, and no value stands for them on the way.
#[cycle(plain_pieces)]
pub(crate) fn plain_tree(alloc: Global, dtype: &DType, values: Vec<Value>) -> VortexResult<ArrayRef>
    requires { IsTrue (list_all (fits (type_of dtype.now)) (map value_of values.items)) }
    ensures { Answers result (plain_of (type_of dtype.now) (map value_of values.items)) }
{
    if !has_rows_within(dtype) {
        return typed_tree(alloc, dtype, values);
    }
    match validity_of(alloc, values.as_slice())? {
        Some(valid) => spread_tree(alloc, dtype, values, &valid),
        None => typed_tree(alloc, dtype, values),
    }
}

// Whether a null row of the type has rows within: of fields, or of the elements of a list of one size.
fn has_rows_within(dtype: &DType) -> bool
    ensures { result ≡ has_rows_within (type_of dtype.now) }
{
    matches!(dtype, DType::Struct(..) | DType::FixedSizeList(..))
}

// `plain_tree` of values of which some are null.
#[cycle(plain_pieces)]
fn spread_tree(
    alloc: Global,
    dtype: &DType,
    values: Vec<Value>,
    valid: &Mask,
) -> VortexResult<ArrayRef>
    requires within { IsTrue (has_rows_within (type_of dtype.now)) }
    requires fit { IsTrue (list_all (fits (type_of dtype.now)) (map value_of values.items)) }
    requires bits { validity (map value_of values.items) ≡ Some valid.now }
    ensures { Answers result (plain_of (type_of dtype.now) (map value_of values.items)) }
{
    let pieces = spread_pieces(alloc, valid.as_slice())?;
    let tree = typed_tree(alloc, dtype, valid_values(alloc, values)?)?;
    tree.plain_pieces(alloc, pieces.as_slice())
}

// The values that aren't null.
fn valid_values(alloc: Global, values: Vec<Value>) -> VortexResult<Vec<Value>>
    ensures { OrMemory result (λ kept. map value_of kept.items ≡ kept_items (valid_bits (map value_of values.items)) (map value_of values.items)) }
{
    let mut kept = Vec::new(alloc);
    for value in values {
        if !is_null(&value) {
            kept.push(value)?;
        }
    }
    Ok(kept)
}

// The plain tree, by the kind of the type. No struct and no list of one size is null.
#[cycle(plain_pieces)]
fn typed_tree(alloc: Global, dtype: &DType, values: Vec<Value>) -> VortexResult<ArrayRef>
    requires fit { IsTrue (list_all (fits (type_of dtype.now)) (map value_of values.items)) }
    requires valid { IsTrue (has_rows_within (type_of dtype.now)) → list_any is_null (map value_of values.items) ≡ false }
    ensures { Answers result (plain_of (type_of dtype.now) (map value_of values.items)) }
{
    match dtype {
        DType::Null => Ok(ArrayRef::null(values.len() as u64)),
        DType::Bool(nullability) => of_truths(alloc, values.as_slice(), *nullability),
        DType::Primitive(ptype, nullability) => {
            of_wholes(alloc, values.as_slice(), *ptype, *nullability)
        }
        DType::Utf8(_) | DType::Binary(_) => of_bytes(alloc, values, dtype),
        DType::Timestamp(kind, nullability) => {
            of_stamps(alloc, values.as_slice(), kind, *nullability)
        }
        DType::Struct(fields, nullability) => of_structs(alloc, fields, values, *nullability),
        DType::List(items, nullability) => of_lists(alloc, items, values, *nullability),
        DType::FixedSizeList(items, size, nullability) => {
            of_fixed_lists(alloc, items, *size, values, *nullability)
        }
    }
}

// A struct node over one plain tree per field, of structs of which none is null.
#[cycle(plain_pieces)]
fn of_structs(
    alloc: Global,
    fields: &Fields,
    values: Vec<Value>,
    nullability: Nullability,
) -> VortexResult<ArrayRef>
    requires fit { IsTrue (list_all (fits (types.structure (of_fields (fields_of fields.now)) nullability)) (map value_of values.items)) }
    requires valid { list_any is_null (map value_of values.items) ≡ false }
    ensures { Answers result (plain_of (types.structure (of_fields (fields_of fields.now)) nullability) (map value_of values.items)) }
{
    let len = values.len() as u64;
    let trees = field_trees(alloc, fields, values)?;
    let names = field_names(alloc, fields)?;
    match ArrayRef::structure(alloc, names, trees, len, None, nullability) {
        Ok(tree) => Ok(tree),
        Err(refused) => Err(refused.error),
    }
}

// The plain tree of each field's column.
#[cycle(plain_pieces)]
fn field_trees(alloc: Global, fields: &Fields, values: Vec<Value>) -> VortexResult<Arrays>
    requires { IsTrue (list_all (fields_fit (of_fields (fields_of fields.now))) (map within (map value_of values.items))) }
    ensures { OrMemory result (λ trees. of_list trees ≡ plain_fields (of_fields (fields_of fields.now)) (map within (map value_of values.items))) }
{
    let parts = fields.as_slice();
    let columns = field_columns(alloc, fields.len(), values)?;
    let mut trees = Vec::with_capacity(alloc, columns.len())?;
    for column in columns {
        let field = &parts[trees.len()];
        trees.push(plain_tree(alloc, &field.1, column)?)?;
    }
    Ok(Arrays::from_vec(trees))
}

// Copies of the fields' names.
fn field_names(alloc: Global, fields: &Fields) -> VortexResult<Names>
    ensures { Answers result (names_of (of_fields (fields_of fields.now))) }
{
    let mut names = Vec::new(alloc);
    for field in fields.as_slice() {
        names.push(field.0.copy(alloc)?)?;
    }
    Ok(Names::from_vec(names))
}

// A list node over its elements and `u64` offsets, the type of a plain tree's.
#[cycle(plain_pieces)]
fn of_lists(
    alloc: Global,
    dtype: &DType,
    values: Vec<Value>,
    nullability: Nullability,
) -> VortexResult<ArrayRef>
    requires { IsTrue (list_all (fits (types.list (type_of dtype.now) nullability)) (map value_of values.items)) }
    ensures { Answers result (plain_of (types.list (type_of dtype.now) nullability) (map value_of values.items)) }
{
    let valid = validity_of(alloc, values.as_slice())?;
    let (elements, offsets) = list_elements(alloc, dtype, values)?;
    let offsets = Ints::U64(IntList::from_vec(offsets));
    let offsets = ArrayRef::primitive_of(offsets, None, Nullability::NonNullable);
    match ArrayRef::list(alloc, elements, offsets, valid, nullability) {
        Ok(tree) => Ok(tree),
        Err(refused) => Err(refused.error),
    }
}

// The plain tree of all lists' elements, concatenated, and the offsets between the lists. The bytes of texts and binaries
// move straight into rows, without a vector of values in between.
#[cycle(plain_pieces)]
fn list_elements(
    alloc: Global,
    dtype: &DType,
    values: Vec<Value>,
) -> VortexResult<(ArrayRef, Vec<u64>)>
    requires { IsTrue (list_all (fits (type_of dtype.now)) (elements (map value_of values.items))) }
    ensures { OrMemory result (λ parts. (parts.0 ≡ plain_of (type_of dtype.now) (elements (map value_of values.items))) × (parts.1.items ≡ offsets_of (list_rows (map value_of values.items)))) }
{
    if dtype.is_bytes() {
        return of_byte_lists(alloc, dtype, values);
    }
    let (items, offsets) = list_items(alloc, values)?;
    let tree = plain_tree(alloc, dtype, items)?;
    Ok((tree, offsets))
}

// A fixed-size list node over its elements, of lists of which none is null.
#[cycle(plain_pieces)]
fn of_fixed_lists(
    alloc: Global,
    dtype: &DType,
    size: u32,
    values: Vec<Value>,
    nullability: Nullability,
) -> VortexResult<ArrayRef>
    requires fit { IsTrue (list_all (fits (types.fixed_size_list (type_of dtype.now) size nullability)) (map value_of values.items)) }
    requires valid { list_any is_null (map value_of values.items) ≡ false }
    ensures { Answers result (plain_of (types.fixed_size_list (type_of dtype.now) size nullability) (map value_of values.items)) }
{
    let len = values.len() as u64;
    let (elements, _) = list_elements(alloc, dtype, values)?;
    match ArrayRef::fixed_size_list(alloc, elements, size, len, None, nullability) {
        Ok(tree) => Ok(tree),
        Err(refused) => Err(refused.error),
    }
}
