//! The rows of a flat tree, borrowed from where they stand.

ghost use Rattle.std.specs.List.{list_all};
ghost use Rattle.std.specs.Prelude.{◌≡◌, ◌<◌, IfSome, IsTrue, length, replicate};
ghost use Rattle.vx_base.specs.CellValue.{cell_value};
ghost use Rattle.vx_base.specs.PlainScalar.{fits};
ghost use Rattle.vx_base.specs.PlainType.{is_flat};
ghost use Rattle.vx_base.specs.PlainValue.{bytes, int};
ghost use Rattle.vx_model.specs.Rows.{rows, row_at};
ghost use Rattle.vx_model.specs.TreeType.{tree_type};
ghost use Rattle.vx_rows.specs.Readable.{held, is_readable, is_whole, lent_rows};

use crate::held::Held;
use vx_array::{ArrayRef, Node};
use vx_base::{ByteRows, Cell, Mask, Scalar};
use vx_flat::{primitive_at, truth_at, view_at};
use vx_values::Ints;

/// Rows by their kind, each with its validity, or one value in every row.
#[derive(Clone, Copy)]
pub(crate) enum Lent<'a> {
    Bits(&'a Mask, &'a Option<Mask>),
    /// Integers and timestamps.
    Ints(&'a Ints, &'a Option<Mask>),
    /// Texts and binaries.
    Bytes(&'a ByteRows, &'a Option<Mask>),
    /// One value, and the number of rows.
    Same(Cell<'a>, u64),
}

// The rows of a flat tree that are read where they stand.
#[cycle(lend)]
fn lend(tree: &ArrayRef) -> Lent<'_>
    requires flat { IsTrue (is_flat (tree_type tree.now)) }
    requires readable { IsTrue (is_readable tree.now) }
    ensures rows { lent_rows result ≡ rows tree.now }
    ensures whole { IsTrue (is_whole result) }
{
    tree.known();
    match tree.node() {
        Node::Bool(values, valid, _) => Lent::Bits(values, valid),
        Node::Primitive(values, valid, _) => Lent::Ints(values, valid),
        Node::VarBinView(values, valid, _) => Lent::Bytes(values, valid),
        Node::Constant(value, len) => Lent::Same(value.cell(), *len),
        Node::Timestamp(storage, _) => lend(&storage.array),
        _ => unreachable!(),
    }
}

/// The rows of a tree that is held to be read.
#[tactic(auto, using(vx_model::proofs::MadeLemmas::rows_fit))]
pub(crate) fn rows_of<'a>(read: &'a Held<'_>) -> Lent<'a>
    requires flat { IsTrue (is_flat (tree_type (held read.now))) }
    requires readable { IsTrue (is_readable (held read.now)) }
    ensures rows { lent_rows result ≡ rows (held read.now) }
    ensures fit { IsTrue (list_all (fits (tree_type (held read.now))) (lent_rows result)) }
    ensures whole { IsTrue (is_whole result) }
{
    read.tree().known();
    lend(read.tree())
}

/// One value in every row.
#[tactic(auto, using(vx_model::proofs::MadeLemmas::copies_fit))]
pub(crate) fn same_rows(value: &Scalar, len: u64) -> Lent<'_>
    requires { IsTrue (is_flat value.now.dtype) }
    ensures rows { lent_rows result ≡ replicate len value.now.value }
    ensures fit { IsTrue (list_all (fits value.now.dtype) (lent_rows result)) }
    ensures whole { IsTrue (is_whole result) }
{
    value.known();
    Lent::Same(value.cell(), len)
}

impl<'a> Lent<'a> {
    /// The number of rows.
    #[tactic(auto, using(crate::proofs::LentLemmas::lengths))]
    pub(crate) fn len(self) -> u64
        requires { IsTrue (is_whole self) }
        ensures { result ≡ length (lent_rows self.entry) }
    {
        match self {
            Lent::Bits(values, _) => values.len(),
            Lent::Ints(values, _) => values.len(),
            Lent::Bytes(values, _) => values.len(),
            Lent::Same(_, len) => len,
        }
    }

    /// The value in a row.
    #[tactic(auto, using(crate::proofs::LentLemmas::cells))]
    pub(crate) fn cell(self, row: u64) -> Cell<'a>
        requires whole { IsTrue (is_whole self) }
        requires in_range { row < length (lent_rows self) }
        ensures { cell_value result ≡ row_at (lent_rows self.entry) row }
    {
        match self {
            Lent::Bits(values, valid) => truth_at(values, valid, row),
            Lent::Ints(values, valid) => primitive_at(values, valid, row),
            Lent::Bytes(values, valid) => view_at(values, valid, row),
            Lent::Same(value, _) => value,
        }
    }
}

/// The integer that stands in every row, None where the rows aren't a constant integer.
pub(crate) fn same_whole(rows: Lent<'_>) -> Option<i128>
    ensures { IfSome result (λ whole. lent_rows rows.entry ≡ replicate (length (lent_rows rows.entry)) (int whole)) }
{
    match rows {
        Lent::Same(value, _) => value.integer(),
        _ => None,
    }
}

/// The bytes that stand in every row, None where the rows aren't a constant text or binary.
pub(crate) fn same_bytes<'a>(rows: Lent<'a>) -> Option<&'a [u8]>
    ensures { IfSome result (λ value. lent_rows rows.entry ≡ replicate (length (lent_rows rows.entry)) (bytes value.now)) }
{
    match rows {
        Lent::Same(Cell::Bytes(value), _) => Some(value),
        _ => None,
    }
}
