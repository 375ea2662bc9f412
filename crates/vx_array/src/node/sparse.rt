//! A scalar, the fill, in every row but the patched ones.

ghost use Rattle.std.specs.List.{list_any};
ghost use Rattle.std.specs.Prelude.{◌≡◌, ◌<◌, ◌+◌, ◌-◌, ◌^◌, IsTrue, min};
ghost use Rattle.vx_array.specs.TreeOf.{tree_of};
ghost use Rattle.vx_base.specs.Answers.{Makes, OrMemory};
ghost use Rattle.vx_base.specs.CellValue.{cell_value};
ghost use Rattle.vx_base.specs.PlainType.{is_flat};
ghost use Rattle.vx_base.specs.PlainValue.{is_null};
ghost use Rattle.vx_base.specs.TypeOf.{value_of};
ghost use Rattle.vx_model.specs.Refusals.{sparse_refusal};
ghost use Rattle.vx_model.specs.Rows.{rows, patched};
ghost use Rattle.vx_model.specs.Size.{chunks_size, size, payload};
ghost use Rattle.vx_model.specs.Tree.{sparse_of};
ghost use Rattle.vx_model.specs.TreeType.{tree_type};

use crate::array::{ArrayRef, Node, Patches};
use crate::node::Made;
use std::alloc::Global;
use vx_base::{Cell, Refused, Scalar, Value, VortexError, VortexResult};
use vx_flat::constant_bytes;

impl ArrayRef {
    /// The patches' values in their rows, and `fill` in every other row. Child 0: the patches' indices; child 1: their
    /// values; child 2: their chunk offsets, where there are any. The type is the fill's. Refuses MismatchedTypes where the
    /// patches' values are of another type.
    #[tactic(auto, using(crate::proofs::Runs::sparse_array))]
    pub fn sparse(alloc: Global, patches: Patches, fill: Scalar) -> Made<(Patches, Scalar)>
        ensures { Makes (sparse_refusal patches fill) (sparse_of patches fill) (patches, fill) result }
    {
        if let Some(error) = refusal(&patches, &fill) {
            return Err(Refused {
                error,
                inputs: (patches, fill),
            });
        }
        let len = patches.array_len();
        patches.known();
        fill.known();
        match Box::new(alloc, patches) {
            Ok(patches) => Ok(ArrayRef {
                node: Node::Sparse(patches, fill),
                own_type: None,
                len,
            }),
            Err(failed) => Err(Refused {
                error: VortexError::NoMemory,
                inputs: (failed.value, fill),
            }),
        }
    }
}

// The refusal of these inputs, if there is one.
fn refusal(patches: &Patches, fill: &Scalar) -> Option<VortexError>
    ensures { result ≡ sparse_refusal patches.now fill.now }
{
    if *patches.values.dtype() == *fill.dtype() {
        None
    } else {
        Some(VortexError::MismatchedTypes)
    }
}

// A row: its patch, else the fill.
#[cycle(cell_at)]
pub(crate) fn sparse_at<'a>(patches: &'a Patches, fill: &'a Scalar, row: u64) -> Cell<'a>
    requires patches { IsTrue (is_flat (tree_type patches.now.values)) }
    requires fill { IsTrue (is_flat fill.now.dtype) }
    ensures { cell_value result ≡ patched (rows patches.now.indices) (rows patches.now.values) fill.now.value (patches.now.offset + row) }
{
    match patches.cell_at(row) {
        Some(patch) => patch,
        None => fill.cell(),
    }
}

// Whether some row is null: a patch is, or the fill is and some row has no patch.
#[cycle(has_null)]
pub(crate) fn sparse_has_null(patches: &Patches, fill: &Scalar) -> bool
    ensures { result ≡ list_any is_null (rows (sparse_of patches.now fill.now)) }
{
    patches.values.has_null() || fill.is_null() && patches.unpatched() > 0
}

// Whether a row is null.
#[cycle(is_null_at)]
pub(crate) fn sparse_is_null_at(patches: &Patches, fill: &Scalar, row: u64) -> bool
    requires { row < patches.now.array_len }
    ensures { result ≡ is_null (patched (rows patches.now.indices) (rows patches.now.values) fill.now.value (patches.now.offset + row)) }
{
    match patches.place_of(row) {
        Some(place) => patches.values.is_null_at(place),
        None => fill.is_null(),
    }
}

// A row of any type: its patch, else the fill.
#[cycle(value_at)]
pub(crate) fn sparse_value_at(
    alloc: Global,
    patches: &Patches,
    fill: &Scalar,
    row: u64,
) -> VortexResult<Value>
    requires { row < patches.now.array_len }
    ensures { OrMemory result (λ value. value_of value ≡ patched (rows patches.now.indices) (rows patches.now.values) fill.now.value (patches.now.offset + row)) }
{
    match patches.place_of(row) {
        Some(place) => patches.values.value_at(alloc, place),
        None => fill.value().copy(alloc),
    }
}

// The bytes of the node: the fill's as of a constant, and the patches'. Saturates at 2^128 - 1.
#[cycle(nbytes)]
pub(crate) fn sparse_bytes(patches: &Patches, fill: &Scalar) -> u128
    ensures { result ≡ min (size patches.now.indices + size patches.now.values + chunks_size patches.now.chunks + (1 + payload fill.now.dtype fill.now.value)) (2 ^ 128 - 1) }
{
    let inside = patches.nbytes().saturating_add(patches.chunks_bytes());
    inside.saturating_add(constant_bytes(fill))
}

// A deep copy of the node.
#[cycle(copy)]
pub(crate) fn copied_sparse(alloc: Global, patches: &Patches, fill: &Scalar) -> VortexResult<Node>
    ensures { OrMemory result (λ copy. tree_of copy ≡ sparse_of patches.now fill.now) }
{
    let patches = Box::new(alloc, patches.copy(alloc)?)?;
    Ok(Node::Sparse(patches, fill.copy(alloc)?))
}
