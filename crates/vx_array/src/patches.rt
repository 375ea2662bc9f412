//! Patches: construction, and writing them into integers.

ghost use Rattle.std.specs.Prelude.{◌≡◌, ◌+◌, ℕ, ℤ, None, length, option_copied, slice_get, IsTrue};
ghost use Rattle.vx_array.specs.Linear.{IsLinear};
ghost use Rattle.vx_base.specs.Answers.{MakesSurely};
ghost use Rattle.vx_base.specs.PlainType.{is_integer};
ghost use Rattle.vx_base.specs.declared.dtype.Nullability.TheVariants.{NonNullable};
ghost use Rattle.vx_base.specs.PlainScalar.{PlainScalar};
ghost use Rattle.vx_base.specs.PlainType as types;
ghost use Rattle.vx_base.specs.PlainValue.{cell, int, whole_or_zero};
ghost use Rattle.vx_model.specs.Nodes.{children};
ghost use Rattle.vx_model.specs.Refusals.{patches_refusal};
ghost use Rattle.vx_model.specs.Rows.{rows, index_of, below, patched};
ghost use Rattle.vx_model.specs.Tree.{patches, sparse_of};
ghost use Rattle.vx_model.specs.TreeType.{tree_type};
ghost use Rattle.vx_model.specs.WellFormed.{WellFormedPatches, ascend, lies_between};
ghost use Rattle.vx_values.specs.IntsOf.{ptype_of, wholes_of};

mod chunks;
mod search;

use crate::array::{ArrayRef, Patches};
use crate::node::is_first_below;
pub(crate) use chunks::is_count;
use vx_base::{Refused, VortexError};
use vx_values::Ints;

// The indices of a chunk.
const CHUNK_ROWS: u128 = 1_024;

impl Patches {
    /// Patches of an array of `array_len` rows: `values[k]` stands in row `indices[k] - offset`.
    ///
    /// Refuses MismatchedTypes where the indices aren't non-nullable integers; then LengthMismatch where there aren't as
    /// many values as indices; then IndicesNotAscending where the indices don't rise strictly or one lies outside
    /// `offset .. offset + array_len`, a sum that is taken exactly. Takes memory only for indices that are sums of
    /// differences, and does without where it is wanting. A refusal hands both back.
    pub fn new(
        array_len: u64,
        offset: u64,
        indices: ArrayRef,
        values: ArrayRef,
    ) -> Result<Patches, Refused<(ArrayRef, ArrayRef)>>
        ensures { let made = patches array_len offset indices values in MakesSurely (patches_refusal made) made (indices, values) result }
    {
        if !indices.dtype().is_integer() || indices.dtype().is_nullable() {
            return Err(Refused {
                error: VortexError::MismatchedTypes,
                inputs: (indices, values),
            });
        }
        if indices.len() != values.len() {
            return Err(Refused {
                error: VortexError::LengthMismatch,
                inputs: (indices, values),
            });
        }
        if !indices.ascends(offset, array_len) {
            return Err(Refused {
                error: VortexError::IndicesNotAscending,
                inputs: (indices, values),
            });
        }
        Ok(Patches::of_rising(array_len, offset, indices, values))
    }

    /// `new` without its checks, for indices and values that the caller knows to pass them. Reads no row.
    pub fn of_rising(array_len: u64, offset: u64, indices: ArrayRef, values: ArrayRef) -> Patches
        requires { patches_refusal (patches array_len offset indices values) ≡ None }
        ensures { result ≡ patches array_len offset indices values }
    {
        indices.known();
        values.known();
        Patches {
            array_len,
            offset,
            indices,
            values,
            chunks: None,
        }
    }

    /// Tells a proof that the patches are well formed.
    pub fn known(&self)
        ensures { WellFormedPatches self.now }
    {
        let _indices = &self.indices;
    }

    /// The number of rows of the array that is patched.
    pub fn array_len(&self) -> u64
        ensures { result ≡ self.now.array_len }
    {
        self.array_len
    }

    /// The difference of an index and its row: index = offset + row.
    pub fn offset(&self) -> u64
        ensures { result ≡ self.now.offset }
    {
        self.offset
    }

    pub fn num_patches(&self) -> u64
        ensures { result ≡ length (rows self.now.indices) }
    {
        self.indices.len()
    }

    pub fn indices(&self) -> &ArrayRef
        ensures { result.now ≡ self.now.indices }
    {
        &self.indices
    }

    pub fn values(&self) -> &ArrayRef
        ensures { result.now ≡ self.now.values }
    {
        &self.values
    }

    // The number of children of a fill and the patches.
    pub(crate) fn num_children(&self) -> usize
        ensures { (fill : PlainScalar) → result ≡ length (children (sparse_of self.now fill)) }
    {
        match &self.chunks {
            Some(_) => 3,
            None => 2,
        }
    }

    // The child at a place of a fill and the patches, None where there is none.
    pub(crate) fn child(&self, place: usize) -> Option<&ArrayRef>
        ensures { (fill : PlainScalar) → option_copied result ≡ slice_get (children (sparse_of self.now fill)) place }
    {
        match place {
            0 => Some(&self.indices),
            1 => Some(&self.values),
            2 => self.chunks.as_ref(),
            _ => None,
        }
    }

    // The integers, each patched row with its patch's value.
    pub(crate) fn written(&self, values: Ints) -> Ints
        requires integers { tree_type self.now.values ≡ types.primitive (ptype_of values) NonNullable }
        requires rows { length (wholes_of values) ≡ self.now.array_len }
        ensures ptype { ptype_of result ≡ ptype_of values }
        ensures wholes { (f : ℕ → ℤ) → wholes_of values ≡ below f self.now.array_len → wholes_of result ≡ below (λ i. whole_or_zero (patched (rows self.now.indices) (rows self.now.values) (int (f i)) (self.now.offset + i))) self.now.array_len }
    {
        let mut values = values;
        let _rows = self.array_len();
        for place in 0..self.indices.len() {
            let Some(index) = as_index(self.indices.integer_at(place)) else {
                unreachable!();
            };
            let Some(whole) = self.values.integer_at(place) else {
                unreachable!();
            };
            values = values.with_whole((index - u128::from(self.offset)) as u64, whole);
        }
        values
    }
}

// An integer as an index, None of null and of a negative one.
pub(crate) fn as_index(integer: Option<i128>) -> Option<u128>
    ensures { result ≡ index_of (cell integer) }
{
    match integer {
        Some(index) if index >= 0 => Some(index as u128),
        _ => None,
    }
}

impl ArrayRef {
    // Whether the rows rise strictly and lie in `offset .. offset + len`.
    pub(crate) fn ascends(&self, offset: u64, len: u64) -> bool
        requires { IsTrue (is_integer (tree_type self.now)) }
        ensures { result ≡ ascend offset (offset + len) (rows self.now) }
    {
        let plain = self.summed();
        self.or(&plain).is_ascending(offset, len)
    }

    // `ascends`, one row after another.
    #[tactic(auto, using(vx_model::proofs::PatchLemmas::ascend_steps))]
    fn is_ascending(&self, offset: u64, len: u64) -> bool
        requires { IsTrue (is_integer (tree_type self.now)) }
        ensures { result ≡ ascend offset (offset + len) (rows self.now) }
    {
        if self.is_linear() {
            return self.ends_ascend(offset, len);
        }
        let high = u128::from(offset) + u128::from(len);
        let mut low = u128::from(offset);
        for row in 0..self.len() {
            let Some(index) = as_index(self.integer_at(row)) else {
                return false;
            };
            if index < low || index >= high {
                return false;
            }
            low = index + 1;
        }
        true
    }

    // `is_ascending` of linear rows, by the first and the last.
    fn ends_ascend(&self, offset: u64, len: u64) -> bool
        requires integers { IsTrue (is_integer (tree_type self.now)) }
        requires linear { IsLinear (rows self.now) }
        ensures { result ≡ ascend offset (offset + len) (rows self.now) }
    {
        let rows = self.len();
        if rows == 0 {
            return true;
        }
        let first = lies_between(self.integer_at(0), offset, len);
        let last = lies_between(self.integer_at(rows - 1), offset, len);
        first & last & ((rows == 1) | is_first_below(self, rows - 1))
    }
}

// Whether an index lies in `offset .. offset + len`.
fn lies_between(index: Option<i128>, offset: u64, len: u64) -> bool
    ensures { result ≡ lies_between offset (offset + len) (cell index) }
{
    match index {
        Some(index) => {
            index >= i128::from(offset) && index < i128::from(offset) + i128::from(len)
        }
        None => false,
    }
}
