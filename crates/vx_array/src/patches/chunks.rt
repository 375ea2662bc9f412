//! Patches with chunk offsets: construction, and whether the offsets count the indices before each chunk of 1,024.

ghost use Rattle.std.specs.Prelude.{◌≡◌, ◌≤◌, ◌+◌, ◌^◌, IsTrue, None, Some, length, option_copied};
ghost use Rattle.vx_array.specs.Linear.{IsUniform};
ghost use Rattle.vx_base.specs.Answers.{MakesSurely};
ghost use Rattle.vx_base.specs.Packed.{block_count};
ghost use Rattle.vx_base.specs.PlainType.{is_integer};
ghost use Rattle.vx_base.specs.PlainValue.{cell};
ghost use Rattle.vx_model.specs.Refusals.{chunked_refusal};
ghost use Rattle.vx_model.specs.Rows.{rows, is_index};
ghost use Rattle.vx_model.specs.Tree.{chunked, patches};
ghost use Rattle.vx_model.specs.TreeType.{tree_type};
ghost use Rattle.vx_model.specs.WellFormed.{ascend, are_chunk_offsets, indices_below};

use super::{CHUNK_ROWS, as_index};
use crate::array::{ArrayRef, Patches};
use crate::node::are_integers;
use vx_base::{Refused, VortexError};

impl Patches {
    /// `new` with chunk offsets: entry c is the number of indices below 1,024 * c, one for each chunk of 1,024 indices below
    /// `offset + array_len`. A search then looks at the patches of the row's chunk alone.
    ///
    /// Refuses MismatchedTypes where the indices or the chunk offsets aren't non-nullable integers; then LengthMismatch
    /// where there aren't as many values as indices or `ceil((offset + array_len) / 1024)` chunk offsets, a sum that is
    /// taken exactly; then IndicesNotAscending as `new`; then OutOfBounds where an entry is another number. Takes memory as
    /// `new`; a refusal hands the three back.
    pub fn new_chunked(
        array_len: u64,
        offset: u64,
        indices: ArrayRef,
        values: ArrayRef,
        chunk_offsets: ArrayRef,
    ) -> Result<Patches, Refused<(ArrayRef, ArrayRef, ArrayRef)>>
        ensures { MakesSurely (chunked_refusal (patches array_len offset indices values) chunk_offsets) (chunked array_len offset indices values (Some chunk_offsets)) (indices, values, chunk_offsets) result }
    {
        match chunked_refusal(array_len, offset, &indices, &values, &chunk_offsets) {
            Some(error) => Err(Refused {
                error,
                inputs: (indices, values, chunk_offsets),
            }),
            None => Ok(Patches::of_chunks(array_len, offset, indices, values, chunk_offsets)),
        }
    }

    // `new_chunked` without its checks, for columns that pass them.
    fn of_chunks(
        array_len: u64,
        offset: u64,
        indices: ArrayRef,
        values: ArrayRef,
        chunk_offsets: ArrayRef,
    ) -> Patches
        requires { chunked_refusal (patches array_len offset indices values) chunk_offsets ≡ None }
        ensures { result ≡ chunked array_len offset indices values (Some chunk_offsets) }
    {
        indices.known();
        values.known();
        chunk_offsets.known();
        Patches {
            array_len,
            offset,
            indices,
            values,
            chunks: Some(chunk_offsets),
        }
    }

    // Drops the chunk offsets, if there are any.
    pub(crate) fn drop_chunks(&mut self)
        ensures { self.new ≡ patches self.old.array_len self.old.offset self.old.indices self.old.values }
    {
        self.chunks = None;
    }

    /// The chunk offsets, None where there are none.
    pub fn chunk_offsets(&self) -> Option<&ArrayRef>
        ensures { option_copied result ≡ self.now.chunks }
    {
        self.chunks.as_ref()
    }
}

// The refusal of these inputs, if there is one.
fn chunked_refusal(
    array_len: u64,
    offset: u64,
    indices: &ArrayRef,
    values: &ArrayRef,
    chunks: &ArrayRef,
) -> Option<VortexError>
    ensures { result ≡ chunked_refusal (patches array_len offset indices.now values.now) chunks.now }
{
    if !are_integers(indices.dtype()) || !are_integers(chunks.dtype()) {
        return Some(VortexError::MismatchedTypes);
    }
    let has_each = u128::from(chunks.len()) == chunk_count(offset, array_len);
    if indices.len() != values.len() || !has_each {
        return Some(VortexError::LengthMismatch);
    }
    if !indices.ascends(offset, array_len) {
        return Some(VortexError::IndicesNotAscending);
    }
    if !are_chunk_offsets(indices, chunks) {
        return Some(VortexError::OutOfBounds);
    }
    None
}

// The chunks of indices below `offset + len`, a sum of up to 65 bits: `ceil((offset + len) / 1024)`.
fn chunk_count(offset: u64, len: u64) -> u128
    ensures { result ≡ block_count (offset + len) }
{
    (u128::from(offset) + u128::from(len) + (CHUNK_ROWS - 1)) / CHUNK_ROWS
}

// Whether the entry of chunk c is the number of indices below 1,024 * c, for each chunk.
fn are_chunk_offsets(indices: &ArrayRef, chunks: &ArrayRef) -> bool
    requires indices { IsTrue (is_integer (tree_type indices.now)) }
    requires chunks { IsTrue (is_integer (tree_type chunks.now)) }
    requires rising { IsTrue (ascend 0 (2 ^ 65) (rows indices.now)) }
    ensures { result ≡ are_chunk_offsets (rows indices.now) (rows chunks.now) }
{
    let plain_indices = indices.summed();
    let plain_chunks = chunks.summed();
    are_counts(indices.or(&plain_indices), chunks.or(&plain_chunks))
}

// `are_chunk_offsets`, one chunk after another: the indices rise, so the places of those below only go on from chunk to chunk.
fn are_counts(indices: &ArrayRef, chunks: &ArrayRef) -> bool
    requires indices { IsTrue (is_integer (tree_type indices.now)) }
    requires chunks { IsTrue (is_integer (tree_type chunks.now)) }
    requires rising { IsTrue (ascend 0 (2 ^ 65) (rows indices.now)) }
    ensures { result ≡ are_chunk_offsets (rows indices.now) (rows chunks.now) }
{
    if chunks.is_uniform() {
        return are_zeros(indices, chunks);
    }
    let mut below = 0;
    for chunk in 0..chunks.len() {
        below = place_behind(indices, below, CHUNK_ROWS * u128::from(chunk));
        if !is_count(chunks.integer_at(chunk), below) {
            return false;
        }
    }
    true
}

// `are_chunk_offsets` of equal offsets. The first is 0, so there is no index before the last chunk.
fn are_zeros(indices: &ArrayRef, chunks: &ArrayRef) -> bool
    requires indices { IsTrue (is_integer (tree_type indices.now)) }
    requires chunks { IsTrue (is_integer (tree_type chunks.now)) }
    requires rising { IsTrue (ascend 0 (2 ^ 65) (rows indices.now)) }
    requires uniform { IsUniform (rows chunks.now) }
    ensures { result ≡ are_chunk_offsets (rows indices.now) (rows chunks.now) }
{
    let len = chunks.len();
    if len == 0 {
        return true;
    }
    if !is_count(chunks.integer_at(0), 0) {
        return false;
    }
    let count = indices.len();
    if count == 0 {
        return true;
    }
    match as_index(indices.integer_at(0)) {
        Some(index) => index >= CHUNK_ROWS * u128::from(len - 1),
        None => unreachable!(),
    }
}

// Whether an entry is the number.
pub(crate) fn is_count(entry: Option<i128>, number: u64) -> bool
    ensures { result ≡ is_index (cell entry) number }
{
    match as_index(entry) {
        Some(index) => index == u128::from(number),
        None => false,
    }
}

// The first place whose index is at least `bound`, which is the number of indices below; from a place on that isn't behind it.
fn place_behind(indices: &ArrayRef, from: u64, bound: u128) -> u64
    requires integers { IsTrue (is_integer (tree_type indices.now)) }
    requires rising { IsTrue (ascend 0 (2 ^ 65) (rows indices.now)) }
    requires before { from ≤ indices_below bound (rows indices.now) }
    ensures { result ≡ indices_below bound (rows indices.now) }
{
    let mut place = from;
    while place < indices.len() {
        match as_index(indices.integer_at(place)) {
            Some(index) if index >= bound => return place,
            _ => place += 1,
        }
    }
    place
}
