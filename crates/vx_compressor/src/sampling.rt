//! Samples: which rows of a column they have, and their plain trees.

ghost use Rattle.std.specs.Prelude.{◌≡◌, ◌<◌, ◌≤◌, ◌+◌, ◌-◌, ◌%◌, ◌^◌, length, true};
ghost use Rattle.vx_base.specs.Answers.{Answers, OrMemory};
ghost use Rattle.vx_base.specs.PlainType.{is_flat};
ghost use Rattle.vx_model.specs.Column.{column_of};
ghost use Rattle.vx_model.specs.Plain.{plain, IsPlain};
ghost use Rattle.vx_model.specs.Rows.{rows};
ghost use Rattle.vx_model.specs.TreeType.{tree_type};
ghost use Rattle.vx_compressor.specs.Sampling.{is_short, partitions, partition_rows, sample, slice_count, slices, word_at};
ghost use Rattle.vx_compressor.specs.SamplingLaws.{PartitionsCover, SlicesLieInPartitions, CountsAreLeast};

use std::alloc::Global;
use vx_array::ArrayRef;
use vx_base::{Ranges, VortexResult, Words};

/// The rows of a slice. They are consecutive, since runs, differences and sequences are lost in rows drawn one by one.
pub const SAMPLE_SIZE: u32 = 64;

/// The number of slices of a sample is a positive multiple of this: 16 slices of 64 rows fill a block of 1,024, so the
/// sample of a long column packs without padding.
pub const SAMPLE_COUNT: u32 = 16;

/// A sample has about 1 of this many rows: one percent.
const SAMPLED_OF: u64 = 100;

/// The number of slices of a sample: about one percent of the rows, rounded up to a multiple of 16, and at least 16.
pub fn sample_count_approx_one_percent(len: u64) -> u32
    requires { len ≤ 2 ^ 32 }
    ensures { result ≡ slice_count len }
{
    let wanted = (len / SAMPLED_OF) as u32 / SAMPLE_SIZE;
    let wanted = if wanted < SAMPLE_COUNT {
        SAMPLE_COUNT
    } else {
        wanted
    };
    (wanted + (SAMPLE_COUNT - 1)) / SAMPLE_COUNT * SAMPLE_COUNT
}

/// Splits `length` rows into `num_partitions` ranges, each its first row and the row after its last. They are in order,
/// and the first length % num_partitions of them have one row more than the others. Refuses NoMemory alone.
pub fn partition_indices(alloc: Global, length: u64, num_partitions: u32) -> VortexResult<Ranges>
    requires some { 0 < num_partitions }
    requires few { num_partitions ≤ length }
    ensures { Answers result (partitions length num_partitions) }
{
    let mut ranges = Vec::with_capacity(alloc, num_partitions as usize)?;
    let mut start = 0;
    for place in 0..u64::from(num_partitions) {
        let end = start + partition_rows(length, u64::from(num_partitions), place);
        ranges.push((start, end))?;
        start = end;
    }
    Ok(Ranges::from_vec(ranges))
}

fn partition_rows(length: u64, num_partitions: u64, place: u64) -> u64
    requires { 0 < num_partitions }
    ensures { result ≡ partition_rows length num_partitions place }
{
    let rows = length / num_partitions;
    if place < length % num_partitions {
        rows + 1
    } else {
        rows
    }
}

/// The ranges of a sample's slices: 64 consecutive rows in each of the partitions, each placed by the next sample word, and
/// the words again from the first once all are used. The one range of all rows where these are no more than the slices.
/// Refuses NoMemory alone.
pub fn stratified_slices(alloc: Global, len: u64, words: &Words) -> VortexResult<Ranges>
    requires some { 0 < length words.now }
    requires few { len ≤ 2 ^ 32 }
    ensures { Answers result (slices len words.now) }
{
    slices(alloc, len, words.as_slice())
}

pub(crate) fn slices(alloc: Global, len: u64, words: &[u64]) -> VortexResult<Ranges>
    requires some { 0 < length words.now }
    requires few { len ≤ 2 ^ 32 }
    ensures { Answers result (slices len words.now) }
{
    if is_short(len) {
        let mut ranges = Vec::with_capacity(alloc, 1)?;
        ranges.push((0, len))?;
        return Ok(Ranges::from_vec(ranges));
    }
    let count = u64::from(sample_count_approx_one_percent(len));
    let mut ranges = Vec::with_capacity(alloc, count as usize)?;
    let mut start = 0;
    for place in 0..count {
        let rows = partition_rows(len, count, place);
        ranges.push(slice_in(start, rows, word_at(words, place)))?;
        start += rows;
    }
    Ok(Ranges::from_vec(ranges))
}

// The slice that a sample word places in the partition of `len` rows from `start` on.
fn slice_in(start: u64, len: u64, word: u64) -> (u64, u64)
    requires room { 64 ≤ len }
    requires fits { start + len ≤ 2 ^ 32 }
    ensures { result ≡ (start + word % (len - 63), start + word % (len - 63) + 64) }
{
    let first = start + word % (len - u64::from(SAMPLE_SIZE - 1));
    (first, first + u64::from(SAMPLE_SIZE))
}

// Whether a column has no more rows than its slices, so that it is its own sample.
pub(crate) fn is_short(len: u64) -> bool
    requires { len ≤ 2 ^ 32 }
    ensures { result ≡ is_short len }
{
    len <= u64::from(SAMPLE_SIZE) * u64::from(sample_count_approx_one_percent(len))
}

fn word_at(words: &[u64], place: u64) -> u64
    requires { 0 < length words.now }
    ensures { result ≡ word_at words.now place }
{
    words[place as usize % words.len()]
}

/// The plain tree of the sample of a plain tree's rows. A short column is its own sample, and a sample isn't sampled
/// again.
pub(crate) fn sample(
    alloc: Global,
    words: &[u64],
    sampled: bool,
    tree: &ArrayRef,
) -> VortexResult<ArrayRef>
    requires flat { is_flat (tree_type tree.now) ≡ true }
    requires some { 0 < length words.now }
    requires few { length (rows tree.now) ≤ 2 ^ 32 }
    requires is_plain { IsPlain tree.now }
    ensures { Answers result (plain (sample sampled words.now (column_of tree.now))) }
{
    if sampled || is_short(tree.len()) {
        return tree.copy(alloc);
    }
    let ranges = slices(alloc, tree.len(), words)?;
    tree.gather(alloc, ranges.as_slice())
}

/// Does nothing; its contract holds the laws of samples. Partitions cover the rows in order; each slice lies in its own
/// partition; the number of slices is the least that is asked.
pub fn laws_of_sampling()
    ensures partitions { PartitionsCover }
    ensures slices { SlicesLieInPartitions }
    ensures counts { CountsAreLeast }
{}
