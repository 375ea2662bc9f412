//! The rows that the bench programs run on, and digests of what they answer. `bench/kernels.rs` makes the same.

ghost use Rattle.std.specs.Prelude.{◌≡◌, ◌<◌, ◌≤◌, vec_len, IfOk};

use std::alloc::{AllocError, Global};
use vx_base::Integer;

// The generator of values: state = state * MULTIPLIER + INCREMENT, modulo 2^64.
const SEED: u64 = 1;

const MULTIPLIER: u64 = 6364136223846793005;

const INCREMENT: u64 = 1442695040888963407;

/// A digest is digest * DIGEST_FACTOR + item for each item.
pub const DIGEST_FACTOR: u64 = 31;

// The rows of each run.
const RUN_ROWS: u32 = 100;

/// Rows of `width` bits: the high bits of the states.
pub fn values<T: Integer>(alloc: Global, rows: usize, width: u32) -> Result<Vec<T>, AllocError>
    requires some { 0 < width }
    requires most { width ≤ 64 }
    ensures { IfOk result (λ values. vec_len values ≡ rows) }
{
    let mut values = vec![in alloc; T::zero(); rows]?;
    let mut state = SEED;
    for value in values.iter_mut() {
        state = state.wrapping_mul(MULTIPLIER).wrapping_add(INCREMENT);
        *value = T::from_low_bits(state >> (64 - width));
    }
    Ok(values)
}

/// Runs of 100 equal rows of `width` bits: the high bits of the states.
pub fn repeated<T: Integer>(alloc: Global, rows: usize, width: u32) -> Result<Vec<T>, AllocError>
    requires some { 0 < width }
    requires most { width ≤ 64 }
    ensures { IfOk result (λ values. vec_len values ≡ rows) }
{
    let mut values = vec![in alloc; T::zero(); rows]?;
    let mut state = SEED;
    let mut left: u32 = 0;
    for value in values.iter_mut() {
        if left == 0 {
            state = state.wrapping_mul(MULTIPLIER).wrapping_add(INCREMENT);
            left = RUN_ROWS;
        }
        left = left.saturating_sub(1);
        *value = T::from_low_bits(state >> (64 - width));
    }
    Ok(values)
}

/// The numbers from 0 on, modulo the type's range.
pub fn ramp<T: Integer>(alloc: Global, rows: usize) -> Result<Vec<T>, AllocError> {
    let mut values = vec![in alloc; T::zero(); rows]?;
    let mut next: u64 = 0;
    for value in values.iter_mut() {
        *value = T::from_low_bits(next);
        next = next.wrapping_add(1);
    }
    Ok(values)
}

/// The digest of items by their bits.
pub fn digest<T: Integer>(items: &[T]) -> u64 {
    let mut sum: u64 = 0;
    for item in items {
        sum = sum.wrapping_mul(DIGEST_FACTOR).wrapping_add(item.to_bits());
    }
    sum
}
