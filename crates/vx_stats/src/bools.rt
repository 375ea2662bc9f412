//! Statistics of columns of truth values.

ghost use Rattle.std.specs.Prelude.{◌≡◌, ◌<◌, ◌^◌, length, map, true, IsTrue};
ghost use Rattle.vx_base.specs.Answers.{Decided};
ghost use Rattle.vx_base.specs.PlainValue.{truth};
ghost use Rattle.vx_model.specs.Plain.{IsPlain};
ghost use Rattle.vx_model.specs.Refusals.{validity_length};
ghost use Rattle.vx_model.specs.Rows.{rows, masked_rows, valid_rows};
ghost use Rattle.vx_model.specs.Tree.{constant};
ghost use Rattle.vx_model.specs.TreeType.{tree_type};
ghost use Rattle.vx_stats.specs.Bools.{is_bool, bools_of, true_count, are_equal};
ghost use Rattle.vx_stats.specs.Stats.{stats_refusal};

use crate::row_counts::{copies_with, counts_of_rows};
use std::marker::Model;
use vx_array::{ArrayRef, Node};
use vx_base::{ExecutionCtx, Mask, Scalar, VortexError, VortexResult};

/// Statistics of a column of truth values. Contracts see them as plain data.
#[derive(Clone, Copy, Debug)]
pub struct BoolStats {
    null_count: u32,
    value_count: u32,
    true_count: u32,
}

impl Model for BoolStats {
    ghost use Rattle.vx_stats.specs.Bools.{PlainBools, are_equal};

    ghost Value = { PlainBools };

    ghost view = { λ a. record { null_count = a.null_count; value_count = a.value_count; true_count = a.true_count; is_constant = are_equal a.value_count a.true_count } };

    ghost inverse = { λ v. record { null_count = v.null_count; value_count = v.value_count; true_count = v.true_count } };
}

impl BoolStats {
    /// The statistics of a tree of truth values. The rows of a Bool and of a Constant are counted as they stand, without memory;
    /// any other tree is decoded first. Refuses TooManyRows exactly above 2^32 - 1 rows, before decoding, and NoMemory. The
    /// context stays as it was.
    pub fn generate(input: &ArrayRef, ctx: &mut ExecutionCtx) -> VortexResult<BoolStats>
        requires { IsTrue (is_bool (tree_type input.now)) }
        ensures answer { Decided (stats_refusal (rows input.now)) (λ stats. stats ≡ bools_of (rows input.now)) result }
        ensures ctx { ctx.new ≡ ctx.old }
    {
        if input.len() > u64::from(u32::MAX) {
            return Err(VortexError::TooManyRows);
        }
        match input.node() {
            Node::Bool(values, valid, _) => Ok(stats_of_bits(values, valid)),
            Node::Constant(value, len) => Ok(stats_of_copies(value, *len)),
            _ => Ok(BoolStats::of_plain(&input.canonical(ctx.alloc())?)),
        }
    }

    /// The statistics of plain truth values, in one pass that takes no memory.
    pub fn of_plain(plain: &ArrayRef) -> BoolStats
        requires plain { IsPlain plain.now }
        requires bool { IsTrue (is_bool (tree_type plain.now)) }
        requires few { length (rows plain.now) < 2 ^ 32 }
        ensures { result ≡ bools_of (rows plain.now) }
    {
        match plain.node() {
            Node::Bool(values, valid, _) => stats_of_bits(values, valid),
            _ => unreachable!(),
        }
    }

    /// The number of null rows.
    pub fn null_count(&self) -> u32
        ensures { result ≡ self.now.null_count }
    {
        self.null_count
    }

    /// The number of valid rows.
    pub fn value_count(&self) -> u32
        ensures { result ≡ self.now.value_count }
    {
        self.value_count
    }

    /// The number of true rows.
    pub fn true_count(&self) -> u32
        ensures { result ≡ self.now.true_count }
    {
        self.true_count
    }

    /// Whether some row is valid and all valid rows are equal.
    pub fn is_constant(&self) -> bool
        ensures { result ≡ self.now.is_constant }
    {
        self.value_count > 0 && (self.true_count == 0 || self.true_count == self.value_count)
    }
}

// The number of rows that are true in both masks, as a sum: no branch per row, so that the loop is vectorized.
fn true_in_both(bits: &[bool], mask: &[bool]) -> u32
    requires few { length bits.now < 2 ^ 32 }
    requires same { length mask.now ≡ length bits.now }
    ensures { result ≡ true_count (masked_rows mask.now (map truth bits.now)) }
{
    let mut count = 0;
    for row in 0..bits.len() {
        count += u32::from(bits[row] & mask[row]);
    }
    count
}

// The number of true rows.
fn true_rows(values: &Mask, valid: &Option<Mask>) -> u32
    requires mask { validity_length valid.now (length values.now) ≡ true }
    requires few { length values.now < 2 ^ 32 }
    ensures { result ≡ true_count (valid_rows valid.now (map truth values.now)) }
{
    match valid {
        Some(mask) => true_in_both(values.as_slice(), mask.as_slice()),
        None => values.true_count() as u32,
    }
}

// The statistics of the valid rows.
fn stats_of_bits(values: &Mask, valid: &Option<Mask>) -> BoolStats
    requires mask { validity_length valid.now (length values.now) ≡ true }
    requires few { length values.now < 2 ^ 32 }
    ensures { result ≡ bools_of (valid_rows valid.now (map truth values.now)) }
{
    let (null_count, value_count) = counts_of_rows(values.len() as u32, valid);
    BoolStats {
        null_count,
        value_count,
        true_count: true_rows(values, valid),
    }
}

// The statistics of `len` times the same row.
fn stats_of_copies(value: &Scalar, len: u64) -> BoolStats
    requires bool { IsTrue (is_bool value.now.dtype) }
    requires few { len < 2 ^ 32 }
    ensures { result ≡ bools_of (rows (constant value.now len)) }
{
    value.known();
    let len = len as u32;
    let null_count = copies_with(value.is_null(), len);
    let true_count = copies_with(value.cell().truth(), len);
    BoolStats {
        null_count,
        value_count: len - null_count,
        true_count,
    }
}
