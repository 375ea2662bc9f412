//! Truth values with nulls: the rows of an answer, made of bits or set one by one, and then a tree.

ghost use Rattle.std.specs.List.{list_all};
ghost use Rattle.std.specs.Prelude.{◌≡◌, ◌<◌, IsTrue, true, length, map, replicate, slice_set};
ghost use Rattle.vx_base.specs.Answers.{Answers};
ghost use Rattle.vx_base.specs.PlainScalar.{fits};
ghost use Rattle.vx_base.specs.PlainType.{boolean, nullability_of, or_nullable};
ghost use Rattle.vx_base.specs.PlainValue.{null, truth};
ghost use Rattle.vx_base.specs.TypeOf.{type_of};
ghost use Rattle.vx_model.specs.Column.{column, column_of};
ghost use Rattle.vx_model.specs.Refusals.{validity_length};
ghost use Rattle.vx_model.specs.Rows.{valid_rows};
ghost use Rattle.vx_rows.specs.Pairs.{both_true, each_pair};
ghost use Rattle.vx_rows.specs.Truths.{truth_or_null};

use crate::kernels::{and_bits, both_valid};
use std::alloc::Global;
use std::marker::Model;
use vx_array::ArrayRef;
use vx_base::{DType, Mask, Nullability, VortexResult};

/// Truth values with their validity. Contracts see the rows, null where one isn't valid.
#[derive(Drop)]
pub(crate) struct Truths {
    values: Mask,
    valid: Option<Mask>,
}

impl Model for Truths {
    ghost use Rattle.std.specs.Prelude.{◌≡◌, List, length, map, true};
    ghost use Rattle.vx_base.specs.PlainValue.{PlainValue, truth, values_code};
    ghost use Rattle.vx_model.specs.Refusals.{validity_length};
    ghost use Rattle.vx_model.specs.Rows.{valid_rows};

    ghost Value = { List PlainValue };

    ghost coded = { values_code };

    ghost view = { λ a. valid_rows a.valid (map truth a.values) };

    ghost invariant = { λ a. validity_length a.valid (length a.values) ≡ true };
}

impl Truths {
    pub(crate) fn new(values: Mask, valid: Option<Mask>) -> Truths
        requires { validity_length valid (length values) ≡ true }
        ensures { result ≡ valid_rows valid (map truth values) }
    {
        Truths { values, valid }
    }

    /// Whether both are true, row by row; null where either is null.
    pub(crate) fn and(&self, alloc: Global, other: &Truths) -> VortexResult<Truths>
        requires { length self.now ≡ length other.now }
        ensures { Answers result (each_pair both_true self.now other.now) }
    {
        let values = and_bits(alloc, &self.values, &other.values)?;
        let valid = both_valid(alloc, &self.valid, &other.valid, self.values.len())?;
        Ok(Truths::new(values, valid))
    }

    /// The rows as a tree.
    pub(crate) fn into_tree(self, nullability: Nullability) -> ArrayRef
        requires { IsTrue (list_all (fits (boolean nullability)) self) }
        ensures { column_of result ≡ column (boolean nullability) self }
    {
        let Truths { values, valid } = self;
        ArrayRef::bool_of(values, valid, nullability)
    }
}

/// Rows that are set one by one.
#[derive(Drop)]
pub(crate) struct TruthsBuilder {
    values: Vec<bool>,
    valid: Vec<bool>,
}

impl Model for TruthsBuilder {
    ghost use Rattle.std.specs.Prelude.{◌≡◌, List, map, length};
    ghost use Rattle.vx_base.specs.PlainValue.{PlainValue, truth, values_code};
    ghost use Rattle.vx_model.specs.Rows.{masked_rows};

    ghost Value = { List PlainValue };

    ghost coded = { values_code };

    ghost view = { λ a. masked_rows a.valid.items (map truth a.values.items) };

    ghost invariant = { λ a. length a.valid.items ≡ length a.values.items };
}

impl TruthsBuilder {
    /// `len` rows, each null.
    #[tactic(auto, using(crate::proofs::TruthLemmas::nulls))]
    pub(crate) fn nulls(alloc: Global, len: u64) -> VortexResult<TruthsBuilder>
        ensures { Answers result (replicate len null) }
    {
        let values = vec![in alloc; false; len as usize]?;
        let valid = vec![in alloc; false; len as usize]?;
        Ok(TruthsBuilder { values, valid })
    }

    /// Sets a row, null of None.
    pub(crate) fn set(&mut self, row: u64, value: Option<bool>)
        requires { row < length self.old }
        ensures { self.new ≡ slice_set self.old row (truth_or_null value) }
    {
        let row = row as usize;
        self.values[row] = value.unwrap_or(false);
        self.valid[row] = value.is_some();
    }

    pub(crate) fn finish(self) -> Truths
        ensures { result ≡ self }
    {
        let TruthsBuilder { values, valid } = self;
        let valid = Some(Mask::from_bits(valid));
        Truths::new(Mask::from_bits(values), valid)
    }
}

/// Whether the answers for rows of two types may be null: they are where either row is.
pub(crate) fn either_nullability(left: &DType, right: &DType) -> Nullability
    ensures { result ≡ or_nullable (nullability_of (type_of left.now)) (nullability_of (type_of right.now)) }
{
    left.nullability().or(right.nullability())
}
