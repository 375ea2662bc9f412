//! Outcomes of row functions as outcomes of queries; a refusal stays as it is.

ghost use Rattle.std.specs.Prelude.{◌≡◌, length};
ghost use Rattle.vx_base.specs.Answers.{Answers};
ghost use Rattle.vx_model.specs.Rows.{rows};
ghost use Rattle.vx_model.specs.Tree.{constant};
ghost use Rattle.vx_query.specs.Queries.{mapped};
ghost use Rattle.vx_query.specs.declared.steps.RowAnswer.TheVariants.{Column, Count, One, Pair, Yes};

use crate::steps::RowAnswer;
use std::alloc::Global;
use vx_array::ArrayRef;
use vx_base::{Scalar, VortexResult};

/// A scalar in as many rows as a tree has. Takes memory for the scalar alone.
pub(crate) fn constant_of(alloc: Global, value: &Scalar, array: &ArrayRef) -> VortexResult<ArrayRef>
    ensures { Answers result (constant value.now (length (rows array.now))) }
{
    Ok(ArrayRef::constant(value.copy(alloc)?, array.len()))
}

/// A column as an answer.
pub(crate) fn of_column(outcome: VortexResult<ArrayRef>) -> VortexResult<RowAnswer>
    ensures { result ≡ mapped Column outcome }
{
    match outcome {
        Ok(tree) => Ok(RowAnswer::Column(tree)),
        Err(error) => Err(error),
    }
}

/// A scalar as an answer.
pub(crate) fn one(outcome: VortexResult<Scalar>) -> VortexResult<RowAnswer>
    ensures { result ≡ mapped One outcome }
{
    match outcome {
        Ok(scalar) => Ok(RowAnswer::One(scalar)),
        Err(error) => Err(error),
    }
}

/// A least and a greatest as an answer.
pub(crate) fn of_pair(outcome: VortexResult<Option<(Scalar, Scalar)>>) -> VortexResult<RowAnswer>
    ensures { result ≡ mapped Pair outcome }
{
    match outcome {
        Ok(pair) => Ok(RowAnswer::Pair(pair)),
        Err(error) => Err(error),
    }
}

/// A truth value as an answer.
pub(crate) fn yes(outcome: VortexResult<bool>) -> VortexResult<RowAnswer>
    ensures { result ≡ mapped Yes outcome }
{
    match outcome {
        Ok(truth) => Ok(RowAnswer::Yes(truth)),
        Err(error) => Err(error),
    }
}

/// A count as an answer.
pub(crate) fn of_count(outcome: VortexResult<u64>) -> VortexResult<RowAnswer>
    ensures { result ≡ mapped Count outcome }
{
    match outcome {
        Ok(count) => Ok(RowAnswer::Count(count)),
        Err(error) => Err(error),
    }
}
