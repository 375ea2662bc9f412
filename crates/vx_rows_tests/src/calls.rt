//! The calls under test, each in a context of its own.

use std::alloc::Global;
use vx_array::ArrayRef;
use vx_base::{DType, ExecutionCtx, Scalar, VortexResult, Words};

fn context(alloc: Global) -> VortexResult<ExecutionCtx> {
    Ok(ExecutionCtx::new(alloc, Words::from_vec(vec![in alloc; 0]?)))
}

pub fn null_count(alloc: Global, array: &ArrayRef) -> VortexResult<u64> {
    vx_rows::null_count(array, &mut context(alloc)?)
}

pub fn is_constant(alloc: Global, array: &ArrayRef) -> VortexResult<bool> {
    vx_rows::is_constant(array, &mut context(alloc)?)
}

pub fn min_max(alloc: Global, array: &ArrayRef) -> VortexResult<Option<(Scalar, Scalar)>> {
    vx_rows::min_max(array, &mut context(alloc)?)
}

pub fn sum(alloc: Global, array: &ArrayRef) -> VortexResult<Scalar> {
    vx_rows::sum(array, &mut context(alloc)?)
}

pub fn fill_null(alloc: Global, array: &ArrayRef, fill: &Scalar) -> VortexResult<ArrayRef> {
    vx_rows::fill_null(array, fill, &mut context(alloc)?)
}

pub fn cast(alloc: Global, array: &ArrayRef, dtype: &DType) -> VortexResult<ArrayRef> {
    vx_rows::cast(array, dtype, &mut context(alloc)?)
}
