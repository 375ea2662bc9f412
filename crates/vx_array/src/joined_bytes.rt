//! From views to offsets: the rows of a plain tree of texts or binaries, concatenated, and the offsets between them.

ghost use Rattle.std.specs.Prelude.{◌≡◌, IsTrue, None};
ghost use Rattle.vx_base.specs.Answers.{Answers};
ghost use Rattle.vx_base.specs.PlainType.{is_bytes};
ghost use Rattle.vx_base.specs.TypeOf.{type_of};
ghost use Rattle.vx_model.specs.Column.{column_of};
ghost use Rattle.vx_model.specs.Nested.{concatenated};
ghost use Rattle.vx_model.specs.Offsets.{byte_rows_of, offsets_column};
ghost use Rattle.vx_model.specs.Plain.{IsPlain, plain, validity};
ghost use Rattle.vx_model.specs.Refusals.{kept, var_bin_refusal};
ghost use Rattle.vx_model.specs.Rows.{rows};
ghost use Rattle.vx_model.specs.Tree.{var_bin};
ghost use Rattle.vx_model.specs.TreeType.{tree_type};

use crate::array::{ArrayRef, Node};
use std::alloc::Global;
use vx_base::{ByteRows, Bytes, DType, Mask, Nullability, VortexResult};
use vx_values::{Ints, byte_rows, copy_validity};

impl ArrayRef {
    /// The offsets between the rows of a plain tree of texts or binaries, concatenated: a plain tree of `u64`, 0 and then
    /// the end of each row, so one more than there are rows. A null row has no bytes.
    pub fn row_offsets(&self, alloc: Global) -> VortexResult<ArrayRef>
        requires plain { IsPlain self.now }
        requires bytes { IsTrue (is_bytes (tree_type self.now)) }
        ensures { Answers result (plain (offsets_column (byte_rows_of (column_of self.now)))) }
    {
        let (rows, _, _) = self.as_views();
        let offsets = Ints::U64(byte_rows::offsets(alloc, rows)?);
        Ok(ArrayRef::primitive_of(offsets, None, Nullability::NonNullable))
    }

    /// The VarBin node of a plain tree of texts or binaries, over any tree of the offsets that `row_offsets` gives. Refuses
    /// NoMemory alone, and then drops the offsets.
    pub fn joined_over(&self, alloc: Global, offsets: ArrayRef) -> VortexResult<ArrayRef>
        requires plain { IsPlain self.now }
        requires bytes { IsTrue (is_bytes (tree_type self.now)) }
        requires offsets { column_of offsets ≡ offsets_column (byte_rows_of (column_of self.now)) }
        ensures { Answers result (var_bin offsets (concatenated (byte_rows_of (column_of self.now))) (validity (rows self.now)) (tree_type self.now)) }
    {
        self.known();
        let (rows, valid, dtype) = self.as_views();
        let bytes = byte_rows::concatenated(alloc, rows)?;
        let valid = copy_validity(alloc, valid)?;
        ArrayRef::var_bin_of(alloc, offsets, bytes, valid, dtype.copy(alloc)?)
    }

    // The texts or binaries, the validity and the type of a plain tree of them.
    fn as_views(&self) -> (&ByteRows, &Option<Mask>, &DType)
        requires plain { IsPlain self.now }
        requires bytes { IsTrue (is_bytes (tree_type self.now)) }
        ensures rows { result.0.now ≡ byte_rows_of (column_of self.now) }
        ensures valid { result.1.now ≡ validity (rows self.now) }
        ensures dtype { type_of result.2.now ≡ tree_type self.now }
    {
        match &self.node {
            Node::VarBinView(values, valid, dtype) => (values, valid, dtype),
            _ => unreachable!(),
        }
    }

    // `var_bin_of_offsets`, whose refusal drops the inputs.
    fn var_bin_of(
        alloc: Global,
        offsets: ArrayRef,
        bytes: Bytes,
        valid: Option<Mask>,
        dtype: DType,
    ) -> VortexResult<ArrayRef>
        requires { var_bin_refusal offsets bytes valid (type_of dtype) ≡ None }
        ensures { Answers result (var_bin offsets bytes (kept valid) (type_of dtype)) }
    {
        match ArrayRef::var_bin_of_offsets(alloc, offsets, bytes, valid, dtype) {
            Ok(tree) => Ok(tree),
            Err(refused) => Err(refused.error),
        }
    }
}
