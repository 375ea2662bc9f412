//! The data of a sparse array beside its trees.

ghost use Rattle.std.specs.Prelude.{◌≡◌, ◌==◌, ◌&&◌, option_copied};
ghost use Rattle.vx_base.specs.Answers.{Answers, SurelyDecided};
ghost use Rattle.vx_base.specs.PlainScalar.{PlainScalar};
ghost use Rattle.vx_base.specs.PlainType.{same_type};
ghost use Rattle.vx_base.specs.TypeOf.{type_of};
ghost use Rattle.vx_sparse_array.specs.Data.{AreData, data_refusal, fill_text};
ghost use Rattle.vx_sparse_array.specs.Encoded.{AnswersAs, encoded};
ghost use Rattle.vx_model.specs.Column.{column_of};
ghost use Rattle.vx_model.specs.Refusals.{sparse_refusal};
ghost use Rattle.vx_model.specs.Tree.{PlainPatches, sparse_of};
ghost use Rattle.vx_model.specs.TreeType.{tree_type};

use crate::array::SparseArray;
use crate::encode::Sparse;
use crate::making::are_of_type;
use std::alloc::Global;
use std::hash::{Hash, Hasher};
use vx_array::{ArrayRef, Node, Patches};
use vx_base::{DType, ExecutionCtx, Scalar, Text, VortexError, VortexResult};

/// The data of a sparse array beside its trees: its length in rows, the offset and the number of its patches, and its
/// fill, which is borrowed. Equality compares these four, and a hash is fed each of them.
#[derive(Clone, Copy)]
pub struct SparseData<'a> {
    len: u64,
    offset: u64,
    num_patches: u64,
    fill: &'a Scalar,
}

impl<'a> SparseData<'a> {
    /// The data of patches and a fill. Refuses MismatchedTypes where the values of the patches are of another type than the
    /// fill.
    pub fn try_new_from_patches(
        patches: &Patches,
        fill_value: &'a Scalar,
    ) -> VortexResult<SparseData<'a>>
        ensures { SurelyDecided (sparse_refusal patches.now fill_value.now) (λ d. AreData d patches.now fill_value.now) result }
    {
        if are_of_type(patches.values(), fill_value) {
            Ok(data_of(patches, fill_value))
        } else {
            Err(VortexError::MismatchedTypes)
        }
    }

    /// Whether patches and a fill are those of a sparse array of a type and `len` rows. Refuses MismatchedTypes where the
    /// values of the patches or the fill are of another type, then LengthMismatch where the patched array has another length.
    pub fn validate(
        patches: &Patches,
        fill_value: &Scalar,
        dtype: &DType,
        len: u64,
    ) -> VortexResult<()>
        ensures { SurelyDecided (data_refusal patches.now fill_value.now (type_of dtype.now) len) (λ _. Unit {0}) result }
    {
        if !are_both_of(patches, fill_value, dtype) {
            return Err(VortexError::MismatchedTypes);
        }
        if len != patches.array_len() {
            return Err(VortexError::LengthMismatch);
        }
        Ok(())
    }

    /// `Sparse::encode`, under upstream's name.
    pub fn encode(
        array: &ArrayRef,
        fill_value: Option<&Scalar>,
        ctx: &mut ExecutionCtx,
    ) -> VortexResult<ArrayRef>
        ensures answer { AnswersAs (encoded (column_of array.now) (option_copied fill_value.entry)) result }
        ensures ctx { ctx.new ≡ ctx.old }
    {
        Sparse::encode(array, fill_value, ctx)
    }

    /// The number of rows of the array.
    pub fn len(&self) -> u64
        ensures { result ≡ self.now.len }
    {
        self.len
    }

    /// Whether the array has no row.
    pub fn is_empty(&self) -> bool
        ensures { result ≡ (self.now.len == 0) }
    {
        self.len == 0
    }

    pub fn dtype(&self) -> &'a DType
        ensures { type_of result.now ≡ self.now.fill.now.dtype }
    {
        self.fill.dtype()
    }

    /// The offset of the patches: `index - row`.
    pub fn offset(&self) -> u64
        ensures { result ≡ self.now.offset }
    {
        self.offset
    }

    /// The value of every row that isn't patched.
    pub fn fill_scalar(&self) -> &'a Scalar
        ensures { result.now ≡ self.now.fill.now }
    {
        self.fill
    }

    /// `fill_value: ` and the fill as JSON.
    pub fn describe(&self, alloc: Global) -> VortexResult<Text>
        ensures { Answers result (fill_text self.now.fill.now) }
    {
        let value = self.fill.json(alloc)?;
        let mut text = String::new(alloc);
        text.push_str("fill_value: ")?;
        text.push_str(value.as_str())?;
        Ok(Text::from_string(text))
    }
}

impl PartialEq for SparseData<'_> {
    ghost use Rattle.vx_sparse_array.specs.Data.{same_data};
    ghost use Rattle.vx_sparse_array.specs.DataWrites.{data_symm, data_trans};

    ghost eq = { same_data };

    ghost laws = { record { symm = data_symm; trans = data_trans } };

    fn eq(&self, other: &Self) -> bool {
        self.len == other.len
            && self.offset == other.offset
            && self.num_patches == other.num_patches
            && *self.fill == *other.fill
    }
}

impl Eq for SparseData<'_> {
    ghost use Rattle.vx_sparse_array.specs.DataWrites.{data_refl, data_symm, data_congr};

    ghost laws = { record { refl = data_refl; symm = data_symm; congr = data_congr } };
}

impl Hash for SparseData<'_> {
    ghost use Rattle.vx_sparse_array.specs.DataWrites.{data_writes, data_alike};

    ghost hash_input = { data_writes };

    ghost respects_eq = { data_alike };

    fn hash<H: Hasher>(&self, state: &mut H) {
        self.len.hash(state);
        self.offset.hash(state);
        self.num_patches.hash(state);
        self.fill.hash(state);
    }
}

impl SparseArray {
    /// The data of the array beside its trees.
    pub fn sparse_data(&self) -> SparseData<'_>
        ensures { (p : PlainPatches) → (fill : PlainScalar) → self.now ≡ sparse_of p fill → AreData result p fill }
    {
        let (patches, fill) = self.parts();
        data_of(patches, fill)
    }

    // The patches and the fill.
    pub(crate) fn parts(&self) -> (&Patches, &Scalar)
        ensures { self.now ≡ sparse_of result.0.now result.1.now }
    {
        match self.as_array().node() {
            Node::Sparse(patches, fill) => (patches, fill),
            _ => unreachable!(),
        }
    }
}

// Whether the values of patches and a fill are of a type.
fn are_both_of(patches: &Patches, fill: &Scalar, dtype: &DType) -> bool
    ensures { result ≡ (same_type (tree_type patches.now.values) (type_of dtype.now) && same_type fill.now.dtype (type_of dtype.now)) }
{
    *patches.values().dtype() == *dtype && *fill.dtype() == *dtype
}

// The data of patches and a fill.
fn data_of<'a>(patches: &Patches, fill: &'a Scalar) -> SparseData<'a>
    ensures { AreData result patches.now fill.now }
{
    SparseData {
        len: patches.array_len(),
        offset: patches.offset(),
        num_patches: patches.num_patches(),
        fill,
    }
}
