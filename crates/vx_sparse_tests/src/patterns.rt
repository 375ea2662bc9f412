//! Texts of sparse arrays that match patterns.

use crate::columns::{FORMS, has_truths, nulls_of, s_over, same_texts, same_wholes, texts, words};
use std::alloc::Global;
use std::test::Fail;
use vx_array::ArrayRef;
use vx_base::ArrayId::{Bool, Sparse};
use vx_base::Nullability::{NonNullable, Nullable};
use vx_base::PType::I32;
use vx_base::{ArrayId, DType, VortexError, VortexResult};
use vx_fixtures::{accepted, byte_rows, context};
use vx_rules::LikeOptions;
use vx_sparse::{SparseArray, SparseKernels};

const YES: Option<bool> = Some(true);

const NO: Option<bool> = Some(false);

// Whether the matches are of an encoding and have these rows.
fn matches(
    alloc: Global,
    array: &SparseArray,
    (pattern, negated): (&ArrayRef, bool),
    root: ArrayId,
    rows: &[Option<bool>],
) -> VortexResult<bool> {
    let options = LikeOptions { negated };
    let out = array.like(pattern, options, &mut context(alloc)?)?;
    Ok(has_truths(&out, root, rows))
}

// `world`, `help` and `foo` over nulls.
fn are_words(alloc: Global, array: &SparseArray) -> VortexResult<bool> {
    let with_o = same_texts(alloc, "%o%", 8)?;
    let rows = [None, YES, None, NO, None, YES, None, None];
    let like = matches(alloc, array, (&with_o, false), Sparse, &rows)?;
    let rows = [None, NO, None, YES, None, NO, None, None];
    let unlike = matches(alloc, array, (&with_o, true), Sparse, &rows)?;
    let null = nulls_of(DType::Utf8(Nullable), 8)?;
    let none = [None, None, None, None, None, None, None, None];
    Ok(like && unlike && matches(alloc, array, (&null, false), Sparse, &none)?)
}

// `b`, `ab`, `b`, by one pattern and by a pattern for each row.
fn are_texts(alloc: Global, array: &SparseArray) -> VortexResult<bool> {
    let from_b = same_texts(alloc, "b%", 3)?;
    let one = matches(alloc, array, (&from_b, false), Sparse, &[YES, NO, YES])?;
    let rows = byte_rows(alloc, &[b"a%", b"_b", b"%"])?;
    let each = accepted(ArrayRef::var_bin_view(rows, None, DType::Utf8(NonNullable)))?;
    Ok(one && matches(alloc, array, (&each, false), Bool, &[NO, YES, YES])?)
}

#[test]
fn patches_and_fill_match_patterns(rt: HostRuntime) -> Result<(), Fail> {
    for form in FORMS {
        assert!(rt; are_words(rt.alloc(), &words(rt.alloc(), form)?)?);
        assert!(rt; are_texts(rt.alloc(), &texts(rt.alloc(), form)?)?);
    }
    Ok(())
}

fn refuses(
    alloc: Global,
    array: &SparseArray,
    pattern: &ArrayRef,
    why: VortexError,
) -> VortexResult<bool> {
    let options = LikeOptions { negated: false };
    let out = array.like(pattern, options, &mut context(alloc)?);
    Ok(out.err() == Some(why))
}

#[test]
fn only_texts_match_and_as_many_patterns(rt: HostRuntime) -> Result<(), Fail> {
    let alloc = rt.alloc();
    let (mismatched, unlike) = (VortexError::MismatchedTypes, VortexError::LengthMismatch);
    for form in FORMS {
        let texts = words(alloc, form)?;
        assert!(rt; refuses(alloc, &texts, &same_wholes(I32, 1, 8)?, mismatched)?);
        assert!(rt; refuses(alloc, &texts, &same_wholes(I32, 1, 7)?, mismatched)?);
        assert!(rt; refuses(alloc, &texts, &same_texts(alloc, "%", 7)?, unlike)?);
        let numbers = s_over(alloc, form, 1)?;
        assert!(rt; refuses(alloc, &numbers, &same_texts(alloc, "%", 8)?, mismatched)?);
    }
    Ok(())
}
