//! Patterns: `%`, `_` and backslashes, characters of several bytes, nulls, columns of patterns, and refusals.

use crate::columns::{has_truths, text, texts, texts_with_nulls};
use std::alloc::Global;
use std::test::Fail;
use vx_base::Nullability::NonNullable;
use vx_base::PType::I32;
use vx_base::{DType, Scalar, VortexError, VortexResult};
use vx_fixtures::{accepted, context, flat};
use vx_rows::{LikeOptions, like, like_scalar};

const LIKE: LikeOptions = LikeOptions { negated: false };

// Whether a text matches a pattern.
fn is_like(alloc: Global, value: &str, pattern: &str) -> VortexResult<bool> {
    let column = texts(alloc, &[value])?;
    let out = like_scalar(&column, &text(alloc, pattern)?, LIKE, &mut context(alloc)?)?;
    Ok(has_truths(&out, &[Some(true)]))
}

#[test]
fn texts_with_an_o(rt: HostRuntime) -> Result<(), Fail> {
    let alloc = rt.alloc();
    let mut ctx = context(alloc)?;
    let rows = ["", "world", "help", "foo"];
    let column = texts_with_nulls(alloc, &rows, &[false, true, true, true])?;
    let pattern = text(alloc, "%o%")?;
    let out = like_scalar(&column, &pattern, LIKE, &mut ctx)?;
    assert!(rt; has_truths(&out, &[None, Some(true), Some(false), Some(true)]));
    let out = like_scalar(&column, &pattern, LikeOptions { negated: true }, &mut ctx)?;
    assert!(rt; has_truths(&out, &[None, Some(false), Some(true), Some(false)]));
    Ok(())
}

#[test]
fn a_run_is_of_any_length(rt: HostRuntime) -> Result<(), Fail> {
    let alloc = rt.alloc();
    assert!(rt; is_like(alloc, "", "%")? && is_like(alloc, "abc", "%")?);
    assert!(rt; is_like(alloc, "abcabd", "ab%abd")? && is_like(alloc, "aab", "%ab")?);
    assert!(rt; !is_like(alloc, "abc", "%b")? && !is_like(alloc, "a", "")?);
    assert!(rt; is_like(alloc, "", "")? && is_like(alloc, "aXbYc", "a%b%c")?);
    Ok(())
}

// The leftmost place of each piece is as good as any other, and the last piece has to end the text.
#[test]
fn a_piece_is_found_at_its_leftmost_place(rt: HostRuntime) -> Result<(), Fail> {
    let alloc = rt.alloc();
    assert!(rt; is_like(alloc, "aXaXabY", "a%ab%")? && is_like(alloc, "abab", "ab%ab%")?);
    assert!(rt; !is_like(alloc, "aab", "a%ab%b")? && !is_like(alloc, "aab", "%ab%ab%")?);
    assert!(rt; is_like(alloc, "aaab", "%aab%")? && is_like(alloc, "aaab", "%aab")?);
    assert!(rt; is_like(alloc, "abab", "%ab%ab")? && !is_like(alloc, "aba", "%ab%ba")?);
    Ok(())
}

#[test]
fn the_last_piece_ends_the_text(rt: HostRuntime) -> Result<(), Fail> {
    let alloc = rt.alloc();
    assert!(rt; is_like(alloc, "abxab", "%ab")? && !is_like(alloc, "abx", "%ab")?);
    assert!(rt; is_like(alloc, "ab", "%ab")? && !is_like(alloc, "b", "%ab")?);
    assert!(rt; !is_like(alloc, "ab", "ab%b")? && is_like(alloc, "abb", "ab%b")?);
    assert!(rt; is_like(alloc, "ab", "%%ab%%")? && is_like(alloc, "", "%%")?);
    Ok(())
}

#[test]
fn a_piece_has_places_for_any_character(rt: HostRuntime) -> Result<(), Fail> {
    let alloc = rt.alloc();
    assert!(rt; is_like(alloc, "xaxbx", "%a_b%")? && !is_like(alloc, "xabx", "%a_b%")?);
    assert!(rt; is_like(alloc, "abc", "%_c")? && !is_like(alloc, "c", "%_c")?);
    assert!(rt; is_like(alloc, "ab", "%_%_%")? && !is_like(alloc, "a", "%_%_%")?);
    // In texts of other characters than ASCII too.
    assert!(rt; is_like(alloc, "éaéébé", "%é_b%")? && !is_like(alloc, "éb€", "%é_b%")?);
    assert!(rt; is_like(alloc, "€éé€", "%é%€")? && !is_like(alloc, "€éé", "%é%€")?);
    Ok(())
}

#[test]
fn one_character_is_no_byte(rt: HostRuntime) -> Result<(), Fail> {
    let alloc = rt.alloc();
    assert!(rt; is_like(alloc, "é", "_")? && !is_like(alloc, "é", "__")?);
    assert!(rt; is_like(alloc, "aéc", "a_c")? && is_like(alloc, "é", "é")?);
    assert!(rt; !is_like(alloc, "", "_")? && !is_like(alloc, "ab", "_")?);
    Ok(())
}

// Texts of one column share their room: each is matched as if it stood alone, whatever stood before it.
#[test]
fn texts_of_all_lengths_stand_in_one_column(rt: HostRuntime) -> Result<(), Fail> {
    let alloc = rt.alloc();
    let mut ctx = context(alloc)?;
    let rows = ["xxxxéb", "éb", "ab", "", "bbbbbbbbbbbbéab", "b", "éb€"];
    let column = texts(alloc, &rows)?;
    let behind = like_scalar(&column, &text(alloc, "%éb")?, LIKE, &mut ctx)?;
    let (yes, no) = (Some(true), Some(false));
    assert!(rt; has_truths(&behind, &[yes, yes, no, no, no, no, no]));
    let within = like_scalar(&column, &text(alloc, "_b%")?, LIKE, &mut ctx)?;
    assert!(rt; has_truths(&within, &[no, yes, yes, no, yes, no, yes]));
    let two = like_scalar(&column, &text(alloc, "%b%_")?, LIKE, &mut ctx)?;
    assert!(rt; has_truths(&two, &[no, no, no, no, yes, no, yes]));
    Ok(())
}

#[test]
fn a_backslash_makes_the_next_character_itself(rt: HostRuntime) -> Result<(), Fail> {
    let alloc = rt.alloc();
    assert!(rt; is_like(alloc, "100%", "100\\%")? && !is_like(alloc, "1000", "100\\%")?);
    assert!(rt; is_like(alloc, "a_b", "a\\_b")? && !is_like(alloc, "acb", "a\\_b")?);
    assert!(rt; is_like(alloc, "a\\b", "a\\\\b")? && is_like(alloc, "ab", "a\\b")?);
    // At the end it stands for itself.
    assert!(rt; is_like(alloc, "a\\", "a\\")? && !is_like(alloc, "a", "a\\")?);
    Ok(())
}

#[test]
fn each_row_has_its_pattern(rt: HostRuntime) -> Result<(), Fail> {
    let alloc = rt.alloc();
    let mut ctx = context(alloc)?;
    let column = texts(alloc, &["abc", "abc", "abc"])?;
    let patterns = texts_with_nulls(alloc, &["a%", "%a", "%"], &[true, true, false])?;
    let out = like(&column, &patterns, LIKE, &mut ctx)?;
    assert!(rt; has_truths(&out, &[Some(true), Some(false), None]));
    Ok(())
}

#[test]
fn only_texts_have_patterns(rt: HostRuntime) -> Result<(), Fail> {
    let alloc = rt.alloc();
    let mut ctx = context(alloc)?;
    let column = texts(alloc, &["a", "b"])?;
    let numbers = flat(alloc, I32, NonNullable, &[1, 2])?;
    let one = texts(alloc, &["a"])?;
    let types = like(&numbers, &column, LIKE, &mut ctx);
    assert!(rt; matches!(types, Err(VortexError::MismatchedTypes)));
    let types = like_scalar(&column, &Scalar::bool(true, NonNullable), LIKE, &mut ctx);
    assert!(rt; matches!(types, Err(VortexError::MismatchedTypes)));
    let lengths = like(&column, &one, LIKE, &mut ctx);
    assert!(rt; matches!(lengths, Err(VortexError::LengthMismatch)));
    let null = accepted(Scalar::null(DType::utf8(vx_base::Nullability::Nullable)))?;
    let out = like_scalar(&column, &null, LIKE, &mut ctx)?;
    assert!(rt; has_truths(&out, &[None, None]));
    Ok(())
}
