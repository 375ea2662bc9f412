//! Codes of texts and binaries by first appearance, in one pass over the rows.

ghost use Rattle.std.specs.Prelude.{◌≡◌, ◌<◌, ◌≤◌, ◌+◌, ◌^◌, ◌++◌, ◌∷◌, [], List, length, map, pos, true};
ghost use Rattle.vx_base.specs.Answers.{OrMemory};
ghost use Rattle.vx_base.specs.PlainValue.{PlainValue, bytes, whole_or_zero};
ghost use Rattle.vx_model.specs.Refusals.{validity_length};
ghost use Rattle.vx_model.specs.Rows.{row_at, valid_rows};
ghost use Rattle.vx_schemes_text.specs.Dictionary.Codebook.{AreCoded, Knows};
ghost use Rattle.vx_schemes_text.specs.Dictionary.Tree.{appearing, code_in};

use std::alloc::Global;
use std::collections::HashMap;
use vx_base::{Bytes, IntList, Mask, VortexResult, Words};
use vx_values::is_valid;

/// The code of each value that was met, by its bytes, and the row of each value's first appearance: that of code 0 first.
/// The values are borrowed, so none is copied.
#[derive(Drop)]
pub(crate) struct Codebook<'a> {
    codes: HashMap<&'a [u8], u32>,
    firsts: Vec<u64>,
}

impl<'a> Codebook<'a> {
    fn new(alloc: Global) -> Self
        ensures { (values : List PlainValue) → Knows values [] result }
    {
        Codebook {
            codes: HashMap::new(alloc),
            firsts: Vec::new(alloc),
        }
    }

    // The code of the value in a row, a new one where it wasn't met before. Its bytes are hashed once.
    fn code_of(&mut self, value: &'a [u8], row: usize) -> VortexResult<u32>
        requires room { length self.old.firsts.items < 2 ^ 32 }
        ensures code { OrMemory result (λ code. (values seen : List PlainValue) → Knows values seen self.old → pos code ≡ whole_or_zero (code_in (appearing (seen ++ bytes value.now ∷ [])) (bytes value.now))) }
        ensures knows { OrMemory result (λ _. (values seen : List PlainValue) → Knows values seen self.old → row_at values row ≡ bytes value.now → Knows values (seen ++ bytes value.now ∷ []) self.new) }
        ensures few { OrMemory result (λ _. length self.new.firsts.items ≤ length self.old.firsts.items + 1) }
    {
        let next = self.firsts.len() as u32;
        let code = *self.codes.entry(value)?.or_insert(next);
        if code == next {
            self.firsts.push(row as u64)?;
        }
        Ok(code)
    }

    // The code of a row, 0 where it is null.
    fn code_at(&mut self, rows: &'a [Bytes], valid: &Option<Mask>, row: usize) -> VortexResult<u32>
        requires mask { validity_length valid.now (length rows.now) ≡ true }
        requires within { row < length rows.now }
        requires room { length self.old.firsts.items < 2 ^ 32 }
        ensures code { OrMemory result (λ code. (seen : List PlainValue) → Knows (valid_rows valid.now (map bytes rows.now)) seen self.old → pos code ≡ whole_or_zero (code_in (appearing (seen ++ row_at (valid_rows valid.now (map bytes rows.now)) row ∷ [])) (row_at (valid_rows valid.now (map bytes rows.now)) row))) }
        ensures knows { OrMemory result (λ _. (seen : List PlainValue) → Knows (valid_rows valid.now (map bytes rows.now)) seen self.old → Knows (valid_rows valid.now (map bytes rows.now)) (seen ++ row_at (valid_rows valid.now (map bytes rows.now)) row ∷ []) self.new) }
        ensures few { OrMemory result (λ _. length self.new.firsts.items ≤ length self.old.firsts.items + 1) }
    {
        if is_valid(valid, row as u64) {
            self.code_of(rows[row].as_slice(), row)
        } else {
            Ok(0)
        }
    }
}

/// The rows of the first appearances, and the code of each row, 0 where it is null.
pub(crate) struct CodedRows {
    pub(crate) firsts: Words,
    pub(crate) codes: IntList<u32>,
}

/// The codes of rows: each is hashed once.
pub(crate) fn coded(alloc: Global, rows: &[Bytes], valid: &Option<Mask>) -> VortexResult<CodedRows>
    requires mask { validity_length valid.now (length rows.now) ≡ true }
    requires few { length rows.now < 2 ^ 32 }
    ensures { OrMemory result (AreCoded (valid_rows valid.now (map bytes rows.now))) }
{
    let mut book = Codebook::new(alloc);
    let mut codes = Vec::with_capacity(alloc, rows.len())?;
    for row in 0..rows.len() {
        codes.push(book.code_at(rows, valid, row)?)?;
    }
    Ok(CodedRows {
        firsts: IntList::from_vec(book.firsts),
        codes: IntList::from_vec(codes),
    })
}
