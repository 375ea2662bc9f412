//! The sample words of a document.

ghost use Rattle.std.specs.Prelude.{◌≡◌, ◌<◌, ℕ, List, length, option_map, IfOk};
ghost use Rattle.rand_core.specs.Steps.{first_words};
ghost use Rattle.rand_pcg.specs.Pcg.{pcg32};
ghost use Rattle.serde_json.specs.View.{view, items_view};
ghost use Rattle.vx_document.specs.Reading.{Gives, all_by};
ghost use Rattle.vx_document.specs.Words.{word_of, words_of, words_from, words_in};

use crate::document::unread::Unread;
use rand_core::SeedableRng;
use rand_core::utils::NextWord;
use rand_pcg::Lcg64Xsh32;
use serde_json::Value;
use std::alloc::{AllocError, Global};
use vx_base::Words;

// The most words that a document may list, and the number that a seed stands for.
const MOST_WORDS: usize = 1024;

// A list of words.
fn read_words(alloc: Global, list: Vec<Value>) -> Result<Vec<u64>, Unread>
    ensures { Gives (λ v. v.items) result (all_by word_of (items_view list.items)) }
{
    let mut words = Vec::with_capacity(alloc, list.len())?;
    for value in list {
        let Some(word) = value.as_u64() else {
            return Err(Unread::BadDocument);
        };
        words.push(word)?;
    }
    Ok(words)
}

// A list of 1 to `MOST_WORDS` words.
#[tactic(auto, unfolding(crate::specs::Words::words_of))]
fn words_of(alloc: Global, value: Value) -> Result<Words, Unread>
    ensures words { Gives (λ words. words) result (words_of (view value)) }
    ensures some { IfOk result (λ words. 0 < length words) }
{
    let Value::Array(list) = value else {
        return Err(Unread::BadDocument);
    };
    let words = read_words(alloc, list)?;
    if words.is_empty() || words.len() > MOST_WORDS {
        return Err(Unread::BadDocument);
    }
    Ok(Words::from_vec(words))
}

// The first `count` outputs of a generator.
fn outputs(alloc: Global, mut generator: Lcg64Xsh32, count: usize) -> Result<Vec<u64>, AllocError>
    ensures words { IfOk result (λ v. v.items ≡ first_words pcg32 count generator) }
    ensures count { IfOk result (λ v. length v.items ≡ count) }
{
    let mut words = Vec::with_capacity(alloc, count)?;
    for _ in 0..count {
        words.push(u64::from(generator.next_word()))?;
    }
    Ok(words)
}

// The `MOST_WORDS` words that a seed stands for.
fn words_from(alloc: Global, seed: u64) -> Result<Words, AllocError>
    ensures words { IfOk result (λ words. words ≡ words_from seed) }
    ensures some { IfOk result (λ words. 0 < length words) }
{
    let generator = Lcg64Xsh32::seed_from_u64(seed);
    Ok(Words::from_vec(outputs(alloc, generator, MOST_WORDS)?))
}

// The words of the member `words` or of the member `seed`; a document has exactly one of them.
pub(crate) fn words_in(
    alloc: Global,
    words: Option<Value>,
    seed: Option<Value>,
) -> Result<Words, Unread>
    ensures words { Gives (λ words. words) result (words_in (option_map view words) (option_map view seed)) }
    ensures some { IfOk result (λ words. 0 < length words) }
{
    match (words, seed) {
        (Some(words), None) => words_of(alloc, words),
        (None, Some(seed)) => match seed.as_u64() {
            Some(seed) => Ok(words_from(alloc, seed)?),
            None => Err(Unread::BadDocument),
        },
        (Some(_), Some(_)) | (None, None) => Err(Unread::BadDocument),
    }
}
