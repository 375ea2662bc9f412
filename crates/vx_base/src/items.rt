//! A `Vec` that contracts see as a list.

ghost use Rattle.std.specs.Prelude.{◌≡◌, [], ◌∷◌, ◌++◌, length, slice_get, option_copied, MatchResult};
ghost use Rattle.vx_base.specs.Answers.{Answers};

use crate::error::VortexResult;
use crate::text::Text;
use std::alloc::Global;
use std::marker::Model;

/// A list of items, as contracts see it.
#[derive(Debug, Drop)]
pub struct Items<T> {
    items: Vec<T>,
}

impl<T> Model for Items<T> {
    ghost use Rattle.std.specs.Prelude.{List};

    ghost Value = { List T };

    ghost view = { λ a. a.items.items };
}

impl<T> Items<T> {
    pub fn new_in(alloc: Global) -> Self
        ensures { result ≡ [] }
    {
        Items {
            items: Vec::new(alloc),
        }
    }

    pub fn from_vec(items: Vec<T>) -> Self
        ensures { result ≡ items.items }
    {
        Items { items }
    }

    pub fn len(&self) -> u64
        ensures { result ≡ length self.now }
    {
        self.items.len() as u64
    }

    pub fn get(&self, place: u64) -> Option<&T>
        ensures { option_copied result ≡ slice_get self.now place }
    {
        item_at(self.items.as_slice(), place)
    }

    pub fn as_slice(&self) -> &[T]
        ensures { result.now ≡ self.now }
    {
        self.items.as_slice()
    }

    /// The items as a vector.
    pub fn into_vec(self) -> Vec<T>
        ensures { result.items ≡ self }
    {
        self.items
    }

    /// Drops all items.
    pub fn clear(&mut self)
    where
        T: Drop,
        ensures { self.new ≡ [] }
    {
        self.items.clear();
    }

    pub fn push(&mut self, item: T) -> Result<(), T>
        ensures { MatchResult result (λ _. self.new ≡ self.old ++ item ∷ []) (λ back. (back ≡ item) × (self.new ≡ self.old)) }
    {
        match self.items.push(item) {
            Ok(()) => Ok(()),
            Err(failed) => Err(failed.value),
        }
    }
}

/// The bytes of a text or binary value.
pub type Bytes = Items<u8>;
/// Names of fields.
pub type Names = Items<Text>;
/// Sample words.
pub type Words = Items<u64>;
/// Integers of one type.
pub type IntList<T> = Items<T>;
/// Rows of texts or binaries.
pub type ByteRows = Items<Bytes>;
/// Half-open ranges of rows: the first row, and the row after the last.
pub type Ranges = Items<(u64, u64)>;

impl<T: Copy> Items<T> {
    pub fn copy(&self, alloc: Global) -> VortexResult<Items<T>>
        ensures { Answers result self.now }
    {
        Ok(Items {
            items: Vec::from_slice(alloc, self.items.as_slice())?,
        })
    }
}

/// The item at an index, None out of bounds.
pub(crate) fn item_at<T>(items: &[T], place: u64) -> Option<&T>
    ensures { option_copied result ≡ slice_get items.now place }
{
    items.get(place as usize)
}
