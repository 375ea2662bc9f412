//! The fields of a struct's type.

ghost use Rattle.std.specs.Prelude.{◌≡◌, [], ◌++◌, ◌∷◌, map, length, slice_get, option_map, MatchResult};
ghost use Rattle.vx_base.specs.Answers.{OrMemory};
ghost use Rattle.vx_base.specs.TypeOf.{field_of, fields_of};

use super::{DType, Fields};
use crate::error::VortexResult;
use crate::items::item_at;
use crate::text::Text;
use std::alloc::Global;

impl Fields {
    pub fn new_in(alloc: Global) -> Self
        ensures { fields_of result ≡ [] }
    {
        Fields {
            items: Vec::new(alloc),
        }
    }

    pub fn from_vec(items: Vec<(Text, DType)>) -> Self
        ensures { fields_of result ≡ map field_of items.items }
    {
        Fields { items }
    }

    /// The number of fields.
    pub fn len(&self) -> u64
        ensures { result ≡ length (fields_of self.now) }
    {
        self.items.len() as u64
    }

    pub fn get(&self, place: u64) -> Option<&(Text, DType)>
        ensures { option_map (λ f. field_of f.now) result ≡ slice_get (fields_of self.now) place }
    {
        item_at(self.items.as_slice(), place)
    }

    pub fn as_slice(&self) -> &[(Text, DType)]
        ensures { map field_of result.now ≡ fields_of self.now }
    {
        self.items.as_slice()
    }

    pub fn push(&mut self, item: (Text, DType)) -> Result<(), (Text, DType)>
        ensures { MatchResult result (λ _. fields_of self.new ≡ fields_of self.old ++ field_of item ∷ []) (λ back. (back ≡ item) × (fields_of self.new ≡ fields_of self.old)) }
    {
        match self.items.push(item) {
            Ok(()) => Ok(()),
            Err(failed) => Err(failed.value),
        }
    }

    /// A deep copy.
    #[cycle(copy)]
    pub fn copy(&self, alloc: Global) -> VortexResult<Fields>
        ensures { OrMemory result (λ copy. fields_of copy ≡ fields_of self.now) }
    {
        let mut items = Vec::new(alloc);
        for (name, dtype) in self.items.as_slice() {
            let name = name.copy(alloc)?;
            let dtype = dtype.copy(alloc)?;
            items.push((name, dtype))?;
        }
        Ok(Fields { items })
    }
}
