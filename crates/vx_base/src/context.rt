//! What a call gets beside its column: an allocator, and the sample words.

ghost use Rattle.std.specs.Prelude.{◌≡◌, ◌<◌, length};

use crate::items::Words;
use std::alloc::Global;
use std::marker::Model;

/// An allocator and at least one sample word. Samples are placed by these words and by no other source of chance, so equal
/// columns and words give equal trees. Contracts see the words.
#[derive(Debug, Drop)]
pub struct ExecutionCtx {
    alloc: Global,
    words: Words,
}

impl Model for ExecutionCtx {
    ghost use Rattle.std.specs.Prelude.{List, ℕ, ◌<◌, length};

    ghost Value = { List ℕ };

    ghost view = { λ a. a.words };

    ghost invariant = { λ a. 0 < length a.words };
}

impl ExecutionCtx {
    pub fn new(alloc: Global, words: Words) -> ExecutionCtx
        requires { 0 < length words }
        ensures { result ≡ words }
    {
        ExecutionCtx { alloc, words }
    }

    pub fn alloc(&self) -> Global {
        self.alloc
    }

    pub fn words(&self) -> &Words
        ensures words { result.now ≡ self.now }
        ensures some { 0 < length self.now }
    {
        &self.words
    }
}
