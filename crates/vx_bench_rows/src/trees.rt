//! Trees as columns: vx_rows and vx_selections answer.

use crate::answers::Answer;
use crate::questions::{Question, answered};
use crate::telling::RowFunctions;
use std::alloc::Global;
use vx_array::ArrayRef;
use vx_base::VortexResult;

/// A tree and its name.
#[derive(Drop)]
pub struct Tree {
    name: &'static str,
    tree: ArrayRef,
    is_encoded: bool,
}

impl Tree {
    pub fn plain(name: &'static str, tree: ArrayRef) -> Tree {
        Tree {
            name,
            tree,
            is_encoded: false,
        }
    }

    pub fn encoded(name: &'static str, tree: ArrayRef) -> Tree {
        Tree {
            name,
            tree,
            is_encoded: true,
        }
    }
}

impl RowFunctions for Tree {
    fn name(&self) -> &str {
        self.name
    }

    fn tree(&self) -> &ArrayRef {
        &self.tree
    }

    fn is_encoded(&self) -> bool {
        self.is_encoded
    }

    fn answer(&self, alloc: Global, question: Question<'_>) -> VortexResult<Answer> {
        answered(alloc, &self.tree, question)
    }
}
