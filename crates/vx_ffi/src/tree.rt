//! A handle that a caller in C keeps: a compressed tree, or none.

ghost use Rattle.std.specs.Prelude.{◌≡◌, Option, Some, None, option_map, is_some};
ghost use Rattle.vx_model.specs.Tree.{Tree};

use crate::held::Held;
use crate::parts::Parts;
use std::alloc::Global;
use std::mem;
use vx_array::ArrayRef;

/// A compressed tree, or none. A caller begins with zeros, which is none, and copies no handle.
#[repr(C)]
pub struct TreeHandle {
    pub held: Held,
    pub full: bool,
    ghost agrees: { full ≡ is_some held.tree },
}

impl Drop for TreeHandle {
    fn drop(self) {
        let _tree = self.into_box();
    }
}

impl TreeHandle {
    /// No tree.
    pub(crate) fn none(alloc: Global) -> TreeHandle
        ensures { result.held.tree ≡ None }
    {
        TreeHandle {
            held: Held::none(alloc),
            full: false,
        }
    }

    /// The tree in a box.
    pub(crate) fn of(tree: Box<ArrayRef>) -> TreeHandle
        ensures { result.held.tree ≡ Some tree.value }
    {
        TreeHandle {
            held: Held::of_parts(Parts::of(tree)),
            full: true,
        }
    }

    fn into_box(self) -> Option<Box<ArrayRef>>
        ensures { option_map (λ tree. tree.value) result ≡ self.held.tree }
    {
        let TreeHandle { held, full } = self;
        if full {
            Some(held.into_parts().into_box())
        } else {
            None
        }
    }

    /// Takes the tree, and leaves none.
    pub(crate) fn take(&mut self, alloc: Global) -> Option<Box<ArrayRef>>
        ensures tree { option_map (λ tree. tree.value) result ≡ self.old.held.tree }
        ensures left { self.new.held.tree ≡ None }
    {
        mem::replace(self, TreeHandle::none(alloc)).into_box()
    }
}
