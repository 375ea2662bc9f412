//! Which children of a scheme a rule is for.

ghost use Rattle.std.specs.Prelude.{◌≡◌};
ghost use Rattle.vx_scheme.specs.Selects.{selects};

/// Children of a scheme, by their numbers from 0 on.
#[derive(Clone, Copy, Debug)]
pub enum ChildSelection {
    /// Every child.
    All,
    /// One child.
    One(usize),
    /// Two children.
    Many(usize, usize),
}

impl ChildSelection {
    /// Whether the selection has the child.
    pub fn contains(&self, child_index: usize) -> bool
        ensures { result ≡ selects self.now child_index }
    {
        match self {
            ChildSelection::All => true,
            ChildSelection::One(child) => *child == child_index,
            ChildSelection::Many(first, second) => *first == child_index || *second == child_index,
        }
    }
}
