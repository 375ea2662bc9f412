//! The ids of schemes.

ghost use Rattle.std.specs.Prelude.{◌≡◌};
ghost use Rattle.vx_scheme.specs.Names.{name_of};

use std::fmt;
use std::hash::{Hash, Hasher};

/// The id of a scheme, which is its name: ids are equal exactly where their names are, and equal ids hash alike. Display
/// writes the name.
#[derive(Clone, Copy, Debug)]
pub struct SchemeId {
    name: &'static str,
}

impl SchemeId {
    /// The id of the scheme with this name, as `vortex.int.dict`.
    pub fn of(name: &'static str) -> SchemeId
        ensures { name_of result ≡ name.now }
    {
        SchemeId { name }
    }

    pub fn name(&self) -> &'static str
        ensures { result.now ≡ name_of self.now }
    {
        self.name
    }
}

impl PartialEq for SchemeId {
    ghost use Rattle.std.specs.Cmp.{partial_equiv_from_equiv};
    ghost use Rattle.std.specs.Cmp.Lexicographic.{on_texts_equal};
    ghost use Rattle.vx_scheme.specs.Names.{name_of, same_name};

    ghost eq = { λ a b. same_name (name_of a) (name_of b) };

    ghost laws = { partial_equiv_from_equiv (on_texts_equal name_of) };

    fn eq(&self, other: &SchemeId) -> bool {
        self.name == other.name
    }
}

impl Eq for SchemeId {
    ghost use Rattle.std.specs.Cmp.Lexicographic.{on_texts_equal};
    ghost use Rattle.vx_scheme.specs.Names.{name_of};

    ghost laws = { on_texts_equal name_of };
}

impl Hash for SchemeId {
    ghost use Rattle.vx_scheme.specs.Names.{name_writes, names_alike};

    ghost hash_input = { name_writes };

    ghost respects_eq = { names_alike };

    fn hash<H: Hasher>(&self, state: &mut H) {
        self.name.hash(state);
    }
}

impl fmt::Display for SchemeId {
    ghost use Rattle.std.specs.Prelude.{Some};
    ghost use Rattle.vx_scheme.specs.Names.{name_of};

    ghost output = { λ id. Some (name_of id) };

    fn fmt<W: fmt::Write>(&self, f: &mut fmt::Formatter<W>) -> fmt::Result {
        f.write_str(self.name)
    }
}
