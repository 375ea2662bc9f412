//! Whether the schemes of a list have distinct names.

ghost use Rattle.std.specs.Prelude.{◌≡◌, map};
ghost use Rattle.std.specs.List.{list_any};
ghost use Rattle.vx_scheme.specs.Names.{name_of, same_name};
ghost use Rattle.vx_compressor.specs.Distinct.{are_distinct, have_own_names, names_of};

use crate::root::ROOT;
use vx_scheme::{Scheme, SchemeId};

/// Whether the schemes have distinct names, and none has the root's.
pub(crate) fn have_own_names<S: Scheme>(schemes: &[S]) -> bool
    ensures { result ≡ have_own_names (map S.meaning schemes.now) }
{
    !has_name(schemes, SchemeId::of(ROOT)) && are_distinct(schemes)
}

fn are_distinct<S: Scheme>(schemes: &[S]) -> bool
    ensures { result ≡ are_distinct (names_of (map S.meaning schemes.now)) }
{
    for (place, scheme) in schemes.iter().enumerate() {
        if has_name(&schemes[place + 1..], scheme.id()) {
            return false;
        }
    }
    true
}

fn has_name<S: Scheme>(schemes: &[S], id: SchemeId) -> bool
    ensures { result ≡ list_any (same_name (name_of id)) (names_of (map S.meaning schemes.now)) }
{
    for scheme in schemes {
        if id == scheme.id() {
            return true;
        }
    }
    false
}
