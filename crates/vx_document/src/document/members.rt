//! Members of an object, and the items of a pair.

ghost use Rattle.std.specs.Prelude.{◌≡◌, ℕ, List, map, false, option_map};
ghost use Rattle.std.specs.Str.{bytes_eq};
ghost use Rattle.serde_json.specs.Find.{get_member};
ghost use Rattle.serde_json.specs.View.{view, members_view};
ghost use Rattle.vx_document.specs.Reading.{pair_of, is_one_of, has_only};
ghost use Rattle.vx_document.specs.Types.{has};

use serde_json::{Map, Value};

// Whether the key is one of these names.
fn is_one_of(key: &str, names: &[&str]) -> bool
    ensures { result ≡ is_one_of (map (λ name. name.now) names.now) key.now }
{
    names.contains(&key)
}

// Whether each key of the object is one of these names.
pub(crate) fn has_only(object: &Map<String, Value>, names: &[&str]) -> bool
    ensures { result ≡ has_only (map (λ name. name.now) names.now) (members_view object.now.entries) }
{
    for (key, _value) in object {
        if !is_one_of(key.as_str(), names) {
            return false;
        }
    }
    true
}

// Whether the key stands in the object.
pub(crate) fn has_member(map: &Map<String, Value>, name: &str) -> bool
    ensures { result ≡ has name.now (members_view map.now.entries) }
{
    map.contains_key(name)
}

// Takes the member of a key out of the object, and leaves the others.
pub(crate) fn take_member(map: &mut Map<String, Value>, name: &str) -> Option<Value>
    ensures taken { option_map view result ≡ get_member name.now (members_view map.old.entries) }
    ensures others { (key : List ℕ) → bytes_eq name.now key ≡ false
        → get_member key (members_view map.new.entries) ≡ get_member key (members_view map.old.entries) }
{
    map.remove(name)
}

// The items of a list of two.
pub(crate) fn pair_of(list: Vec<Value>) -> Option<(Value, Value)>
    ensures { result ≡ pair_of list.items }
{
    if list.len() != 2 {
        return None;
    }
    let mut items = list.into_iter();
    match (items.next(), items.next()) {
        (Some(first), Some(second)) => Some((first, second)),
        _ => None,
    }
}
