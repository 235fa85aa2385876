//! Members of an object by their names.

ghost use Rattle.std.specs.Prelude.{◌≡◌, ℕ, List, false, map, option_map, bytes_eq};
ghost use Rattle.std.specs.List.{list_any};
ghost use Rattle.serde_json.specs.Find.{get_member};
ghost use Rattle.serde_json.specs.View.{view, members_view};
ghost use Rattle.world_json.specs.Shape.{only};

use serde_json::{Map, Value};

/// Whether every member of an object has one of these names.
pub(crate) fn has_only(members: &Map<String, Value>, names: &[&str]) -> bool
    ensures { result ≡ only (map (λ name. name.now) names.now) (members_view members.now.entries) }
{
    for (key, _member) in members.iter() {
        if !is_among(key.as_str(), names) {
            return false;
        }
    }
    true
}

fn is_among(text: &str, names: &[&str]) -> bool
    ensures { result ≡ list_any (bytes_eq text.now) (map (λ name. name.now) names.now) }
{
    is_one_of(text, names)
}

fn is_one_of(text: &str, names: &[&str]) -> bool
    ensures { result ≡ list_any (λ name. bytes_eq text.now name.now) names.now }
{
    names.iter().any(|name| text == *name)
}

/// Takes the member of a name out of an object, if it is there. The others stay.
pub(crate) fn take_member(members: &mut Map<String, Value>, name: &str) -> Option<Value>
    ensures value { option_map view result ≡ get_member name.now (members_view members.old.entries) }
    ensures others { (other : List ℕ) → bytes_eq name.now other ≡ false
        → get_member other (members_view members.new.entries)
        ≡ get_member other (members_view members.old.entries) }
{
    members.remove(name)
}
