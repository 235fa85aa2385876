//! Members of objects.

ghost use Rattle.std.specs.Prelude.{◌≡◌, option_map};
ghost use Rattle.serde_json.specs.Data.{object};
ghost use Rattle.serde_json.specs.Find.{get_member};
ghost use Rattle.serde_json.specs.View.{view, members_view};
ghost use Rattle.prov_export.specs.Reading.{members_at, number_at, text_at, time_at, time_of};

use serde_json::{Map, Value};

/// The members of an object.
pub(crate) type Members = Map<String, Value>;

/// An object of these members.
pub(crate) fn object_of(members: Members) -> Value
    ensures { view result ≡ object (members_view members.entries) }
{
    Value::Object(members)
}

/// The member with a name.
pub(crate) fn member_of<'a>(members: &'a Members, name: &str) -> Option<&'a Value>
    ensures { option_map (λ value. view value.now) result
        ≡ get_member name.now (members_view members.now.entries) }
{
    members.get(name)
}

/// The members of the object that a value has under a name.
pub(crate) fn members_at<'a>(value: &'a Value, name: &str) -> Option<&'a Members>
    ensures { option_map (λ members. members_view members.now.entries) result
        ≡ members_at name.now (view value.now) }
{
    match value.get(name) {
        None => None,
        Some(value) => value.as_object(),
    }
}

/// The text that a value has under a name.
pub(crate) fn text_at<'a>(value: &'a Value, name: &str) -> Option<&'a str>
    ensures { option_map (λ text. text.now) result ≡ text_at name.now (view value.now) }
{
    match value.get(name) {
        None => None,
        Some(value) => value.as_str(),
    }
}

/// The number that a value has under a name.
pub(crate) fn number_at(value: &Value, name: &str) -> Option<u64>
    ensures { result ≡ number_at name.now (view value.now) }
{
    value.get(name).and_then(Value::as_u64)
}

fn time_of(number: u64) -> Option<u32>
    ensures { result ≡ time_of number }
{
    if number <= 4_294_967_295 {
        Some(number as u32)
    } else {
        None
    }
}

/// The number of four bytes that a value has under a name.
pub(crate) fn time_at(value: &Value, name: &str) -> Option<u32>
    ensures { result ≡ time_at name.now (view value.now) }
{
    match number_at(value, name) {
        None => None,
        Some(number) => time_of(number),
    }
}
