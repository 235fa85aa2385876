//! Arrays and objects of a document, read item by item and member by member. Each call takes its value and
//! frees it as it reads.

ghost use Rattle.std.specs.List.{AllByRecursion};
ghost use Rattle.std.specs.Prelude.{◌≡◌, Option, Some, None, IfOk, List, ℕ, string_bytes};
ghost use Rattle.std.specs.Str.{IsUtf8};
ghost use Rattle.serde_json.specs.Data.{Data};
ghost use Rattle.serde_json.specs.View.{view, items_view, members_view};
ghost use Rattle.world_json.specs.Shape.{each, array_of, each_member, object_of};

use ldv_value::{List, Utf8};
use serde_json::{Map, Value};
use std::alloc::{AllocError, AllocFailed, Global};

/// Why a value isn't read.
#[derive(Clone, Copy, Debug, PartialEq, Eq)]
pub(crate) enum ShapeStop {
    /// It has another shape.
    Shape,
    /// Out of memory.
    NoMemory,
}

impl From<AllocError> for ShapeStop {
    ghost use Rattle.std.specs.Prelude.{◌≡◌};
    ghost use Rattle.world_json.specs.declared.shape.ShapeStop.TheVariants.{NoMemory};

    ghost from_gives = { λ _ stop. stop ≡ NoMemory };

    fn from(_refused: AllocError) -> ShapeStop {
        ShapeStop::NoMemory
    }
}

/// Types that an item of an array is read as.
pub(crate) trait FromItem: Drop + Sized {
    ghost of_item: { Data → Option Self };
    // What its type says of it.
    ghost typed: { Self → Type 0 };

    fn from_item(alloc: Global, value: Value) -> Result<Self, ShapeStop>
        ensures ok { IfOk result (λ x. of_item (view value) ≡ Some x) }
        ensures shape { result ≡ Err ShapeStop.Shape → of_item (view value) ≡ None }
        ensures typed { IfOk result (λ x. typed x) };
}

/// Types that a member of an object is read as.
pub(crate) trait FromMember: Drop + Sized {
    ghost of_member: { List ℕ → Data → Option Self };
    // What its type says of it.
    ghost typed: { Self → Type 0 };

    fn from_member(alloc: Global, name: Utf8, value: Value) -> Result<Self, ShapeStop>
        requires { IsUtf8 name }
        ensures ok { IfOk result (λ x. of_member name (view value) ≡ Some x) }
        ensures shape { result ≡ Err ShapeStop.Shape → of_member name (view value) ≡ None }
        ensures typed { IfOk result (λ x. typed x) };
}

/// A text as a name.
pub(crate) fn name_of_text(text: String) -> Utf8
    ensures name { result ≡ string_bytes text }
    ensures typed { IsUtf8 result }
{
    Utf8::of_string(text)
}

/// The items of an array.
pub(crate) fn read_items<X: FromItem>(
    alloc: Global,
    items: Vec<Value>,
) -> Result<List<X>, ShapeStop>
    ensures ok { IfOk result (λ xs. each X.of_item (items_view items.items) ≡ Some xs) }
    ensures shape { result ≡ Err ShapeStop.Shape → each X.of_item (items_view items.items) ≡ None }
    ensures typed { IfOk result (λ xs. AllByRecursion X.typed xs) }
{
    let mut found = List::with_capacity(alloc, items.len())?;
    for value in items {
        match X::from_item(alloc, value) {
            Ok(item) => found.push(item)?,
            Err(stop) => return Err(stop),
        }
    }
    Ok(found)
}

/// An array.
pub(crate) fn read_array<X: FromItem>(alloc: Global, value: Value) -> Result<List<X>, ShapeStop>
    ensures ok { IfOk result (λ xs. array_of X.of_item (view value) ≡ Some xs) }
    ensures shape { result ≡ Err ShapeStop.Shape → array_of X.of_item (view value) ≡ None }
    ensures typed { IfOk result (λ xs. AllByRecursion X.typed xs) }
{
    match value {
        Value::Array(items) => read_items(alloc, items),
        _ => Err(ShapeStop::Shape),
    }
}

/// The members of an object.
pub(crate) fn read_members<X: FromMember>(
    alloc: Global,
    members: Map<String, Value>,
) -> Result<List<X>, ShapeStop>
    ensures ok { IfOk result (λ xs. each_member X.of_member (members_view members.entries) ≡ Some xs) }
    ensures shape { result ≡ Err ShapeStop.Shape
        → each_member X.of_member (members_view members.entries) ≡ None }
    ensures typed { IfOk result (λ xs. AllByRecursion X.typed xs) }
{
    let mut found = List::with_capacity(alloc, members.len())?;
    for (name, value) in members {
        match X::from_member(alloc, name_of_text(name), value) {
            Ok(member) => found.push(member)?,
            Err(stop) => return Err(stop),
        }
    }
    Ok(found)
}

/// An object.
pub(crate) fn read_object<X: FromMember>(alloc: Global, value: Value) -> Result<List<X>, ShapeStop>
    ensures ok { IfOk result (λ xs. object_of X.of_member (view value) ≡ Some xs) }
    ensures shape { result ≡ Err ShapeStop.Shape → object_of X.of_member (view value) ≡ None }
    ensures typed { IfOk result (λ xs. AllByRecursion X.typed xs) }
{
    match value {
        Value::Object(members) => read_members(alloc, members),
        _ => Err(ShapeStop::Shape),
    }
}
