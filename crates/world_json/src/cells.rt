//! Texts, cells, columns and foreign keys of a document.

ghost use Rattle.std.specs.List.{AllByRecursion};
ghost use Rattle.std.specs.Prelude.{◌≡◌, ◌≢◌, Some, None, IfOk};
ghost use Rattle.std.specs.Str.{IsUtf8};
ghost use Rattle.run_model.specs.TypedPackage.{TypedColumn};
ghost use Rattle.serde_json.specs.View.{view, items_view};
ghost use Rattle.world_json.specs.Shape.{column_from, kind_of, column_as, foreign_in, foreign_of_two};
ghost use Rattle.world_json.specs.inner.Typed.{TypedDraftForeign};

use crate::document::DraftForeign;
use crate::shape::{FromItem, ShapeStop, name_of_text, read_array};
use ldv_value::{Names, Utf8, Value};
use serde_json::Value as Json;
use sql_model::Column;
use std::alloc::Global;

impl FromItem for Utf8 {
    ghost use Rattle.serde_json.specs.Find.{as_str};
    ghost use Rattle.std.specs.Str.{IsUtf8};

    ghost of_item = { as_str };

    ghost typed = { IsUtf8 };

    fn from_item(alloc: Global, value: Json) -> Result<Self, ShapeStop> {
        match value {
            Json::String(text) => Ok(name_of_text(text)),
            _ => Err(ShapeStop::Shape),
        }
    }
}

impl FromItem for Value {
    ghost use Rattle.run_model.specs.TypedPackage.{TypedValue};
    ghost use Rattle.world_json.specs.Shape.{cell_of};

    ghost of_item = { cell_of };

    ghost typed = { TypedValue };

    fn from_item(alloc: Global, value: Json) -> Result<Self, ShapeStop> {
        match value {
            Json::Null => Ok(Value::Null),
            Json::Number(number) => match number.as_i64() {
                Some(whole) => Ok(Value::Int(whole)),
                None => Err(ShapeStop::Shape),
            },
            Json::String(text) => Ok(Value::Text(name_of_text(text))),
            _ => Err(ShapeStop::Shape),
        }
    }
}

impl FromItem for Column {
    ghost use Rattle.run_model.specs.TypedPackage.{TypedColumn};
    ghost use Rattle.world_json.specs.Shape.{column_of};

    ghost of_item = { column_of };

    ghost typed = { TypedColumn };

    fn from_item(alloc: Global, value: Json) -> Result<Self, ShapeStop> {
        match read_array(alloc, value) {
            Ok(texts) => column_of_texts(&texts),
            Err(stop) => Err(stop),
        }
    }
}

impl FromItem for DraftForeign {
    ghost use Rattle.world_json.specs.Shape.{foreign_of};
    ghost use Rattle.world_json.specs.inner.Typed.{TypedDraftForeign};

    ghost of_item = { foreign_of };

    ghost typed = { TypedDraftForeign };

    fn from_item(alloc: Global, value: Json) -> Result<Self, ShapeStop> {
        match value {
            Json::Array(items) => foreign_of_items(alloc, items),
            _ => Err(ShapeStop::Shape),
        }
    }
}

// Two items, the names of the columns and the name of the parent.
#[tactic(auto, using(crate::proofs::Pairs::two_items, crate::proofs::Pairs::other_items))]
fn foreign_of_items(alloc: Global, mut items: Vec<Json>) -> Result<DraftForeign, ShapeStop>
    ensures ok { IfOk result (λ foreign. foreign_in (items_view items.items) ≡ Some foreign) }
    ensures shape { result ≡ Err ShapeStop.Shape → foreign_in (items_view items.items) ≡ None }
    ensures typed { IfOk result (λ foreign. TypedDraftForeign foreign) }
{
    if items.len() != 2 {
        return Err(ShapeStop::Shape);
    }
    match (items.pop(), items.pop()) {
        (Some(parent), Some(columns)) => foreign_of_parts(alloc, columns, parent),
        _ => unreachable!(),
    }
}

fn foreign_of_parts(alloc: Global, columns: Json, parent: Json) -> Result<DraftForeign, ShapeStop>
    ensures ok { IfOk result (λ foreign. foreign_of_two (view columns) (view parent) ≡ Some foreign) }
    ensures shape { result ≡ Err ShapeStop.Shape → foreign_of_two (view columns) (view parent) ≡ None }
    ensures typed { IfOk result (λ foreign. TypedDraftForeign foreign) }
{
    let columns = read_array(alloc, columns)?;
    let parent = Utf8::from_item(alloc, parent)?;
    Ok(DraftForeign { columns, parent })
}

/// A column of two texts, its name and its kind.
pub(crate) fn column_of_texts(texts: &Names) -> Result<Column, ShapeStop>
    requires { AllByRecursion IsUtf8 texts.now }
    ensures ok { IfOk result (λ column. column_from texts.now ≡ Some column) }
    ensures shape { result ≡ Err ShapeStop.Shape → column_from texts.now ≡ None }
    ensures typed { IfOk result (λ column. TypedColumn column) }
{
    match texts.items() {
        [name, kind] => column_of_kind(name, kind.as_str()),
        _ => Err(ShapeStop::Shape),
    }
}

fn column_of_kind(name: &Utf8, kind: &str) -> Result<Column, ShapeStop>
    requires { IsUtf8 name.now }
    ensures ok { IfOk result (λ column. kind_of name.now kind.now ≡ Some column) }
    ensures shape { result ≡ Err ShapeStop.Shape → kind_of name.now kind.now ≡ None }
    ensures typed { IfOk result (λ column. TypedColumn column) }
{
    if kind == "INT" {
        new_column(name, false, false)
    } else if kind == "TEXT" {
        new_column(name, true, false)
    } else if kind == "INT NOT NULL" {
        new_column(name, false, true)
    } else if kind == "TEXT NOT NULL" {
        new_column(name, true, true)
    } else {
        Err(ShapeStop::Shape)
    }
}

fn new_column(name: &Utf8, text: bool, not_null: bool) -> Result<Column, ShapeStop>
    requires { IsUtf8 name.now }
    ensures ok { IfOk result (λ column. column_as name.now text not_null ≡ column) }
    ensures shape { result ≢ Err ShapeStop.Shape }
    ensures typed { IfOk result (λ column. TypedColumn column) }
{
    match name.copy() {
        Ok(name) => Ok(Column {
            name,
            text,
            not_null,
        }),
        Err(_) => Err(ShapeStop::NoMemory),
    }
}
