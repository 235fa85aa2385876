//! Texts, cells, columns, foreign keys, and arrays of them.

ghost use Rattle.std.specs.List.{AllByRecursion};
ghost use Rattle.std.specs.Prelude.{◌<◌, ◌+◌, ℕ, Option, IfOk, OnOk, length};
ghost use Rattle.json.specs.Reads.{token_of};
ghost use Rattle.serde_json.specs.Data.{Data};
ghost use Rattle.run_model.specs.TypedPackage.{TypedColumn, TypedValue};
ghost use Rattle.world_json.specs.Shape.{array_of, column_of, foreign_of};
ghost use Rattle.world_json.specs.inner.Taking.{AreTaken, IsCell, IsTaken};

use crate::cells::column_of_texts;
use crate::document::DraftForeign;
use crate::fast::integer::signed_of;
use crate::fast::tokens::{close_array, next_text, open_array, own_text};
use crate::shape::ShapeStop;
use json::{Reader, Token};
use ldv_value::{List, Names, Utf8, Value};
use sql_model::Column;
use std::alloc::Global;

/// Types that an item of an array is taken as.
pub(crate) trait FromTokens: Drop + Sized {
    ghost of_item: { Data → Option Self };
    // How many arrays it nests.
    ghost levels: { ℕ };
    // What its type says of it.
    ghost typed: { Self → Type 0 };

    fn from_tokens(alloc: Global, reader: &mut Reader<'_>) -> Result<Self, ShapeStop>
        ensures taken { IfOk result (λ x. IsTaken of_item levels reader.old x reader.new) }
        ensures shorter { OnOk result (length reader.new < length reader.old) }
        ensures typed { IfOk result (λ x. typed x) };
}

/// An array, with memory for `room` items at first.
pub(crate) fn take_array<X: FromTokens>(
    alloc: Global,
    reader: &mut Reader<'_>,
    room: usize,
) -> Result<List<X>, ShapeStop>
    ensures taken { IfOk result (λ xs.
        IsTaken (array_of X.of_item) (X.levels + 1) reader.old xs reader.new) }
    ensures shorter { OnOk result (length reader.new < length reader.old) }
    ensures typed { IfOk result (λ xs. AllByRecursion X.typed xs) }
{
    open_array(reader)?;
    let items = take_items(alloc, reader, room)?;
    Ok(items)
}

// The items of an array, and the bracket that closes it.
fn take_items<X: FromTokens>(
    alloc: Global,
    reader: &mut Reader<'_>,
    room: usize,
) -> Result<List<X>, ShapeStop>
    ensures taken { IfOk result (λ xs. AreTaken X.of_item X.levels reader.old xs reader.new) }
    ensures shorter { OnOk result (length reader.new < length reader.old) }
    ensures typed { IfOk result (λ xs. AllByRecursion X.typed xs) }
{
    let mut found = List::with_capacity(alloc, room)?;
    'items: while !reader.take_end_array() {
        let item = X::from_tokens(alloc, reader)?;
        found.push(item)?;
    }
    Ok(found)
}

impl FromTokens for Utf8 {
    ghost use Rattle.serde_json.specs.Find.{as_str};
    ghost use Rattle.std.specs.Str.{IsUtf8};

    ghost of_item = { as_str };

    ghost levels = { 0 };

    ghost typed = { IsUtf8 };

    fn from_tokens(alloc: Global, reader: &mut Reader<'_>) -> Result<Self, ShapeStop> {
        let text = next_text(reader)?;
        let copy = own_text(alloc, text)?;
        Ok(copy)
    }
}

impl FromTokens for Value {
    ghost use Rattle.run_model.specs.TypedPackage.{TypedValue};
    ghost use Rattle.world_json.specs.Shape.{cell_of};

    ghost of_item = { cell_of };

    ghost levels = { 0 };

    ghost typed = { TypedValue };

    fn from_tokens(alloc: Global, reader: &mut Reader<'_>) -> Result<Self, ShapeStop> {
        match reader.next() {
            Some(token) => {
                let cell = cell_of_token(alloc, token)?;
                Ok(cell)
            }
            None => Err(ShapeStop::Shape),
        }
    }
}

fn cell_of_token(alloc: Global, token: Token<'_>) -> Result<Value, ShapeStop>
    ensures cell { IfOk result (λ cell. IsCell (token_of token.entry) cell) }
    ensures typed { IfOk result (λ cell. TypedValue cell) }
{
    match token {
        Token::Null => Ok(Value::Null),
        Token::Number(text) => match signed_of(text) {
            Some(whole) => Ok(Value::Int(whole)),
            None => Err(ShapeStop::Shape),
        },
        Token::String(text) => {
            let copy = own_text(alloc, text)?;
            Ok(Value::Text(copy))
        }
        _ => Err(ShapeStop::Shape),
    }
}

impl FromTokens for Column {
    ghost use Rattle.run_model.specs.TypedPackage.{TypedColumn};
    ghost use Rattle.world_json.specs.Shape.{column_of};

    ghost of_item = { column_of };

    ghost levels = { 1 };

    ghost typed = { TypedColumn };

    fn from_tokens(alloc: Global, reader: &mut Reader<'_>) -> Result<Self, ShapeStop> {
        let texts: Names = take_array(alloc, reader, 2)?;
        let column = column_of_texts(&texts)?;
        Ok(column)
    }
}

impl FromTokens for DraftForeign {
    ghost use Rattle.world_json.specs.Shape.{foreign_of};
    ghost use Rattle.world_json.specs.inner.Typed.{TypedDraftForeign};

    ghost of_item = { foreign_of };

    ghost levels = { 2 };

    ghost typed = { TypedDraftForeign };

    fn from_tokens(alloc: Global, reader: &mut Reader<'_>) -> Result<Self, ShapeStop> {
        open_array(reader)?;
        let columns: Names = take_array(alloc, reader, 1)?;
        let parent = Utf8::from_tokens(alloc, reader)?;
        close_array(reader)?;
        Ok(DraftForeign { columns, parent })
    }
}
