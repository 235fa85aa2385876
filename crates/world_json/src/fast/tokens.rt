//! Single tokens.

ghost use Rattle.std.specs.Prelude.{◌≡◌, ◌∷◌, IfOk, OnOk};
ghost use Rattle.std.specs.Str.{IsUtf8};
ghost use Rattle.json.specs.Token.{begin_array, begin_object, end_array, string, number};

use crate::shape::{ShapeStop, name_of_text};
use json::{Invalid, Reader, Token};
use ldv_value::Utf8;
use std::alloc::{AllocError, Global};

impl From<Invalid> for ShapeStop {
    ghost use Rattle.std.specs.Prelude.{◌≡◌};
    ghost use Rattle.world_json.specs.declared.shape.ShapeStop.TheVariants.{Shape};

    ghost from_gives = { λ _ stop. stop ≡ Shape };

    fn from(_invalid: Invalid) -> ShapeStop {
        ShapeStop::Shape
    }
}

/// Passes the bracket that opens an array.
pub(crate) fn open_array(reader: &mut Reader<'_>) -> Result<(), ShapeStop>
    ensures { OnOk result (reader.old ≡ begin_array ∷ reader.new) }
{
    match reader.next() {
        Some(Token::BeginArray) => Ok(()),
        _ => Err(ShapeStop::Shape),
    }
}

/// Passes the bracket that closes an array.
pub(crate) fn close_array(reader: &mut Reader<'_>) -> Result<(), ShapeStop>
    ensures { OnOk result (reader.old ≡ end_array ∷ reader.new) }
{
    match reader.next() {
        Some(Token::EndArray) => Ok(()),
        _ => Err(ShapeStop::Shape),
    }
}

/// Passes the brace that opens an object.
pub(crate) fn open_object(reader: &mut Reader<'_>) -> Result<(), ShapeStop>
    ensures { OnOk result (reader.old ≡ begin_object ∷ reader.new) }
{
    match reader.next() {
        Some(Token::BeginObject) => Ok(()),
        _ => Err(ShapeStop::Shape),
    }
}

/// A text that is a value.
pub(crate) fn next_text<'a>(reader: &mut Reader<'a>) -> Result<&'a str, ShapeStop>
    ensures { IfOk result (λ text. reader.old ≡ string text.now ∷ reader.new) }
{
    match reader.next() {
        Some(Token::String(text)) => Ok(text),
        _ => Err(ShapeStop::Shape),
    }
}

/// The text of a number.
pub(crate) fn next_number<'a>(reader: &mut Reader<'a>) -> Result<&'a str, ShapeStop>
    ensures { IfOk result (λ text. reader.old ≡ number text.now ∷ reader.new) }
{
    match reader.next() {
        Some(Token::Number(text)) => Ok(text),
        _ => Err(ShapeStop::Shape),
    }
}

/// A text of its own, equal to one that is lent.
pub(crate) fn own_text(alloc: Global, text: &str) -> Result<Utf8, AllocError>
    ensures text { IfOk result (λ copy. copy ≡ text.now) }
    ensures typed { IfOk result (λ copy. IsUtf8 copy) }
{
    let copy = String::from_str(alloc, text)?;
    Ok(name_of_text(copy))
}
