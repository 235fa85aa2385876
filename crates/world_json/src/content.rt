//! Files of a document.

ghost use Rattle.std.specs.Prelude.{◌≡◌, Some, None, IfOk, option_map};
ghost use Rattle.serde_json.specs.View.{view, members_view};
ghost use Rattle.world_json.specs.Shape.{content_of, content_in, hex_of, hex_text, required_member, file_of};

use crate::members::{has_only, take_member};
use crate::shape::{FromMember, ShapeStop};
use hex::FromHexError;
use ldv_value::{Bytes, File, Utf8};
use serde_json::{Map, Value};
use std::alloc::Global;

impl FromMember for File {
    ghost use Rattle.world_json.specs.Shape.{file_of};
    ghost use Rattle.world_json.specs.inner.Typed.{TypedDocumentFile};

    ghost of_member = { file_of };

    ghost typed = { TypedDocumentFile };

    fn from_member(alloc: Global, name: Utf8, value: Value) -> Result<Self, ShapeStop> {
        match read_content(alloc, value) {
            Ok(content) => Ok(File {
                path: name,
                content,
            }),
            Err(stop) => Err(stop),
        }
    }
}

// A text is its bytes, or the one member `hex` has them.
fn read_content(alloc: Global, value: Value) -> Result<Bytes, ShapeStop>
    ensures ok { IfOk result (λ bytes. content_of (view value) ≡ Some bytes) }
    ensures shape { result ≡ Err ShapeStop.Shape → content_of (view value) ≡ None }
{
    match value {
        Value::String(text) => Ok(Bytes::of_vec(text.into_bytes())),
        Value::Object(members) => read_hex_member(alloc, members),
        _ => Err(ShapeStop::Shape),
    }
}

fn read_hex_member(alloc: Global, mut members: Map<String, Value>) -> Result<Bytes, ShapeStop>
    ensures ok { IfOk result (λ bytes. content_in (members_view members.entries) ≡ Some bytes) }
    ensures shape { result ≡ Err ShapeStop.Shape → content_in (members_view members.entries) ≡ None }
{
    if !has_only(&members, &["hex"]) {
        return Err(ShapeStop::Shape);
    }
    let hex = take_member(&mut members, "hex");
    read_hex(alloc, hex)
}

fn read_hex(alloc: Global, value: Option<Value>) -> Result<Bytes, ShapeStop>
    ensures ok { IfOk result (λ bytes. required_member hex_of (option_map view value) ≡ Some bytes) }
    ensures shape { result ≡ Err ShapeStop.Shape → required_member hex_of (option_map view value) ≡ None }
{
    match value {
        Some(Value::String(text)) => decode_hex(alloc, text.as_str()),
        _ => Err(ShapeStop::Shape),
    }
}

/// The bytes that hex digits write.
pub(crate) fn decode_hex(alloc: Global, text: &str) -> Result<Bytes, ShapeStop>
    ensures ok { IfOk result (λ bytes. hex_text text.now ≡ Some bytes) }
    ensures shape { result ≡ Err ShapeStop.Shape → hex_text text.now ≡ None }
{
    match hex::decode(alloc, text) {
        Ok(bytes) => Ok(Bytes::of_vec(bytes)),
        Err(FromHexError::OutOfMemory) => Err(ShapeStop::NoMemory),
        Err(_) => Err(ShapeStop::Shape),
    }
}
