//! Documents that are read from the tokens of their text, with no JSON tree between.
//!
//! Only what most documents are made of is read here: any other is `ShapeStop::Shape`, which says nothing of
//! it, and the tree of its JSON value decides.

ghost use Rattle.std.specs.Prelude.{◌≡◌, Some, IfOk, option_and_then};
ghost use Rattle.json_bytes.specs.Reading.{json_of};
ghost use Rattle.serde_json.specs.Read.{read};
ghost use Rattle.world_json.specs.Shape.{document_of};
ghost use Rattle.world_json.specs.inner.Taking.{data_of};
ghost use Rattle.world_json.specs.inner.Typed.{TypedDocument};

mod document;
mod file;
mod integer;
mod items;
mod members;
mod rows;
mod table;
mod tokens;

use crate::document::Document;
use crate::fast::document::take_document;
use crate::shape::ShapeStop;
use json::{Reader, Scratch};
use std::alloc::Global;

/// The parts of the document that bytes spell, if it is one of those read here.
pub(crate) fn read_fast(alloc: Global, bytes: &[u8]) -> Result<Document, ShapeStop>
    ensures read { IfOk result (λ document. option_and_then document_of (json_of bytes.now) ≡ Some document) }
    ensures typed { IfOk result (λ document. TypedDocument document) }
{
    match std::str::from_utf8(bytes) {
        Ok(text) => {
            let document = read_text(alloc, text)?;
            Ok(document)
        }
        Err(_) => Err(ShapeStop::Shape),
    }
}

fn read_text(alloc: Global, text: &str) -> Result<Document, ShapeStop>
    ensures read { IfOk result (λ document. option_and_then document_of (read text.now) ≡ Some document) }
    ensures typed { IfOk result (λ document. TypedDocument document) }
{
    let mut scratch = Scratch::new(alloc);
    read_with(alloc, text, &mut scratch)
}

fn read_with(alloc: Global, text: &str, scratch: &mut Scratch) -> Result<Document, ShapeStop>
    ensures read { IfOk result (λ document. option_and_then document_of (read text.now) ≡ Some document) }
    ensures typed { IfOk result (λ document. TypedDocument document) }
{
    let Ok(mut reader) = Reader::new(text, scratch) else {
        return Err(ShapeStop::NoMemory);
    };
    let document = read_tokens(alloc, &mut reader)?;
    Ok(document)
}

// The document of all tokens that are left.
fn read_tokens(alloc: Global, reader: &mut Reader<'_>) -> Result<Document, ShapeStop>
    ensures read { IfOk result (λ document.
        option_and_then document_of (data_of reader.old) ≡ Some document) }
    ensures typed { IfOk result (λ document. TypedDocument document) }
{
    let document = take_document(alloc, reader)?;
    match reader.next() {
        None => Ok(document),
        Some(_) => Err(ShapeStop::Shape),
    }
}
