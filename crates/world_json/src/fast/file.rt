//! Files.

ghost use Rattle.std.specs.Prelude.{◌≡◌, ◌<◌, ◌≤◌, Some, IfOk, OnOk, length};
ghost use Rattle.json.specs.Reads.{token_of};
ghost use Rattle.serde_json.specs.Data.{no_members};
ghost use Rattle.world_json.specs.Shape.{content_in, content_of, hex_of};
ghost use Rattle.world_json.specs.inner.Parts.{AreHexParts};
ghost use Rattle.world_json.specs.inner.Taking.{IsContent, IsTaken, MembersGive};

use crate::content::decode_hex;
use crate::fast::members::{FromNamedTokens, TakesMembers, take_members};
use crate::fast::table::require_part;
use crate::fast::tokens::next_text;
use crate::shape::ShapeStop;
use json::{Reader, Token};
use ldv_value::{Bytes, File, Utf8};
use std::alloc::Global;

impl FromNamedTokens for File {
    ghost use Rattle.world_json.specs.Shape.{file_of};
    ghost use Rattle.world_json.specs.inner.Typed.{TypedDocumentFile};

    ghost of_member = { file_of };

    ghost levels = { 1 };

    ghost typed = { TypedDocumentFile };

    fn from_tokens(alloc: Global, name: Utf8, reader: &mut Reader<'_>) -> Result<Self, ShapeStop> {
        match take_content(alloc, reader) {
            Ok(content) => Ok(File {
                path: name,
                content,
            }),
            Err(stop) => Err(stop),
        }
    }
}

// A text is its bytes, or the one member `hex` has them.
fn take_content(alloc: Global, reader: &mut Reader<'_>) -> Result<Bytes, ShapeStop>
    ensures taken { IfOk result (λ content. IsTaken content_of 1 reader.old content reader.new) }
    ensures shorter { OnOk result (length reader.new < length reader.old) }
{
    match reader.next() {
        Some(token) => {
            let content = content_from(alloc, token, reader)?;
            Ok(content)
        }
        None => Err(ShapeStop::Shape),
    }
}

// The content that begins with a token.
fn content_from(
    alloc: Global,
    token: Token<'_>,
    reader: &mut Reader<'_>,
) -> Result<Bytes, ShapeStop>
    ensures taken { IfOk result (λ content. IsContent (token_of token.entry) reader.old content reader.new) }
    ensures within { OnOk result (length reader.new ≤ length reader.old) }
{
    match token {
        Token::String(text) => {
            let content = Bytes::of_slice(alloc, text.as_bytes())?;
            Ok(content)
        }
        Token::BeginObject => {
            let content = take_hex_member(alloc, reader)?;
            Ok(content)
        }
        _ => Err(ShapeStop::Shape),
    }
}

// The one member of an object, and the brace that closes it.
fn take_hex_member(alloc: Global, reader: &mut Reader<'_>) -> Result<Bytes, ShapeStop>
    ensures taken { IfOk result (λ content. MembersGive content_in 0 reader.old content reader.new) }
    ensures shorter { OnOk result (length reader.new < length reader.old) }
{
    let mut parts = no_parts();
    take_members(alloc, reader, &mut parts)?;
    let content = content_of_parts(parts)?;
    Ok(content)
}

// The members that were read of the object of a content as hex digits.
#[derive(Drop)]
pub(crate) struct HexParts {
    content: Option<Bytes>,
}

fn no_parts() -> HexParts
    ensures { AreHexParts no_members result }
{
    HexParts { content: None }
}

fn content_of_parts(parts: HexParts) -> Result<Bytes, ShapeStop>
    ensures { IfOk result (λ content. parts.content ≡ Some content) }
{
    let HexParts { content } = parts;
    let content = require_part(content)?;
    Ok(content)
}

impl TakesMembers for HexParts {
    ghost use Rattle.world_json.specs.inner.Parts.{AreHexParts};

    ghost kept = { AreHexParts };

    ghost levels = { 0 };

    #[tactic(auto, using(crate::proofs::TakenParts::hex_member))]
    fn take_member(
        &mut self,
        alloc: Global,
        name: &str,
        reader: &mut Reader<'_>,
    ) -> Result<(), ShapeStop> {
        if name == "hex" {
            self.content = Some(take_hex(alloc, reader)?);
            Ok(())
        } else {
            Err(ShapeStop::Shape)
        }
    }
}

// The bytes of a text of hex digits.
fn take_hex(alloc: Global, reader: &mut Reader<'_>) -> Result<Bytes, ShapeStop>
    ensures taken { IfOk result (λ content. IsTaken hex_of 0 reader.old content reader.new) }
    ensures shorter { OnOk result (length reader.new < length reader.old) }
{
    let text = next_text(reader)?;
    let content = decode_hex(alloc, text)?;
    Ok(content)
}
