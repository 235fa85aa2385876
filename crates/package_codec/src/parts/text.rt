//! Texts, and the bytes of files.

ghost use Rattle.std.specs.Prelude.{◌≡◌, ◌++◌, OnOk};
ghost use Rattle.std.specs.Str.{IsUtf8};
ghost use Rattle.ldv_value.specs.Texts.{text_of};
ghost use Rattle.package_codec.specs.Fields.{Decodes, Makes, sized_at, text_at, text_spelling};

use crate::cursor::Cursor;
use crate::decode_stop::DecodeStop;
use crate::number::encode_count;
use crate::width::Width;
use ldv_value::{Bytes, Utf8};
use std::alloc::{AllocError, Global};

/// Reads bytes with their length before them.
pub(crate) fn decode_sized(alloc: Global, cursor: &mut Cursor) -> Result<Bytes, DecodeStop>
    ensures { Decodes result cursor.new (sized_at cursor.old) }
{
    match cursor.next_with_length() {
        None => Err(DecodeStop::Malformed),
        Some(front) => Ok(Bytes::of_slice(alloc, front)?),
    }
}

/// Reads a text: the number of its bytes and the bytes. `Malformed`: too few bytes are left, or they aren't
/// UTF-8.
pub fn decode_text(alloc: Global, cursor: &mut Cursor) -> Result<Utf8, DecodeStop>
    ensures { Decodes result cursor.new (text_at cursor.old) }
{
    match cursor.next_with_length() {
        None => Err(DecodeStop::Malformed),
        Some(front) => utf8_of(alloc, front),
    }
}

#[tactic(auto, using(ldv_value::proofs::TextTests::is_text, ldv_value::proofs::TextTests::no_text))]
fn utf8_of(alloc: Global, front: &[u8]) -> Result<Utf8, DecodeStop>
    ensures { Makes result (text_of front.now) }
{
    match str::from_utf8(front) {
        Ok(text) => Ok(Utf8::of(alloc, text)?),
        Err(_) => Err(DecodeStop::Malformed),
    }
}

/// Appends bytes with their length before them.
pub(crate) fn encode_sized(bytes: &[u8], to: &mut Bytes) -> Result<(), AllocError>
    ensures { OnOk result (to.new ≡ to.old ++ text_spelling bytes.now) }
{
    encode_count(Width::Four, bytes.len(), to)?;
    to.extend(bytes)
}

/// Appends a text: the number of its bytes and the bytes.
pub fn encode_text(text: &Utf8, to: &mut Bytes) -> Result<(), AllocError>
    ensures bytes { OnOk result (to.new ≡ to.old ++ text_spelling text.now) }
    ensures typed { OnOk result (IsUtf8 text.now) }
{
    encode_sized(text.as_str().as_bytes(), to)
}
