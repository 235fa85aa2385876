//! Files of a package.

ghost use Rattle.std.specs.Prelude.{◌≡◌, ◌++◌, OnOk};
ghost use Rattle.package_codec.specs.Fields.{Decodes};
ghost use Rattle.package_codec.specs.Reading.{content_at, content_of_tag};
ghost use Rattle.package_codec.specs.Spelling.{content_spelling};

use crate::codec::{Decode, Encode};
use crate::cursor::Cursor;
use crate::decode_stop::DecodeStop;
use crate::number::{decode_u8, encode_u8};
use crate::parts::text::{decode_sized, decode_text, encode_sized, encode_text};
use ldv_value::Bytes;
use run_model::PackedFile;
use std::alloc::{AllocError, Global};

impl Encode for PackedFile {
    ghost use Rattle.package_codec.specs.Spelling.{file_spelling};
    ghost use Rattle.package_codec.specs.Typed.{TypedFile};

    ghost spelling = { file_spelling };

    ghost typed = { TypedFile };

    fn encode(&self, to: &mut Bytes) -> Result<(), AllocError> {
        encode_text(&self.path, to)?;
        encode_content(&self.content, to)
    }
}

fn encode_content(content: &Option<Bytes>, to: &mut Bytes) -> Result<(), AllocError>
    ensures { OnOk result (to.new ≡ to.old ++ content_spelling content.now) }
{
    match content {
        Some(bytes) => {
            encode_u8(1, to)?;
            encode_sized(bytes.as_slice(), to)
        }
        None => encode_u8(2, to),
    }
}

impl Decode for PackedFile {
    ghost use Rattle.package_codec.specs.Reading.{file_at};

    ghost reading = { file_at };

    fn decode(alloc: Global, cursor: &mut Cursor) -> Result<PackedFile, DecodeStop> {
        let path = decode_text(alloc, cursor)?;
        let content = decode_content(alloc, cursor)?;
        Ok(PackedFile { path, content })
    }
}

fn decode_content(alloc: Global, cursor: &mut Cursor) -> Result<Option<Bytes>, DecodeStop>
    ensures { Decodes result cursor.new (content_at cursor.old) }
{
    let tag = decode_u8(cursor)?;
    content_of_tag(alloc, tag, cursor)
}

fn content_of_tag(alloc: Global, tag: u8, cursor: &mut Cursor) -> Result<Option<Bytes>, DecodeStop>
    ensures { Decodes result cursor.new (content_of_tag tag cursor.old) }
{
    match tag {
        1 => Ok(Some(decode_sized(alloc, cursor)?)),
        2 => Ok(None),
        _ => Err(DecodeStop::Malformed),
    }
}
