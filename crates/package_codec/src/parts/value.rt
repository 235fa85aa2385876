//! Values and lists of values.

ghost use Rattle.std.specs.Prelude.{◌≡◌, ◌++◌, OnOk};
ghost use Rattle.package_codec.specs.Fields.{Decodes};
ghost use Rattle.package_codec.specs.Reading.{value_of_tag};

use crate::codec::{Decode, Encode, decode_list, encode_list};
use crate::cursor::Cursor;
use crate::decode_stop::DecodeStop;
use crate::number::{decode_i64, decode_u8, encode_i64, encode_u8};
use crate::parts::text::{decode_text, encode_text};
use crate::width::Width;
use ldv_value::{Bytes, Utf8, Value, Values};
use std::alloc::{AllocError, Global};

impl Encode for Utf8 {
    ghost use Rattle.std.specs.Str.{IsUtf8};
    ghost use Rattle.package_codec.specs.Fields.{text_spelling};

    ghost spelling = { text_spelling };

    ghost typed = { IsUtf8 };

    fn encode(&self, to: &mut Bytes) -> Result<(), AllocError> {
        encode_text(self, to)
    }
}

impl Decode for Utf8 {
    ghost use Rattle.package_codec.specs.Fields.{text_at};

    ghost reading = { text_at };

    fn decode(alloc: Global, cursor: &mut Cursor) -> Result<Utf8, DecodeStop> {
        decode_text(alloc, cursor)
    }
}

impl Encode for Value {
    ghost use Rattle.package_codec.specs.Spelling.{value_spelling};
    ghost use Rattle.package_codec.specs.Typed.{TypedValue};

    ghost spelling = { value_spelling };

    ghost typed = { TypedValue };

    fn encode(&self, to: &mut Bytes) -> Result<(), AllocError> {
        match self {
            Value::Null => encode_u8(0, to),
            Value::Int(number) => {
                encode_u8(1, to)?;
                encode_i64(*number, to)
            }
            Value::Text(text) => {
                encode_u8(2, to)?;
                encode_text(text, to)
            }
        }
    }
}

impl Decode for Value {
    ghost use Rattle.package_codec.specs.Reading.{value_at};

    ghost reading = { value_at };

    fn decode(alloc: Global, cursor: &mut Cursor) -> Result<Value, DecodeStop> {
        let tag = decode_u8(cursor)?;
        value_of_tag(alloc, tag, cursor)
    }
}

fn value_of_tag(alloc: Global, tag: u8, cursor: &mut Cursor) -> Result<Value, DecodeStop>
    ensures { Decodes result cursor.new (value_of_tag tag cursor.old) }
{
    match tag {
        0 => Ok(Value::Null),
        1 => Ok(Value::Int(decode_i64(cursor)?)),
        2 => Ok(Value::Text(decode_text(alloc, cursor)?)),
        _ => Err(DecodeStop::Malformed),
    }
}

impl Encode for Values {
    ghost use Rattle.package_codec.specs.Spelling.{values_spelling};
    ghost use Rattle.package_codec.specs.Typed.{TypedValues};

    ghost spelling = { values_spelling };

    ghost typed = { TypedValues };

    fn encode(&self, to: &mut Bytes) -> Result<(), AllocError> {
        encode_list(Width::Two, self, to)
    }
}

impl Decode for Values {
    ghost use Rattle.package_codec.specs.Reading.{values_at};

    ghost reading = { values_at };

    fn decode(alloc: Global, cursor: &mut Cursor) -> Result<Values, DecodeStop> {
        decode_list(alloc, Width::Two, cursor)
    }
}
