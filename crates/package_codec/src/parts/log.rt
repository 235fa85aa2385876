//! Logs: recorded questions and their replies.

ghost use Rattle.std.specs.Prelude.{◌≡◌, ◌++◌, OnOk};
ghost use Rattle.std.specs.Str.{IsUtf8};
ghost use Rattle.package_codec.specs.Fields.{Decodes};
ghost use Rattle.package_codec.specs.Reading.{name_at, refusal_at, refusal_of_code, reply_of_tag};
ghost use Rattle.package_codec.specs.Spelling.{refusal_spelling, row_key_spelling};
ghost use Rattle.package_codec.specs.Typed.{TypedRefusal, TypedValues};

use crate::codec::{Decode, Encode, decode_list, encode_list};
use crate::cursor::Cursor;
use crate::decode_stop::DecodeStop;
use crate::number::{decode_u8, decode_u64, encode_u8, encode_u64};
use crate::parts::text::{decode_text, encode_text};
use crate::width::Width;
use ldv_value::{Bytes, Utf8, Values};
use run_model::{Entry, Log, ProcName};
use sql_model::{Reply, SqlRefusal};
use std::alloc::{AllocError, Global};

fn encode_refusal(refusal: &SqlRefusal, to: &mut Bytes) -> Result<(), AllocError>
    ensures bytes { OnOk result (to.new ≡ to.old ++ refusal_spelling refusal.now) }
    ensures typed { OnOk result (TypedRefusal refusal.now) }
{
    match refusal {
        SqlRefusal::Syntax => encode_u8(1, to),
        SqlRefusal::NoTable => encode_u8(2, to),
        SqlRefusal::NoColumn => encode_u8(3, to),
        SqlRefusal::TypeClash => encode_u8(4, to),
        SqlRefusal::NotNull => encode_u8(5, to),
        SqlRefusal::KeyTaken { table, key } => {
            encode_u8(6, to)?;
            encode_row_key(table, key, to)
        }
        SqlRefusal::Full => encode_u8(7, to),
        SqlRefusal::NoParent { table, key } => {
            encode_u8(8, to)?;
            encode_row_key(table, key, to)
        }
        SqlRefusal::HasChild { table, key } => {
            encode_u8(9, to)?;
            encode_row_key(table, key, to)
        }
    }
}

// A table and the values of a key of it.
fn encode_row_key(table: &Utf8, key: &Values, to: &mut Bytes) -> Result<(), AllocError>
    ensures bytes { OnOk result (to.new ≡ to.old ++ row_key_spelling table.now key.now) }
    ensures typed { OnOk result (IsUtf8 table.now × TypedValues key.now) }
{
    encode_text(table, to)?;
    encode_list(Width::One, key, to)
}

fn decode_refusal(alloc: Global, cursor: &mut Cursor) -> Result<SqlRefusal, DecodeStop>
    ensures { Decodes result cursor.new (refusal_at cursor.old) }
{
    let code = decode_u8(cursor)?;
    refusal_of_code(alloc, code, cursor)
}

fn refusal_of_code(alloc: Global, code: u8, cursor: &mut Cursor) -> Result<SqlRefusal, DecodeStop>
    ensures { Decodes result cursor.new (refusal_of_code code cursor.old) }
{
    match code {
        1 => Ok(SqlRefusal::Syntax),
        2 => Ok(SqlRefusal::NoTable),
        3 => Ok(SqlRefusal::NoColumn),
        4 => Ok(SqlRefusal::TypeClash),
        5 => Ok(SqlRefusal::NotNull),
        6 => {
            let table = decode_text(alloc, cursor)?;
            let key = decode_list(alloc, Width::One, cursor)?;
            Ok(SqlRefusal::KeyTaken { table, key })
        }
        7 => Ok(SqlRefusal::Full),
        8 => {
            let table = decode_text(alloc, cursor)?;
            let key = decode_list(alloc, Width::One, cursor)?;
            Ok(SqlRefusal::NoParent { table, key })
        }
        9 => {
            let table = decode_text(alloc, cursor)?;
            let key = decode_list(alloc, Width::One, cursor)?;
            Ok(SqlRefusal::HasChild { table, key })
        }
        _ => Err(DecodeStop::Malformed),
    }
}

impl Encode for Reply {
    ghost use Rattle.package_codec.specs.Spelling.{reply_spelling};
    ghost use Rattle.package_codec.specs.Typed.{TypedReply};

    ghost spelling = { reply_spelling };

    ghost typed = { TypedReply };

    fn encode(&self, to: &mut Bytes) -> Result<(), AllocError> {
        match self {
            Reply::Rows(rows) => {
                encode_u8(1, to)?;
                encode_list(Width::Four, rows, to)
            }
            Reply::Changed(count) => {
                encode_u8(2, to)?;
                encode_u64(*count, to)
            }
            Reply::Refused(refusal) => {
                encode_u8(3, to)?;
                encode_refusal(refusal, to)
            }
        }
    }
}

impl Decode for Reply {
    ghost use Rattle.package_codec.specs.Reading.{reply_at};

    ghost reading = { reply_at };

    fn decode(alloc: Global, cursor: &mut Cursor) -> Result<Reply, DecodeStop> {
        let tag = decode_u8(cursor)?;
        reply_of_tag(alloc, tag, cursor)
    }
}

fn reply_of_tag(alloc: Global, tag: u8, cursor: &mut Cursor) -> Result<Reply, DecodeStop>
    ensures { Decodes result cursor.new (reply_of_tag tag cursor.old) }
{
    match tag {
        1 => Ok(Reply::Rows(decode_list(alloc, Width::Four, cursor)?)),
        2 => Ok(Reply::Changed(decode_u64(cursor)?)),
        3 => Ok(Reply::Refused(decode_refusal(alloc, cursor)?)),
        _ => Err(DecodeStop::Malformed),
    }
}

impl Encode for Entry {
    ghost use Rattle.package_codec.specs.Spelling.{entry_spelling};
    ghost use Rattle.package_codec.specs.Typed.{TypedEntry};

    ghost spelling = { entry_spelling };

    ghost typed = { TypedEntry };

    fn encode(&self, to: &mut Bytes) -> Result<(), AllocError> {
        encode_text(&self.text, to)?;
        self.params.encode(to)?;
        self.reply.encode(to)
    }
}

impl Decode for Entry {
    ghost use Rattle.package_codec.specs.Reading.{entry_at};

    ghost reading = { entry_at };

    fn decode(alloc: Global, cursor: &mut Cursor) -> Result<Entry, DecodeStop> {
        let text = decode_text(alloc, cursor)?;
        let params = decode_list(alloc, Width::Two, cursor)?;
        let reply = Reply::decode(alloc, cursor)?;
        Ok(Entry {
            text,
            params,
            reply,
        })
    }
}

fn decode_name(alloc: Global, cursor: &mut Cursor) -> Result<ProcName, DecodeStop>
    ensures { Decodes result cursor.new (name_at cursor.old) }
{
    let parts = decode_list(alloc, Width::Two, cursor)?;
    Ok(ProcName { parts })
}

impl Encode for Log {
    ghost use Rattle.package_codec.specs.Spelling.{log_spelling};
    ghost use Rattle.package_codec.specs.Typed.{TypedLog};

    ghost spelling = { log_spelling };

    ghost typed = { TypedLog };

    fn encode(&self, to: &mut Bytes) -> Result<(), AllocError> {
        encode_list(Width::Two, &self.process.parts, to)?;
        encode_list(Width::Four, &self.entries, to)
    }
}

impl Decode for Log {
    ghost use Rattle.package_codec.specs.Reading.{log_at};

    ghost reading = { log_at };

    fn decode(alloc: Global, cursor: &mut Cursor) -> Result<Log, DecodeStop> {
        let process = decode_name(alloc, cursor)?;
        let entries = decode_list(alloc, Width::Four, cursor)?;
        Ok(Log { process, entries })
    }
}
