//! Events.

ghost use Rattle.std.specs.Prelude.{◌≡◌, ◌++◌, ◌∷◌, OnOk};
ghost use Rattle.std.specs.List.{AllByRecursion};
ghost use Rattle.std.specs.Str.{IsUtf8};
ghost use Rattle.package_codec.specs.Fields.{Decodes, Makes, text_spelling};
ghost use Rattle.package_codec.specs.Events.{flag_spelling, flag_of, flag_at, flagged_spelling};
ghost use Rattle.package_codec.specs.Events.{needs_spelling, members_spelling, TypedNeed, TypedMember};
ghost use Rattle.package_codec.specs.Events.{act_spelling, TypedAct, needs_at, members_at, act_of_tag};
ghost use Rattle.package_codec.specs.Events.{act_at};

use crate::codec::{Decode, Encode, decode_list, encode_list};
use crate::cursor::Cursor;
use crate::decode_stop::DecodeStop;
use crate::number::{decode_u8, decode_u32, encode_u8, encode_u32};
use crate::parts::text::{decode_text, encode_text};
use crate::trace::event_part::{MadePart, ReadPart};
use crate::trace::group::{decode_grouped, encode_grouped};
use crate::width::Width;
use ldv_value::{Bytes, Utf8};
use run_model::{Act, Event};
use sql_model::{Member, Members, Need, Needs};
use std::alloc::{AllocError, Global};

fn encode_flag(found: bool, to: &mut Bytes) -> Result<(), AllocError>
    ensures { OnOk result (to.new ≡ to.old ++ flag_spelling found) }
{
    if found {
        encode_u8(1, to)
    } else {
        encode_u8(0, to)
    }
}

fn decode_flag(cursor: &mut Cursor) -> Result<bool, DecodeStop>
    ensures { Decodes result cursor.new (flag_at cursor.old) }
{
    let number = decode_u8(cursor)?;
    flag_of(number)
}

fn flag_of(number: u8) -> Result<bool, DecodeStop>
    ensures { Makes result (flag_of number) }
{
    match number {
        0 => Ok(false),
        1 => Ok(true),
        _ => Err(DecodeStop::Malformed),
    }
}

fn encode_plain(tag: u8, path: &Utf8, to: &mut Bytes) -> Result<(), AllocError>
    ensures bytes { OnOk result (to.new ≡ to.old ++ tag ∷ text_spelling path.now) }
    ensures typed { OnOk result (IsUtf8 path.now) }
{
    encode_u8(tag, to)?;
    encode_text(path, to)
}

fn encode_flagged(tag: u8, path: &Utf8, found: bool, to: &mut Bytes) -> Result<(), AllocError>
    ensures bytes { OnOk result (to.new ≡ to.old ++ tag ∷ flagged_spelling path.now found) }
    ensures typed { OnOk result (IsUtf8 path.now) }
{
    encode_u8(tag, to)?;
    encode_text(path, to)?;
    encode_flag(found, to)
}

fn encode_needs(needs: &Needs, to: &mut Bytes) -> Result<(), AllocError>
    ensures bytes { OnOk result (to.new ≡ to.old ++ needs_spelling needs.now) }
    ensures typed { OnOk result (AllByRecursion TypedNeed needs.now) }
{
    encode_grouped::<ReadPart, Need>(needs, to)
}

fn encode_members(members: &Members, to: &mut Bytes) -> Result<(), AllocError>
    ensures bytes { OnOk result (to.new ≡ to.old ++ members_spelling members.now) }
    ensures typed { OnOk result (AllByRecursion TypedMember members.now) }
{
    encode_grouped::<MadePart, Member>(members, to)
}

fn decode_needs(alloc: Global, cursor: &mut Cursor) -> Result<Needs, DecodeStop>
    ensures { Decodes result cursor.new (needs_at cursor.old) }
{
    decode_grouped::<ReadPart, Need>(alloc, cursor)
}

fn decode_members(alloc: Global, cursor: &mut Cursor) -> Result<Members, DecodeStop>
    ensures { Decodes result cursor.new (members_at cursor.old) }
{
    decode_grouped::<MadePart, Member>(alloc, cursor)
}

fn encode_act(act: &Act, to: &mut Bytes) -> Result<(), AllocError>
    ensures bytes { OnOk result (to.new ≡ to.old ++ act_spelling act.now) }
    ensures typed { OnOk result (TypedAct act.now) }
{
    match act {
        Act::Started { path } => encode_plain(0, path, to),
        Act::Spawned { path } => encode_plain(1, path, to),
        Act::Unspawned { path, found } => encode_flagged(2, path, *found, to),
        Act::OpenedRead { path } => encode_plain(3, path, to),
        Act::OpenedWrite { path } => encode_plain(4, path, to),
        Act::OpenedAppend { path, found } => encode_flagged(5, path, *found, to),
        Act::OpenedNew { path } => encode_plain(6, path, to),
        Act::Unopened { path, found } => encode_flagged(7, path, *found, to),
        Act::Read { path } => encode_plain(8, path, to),
        Act::Wrote { path } => encode_plain(9, path, to),
        Act::Removed { path } => encode_plain(10, path, to),
        Act::Tested { path, found } => encode_flagged(11, path, *found, to),
        Act::Waited { child } => {
            encode_u8(12, to)?;
            child.encode(to)
        }
        Act::Ended { status } => {
            encode_u8(13, to)?;
            encode_u8(*status, to)
        }
        Act::Asked {
            statement,
            tables,
            reads,
            made,
        } => {
            encode_u8(14, to)?;
            statement.encode(to)?;
            encode_list(Width::Two, tables, to)?;
            encode_needs(reads, to)?;
            encode_members(made, to)
        }
    }
}

fn decode_act(alloc: Global, cursor: &mut Cursor) -> Result<Act, DecodeStop>
    ensures { Decodes result cursor.new (act_at cursor.old) }
{
    let tag = decode_u8(cursor)?;
    act_of_tag(alloc, tag, cursor)
}

fn act_of_tag(alloc: Global, tag: u8, cursor: &mut Cursor) -> Result<Act, DecodeStop>
    ensures { Decodes result cursor.new (act_of_tag tag cursor.old) }
{
    match tag {
        0 => Ok(Act::Started {
            path: decode_text(alloc, cursor)?,
        }),
        1 => Ok(Act::Spawned {
            path: decode_text(alloc, cursor)?,
        }),
        2 => Ok(Act::Unspawned {
            path: decode_text(alloc, cursor)?,
            found: decode_flag(cursor)?,
        }),
        3 => Ok(Act::OpenedRead {
            path: decode_text(alloc, cursor)?,
        }),
        4 => Ok(Act::OpenedWrite {
            path: decode_text(alloc, cursor)?,
        }),
        5 => Ok(Act::OpenedAppend {
            path: decode_text(alloc, cursor)?,
            found: decode_flag(cursor)?,
        }),
        6 => Ok(Act::OpenedNew {
            path: decode_text(alloc, cursor)?,
        }),
        7 => Ok(Act::Unopened {
            path: decode_text(alloc, cursor)?,
            found: decode_flag(cursor)?,
        }),
        8 => Ok(Act::Read {
            path: decode_text(alloc, cursor)?,
        }),
        9 => Ok(Act::Wrote {
            path: decode_text(alloc, cursor)?,
        }),
        10 => Ok(Act::Removed {
            path: decode_text(alloc, cursor)?,
        }),
        11 => Ok(Act::Tested {
            path: decode_text(alloc, cursor)?,
            found: decode_flag(cursor)?,
        }),
        12 => Ok(Act::Waited {
            child: decode_u32(cursor)?,
        }),
        13 => Ok(Act::Ended {
            status: decode_u8(cursor)?,
        }),
        14 => decode_asked(alloc, cursor),
        _ => Err(DecodeStop::Malformed),
    }
}

fn decode_asked(alloc: Global, cursor: &mut Cursor) -> Result<Act, DecodeStop>
    ensures { Decodes result cursor.new (act_of_tag 14 cursor.old) }
{
    let statement = decode_u32(cursor)?;
    let tables = decode_list(alloc, Width::Two, cursor)?;
    let reads = decode_needs(alloc, cursor)?;
    let made = decode_members(alloc, cursor)?;
    Ok(Act::Asked {
        statement,
        tables,
        reads,
        made,
    })
}

impl Encode for Event {
    ghost use Rattle.package_codec.specs.Events.{event_spelling, TypedEvent};

    ghost spelling = { event_spelling };

    ghost typed = { TypedEvent };

    fn encode(&self, to: &mut Bytes) -> Result<(), AllocError> {
        self.step.encode(to)?;
        self.process.encode(to)?;
        encode_act(&self.act, to)
    }
}

impl Decode for Event {
    ghost use Rattle.package_codec.specs.Events.{event_at};

    ghost reading = { event_at };

    fn decode(alloc: Global, cursor: &mut Cursor) -> Result<Event, DecodeStop> {
        let step = decode_u32(cursor)?;
        let process = decode_u32(cursor)?;
        let act = decode_act(alloc, cursor)?;
        Ok(Event { step, process, act })
    }
}
