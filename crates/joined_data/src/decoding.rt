//! The parts of a joined package, from bytes to values.

ghost use Rattle.std.specs.Prelude.{◌≡◌};
ghost use Rattle.package_codec.specs.Fields.{Decodes, Makes};
ghost use Rattle.joined_data.specs.Layout.{bare_run_at};
ghost use Rattle.joined_data.specs.CompactJoins.{compact_joined_at, compact_joined_of, compact_run_at};

use crate::compact_joined::{CompactJoined, CompactRun};
use crate::joined::{JoinedRun, Reason};
use ldv_value::List;
use package_codec::{
    Cursor, Decode, DecodeStop, Width, decode_list, decode_reason, decode_text, decode_u32,
    decode_u64,
};
use std::alloc::Global;

impl Decode for Reason {
    ghost use Rattle.joined_data.specs.Layout.{named_reason_at};

    ghost reading = { named_reason_at };

    fn decode(alloc: Global, cursor: &mut Cursor) -> Result<Reason, DecodeStop> {
        let table = decode_text(alloc, cursor)?;
        let row = decode_u32(cursor)?;
        let (statement, rule) = decode_reason(cursor)?;
        Ok(Reason {
            table,
            row,
            statement,
            rule,
        })
    }
}

fn decode_bare_run(alloc: Global, cursor: &mut Cursor) -> Result<JoinedRun, DecodeStop>
    ensures { Decodes result cursor.new (bare_run_at cursor.old) }
{
    let start = decode_list(alloc, Width::Two, cursor)?;
    let seed = decode_u64(cursor)?;
    let steps = decode_u32(cursor)?;
    let wholes = decode_list(alloc, Width::Four, cursor)?;
    let presents = decode_list(alloc, Width::Four, cursor)?;
    let tables = decode_list(alloc, Width::Two, cursor)?;
    let reasons = decode_list(alloc, Width::Four, cursor)?;
    Ok(JoinedRun {
        start,
        seed,
        steps,
        wholes,
        presents,
        tables,
        reasons,
        events: List::new(alloc),
    })
}

fn decode_cut_run(alloc: Global, cursor: &mut Cursor) -> Result<CompactRun, DecodeStop>
    ensures { Decodes result cursor.new (compact_run_at cursor.old) }
{
    let bare = decode_bare_run(alloc, cursor)?;
    let runs = decode_list(alloc, Width::Four, cursor)?;
    Ok(CompactRun { bare, runs })
}

fn decode_cut_joined(alloc: Global, cursor: &mut Cursor) -> Result<CompactJoined, DecodeStop>
    ensures { Decodes result cursor.new (compact_joined_at cursor.old) }
{
    let files = decode_list(alloc, Width::Four, cursor)?;
    let tables = decode_list(alloc, Width::Two, cursor)?;
    let first = decode_cut_run(alloc, cursor)?;
    let second = decode_cut_run(alloc, cursor)?;
    Ok(CompactJoined {
        files,
        tables,
        first,
        second,
    })
}

/// Reads a joined package from all bytes between its magic and its digest, with the traces as runs.
/// `Malformed`: the bytes aren't those of a joined package.
pub fn decode_all(alloc: Global, bytes: &[u8]) -> Result<CompactJoined, DecodeStop>
    ensures { Makes result (compact_joined_of bytes.now) }
{
    let mut cursor = Cursor::of(bytes);
    let joined = decode_cut_joined(alloc, &mut cursor)?;
    if cursor.is_empty() {
        Ok(joined)
    } else {
        Err(DecodeStop::Malformed)
    }
}
