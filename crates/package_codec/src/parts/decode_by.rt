//! Items whose reading depends on more than their bytes: rows are read by the number of their table's
//! columns, tables by the version.

ghost use Rattle.std.specs.Prelude.{◌≡◌, ℕ, List, length};
ghost use Rattle.std.specs.Int.{w32};
ghost use Rattle.package_codec.specs.Fields.{DecodeResult, Decodes, items_at, list_at};
ghost use Rattle.package_codec.specs.Widths.{of_count};

use crate::cursor::Cursor;
use crate::decode_stop::DecodeStop;
use crate::number::decode_count;
use crate::width::Width;
use ldv_value::List as Listed;
use sql_model::Columns;
use std::alloc::Global;

/// An item that is read from the front of bytes, if `by` is known.
pub(crate) trait DecodeBy<C>: Drop {
    /// The item at the front of bytes.
    ghost reading: { C → List ℕ → DecodeResult Self };

    /// Reads an item.
    fn decode_by(alloc: Global, by: C, cursor: &mut Cursor) -> Result<Self, DecodeStop>
        ensures { Decodes result cursor.new (reading by cursor.old) };
}

/// Reads the rows of a table with their number before them.
pub(crate) fn decode_rows<X: DecodeBy<usize>>(
    alloc: Global,
    columns: &Columns,
    cursor: &mut Cursor,
) -> Result<Listed<X>, DecodeStop>
    ensures { Decodes result cursor.new (list_at w32 (X.reading (length columns.now)) cursor.old) }
{
    decode_list_by(alloc, Width::Four, columns.len(), cursor)
}

/// Reads a list with the number of its items before it.
pub(crate) fn decode_list_by<C: Copy, X: DecodeBy<C>>(
    alloc: Global,
    width: Width,
    by: C,
    cursor: &mut Cursor,
) -> Result<Listed<X>, DecodeStop>
    ensures { Decodes result cursor.new (list_at (of_count width) (X.reading by) cursor.old) }
{
    let count = decode_count(width, cursor)?;
    decode_items_by(alloc, count as usize, by, cursor)
}

// The list grows with the items that are read, so a false count can't make it allocate.
fn decode_items_by<C: Copy, X: DecodeBy<C>>(
    alloc: Global,
    count: usize,
    by: C,
    cursor: &mut Cursor,
) -> Result<Listed<X>, DecodeStop>
    ensures { Decodes result cursor.new (items_at (X.reading by) count cursor.old) }
{
    let mut items = Listed::new(alloc);
    for _turn in 0..count {
        let item = X::decode_by(alloc, by, cursor)?;
        items.push(item)?;
    }
    Ok(items)
}
