//! Encoding and decoding: the traits, and lists of items.

ghost use Rattle.std.specs.Prelude.{◌≡◌, ◌++◌, [], ℕ, List, OnOk, IfOk};
ghost use Rattle.std.specs.List.{flat_map, AllByRecursion};
ghost use Rattle.package_codec.specs.Fields.{DecodeResult, Decodes, items_at, list_at, list_spelling};
ghost use Rattle.package_codec.specs.Widths.{of_count};

use crate::cursor::Cursor;
use crate::decode_stop::DecodeStop;
use crate::number::{decode_count, encode_count};
use crate::width::Width;
use ldv_value::{Bytes, List as Listed};
use std::alloc::{AllocError, Global};

/// An item that has a spelling.
pub trait Encode: Drop {
    /// The bytes of an item.
    ghost spelling: { Self → List ℕ };

    /// A fact about each item in memory: its numbers fit their types, its texts are UTF-8.
    ghost typed: { Self → Type 0 };

    /// Appends the bytes of the item. After an `AllocError` a part of them may be appended.
    fn encode(&self, to: &mut Bytes) -> Result<(), AllocError>
        ensures bytes { OnOk result (to.new ≡ to.old ++ spelling self.now) }
        ensures typed { OnOk result (typed self.now) };
}

/// An item that is read from the front of bytes.
pub trait Decode: Drop {
    /// The item at the front of bytes, and the bytes after it.
    ghost reading: { List ℕ → DecodeResult Self };

    /// Reads an item, and moves the cursor behind it. `Malformed`: the bytes begin with no such item.
    fn decode(alloc: Global, cursor: &mut Cursor) -> Result<Self, DecodeStop>
        ensures { Decodes result cursor.new (reading cursor.old) };
}

/// Appends items.
pub(crate) fn encode_items<X: Encode>(items: &Listed<X>, to: &mut Bytes) -> Result<(), AllocError>
    ensures bytes { OnOk result (to.new ≡ to.old ++ flat_map X.spelling items.now) }
    ensures typed { OnOk result (AllByRecursion X.typed items.now) }
{
    for item in items.items() {
        item.encode(to)?;
    }
    Ok(())
}

/// Appends a list: the number of its items, in a field of this width, and the items.
pub fn encode_list<X: Encode>(
    width: Width,
    items: &Listed<X>,
    to: &mut Bytes,
) -> Result<(), AllocError>
    ensures bytes { OnOk result (to.new ≡ to.old ++ list_spelling (of_count width) X.spelling items.now) }
    ensures typed { OnOk result (AllByRecursion X.typed items.now) }
{
    encode_count(width, items.len(), to)?;
    encode_items(items, to)
}

/// Reads a list with the number of its items, of this width, before it. Beyond a few items the list grows as
/// items are read, so a false count can't make it allocate. `Malformed`: the bytes begin with no such list.
pub fn decode_list<X: Decode>(
    alloc: Global,
    width: Width,
    cursor: &mut Cursor,
) -> Result<Listed<X>, DecodeStop>
    ensures { Decodes result cursor.new (list_at (of_count width) X.reading cursor.old) }
{
    let count = decode_count(width, cursor)?;
    decode_items(alloc, count as usize, cursor)
}

// A list that grows has room for so many items at first.
const FEW: usize = 4;

// The empty list, with room for just the items that are to come where they are few: most lists of a statement
// have one.
fn list_for<X: Drop>(alloc: Global, count: usize) -> Result<Listed<X>, AllocError>
    ensures { IfOk result (λ items. items ≡ []) }
{
    Listed::with_capacity(alloc, count.min(FEW))
}

/// Decodes the given number of items.
pub(crate) fn decode_items<X: Decode>(
    alloc: Global,
    count: usize,
    cursor: &mut Cursor,
) -> Result<Listed<X>, DecodeStop>
    ensures { Decodes result cursor.new (items_at X.reading count cursor.old) }
{
    let mut items = list_for(alloc, count)?;
    for _turn in 0..count {
        let item = X::decode(alloc, cursor)?;
        items.push(item)?;
    }
    Ok(items)
}

impl Encode for u32 {
    ghost use Rattle.std.specs.Prelude.{◌<◌, ◌^◌};
    ghost use Rattle.std.specs.Int.{w32, to_be_bytes};

    ghost spelling = { to_be_bytes w32 };

    ghost typed = { λ n. n < 2 ^ 32 };

    fn encode(&self, to: &mut Bytes) -> Result<(), AllocError> {
        crate::number::encode_u32(*self, to)
    }
}

impl Decode for u32 {
    ghost use Rattle.std.specs.Int.{w32};
    ghost use Rattle.package_codec.specs.Fields.{number_at};

    ghost reading = { number_at w32 };

    fn decode(_alloc: Global, cursor: &mut Cursor) -> Result<u32, DecodeStop> {
        crate::number::decode_u32(cursor)
    }
}
