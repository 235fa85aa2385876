//! Numbers, the highest byte first, and counts.

ghost use Rattle.std.specs.Prelude.{◌≡◌, ◌++◌, IfOk, OnOk};
ghost use Rattle.std.specs.Int.{w8, w16, w32, w64, to_be_bytes, cast_unsigned};
ghost use Rattle.package_codec.specs.Fields.{Decodes, number_at, signed_at};
ghost use Rattle.package_codec.specs.Widths.{of_count};

use crate::cursor::Cursor;
use crate::decode_stop::DecodeStop;
use crate::width::Width;
use ldv_value::Bytes;
use std::alloc::AllocError;

/// Reads a number of one byte. `Malformed`: no byte is left.
pub fn decode_u8(cursor: &mut Cursor) -> Result<u8, DecodeStop>
    ensures { Decodes result cursor.new (number_at w8 cursor.old) }
{
    match cursor.next(1) {
        None => Err(DecodeStop::Malformed),
        Some(front) => Ok(front[0]),
    }
}

/// Reads a number of two bytes.
pub(crate) fn decode_u16(cursor: &mut Cursor) -> Result<u16, DecodeStop>
    ensures { Decodes result cursor.new (number_at w16 cursor.old) }
{
    match cursor.next(2) {
        None => Err(DecodeStop::Malformed),
        Some(front) => Ok(u16::from_be_bytes([front[0], front[1]])),
    }
}

/// Reads a number of four bytes. `Malformed`: fewer are left.
pub fn decode_u32(cursor: &mut Cursor) -> Result<u32, DecodeStop>
    ensures { Decodes result cursor.new (number_at w32 cursor.old) }
{
    match cursor.next_u32() {
        None => Err(DecodeStop::Malformed),
        Some(number) => Ok(number),
    }
}

/// Reads a number of eight bytes. `Malformed`: fewer are left.
pub fn decode_u64(cursor: &mut Cursor) -> Result<u64, DecodeStop>
    ensures { Decodes result cursor.new (number_at w64 cursor.old) }
{
    match cursor.next(8) {
        None => Err(DecodeStop::Malformed),
        Some(f) => Ok(u64::from_be_bytes([f[0], f[1], f[2], f[3], f[4], f[5], f[6], f[7]])),
    }
}

/// Reads a signed number in two's complement.
pub(crate) fn decode_i64(cursor: &mut Cursor) -> Result<i64, DecodeStop>
    ensures { Decodes result cursor.new (signed_at cursor.old) }
{
    Ok(decode_u64(cursor)?.cast_signed())
}

/// Appends a number of one byte.
pub fn encode_u8(number: u8, to: &mut Bytes) -> Result<(), AllocError>
    ensures { OnOk result (to.new ≡ to.old ++ to_be_bytes w8 number) }
{
    to.push(number)
}

/// Appends a number of four bytes.
pub fn encode_u32(number: u32, to: &mut Bytes) -> Result<(), AllocError>
    ensures { OnOk result (to.new ≡ to.old ++ to_be_bytes w32 number) }
{
    to.extend(&number.to_be_bytes())
}

/// Appends a number of eight bytes.
pub fn encode_u64(number: u64, to: &mut Bytes) -> Result<(), AllocError>
    ensures { OnOk result (to.new ≡ to.old ++ to_be_bytes w64 number) }
{
    to.extend(&number.to_be_bytes())
}

/// Appends a signed number in two's complement.
pub(crate) fn encode_i64(number: i64, to: &mut Bytes) -> Result<(), AllocError>
    ensures { OnOk result (to.new ≡ to.old ++ to_be_bytes w64 (cast_unsigned w64 number)) }
{
    to.extend(&number.to_be_bytes())
}

/// Reads a count of the given width.
pub(crate) fn decode_count(width: Width, cursor: &mut Cursor) -> Result<u32, DecodeStop>
    ensures { Decodes result cursor.new (number_at (of_count width) cursor.old) }
{
    match width {
        Width::One => Ok(u32::from(decode_u8(cursor)?)),
        Width::Two => Ok(u32::from(decode_u16(cursor)?)),
        Width::Four => decode_u32(cursor),
    }
}

/// Appends a count in a field of the given width. If it is too large for the field, its last bytes are
/// written. In a valid package only a count of four bytes can be too large, and then the package is too long.
pub(crate) fn encode_count(width: Width, count: usize, to: &mut Bytes) -> Result<(), AllocError>
    ensures { OnOk result (to.new ≡ to.old ++ to_be_bytes (of_count width) count) }
{
    let bytes = (count as u64).to_be_bytes();
    match width {
        Width::One => to.extend(&bytes[7..]),
        Width::Two => to.extend(&bytes[6..]),
        Width::Four => to.extend(&bytes[4..]),
    }
}
