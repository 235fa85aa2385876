//! Lines of files.

use crate::utf8::Utf8;

/// What a read of a line returns.
#[derive(Drop)]
pub enum LineRead {
    /// The file has no byte at the place, or there is no file.
    End,
    /// The line without its LF, and the place after the LF. If the line has no LF, the place is the file's
    /// end.
    Line { text: Utf8, next: u32 },
    /// The line is longer than `TEXT_LIMIT`.
    TooLong,
    /// The line has at most `TEXT_LIMIT` bytes, but isn't UTF-8.
    NotText,
}
