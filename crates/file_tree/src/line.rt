//! Lines of a file.

ghost use Rattle.std.specs.Prelude.{◌≡◌, ◌+◌, ◌^◌, ◌<◌, ◌≤◌, min, take, drop, length, position, IfOk};
ghost use Rattle.ldv_value.specs.Limits.{file_limit};
ghost use Rattle.ldv_value.specs.FileState.{is_line_feed, line_length, text_read, first_read, line_read};

use ldv_value::{LineRead, TEXT_LIMIT, Utf8};
use std::alloc::{AllocError, Global};

/// Reads the line at a place in a file's bytes, from 0.
pub(crate) fn read_at(alloc: Global, bytes: &[u8], at: u32) -> Result<LineRead, AllocError>
    requires { length bytes.now ≤ file_limit }
    ensures { IfOk result (λ read. read ≡ line_read at (drop at bytes.now)) }
{
    let place = at as usize;
    if place < bytes.len() {
        read_first(alloc, at, &bytes[place..])
    } else {
        Ok(LineRead::End)
    }
}

// Reads the line at the start of `rest`, which isn't empty.
fn read_first(alloc: Global, at: u32, rest: &[u8]) -> Result<LineRead, AllocError>
    requires some { 0 < length rest.now }
    requires fits { at + length rest.now < 2 ^ 32 }
    ensures { IfOk result (λ read. read ≡ line_read at rest.now) }
{
    let length = searched_length(rest, TEXT_LIMIT + 1);
    if length > TEXT_LIMIT {
        return Ok(LineRead::TooLong);
    }
    let size = (length + 1).min(rest.len());
    read_text(alloc, &rest[..length], at + size as u32)
}

// The line, if it is UTF-8.
#[tactic(auto, using(crate::proofs::Lines::text_made, crate::proofs::Lines::text_refused))]
fn read_text(alloc: Global, line: &[u8], next: u32) -> Result<LineRead, AllocError>
    ensures { IfOk result (λ read. read ≡ text_read line.now next) }
{
    match std::str::from_utf8(line) {
        Ok(text) => {
            let text = Utf8::of(alloc, text)?;
            Ok(LineRead::Line { text, next })
        }
        Err(_) => Ok(LineRead::NotText),
    }
}

// How many of the first `most` bytes come before the first LF. So a long line costs no more than one of
// the limit.
#[tactic(auto, using(crate::proofs::Lines::length_taken, crate::proofs::Lines::length_within))]
fn searched_length(rest: &[u8], most: usize) -> usize
    ensures searched { result ≡ min most (line_length rest.now) }
    ensures within { result ≤ length rest.now }
{
    before_line_feed(front(rest, most))
}

// At most the first `most` bytes.
fn front(bytes: &[u8], most: usize) -> &[u8]
    ensures { result.now ≡ take most bytes.now }
{
    if bytes.len() > most {
        &bytes[..most]
    } else {
        bytes
    }
}

// How many bytes come before the first LF, or to the end.
#[tactic(auto, using(crate::proofs::Lines::place_some, crate::proofs::Lines::place_none))]
fn before_line_feed(bytes: &[u8]) -> usize
    ensures { result ≡ line_length bytes.now }
{
    match line_feed_place(bytes) {
        Some(place) => place,
        None => bytes.len(),
    }
}

// The place of the first LF.
fn line_feed_place(bytes: &[u8]) -> Option<usize>
    ensures { result ≡ position is_line_feed bytes.now }
{
    bytes.iter().position(|b| *b == b'\n')
}
