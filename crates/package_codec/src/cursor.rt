//! A place in bytes, from which they are decoded.

ghost use Rattle.std.specs.Prelude.{◌≡◌, ◌==◌, length, Some, None, MatchOption};
ghost use Rattle.std.specs.Int.{w32};
ghost use Rattle.package_codec.specs.Fields.{bytes_at, number_at, sized_at};

use std::marker::Model;

/// A place in bytes; contracts see the bytes from there on.
#[derive(Drop)]
pub struct Cursor<'a> {
    bytes: &'a [u8],
    at: usize,
}

impl<'a> Model for Cursor<'a> {
    ghost use Rattle.std.specs.Prelude.{List, ℕ, drop, ◌≤◌, length};

    ghost Value = { List ℕ };

    ghost view = { λ a. drop a.at a.bytes.now };

    ghost invariant = { λ a. a.at ≤ length a.bytes.now };
}

impl<'a> Cursor<'a> {
    /// All of some bytes.
    pub fn of(bytes: &'a [u8]) -> Self
        ensures { result ≡ bytes.now }
    {
        Cursor { bytes, at: 0 }
    }

    /// Whether no byte is left.
    pub fn is_empty(&self) -> bool
        ensures { result ≡ (length self.now == 0) }
    {
        self.bytes.len() - self.at == 0
    }

    /// The next `count` bytes, which the cursor passes. `None` if fewer are left; the cursor stays then.
    pub fn next(&mut self, count: usize) -> Option<&'a [u8]>
        ensures { MatchOption result (bytes_at count self.old ≡ None)
            (λ front. bytes_at count self.old ≡ Some (front.now, self.new)) }
    {
        if self.bytes.len() - self.at < count {
            return None;
        }
        let front = &self.bytes[self.at..self.at + count];
        self.at += count;
        Some(front)
    }

    /// The number in the next four bytes, the highest first, which the cursor passes. `None` if fewer are
    /// left.
    pub(crate) fn next_u32(&mut self) -> Option<u32>
        ensures { MatchOption result (number_at w32 self.old ≡ None)
            (λ number. number_at w32 self.old ≡ Some (number, self.new)) }
    {
        match self.next(4) {
            None => None,
            Some(front) => Some(u32::from_be_bytes([front[0], front[1], front[2], front[3]])),
        }
    }

    /// The next bytes, with their number in the four bytes before them, which the cursor passes. They aren't
    /// copied. `None` if fewer are left.
    pub fn next_with_length(&mut self) -> Option<&'a [u8]>
        ensures { MatchOption result (sized_at self.old ≡ None)
            (λ front. sized_at self.old ≡ Some (front.now, self.new)) }
    {
        match self.next_u32() {
            None => None,
            Some(count) => self.next(count as usize),
        }
    }
}
