//! The rules for paths and for words.

ghost use Rattle.std.specs.Prelude.{◌≡◌};
ghost use Rattle.std.specs.List.{list_all};
ghost use Rattle.ldv_value.specs.Names.{path_test, word_test, is_path_byte, is_word_start, is_word_byte};

use crate::limits::{NAME_LIMIT, PATH_LIMIT};

/// Whether a text is a path: 1 to `PATH_LIMIT` bytes, none of them below 32 or equal to 127.
pub fn is_path(text: &str) -> bool
    ensures { result ≡ path_test text.now }
{
    1 <= text.len() && text.len() <= PATH_LIMIT && path_bytes(text.as_bytes())
}

fn path_bytes(bytes: &[u8]) -> bool
    ensures { result ≡ list_all is_path_byte bytes.now }
{
    bytes.iter().all(|b| path_byte(*b))
}

fn path_byte(b: u8) -> bool
    ensures { result ≡ is_path_byte b }
{
    32 <= b && b != 127
}

/// Whether a text is a lower-case word of 1 to `NAME_LIMIT` bytes. The first is a letter from `a` to `z` or
/// `_`, and the others are such letters, digits or `_`.
pub fn is_word(text: &str) -> bool
    ensures { result ≡ word_test text.now }
{
    match text.as_bytes() {
        [] => false,
        [first, rest @ ..] => word_start(*first) && rest.len() < NAME_LIMIT && word_bytes(rest),
    }
}

fn word_start(b: u8) -> bool
    ensures { result ≡ is_word_start b }
{
    b'a' <= b && b <= b'z' || b == b'_'
}

fn word_bytes(bytes: &[u8]) -> bool
    ensures { result ≡ list_all is_word_byte bytes.now }
{
    bytes.iter().all(|b| word_byte(*b))
}

fn word_byte(b: u8) -> bool
    ensures { result ≡ is_word_byte b }
{
    word_start(b) || b'0' <= b && b <= b'9'
}
