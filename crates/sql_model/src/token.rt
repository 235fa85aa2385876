//! Tokens of a statement's text.

use ldv_value::{CopyItem, Utf8, Value};
use std::alloc::{AllocError, Global};

/// A token of a text.
#[derive(Drop)]
pub enum Token {
    /// A word, its letters in lower case, or a symbol.
    Word(Utf8),
    /// A number, 0 to 2^63 - 1.
    Number(i64),
    /// A text between quotes: its content, at most 65,536 bytes, with one quote for each doubled quote.
    Quoted(Utf8),
    /// The value of a parameter, in place of its `?`.
    Given(Value),
}

impl CopyItem for Token {
    fn copy_item(&self, alloc: Global) -> Result<Self, AllocError> {
        match self {
            Token::Word(word) => Ok(Token::Word(word.copy()?)),
            Token::Number(number) => Ok(Token::Number(*number)),
            Token::Quoted(text) => Ok(Token::Quoted(text.copy()?)),
            Token::Given(value) => Ok(Token::Given(value.copy_item(alloc)?)),
        }
    }
}
