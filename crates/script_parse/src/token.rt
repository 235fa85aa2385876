//! Tokens of a line.

ghost use Rattle.std.specs.Prelude.{◌≡◌, OnErr, OnOk};
ghost use Rattle.std.specs.Str.{is_utf8};
ghost use Rattle.script_parse.specs.inner.Gives.{GivesLine};
ghost use Rattle.ldv_value.specs.Texts.{text_of};
ghost use Rattle.script_parse.specs.Tokens.{word_token, text_token};

use crate::line_stop::LineStop;
use crate::number::number;
use ldv_value::{Bytes, List, TEXT_LIMIT, Utf8};

/// A token of a line.
#[derive(Drop)]
pub enum Token {
    /// A token without quotes that isn't a number.
    Word(Utf8),
    /// A number.
    Number(i64),
    /// A token in quotes: its text with the escapes read.
    Quoted(Utf8),
}

/// Tokens, in the order of the line.
pub(crate) type Tokens = List<Token>;

/// The token of bytes without quotes.
pub(crate) fn word_token(bytes: Bytes) -> Result<Token, LineStop>
    ensures { GivesLine result (word_token bytes) }
{
    match number(bytes.as_slice()) {
        Some(number) => Ok(Token::Number(number)),
        None => {
            let text = text(bytes)?;
            Ok(Token::Word(text))
        }
    }
}

/// The token of bytes in quotes, with their escapes read.
pub(crate) fn text_token(bytes: Bytes) -> Result<Token, LineStop>
    ensures { GivesLine result (text_token bytes) }
{
    if bytes.len() > TEXT_LIMIT {
        return Err(LineStop::Malformed);
    }
    let text = text(bytes)?;
    Ok(Token::Quoted(text))
}

fn text(bytes: Bytes) -> Result<Utf8, LineStop>
    ensures { GivesLine result (text_of bytes) }
{
    match Utf8::of_utf8(bytes) {
        Some(text) => Ok(text),
        None => Err(LineStop::Malformed),
    }
}
