//! From the bytes of a line to its tokens.

ghost use Rattle.std.specs.Prelude.{◌≡◌};
ghost use Rattle.script_parse.specs.inner.Gives.{GivesLine};
ghost use Rattle.script_parse.specs.Tokens.{is_blank, escape_of, step_between, step_in_word, step_in_text};
ghost use Rattle.script_parse.specs.Tokens.{step_escaped, step_closed, step, finish, tokens_of};

use crate::line_stop::LineStop;
use crate::token::{Token, Tokens, text_token, word_token};
use ldv_value::Bytes;
use std::alloc::Global;

/// The state of the scanner of a line.
#[derive(Drop)]
pub(crate) enum LexState {
    /// Between two tokens, or before the first one.
    Between,
    /// In a token without quotes, of which these are the bytes.
    InWord(Bytes),
    /// In a text, of which these are the bytes with the escapes read.
    InText(Bytes),
    /// In a text, after a backslash.
    Escaped(Bytes),
    /// After the closing quote of a text.
    Closed(Token),
}

/// The tokens of a line.
pub(crate) fn tokens(alloc: Global, line: &[u8]) -> Result<Tokens, LineStop>
    ensures { GivesLine result (tokens_of line.now) }
{
    let mut tokens = Tokens::new(alloc);
    let mut state = LexState::Between;
    for b in line {
        let (next, token) = step(alloc, state, *b)?;
        tokens.push_some(token)?;
        state = next;
    }
    let token = finish(state)?;
    tokens.push_some(token)?;
    Ok(tokens)
}

// The state after a byte, and the token that the byte ends, if it ends one.
fn step(alloc: Global, state: LexState, b: u8) -> Result<(LexState, Option<Token>), LineStop>
    ensures { GivesLine result (step state b) }
{
    match state {
        LexState::Between => between(alloc, b),
        LexState::InWord(word) => in_word(word, b),
        LexState::InText(text) => in_text(text, b),
        LexState::Escaped(text) => escape_byte(text, b),
        LexState::Closed(token) => close_token(token, b),
    }
}

fn between(alloc: Global, b: u8) -> Result<(LexState, Option<Token>), LineStop>
    ensures { GivesLine result (step_between b) }
{
    if is_blank(b) {
        return Ok((LexState::Between, None));
    }
    let mut bytes = Bytes::new(alloc);
    if b == b'"' {
        return Ok((LexState::InText(bytes), None));
    }
    bytes.push(b)?;
    Ok((LexState::InWord(bytes), None))
}

fn in_word(mut word: Bytes, b: u8) -> Result<(LexState, Option<Token>), LineStop>
    ensures { GivesLine result (step_in_word word b) }
{
    if is_blank(b) {
        let token = word_token(word)?;
        return Ok((LexState::Between, Some(token)));
    }
    word.push(b)?;
    Ok((LexState::InWord(word), None))
}

fn in_text(mut text: Bytes, b: u8) -> Result<(LexState, Option<Token>), LineStop>
    ensures { GivesLine result (step_in_text text b) }
{
    if b == b'"' {
        let token = text_token(text)?;
        return Ok((LexState::Closed(token), None));
    }
    if b == b'\\' {
        return Ok((LexState::Escaped(text), None));
    }
    text.push(b)?;
    Ok((LexState::InText(text), None))
}

fn escape_byte(mut text: Bytes, b: u8) -> Result<(LexState, Option<Token>), LineStop>
    ensures { GivesLine result (step_escaped text b) }
{
    let Some(meant) = escape(b) else {
        return Err(LineStop::Malformed);
    };
    text.push(meant)?;
    Ok((LexState::InText(text), None))
}

fn close_token(token: Token, b: u8) -> Result<(LexState, Option<Token>), LineStop>
    ensures { GivesLine result (step_closed token b) }
{
    if is_blank(b) {
        Ok((LexState::Between, Some(token)))
    } else {
        Err(LineStop::Malformed)
    }
}

// The token that the end of the line ends, if it ends one.
fn finish(state: LexState) -> Result<Option<Token>, LineStop>
    ensures { GivesLine result (finish state) }
{
    match state {
        LexState::Between => Ok(None),
        LexState::InWord(word) => {
            let token = word_token(word)?;
            Ok(Some(token))
        }
        LexState::InText(_) => Err(LineStop::Malformed),
        LexState::Escaped(_) => Err(LineStop::Malformed),
        LexState::Closed(token) => Ok(Some(token)),
    }
}

/// The byte that a letter after a backslash means.
fn escape(letter: u8) -> Option<u8>
    ensures { result ≡ escape_of letter }
{
    match letter {
        b'n' => Some(b'\n'),
        b't' => Some(b'\t'),
        b'"' => Some(b'"'),
        b'\\' => Some(b'\\'),
        _ => None,
    }
}

/// Whether a byte separates tokens.
pub(crate) fn is_blank(b: u8) -> bool
    ensures { result ≡ is_blank b }
{
    b == b' ' || b == b'\t'
}
