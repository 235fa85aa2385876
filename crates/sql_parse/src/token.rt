//! Tokens of a text, which borrow from it.

ghost use Rattle.std.specs.Prelude.{◌≡◌, IfOk};
ghost use Rattle.std.specs.Str.{is_utf8};
ghost use Rattle.ldv_value.specs.Texts.{text_of};
ghost use Rattle.sql_parse.specs.inner.Gives.{GivesParsed};
ghost use Rattle.sql_parse.specs.inner.LentTokens.{token_of};
ghost use Rattle.sql_model.specs.Tokens.{word_token, number_token, text_token, symbol_token};

use crate::error::ParseStop;
use ldv_value::{Bytes, List, NAME_LIMIT, TEXT_LIMIT, Utf8, Value};
use std::alloc::AllocError;
use std::marker::Model;

/// The content of a token. Words and the values of parameters are borrowed, not copied.
#[derive(Drop)]
pub(crate) enum Lent<'a> {
    /// A word, its letters in lower case, or a symbol.
    Word(&'a str),
    /// A number, 0 to 2^63 - 1.
    Number(i64),
    /// The content of a text between quotes.
    Quoted(Utf8),
    /// The value of a parameter, in place of its `?`.
    Given(&'a Value),
}

/// A token, which may borrow its content. Contracts see the `Token` of `sql_model`.
#[derive(Drop)]
pub(crate) struct Lexeme<'a> {
    lent: Lent<'a>,
}

impl<'a> Model for Lexeme<'a> {
    ghost use Rattle.sql_model.specs.declared.token.Token.{Token};
    ghost use Rattle.sql_parse.specs.inner.LentTokens.{token_of};

    ghost Value = { Token };

    ghost view = { λ a. token_of a.lent };
}

/// Tokens, in the order of the text.
pub(crate) type Tokens<'a> = List<Lexeme<'a>>;

impl<'a> Lexeme<'a> {
    /// The token with this content.
    pub fn of(lent: Lent<'a>) -> Lexeme<'a>
        ensures { result ≡ token_of lent.entry }
    {
        Lexeme { lent }
    }

    /// The content of the token.
    pub fn as_lent(&self) -> &Lent<'a>
        ensures { token_of result.now ≡ self.now }
    {
        &self.lent
    }

    /// The content of the token, moved out of it.
    pub fn into_lent(self) -> Lent<'a>
        ensures { token_of result ≡ self.entry }
    {
        let Lexeme { lent } = self;
        lent
    }

    /// A copy, which borrows from the same text and parameters.
    pub fn copy(&self) -> Result<Lexeme<'a>, AllocError>
        ensures { IfOk result (λ copy. copy ≡ self.now) }
    {
        match &self.lent {
            Lent::Word(word) => Ok(Lexeme::of(Lent::Word(*word))),
            Lent::Number(number) => Ok(Lexeme::of(Lent::Number(*number))),
            Lent::Quoted(text) => Ok(Lexeme::of(Lent::Quoted(text.copy()?))),
            Lent::Given(value) => Ok(Lexeme::of(Lent::Given(*value))),
        }
    }
}

/// The token of a word's bytes; `Syntax` if they are more than `NAME_LIMIT` or not UTF-8.
pub(crate) fn word_token<'a>(bytes: &'a [u8]) -> Result<Lexeme<'a>, ParseStop>
    ensures { GivesParsed result (word_token bytes.now) }
{
    if bytes.len() > NAME_LIMIT {
        return Err(ParseStop::Syntax);
    }
    symbol_token(bytes)
}

/// The token of a number's value; `Syntax` if it is above 2^63 - 1.
pub(crate) fn number_token<'a>(number: u64) -> Result<Lexeme<'a>, ParseStop>
    ensures { GivesParsed result (number_token number) }
{
    if number < 1 << 63 {
        Ok(Lexeme::of(Lent::Number(number as i64)))
    } else {
        Err(ParseStop::Syntax)
    }
}

/// The token of the bytes between quotes; `Syntax` if they are more than `TEXT_LIMIT` or not UTF-8.
pub(crate) fn text_token<'a>(bytes: Bytes) -> Result<Lexeme<'a>, ParseStop>
    ensures { GivesParsed result (text_token bytes) }
{
    if bytes.len() > TEXT_LIMIT {
        return Err(ParseStop::Syntax);
    }
    let text = text(bytes)?;
    Ok(Lexeme::of(Lent::Quoted(text)))
}

/// The token of a symbol's bytes; `Syntax` if they aren't UTF-8.
#[tactic(auto, using(crate::proofs::Spelled::symbol_rules))]
pub(crate) fn symbol_token<'a>(bytes: &'a [u8]) -> Result<Lexeme<'a>, ParseStop>
    ensures { GivesParsed result (symbol_token bytes.now) }
{
    match str::from_utf8(bytes) {
        Ok(word) => Ok(Lexeme::of(Lent::Word(word))),
        Err(_) => Err(ParseStop::Syntax),
    }
}

fn text(bytes: Bytes) -> Result<Utf8, ParseStop>
    ensures { GivesParsed result (text_of bytes) }
{
    match Utf8::of_utf8(bytes) {
        Some(text) => Ok(text),
        None => Err(ParseStop::Syntax),
    }
}
