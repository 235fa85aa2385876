//! Reading from the front of tokens.

ghost use Rattle.std.specs.Prelude.{◌≡◌, ◌∷◌, [], length, MatchOption};
ghost use Rattle.sql_parse.specs.inner.Gives.{GivesParsed, ReadsPart, Passes};
ghost use Rattle.sql_model.specs.Reader.{is_word, starts, tail, tokens_past, after_word, reads_token, name_in};
ghost use Rattle.sql_model.specs.Reader.{name_of, reads_name};

use crate::error::ParseStop;
use crate::token::{Lent, Lexeme, Tokens};
use ldv_value::Utf8;
use sql_model::is_sql_name;
use std::alloc::Global;
use std::marker::Model;

/// Tokens that are read from the front. Contracts see those that are left.
#[derive(Drop)]
pub(crate) struct Reader<'a> {
    tokens: Tokens<'a>,
    place: usize,
}

impl<'a> Model for Reader<'a> {
    ghost use Rattle.std.specs.Prelude.{List, drop};
    ghost use Rattle.sql_model.specs.declared.token.Token.{Token};

    ghost Value = { List Token };

    ghost view = { λ a. drop a.place a.tokens };
}

impl<'a> Reader<'a> {
    /// A reader of tokens.
    pub fn new(tokens: Tokens<'a>) -> Self
        ensures { result ≡ tokens.entry }
    {
        Reader { tokens, place: 0 }
    }

    /// The number of tokens that are left.
    pub fn len(&self) -> usize
        ensures { result ≡ length self.now }
    {
        if self.place < self.tokens.len() {
            self.tokens.len() - self.place
        } else {
            0
        }
    }

    /// The next token, which isn't consumed; `None` if none is left.
    pub fn peek(&self) -> Option<&Lexeme<'a>>
        ensures { MatchOption result (self.now ≡ []) (λ t. self.now ≡ t.now ∷ tail self.now) }
    {
        self.tokens.get(self.place)
    }

    /// Whether the next token is this word or symbol.
    pub fn starts(&self, text: &str) -> bool
        ensures { result ≡ starts text.now self.now }
    {
        match self.peek() {
            None => false,
            Some(token) => is_word(token, text),
        }
    }

    /// Skips the next token, if there is one.
    pub fn skip(&mut self)
        ensures { self.new ≡ tail self.old }
    {
        if self.tokens.get(self.place).is_some() {
            self.place += 1;
        }
    }

    /// Skips the next token if it is this word or symbol, and returns whether it is.
    pub fn pass(&mut self, text: &str) -> bool
        ensures test { result ≡ starts text.now self.old }
        ensures rest { self.new ≡ tokens_past text.now self.old }
    {
        if self.starts(text) {
            self.skip();
            true
        } else {
            false
        }
    }

    /// Skips the next token; `Syntax` if it isn't this word or symbol.
    pub fn expect(&mut self, text: &str) -> Result<(), ParseStop>
        ensures { Passes result self.new (after_word text.now self.old) }
    {
        if self.pass(text) {
            Ok(())
        } else {
            Err(ParseStop::Syntax)
        }
    }

    /// Takes the next token; `Syntax` if none is left.
    pub fn take_token(&mut self) -> Result<Lexeme<'a>, ParseStop>
        ensures { ReadsPart result self.new (reads_token self.old) }
    {
        match self.tokens.get(self.place) {
            None => Err(ParseStop::Syntax),
            Some(token) => {
                let token = token.copy()?;
                self.place += 1;
                Ok(token)
            }
        }
    }

    /// Takes the next token as a name; `Syntax` if it isn't one.
    pub fn take_name(&mut self, alloc: Global) -> Result<Utf8, ParseStop>
        ensures { ReadsPart result self.new (reads_name self.old) }
    {
        let token = self.take_token()?;
        name_of(alloc, token)
    }
}

/// Whether a token is this word or symbol.
pub(crate) fn is_word(token: &Lexeme, text: &str) -> bool
    ensures { result ≡ is_word text.now token.now }
{
    match token.as_lent() {
        Lent::Word(word) => *word == text,
        Lent::Number(_) => false,
        Lent::Quoted(_) => false,
        Lent::Given(_) => false,
    }
}

/// A word as a name; `Syntax` if it can't be one.
pub(crate) fn name_in(alloc: Global, word: &str) -> Result<Utf8, ParseStop>
    ensures { GivesParsed result (name_in word.now) }
{
    if !is_sql_name(word) {
        return Err(ParseStop::Syntax);
    }
    Ok(Utf8::of(alloc, word)?)
}

fn name_of(alloc: Global, token: Lexeme) -> Result<Utf8, ParseStop>
    ensures { GivesParsed result (name_of token.entry) }
{
    match token.into_lent() {
        Lent::Word(word) => name_in(alloc, word),
        Lent::Number(_) => Err(ParseStop::Syntax),
        Lent::Quoted(_) => Err(ParseStop::Syntax),
        Lent::Given(_) => Err(ParseStop::Syntax),
    }
}
