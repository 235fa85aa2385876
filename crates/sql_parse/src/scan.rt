//! From the bytes of a text to its tokens.
//!
//! A token borrows its bytes from the text. Words borrow from the text in lower case, which is made once for
//! all of them.

ghost use Rattle.std.specs.Prelude.{◌≡◌, ◌∷◌, [], ◌++◌, ◌+◌, ◌-◌, ◌<◌, ◌≤◌, List, ℕ, None, false};
ghost use Rattle.std.specs.Prelude.{length, map, slice_index, slice_range};
ghost use Rattle.std.specs.Prelude.{IfOk, IfSome, IsTrue, OnOk, OnSome};
ghost use Rattle.sql_parse.specs.inner.Gives.{GivesParsed};
ghost use Rattle.sql_parse.specs.inner.Lexing.{Lexes, LexesTo, blank_at, content_at, digit_at, given_of, inside_at};
ghost use Rattle.sql_parse.specs.inner.Lexing.{letter_at, pair_at, put_at, quote_at, tokens_at};
ghost use Rattle.sql_model.specs.declared.reading.LexState.TheVariants.{Between, InNumber, InText};
ghost use Rattle.sql_model.specs.GrammarOfTokens.{is_inside};
ghost use Rattle.ldv_value.specs.Digits.{is_digit};
ghost use Rattle.sql_model.specs.TextBytes.{is_blank, is_upper, is_letter, lower_case_of};
ghost use Rattle.sql_model.specs.Tokens.{is_whole_symbol, begins_symbol, is_pair, short_symbol, with_digit};
ghost use Rattle.sql_model.specs.Tokens.{word_token};

use crate::error::ParseStop;
use crate::given::placed_token;
use crate::token::{Lexeme, Tokens, number_token, symbol_token, text_token, word_token};
use ldv_value::{Bytes, Values};
use std::alloc::{AllocError, Global};

/// The number of tokens that memory is reserved for at first.
const ROOM: usize = 24;

/// A text with its letters in lower case.
#[tactic(auto, using(crate::proofs::Cuts::lower_long))]
pub(crate) fn lower_case(alloc: Global, text: &[u8]) -> Result<Bytes, AllocError>
    ensures low { IfOk result (λ lower. lower ≡ map lower_case_of text.now) }
    ensures long { IfOk result (λ lower. length lower ≡ length text.now) }
{
    let mut lower = Bytes::with_capacity(alloc, text.len())?;
    for b in text {
        lower.push(fold(*b))?;
    }
    Ok(lower)
}

/// The tokens of a text, with the k-th parameter in place of the k-th `?`. `lower` is the text in lower case.
#[tactic(auto, using(crate::proofs::TokensFrom::given_rules))]
pub(crate) fn tokens<'a>(
    alloc: Global,
    text: &'a [u8],
    lower: &'a [u8],
    params: &'a Values,
) -> Result<Tokens<'a>, ParseStop>
    requires low { lower.now ≡ map lower_case_of text.now }
    requires long { length lower.now ≡ length text.now }
    ensures { GivesParsed result (given_of text.now params.now) }
{
    let mut tokens = Tokens::with_capacity(alloc, ROOM)?;
    let mut place = 0;
    let mut at = blanks_end(text, 0);
    'lexemes: while at < text.len() {
        let (token, end) = lexeme_at(alloc, text, lower, at)?;
        let (given, next) = placed_token(params, place, token)?;
        tokens.push(given)?;
        place = next;
        at = blanks_end(text, end);
    }
    if place == params.len() {
        Ok(tokens)
    } else {
        Err(ParseStop::Syntax)
    }
}

// The place after the blanks that stand at a place.
#[tactic(auto, using(crate::proofs::Cuts::blank_goes))]
fn blanks_end(text: &[u8], from: usize) -> usize
    requires { from ≤ length text.now }
    ensures within { result ≤ length text.now }
    ensures onward { from ≤ result }
    ensures full { result < length text.now → is_blank (slice_index text.now result) ≡ false }
    ensures read { tokens_at text.now from Between ≡ tokens_at text.now result Between }
{
    let mut at = from;
    'blanks: while is_blank_at(text, at) {
        at += 1;
    }
    at
}

// The token that begins at a place, with the place after it.
#[tactic(auto, using(crate::proofs::Cuts::no_token))]
fn lexeme_at<'a>(
    alloc: Global,
    text: &'a [u8],
    lower: &'a [u8],
    at: usize,
) -> Result<(Lexeme<'a>, usize), ParseStop>
    requires within { at < length text.now }
    requires full { is_blank (slice_index text.now at) ≡ false }
    requires low { lower.now ≡ map lower_case_of text.now }
    requires long { length lower.now ≡ length text.now }
    ensures read { LexesTo result text.now (tokens_at text.now at Between) }
    ensures on { IfOk result (λ r. at < r.1) }
    ensures within { IfOk result (λ r. r.1 ≤ length text.now) }
{
    let b = text[at];
    if is_letter(b) {
        return word(text, lower, at);
    }
    if is_digit(b) {
        return number(text, at);
    }
    if b == b'\'' {
        return quoted_text(alloc, text, at);
    }
    if begins_symbol(b) {
        return symbol(text, at);
    }
    if is_whole_symbol(b) {
        return single_symbol(text, at);
    }
    Err(ParseStop::Syntax)
}

// The word that begins at a place.
#[tactic(auto, using(crate::proofs::Cuts::word_cut))]
fn word<'a>(text: &[u8], lower: &'a [u8], at: usize) -> Result<(Lexeme<'a>, usize), ParseStop>
    requires within { at < length text.now }
    requires letter { IsTrue (is_letter (slice_index text.now at)) }
    requires low { lower.now ≡ map lower_case_of text.now }
    requires long { length lower.now ≡ length text.now }
    ensures read { LexesTo result text.now (tokens_at text.now at Between) }
    ensures on { IfOk result (λ r. at < r.1) }
    ensures within { IfOk result (λ r. r.1 ≤ length text.now) }
{
    let end = word_end(text, at);
    let token = word_token(&lower[at..end])?;
    Ok((token, end))
}

#[tactic(auto, using(crate::proofs::Cuts::word_rules))]
fn word_end(text: &[u8], at: usize) -> usize
    requires within { at < length text.now }
    requires letter { IsTrue (is_letter (slice_index text.now at)) }
    ensures on { at < result }
    ensures within { result ≤ length text.now }
    ensures read { tokens_at text.now at Between
        ≡ put_at (word_token (map lower_case_of (slice_range text.now at result))) text.now result }
{
    let mut end = at + 1;
    'letters: while is_inside_at(text, end) {
        end += 1;
    }
    end
}

// The number that begins at a place.
#[tactic(auto, using(crate::proofs::Cuts::number_rules))]
fn number<'a>(text: &[u8], at: usize) -> Result<(Lexeme<'a>, usize), ParseStop>
    requires within { at < length text.now }
    requires digit { IsTrue (is_digit (slice_index text.now at)) }
    ensures read { LexesTo result text.now (tokens_at text.now at Between) }
    ensures on { IfOk result (λ r. at < r.1) }
    ensures within { IfOk result (λ r. r.1 ≤ length text.now) }
{
    let mut number = value(text[at]);
    let mut end = at + 1;
    'digits: while is_digit_at(text, end) {
        number = with_digit(number, text[end]);
        end += 1;
    }
    let token = whole_number(text, number, end)?;
    Ok((token, end))
}

// The number of which the digits end at a place. No letter stands directly after it.
#[tactic(auto, using(crate::proofs::Cuts::number_rules))]
fn whole_number<'a>(text: &[u8], number: u64, end: usize) -> Result<Lexeme<'a>, ParseStop>
    requires { digit_at text.now end ≡ false }
    ensures { Lexes result text.now end (tokens_at text.now end (InNumber number)) }
{
    if is_letter_at(text, end) {
        return Err(ParseStop::Syntax);
    }
    let token = number_token(number)?;
    Ok(token)
}

// The text between quotes of which the first stands at a place.
#[tactic(auto, using(crate::proofs::Cuts::content_rules))]
fn quoted_text<'a>(alloc: Global, text: &[u8], at: usize) -> Result<(Lexeme<'a>, usize), ParseStop>
    requires within { at < length text.now }
    requires quote { slice_index text.now at ≡ 39 }
    ensures read { LexesTo result text.now (tokens_at text.now at Between) }
    ensures on { IfOk result (λ r. at < r.1) }
    ensures within { IfOk result (λ r. r.1 ≤ length text.now) }
{
    let mut content = Bytes::new(alloc);
    let mut end = at + 1;
    'bytes: while let Some(next) = content_next(text, end) {
        content.push(text[end])?;
        end = next;
    }
    let token = whole_text(text, content, end)?;
    Ok((token, end + 1))
}

// The place after the byte of a text's content that stands at a place, where one does. A quote in it is
// written twice.
#[tactic(auto, using(crate::proofs::Cuts::byte_rules), unfolding(crate::specs::inner::Lexing::content_at))]
fn content_next(text: &[u8], at: usize) -> Option<usize>
    ensures within { OnSome result (at < length text.now) }
    ensures onward { IfSome result (λ next. at < next) }
    ensures end { IfSome result (λ next. next ≤ length text.now) }
    ensures read { IfSome result (λ next. (front : List ℕ) → tokens_at text.now at (InText front)
        ≡ tokens_at text.now next (InText (front ++ slice_index text.now at ∷ []))) }
    ensures stops { result ≡ None → content_at text.now at ≡ false }
{
    if !is_quote_at(text, at) {
        if at < text.len() {
            return Some(at + 1);
        }
        return None;
    }
    if is_quote_at(text, at + 1) {
        return Some(at + 2);
    }
    None
}

// The text whose content ends at a place, where its last quote has to stand.
#[tactic(auto, using(crate::proofs::Cuts::content_rules))]
fn whole_text<'a>(text: &[u8], content: Bytes, end: usize) -> Result<Lexeme<'a>, ParseStop>
    requires { content_at text.now end ≡ false }
    ensures read { Lexes result text.now (end + 1) (tokens_at text.now end (InText content)) }
    ensures within { OnOk result (end < length text.now) }
{
    if end >= text.len() {
        return Err(ParseStop::Syntax);
    }
    let token = text_token(content)?;
    Ok(token)
}

// The symbol of one byte or two of which the first stands at a place.
#[tactic(auto, using(crate::proofs::Cuts::symbol_rules))]
fn symbol<'a>(text: &'a [u8], at: usize) -> Result<(Lexeme<'a>, usize), ParseStop>
    requires within { at < length text.now }
    requires first { IsTrue (begins_symbol (slice_index text.now at)) }
    ensures read { LexesTo result text.now (tokens_at text.now at Between) }
    ensures on { IfOk result (λ r. at < r.1) }
    ensures within { IfOk result (λ r. r.1 ≤ length text.now) }
{
    if is_pair_at(text, at) {
        let token = symbol_token(&text[at..at + 2])?;
        return Ok((token, at + 2));
    }
    let token = short_symbol(text, at)?;
    Ok((token, at + 1))
}

#[tactic(auto, using(crate::proofs::Cuts::piece_one))]
fn short_symbol<'a>(text: &'a [u8], at: usize) -> Result<Lexeme<'a>, ParseStop>
    requires { at < length text.now }
    ensures { GivesParsed result (short_symbol (slice_index text.now at)) }
{
    if text[at] == b'!' {
        return Err(ParseStop::Syntax);
    }
    symbol_token(&text[at..at + 1])
}

// The symbol of one byte that stands at a place.
#[tactic(auto, using(crate::proofs::Cuts::symbol_rules))]
fn single_symbol<'a>(text: &'a [u8], at: usize) -> Result<(Lexeme<'a>, usize), ParseStop>
    requires within { at < length text.now }
    requires whole { IsTrue (is_whole_symbol (slice_index text.now at)) }
    ensures read { LexesTo result text.now (tokens_at text.now at Between) }
    ensures on { IfOk result (λ r. at < r.1) }
    ensures within { IfOk result (λ r. r.1 ≤ length text.now) }
{
    let token = symbol_token(&text[at..at + 1])?;
    Ok((token, at + 1))
}

#[tactic(auto, unfolding(crate::specs::inner::Lexing::blank_at))]
fn is_blank_at(text: &[u8], at: usize) -> bool
    ensures test { result ≡ blank_at text.now at }
    ensures within { IsTrue result → at < length text.now }
    ensures full { result ≡ false → at < length text.now → is_blank (slice_index text.now at) ≡ false }
{
    at < text.len() && is_blank(text[at])
}

#[tactic(auto, unfolding(crate::specs::inner::Lexing::inside_at))]
fn is_inside_at(text: &[u8], at: usize) -> bool
    ensures test { result ≡ inside_at text.now at }
    ensures within { IsTrue result → at < length text.now }
{
    at < text.len() && is_inside(text[at])
}

#[tactic(auto, unfolding(crate::specs::inner::Lexing::digit_at))]
fn is_digit_at(text: &[u8], at: usize) -> bool
    ensures test { result ≡ digit_at text.now at }
    ensures within { IsTrue result → at < length text.now }
    ensures digit { IsTrue result → IsTrue (is_digit (slice_index text.now at)) }
{
    at < text.len() && is_digit(text[at])
}

#[tactic(auto, unfolding(crate::specs::inner::Lexing::letter_at))]
fn is_letter_at(text: &[u8], at: usize) -> bool
    ensures { result ≡ letter_at text.now at }
{
    at < text.len() && is_letter(text[at])
}

#[tactic(auto, unfolding(crate::specs::inner::Lexing::quote_at))]
fn is_quote_at(text: &[u8], at: usize) -> bool
    ensures test { result ≡ quote_at text.now at }
    ensures within { IsTrue result → at < length text.now }
{
    at < text.len() && text[at] == b'\''
}

// Whether the byte at a place and the one after it are one symbol.
#[tactic(auto, unfolding(crate::specs::inner::Lexing::pair_at))]
fn is_pair_at(text: &[u8], at: usize) -> bool
    requires { at < length text.now }
    ensures test { result ≡ pair_at text.now at }
    ensures within { IsTrue result → at + 1 < length text.now }
{
    at + 1 < text.len() && is_pair(text[at], text[at + 1])
}

fn value(b: u8) -> u64
    requires { IsTrue (is_digit b) }
    ensures { result ≡ b - 48 }
{
    (b - b'0') as u64
}

fn with_digit(number: u64, b: u8) -> u64
    requires { IsTrue (is_digit b) }
    ensures { result ≡ with_digit number b }
{
    number.saturating_mul(10).saturating_add(value(b))
}

fn is_blank(b: u8) -> bool
    ensures { result ≡ is_blank b }
{
    b == b' ' || b == b'\t' || b == b'\n' || b == b'\r'
}

fn is_digit(b: u8) -> bool
    ensures { result ≡ is_digit b }
{
    b'0' <= b && b <= b'9'
}

fn is_upper(b: u8) -> bool
    ensures { result ≡ is_upper b }
{
    b'A' <= b && b <= b'Z'
}

fn is_letter(b: u8) -> bool
    ensures { result ≡ is_letter b }
{
    is_upper(b) || b'a' <= b && b <= b'z' || b == b'_'
}

fn is_inside(b: u8) -> bool
    ensures { result ≡ is_inside b }
{
    is_letter(b) || is_digit(b)
}

fn fold(b: u8) -> u8
    ensures { result ≡ lower_case_of b }
{
    if is_upper(b) { b + 32 } else { b }
}

fn is_whole_symbol(b: u8) -> bool
    ensures { result ≡ is_whole_symbol b }
{
    b == b'?'
        || b == b'*'
        || b == b'+'
        || b == b'-'
        || b == b'='
        || b == b'('
        || b == b')'
        || b == b','
        || b == b'.'
        || b == b';'
}

fn begins_symbol(b: u8) -> bool
    ensures { result ≡ begins_symbol b }
{
    b == b'<' || b == b'>' || b == b'!'
}

fn is_pair(a: u8, b: u8) -> bool
    ensures { result ≡ is_pair a b }
{
    b == b'=' || a == b'<' && b == b'>'
}
