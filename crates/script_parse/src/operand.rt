//! Names and operands among the tokens of a line.

ghost use Rattle.std.specs.Prelude.{◌≡◌, codes};
ghost use Rattle.script_parse.specs.inner.Gives.{GivesLine};
ghost use Rattle.script_parse.specs.Names.{is_reserved, name_test};
ghost use Rattle.script_parse.specs.Forms.{each, is_word, name_in, name_of, word_operand, operand_of};
ghost use Rattle.script_parse.specs.Forms.{operands_of, operands_from_one, names_from_one};

use crate::line_stop::LineStop;
use crate::script::{Operand, Operands};
use crate::token::Token;
use ldv_value::{MAX_OPERANDS, Names, Utf8, Value, is_word};
use std::alloc::Global;

/// Whether a token is this word.
pub(crate) fn token_is(token: &Token, word: &str) -> bool
    ensures { result ≡ is_word word.now token.now }
{
    match token {
        Token::Word(text) => text.is_text(word),
        Token::Number(_) => false,
        Token::Quoted(_) => false,
    }
}

/// Whether a text is a name.
pub(crate) fn is_name(text: &str) -> bool
    ensures { result ≡ name_test text.now }
{
    is_word(text) && !is_reserved(text)
}

fn is_reserved(text: &str) -> bool
    ensures { result ≡ is_reserved text.now }
{
    text == "null" || text == "else" || text == "int"
}

fn name_in(word: &Utf8) -> Result<Utf8, LineStop>
    ensures { GivesLine result (name_in word.now) }
{
    if !is_name(word.as_str()) {
        return Err(LineStop::Malformed);
    }
    Ok(word.copy()?)
}

/// The name that a token is.
pub(crate) fn name(token: &Token) -> Result<Utf8, LineStop>
    ensures { GivesLine result (name_of token.now) }
{
    match token {
        Token::Word(word) => name_in(word),
        Token::Number(_) => Err(LineStop::Malformed),
        Token::Quoted(_) => Err(LineStop::Malformed),
    }
}

fn word_operand(word: &Utf8) -> Result<Operand, LineStop>
    ensures { GivesLine result (word_operand word.now) }
{
    if word.is_text("null") {
        return Ok(Operand::Constant(Value::Null));
    }
    let name = name_in(word)?;
    Ok(Operand::Variable(name))
}

/// The operand that a token is.
pub(crate) fn operand(token: &Token) -> Result<Operand, LineStop>
    ensures { GivesLine result (operand_of token.now) }
{
    match token {
        Token::Word(word) => word_operand(word),
        Token::Number(number) => Ok(Operand::Constant(Value::Int(*number))),
        Token::Quoted(text) => Ok(Operand::Constant(Value::Text(text.copy()?))),
    }
}

#[tactic(auto, using(crate::proofs::Each::each_rules))]
fn all_operands(alloc: Global, tokens: &[Token]) -> Result<Operands, LineStop>
    ensures { GivesLine result (each operand_of tokens.now) }
{
    let mut operands = Operands::new(alloc);
    for token in tokens {
        let operand = operand(token)?;
        operands.push(operand)?;
    }
    Ok(operands)
}

#[tactic(auto, using(crate::proofs::Each::each_rules))]
fn all_names(alloc: Global, tokens: &[Token]) -> Result<Names, LineStop>
    ensures { GivesLine result (each name_of tokens.now) }
{
    let mut names = Names::new(alloc);
    for token in tokens {
        let name = name(token)?;
        names.push(name)?;
    }
    Ok(names)
}

/// At most 255 operands.
pub(crate) fn operands(alloc: Global, tokens: &[Token]) -> Result<Operands, LineStop>
    ensures { GivesLine result (operands_of tokens.now) }
{
    if tokens.len() > MAX_OPERANDS {
        return Err(LineStop::Malformed);
    }
    all_operands(alloc, tokens)
}

/// One operand and at most 255 more.
pub(crate) fn operands_from_one(alloc: Global, tokens: &[Token]) -> Result<Operands, LineStop>
    ensures { GivesLine result (operands_from_one tokens.now) }
{
    match tokens {
        [] => Err(LineStop::Malformed),
        [_, more @ ..] => {
            if more.len() > MAX_OPERANDS {
                return Err(LineStop::Malformed);
            }
            all_operands(alloc, tokens)
        }
    }
}

/// One name and at most 255 more.
pub(crate) fn names_from_one(alloc: Global, tokens: &[Token]) -> Result<Names, LineStop>
    ensures { GivesLine result (names_from_one tokens.now) }
{
    match tokens {
        [] => Err(LineStop::Malformed),
        [_, more @ ..] => {
            if more.len() > MAX_OPERANDS {
                return Err(LineStop::Malformed);
            }
            all_names(alloc, tokens)
        }
    }
}
