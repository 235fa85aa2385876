//! Infix operators and IS, and how strongly they bind.

ghost use Rattle.std.specs.Prelude.{◌≡◌, ◌∷◌, List};
ghost use Rattle.sql_model.specs.declared.token.Token.{Token};
ghost use Rattle.sql_model.specs.Levels.{operator_level, operator_left, right_of};
ghost use Rattle.sql_model.specs.Operators.{comparison_of, comparison_infix, infix_in, infix_of, level_of, left_of};
ghost use Rattle.sql_model.specs.Operators.{may_join, joins};

use crate::reader::Reader;
use crate::token::{Lent, Lexeme};
use ldv_value::Cmp;
use sql_model::{Infix, Operator};

/// The next infix operator, if it binds at least as tightly as `least` and can follow an operand of `level`.
pub(crate) fn joins(reader: &Reader, least: u8, level: u8) -> Option<Infix>
    ensures { result ≡ joins least level reader.now }
{
    let sign = next_infix(reader)?;
    if may_join(least, level, sign) {
        Some(sign)
    } else {
        None
    }
}

fn next_infix(reader: &Reader) -> Option<Infix>
    ensures { result ≡ infix_of reader.now }
{
    match reader.peek() {
        None => None,
        Some(token) => infix_at(token),
    }
}

// What a token is between operands.
fn infix_at(token: &Lexeme) -> Option<Infix>
    ensures { (more : List Token) → result ≡ infix_of (token.now ∷ more) }
{
    match token.as_lent() {
        Lent::Word(word) => infix_in(*word),
        Lent::Number(_) => None,
        Lent::Quoted(_) => None,
        Lent::Given(_) => None,
    }
}

fn infix_in(word: &str) -> Option<Infix>
    ensures { result ≡ infix_in word.now }
{
    if word == "or" {
        Some(Infix::Both(Operator::Or))
    } else if word == "and" {
        Some(Infix::Both(Operator::And))
    } else if word == "is" {
        Some(Infix::IsNull)
    } else if word == "+" {
        Some(Infix::Both(Operator::Add))
    } else if word == "-" {
        Some(Infix::Both(Operator::Subtract))
    } else if word == "*" {
        Some(Infix::Both(Operator::Multiply))
    } else {
        comparison_infix(word)
    }
}

fn comparison_infix(word: &str) -> Option<Infix>
    ensures { result ≡ comparison_infix word.now }
{
    let cmp = comparison(word)?;
    Some(Infix::Both(Operator::Compare(cmp)))
}

fn comparison(word: &str) -> Option<Cmp>
    ensures { result ≡ comparison_of word.now }
{
    if word == "=" {
        Some(Cmp::Eq)
    } else if word == "<>" {
        Some(Cmp::Ne)
    } else if word == "!=" {
        Some(Cmp::Ne)
    } else if word == "<" {
        Some(Cmp::Lt)
    } else if word == "<=" {
        Some(Cmp::Le)
    } else if word == ">" {
        Some(Cmp::Gt)
    } else if word == ">=" {
        Some(Cmp::Ge)
    } else {
        None
    }
}

fn may_join(least: u8, level: u8, sign: Infix) -> bool
    ensures { result ≡ may_join least level sign }
{
    least <= level_of(sign) && left_of(sign) <= level
}

/// The level of an expression with an infix operator or IS.
pub(crate) fn level_of(sign: Infix) -> u8
    ensures { result ≡ level_of sign }
{
    match sign {
        Infix::Both(operator) => operator_level(operator),
        Infix::IsNull => 4,
    }
}

/// The level of an expression with an operator.
pub(crate) fn operator_level(operator: Operator) -> u8
    ensures { result ≡ operator_level operator }
{
    match operator {
        Operator::Or => 1,
        Operator::And => 2,
        Operator::Compare(_) => 4,
        Operator::Add => 5,
        Operator::Subtract => 5,
        Operator::Multiply => 6,
    }
}

// The least level of the operand before a sign.
fn left_of(sign: Infix) -> u8
    ensures { result ≡ left_of sign }
{
    match sign {
        Infix::Both(operator) => operator_left(operator),
        Infix::IsNull => 5,
    }
}

fn operator_left(operator: Operator) -> u8
    ensures { result ≡ operator_left operator }
{
    match operator {
        Operator::Or => 1,
        Operator::And => 2,
        Operator::Compare(_) => 5,
        Operator::Add => 5,
        Operator::Subtract => 5,
        Operator::Multiply => 6,
    }
}

/// The least level of an operator's right operand.
pub(crate) fn right_of(operator: Operator) -> u8
    ensures { result ≡ right_of operator }
{
    match operator {
        Operator::Or => 2,
        Operator::And => 3,
        Operator::Compare(_) => 5,
        Operator::Add => 6,
        Operator::Subtract => 6,
        Operator::Multiply => 7,
    }
}
