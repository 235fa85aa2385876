//! Beginnings of operands.

ghost use Rattle.std.specs.Prelude.{◌≡◌};
ghost use Rattle.sql_parse.specs.inner.Gives.{GivesParsed, ReadsPart};
ghost use Rattle.sql_model.specs.Expressions.{negation, fold_opening, count_inside, count_opening};
ghost use Rattle.sql_model.specs.Expressions.{column_opening, word_opening, opens, opening, inside_level};

use crate::column::column_after;
use crate::error::ParseStop;
use crate::reader::{Reader, name_in};
use crate::token::{Lent, Lexeme};
use ldv_value::{CopyItem, Value};
use sql_model::{Expr, Fold, Opening, Prefix};
use std::alloc::Global;

/// Reads the beginning of an operand whose level is at least `least`.
pub(crate) fn read_opening(
    alloc: Global,
    reader: &mut Reader,
    least: u8,
) -> Result<Opening, ParseStop>
    ensures { ReadsPart result reader.new (opening least reader.old) }
{
    let token = reader.take_token()?;
    opens(alloc, reader, least, token)
}

// The beginning that a token is, of an operand of at least a level.
fn opens(alloc: Global, reader: &mut Reader, least: u8, token: Lexeme) -> Result<Opening, ParseStop>
    ensures { ReadsPart result reader.new (opens least token.entry reader.old) }
{
    match token.into_lent() {
        Lent::Word(word) => word_opening(alloc, reader, least, word),
        Lent::Number(number) => Ok(Opening::Leaf(Expr::Constant(Value::Int(number)))),
        Lent::Quoted(text) => Ok(Opening::Leaf(Expr::Constant(Value::Text(text)))),
        Lent::Given(value) => {
            let value = value.copy_item(alloc)?;
            Ok(Opening::Leaf(Expr::Constant(value)))
        }
    }
}

fn word_opening(
    alloc: Global,
    reader: &mut Reader,
    least: u8,
    word: &str,
) -> Result<Opening, ParseStop>
    ensures { ReadsPart result reader.new (word_opening least word.now reader.old) }
{
    if word == "not" {
        let opening = negation(least)?;
        Ok(opening)
    } else if word == "-" {
        Ok(Opening::Nested(Prefix::Minus))
    } else if word == "(" {
        Ok(Opening::Nested(Prefix::Bracket))
    } else if word == "null" {
        Ok(Opening::Leaf(Expr::Constant(Value::Null)))
    } else if word == "count" {
        count_opening(reader)
    } else if word == "sum" {
        fold_opening(reader, Fold::Sum)
    } else if word == "min" {
        fold_opening(reader, Fold::Min)
    } else if word == "max" {
        fold_opening(reader, Fold::Max)
    } else {
        column_opening(alloc, reader, word)
    }
}

fn negation(least: u8) -> Result<Opening, ParseStop>
    ensures { GivesParsed result (negation least) }
{
    if least <= 3 {
        Ok(Opening::Nested(Prefix::Not))
    } else {
        Err(ParseStop::Syntax)
    }
}

fn fold_opening(reader: &mut Reader, fold: Fold) -> Result<Opening, ParseStop>
    ensures { ReadsPart result reader.new (fold_opening fold reader.old) }
{
    reader.expect("(")?;
    Ok(Opening::Nested(Prefix::FoldOf(fold)))
}

fn count_opening(reader: &mut Reader) -> Result<Opening, ParseStop>
    ensures { ReadsPart result reader.new (count_opening reader.old) }
{
    reader.expect("(")?;
    count_inside(reader)
}

fn count_inside(reader: &mut Reader) -> Result<Opening, ParseStop>
    ensures { ReadsPart result reader.new (count_inside reader.old) }
{
    if reader.starts("*") {
        reader.skip();
        reader.expect(")")?;
        return Ok(Opening::Leaf(Expr::Aggregate(Fold::Count, None)));
    }
    Ok(Opening::Nested(Prefix::FoldOf(Fold::Count)))
}

fn column_opening(alloc: Global, reader: &mut Reader, word: &str) -> Result<Opening, ParseStop>
    ensures { ReadsPart result reader.new (column_opening word.now reader.old) }
{
    let name = name_in(alloc, word)?;
    let column = column_after(alloc, reader, name)?;
    Ok(Opening::Leaf(Expr::Column(column)))
}

/// The least level of an expression inside a form.
pub(crate) fn inside_level(wrap: Prefix) -> u8
    ensures { result ≡ inside_level wrap }
{
    match wrap {
        Prefix::Not => 3,
        Prefix::Minus => 7,
        Prefix::Bracket => 1,
        Prefix::FoldOf(_) => 1,
    }
}
