//! The expression at the front of tokens.

ghost use Rattle.std.specs.Prelude.{◌≡◌, ◌≤◌, ◌<◌, ◌+◌, ◌-◌, IfOk, Some};
ghost use Rattle.ldv_value.specs.Limits.{max_depth};
ghost use Rattle.sql_parse.specs.inner.Gives.{GivesParsed, ReadsPart};
ghost use Rattle.sql_model.specs.Expressions.{primary_expr, with_prefix, null_test, pair, operand_at, operand, joined};
ghost use Rattle.sql_model.specs.Expressions.{joined_within, goes_on, joins_more, within, reads_expr};
ghost use Rattle.sql_model.specs.Reader.{repeat};

use crate::error::ParseStop;
use crate::opening::{inside_level, read_opening};
use crate::operator::{joins, operator_level, right_of};
use crate::reader::Reader;
use ldv_value::MAX_DEPTH;
use sql_model::{Expr, Infix, Opening, Operator, ParsedExpr, Prefix};
use sqlite_items::Boxed;
use std::alloc::Global;

/// Reads an expression.
pub(crate) fn expression(alloc: Global, reader: &mut Reader) -> Result<Expr, ParseStop>
    ensures { ReadsPart result reader.new (reads_expr reader.old) }
{
    let deep = within(alloc, reader, MAX_DEPTH, 1)?;
    let ParsedExpr {
        expr,
        depth: _,
        level: _,
    } = deep;
    Ok(expr)
}

// An expression of at least a level, within a depth.
#[cycle(expression)]
#[tactic(auto, using(crate::proofs::Repeat::repeat_rules, crate::proofs::Within::within_rules))]
fn within(
    alloc: Global,
    reader: &mut Reader,
    limit: usize,
    least: u8,
) -> Result<ParsedExpr, ParseStop>
    requires { limit ≤ max_depth }
    ensures read { ReadsPart result reader.new (within limit least reader.old) }
    ensures depth { IfOk result (λ deep. deep.depth ≤ limit) }
{
    if limit == 0 {
        return Err(ParseStop::Syntax);
    }
    let first = operand(alloc, reader, limit - 1, least)?;
    chain(alloc, reader, limit, least, first)
}

// An operand of at least a level, whose inside is within a depth.
#[cycle(expression)]
#[tactic(auto, using(crate::proofs::Repeat::repeat_rules, crate::proofs::Within::within_rules))]
fn operand(
    alloc: Global,
    reader: &mut Reader,
    limit: usize,
    least: u8,
) -> Result<ParsedExpr, ParseStop>
    requires { limit < max_depth }
    ensures read { ReadsPart result reader.new (operand (within limit) least reader.old) }
    ensures depth { IfOk result (λ deep. deep.depth ≤ limit + 1) }
{
    match read_opening(alloc, reader, least)? {
        Opening::Leaf(expr) => Ok(ParsedExpr {
            expr,
            depth: 1,
            level: 8,
        }),
        Opening::Nested(wrap) => {
            let inside = within(alloc, reader, limit, inside_level(wrap))?;
            close_prefix(alloc, reader, wrap, inside)
        }
    }
}

// A first operand, and the operators that follow it.
#[cycle(expression)]
#[tactic(auto, using(crate::proofs::Repeat::repeat_rules, crate::proofs::Within::within_rules))]
fn chain(
    alloc: Global,
    reader: &mut Reader,
    limit: usize,
    least: u8,
    first: ParsedExpr,
) -> Result<ParsedExpr, ParseStop>
    requires some { 0 < limit }
    requires most { limit ≤ max_depth }
    requires depth { first.depth ≤ limit }
    ensures read { ReadsPart result reader.new
        (repeat (joins_more (within (limit - 1)) (limit - 1) least) limit
        first reader.old) }
    ensures depth { IfOk result (λ deep. deep.depth ≤ limit) }
{
    let mut left = first;
    for _made in 0..limit {
        let (next, more) = joins_more(alloc, reader, limit - 1, least, left)?;
        left = next;
        if !more {
            return Ok(left);
        }
    }
    Err(ParseStop::Syntax)
}

// One more operator, where one follows.
#[cycle(expression)]
#[tactic(auto, using(crate::proofs::Repeat::repeat_rules, crate::proofs::Within::within_rules))]
fn joins_more(
    alloc: Global,
    reader: &mut Reader,
    limit: usize,
    least: u8,
    left: ParsedExpr,
) -> Result<(ParsedExpr, bool), ParseStop>
    requires most { limit < max_depth }
    requires depth { left.depth ≤ limit + 1 }
    ensures read { ReadsPart result reader.new (joins_more (within limit) limit least left reader.old) }
    ensures depth { IfOk result (λ r. r.0.depth ≤ limit + 1) }
{
    match joins(reader, least, left.level) {
        None => Ok((left, false)),
        Some(sign) => {
            reader.skip();
            let left = joined_within(alloc, reader, limit, sign, left)?;
            Ok((left, true))
        }
    }
}

// What an infix operator, or IS, makes of its left operand and of what follows.
#[cycle(expression)]
#[tactic(auto, using(crate::proofs::Repeat::repeat_rules, crate::proofs::Within::within_rules))]
fn joined_within(
    alloc: Global,
    reader: &mut Reader,
    limit: usize,
    sign: Infix,
    left: ParsedExpr,
) -> Result<ParsedExpr, ParseStop>
    requires { limit < max_depth }
    ensures read { ReadsPart result reader.new (joined_within (within limit) limit sign left reader.old) }
    ensures depth { IfOk result (λ deep. deep.depth ≤ limit + 1) }
{
    if left.depth > limit {
        return Err(ParseStop::Syntax);
    }
    match sign {
        Infix::IsNull => null_test(alloc, reader, left),
        Infix::Both(operator) => {
            let right = within(alloc, reader, limit, right_of(operator))?;
            pair(alloc, operator, left, right)
        }
    }
}

// Closes a prefix form around its parsed operand.
fn close_prefix(
    alloc: Global,
    reader: &mut Reader,
    wrap: Prefix,
    inside: ParsedExpr,
) -> Result<ParsedExpr, ParseStop>
    requires { inside.depth ≤ max_depth }
    ensures read { ReadsPart result reader.new (with_prefix wrap inside reader.old) }
    ensures depth { IfOk result (λ deep. deep.depth ≡ inside.depth + 1) }
{
    let ParsedExpr {
        expr,
        depth,
        level: _,
    } = inside;
    let depth = depth + 1;
    match wrap {
        Prefix::Not => {
            let expr = Expr::Not(Boxed::new(alloc, expr)?);
            Ok(ParsedExpr {
                expr,
                depth,
                level: 3,
            })
        }
        Prefix::Minus => {
            let expr = Expr::Negate(Boxed::new(alloc, expr)?);
            Ok(ParsedExpr {
                expr,
                depth,
                level: 7,
            })
        }
        Prefix::Bracket => {
            reader.expect(")")?;
            Ok(ParsedExpr {
                expr,
                depth,
                level: 8,
            })
        }
        Prefix::FoldOf(fold) => {
            reader.expect(")")?;
            let expr = Expr::Aggregate(fold, Some(Boxed::new(alloc, expr)?));
            Ok(ParsedExpr {
                expr,
                depth,
                level: 8,
            })
        }
    }
}

// What follows IS.
fn null_test(alloc: Global, reader: &mut Reader, left: ParsedExpr) -> Result<ParsedExpr, ParseStop>
    requires { left.depth ≤ max_depth }
    ensures read { ReadsPart result reader.new (null_test left reader.old) }
    ensures depth { IfOk result (λ deep. deep.depth ≡ left.depth + 1) }
{
    let negated = reader.pass("not");
    reader.expect("null")?;
    let ParsedExpr {
        expr,
        depth,
        level: _,
    } = left;
    let expr = Expr::IsNull(Boxed::new(alloc, expr)?, negated);
    Ok(ParsedExpr {
        expr,
        depth: depth + 1,
        level: 4,
    })
}

// Two operands and the operator between them.
fn pair(
    alloc: Global,
    operator: Operator,
    left: ParsedExpr,
    right: ParsedExpr,
) -> Result<ParsedExpr, ParseStop>
    requires left { left.depth ≤ max_depth }
    requires right { right.depth ≤ max_depth }
    ensures { GivesParsed result (Some (pair operator left right)) }
{
    let depth = left.depth.max(right.depth) + 1;
    let a = Boxed::new(alloc, left.expr)?;
    let b = Boxed::new(alloc, right.expr)?;
    Ok(ParsedExpr {
        expr: Expr::Both(operator, a, b),
        depth,
        level: operator_level(operator),
    })
}
