//! The states of the definitions that read a text from left to right (`specs/Tokens.antt`,
//! `specs/Expressions.antt`): the state of the scanner, the beginning of an operand, the form between
//! operands, and an expression with its depth.

use crate::expr::{Expr, Exprs, Fold, Operator};
use crate::statement::FromItems;
use crate::token::Token;
use ldv_value::Bytes;

/// The state of the scanner.
#[derive(Drop)]
pub enum LexState {
    /// Between two tokens, or before the first one.
    Between,
    /// In a word, with its bytes so far in lower case.
    InWord(Bytes),
    /// In a number, with its value so far, at most 2^64 - 1.
    InNumber(u64),
    /// In a text between quotes, with its content so far.
    InText(Bytes),
    /// In a text between quotes, right after a quote. The quote ends the text or is the first of two.
    AfterQuote(Bytes),
    /// After a byte that may begin a symbol of two bytes.
    InSymbol(u8),
    /// After a complete token.
    Ended(Token),
}

/// How an operand begins.
#[derive(Drop)]
pub enum Opening {
    /// With this constant, column or COUNT(*), which is the whole operand.
    Leaf(Expr),
    /// With this form, around another expression.
    Nested(Prefix),
}

/// A form around one expression. It begins with its own token.
#[derive(Clone, Copy)]
pub enum Prefix {
    /// NOT.
    Not,
    /// Unary minus.
    Minus,
    /// A pair of parentheses.
    Bracket,
    /// An aggregate.
    FoldOf(Fold),
}

/// The form that follows an operand.
#[derive(Clone, Copy)]
pub enum Infix {
    /// An operator, and then a second operand.
    Both(Operator),
    /// IS, and then NULL or NOT NULL.
    IsNull,
}

/// An expression that was read.
#[derive(Drop)]
pub struct ParsedExpr {
    /// The expression.
    pub expr: Expr,
    /// Its depth, from 1, which counts the parentheses around it too.
    pub depth: usize,
    /// The level of its form: 1 OR, 2 AND, 3 NOT, 4 a comparison or IS NULL, 5 plus and minus, 6 times, 7
    /// unary minus, and 8 a constant, a column, an aggregate or parentheses.
    pub level: u8,
}

/// The sources of FROM, and the conditions that follow ON.
#[derive(Drop)]
pub struct Sources {
    /// The sources, from left to right.
    pub from: FromItems,
    /// The conditions of ON, from left to right.
    pub picks: Exprs,
}
