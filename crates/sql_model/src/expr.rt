//! Expressions.

ghost use Rattle.std.specs.Prelude.{◌≡◌, IfOk};

use ldv_value::{Cmp, CopyItem, List, Utf8, Value};
use sqlite_items::Boxed;
use std::alloc::{AllocError, Global};

/// The name of a column, with the name of its source if one is written.
#[derive(Drop)]
pub struct ColumnName {
    pub table: Option<Utf8>,
    pub name: Utf8,
}

/// An operator between two expressions.
#[derive(Clone, Copy, Debug, PartialEq, Eq)]
pub enum Operator {
    /// `+`
    Add,
    /// `-`
    Subtract,
    /// `*`
    Multiply,
    /// `=`, `<>`, `<`, `<=`, `>` or `>=`
    Compare(Cmp),
    /// AND
    And,
    /// OR
    Or,
}

/// An aggregate.
#[derive(Clone, Copy, Debug, PartialEq, Eq)]
pub enum Fold {
    /// COUNT of rows, or of the values that aren't NULL.
    Count,
    /// SUM
    Sum,
    /// MIN
    Min,
    /// MAX
    Max,
}

/// An expression. Each parameter is already replaced by its value, a constant.
#[derive(Drop)]
pub enum Expr {
    /// A constant.
    Constant(Value),
    /// The value of a column.
    Column(ColumnName),
    /// Unary minus.
    Negate(Boxed<Expr>),
    /// NOT of a condition.
    Not(Boxed<Expr>),
    /// Two expressions with an operator between them.
    Both(Operator, Boxed<Expr>, Boxed<Expr>),
    /// IS NULL, or IS NOT NULL if the flag is true.
    IsNull(Boxed<Expr>, bool),
    /// An aggregate of an expression; COUNT(*) has none.
    Aggregate(Fold, Option<Boxed<Expr>>),
}

/// Column names.
pub type ColumnNames = List<ColumnName>;
/// Expressions.
pub type Exprs = List<Expr>;
/// Rows of expressions, as VALUES has them.
pub type ExprRows = List<Exprs>;

/// A copy of a text that may be missing.
pub(crate) fn copy_text(text: &Option<Utf8>) -> Result<Option<Utf8>, AllocError>
    ensures { IfOk result (λ copy. copy ≡ text.now) }
{
    match text {
        None => Ok(None),
        Some(text) => Ok(Some(text.copy()?)),
    }
}

impl CopyItem for ColumnName {
    fn copy_item(&self, _alloc: Global) -> Result<Self, AllocError> {
        Ok(ColumnName {
            table: copy_text(&self.table)?,
            name: self.name.copy()?,
        })
    }
}

impl CopyItem for Expr {
    fn copy_item(&self, alloc: Global) -> Result<Self, AllocError> {
        match self {
            Expr::Constant(value) => Ok(Expr::Constant(value.copy_item(alloc)?)),
            Expr::Column(name) => Ok(Expr::Column(name.copy_item(alloc)?)),
            Expr::Negate(inner) => {
                let copy = inner.get().copy_item(alloc)?;
                Ok(Expr::Negate(Boxed::new(alloc, copy)?))
            }
            Expr::Not(inner) => {
                let copy = inner.get().copy_item(alloc)?;
                Ok(Expr::Not(Boxed::new(alloc, copy)?))
            }
            Expr::Both(operator, left, right) => {
                let left = left.get().copy_item(alloc)?;
                let right = right.get().copy_item(alloc)?;
                let left = Boxed::new(alloc, left)?;
                Ok(Expr::Both(*operator, left, Boxed::new(alloc, right)?))
            }
            Expr::IsNull(inner, negated) => {
                let copy = inner.get().copy_item(alloc)?;
                Ok(Expr::IsNull(Boxed::new(alloc, copy)?, *negated))
            }
            Expr::Aggregate(fold, None) => Ok(Expr::Aggregate(*fold, None)),
            Expr::Aggregate(fold, Some(inner)) => {
                let copy = inner.get().copy_item(alloc)?;
                Ok(Expr::Aggregate(*fold, Some(Boxed::new(alloc, copy)?)))
            }
        }
    }
}
