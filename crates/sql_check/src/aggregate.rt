//! The aggregates of an expression.

ghost use Rattle.std.specs.Prelude.{◌≡◌};
ghost use Rattle.sql_model.specs.Kinds.{has_aggregate, count_use_of, fold_counts};
ghost use Rattle.sql_model.specs.Refusals.{counts};

use sql_model::{Expr, Fold};

/// Whether an expression has an aggregate.
#[tactic(auto, using(crate::proofs::Walks::aggregate_forms))]
pub(crate) fn has_aggregate(expr: &Expr) -> bool
    ensures { result ≡ has_aggregate expr.now }
{
    match expr {
        Expr::Constant(_) => false,
        Expr::Column(_) => false,
        Expr::Negate(inner) => has_aggregate(inner.get()),
        Expr::Not(inner) => has_aggregate(inner.get()),
        Expr::Both(_, left, right) => has_aggregate(left.get()) || has_aggregate(right.get()),
        Expr::IsNull(inner, _) => has_aggregate(inner.get()),
        Expr::Aggregate(_, None) => true,
        Expr::Aggregate(_, Some(_)) => true,
    }
}

// Whether an expression names a column.
#[tactic(auto, using(crate::proofs::Walks::counting_forms))]
fn names_column(expr: &Expr) -> bool
    ensures { result ≡ (count_use_of expr.now).names_column }
{
    match expr {
        Expr::Constant(_) => false,
        Expr::Column(_) => true,
        Expr::Negate(inner) => names_column(inner.get()),
        Expr::Not(inner) => names_column(inner.get()),
        Expr::Both(_, left, right) => names_column(left.get()) || names_column(right.get()),
        Expr::IsNull(inner, _) => names_column(inner.get()),
        Expr::Aggregate(_, None) => false,
        Expr::Aggregate(_, Some(inner)) => names_column(inner.get()),
    }
}

/// Whether an expression has a COUNT, or a SUM whose argument names no column.
#[tactic(auto, using(crate::proofs::Walks::counting_forms))]
pub(crate) fn counts(expr: &Expr) -> bool
    ensures { result ≡ counts expr.now }
{
    match expr {
        Expr::Constant(_) => false,
        Expr::Column(_) => false,
        Expr::Negate(inner) => counts(inner.get()),
        Expr::Not(inner) => counts(inner.get()),
        Expr::Both(_, left, right) => counts(left.get()) || counts(right.get()),
        Expr::IsNull(inner, _) => counts(inner.get()),
        Expr::Aggregate(_, None) => true,
        Expr::Aggregate(fold, Some(inner)) => {
            counts(inner.get()) || fold_counts(*fold, names_column(inner.get()))
        }
    }
}

fn fold_counts(fold: Fold, names_column: bool) -> bool
    ensures { result ≡ fold_counts fold names_column }
{
    match fold {
        Fold::Count => true,
        Fold::Sum => !names_column,
        Fold::Min => false,
        Fold::Max => false,
    }
}
