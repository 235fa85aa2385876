//! Comparisons of columns.

ghost use Rattle.std.specs.Prelude.{◌≡◌, true};
ghost use Rattle.predicates.specs.Equality.{IsColumn, is_equal_test};

use ldv_value::Cmp;
use sql_model::Expr;

/// Whether a comparison is `=`.
pub fn is_equal_test(test: Cmp) -> bool
    ensures { result ≡ is_equal_test test }
{
    match test {
        Cmp::Eq => true,
        Cmp::Ne => false,
        Cmp::Lt => false,
        Cmp::Le => false,
        Cmp::Gt => false,
        Cmp::Ge => false,
    }
}

/// Whether an expression is a column.
pub fn is_column(expr: &Expr) -> bool
    ensures { result ≡ true → IsColumn expr.now }
{
    match expr {
        Expr::Column(_) => true,
        _ => false,
    }
}
