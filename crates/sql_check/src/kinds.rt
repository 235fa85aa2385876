//! The kinds of expressions.

ghost use Rattle.std.specs.Prelude.{◌≡◌, ◌&&◌, option_and_then, option_map, find, if◌then◌else◌, not, None};
ghost use Rattle.std.specs.Prelude.{true, false};
ghost use Rattle.sql_model.specs.declared.kind.Kind.TheVariants.{Int as IntKind, Text as TextKind};
ghost use Rattle.sql_model.specs.declared.kind.Kind.TheVariants.{Truth as TruthKind};
ghost use Rattle.sql_model.specs.Kinds.{kind, row_kind, group_kind, kind_of_value, kind_of_column, is_number};
ghost use Rattle.sql_model.specs.Kinds.{is_logical, are_comparable, kind_if, kind_both, folded_kind};
ghost use Rattle.sql_model.specs.Kinds.{counted_kind};
ghost use Rattle.sql_model.specs.Scope.{is_meant};

use crate::scope::Entry;
use ldv_value::Value;
use sql_model::{Column, ColumnName, Expr, Fold, Kind, Operator};

/// The kind of an expression over a row; `None` if it has an aggregate or kinds clash in it.
pub(crate) fn row_kind(scope: &[Entry], expr: &Expr) -> Option<Kind>
    ensures { result ≡ row_kind scope.now expr.now }
{
    kind_in(scope, expr, false)
}

/// The kind of an expression over a group, in which aggregates are allowed; `None` if kinds clash in it.
pub(crate) fn group_kind(scope: &[Entry], expr: &Expr) -> Option<Kind>
    ensures { result ≡ group_kind scope.now expr.now }
{
    kind_in(scope, expr, true)
}

#[tactic(auto, using(crate::proofs::Walks::kind_forms))]
fn kind_in(scope: &[Entry], expr: &Expr, over_groups: bool) -> Option<Kind>
    ensures { result ≡ kind scope.now expr.now over_groups }
{
    match expr {
        Expr::Constant(value) => Some(kind_of_value(value)),
        Expr::Column(name) => kind_of_name(scope, name),
        Expr::Negate(inner) => negation_kind(kind_in(scope, inner.get(), over_groups)),
        Expr::Not(inner) => not_kind(kind_in(scope, inner.get(), over_groups)),
        Expr::Both(operator, left, right) => {
            let left = kind_in(scope, left.get(), over_groups);
            let right = kind_in(scope, right.get(), over_groups);
            operator_kind(*operator, left, right)
        }
        Expr::IsNull(inner, _) => null_test_kind(kind_in(scope, inner.get(), over_groups)),
        Expr::Aggregate(fold, None) => count_kind(*fold, over_groups),
        Expr::Aggregate(fold, Some(inner)) => {
            aggregate_kind(*fold, kind_in(scope, inner.get(), false), over_groups)
        }
    }
}

fn kind_of_value(value: &Value) -> Kind
    ensures { result ≡ kind_of_value value.now }
{
    match value {
        Value::Null => Kind::Any,
        Value::Int(_) => Kind::Int,
        Value::Text(_) => Kind::Text,
    }
}

/// The kind of a column's values.
pub(crate) fn kind_of_column(column: &Column) -> Kind
    ensures { result ≡ kind_of_column column.now }
{
    if column.text { Kind::Text } else { Kind::Int }
}

fn kind_of_name(scope: &[Entry], name: &ColumnName) -> Option<Kind>
    ensures { result
        ≡ option_map (λ entry. kind_of_column entry.column) (find (is_meant name.now) scope.now) }
{
    match scope.iter().find(|entry| entry.is_meant(name)) {
        None => None,
        Some(entry) => Some(kind_of_column(entry.column())),
    }
}

fn kind_if(fits: bool, kind: Kind) -> Option<Kind>
    ensures { result ≡ kind_if fits kind }
{
    if fits { Some(kind) } else { None }
}

fn is_number(kind: Kind) -> bool
    ensures { result ≡ is_number kind }
{
    match kind {
        Kind::Int => true,
        Kind::Text => false,
        Kind::Any => true,
        Kind::Truth => false,
    }
}

/// Whether a kind is that of truths.
pub(crate) fn is_logical(kind: Kind) -> bool
    ensures { result ≡ is_logical kind }
{
    match kind {
        Kind::Int => false,
        Kind::Text => false,
        Kind::Any => false,
        Kind::Truth => true,
    }
}

/// Whether values of two kinds can be compared, and values of one kind be stored in a column of the other.
pub(crate) fn are_comparable(left: Kind, right: Kind) -> bool
    ensures { result ≡ are_comparable left right }
{
    match left {
        Kind::Int => is_number(right),
        Kind::Text => is_textual(right),
        Kind::Any => !is_logical(right),
        Kind::Truth => false,
    }
}

fn is_textual(kind: Kind) -> bool
    ensures { result ≡ are_comparable TextKind kind }
{
    match kind {
        Kind::Int => false,
        Kind::Text => true,
        Kind::Any => true,
        Kind::Truth => false,
    }
}

// The kind of `-x`, from the kind of `x`.
fn negation_kind(inner: Option<Kind>) -> Option<Kind>
    ensures { result ≡ option_and_then (λ k. kind_if (is_number k) IntKind) inner }
{
    match inner {
        None => None,
        Some(kind) => kind_if(is_number(kind), Kind::Int),
    }
}

// The kind of `NOT x`, from the kind of `x`.
fn not_kind(inner: Option<Kind>) -> Option<Kind>
    ensures { result ≡ option_and_then (λ k. kind_if (is_logical k) TruthKind) inner }
{
    match inner {
        None => None,
        Some(kind) => kind_if(is_logical(kind), Kind::Truth),
    }
}

// The kind of `x IS NULL`, from the kind of `x`.
fn null_test_kind(inner: Option<Kind>) -> Option<Kind>
    ensures { result ≡ option_and_then (λ k. kind_if (not (is_logical k)) TruthKind) inner }
{
    match inner {
        None => None,
        Some(kind) => kind_if(!is_logical(kind), Kind::Truth),
    }
}

// The kind of two operands with the operator between them.
fn operator_kind(operator: Operator, left: Option<Kind>, right: Option<Kind>) -> Option<Kind>
    ensures { result ≡ option_and_then (λ k. option_and_then (kind_both operator k) right) left }
{
    match left {
        None => None,
        Some(left) => match right {
            None => None,
            Some(right) => kind_both(operator, left, right),
        },
    }
}

fn kind_both(operator: Operator, left: Kind, right: Kind) -> Option<Kind>
    ensures { result ≡ kind_both operator left right }
{
    match operator {
        Operator::Add => kind_if(is_number(left) && is_number(right), Kind::Int),
        Operator::Subtract => kind_if(is_number(left) && is_number(right), Kind::Int),
        Operator::Multiply => kind_if(is_number(left) && is_number(right), Kind::Int),
        Operator::Compare(_) => kind_if(are_comparable(left, right), Kind::Truth),
        Operator::And => kind_if(is_logical(left) && is_logical(right), Kind::Truth),
        Operator::Or => kind_if(is_logical(left) && is_logical(right), Kind::Truth),
    }
}

// The kind of an aggregate without an argument, which is over groups only.
fn count_kind(fold: Fold, over_groups: bool) -> Option<Kind>
    ensures { result ≡ (if over_groups then counted_kind fold else None) }
{
    match fold {
        Fold::Count => kind_if(over_groups, Kind::Int),
        Fold::Sum => None,
        Fold::Min => None,
        Fold::Max => None,
    }
}

// The kind of an aggregate over its argument, which is over groups only.
fn aggregate_kind(fold: Fold, inner: Option<Kind>, over_groups: bool) -> Option<Kind>
    ensures { result ≡ (if over_groups then option_and_then (folded_kind fold) inner else None) }
{
    if !over_groups {
        return None;
    }
    match inner {
        None => None,
        Some(kind) => folded_kind(fold, kind),
    }
}

fn folded_kind(fold: Fold, kind: Kind) -> Option<Kind>
    ensures { result ≡ folded_kind fold kind }
{
    match fold {
        Fold::Count => kind_if(!is_logical(kind), Kind::Int),
        Fold::Sum => kind_if(is_number(kind), Kind::Int),
        Fold::Min => kind_if(!is_logical(kind), kind),
        Fold::Max => kind_if(!is_logical(kind), kind),
    }
}
