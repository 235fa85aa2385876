//! Three-valued logic.

ghost use Rattle.std.specs.Prelude.{◌≡◌};
ghost use Rattle.ldv_value.specs.Order.{test_of};
ghost use Rattle.sql_model.specs.Meaning.{truth_not, truth_and, truth_or, is_null, null_test};

use ldv_value::{Cmp, Truth, Value, holds};

// NOT.
pub(crate) fn not_truth(truth: Truth) -> Truth
    ensures { result ≡ truth_not truth }
{
    match truth {
        Truth::True => Truth::False,
        Truth::False => Truth::True,
        Truth::Unknown => Truth::Unknown,
    }
}

// AND.
pub(crate) fn and_truth(left: Truth, right: Truth) -> Truth
    ensures { result ≡ truth_and left right }
{
    match left {
        Truth::True => right,
        Truth::False => Truth::False,
        Truth::Unknown => match right {
            Truth::True => left,
            Truth::False => right,
            Truth::Unknown => left,
        },
    }
}

// OR.
pub(crate) fn or_truth(left: Truth, right: Truth) -> Truth
    ensures { result ≡ truth_or left right }
{
    match left {
        Truth::True => Truth::True,
        Truth::False => right,
        Truth::Unknown => match right {
            Truth::True => right,
            Truth::False => left,
            Truth::Unknown => left,
        },
    }
}

// The truth of a comparison: Unknown where a side is NULL.
pub(crate) fn comparison_truth(test: Cmp, left: &Value, right: &Value) -> Truth
    ensures { result ≡ test_of test left.now right.now }
{
    match left {
        Value::Null => Truth::Unknown,
        Value::Int(_) => match right {
            Value::Null => Truth::Unknown,
            Value::Int(_) => Truth::of_bool(holds(test, left, right)),
            Value::Text(_) => Truth::of_bool(holds(test, left, right)),
        },
        Value::Text(_) => match right {
            Value::Null => Truth::Unknown,
            Value::Int(_) => Truth::of_bool(holds(test, left, right)),
            Value::Text(_) => Truth::of_bool(holds(test, left, right)),
        },
    }
}

// The truth of IS NULL, or of IS NOT NULL where the flag is set.
pub(crate) fn null_truth(negative: bool, value: &Value) -> Truth
    ensures { result ≡ null_test negative value.now }
{
    if negative {
        Truth::of_bool(!is_null(value))
    } else {
        Truth::of_bool(is_null(value))
    }
}

/// Whether a value is NULL.
pub fn is_null(value: &Value) -> bool
    ensures { result ≡ is_null value.now }
{
    match value {
        Value::Null => true,
        Value::Int(_) => false,
        Value::Text(_) => false,
    }
}
