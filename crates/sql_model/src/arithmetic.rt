//! Arithmetic on values. The result is NULL if a side isn't a number or the number is outside 64 bits.

ghost use Rattle.std.specs.Prelude.{◌≡◌, ◌+ℤ◌, ◌-ℤ◌, ◌*ℤ◌, neg_ℤ};
ghost use Rattle.sql_model.specs.Meaning.{number_value, with_numbers};

use ldv_value::Value;

#[tactic(auto, using(crate::proofs::CheckedNumbers::checked_numbers))]
pub(crate) fn sum(left: &Value, right: &Value) -> Value
    ensures { result ≡ with_numbers (λ m n. m +ℤ n) left.now right.now }
{
    match left {
        Value::Null => Value::Null,
        Value::Int(m) => match right {
            Value::Null => Value::Null,
            Value::Int(n) => Value::of_number(m.checked_add(*n)),
            Value::Text(_) => Value::Null,
        },
        Value::Text(_) => Value::Null,
    }
}

#[tactic(auto, using(crate::proofs::CheckedNumbers::checked_numbers))]
pub(crate) fn difference(left: &Value, right: &Value) -> Value
    ensures { result ≡ with_numbers (λ m n. m -ℤ n) left.now right.now }
{
    match left {
        Value::Null => Value::Null,
        Value::Int(m) => match right {
            Value::Null => Value::Null,
            Value::Int(n) => Value::of_number(m.checked_sub(*n)),
            Value::Text(_) => Value::Null,
        },
        Value::Text(_) => Value::Null,
    }
}

#[tactic(auto, using(crate::proofs::CheckedNumbers::checked_numbers))]
pub(crate) fn product(left: &Value, right: &Value) -> Value
    ensures { result ≡ with_numbers (λ m n. m *ℤ n) left.now right.now }
{
    match left {
        Value::Null => Value::Null,
        Value::Int(m) => match right {
            Value::Null => Value::Null,
            Value::Int(n) => Value::of_number(m.checked_mul(*n)),
            Value::Text(_) => Value::Null,
        },
        Value::Text(_) => Value::Null,
    }
}

#[tactic(auto, using(crate::proofs::CheckedNumbers::checked_numbers))]
pub(crate) fn negate(number: i64) -> Value
    ensures { result ≡ number_value (neg_ℤ number) }
{
    Value::of_number(number.checked_neg())
}
