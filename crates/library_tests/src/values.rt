//! The order of values, their texts, and comparisons in three-valued logic.

ghost use Rattle.std.specs.Prelude.{◌≡◌};

use ldv_value::{Bytes, Cmp, Truth, Utf8, Value, Values, append_text, compare, holds, same, test};
use std::alloc::{AllocError, Global};
use std::cmp::Ordering;
use std::process::Abort;
use std::test::Fail;

fn push_numbers(values: &mut Values, numbers: &[i64]) -> Result<(), AllocError> {
    for number in numbers {
        values.push(Value::Int(*number))?;
    }
    Ok(())
}

fn push_text(alloc: Global, values: &mut Values, text: &str) -> Result<(), AllocError> {
    values.push(Value::Text(Utf8::of(alloc, text)?))
}

fn push_texts(alloc: Global, values: &mut Values, texts: &[&str]) -> Result<(), AllocError> {
    for text in texts {
        push_text(alloc, values, text)?;
    }
    Ok(())
}

// Values that are strictly increasing in the total order.
fn increasing_values(alloc: Global) -> Result<Values, AllocError> {
    let mut values = Values::new(alloc);
    values.push(Value::Null)?;
    push_numbers(&mut values, &[i64::MIN, -1, 0, 9, 10, i64::MAX])?;
    push_texts(alloc, &mut values, &["", "10", "9", "Z", "a", "ab", "b"])?;
    Ok(values)
}

fn are_ordered(a: &Value, b: &Value, between: Ordering) -> bool {
    a.cmp(b) == between
        && compare(a, b) == between
        && (a == b) == between.is_eq()
        && same(a, b) == between.is_eq()
}

fn holds_as(op: Cmp, a: &Value, b: &Value, between: Ordering) -> bool {
    let want = match op {
        Cmp::Eq => between.is_eq(),
        Cmp::Ne => between.is_ne(),
        Cmp::Lt => between.is_lt(),
        Cmp::Le => between.is_le(),
        Cmp::Gt => between.is_gt(),
        Cmp::Ge => between.is_ge(),
    };
    holds(op, a, b) == want
}

fn each_holds(a: &Value, b: &Value, between: Ordering) -> bool {
    holds_as(Cmp::Eq, a, b, between)
        && holds_as(Cmp::Ne, a, b, between)
        && holds_as(Cmp::Lt, a, b, between)
        && holds_as(Cmp::Le, a, b, between)
        && holds_as(Cmp::Gt, a, b, between)
        && holds_as(Cmp::Ge, a, b, between)
}

fn is_between(a: &Value, b: &Value, between: Ordering) -> bool {
    are_ordered(a, b, between) && each_holds(a, b, between)
}

fn expect_between(rt: &impl Abort, values: &Values, i: usize, j: usize) {
    let (Some(a), Some(b)) = (values.get(i), values.get(j)) else {
        panic!(rt; "no values at {i} and {j}");
    };
    assert!(rt; is_between(a, b, i.cmp(&j)), "values at {i} and {j}");
}

// Expects that the value at a place of the list has that place among all.
fn expect_at(rt: &impl Abort, values: &Values, place: usize) {
    for other in 0..values.len() {
        expect_between(rt, values, place, other);
    }
}

#[test]
fn orders_values(rt: HostRuntime) -> Result<(), Fail> {
    let values = increasing_values(rt.alloc())?;
    for place in 0..values.len() {
        expect_at(&rt, &values, place);
    }
    Ok(())
}

fn is_tested(op: Cmp, number: i64, want: Truth) -> bool {
    test(op, &Value::Int(number), &Value::Int(1)) == want
}

fn is_unknown(value: &Value) -> bool {
    test(Cmp::Eq, value, &Value::Null) == Truth::Unknown
}

#[test]
fn tests_know_null(rt: HostRuntime) {
    assert!(rt; is_tested(Cmp::Le, 1, Truth::True) && is_tested(Cmp::Lt, 1, Truth::False));
    assert!(rt; is_unknown(&Value::Int(1)) && is_unknown(&Value::Null));
}

// Appends the texts of NULL, a number and a text.
fn append_texts(shown: &mut Bytes, text: &Value) -> Result<(), AllocError> {
    append_text(&Value::Null, shown)?;
    append_text(&Value::Int(i64::MIN), shown)?;
    append_text(text, shown)
}

#[test]
fn shows_values(rt: HostRuntime) -> Result<(), Fail> {
    let text = Value::Text(Utf8::of(rt.alloc(), "a\n")?);
    let mut shown = Bytes::of_slice(rt.alloc(), b"=")?;
    append_texts(&mut shown, &text)?;
    assert!(rt; shown.as_slice() == b"=NULL-9223372036854775808a\n".as_slice());
    Ok(())
}
