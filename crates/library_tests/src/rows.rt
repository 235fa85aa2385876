//! The rows of the table t, and rows of values made of them.

use ldv_value::{Utf8, Value, Values};
use std::alloc::{AllocError, Global};

// k, g and v of a row of t, by its number.
fn row_of_t(number: u32) -> (i64, Option<&'static str>, Option<i64>) {
    match number {
        0 => (1, Some("a"), Some(10)),
        1 => (2, Some("a"), Some(20)),
        2 => (3, Some("b"), Some(5)),
        3 => (4, Some("b"), None),
        _ => (5, Some("c"), Some(10)),
    }
}

/// Appends a number or NULL to a row.
pub(crate) fn push_number(values: &mut Values, number: Option<i64>) -> Result<(), AllocError> {
    match number {
        Some(number) => values.push(Value::Int(number)),
        None => values.push(Value::Null),
    }
}

// Appends a text or NULL to a row.
fn push_text(alloc: Global, values: &mut Values, text: Option<&str>) -> Result<(), AllocError> {
    match text {
        Some(text) => values.push(Value::Text(Utf8::of(alloc, text)?)),
        None => values.push(Value::Null),
    }
}

// Appends k, g and v of a row of t.
fn push_row(alloc: Global, values: &mut Values, number: u32) -> Result<(), AllocError> {
    let (k, g, v) = row_of_t(number);
    push_number(values, Some(k))?;
    push_text(alloc, values, g)?;
    push_number(values, v)
}

/// k, g and v of rows of t, one row after another.
pub(crate) fn values_of_rows(alloc: Global, numbers: &[u32]) -> Result<Values, AllocError> {
    let mut values = Values::new(alloc);
    for number in numbers {
        push_row(alloc, &mut values, *number)?;
    }
    Ok(values)
}
