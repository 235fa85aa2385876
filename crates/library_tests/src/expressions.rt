//! The value and the truth of expressions over a row, by hand, the truth also over the row where its values
//! are lent. The columns a, b and c of the row are 7, NULL and 'x'.

use ldv_value::{Places, Truth, Utf8, Value, Values};
use lent_cells::{Cell, CellsAt, Listed, truth_over};
use sql_model::{Expr, Statement, truth_of, value_of};
use sql_parse::{ParseStop, parse};
use std::alloc::{AllocError, Global};
use std::process::Abort;
use std::test::Fail;

fn row(alloc: Global) -> Result<Values, AllocError> {
    let mut row = Values::new(alloc);
    row.push(Value::Int(7))?;
    row.push(Value::Null)?;
    row.push(Value::Text(Utf8::of(alloc, "x")?))?;
    Ok(row)
}

fn places(alloc: Global, places: &[usize]) -> Result<Places, AllocError> {
    Ok(Places::of_vec(Vec::from_slice(alloc, places)?))
}

fn parse_text(alloc: Global, text: &str) -> Result<Statement, ParseStop> {
    let params = Values::new(alloc);
    parse(alloc, text, &params)
}

// The condition of a DELETE, or the new value of an UPDATE.
fn expr_of(statement: &Statement) -> Option<&Expr> {
    match statement {
        Statement::Delete(delete) => match &delete.pick {
            Some(expr) => Some(expr),
            None => None,
        },
        Statement::Update(update) => match update.sets.items() {
            [set] => Some(&set.expr),
            _ => None,
        },
        _ => None,
    }
}

fn expect_value(
    rt: &impl Abort,
    alloc: Global,
    expr: &Expr,
    at: &[usize],
    want: &Value,
) -> Result<(), AllocError> {
    let value = value_of(alloc, expr, &row(alloc)?, &places(alloc, at)?)?;
    assert!(rt; value == *want);
    Ok(())
}

fn expect_truth(
    rt: &impl Abort,
    alloc: Global,
    expr: &Expr,
    at: &[usize],
    want: Truth,
) -> Result<(), AllocError> {
    let truth = truth_of(alloc, expr, &row(alloc)?, &places(alloc, at)?)?;
    assert!(rt; truth == want);
    Ok(())
}

fn lent_truth(expr: &Expr, row: &Values, places: &Places) -> Truth {
    let lent = Listed { values: row };
    truth_over(expr, &lent, places)
}

fn expect_lent_truth(
    rt: &impl Abort,
    alloc: Global,
    expr: &Expr,
    at: &[usize],
    want: Truth,
) -> Result<(), AllocError> {
    let truth = lent_truth(expr, &row(alloc)?, &places(alloc, at)?);
    assert!(rt; truth == want);
    Ok(())
}

fn expect_truths(
    rt: &impl Abort,
    alloc: Global,
    expr: &Expr,
    at: &[usize],
    want: Truth,
) -> Result<(), AllocError> {
    expect_truth(rt, alloc, expr, at, want)?;
    expect_lent_truth(rt, alloc, expr, at, want)
}

fn expect_value_of_text(
    rt: &impl Abort,
    alloc: Global,
    text: &str,
    at: &[usize],
    want: &Value,
) -> Result<(), AllocError> {
    let text = format!(in alloc; "UPDATE t SET v = {text}")?;
    match parse_text(alloc, text.as_str()) {
        Ok(statement) => match expr_of(&statement) {
            Some(expr) => expect_value(rt, alloc, expr, at, want),
            None => panic!(rt; "no value in {text}"),
        },
        Err(_) => panic!(rt; "no reading of {text}"),
    }
}

fn expect_truth_of_text(
    rt: &impl Abort,
    alloc: Global,
    text: &str,
    at: &[usize],
    want: Truth,
) -> Result<(), AllocError> {
    let text = format!(in alloc; "DELETE FROM t WHERE {text}")?;
    match parse_text(alloc, text.as_str()) {
        Ok(statement) => match expr_of(&statement) {
            Some(expr) => expect_truths(rt, alloc, expr, at, want),
            None => panic!(rt; "no condition in {text}"),
        },
        Err(_) => panic!(rt; "no reading of {text}"),
    }
}

// Numbers, with NULL where a result is outside 64 bits.
#[test]
fn has_numbers(rt: HostRuntime) -> Result<(), Fail> {
    let cases: [(&str, &[usize], i64); 11] = [
        ("a", &[0], 7),
        ("z", &[0], 7),
        ("a + a * 3", &[0, 0], 28),
        ("(a + a) * 3", &[0, 0], 42),
        ("a - 2 - 1", &[0], 4),
        ("a - (2 - 1)", &[0], 6),
        ("- a * 2", &[0], -14),
        ("COUNT(*)", &[], 1),
        ("COUNT(b)", &[1], 0),
        ("SUM(a + 1)", &[0], 8),
        ("-9223372036854775807 - 1", &[], i64::MIN),
    ];
    for (text, at, want) in cases {
        expect_value_of_text(&rt, rt.alloc(), text, at, &Value::Int(want))?;
    }
    Ok(())
}

#[test]
fn has_null(rt: HostRuntime) -> Result<(), Fail> {
    let cases: [(&str, &[usize]); 9] = [
        ("NULL", &[]),
        ("b", &[1]),
        ("b + a", &[1, 0]),
        ("- b", &[1]),
        ("a", &[3]),
        ("SUM(b)", &[1]),
        ("9223372036854775807 + 1", &[]),
        ("-(-9223372036854775807 - 1)", &[]),
        ("4611686018427387904 * 2", &[]),
    ];
    for (text, at) in cases {
        expect_value_of_text(&rt, rt.alloc(), text, at, &Value::Null)?;
    }
    Ok(())
}

#[test]
fn has_texts(rt: HostRuntime) -> Result<(), Fail> {
    let cases: [(&str, &[usize], &str); 4] = [
        ("c", &[2], "x"),
        ("MAX(c)", &[2], "x"),
        ("'it''s'", &[], "it's"),
        ("''", &[], ""),
    ];
    for (text, at, want) in cases {
        let want = Value::Text(Utf8::of(rt.alloc(), want)?);
        expect_value_of_text(&rt, rt.alloc(), text, at, &want)?;
    }
    Ok(())
}

#[test]
fn knows_truths(rt: HostRuntime) -> Result<(), Fail> {
    let cases: [(&str, &[usize], Truth); 16] = [
        ("a = 7", &[0], Truth::True),
        ("a <> 7", &[0], Truth::False),
        ("a < 8", &[0], Truth::True),
        ("a <= 6", &[0], Truth::False),
        ("a > 6", &[0], Truth::True),
        ("a >= 8", &[0], Truth::False),
        ("c = 'X'", &[2], Truth::False),
        ("b = b", &[1, 1], Truth::Unknown),
        ("NOT b = 1", &[1], Truth::Unknown),
        ("b IS NULL", &[1], Truth::True),
        ("b IS NOT NULL", &[1], Truth::False),
        ("b = 1 AND a = 8", &[1, 0], Truth::False),
        ("b = 1 AND a = 7", &[1, 0], Truth::Unknown),
        ("b = 1 OR a = 7", &[1, 0], Truth::True),
        ("a = 7 OR a = 7 AND a = 8", &[0, 0, 0], Truth::True),
        ("(a = 7 OR a = 7) AND a = 8", &[0, 0, 0], Truth::False),
    ];
    for (text, at, want) in cases {
        expect_truth_of_text(&rt, rt.alloc(), text, at, want)?;
    }
    Ok(())
}

// ---- three values: True is a = 7, False is a = 8, and b = 1 is Unknown

#[test]
fn negates_truths(rt: HostRuntime) -> Result<(), Fail> {
    let cases: [(&str, &[usize], Truth); 3] = [
        ("NOT a = 7", &[0], Truth::False),
        ("NOT a = 8", &[0], Truth::True),
        ("NOT b = 1", &[1], Truth::Unknown),
    ];
    for (text, at, want) in cases {
        expect_truth_of_text(&rt, rt.alloc(), text, at, want)?;
    }
    Ok(())
}

#[test]
fn joins_truths_by_and(rt: HostRuntime) -> Result<(), Fail> {
    let cases: [(&str, &[usize], Truth); 9] = [
        ("a = 7 AND a = 7", &[0, 0], Truth::True),
        ("a = 7 AND a = 8", &[0, 0], Truth::False),
        ("a = 7 AND b = 1", &[0, 1], Truth::Unknown),
        ("a = 8 AND a = 7", &[0, 0], Truth::False),
        ("a = 8 AND a = 8", &[0, 0], Truth::False),
        ("a = 8 AND b = 1", &[0, 1], Truth::False),
        ("b = 1 AND a = 7", &[1, 0], Truth::Unknown),
        ("b = 1 AND a = 8", &[1, 0], Truth::False),
        ("b = 1 AND b = 1", &[1, 1], Truth::Unknown),
    ];
    for (text, at, want) in cases {
        expect_truth_of_text(&rt, rt.alloc(), text, at, want)?;
    }
    Ok(())
}

#[test]
fn joins_truths_by_or(rt: HostRuntime) -> Result<(), Fail> {
    let cases: [(&str, &[usize], Truth); 9] = [
        ("a = 7 OR a = 7", &[0, 0], Truth::True),
        ("a = 7 OR a = 8", &[0, 0], Truth::True),
        ("a = 7 OR b = 1", &[0, 1], Truth::True),
        ("a = 8 OR a = 7", &[0, 0], Truth::True),
        ("a = 8 OR a = 8", &[0, 0], Truth::False),
        ("a = 8 OR b = 1", &[0, 1], Truth::Unknown),
        ("b = 1 OR a = 7", &[1, 0], Truth::True),
        ("b = 1 OR a = 8", &[1, 0], Truth::Unknown),
        ("b = 1 OR b = 1", &[1, 1], Truth::Unknown),
    ];
    for (text, at, want) in cases {
        expect_truth_of_text(&rt, rt.alloc(), text, at, want)?;
    }
    Ok(())
}

// ---- comparisons

// With NULL on a side, and on both.
#[test]
fn compares_null(rt: HostRuntime) -> Result<(), Fail> {
    let cases: [(&str, &[usize]); 9] = [
        ("b = a", &[1, 0]),
        ("b <> a", &[1, 0]),
        ("b < a", &[1, 0]),
        ("b <= c", &[1, 2]),
        ("a > b", &[0, 1]),
        ("c >= b", &[2, 1]),
        ("b <> b", &[1, 1]),
        ("a = a", &[0, 3]),
        ("a + b = a + b", &[0, 1, 0, 1]),
    ];
    for (text, at) in cases {
        expect_truth_of_text(&rt, rt.alloc(), text, at, Truth::Unknown)?;
    }
    Ok(())
}

// A text by its bytes. A number comes before each text, also where both show the same: `check` refuses such a
// comparison.
#[test]
fn compares_texts(rt: HostRuntime) -> Result<(), Fail> {
    let cases: [(&str, &[usize], Truth); 12] = [
        ("c = 'x'", &[2], Truth::True),
        ("c <> 'x'", &[2], Truth::False),
        ("c < 'xa'", &[2], Truth::True),
        ("c <= 'w'", &[2], Truth::False),
        ("c > 'X'", &[2], Truth::True),
        ("c >= 'y'", &[2], Truth::False),
        ("a = '7'", &[0], Truth::False),
        ("a < '7'", &[0], Truth::True),
        ("'' > a", &[0], Truth::True),
        ("a >= c", &[0, 2], Truth::False),
        ("c <> a", &[2, 0], Truth::True),
        ("c <= a", &[2, 0], Truth::False),
    ];
    for (text, at, want) in cases {
        expect_truth_of_text(&rt, rt.alloc(), text, at, want)?;
    }
    Ok(())
}

// Values within a condition: each is made where it is compared.
#[test]
fn compares_results(rt: HostRuntime) -> Result<(), Fail> {
    let cases: [(&str, &[usize]); 14] = [
        ("a + a * 3 = 28", &[0, 0]),
        ("(a + a) * 3 = 42", &[0, 0]),
        ("a - 2 - 1 = 4", &[0]),
        ("a - (2 - 1) = 6", &[0]),
        ("- a * 2 = -14", &[0]),
        ("-9223372036854775807 - 1 < 0", &[]),
        ("9223372036854775807 + 1 IS NULL", &[]),
        ("-(-9223372036854775807 - 1) IS NULL", &[]),
        ("4611686018427387904 * 2 IS NULL", &[]),
        ("b + a IS NULL", &[1, 0]),
        ("- b IS NULL", &[1]),
        ("a + 1 IS NOT NULL", &[0]),
        ("c IS NOT NULL AND a = 7", &[2, 0]),
        ("a IS NULL", &[3]),
    ];
    for (text, at) in cases {
        expect_truth_of_text(&rt, rt.alloc(), text, at, Truth::True)?;
    }
    Ok(())
}

// An aggregate over one row.
#[test]
fn compares_aggregates(rt: HostRuntime) -> Result<(), Fail> {
    let cases: [(&str, &[usize]); 8] = [
        ("COUNT(*) = 1", &[]),
        ("COUNT(b) = 0", &[1]),
        ("COUNT(c) = 1", &[2]),
        ("SUM(a + 1) = 8", &[0]),
        ("SUM(b) IS NULL", &[1]),
        ("MIN(a) = 7", &[0]),
        ("MAX(c) = 'x'", &[2]),
        ("MIN(b) IS NULL", &[1]),
    ];
    for (text, at) in cases {
        expect_truth_of_text(&rt, rt.alloc(), text, at, Truth::True)?;
    }
    Ok(())
}

// ---- values that are lent

fn is_null(cell: Cell) -> bool {
    match cell {
        Cell::Null => true,
        Cell::Int(_) => false,
        Cell::Text(_) => false,
    }
}

fn is_number(cell: Cell, want: i64) -> bool {
    match cell {
        Cell::Null => false,
        Cell::Int(number) => number == want,
        Cell::Text(_) => false,
    }
}

fn is_text(cell: Cell, want: &str) -> bool {
    match cell {
        Cell::Null => false,
        Cell::Int(_) => false,
        Cell::Text(text) => text == want,
    }
}

// The values of the row, and NULL past its end.
fn lends_all(row: &Values) -> bool {
    let lent = Listed { values: row };
    is_number(lent.cell(0), 7)
        && is_null(lent.cell(1))
        && is_text(lent.cell(2), "x")
        && is_null(lent.cell(3))
}

#[test]
fn lends_values(rt: HostRuntime) -> Result<(), Fail> {
    let row = row(rt.alloc())?;
    assert!(rt; lends_all(&row));
    assert!(rt; is_null(Cell::of_number(None)) && is_number(Cell::of_number(Some(-3)), -3));
    Ok(())
}
