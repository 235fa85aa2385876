//! Values that are computed, and misuse.

ghost use Rattle.std.specs.Int.{w64};
ghost use Rattle.std.specs.Option.{SomeIff};
ghost use Rattle.std.specs.Prelude.{◌≡◌, ℤ, FitsSigned, IfOk};
ghost use Rattle.run_model.specs.StepBase.{number_within};
ghost use Rattle.run_model.specs.StepVariables.{calculation, concatenation, text_within, to_number};
ghost use Rattle.run_model.specs.StepVariables.{result_of};
ghost use Rattle.run_model.specs.StepVariables.{number_or_misuse};
ghost use Rattle.proc_core.specs.inner.Slots.{computation_of};

use ldv_value::{TEXT_LIMIT, Utf8, Value, push_text};
use script_parse::{CalcOp, read_number};
use sql_model::is_null;
use std::alloc::{AllocError, Global};

/// A value of the wrong kind, or a name that means nothing.
pub(crate) const WRONG_KIND: u8 = 240;
/// A number that doesn't fit in 64 bits.
pub(crate) const NUMBER_TOO_LARGE: u8 = 241;
/// Too many bytes.
pub(crate) const TOO_LONG: u8 = 242;
/// A value that is no path.
pub(crate) const BAD_PATH: u8 = 243;
/// Bytes that aren't UTF-8.
pub(crate) const NOT_UTF8: u8 = 244;

/// A value, or misuse with its status.
#[derive(Drop)]
pub(crate) enum Computed {
    Yields(Value),
    Misused(u8),
}

/// `v + w`, `v - w` or `v * w`.
pub(crate) fn calculate_values(op: CalcOp, left: &Value, right: &Value) -> Computed
    ensures { computation_of result ≡ calculation op left.now right.now }
{
    match (left, right) {
        (Value::Null, _) => Computed::Misused(WRONG_KIND),
        (Value::Int(_), Value::Null) => Computed::Misused(WRONG_KIND),
        (Value::Int(m), Value::Int(n)) => number(op, *m, *n),
        (Value::Int(_), Value::Text(_)) => Computed::Misused(WRONG_KIND),
        (Value::Text(_), _) => Computed::Misused(WRONG_KIND),
    }
}

fn number(op: CalcOp, m: i64, n: i64) -> Computed
    ensures { computation_of result ≡ number_within (result_of op m n) }
{
    match op {
        CalcOp::Add => within(m.checked_add(n)),
        CalcOp::Subtract => within(m.checked_sub(n)),
        CalcOp::Multiply => within(m.checked_mul(n)),
    }
}

// The result of checked arithmetic; misuse where it doesn't fit in 64 bits.
#[tactic(auto, using(crate::proofs::Numbers::within_some, crate::proofs::Numbers::within_none))]
fn within(number: Option<i64>) -> Computed
    ensures { (z : ℤ) → SomeIff number (FitsSigned w64 z) z → computation_of result ≡ number_within z }
{
    match number {
        Some(number) => Computed::Yields(Value::Int(number)),
        None => Computed::Misused(NUMBER_TOO_LARGE),
    }
}

/// `v ++ w`.
pub(crate) fn concatenate(
    alloc: Global,
    left: &Value,
    right: &Value,
) -> Result<Computed, AllocError>
    ensures { IfOk result (λ c. computation_of c ≡ concatenation left.now right.now) }
{
    if is_null(left) || is_null(right) {
        return Ok(Computed::Misused(WRONG_KIND));
    }
    let mut text = Utf8::new(alloc);
    push_text(left, &mut text)?;
    push_text(right, &mut text)?;
    Ok(text_within(text))
}

fn text_within(text: Utf8) -> Computed
    ensures { computation_of result ≡ text_within text }
{
    if text.len() > TEXT_LIMIT {
        Computed::Misused(TOO_LONG)
    } else {
        Computed::Yields(Value::Text(text))
    }
}

/// `int v`.
pub(crate) fn to_number(value: &Value) -> Computed
    ensures { computation_of result ≡ to_number value.now }
{
    match value {
        Value::Null => Computed::Misused(WRONG_KIND),
        Value::Int(number) => Computed::Yields(Value::Int(*number)),
        Value::Text(text) => read(read_number(text.as_str())),
    }
}

// The number that a text writes; misuse where it writes none.
fn read(number: Option<i64>) -> Computed
    ensures { computation_of result ≡ number_or_misuse number }
{
    match number {
        None => Computed::Misused(WRONG_KIND),
        Some(number) => Computed::Yields(Value::Int(number)),
    }
}
