//! Whether LIMIT has a number of rows once the parameters are put in.

ghost use Rattle.std.specs.Prelude.{◌≡◌, Some, true};
ghost use Rattle.ldv_value.specs.Cells.{value_at};
ghost use Rattle.sql_model.specs.Refusals.{is_limit};
ghost use Rattle.sql_template.specs.Filling.{filled_limit};
ghost use Rattle.sql_template.specs.Kinds.{FitsLimit};
ghost use Rattle.sql_template.specs.Preparing.{given_in, given_at, open_place};
ghost use Rattle.sql_template.specs.Types.{Int};

use crate::filling::open_place;
use ldv_value::{Value, Values};
use sql_model::Statement;

fn is_count(number: i64) -> bool
    ensures { result ≡ is_limit (Some (Int number)) }
{
    if number < 0 { false } else { true }
}

fn is_limit(value: &Value) -> bool
    ensures { result ≡ is_limit (Some value.now) }
{
    match value {
        Value::Null => false,
        Value::Int(number) => is_count(*number),
        Value::Text(_) => false,
    }
}

fn parameter_fits(params: &Values, place: usize) -> bool
    ensures { result ≡ is_limit (Some (value_at params.now place)) }
{
    match params.get(place) {
        None => false,
        Some(value) => is_limit(value),
    }
}

fn number_fits(number: i64, params: &Values) -> bool
    ensures { result ≡ is_limit (Some (given_at params.now (open_place number) number)) }
{
    match open_place(number) {
        None => is_count(number),
        Some(place) => parameter_fits(params, place),
    }
}

fn limit_fits(limit: &Option<Value>, params: &Values) -> bool
    ensures { result ≡ is_limit (filled_limit (given_in params.now) limit.now) }
{
    match limit {
        None => true,
        Some(Value::Null) => false,
        Some(Value::Int(number)) => number_fits(*number, params),
        Some(Value::Text(_)) => false,
    }
}

/// Whether LIMIT is absent or, with these parameters, a number of rows.
pub(crate) fn fits_limit(template: &Statement, params: &Values) -> bool
    ensures { result ≡ true → FitsLimit (given_in params.now) template.now }
{
    match template {
        Statement::Query(query) => limit_fits(&query.limit, params),
        Statement::Insert(_) => true,
        Statement::Update(_) => true,
        Statement::Delete(_) => true,
    }
}
