//! A statement with its parameters put in.

ghost use Rattle.std.specs.Prelude.{◌≡◌, IfOk};
ghost use Rattle.ldv_value.specs.Cells.{value_at};
ghost use Rattle.sql_template.specs.Filling.{filled_statement, filled_expr, filled_exprs, filled_item, filled_items};
ghost use Rattle.sql_template.specs.Filling.{filled_pick, filled_limit, filled_core, filled_query, filled_set};
ghost use Rattle.sql_template.specs.Filling.{filled_insert, filled_update, filled_delete};
ghost use Rattle.sql_template.specs.Preparing.{given_in, given_at, open_place};
ghost use Rattle.std.specs.Prelude.{map};

use ldv_value::{CopyItem, List, Names, Utf8, Value, Values};
use sql_model::{
    Core, Cores, Delete, Expr, ExprRows, Exprs, Insert, Item, Items, Query, Set, Sets, Statement,
    Update,
};
use sqlite_items::Boxed;
use std::alloc::{AllocError, Global};

/// The place of the parameter for which a number stands.
pub(crate) fn open_place(number: i64) -> Option<usize>
    ensures { result ≡ open_place number }
{
    if number < 0 {
        Some((-1 - number) as usize)
    } else {
        None
    }
}

fn parameter(alloc: Global, params: &Values, place: usize) -> Result<Value, AllocError>
    ensures { IfOk result (λ value. value ≡ value_at params.now place) }
{
    match params.get(place) {
        None => Ok(Value::Null),
        Some(value) => value.copy_item(alloc),
    }
}

fn number(alloc: Global, number: i64, params: &Values) -> Result<Value, AllocError>
    ensures { IfOk result (λ value. value ≡ given_at params.now (open_place number) number) }
{
    match open_place(number) {
        None => Ok(Value::Int(number)),
        Some(place) => parameter(alloc, params, place),
    }
}

fn constant(alloc: Global, value: &Value, params: &Values) -> Result<Value, AllocError>
    ensures { IfOk result (λ made. made ≡ given_in params.now value.now) }
{
    match value {
        Value::Null => Ok(Value::Null),
        Value::Int(z) => number(alloc, *z, params),
        Value::Text(text) => Ok(Value::Text(text.copy()?)),
    }
}

#[tactic(auto, using(crate::proofs::FillRules::fill_rules))]
fn expr(alloc: Global, template: &Expr, params: &Values) -> Result<Expr, AllocError>
    ensures { IfOk result (λ made. made ≡ filled_expr (given_in params.now) template.now) }
{
    match template {
        Expr::Constant(value) => Ok(Expr::Constant(constant(alloc, value, params)?)),
        Expr::Column(name) => Ok(Expr::Column(name.copy_item(alloc)?)),
        Expr::Negate(inner) => {
            let copy = expr(alloc, inner.get(), params)?;
            Ok(Expr::Negate(Boxed::new(alloc, copy)?))
        }
        Expr::Not(inner) => {
            let copy = expr(alloc, inner.get(), params)?;
            Ok(Expr::Not(Boxed::new(alloc, copy)?))
        }
        Expr::Both(operator, left, right) => {
            let left = expr(alloc, left.get(), params)?;
            let right = expr(alloc, right.get(), params)?;
            let left = Boxed::new(alloc, left)?;
            Ok(Expr::Both(*operator, left, Boxed::new(alloc, right)?))
        }
        Expr::IsNull(inner, negated) => {
            let copy = expr(alloc, inner.get(), params)?;
            Ok(Expr::IsNull(Boxed::new(alloc, copy)?, *negated))
        }
        Expr::Aggregate(fold, None) => Ok(Expr::Aggregate(*fold, None)),
        Expr::Aggregate(fold, Some(inner)) => {
            let copy = expr(alloc, inner.get(), params)?;
            Ok(Expr::Aggregate(*fold, Some(Boxed::new(alloc, copy)?)))
        }
    }
}

fn exprs(alloc: Global, template: &Exprs, params: &Values) -> Result<Exprs, AllocError>
    ensures { IfOk result (λ made. made ≡ filled_exprs (given_in params.now) template.now) }
{
    let mut made = List::with_capacity(alloc, template.len())?;
    for item in template.items() {
        made.push(expr(alloc, item, params)?)?;
    }
    Ok(made)
}

fn pick(alloc: Global, template: &Option<Expr>, params: &Values) -> Result<Option<Expr>, AllocError>
    ensures { IfOk result (λ made. made ≡ filled_pick (given_in params.now) template.now) }
{
    match template {
        None => Ok(None),
        Some(inner) => Ok(Some(expr(alloc, inner, params)?)),
    }
}

fn limit(
    alloc: Global,
    template: &Option<Value>,
    params: &Values,
) -> Result<Option<Value>, AllocError>
    ensures { IfOk result (λ made. made ≡ filled_limit (given_in params.now) template.now) }
{
    match template {
        None => Ok(None),
        Some(value) => Ok(Some(constant(alloc, value, params)?)),
    }
}

fn name(template: &Option<Utf8>) -> Result<Option<Utf8>, AllocError>
    ensures { IfOk result (λ made. made ≡ template.now) }
{
    match template {
        None => Ok(None),
        Some(name) => Ok(Some(name.copy()?)),
    }
}

fn item(alloc: Global, template: &Item, params: &Values) -> Result<Item, AllocError>
    ensures { IfOk result (λ made. made ≡ filled_item (given_in params.now) template.now) }
{
    Ok(Item {
        expr: expr(alloc, &template.expr, params)?,
        name: name(&template.name)?,
    })
}

fn item_list(alloc: Global, template: &Items, params: &Values) -> Result<Items, AllocError>
    ensures { IfOk result (λ made. made ≡ map (filled_item (given_in params.now)) template.now) }
{
    let mut made = List::with_capacity(alloc, template.len())?;
    for one in template.items() {
        made.push(item(alloc, one, params)?)?;
    }
    Ok(made)
}

fn items(
    alloc: Global,
    template: &Option<Items>,
    params: &Values,
) -> Result<Option<Items>, AllocError>
    ensures { IfOk result (λ made. made ≡ filled_items (given_in params.now) template.now) }
{
    match template {
        None => Ok(None),
        Some(items) => Ok(Some(item_list(alloc, items, params)?)),
    }
}

fn core(alloc: Global, template: &Core, params: &Values) -> Result<Core, AllocError>
    ensures { IfOk result (λ made. made ≡ filled_core (given_in params.now) template.now) }
{
    Ok(Core {
        joined_all: template.joined_all,
        distinct: template.distinct,
        items: items(alloc, &template.items, params)?,
        from: template.from.copy()?,
        picks: exprs(alloc, &template.picks, params)?,
        group: template.group.copy()?,
        having: pick(alloc, &template.having, params)?,
    })
}

fn cores(alloc: Global, template: &Cores, params: &Values) -> Result<Cores, AllocError>
    ensures { IfOk result (λ made. made ≡ map (filled_core (given_in params.now)) template.now) }
{
    let mut made = List::with_capacity(alloc, template.len())?;
    for one in template.items() {
        made.push(core(alloc, one, params)?)?;
    }
    Ok(made)
}

fn query(alloc: Global, template: &Query, params: &Values) -> Result<Query, AllocError>
    ensures { IfOk result (λ made. made ≡ filled_query (given_in params.now) template.now) }
{
    Ok(Query {
        cores: cores(alloc, &template.cores, params)?,
        order: template.order.copy()?,
        limit: limit(alloc, &template.limit, params)?,
    })
}

fn names(template: &Option<Names>) -> Result<Option<Names>, AllocError>
    ensures { IfOk result (λ made. made ≡ template.now) }
{
    match template {
        None => Ok(None),
        Some(names) => Ok(Some(names.copy()?)),
    }
}

fn rows(alloc: Global, template: &ExprRows, params: &Values) -> Result<ExprRows, AllocError>
    ensures { IfOk result (λ made. made ≡ map (filled_exprs (given_in params.now)) template.now) }
{
    let mut made = List::with_capacity(alloc, template.len())?;
    for one in template.items() {
        made.push(exprs(alloc, one, params)?)?;
    }
    Ok(made)
}

fn insert(alloc: Global, template: &Insert, params: &Values) -> Result<Insert, AllocError>
    ensures { IfOk result (λ made. made ≡ filled_insert (given_in params.now) template.now) }
{
    Ok(Insert {
        table: template.table.copy()?,
        columns: names(&template.columns)?,
        rows: rows(alloc, &template.rows, params)?,
    })
}

fn set(alloc: Global, template: &Set, params: &Values) -> Result<Set, AllocError>
    ensures { IfOk result (λ made. made ≡ filled_set (given_in params.now) template.now) }
{
    Ok(Set {
        column: template.column.copy()?,
        expr: expr(alloc, &template.expr, params)?,
    })
}

fn sets(alloc: Global, template: &Sets, params: &Values) -> Result<Sets, AllocError>
    ensures { IfOk result (λ made. made ≡ map (filled_set (given_in params.now)) template.now) }
{
    let mut made = List::with_capacity(alloc, template.len())?;
    for one in template.items() {
        made.push(set(alloc, one, params)?)?;
    }
    Ok(made)
}

fn update(alloc: Global, template: &Update, params: &Values) -> Result<Update, AllocError>
    ensures { IfOk result (λ made. made ≡ filled_update (given_in params.now) template.now) }
{
    Ok(Update {
        table: template.table.copy()?,
        sets: sets(alloc, &template.sets, params)?,
        pick: pick(alloc, &template.pick, params)?,
    })
}

fn delete(alloc: Global, template: &Delete, params: &Values) -> Result<Delete, AllocError>
    ensures { IfOk result (λ made. made ≡ filled_delete (given_in params.now) template.now) }
{
    Ok(Delete {
        table: template.table.copy()?,
        pick: pick(alloc, &template.pick, params)?,
    })
}

/// A statement with these parameters in its open places.
pub(crate) fn statement(
    alloc: Global,
    template: &Statement,
    params: &Values,
) -> Result<Statement, AllocError>
    ensures { IfOk result (λ made. made ≡ filled_statement (given_in params.now) template.now) }
{
    match template {
        Statement::Query(inner) => Ok(Statement::Query(query(alloc, inner, params)?)),
        Statement::Insert(inner) => Ok(Statement::Insert(insert(alloc, inner, params)?)),
        Statement::Update(inner) => Ok(Statement::Update(update(alloc, inner, params)?)),
        Statement::Delete(inner) => Ok(Statement::Delete(delete(alloc, inner, params)?)),
    }
}
