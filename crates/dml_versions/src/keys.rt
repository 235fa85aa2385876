//! The key that WHERE fixes.

ghost use Rattle.std.specs.Prelude.{◌≡◌, Some, IfOk, IfSome};
ghost use Rattle.dml_versions.specs.inner.Fixing.{WhereFixesKey};

use ldv_value::{Places, Values};
use predicates::{conjuncts_of, fixed_key};
use sql_model::{Expr, Schema};
use std::alloc::{AllocError, Global};

/// The key of all rows for which WHERE is True, if WHERE compares each of the key's columns by `=` with a
/// constant; otherwise `None`. `places` has the places of WHERE's columns, from 0.
pub(crate) fn picked_key(
    alloc: Global,
    schema: &Schema,
    pick: &Option<Expr>,
    places: &Places,
) -> Result<Option<Values>, AllocError>
    ensures { IfOk result (λ fixed. IfSome fixed (WhereFixesKey pick.now places.now schema.now.key)) }
{
    match pick {
        None => Ok(None),
        Some(expr) => key_by(alloc, schema, expr, places),
    }
}

// The key that a WHERE fixes, if it fixes one.
fn key_by(
    alloc: Global,
    schema: &Schema,
    expr: &Expr,
    places: &Places,
) -> Result<Option<Values>, AllocError>
    ensures { IfOk result (λ fixed. IfSome fixed (WhereFixesKey (Some expr.now) places.now schema.now.key)) }
{
    let conds = conjuncts_of(alloc, expr, places)?;
    let fixed = fixed_key(alloc, conds.items(), 0, schema)?;
    Ok(fixed)
}
