//! The statement in the result of a check.

ghost use Rattle.std.specs.Prelude.{◌≡◌};
ghost use Rattle.dml_versions.specs.Changing.{IsInsert, IsUpdate, IsDelete};
ghost use Rattle.dml_versions.specs.Types.{TheInsert, TheUpdate, TheDelete};

use sql_model::{Checked, Delete, Insert, Statement, Update};

/// The INSERT.
pub(crate) fn insert_of(checked: &Checked) -> &Insert
    requires { IsInsert checked.now.statement }
    ensures { checked.now.statement ≡ TheInsert result.now }
{
    match &checked.statement {
        Statement::Query(_) => unreachable!(),
        Statement::Insert(insert) => insert,
        Statement::Update(_) => unreachable!(),
        Statement::Delete(_) => unreachable!(),
    }
}

/// The UPDATE.
pub(crate) fn update_of(checked: &Checked) -> &Update
    requires { IsUpdate checked.now.statement }
    ensures { checked.now.statement ≡ TheUpdate result.now }
{
    match &checked.statement {
        Statement::Query(_) => unreachable!(),
        Statement::Insert(_) => unreachable!(),
        Statement::Update(update) => update,
        Statement::Delete(_) => unreachable!(),
    }
}

/// The DELETE.
pub(crate) fn delete_of(checked: &Checked) -> &Delete
    requires { IsDelete checked.now.statement }
    ensures { checked.now.statement ≡ TheDelete result.now }
{
    match &checked.statement {
        Statement::Query(_) => unreachable!(),
        Statement::Insert(_) => unreachable!(),
        Statement::Update(_) => unreachable!(),
        Statement::Delete(delete) => delete,
    }
}
