//! The tables that a statement names.

ghost use Rattle.std.specs.Prelude.{◌≡◌};
ghost use Rattle.std.specs.List.{list_any};
ghost use Rattle.sql_engine.specs.inner.Listing.{is_text, names_table};

use ldv_value::Utf8;
use sql_model::{Core, Statement};

// Whether a core has a table among its sources.
fn core_names(core: &Core, name: &Utf8) -> bool
    ensures { result ≡ list_any (λ item. is_text name.now item.table) core.now.from }
{
    core.from.items().iter().any(|item| *name == item.table)
}

// Whether a query has a table among the sources of its cores.
fn cores_name(cores: &[Core], name: &Utf8) -> bool
    ensures { result ≡ list_any (λ core. list_any (λ item. is_text name.now item.table) core.from) cores.now }
{
    cores.iter().any(|core| core_names(core, name))
}

/// Whether a statement names a table.
#[tactic(auto, using(crate::proofs::Named::cores_name))]
pub(crate) fn names_table(statement: &Statement, name: &Utf8) -> bool
    ensures { result ≡ names_table statement.now name.now }
{
    match statement {
        Statement::Query(query) => cores_name(query.cores.items(), name),
        Statement::Insert(insert) => *name == insert.table,
        Statement::Update(update) => *name == update.table,
        Statement::Delete(delete) => *name == delete.table,
    }
}
