//! Tables that don't exist, and sources of one name.

ghost use Rattle.std.specs.Prelude.{◌≡◌, ◌||◌, IfOk};
ghost use Rattle.std.specs.List.{flat_map, list_any};
ghost use Rattle.sql_model.specs.Refusals.{tables_of_core, is_missing, doubles_source, lacks_table};

use crate::duplicate::has_duplicate;
use crate::scope::schema_at;
use ldv_value::Utf8;
use sql_model::{Catalog, Core, Statement};
use std::alloc::{AllocError, Global};

/// Whether a table doesn't exist, or two sources of one core have one name.
#[tactic(auto, using(crate::proofs::Mapped::last_test))]
pub(crate) fn has_unknown_table(
    alloc: Global,
    statement: &Statement,
    catalog: &Catalog,
) -> Result<bool, AllocError>
    ensures { IfOk result (λ lacks. lacks ≡ lacks_table statement.now catalog.now) }
{
    match statement {
        Statement::Query(query) => cores_lack_table(alloc, query.cores.items(), catalog),
        Statement::Insert(insert) => Ok(is_missing(catalog, &insert.table)),
        Statement::Update(update) => Ok(is_missing(catalog, &update.table)),
        Statement::Delete(delete) => Ok(is_missing(catalog, &delete.table)),
    }
}

#[tactic(auto, using(crate::proofs::Parts::missing_cores))]
fn cores_lack_table(alloc: Global, cores: &[Core], catalog: &Catalog) -> Result<bool, AllocError>
    ensures { IfOk result (λ lacks. lacks
        ≡ (list_any (is_missing catalog.now) (flat_map tables_of_core cores.now)
        || list_any doubles_source cores.now)) }
{
    if have_unknown_table(cores, catalog) {
        return Ok(true);
    }
    have_duplicate_source(alloc, cores)
}

fn have_unknown_table(cores: &[Core], catalog: &Catalog) -> bool
    ensures { result
        ≡ list_any (λ core. list_any (λ item. is_missing catalog.now item.table) core.from) cores.now }
{
    cores.iter().any(|core| names_unknown_table(core, catalog))
}

fn names_unknown_table(core: &Core, catalog: &Catalog) -> bool
    ensures { result ≡ list_any (λ item. is_missing catalog.now item.table) core.now.from }
{
    core.from
        .items()
        .iter()
        .any(|item| is_missing(catalog, &item.table))
}

fn is_missing(catalog: &Catalog, name: &Utf8) -> bool
    ensures { result ≡ is_missing catalog.now name.now }
{
    match schema_at(catalog, name) {
        None => true,
        Some(_) => false,
    }
}

fn have_duplicate_source(alloc: Global, cores: &[Core]) -> Result<bool, AllocError>
    ensures { IfOk result (λ twice. twice ≡ list_any doubles_source cores.now) }
{
    for core in cores {
        if has_duplicate(alloc, core.from.items())? {
            return Ok(true);
        }
    }
    Ok(false)
}
