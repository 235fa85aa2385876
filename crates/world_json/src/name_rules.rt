//! The fault Name: a path or the name of a table or a column breaks its rule, a name comes twice, or a key, a
//! foreign key or a parent names nothing.

ghost use Rattle.std.specs.Prelude.{◌≡◌, ◌&&◌, ℕ, List, IfOk, map};
ghost use Rattle.std.specs.List.{list_all, list_any};
ghost use Rattle.ldv_value.specs.Names.{path_test};
ghost use Rattle.sql_model.specs.Scope.{same_text, has_column};
ghost use Rattle.world_json.specs.Faults.{is_named, is_table_named, is_start_named};
ghost use Rattle.world_json.specs.inner.NameSets.{is_known, is_key_known, is_foreign_known, are_keys_known};
ghost use Rattle.world_json.specs.inner.NameSets.{is_table_known};

use crate::document::{Document, Draft, DraftForeign, DraftForeigns, Drafts};
use ldv_value::{Files, Names, Words, is_path};
use sql_model::{Columns, has_twice, is_sql_name, meets_column_names};
use std::alloc::{AllocError, Global};
use std::collections::BTreeSet;

/// Whether every path and every name meets its rule. `AllocError` means out of memory only.
pub(crate) fn meets_names(alloc: Global, document: &Document) -> Result<bool, AllocError>
    ensures { IfOk result (λ holds. holds ≡ is_named document.now) }
{
    if !meets_paths(&document.files) {
        return Ok(false);
    }
    if !meets_table_names(alloc, &document.tables)? {
        return Ok(false);
    }
    Ok(meets_start(&document.start))
}

fn meets_paths(files: &Files) -> bool
    ensures { result ≡ list_all (λ file. path_test file.path) files.now }
{
    files.items().iter().all(|file| is_path(file.path.as_str()))
}

// The first start word is a path. The others are free.
fn meets_start(words: &Words) -> bool
    ensures { result ≡ is_start_named words.now }
{
    match words.items() {
        [] => false,
        [word, ..] => is_path(word.as_str()),
    }
}

fn meets_table_names(alloc: Global, tables: &Drafts) -> Result<bool, AllocError>
    ensures { IfOk result (λ holds. holds
        ≡ list_all (is_table_named (map (λ table. table.name) tables.now)) tables.now) }
{
    let known = table_set(alloc, tables)?;
    each_table_known(alloc, &known, tables)
}

fn table_set<'a>(alloc: Global, tables: &'a Drafts) -> Result<BTreeSet<&'a str>, AllocError>
    ensures { IfOk result (λ known. (name : List ℕ)
        → is_known known name ≡ list_any (λ table. same_text table.name name) tables.now) }
{
    let mut known = BTreeSet::new(alloc);
    for table in tables.items() {
        known.insert(table.name.as_str())?;
    }
    Ok(known)
}

fn each_table_known(
    alloc: Global,
    known: &BTreeSet<&str>,
    tables: &Drafts,
) -> Result<bool, AllocError>
    ensures { IfOk result (λ holds. holds ≡ list_all (is_table_known known.now) tables.now) }
{
    for table in tables.items() {
        if !is_table_known(alloc, known, table)? {
            return Ok(false);
        }
    }
    Ok(true)
}

fn is_table_known(alloc: Global, tables: &BTreeSet<&str>, table: &Draft) -> Result<bool, AllocError>
    ensures { IfOk result (λ holds. holds ≡ is_table_known tables.now table.now) }
{
    if !is_sql_name(table.name.as_str()) {
        return Ok(false);
    }
    if !meets_column_names(alloc, &table.columns)? {
        return Ok(false);
    }
    are_keys_known(alloc, tables, table)
}

// The key and the foreign keys name columns of the table, and the parents are tables.
fn are_keys_known(alloc: Global, tables: &BTreeSet<&str>, table: &Draft) -> Result<bool, AllocError>
    ensures { IfOk result (λ holds. holds ≡ are_keys_known tables.now table.now) }
{
    let columns = column_set(alloc, &table.columns)?;
    are_all_known(alloc, &columns, tables, table)
}

fn are_all_known(
    alloc: Global,
    columns: &BTreeSet<&str>,
    tables: &BTreeSet<&str>,
    table: &Draft,
) -> Result<bool, AllocError>
    ensures { IfOk result (λ holds. holds ≡ (is_key_known columns.now table.now.key
        && list_all (is_foreign_known columns.now tables.now) table.now.foreign)) }
{
    if !is_key_known(alloc, columns, &table.key)? {
        return Ok(false);
    }
    each_foreign_known(alloc, columns, tables, &table.foreign)
}

fn each_foreign_known(
    alloc: Global,
    columns: &BTreeSet<&str>,
    tables: &BTreeSet<&str>,
    foreigns: &DraftForeigns,
) -> Result<bool, AllocError>
    ensures { IfOk result (λ holds. holds
        ≡ list_all (is_foreign_known columns.now tables.now) foreigns.now) }
{
    for foreign in foreigns.items() {
        if !is_foreign_known(alloc, columns, tables, foreign)? {
            return Ok(false);
        }
    }
    Ok(true)
}

fn is_foreign_known(
    alloc: Global,
    columns: &BTreeSet<&str>,
    tables: &BTreeSet<&str>,
    foreign: &DraftForeign,
) -> Result<bool, AllocError>
    ensures { IfOk result (λ holds. holds ≡ is_foreign_known columns.now tables.now foreign.now) }
{
    if !is_key_known(alloc, columns, &foreign.columns)? {
        return Ok(false);
    }
    Ok(tables.contains(foreign.parent.as_str()))
}

// Every name of the key is a column's, and no two are the same.
fn is_key_known(alloc: Global, known: &BTreeSet<&str>, key: &Names) -> Result<bool, AllocError>
    ensures { IfOk result (λ holds. holds ≡ is_key_known known.now key.now) }
{
    if !are_known(known, key) {
        return Ok(false);
    }
    let names = key_names(alloc, key)?;
    Ok(!has_twice(alloc, names)?)
}

fn column_set<'a>(alloc: Global, columns: &'a Columns) -> Result<BTreeSet<&'a str>, AllocError>
    ensures { IfOk result (λ known. (name : List ℕ) → is_known known name ≡ has_column columns.now name) }
{
    let mut known = BTreeSet::new(alloc);
    for column in columns.items() {
        known.insert(column.name.as_str())?;
    }
    Ok(known)
}

fn are_known(known: &BTreeSet<&str>, key: &Names) -> bool
    ensures { result ≡ list_all (is_known known.now) key.now }
{
    key.items().iter().all(|name| known.contains(name.as_str()))
}

fn key_names<'a>(alloc: Global, key: &'a Names) -> Result<Vec<&'a str>, AllocError>
    ensures { IfOk result (λ names. map (λ name. name.now) names.items ≡ key.now) }
{
    let mut names = Vec::with_capacity(alloc, key.len())?;
    for name in key.items() {
        names.push(name.as_str())?;
    }
    Ok(names)
}
