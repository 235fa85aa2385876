//! A package, taken apart: the list of its run's needs, and the files and tables themselves. No value is
//! copied; the run keeps copies of names and paths.

ghost use Rattle.std.specs.Prelude.{◌≡◌, ◌++◌, map, IfOk, OnOk};
ghost use Rattle.std.specs.List.{flat_map};
ghost use Rattle.joined_data.specs.Joined.{present_path, presents_of, row_reason, table_reasons, whole_path};
ghost use Rattle.joined_data.specs.Joined.{wholes_of};
ghost use Rattle.joined_data.specs.Parts.{parts_in};

use crate::joined::{JoinedRun, Reason, Reasons};
use ldv_value::{List, Names, Paths, Utf8};
use run_model::{Package, PackedFile, PackedFiles, PackedRows, PackedTables, own_tables_of};
use sql_model::Tables;
use std::alloc::{AllocError, Global};

/// The parts of a package.
#[derive(Drop)]
pub(crate) struct Parts {
    pub(crate) run: JoinedRun,
    pub(crate) files: PackedFiles,
    pub(crate) tables: Tables,
}

/// Takes an included package apart.
pub(crate) fn parts_of(alloc: Global, package: Package) -> Result<Parts, AllocError>
    ensures { IfOk result (λ parts. parts ≡ parts_in «package») }
{
    let wholes = wholes_of(alloc, &package.files)?;
    let presents = presents_of(alloc, &package.files)?;
    let names = names_of(alloc, &package.tables)?;
    let reasons = reasons_of(alloc, &package.tables)?;
    let Package {
        mode: _,
        start,
        seed,
        steps,
        files,
        tables,
        logs: _,
        events,
    } = package;
    Ok(Parts {
        run: JoinedRun {
            start,
            seed,
            steps,
            wholes,
            presents,
            tables: names,
            reasons,
            events,
        },
        files,
        tables: own_tables_of(alloc, tables)?,
    })
}

fn whole_path(file: &PackedFile) -> Result<Option<Utf8>, AllocError>
    ensures { IfOk result (λ path. path ≡ whole_path file.now) }
{
    match &file.content {
        Some(_bytes) => Ok(Some(file.path.copy()?)),
        None => Ok(None),
    }
}

fn present_path(file: &PackedFile) -> Result<Option<Utf8>, AllocError>
    ensures { IfOk result (λ path. path ≡ present_path file.now) }
{
    match &file.content {
        Some(_bytes) => Ok(None),
        None => Ok(Some(file.path.copy()?)),
    }
}

fn wholes_of(alloc: Global, files: &PackedFiles) -> Result<Paths, AllocError>
    ensures { IfOk result (λ paths. paths ≡ wholes_of files.now) }
{
    let mut paths = List::new(alloc);
    for file in files.items() {
        paths.push_some(whole_path(file)?)?;
    }
    Ok(paths)
}

fn presents_of(alloc: Global, files: &PackedFiles) -> Result<Paths, AllocError>
    ensures { IfOk result (λ paths. paths ≡ presents_of files.now) }
{
    let mut paths = List::new(alloc);
    for file in files.items() {
        paths.push_some(present_path(file)?)?;
    }
    Ok(paths)
}

fn names_of(alloc: Global, tables: &PackedTables) -> Result<Names, AllocError>
    ensures { IfOk result (λ names. names ≡ map (λ table. table.name) tables.now) }
{
    let mut names = List::new(alloc);
    for table in tables.items() {
        names.push(table.name.copy()?)?;
    }
    Ok(names)
}

// How many rows the tables have in all. It says no more than for how many there is to be room.
fn row_count(tables: &PackedTables) -> usize {
    let mut count: usize = 0;
    for table in tables.items() {
        count = count.saturating_add(table.rows.len());
    }
    count
}

fn reasons_of(alloc: Global, tables: &PackedTables) -> Result<Reasons, AllocError>
    ensures { IfOk result (λ reasons. reasons ≡ flat_map table_reasons tables.now) }
{
    let mut reasons = List::with_capacity(alloc, row_count(tables))?;
    for table in tables.items() {
        add_reasons(&table.name, &table.rows, &mut reasons)?;
    }
    Ok(reasons)
}

fn add_reasons(table: &Utf8, rows: &PackedRows, reasons: &mut Reasons) -> Result<(), AllocError>
    ensures { OnOk result (reasons.new ≡ reasons.old ++ map (row_reason table.now) rows.now) }
{
    for row in rows.items() {
        reasons.push(Reason {
            table: table.copy()?,
            row: row.number,
            statement: row.statement,
            rule: row.rule,
        })?;
    }
    Ok(())
}
