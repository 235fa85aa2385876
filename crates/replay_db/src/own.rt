//! The own world of a package.

ghost use Rattle.std.specs.Prelude.{◌≡◌, Some, map, IfOk};
ghost use Rattle.run_model.specs.Package.{or_empty, own_file, own_row, own_table, own_world};
ghost use Rattle.run_model.specs.Start.{IsParsed, start_script};
ghost use Rattle.replay_db.specs.Runs.{CanRun};

use crate::start::parsed_world;
use ldv_value::{Bytes, CopyItem, File, Files};
use run_model::{
    Package, PackedFile, PackedFiles, PackedRow, PackedRows, PackedTable, PackedTables,
    ParsedWorld, World, own_tables_of,
};
use script_parse::Script;
use sql_model::{Table, TableRow, TableRows, Tables};
use std::alloc::{AllocError, Global};

fn own_content(alloc: Global, content: &Option<Bytes>) -> Result<Bytes, AllocError>
    ensures { IfOk result (λ bytes. bytes ≡ or_empty content.now) }
{
    match content {
        None => Ok(Bytes::new(alloc)),
        Some(bytes) => Ok(bytes.copy()?),
    }
}

fn own_file(alloc: Global, file: &PackedFile) -> Result<File, AllocError>
    ensures { IfOk result (λ own. own ≡ own_file file.now) }
{
    Ok(File {
        path: file.path.copy()?,
        content: own_content(alloc, &file.content)?,
    })
}

fn own_files(alloc: Global, packed: &PackedFiles) -> Result<Files, AllocError>
    ensures { IfOk result (λ files. files ≡ map own_file packed.now) }
{
    let mut files = Files::new(alloc);
    for file in packed.items() {
        files.push(own_file(alloc, file)?)?;
    }
    Ok(files)
}

fn own_row(row: &PackedRow) -> Result<TableRow, AllocError>
    ensures { IfOk result (λ own. own ≡ own_row row.now) }
{
    Ok(TableRow {
        number: row.number,
        values: row.values.copy()?,
    })
}

fn own_rows(alloc: Global, packed: &PackedRows) -> Result<TableRows, AllocError>
    ensures { IfOk result (λ rows. rows ≡ map own_row packed.now) }
{
    let mut rows = TableRows::with_capacity(alloc, packed.len())?;
    for row in packed.items() {
        rows.push(own_row(row)?)?;
    }
    Ok(rows)
}

fn own_table(alloc: Global, table: &PackedTable) -> Result<Table, AllocError>
    ensures { IfOk result (λ own. own ≡ own_table table.now) }
{
    Ok(Table {
        name: table.name.copy()?,
        schema: table.schema.copy_item(alloc)?,
        rows: own_rows(alloc, &table.rows)?,
        next: table.next,
    })
}

fn own_tables(alloc: Global, packed: &PackedTables) -> Result<Tables, AllocError>
    ensures { IfOk result (λ tables. tables ≡ map own_table packed.now) }
{
    let mut tables = Tables::new(alloc);
    for table in packed.items() {
        tables.push(own_table(alloc, table)?)?;
    }
    Ok(tables)
}

/// The own world of a package: a copy of its start words, seed, files and tables. A present file is empty in
/// it. `AllocError` means out of memory only.
pub fn own_world(alloc: Global, package: &Package) -> Result<World, AllocError>
    ensures { IfOk result (λ world. world ≡ own_world «package».now) }
{
    Ok(World {
        start: package.start.copy()?,
        seed: package.seed,
        files: own_files(alloc, &package.files)?,
        tables: own_tables(alloc, &package.tables)?,
    })
}

/// The same as `own_world`, with the first script.
pub(crate) fn parsed_copy(alloc: Global, package: &Package) -> Result<ParsedWorld, AllocError>
    requires { CanRun (own_world «package».now) }
    ensures world { IfOk result (λ p. p.world ≡ own_world «package».now) }
    ensures parsed { IfOk result IsParsed }
{
    let world = own_world(alloc, package)?;
    parsed_world(alloc, world)
}

// ---- in the package's own memory

fn content_of(alloc: Global, content: Option<Bytes>) -> Bytes
    ensures { result ≡ or_empty content }
{
    match content {
        None => Bytes::new(alloc),
        Some(bytes) => bytes,
    }
}

fn file_of(alloc: Global, file: PackedFile) -> File
    ensures { result ≡ own_file file }
{
    let PackedFile { path, content } = file;
    File {
        path,
        content: content_of(alloc, content),
    }
}

fn files_of(alloc: Global, packed: PackedFiles) -> Result<Files, AllocError>
    ensures { IfOk result (λ files. files ≡ map own_file packed) }
{
    let mut files = Files::with_capacity(alloc, packed.len())?;
    for file in packed.into_vec() {
        files.push(file_of(alloc, file))?;
    }
    Ok(files)
}

/// The same as `own_world`, in the package's own memory: no file and no row is copied.
pub fn own_world_of(alloc: Global, package: Package) -> Result<World, AllocError>
    ensures { IfOk result (λ world. world ≡ own_world «package») }
{
    let Package {
        mode: _,
        start,
        seed,
        steps: _,
        files,
        tables,
        logs: _,
        events: _,
    } = package;
    Ok(World {
        start,
        seed,
        files: files_of(alloc, files)?,
        tables: own_tables_of(alloc, tables)?,
    })
}

/// The same as `own_world_of`, with the first script, which was parsed before.
pub fn own_parsed_world(
    alloc: Global,
    package: Package,
    script: Script,
) -> Result<ParsedWorld, AllocError>
    requires { start_script (own_world «package») ≡ Some script.instructions }
    ensures world { IfOk result (λ p. p.world ≡ own_world «package») }
    ensures parsed { IfOk result IsParsed }
{
    let world = own_world_of(alloc, package)?;
    Ok(ParsedWorld { world, script })
}
