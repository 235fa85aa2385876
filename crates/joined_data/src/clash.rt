//! The differences between two packages.

ghost use Rattle.std.specs.Prelude.{◌≡◌, IfOk, Option};
ghost use Rattle.ldv_value.specs.Options.{first_some as first_of};
ghost use Rattle.joined_data.specs.declared.joined.Clash.{Clash as TheClash};
ghost use Rattle.joined_data.specs.Joined.{clash_at, clash_if, file_clash, file_cmp};
ghost use Rattle.joined_data.specs.Joined.{keys_clash, rows_clash, table_clash, table_cmp};
ghost use Rattle.joined_data.specs.Merging.{first_clash};

use crate::differences::{contents_differ, tables_differ, values_differ};
use crate::joined::{Clash, ClashKind};
use crate::key_clash::second_row;
use crate::merging::Mergeable;
use ldv_value::Utf8;
use run_model::PackedFile;
use sql_model::{Table, TableRow};
use std::alloc::{AllocError, Global};
use std::cmp::Ordering;

fn clash_if(
    differ: bool,
    kind: ClashKind,
    name: &Utf8,
    row: u32,
) -> Result<Option<Clash>, AllocError>
    ensures { IfOk result (λ clash. clash ≡ clash_if differ (clash_at kind name.now row)) }
{
    if differ {
        Ok(Some(Clash {
            kind,
            name: name.copy()?,
            row,
        }))
    } else {
        Ok(None)
    }
}

// A way to compare two items of one key.
trait ClashTest<X> {
    ghost differ: { Self → X → X → Option TheClash };

    // In what the two differ.
    fn clash_of(&self, a: &X, b: &X) -> Result<Option<Clash>, AllocError>
        ensures { IfOk result (λ clash. clash ≡ differ self.now a.now b.now) };
}

// Files that are whole have the same bytes.
#[derive(Drop)]
struct Contents;

impl ClashTest<PackedFile> for Contents {
    ghost use Rattle.joined_data.specs.Joined.{file_clash};

    ghost differ = { λ _. file_clash };

    fn clash_of(&self, a: &PackedFile, b: &PackedFile) -> Result<Option<Clash>, AllocError> {
        clash_if(
            contents_differ(&a.content, &b.content),
            ClashKind::File,
            &a.path,
            0,
        )
    }
}

// Tables have the same schemas and next numbers.
#[derive(Drop)]
struct Schemas;

impl ClashTest<Table> for Schemas {
    ghost use Rattle.joined_data.specs.Joined.{table_clash};

    ghost differ = { λ _. table_clash };

    fn clash_of(&self, a: &Table, b: &Table) -> Result<Option<Clash>, AllocError> {
        clash_if(tables_differ(a, b), ClashKind::Table, &a.name, 0)
    }
}

// Tables have the same rows, as far as both have them.
#[derive(Drop)]
struct Rows;

impl ClashTest<Table> for Rows {
    ghost use Rattle.joined_data.specs.Joined.{rows_clash};

    ghost differ = { λ _. rows_clash };

    fn clash_of(&self, a: &Table, b: &Table) -> Result<Option<Clash>, AllocError> {
        let rows = RowsOf { table: &a.name };
        first_clash(&rows, a.rows.items(), b.rows.items())
    }
}

// Rows of a table have the same values.
#[derive(Clone, Copy)]
struct RowsOf<'a> {
    table: &'a Utf8,
}

impl<'a> ClashTest<TableRow> for RowsOf<'a> {
    ghost use Rattle.joined_data.specs.Joined.{row_clash};

    ghost differ = { λ rows. row_clash rows.table.now };

    fn clash_of(&self, a: &TableRow, b: &TableRow) -> Result<Option<Clash>, AllocError> {
        clash_if(
            values_differ(&a.values, &b.values),
            ClashKind::Row,
            self.table,
            a.number,
        )
    }
}

// The first clash of two items of one key. Both lists are sorted.
fn first_clash<X: Mergeable, T: ClashTest<X>>(
    test: &T,
    first: &[X],
    second: &[X],
) -> Result<Option<Clash>, AllocError>
    ensures { IfOk result (λ clash.
        clash ≡ first_clash X.key_cmp (T.differ test.now) first.now second.now) }
{
    let mut left = first;
    let mut right = second;
    loop {
        match left {
            [] => return Ok(None),
            [x, xs @ ..] => match right {
                [] => left = xs,
                [y, ys @ ..] => match x.compare(y) {
                    Ordering::Less => left = xs,
                    Ordering::Equal => {
                        let clash = test.clash_of(x, y)?;
                        if clash.is_some() {
                            return Ok(clash);
                        }
                        left = xs;
                        right = ys;
                    }
                    Ordering::Greater => right = ys,
                },
            },
        }
    }
}

/// The first file that both have whole, with different bytes. The files are sorted.
pub(crate) fn files_clash(
    first: &[PackedFile],
    second: &[PackedFile],
) -> Result<Option<Clash>, AllocError>
    ensures { IfOk result (λ clash. clash ≡ first_clash file_cmp file_clash first.now second.now) }
{
    first_clash(&Contents, first, second)
}

/// The first table that both have with different schemas or next numbers. The tables are sorted.
pub(crate) fn schemas_clash(first: &[Table], second: &[Table]) -> Result<Option<Clash>, AllocError>
    ensures { IfOk result (λ clash. clash ≡ first_clash table_cmp table_clash first.now second.now) }
{
    first_clash(&Schemas, first, second)
}

/// The first row that both have with different values. Tables and rows are sorted.
pub(crate) fn values_clash(first: &[Table], second: &[Table]) -> Result<Option<Clash>, AllocError>
    ensures { IfOk result (λ clash. clash ≡ first_clash table_cmp rows_clash first.now second.now) }
{
    first_clash(&Rows, first, second)
}

/// The first table in which a row has the key of an earlier row.
pub(crate) fn taken_key(alloc: Global, tables: &[Table]) -> Result<Option<Clash>, AllocError>
    ensures { IfOk result (λ clash. clash ≡ first_of keys_clash tables.now) }
{
    let mut left = tables;
    loop {
        match left {
            [] => return Ok(None),
            [table, rest @ ..] => {
                let clash = keys_clash(alloc, table)?;
                if clash.is_some() {
                    return Ok(clash);
                }
                left = rest;
            }
        }
    }
}

fn keys_clash(alloc: Global, table: &Table) -> Result<Option<Clash>, AllocError>
    ensures { IfOk result (λ clash. clash ≡ keys_clash table.now) }
{
    match second_row(alloc, table)? {
        None => Ok(None),
        Some(row) => Ok(Some(Clash {
            kind: ClashKind::Key,
            name: table.name.copy()?,
            row,
        })),
    }
}
