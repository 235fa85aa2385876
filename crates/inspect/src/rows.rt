//! The report on rows.

ghost use Rattle.std.specs.Prelude.{◌≡◌, ◌++◌, IfOk, OnOk};
ghost use Rattle.std.specs.List.{flat_map};
ghost use Rattle.inspect.specs.RowReports.{row_line, rows_report, table_lines};

use crate::append::append_rule;
use ldv_value::{Bytes, Utf8};
use run_model::{Package, PackedRow, PackedTable};
use std::alloc::{AllocError, Global};
use trace_graph::append_numbered;

/// A line `TABLE ROW STATEMENT RULE` for each row of a package, by table and row: the first statement that
/// needed the row, and its rule.
pub fn rows_text(alloc: Global, package: &Package) -> Result<Bytes, AllocError>
    ensures { IfOk result (λ text. text ≡ rows_report «package».now.tables) }
{
    let mut text = Bytes::new(alloc);
    append_tables(&mut text, package.tables.items())?;
    Ok(text)
}

fn append_tables(to: &mut Bytes, tables: &[PackedTable]) -> Result<(), AllocError>
    ensures { OnOk result (to.new ≡ to.old ++ rows_report tables.now) }
{
    for table in tables {
        append_table(to, table)?;
    }
    Ok(())
}

fn append_table(to: &mut Bytes, table: &PackedTable) -> Result<(), AllocError>
    ensures { OnOk result (to.new ≡ to.old ++ table_lines table.now) }
{
    append_rows(to, &table.name, table.rows.items())
}

fn append_rows(to: &mut Bytes, table: &Utf8, rows: &[PackedRow]) -> Result<(), AllocError>
    ensures { OnOk result (to.new ≡ to.old ++ flat_map (row_line table.now) rows.now) }
{
    for row in rows {
        append_row(to, table, row)?;
    }
    Ok(())
}

fn append_row(to: &mut Bytes, table: &Utf8, row: &PackedRow) -> Result<(), AllocError>
    ensures { OnOk result (to.new ≡ to.old ++ row_line table.now row.now) }
{
    to.extend(table.as_str().as_bytes())?;
    append_numbered(to, b" ", row.number as u64)?;
    append_numbered(to, b" ", row.statement as u64)?;
    to.extend(b" ")?;
    append_rule(to, row.rule)?;
    to.extend(b"\n")
}
