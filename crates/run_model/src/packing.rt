//! Tables with the rows that have reasons.

ghost use Rattle.std.specs.Prelude.{◌≡◌, ◌++◌, ◌∷◌, [], OnOk, IfOk, if◌then◌else◌};
ghost use Rattle.std.specs.List.{filter_map};
ghost use Rattle.std.specs.Option.{option_map};
ghost use Rattle.run_model.specs.Packing.{has_name, reason_at, reason_from, row_reason, row_because};
ghost use Rattle.run_model.specs.Packing.{table_because, tables_because};
ghost use Rattle.run_model.specs.Slice.{packed_because};

use crate::first_reasons::{Reasons, RowReasons, Why};
use crate::name_set::{NameSet, has_name};
use crate::package::{PackedRow, PackedRows, PackedTable, PackedTables};
use ldv_value::CopyItem;
use sql_model::{Table, TableRow};
use std::alloc::{AllocError, Global};

fn find_reason(reasons: &RowReasons, row: u32) -> Option<Why>
    ensures { option_map reason_from result ≡ row_reason reasons.now row }
{
    reasons.get(&row).copied()
}

fn pack_because(row: &TableRow, why: Option<Why>) -> Result<Option<PackedRow>, AllocError>
    ensures { IfOk result (λ packed. packed ≡ option_map (packed_because row.now) (option_map reason_from
        why)) }
{
    match why {
        None => Ok(None),
        Some(why) => Ok(Some(PackedRow {
            number: row.number,
            statement: why.statement,
            rule: why.rule,
            values: row.values.copy()?,
        })),
    }
}

fn pack_rows(
    alloc: Global,
    reasons: &RowReasons,
    rows: &[TableRow],
) -> Result<PackedRows, AllocError>
    ensures { IfOk result (λ packed. packed ≡ filter_map (row_because (row_reason reasons.now)) rows.now) }
{
    let mut packed = PackedRows::new(alloc);
    for row in rows {
        let why = find_reason(reasons, row.number);
        packed.push_some(pack_because(row, why)?)?;
    }
    Ok(packed)
}

// The needed rows of a table, which is looked up once.
fn needed_rows(alloc: Global, reasons: &Reasons, table: &Table) -> Result<PackedRows, AllocError>
    ensures { IfOk result (λ packed. packed ≡ filter_map (row_because (reason_at reasons.now table.now.name))
        table.now.rows) }
{
    match reasons.get(table.name.as_str()) {
        None => Ok(PackedRows::new(alloc)),
        Some(rows) => pack_rows(alloc, rows, table.rows.items()),
    }
}

fn pack_table(alloc: Global, reasons: &Reasons, table: &Table) -> Result<PackedTable, AllocError>
    ensures { IfOk result (λ packed. packed ≡ table_because (reason_at reasons.now) table.now) }
{
    Ok(PackedTable {
        name: table.name.copy()?,
        schema: table.schema.copy_item(alloc)?,
        next: table.next,
        rows: needed_rows(alloc, reasons, table)?,
    })
}

// Appends a table with its needed rows, if its name is among the names.
fn push_asked(
    alloc: Global,
    to: &mut PackedTables,
    names: &NameSet,
    reasons: &Reasons,
    table: &Table,
) -> Result<(), AllocError>
    ensures { OnOk result (to.new ≡ (if has_name names.now table.now.name then to.old
        ++ table_because (reason_at reasons.now) table.now ∷ [] else to.old)) }
{
    if has_name(names, &table.name) {
        to.push(pack_table(alloc, reasons, table)?)
    } else {
        Ok(())
    }
}

/// The tables whose names are among `names`, with the rows that have reasons.
pub fn pack_tables(
    alloc: Global,
    names: &NameSet,
    reasons: &Reasons,
    tables: &[Table],
) -> Result<PackedTables, AllocError>
    ensures { IfOk result (λ packed. packed ≡ tables_because (reason_at reasons.now) (has_name names.now)
        tables.now) }
{
    let mut packed = PackedTables::new(alloc);
    for table in tables {
        push_asked(alloc, &mut packed, names, reasons, table)?;
    }
    Ok(packed)
}
