//! The world that the generator makes.

ghost use Rattle.std.specs.Prelude.{◌≡◌, ◌++◌, map, codes, IfOk};
ghost use Rattle.std.specs.Fmt.{decimal};
ghost use Rattle.std.specs.List.{range_with_len};
ghost use Rattle.run_model.specs.ValidWorld.{CanRun, ValidWorld};
ghost use Rattle.world_json.specs.Generated.{customer_columns, customer_row, customer_values, customers};
ghost use Rattle.world_json.specs.Generated.{generated_world, keyed_table, needed_column, order_columns, order_row};
ghost use Rattle.world_json.specs.Generated.{order_values, orders, script_file};

use itoa::Buffer;
use ldv_value::{Bytes, File, Files, Places, Utf8, Value, Values, Words};
use run_model::World;
use sql_model::{Column, Columns, Foreigns, Schema, Table, TableRow, TableRows, Tables};
use std::alloc::{AllocError, Global};

const START: &str = "main";

const SCRIPT: &str =
    "sql q \"SELECT c.name, SUM(o.amount) FROM orders o JOIN customers c ON o.customer = c.id \
    WHERE o.amount < 50 GROUP BY c.name\"\n\
    open f w \"report.txt\" else done\n\
    next:\n\
    fetch q n s else done\n\
    write f n \" \" s\n\
    goto next\n\
    done:\n\
    sql d \"DELETE FROM orders WHERE amount >= 90\"\n\
    sql c \"SELECT COUNT(*) FROM orders WHERE amount < 50\"\n\
    fetch c k else end\n\
    print k\n\
    end:\n";

/// A world to try out and to measure with: ten customers, `n` orders, 1 to 100,000, and a script. The script
/// writes what each customer has ordered in small orders, deletes the large ones, and counts the small ones.
/// The world is valid, and it can be run. `AllocError` means out of memory only.
pub fn generate(alloc: Global, n: u32) -> Result<World, AllocError>
    ensures world { IfOk result (λ world. world ≡ generated_world n) }
    ensures valid { IfOk result (λ world. ValidWorld world) }
    ensures runs { IfOk result (λ world. CanRun world) }
{
    made_world(alloc, n)
}

fn made_world(alloc: Global, n: u32) -> Result<World, AllocError>
    ensures { IfOk result (λ world. world ≡ generated_world n) }
{
    let mut start = Words::new(alloc);
    start.push(Utf8::of(alloc, START)?)?;
    let mut files = Files::new(alloc);
    files.push(script_file(alloc)?)?;
    let mut tables = Tables::new(alloc);
    tables.push(customers(alloc)?)?;
    tables.push(orders(alloc, n)?)?;
    Ok(World {
        start,
        seed: 0,
        files,
        tables,
    })
}

fn script_file(alloc: Global) -> Result<File, AllocError>
    ensures { IfOk result (λ file. file ≡ script_file) }
{
    Ok(File {
        path: Utf8::of(alloc, START)?,
        content: Bytes::of_slice(alloc, SCRIPT.as_bytes())?,
    })
}

// A column in which no NULL may be.
fn needed_column(alloc: Global, name: &str, text: bool) -> Result<Column, AllocError>
    ensures { IfOk result (λ column. column ≡ needed_column name.now text) }
{
    Ok(Column {
        name: Utf8::of(alloc, name)?,
        text,
        not_null: true,
    })
}

// A table whose first column is its key.
fn keyed_table(
    alloc: Global,
    name: &str,
    columns: Columns,
    rows: TableRows,
    next: u32,
) -> Result<Table, AllocError>
    ensures { IfOk result (λ table. table ≡ keyed_table name.now columns rows next) }
{
    let mut key = Places::new(alloc);
    key.push(0)?;
    Ok(Table {
        name: Utf8::of(alloc, name)?,
        schema: Schema {
            columns,
            key,
            foreign: Foreigns::new(alloc),
        },
        rows,
        next,
    })
}

fn customers(alloc: Global) -> Result<Table, AllocError>
    ensures { IfOk result (λ table. table ≡ customers) }
{
    let columns = customer_columns(alloc)?;
    let rows = customer_rows(alloc, 10)?;
    keyed_table(alloc, "customers", columns, rows, 10)
}

fn customer_columns(alloc: Global) -> Result<Columns, AllocError>
    ensures { IfOk result (λ columns. columns ≡ customer_columns) }
{
    let mut columns = Columns::new(alloc);
    columns.push(needed_column(alloc, "id", false)?)?;
    columns.push(needed_column(alloc, "name", true)?)?;
    Ok(columns)
}

#[tactic(auto, using(crate::proofs::GeneratedRows::customers_more))]
fn customer_rows(alloc: Global, count: u32) -> Result<TableRows, AllocError>
    ensures { IfOk result (λ rows. rows ≡ map customer_row (range_with_len 0 count)) }
{
    let mut rows = TableRows::with_capacity(alloc, count as usize)?;
    for number in 0..count {
        rows.push(customer_row(alloc, number)?)?;
    }
    Ok(rows)
}

fn customer_row(alloc: Global, number: u32) -> Result<TableRow, AllocError>
    ensures { IfOk result (λ row. row ≡ customer_row number) }
{
    Ok(TableRow {
        number,
        values: customer_values(alloc, number)?,
    })
}

fn customer_values(alloc: Global, number: u32) -> Result<Values, AllocError>
    ensures { IfOk result (λ values. values ≡ customer_values number) }
{
    let mut values = Values::with_capacity(alloc, 2)?;
    values.push(Value::Int(number as i64))?;
    values.push(Value::Text(customer_name(alloc, number)?))?;
    Ok(values)
}

fn customer_name(alloc: Global, number: u32) -> Result<Utf8, AllocError>
    ensures { IfOk result (λ name. name ≡ codes "c" ++ decimal number) }
{
    let mut buffer = Buffer::new();
    let mut name = Utf8::of(alloc, "c")?;
    name.push_str(buffer.format(number))?;
    Ok(name)
}

fn orders(alloc: Global, n: u32) -> Result<Table, AllocError>
    ensures { IfOk result (λ table. table ≡ orders n) }
{
    let columns = order_columns(alloc)?;
    let rows = order_rows(alloc, n)?;
    keyed_table(alloc, "orders", columns, rows, n)
}

fn order_columns(alloc: Global) -> Result<Columns, AllocError>
    ensures { IfOk result (λ columns. columns ≡ order_columns) }
{
    let mut columns = Columns::new(alloc);
    columns.push(needed_column(alloc, "id", false)?)?;
    columns.push(needed_column(alloc, "customer", false)?)?;
    columns.push(needed_column(alloc, "amount", false)?)?;
    Ok(columns)
}

#[tactic(auto, using(crate::proofs::GeneratedRows::orders_more))]
fn order_rows(alloc: Global, count: u32) -> Result<TableRows, AllocError>
    ensures { IfOk result (λ rows. rows ≡ map order_row (range_with_len 0 count)) }
{
    let mut rows = TableRows::with_capacity(alloc, count as usize)?;
    for number in 0..count {
        rows.push(order_row(alloc, number)?)?;
    }
    Ok(rows)
}

fn order_row(alloc: Global, number: u32) -> Result<TableRow, AllocError>
    ensures { IfOk result (λ row. row ≡ order_row number) }
{
    Ok(TableRow {
        number,
        values: order_values(alloc, number)?,
    })
}

fn order_values(alloc: Global, number: u32) -> Result<Values, AllocError>
    ensures { IfOk result (λ values. values ≡ order_values number) }
{
    let mut values = Values::with_capacity(alloc, 3)?;
    values.push(Value::Int(number as i64))?;
    values.push(Value::Int((number % 10) as i64))?;
    values.push(Value::Int((7 * number as u64 % 100) as i64))?;
    Ok(values)
}
