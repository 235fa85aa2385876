//! Statements that change a table.

ghost use Rattle.sql_parse.specs.inner.Gives.{ReadsPart};
ghost use Rattle.sql_model.specs.Texts.{reads_columns, reads_insert, reads_set, reads_update, reads_delete};

use crate::error::ParseStop;
use crate::expression::expression;
use crate::part_list::{Part, optional_expression, parse_list};
use crate::reader::Reader;
use ldv_value::{Names, Utf8};
use sql_model::{Delete, Exprs, Insert, Set, Update};
use std::alloc::Global;

/// Reads the rest of an INSERT, after its first word.
pub(crate) fn insert(alloc: Global, reader: &mut Reader) -> Result<Insert, ParseStop>
    ensures { ReadsPart result reader.new (reads_insert reader.old) }
{
    reader.expect("into")?;
    let table = reader.take_name(alloc)?;
    let columns = columns(alloc, reader)?;
    reader.expect("values")?;
    let rows = parse_list::<Exprs>(alloc, reader)?;
    Ok(Insert {
        table,
        columns,
        rows,
    })
}

// The names of columns in parentheses, where they stand.
fn columns(alloc: Global, reader: &mut Reader) -> Result<Option<Names>, ParseStop>
    ensures { ReadsPart result reader.new (reads_columns reader.old) }
{
    if !reader.starts("(") {
        return Ok(None);
    }
    reader.skip();
    let names = parse_list::<Utf8>(alloc, reader)?;
    reader.expect(")")?;
    Ok(Some(names))
}

/// Reads the rest of an UPDATE, after its first word.
pub(crate) fn update(alloc: Global, reader: &mut Reader) -> Result<Update, ParseStop>
    ensures { ReadsPart result reader.new (reads_update reader.old) }
{
    let table = reader.take_name(alloc)?;
    reader.expect("set")?;
    let sets = parse_list::<Set>(alloc, reader)?;
    let pick = optional_expression(alloc, reader, "where")?;
    Ok(Update { table, sets, pick })
}

impl Part for Set {
    ghost reads = { reads_set };

    fn read(alloc: Global, reader: &mut Reader) -> Result<Self, ParseStop> {
        let column = reader.take_name(alloc)?;
        reader.expect("=")?;
        let expr = expression(alloc, reader)?;
        Ok(Set { column, expr })
    }
}

/// Reads the rest of a DELETE, after its first word.
pub(crate) fn delete(alloc: Global, reader: &mut Reader) -> Result<Delete, ParseStop>
    ensures { ReadsPart result reader.new (reads_delete reader.old) }
{
    reader.expect("from")?;
    let table = reader.take_name(alloc)?;
    let pick = optional_expression(alloc, reader, "where")?;
    Ok(Delete { table, pick })
}
