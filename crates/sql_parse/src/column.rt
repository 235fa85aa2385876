//! Names of columns.

ghost use Rattle.sql_parse.specs.inner.Gives.{ReadsPart};
ghost use Rattle.sql_model.specs.Columns.{column_after, reads_column};

use crate::error::ParseStop;
use crate::reader::Reader;
use ldv_value::Utf8;
use sql_model::ColumnName;
use std::alloc::Global;

/// Reads a column.
pub(crate) fn column(alloc: Global, reader: &mut Reader) -> Result<ColumnName, ParseStop>
    ensures { ReadsPart result reader.new (reads_column reader.old) }
{
    let name = reader.take_name(alloc)?;
    column_after(alloc, reader, name)
}

/// Reads the rest of a column, after its first name. That is its own name or that of its source.
pub(crate) fn column_after(
    alloc: Global,
    reader: &mut Reader,
    name: Utf8,
) -> Result<ColumnName, ParseStop>
    ensures { ReadsPart result reader.new (column_after name reader.old) }
{
    if reader.starts(".") {
        reader.skip();
        let second = reader.take_name(alloc)?;
        return Ok(ColumnName {
            table: Some(name),
            name: second,
        });
    }
    Ok(ColumnName { table: None, name })
}
