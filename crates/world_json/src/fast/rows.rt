//! The rows of a table.

ghost use Rattle.std.specs.List.{AllByRecursion};
ghost use Rattle.std.specs.Prelude.{◌<◌, IfOk, OnOk, length};
ghost use Rattle.run_model.specs.TypedPackage.{TypedValues};
ghost use Rattle.world_json.specs.Shape.{array_of, cell_of};
ghost use Rattle.world_json.specs.inner.Taking.{AreTaken, IsTaken};

use crate::fast::items::take_array;
use crate::fast::tokens::open_array;
use crate::rows::NumberedRows;
use crate::shape::ShapeStop;
use json::Reader;
use ldv_value::Values;
use std::alloc::Global;

/// The rows of a table, an array of arrays.
pub(crate) fn take_rows(alloc: Global, reader: &mut Reader<'_>) -> Result<NumberedRows, ShapeStop>
    ensures taken { IfOk result (λ rows. IsTaken (array_of (array_of cell_of)) 2 reader.old rows reader.new) }
    ensures shorter { OnOk result (length reader.new < length reader.old) }
    ensures typed { IfOk result (λ rows. AllByRecursion TypedValues rows) }
{
    open_array(reader)?;
    let rows = take_row_items(alloc, reader)?;
    Ok(rows)
}

// Each row takes as much memory as the one before it had cells.
fn take_row_items(alloc: Global, reader: &mut Reader<'_>) -> Result<NumberedRows, ShapeStop>
    ensures taken { IfOk result (λ rows. AreTaken (array_of cell_of) 1 reader.old rows reader.new) }
    ensures shorter { OnOk result (length reader.new < length reader.old) }
    ensures typed { IfOk result (λ rows. AllByRecursion TypedValues rows) }
{
    let mut found = NumberedRows::new(alloc);
    let mut width = 0;
    'rows: while !reader.take_end_array() {
        let row: Values = take_array(alloc, reader, width)?;
        width = row.len();
        found.push(row)?;
    }
    Ok(found)
}
