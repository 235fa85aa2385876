//! The first row of a table with the key of an earlier row. No key is copied.

ghost use Rattle.std.specs.Prelude.{◌≡◌, IfOk};
ghost use Rattle.std.specs.Option.{option_map};
ghost use Rattle.sql_model.specs.Changes.{key_clash};
ghost use Rattle.joined_data.specs.inner.TakenKeys.{first_taken_row, unseen};

use ldv_value::Places;
use sql_model::{KeyOf, Table, TableRow};
use std::alloc::{AllocError, Global};
use std::collections::BTreeSet;

/// The number of the first row, in number order, whose key an earlier row has.
#[tactic(auto, using(crate::proofs::TakenKeys::second_is, crate::proofs::TakenKeys::second_none))]
pub(crate) fn second_row(alloc: Global, table: &Table) -> Result<Option<u32>, AllocError>
    ensures { IfOk result (λ row. row ≡ option_map (λ clash. clash.later.number) (key_clash table.now)) }
{
    if table.schema.key.is_empty() {
        return Ok(None);
    }
    first_taken_row(alloc, &table.schema.key, table.rows.items())
}

fn first_taken_row(
    alloc: Global,
    places: &Places,
    rows: &[TableRow],
) -> Result<Option<u32>, AllocError>
    ensures { IfOk result (λ row. row ≡ first_taken_row places.now unseen rows.now) }
{
    let mut seen = BTreeSet::new(alloc);
    for row in rows {
        let added = seen.insert(KeyOf::of(&row.values, places))?;
        if !added {
            return Ok(Some(row.number));
        }
    }
    Ok(None)
}
