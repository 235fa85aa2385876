//! Rows whose cells are lent.

ghost use Rattle.std.specs.Prelude.{◌≡◌, List as Items};
ghost use Rattle.lent_cells.specs.Lending.{cell_value};
ghost use Rattle.ldv_value.specs.Cells.{value_at};
ghost use Rattle.ldv_value.specs.declared.value.Value.{Value as Given};

use crate::cell::Cell;
use ldv_value::Values;

/// A row whose cells are lent.
pub trait CellsAt {
    /// The values of the row.
    ghost listed: { Self → Items Given };

    /// The cell at a place; past the last there is NULL.
    fn cell<'a>(&'a self, place: usize) -> Cell<'a>
        ensures { cell_value result ≡ value_at (listed self.now) place };
}

/// A row that is a list of values.
#[derive(Drop)]
pub struct Listed<'r> {
    pub values: &'r Values,
}

impl<'r> CellsAt for Listed<'r> {
    ghost listed = { λ r. r.values.now };

    fn cell<'a>(&'a self, place: usize) -> Cell<'a> {
        match self.values.get(place) {
            None => Cell::Null,
            Some(value) => Cell::of(value),
        }
    }
}
