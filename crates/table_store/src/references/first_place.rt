//! The first foreign key of a table over the columns of another.

ghost use Rattle.std.specs.Prelude.{◌≡◌, ◌<◌, length, position};
ghost use Rattle.std.specs.List.{position_or_len};
ghost use Rattle.table_store.specs.inner.ChildPairs.{first_place, has_columns};

use ldv_value::Places;
use sql_model::Foreign;

/// The place of the first foreign key over the columns of the one at a place. A table has at most 16.
pub(crate) fn first_place(foreigns: &[Foreign], place: usize) -> usize
    requires { place < length foreigns.now }
    ensures { result ≡ first_place foreigns.now place }
{
    place_or_len(foreigns, &foreigns[place].columns)
}

// The place of the first foreign key over these columns, or their number.
#[tactic(auto, using(ldv_value::proofs::Places::place_or_len))]
fn place_or_len(foreigns: &[Foreign], columns: &Places) -> usize
    ensures { result ≡ position_or_len (has_columns columns.now) foreigns.now }
{
    place_of(foreigns, columns).unwrap_or(foreigns.len())
}

fn place_of(foreigns: &[Foreign], columns: &Places) -> Option<usize>
    ensures { result ≡ position (has_columns columns.now) foreigns.now }
{
    foreigns
        .iter()
        .position(|foreign| has_columns(foreign, columns))
}

fn has_columns(foreign: &Foreign, columns: &Places) -> bool
    ensures { result ≡ has_columns columns.now foreign.now }
{
    foreign.columns.items() == columns.items()
}
