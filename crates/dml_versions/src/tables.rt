//! Tables of a store that are known to exist.

ghost use Rattle.std.specs.Prelude.{◌≡◌, IsSome, Some};
ghost use Rattle.dml_versions.specs.inner.Holding.{IsHeld};
ghost use Rattle.table_store.specs.Histories.{history_at};

use ldv_value::Utf8;
use table_store::{Store, TableStore};

/// The table with a name, which the store has.
pub(crate) fn table_of<'a>(store: &'a Store, name: &Utf8) -> &'a TableStore
    requires { IsSome (history_at name.now store.now) }
    ensures found { history_at name.now store.now ≡ Some result.now }
    ensures held { IsHeld store.now.time result.now }
{
    match store.table(name.as_str()) {
        Some(table) => {
            table.tell_order();
            table.tell_times();
            table
        }
        None => unreachable!(),
    }
}
