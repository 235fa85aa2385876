//! The result of executing a statement.

ghost use Rattle.std.specs.Prelude.{◌≡◌, IfOk};
ghost use Rattle.sql_engine.specs.Asking.{refusal_change};

use dml_versions::Change;
use ldv_value::{List, Names};
use sql_model::{Members, Needs, Reply, SqlRefusal};
use std::alloc::Global;

/// The reply to a statement, and the lists that are recorded: the tables that it asks, the rows that it needs
/// and the row versions that it makes. If no events are kept, the lists may be anything.
#[derive(Drop)]
pub(crate) struct Recorded {
    pub reply: Reply,
    pub tables: Names,
    pub needs: Needs,
    pub made: Members,
}

/// A refusal that needs no row.
pub(crate) fn refusal_change(alloc: Global, refusal: SqlRefusal) -> Change
    ensures { result ≡ refusal_change refusal }
{
    Change {
        reply: Reply::Refused(refusal),
        made: List::new(alloc),
        needs: List::new(alloc),
    }
}
