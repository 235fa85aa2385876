//! The cores of a checked query.

ghost use Rattle.std.specs.Prelude.{◌≡◌, [], Some};
ghost use Rattle.predicates.specs.Types.{TheQuery};
ghost use Rattle.predicates.specs.Checking.{core_at, HasCore, IsQuery, places_at};

use ldv_value::Places;
use sql_model::{Checked, Core, Query, Statement};

/// The core at a place, from 0.
pub fn core_of(checked: &Checked, place: usize) -> &Core
    requires { HasCore checked.now place }
    ensures { core_at checked.now place ≡ Some result.now }
{
    match &checked.statement {
        Statement::Query(query) => match query.cores.get(place) {
            Some(core) => core,
            None => unreachable!(),
        },
        Statement::Insert(_) => unreachable!(),
        Statement::Update(_) => unreachable!(),
        Statement::Delete(_) => unreachable!(),
    }
}

/// The query of a checked statement.
pub fn query_of(checked: &Checked) -> &Query
    requires { IsQuery checked.now.statement }
    ensures { checked.now.statement ≡ TheQuery result.now }
{
    match &checked.statement {
        Statement::Query(query) => query,
        Statement::Insert(_) => unreachable!(),
        Statement::Update(_) => unreachable!(),
        Statement::Delete(_) => unreachable!(),
    }
}

/// The places of the column names of the core at a place, from 0. At the place after the last core they are
/// those of ORDER BY, and past it they are `none`, an empty list that the caller gives.
pub fn column_indexes<'a>(checked: &'a Checked, place: usize, none: &'a Places) -> &'a Places
    requires { none.now ≡ [] }
    ensures { result.now ≡ places_at checked.now place }
{
    match checked.places.get(place) {
        None => none,
        Some(places) => places,
    }
}
