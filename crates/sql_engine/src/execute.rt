//! Statements over a store: a text is found in the cache, or parsed and checked; then it is executed, and its
//! lists are recorded.

ghost use Rattle.std.specs.Prelude.{◌≡◌, ◌<◌, ◌≤◌, length, Some, Ok, IfOk, OnOk, OnErr, IsTrue, Bool};
ghost use Rattle.predicates.specs.Checking.{IsQuery};
ghost use Rattle.dml_versions.specs.Changing.{IsCheckedOver};
ghost use Rattle.sql_engine.specs.Asking.{IsRecorded, IsOutcome, recorded_of};
ghost use Rattle.sql_engine.specs.inner.Keeping.{IsCacheOf};
ghost use Rattle.sql_engine.specs.inner.Listing.{tables_asked};
ghost use Rattle.sql_check.specs.Gives.{Stops};
ghost use Rattle.sql_engine.specs.inner.Taking.{AreDistinct, IsFresh};
ghost use Rattle.sql_engine.specs.Types.{Statement};
ghost use Rattle.sql_model.specs.Places.{checked_of};
ghost use Rattle.sql_model.specs.Scope.{catalog_of};
ghost use Rattle.sql_model.specs.Texts.{statement_of};
ghost use Rattle.table_store.specs.Histories.{StoreHistory, tables_now};

use crate::answer::{QueryAnswer, query_answer};
use crate::asked_tables::tables_asked;
use crate::cache::Cache;
use crate::marks::{TableMarks, marks_for};
use crate::needs::needs_of;
use crate::recorded::{Recorded, refusal_change};
use dml_versions::{Change, delete, insert, update};
use ldv_value::{List, Names, Values};
use sql_check::{CheckStop, check_places};
use sql_model::{Catalog, Checked, Needs, Reply, SqlRefusal, Statement};
use sql_parse::{ParseStop, parse};
use std::alloc::{AllocError, Global};
use table_store::Store;

// Memory for the tables that a statement asks, where events are kept.
fn room_for(
    alloc: Global,
    names: &Names,
    statement: &Statement,
    keep: bool,
) -> Result<TableMarks, AllocError>
    ensures { IfOk result (λ taking. IsTrue keep → IsFresh statement.now names.now taking) }
{
    if keep {
        marks_for(alloc, names, statement)
    } else {
        marks_for(alloc, &List::new(alloc), statement)
    }
}

// The tables that a statement asks, where events are kept.
fn tables_of(
    taking: TableMarks,
    statement: &Statement,
    reads: &Needs,
    catalog: &Catalog,
    keep: bool,
) -> Names
    requires fresh { IsTrue keep → IsFresh statement.now catalog.now.names taking }
    requires paired { length catalog.now.names ≡ length catalog.now.schemas }
    requires distinct { AreDistinct catalog.now.names }
    ensures { IsTrue keep → result ≡ tables_asked statement.now reads.now catalog.now }
{
    if keep {
        tables_asked(taking, statement, reads.items(), catalog)
    } else {
        List::new(reads.allocator())
    }
}

// Answers a query that was checked.
fn execute_query(
    alloc: Global,
    checked: &Checked,
    store: &Store,
    keep: bool,
) -> Result<Change, AllocError>
    requires query { IsQuery checked.now.statement }
    requires checked { IsCheckedOver (tables_now store.now) checked.now }
    ensures { IfOk result (IsOutcome checked.now.statement keep store.now store.now) }
{
    let QueryAnswer {
        rows,
        lineage,
        hidden,
    } = query_answer(alloc, checked, store, keep)?;
    store.tell_formed();
    let names = &store.catalog().names;
    Ok(Change {
        reply: Reply::Rows(rows),
        made: List::new(alloc),
        needs: needs_of(alloc, names, &lineage, &hidden)?,
    })
}

// What a statement gives, with the tables that it asks.
fn recorded_of(change: Change, tables: Names) -> Recorded
    ensures { result ≡ recorded_of change tables }
{
    Recorded {
        reply: change.reply,
        tables,
        needs: change.needs,
        made: change.made,
    }
}

// Executes a statement that was checked.
#[tactic(auto, using(crate::proofs::AskLaws::change_outcome))]
fn execute_checked(
    alloc: Global,
    checked: &Checked,
    store: &mut Store,
    time: u32,
    keep: bool,
) -> Result<Change, AllocError>
    requires checked { IsCheckedOver (tables_now store.old) checked.now }
    requires later { store.old.time < time }
    ensures outcome { IfOk result (IsOutcome checked.now.statement keep store.old store.new) }
    ensures latest { OnOk result (store.new.time ≤ time) }
    ensures err { OnErr result (store.new ≡ store.old) }
{
    match &checked.statement {
        Statement::Query(_) => execute_query(alloc, checked, store, keep),
        Statement::Insert(_) => insert(checked, store, time, keep),
        Statement::Update(_) => update(checked, store, time, keep),
        Statement::Delete(_) => delete(checked, store, time, keep),
    }
}

// The outcome of a statement that the check refuses.
fn change_of_stop(alloc: Global, stop: CheckStop) -> Result<Change, AllocError>
    ensures { (s : Statement) (store : StoreHistory) (keep : Bool)
        → Stops stop (checked_of s (catalog_of (tables_now store)))
        → IfOk result (IsOutcome s keep store store) }
{
    match stop {
        CheckStop::NoTable => Ok(refusal_change(alloc, SqlRefusal::NoTable)),
        CheckStop::NoColumn => Ok(refusal_change(alloc, SqlRefusal::NoColumn)),
        CheckStop::TypeClash => Ok(refusal_change(alloc, SqlRefusal::TypeClash)),
        CheckStop::NoMemory => Err(AllocError),
    }
}

// What a statement gave, with the tables that it asks.
fn list_asked(
    room: TableMarks,
    statement: &Statement,
    change: Change,
    store: &Store,
    keep: bool,
) -> Recorded
    requires { IsTrue keep → IsFresh statement.now (catalog_of (tables_now store.now)).names room }
    ensures given { result ≡ recorded_of change result.tables }
    ensures tables { IsTrue keep
        → result.tables ≡ tables_asked statement.now change.needs (catalog_of (tables_now store.now)) }
{
    store.tell_formed();
    let tables = tables_of(room, statement, &change.needs, store.catalog(), keep);
    recorded_of(change, tables)
}

// Executes a statement that was checked, and lists the tables that it asks. Once it has run, nothing can
// fail.
fn execute_and_list(
    alloc: Global,
    checked: &Checked,
    store: &mut Store,
    time: u32,
    keep: bool,
) -> Result<Recorded, AllocError>
    requires checked { IsCheckedOver (tables_now store.old) checked.now }
    requires later { store.old.time < time }
    ensures done { IfOk result (IsRecorded (Some checked.now.statement) keep store.old store.new) }
    ensures latest { OnOk result (store.new.time ≤ time) }
    ensures err { OnErr result (store.new ≡ store.old) }
{
    store.tell_formed();
    let room = room_for(alloc, &store.catalog().names, &checked.statement, keep)?;
    let change = execute_checked(alloc, checked, store, time, keep)?;
    Ok(list_asked(room, &checked.statement, change, store, keep))
}

// What is recorded of a statement that the check refuses.
fn record_refusal(
    alloc: Global,
    statement: &Statement,
    stop: CheckStop,
    store: &Store,
    keep: bool,
) -> Result<Recorded, AllocError>
    requires { Stops stop (checked_of statement.now (catalog_of (tables_now store.now))) }
    ensures { IfOk result (IsRecorded (Some statement.now) keep store.now store.now) }
{
    let room = room_for(alloc, &store.catalog().names, statement, keep)?;
    let change = change_of_stop(alloc, stop)?;
    Ok(list_asked(room, statement, change, store, keep))
}

// Checks a statement, and executes it if it isn't refused.
fn execute_statement(
    alloc: Global,
    statement: Statement,
    store: &mut Store,
    time: u32,
    keep: bool,
) -> Result<Recorded, AllocError>
    requires later { store.old.time < time }
    ensures done { IfOk result (IsRecorded (Some statement) keep store.old store.new) }
    ensures latest { OnOk result (store.new.time ≤ time) }
    ensures err { OnErr result (store.new ≡ store.old) }
{
    match check_places(alloc, &statement, store.catalog()) {
        Ok(places) => execute_and_list(alloc, &Checked { statement, places }, store, time, keep),
        Err(stop) => record_refusal(alloc, &statement, stop, store, keep),
    }
}

// Answers a text that no entry serves.
fn execute_text(
    alloc: Global,
    store: &mut Store,
    text: &str,
    params: &Values,
    time: u32,
    keep: bool,
) -> Result<Recorded, AllocError>
    requires later { store.old.time < time }
    ensures done { IfOk result (IsRecorded (statement_of text.now params.now) keep store.old store.new) }
    ensures latest { OnOk result (store.new.time ≤ time) }
    ensures err { OnErr result (store.new ≡ store.old) }
{
    match parse(alloc, text, params) {
        Ok(statement) => execute_statement(alloc, statement, store, time, keep),
        Err(ParseStop::Syntax) => Ok(recorded_of(
            refusal_change(alloc, SqlRefusal::Syntax),
            List::new(alloc),
        )),
        Err(ParseStop::NoMemory) => Err(AllocError),
    }
}

// Whether a reply says that the text was a statement which the check accepts.
fn is_accepted(reply: &Reply) -> bool {
    match reply {
        Reply::Refused(SqlRefusal::Syntax) => false,
        Reply::Refused(SqlRefusal::NoTable) => false,
        Reply::Refused(SqlRefusal::NoColumn) => false,
        Reply::Refused(SqlRefusal::TypeClash) => false,
        _ => true,
    }
}

// Answers a text that no entry serves, and notes in the cache whether it was accepted.
fn execute_and_note(
    alloc: Global,
    cache: &mut Cache,
    store: &mut Store,
    text: &str,
    params: &Values,
    time: u32,
    keep: bool,
) -> Result<Recorded, AllocError>
    requires later { store.old.time < time }
    ensures done { IfOk result (IsRecorded (statement_of text.now params.now) keep store.old store.new) }
    ensures latest { OnOk result (store.new.time ≤ time) }
    ensures err { OnErr result (store.new ≡ store.old) }
    ensures entries { cache.new.entries.items ≡ cache.old.entries.items }
{
    let done = execute_text(alloc, store, text, params, time, keep)?;
    if is_accepted(&done.reply) {
        cache.accept();
    }
    Ok(done)
}

/// Answers a text with its parameters over the tables of a store, at a time later than the store's last
/// change. If `keep` is false, no lineage is made. On `AllocError` the store is as it was.
pub(crate) fn execute(
    alloc: Global,
    cache: &mut Cache,
    store: &mut Store,
    text: &str,
    params: &Values,
    time: u32,
    keep: bool,
) -> Result<Recorded, AllocError>
    requires later { store.old.time < time }
    requires cache { IsCacheOf (catalog_of (tables_now store.old)) cache.old }
    ensures done { IfOk result (IsRecorded (statement_of text.now params.now) keep store.old store.new) }
    ensures latest { OnOk result (store.new.time ≤ time) }
    ensures err { OnErr result (store.new ≡ store.old) }
    ensures cache { IsCacheOf (catalog_of (tables_now store.new)) cache.new }
{
    store.tell_formed();
    let found = cache.find(alloc, text, params, store.catalog())?;
    match found {
        Some(checked) => execute_and_list(alloc, &checked, store, time, keep),
        None => execute_and_note(alloc, cache, store, text, params, time, keep),
    }
}
