//! The engine: a store that answers SQL.

ghost use Rattle.std.specs.Prelude.{◌≡◌, IfOk, true};
ghost use Rattle.run_model.specs.SqlDatabase.{SqlDatabase, initial_database, sql_base};
ghost use Rattle.run_model.specs.Database.{asked_event};
ghost use Rattle.sql_engine.specs.Asking.{database, lists_in};
ghost use Rattle.sql_model.specs.Tables.{have_distinct_columns};
ghost use Rattle.sql_model.specs.Tables.{is_database};

use crate::cache::Cache;
use crate::execute::execute;
use crate::recorded::Recorded;
use ldv_value::{Utf8, Values};
use run_model::{Act, Asker, Database, Event, Stop, Tracer};
use sql_model::{Reply, Tables};
use std::alloc::{AllocError, Global};
use std::marker::Model;
use table_store::Store;

/// A database that answers SQL. Contracts see it as its tables through time.
#[derive(Drop)]
pub struct Engine {
    alloc: Global,
    store: Store,
    cache: Cache,
}

impl Model for Engine {
    ghost use Rattle.sql_engine.specs.inner.Keeping.{IsCacheOf};
    ghost use Rattle.sql_model.specs.Scope.{catalog_of};
    ghost use Rattle.table_store.specs.Histories.{StoreHistory, tables_now};

    ghost Value = { StoreHistory };

    ghost view = { λ a. a.store };

    ghost invariant = { λ a. IsCacheOf (catalog_of (tables_now a.store)) a.cache };
}

impl Engine {
    /// The database of these tables, none of whose rows was changed yet. They must be a valid database, in
    /// which no table has two columns of one name. `AllocError` means out of memory only.
    pub fn of_tables(alloc: Global, tables: Tables) -> Result<Engine, AllocError>
        requires database { is_database tables ≡ true }
        requires distinct { have_distinct_columns tables ≡ true }
        ensures database { IfOk result (λ engine. database engine ≡ initial_database tables) }
        ensures latest { IfOk result (λ engine. engine.time ≡ 0) }
    {
        Ok(Engine {
            alloc,
            store: Store::of_tables(alloc, tables)?,
            cache: Cache::new(alloc),
        })
    }

    /// The tables through time.
    pub fn store(&self) -> &Store
        ensures { result.now ≡ self.now }
    {
        &self.store
    }
}

// The reply to a statement that was asked, and its event.
fn asked_event(who: &Asker, done: Recorded) -> (Reply, Event)
    ensures { result ≡ (done.reply, asked_event who.now (lists_in done)) }
{
    let Recorded {
        reply,
        tables,
        needs,
        made,
    } = done;
    let act = Act::Asked {
        statement: who.statement,
        tables,
        reads: needs,
        made,
    };
    let event = Event {
        step: who.step,
        process: who.number,
        act,
    };
    (reply, event)
}

impl Database for Engine {
    ghost use Rattle.run_model.specs.SqlDatabase.{SqlDatabase, sql_base};
    ghost use Rattle.sql_engine.specs.Asking.{database};

    ghost Db = { SqlDatabase };

    ghost seen = { database };

    ghost base = { sql_base };

    ghost latest = { λ e. e.time };

    fn ask<T: Tracer>(
        &mut self,
        who: &Asker,
        text: &Utf8,
        params: &Values,
        tracer: &mut T,
    ) -> Result<Reply, Stop> {
        let done = execute(
            self.alloc,
            &mut self.cache,
            &mut self.store,
            text.as_str(),
            params,
            who.step,
            T::KEEPS,
        )?;
        if !T::KEEPS {
            return Ok(done.reply);
        }
        let (reply, event) = asked_event(who, done);
        tracer.note(event)?;
        Ok(reply)
    }
}
