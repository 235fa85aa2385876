//! The tables of a database through time.

ghost use Rattle.std.specs.Prelude.{◌≡◌, ◌==◌, ℕ, ◌+◌, ◌*◌, ◌/◌, ◌<◌, ◌≤◌, Bool, true, false, List, [], ◌∷◌};
ghost use Rattle.std.specs.Prelude.{◌++◌, Option, Some, None, find, OnOk, OnErr, IfOk, IsOk, IsSome, IfSome};
ghost use Rattle.std.specs.Prelude.{length, map, slice_get, slice_index_or, slice_set, IsTrue};
ghost use Rattle.std.specs.List.{AllByRecursion, list_all};
ghost use Rattle.std.specs.Option.{option_and_then, option_map, option_map_or, option_or};
ghost use Rattle.lanes.specs.Sets.{member};
ghost use Rattle.ldv_value.specs.Sorted.{text_precedes};
ghost use Rattle.sql_model.specs.Scope.{catalog_of, table_at};
ghost use Rattle.sql_model.specs.Tables.{AreWellFormed, have_distinct_columns, is_database, is_valid_table};
ghost use Rattle.table_store.specs.Scans.{passes_test};
ghost use Rattle.table_store.specs.Histories.{history_at, is_history, table_now, tables_now, last_since};
ghost use Rattle.table_store.specs.Histories.{rows_after, next_number_after, row_now, no_history};
ghost use Rattle.table_store.specs.Histories.{table_with_rows, table_with_values, table_without};
ghost use Rattle.table_store.specs.Histories.{version_now, history_of_row};
ghost use Rattle.table_store.specs.Stops.{have_shape, values_of, are_sorted_rows, are_sorted_numbers};
ghost use Rattle.table_store.specs.Stops.{had_rows, all_stand, insert_stop, replace_stop, with_changed};
ghost use Rattle.table_store.specs.Stops.{is_among, with_inserted, with_replaced, with_removed, StopsAs};
ghost use Rattle.sql_model.specs.Changes.{numbered_rows};
ghost use Rattle.sql_model.specs.References.{has_key};
ghost use Rattle.table_store.specs.Referring.{insert_refusal, replace_refusal, delete_refusal};
ghost use Rattle.table_store.specs.Referring.{parents_in_order, parents_now};
ghost use Rattle.table_store.specs.Referring.{is_of, missing_stop, orphan_stop, IsAtVersion};
ghost use Rattle.table_store.specs.StoreChange.{IsStoreChange};
ghost use Rattle.table_store.specs.Histories.{changed_at, AreKeptBefore};
ghost use Rattle.table_store.specs.Plans.{IsInsertPlan, IsReplacePlan};
ghost use Rattle.table_store.specs.Planning.{IsPlannedInsert, IsPlannedReplace};
ghost use Rattle.table_store.specs.StoreView.{store_at_start, no_table, are_sorted};
ghost use Rattle.table_store.specs.TableView.{history_at_start};
ghost use Rattle.table_store.specs.Types.{Null, Value};

use crate::error::StoreStop;
use crate::plans::{InsertPlan, ReplacePlan};
use crate::references::judged::{Judged, judge_new};
use crate::references::parent_set::parents_in_order;
use crate::references::refusals::{delete_refusal, replace_judged};
use crate::table::TableStore;
use ldv_value::{Cmp, Numbers, RowList, Values};
use sql_model::{Catalog, Members, Table, TableRow, TableRows, Tables};
use std::alloc::{AllocError, Global};
use std::marker::Model;

/// The tables of a database through time, sorted by name.
#[derive(Drop)]
pub struct Store {
    catalog: Catalog,
    tables: Vec<TableStore>,
    time: u32,
}

impl Model for Store {
    ghost use Rattle.table_store.specs.Histories.{StoreHistory};

    ghost Value = { StoreHistory };

    ghost use Rattle.table_store.specs.StoreView.{seen_store, IsStore};

    ghost view = { seen_store };

    ghost invariant = { IsStore };
}

impl Store {
    /// The store of tables at time 0. The caller gives a database in which no table has two columns of one
    /// name.
    #[tactic(auto, using(crate::proofs::StoreLaws::start_rules))]
    pub fn of_tables(alloc: Global, tables: Tables) -> Result<Store, AllocError>
        requires database { is_database tables ≡ true }
        requires distinct { have_distinct_columns tables ≡ true }
        ensures made { IfOk result (λ store. store ≡ store_at_start tables) }
        ensures now { IfOk result (λ store. tables_now store ≡ tables) }
    {
        let catalog = Catalog::of(alloc, &tables)?;
        let held = stores_of(alloc, tables)?;
        Ok(Store {
            catalog,
            tables: held,
            time: 0,
        })
    }

    /// Does nothing. Its contract tells the caller that the tables are a database in which no table has two
    /// columns of one name.
    pub fn tell_formed(&self)
        ensures { AreWellFormed (tables_now self.now) }
    {
        let _tables = &self.tables;
    }

    /// The tables, sorted by name.
    pub(crate) fn tables(&self) -> &[TableStore]
        ensures { result.now ≡ self.now.tables }
    {
        self.tables.as_slice()
    }

    /// The names and the schemas of the tables.
    pub fn catalog(&self) -> &Catalog
        ensures { result.now ≡ catalog_of (tables_now self.now) }
    {
        &self.catalog
    }

    /// The table with a name; `None` if there is none.
    pub fn table(&self, name: &str) -> Option<&TableStore>
        ensures table { option_map (λ table. table.now) result ≡ history_at name.now self.now }
        ensures timed { IfSome result (λ table. last_since table.now.nexts ≤ self.now.time) }
    {
        match place_in(&self.tables, name) {
            None => None,
            Some(place) => Some(&self.tables[place]),
        }
    }

    /// The rows of a table of the store after a time. From the last change on these are its rows now.
    pub fn rows_at(&self, table: &str, time: u32) -> Result<TableRows, AllocError>
        requires { IsSome (table_at table.now (tables_now self.now)) }
        ensures rows { IfOk result (λ rows. rows_after table.now time self.now ≡ Some rows) }
        ensures last { self.now.time ≤ time
            → IfOk result (λ rows. option_map (λ table. table.rows) (table_at table.now (tables_now self.now))
            ≡ Some rows) }
    {
        match self.table(table) {
            Some(held) => held.rows_at(time),
            None => unreachable!(),
        }
    }

    /// The number of the next row of a table of the store after a time. From the last change on it is that of
    /// now.
    pub fn next_at(&self, table: &str, time: u32) -> u32
        requires { IsSome (table_at table.now (tables_now self.now)) }
        ensures number { next_number_after table.now time self.now ≡ Some result }
        ensures last { self.now.time ≤ time
            → option_map (λ table. table.next) (table_at table.now (tables_now self.now)) ≡ Some result }
    {
        match self.table(table) {
            Some(held) => held.next_at(time),
            None => unreachable!(),
        }
    }

    /// The version of a row of a table of the store: how often the row has changed. `None` if it isn't live
    /// now.
    pub fn version(&self, table: &str, row: u32) -> Option<u32>
        requires { IsSome (table_at table.now (tables_now self.now)) }
        ensures { option_map (λ history. version_now (history_of_row row history.slots))
            (history_at table.now self.now) ≡ Some result }
    {
        match self.table(table) {
            Some(held) => held.version(row),
            None => unreachable!(),
        }
    }

    /// The number of the live row with a key; `None` if no row has it. The table is in the store and has a
    /// key.
    pub fn by_key(&self, table: &str, key: &Values) -> Option<u32>
        requires there { IsSome (table_at table.now (tables_now self.now)) }
        requires keyed { IfSome (table_at table.now (tables_now self.now))
            (λ table. 0 < length table.schema.key) }
        ensures { option_map (λ table. option_map (λ row. row.number)
            (find (has_key table.schema.key key.now) table.rows)) (table_at table.now (tables_now self.now))
            ≡ Some result }
    {
        match self.table(table) {
            Some(held) => held.by_key(key),
            None => unreachable!(),
        }
    }

    /// The number of slots of a table of the store: one for each row that it ever had, sorted by row number.
    pub fn slots(&self, table: &str) -> u64
        requires { IsSome (table_at table.now (tables_now self.now)) }
        ensures { option_map (λ history. length history.slots) (history_at table.now self.now) ≡ Some result }
    {
        match self.table(table) {
            Some(held) => held.slots(),
            None => unreachable!(),
        }
    }

    /// The number of the row in a slot, from 0, of a table of the store; `None` if the slot is past the end
    /// or its row isn't live now.
    pub fn slot_row(&self, table: &str, slot: u64) -> Option<u32>
        requires { IsSome (table_at table.now (tables_now self.now)) }
        ensures { option_map (λ history. option_map (λ row. row.number)
            (row_now (slice_index_or history.slots slot no_history))) (history_at table.now self.now)
            ≡ Some result }
    {
        match self.table(table) {
            Some(held) => held.slot_row(slot),
            None => unreachable!(),
        }
    }

    /// Sets the bits of a table's slots whose row is live and whose number in the column passes the
    /// comparison with the constant, and clears all others. The table is in the store, the column, from 0, is
    /// of INT, and the mask has a word for each 64 slots, rounded up.
    pub fn scan(&self, table: &str, column: u64, op: Cmp, constant: i64, mask: &mut [u64])
        requires there { IsSome (table_at table.now (tables_now self.now)) }
        requires column { IfSome (history_at table.now self.now)
            (λ history. option_map (λ column. column.text) (slice_get history.schema.columns column)
            ≡ Some false) }
        requires mask { IfSome (history_at table.now self.now)
            (λ history. length mask.old ≡ (length history.slots + 63) / 64) }
        ensures { (n : ℕ)
            → option_map (λ history. option_map_or
            (λ row. passes_test op constant (slice_index_or row.values column Null))
            (row_now (slice_index_or history.slots n no_history)) false) (history_at table.now self.now)
            ≡ Some (member mask.new n) }
    {
        match self.table(table) {
            Some(held) => held.scan(column, op, constant, mask),
            None => unreachable!(),
        }
    }

    /// The live rows, at their versions, that would have, once `rows` were put into a table, a key to which
    /// one of `rows` refers: sorted by table and number, each once. The table is in the store. `rows` are
    /// live rows of it with new values, or new rows numbered from the number of its next row on, in any
    /// order; several rows may have one key. Of given rows of one number the first counts.
    pub fn parents_of(&self, table: &str, rows: &TableRows) -> Result<Members, AllocError>
        requires there { IsSome (table_at table.now (tables_now self.now)) }
        ensures versions { IfOk result (λ members. AllByRecursion (IsAtVersion self.now) members) }
        ensures parents { IfOk result (λ members. IfSome (table_at table.now (tables_now self.now))
            (λ own. members ≡ parents_in_order self.now rows.now own)) }
    {
        match self.table(table) {
            None => unreachable!(),
            Some(own) => {
                let members = parents_in_order(self, own, rows.items())?;
                Ok(members)
            }
        }
    }

    /// Adds rows to a table at a time, numbered from the number of its next row on, and returns that number.
    /// The table is in the store, the time is later than that of the last change, and each row has a value
    /// for each column, of its kind. `NotNull`, `KeyTaken`, `Full` and `NoParent` are tried in this order,
    /// and `NoMemory` comes if memory runs out. After an `Err` nothing has changed.
    pub fn insert_all(&mut self, table: &str, rows: RowList, time: u32) -> Result<u32, StoreStop>
        requires there { IsSome (table_at table.now (tables_now self.old)) }
        requires later { self.old.time < time }
        requires shape { IfSome (table_at table.now (tables_now self.old))
            (λ table. have_shape rows table ≡ true) }
        ensures change { IsStoreChange (insert_refusal rows (tables_now self.old)) (table_with_rows time rows)
            (with_inserted rows) table.now time self.old self.new result }
        ensures childless { (child : List ℕ) (row : ℕ) (key : List Value)
            → ¬ (result ≡ Err (StoreStop.HasChild child row key)) }
        ensures first { IfOk result (λ first. option_map (λ table. table.next)
            (table_at table.now (tables_now self.old)) ≡ Some first) }
    {
        let plan = match self.plan_insert(table, rows) {
            Ok(plan) => plan,
            Err(stop) => return Err(stop),
        };
        let judged = self.judge_insert(table, &plan, false)?;
        let Judged {
            stop,
            parents: _parents,
        } = judged;
        match stop {
            None => {}
            Some(stop) => return Err(stop),
        }
        let first = self.commit_insert(table, plan, time)?;
        Ok(first)
    }

    /// Gives rows, each by its number, other values at a time. The table is in the store, and the time is
    /// later than that of the last change. The rows are sorted by number, and each has the number of a live
    /// row and a value for each column, of its kind. `NotNull`, `KeyTaken`, `NoParent` and `HasChild` are
    /// tried in this order, with the keys that the tables would have afterwards, and `NoMemory` comes if
    /// memory runs out. After an `Err` nothing has changed.
    pub fn replace_all(&mut self, table: &str, rows: TableRows, time: u32) -> Result<(), StoreStop>
        requires there { IsSome (table_at table.now (tables_now self.old)) }
        requires later { self.old.time < time }
        requires shape { IfSome (table_at table.now (tables_now self.old))
            (λ table. have_shape (values_of rows) table ≡ true) }
        requires sorted { are_sorted_rows rows ≡ true }
        requires stand { IfSome (table_at table.now (tables_now self.old))
            (λ table. had_rows rows table ≡ true) }
        ensures { IsStoreChange (replace_refusal rows (tables_now self.old)) (table_with_values time rows)
            (with_replaced rows) table.now time self.old self.new result }
    {
        let plan = match self.plan_replace(table, rows) {
            Ok(plan) => plan,
            Err(stop) => return Err(stop),
        };
        let judged = self.judge_replace(table, &plan, false)?;
        let Judged {
            stop,
            parents: _parents,
        } = judged;
        match stop {
            None => {}
            Some(stop) => return Err(stop),
        }
        self.commit_replace(table, plan, time)?;
        Ok(())
    }

    /// Deletes the rows with these numbers at a time. The table is in the store, and the time is later than
    /// that of the last change. The numbers are sorted, and each is that of a live row. `HasChild` comes if
    /// another row refers to a key that would be lost, and `NoMemory` if memory runs out. After an `Err`
    /// nothing has changed.
    pub fn delete_all(&mut self, table: &str, numbers: &Numbers, time: u32) -> Result<(), StoreStop>
        requires there { IsSome (table_at table.now (tables_now self.old)) }
        requires later { self.old.time < time }
        requires sorted { are_sorted_numbers numbers.now ≡ true }
        requires stand { IfSome (table_at table.now (tables_now self.old))
            (λ table. all_stand numbers.now table ≡ true) }
        ensures { IsStoreChange (delete_refusal numbers.now (tables_now self.old))
            (table_without time numbers.now) (with_removed numbers.now) table.now time self.old self.new
            result }
    {
        match place_in(&self.tables, table) {
            None => unreachable!(),
            Some(place) => {
                match self.judge_delete(table, numbers.items())? {
                    None => {}
                    Some(stop) => return Err(stop),
                }
                delete_in(&mut self.tables, place, numbers, time)?;
                self.time = time;
                Ok(())
            }
        }
    }

    /// New rows of a table, with their keys, for `judge_insert` and `commit_insert`. The table is in the
    /// store, and each row has a value for each column, of its kind. `NotNull`, `KeyTaken` and `Full` are
    /// tried in this order, and `NoMemory` comes if memory runs out.
    pub fn plan_insert(&self, table: &str, rows: RowList) -> Result<InsertPlan, StoreStop>
        requires there { IsSome (table_at table.now (tables_now self.now)) }
        requires shape { IfSome (table_at table.now (tables_now self.now))
            (λ table. have_shape rows table ≡ true) }
        ensures stop { StopsAs
            (option_and_then (insert_stop rows) (table_at table.now (tables_now self.now))) result }
        ensures plan { IfOk result (IsPlannedInsert self.now table.now) }
        ensures rows { IfOk result (λ plan. plan.rows ≡ rows) }
    {
        match self.table(table) {
            None => unreachable!(),
            Some(own) => match own.plan_insert(rows) {
                Ok(plan) => Ok(plan),
                Err(stop) => Err(stop),
            },
        }
    }

    /// What references say of planned new rows: `NoParent` if a parent is missing, and, if `keep` is true,
    /// the live rows, at their versions, to which the new rows would refer, row by row and for each row in
    /// the order of its foreign keys. A row that several refer to occurs several times.
    pub fn judge_insert(
        &self,
        table: &str,
        plan: &InsertPlan,
        keep: bool,
    ) -> Result<Judged, AllocError>
        requires { IsPlannedInsert self.now table.now plan.now }
        ensures stop { IfOk result (λ judged. option_map
            (λ own. missing_stop own.schema.foreign (numbered_rows own.next plan.now.rows)
            (with_changed own.name (with_inserted plan.now.rows) (tables_now self.now)))
            (table_at table.now (tables_now self.now)) ≡ Some judged.stop) }
        ensures versions { IfOk result (λ judged. IsTrue keep
            → AllByRecursion (IsAtVersion self.now) judged.parents) }
        ensures parents { IfOk result (λ judged. IsTrue keep
            → IfSome (table_at table.now (tables_now self.now)) (λ own. judged.parents
            ≡ parents_now self.now (numbered_rows own.next plan.now.rows) own)) }
    {
        self.tell_formed();
        match self.table(table) {
            None => unreachable!(),
            Some(own) => {
                let judged = judge_new(self, own, &plan.rows, keep)?;
                Ok(judged)
            }
        }
    }

    /// Adds planned rows, which references don't refuse, at a time, numbered from the number of the table's
    /// next row on, and returns that number. The time is later than that of the last change. On `AllocError`
    /// nothing has changed.
    pub fn commit_insert(
        &mut self,
        table: &str,
        plan: InsertPlan,
        time: u32,
    ) -> Result<u32, AllocError>
        requires plan { IsPlannedInsert self.old table.now plan }
        requires later { self.old.time < time }
        ensures first { IfOk result (λ first. option_map (λ table. table.next)
            (table_at table.now (tables_now self.old)) ≡ Some first) }
        ensures ok { OnOk result
            (self.new ≡ changed_at time table.now (table_with_rows time plan.rows) self.old) }
        ensures now { OnOk result (tables_now self.new
            ≡ with_changed table.now (with_inserted plan.rows) (tables_now self.old)) }
        ensures earlier { OnOk result (AreKeptBefore time self.old self.new) }
        ensures err { OnErr result (self.new ≡ self.old) }
    {
        match place_in(&self.tables, table) {
            None => unreachable!(),
            Some(place) => {
                let first = insert_in(&mut self.tables, place, plan, time)?;
                self.time = time;
                Ok(first)
            }
        }
    }

    /// Other values of rows, with the numbers that keys get, for `judge_replace` and `commit_replace`. The
    /// table is in the store. The rows are sorted by number, and each has the number of a live row and a
    /// value for each column, of its kind. `NotNull` and `KeyTaken` are tried in this order, and `NoMemory`
    /// comes if memory runs out.
    pub fn plan_replace(&self, table: &str, rows: TableRows) -> Result<ReplacePlan, StoreStop>
        requires there { IsSome (table_at table.now (tables_now self.now)) }
        requires shape { IfSome (table_at table.now (tables_now self.now))
            (λ table. have_shape (values_of rows) table ≡ true) }
        requires sorted { are_sorted_rows rows ≡ true }
        requires stand { IfSome (table_at table.now (tables_now self.now))
            (λ table. had_rows rows table ≡ true) }
        ensures stop { StopsAs
            (option_and_then (replace_stop rows) (table_at table.now (tables_now self.now))) result }
        ensures plan { IfOk result (IsPlannedReplace self.now table.now) }
        ensures rows { IfOk result (λ plan. plan.rows ≡ rows) }
    {
        match self.table(table) {
            None => unreachable!(),
            Some(own) => match own.plan_replace(rows) {
                Ok(plan) => Ok(plan),
                Err(stop) => Err(stop),
            },
        }
    }

    /// What references say of planned new values of rows: `NoParent` if a parent is missing, or else
    /// `HasChild` if another row would lose its parent, and, if `keep` is true, the live rows, at their
    /// versions, to which the rows would refer, row by row and for each row in the order of its foreign keys.
    /// A row that several refer to occurs several times.
    pub fn judge_replace(
        &self,
        table: &str,
        plan: &ReplacePlan,
        keep: bool,
    ) -> Result<Judged, AllocError>
        requires { IsPlannedReplace self.now table.now plan.now }
        ensures stop { IfOk result (λ judged. option_map
            (λ own. option_or (missing_stop own.schema.foreign plan.now.rows
            (with_changed own.name (with_replaced plan.now.rows) (tables_now self.now)))
            (orphan_stop (is_of plan.now.rows) own (with_replaced plan.now.rows own)
            (tables_now self.now)))
            (table_at table.now (tables_now self.now)) ≡ Some judged.stop) }
        ensures versions { IfOk result (λ judged. IsTrue keep
            → AllByRecursion (IsAtVersion self.now) judged.parents) }
        ensures parents { IfOk result (λ judged. IsTrue keep
            → IfSome (table_at table.now (tables_now self.now))
            (λ own. judged.parents ≡ parents_now self.now plan.now.rows own)) }
    {
        match self.table(table) {
            None => unreachable!(),
            Some(own) => {
                let judged = replace_judged(self, own, plan.rows.items(), keep)?;
                Ok(judged)
            }
        }
    }

    /// Gives planned rows, which references don't refuse, their other values at a time, later than that of
    /// the last change. On `AllocError` nothing has changed.
    pub fn commit_replace(
        &mut self,
        table: &str,
        plan: ReplacePlan,
        time: u32,
    ) -> Result<(), AllocError>
        requires plan { IsPlannedReplace self.old table.now plan }
        requires later { self.old.time < time }
        ensures ok { OnOk result
            (self.new ≡ changed_at time table.now (table_with_values time plan.rows) self.old) }
        ensures now { OnOk result (tables_now self.new
            ≡ with_changed table.now (with_replaced plan.rows) (tables_now self.old)) }
        ensures earlier { OnOk result (AreKeptBefore time self.old self.new) }
        ensures err { OnErr result (self.new ≡ self.old) }
    {
        match place_in(&self.tables, table) {
            None => unreachable!(),
            Some(place) => {
                replace_in(&mut self.tables, place, plan, time)?;
                self.time = time;
                Ok(())
            }
        }
    }

    // What references refuse to drop rows for.
    fn judge_delete(&self, table: &str, numbers: &[u32]) -> Result<Option<StoreStop>, AllocError>
        requires there { IsSome (table_at table.now (tables_now self.now)) }
        requires sorted { are_sorted_numbers numbers.now ≡ true }
        requires stand { IfSome (table_at table.now (tables_now self.now))
            (λ table. all_stand numbers.now table ≡ true) }
        ensures { IfOk result (λ stop. option_map
            (λ own. orphan_stop (is_among numbers.now) own (with_removed numbers.now own)
            (tables_now self.now)) (table_at table.now (tables_now self.now)) ≡ Some stop) }
    {
        match self.table(table) {
            None => unreachable!(),
            Some(own) => {
                let stop = delete_refusal(self, own, numbers)?;
                Ok(stop)
            }
        }
    }
}

// The place of the table of a name.
fn place_in(tables: &Vec<TableStore>, name: &str) -> Option<usize>
    requires { are_sorted tables.now.items ≡ true }
    ensures found { IfSome result (λ place. (place < length tables.now.items)
        × (is_history name.now (slice_index_or tables.now.items place no_table) ≡ true)) }
    ensures absent { result ≡ None → find (is_history name.now) tables.now.items ≡ None }
{
    let place = place_of(tables, name);
    if place == tables.len() {
        return None;
    }
    let held = &tables[place];
    if is_named(held, name) {
        Some(place)
    } else {
        None
    }
}

fn is_named(held: &TableStore, name: &str) -> bool
    ensures { result ≡ is_history name.now held.now }
{
    held.name() == name
}

// The place of the first table whose name isn't before the given one, found by bisection.
fn place_of(tables: &[TableStore], name: &str) -> usize
    requires { are_sorted tables.now ≡ true }
    ensures within { result ≤ length tables.now }
    ensures before { (k : ℕ) → k < result → text_precedes (slice_index_or tables.now k no_table).name name.now
        ≡ true }
    ensures after { (k : ℕ) → result ≤ k → k < length tables.now
        → text_precedes (slice_index_or tables.now k no_table).name name.now ≡ false }
{
    tables.partition_point(|held| is_before(held, name))
}

fn is_before(held: &TableStore, name: &str) -> bool
    ensures { result ≡ text_precedes held.now.name name.now }
{
    held.name().cmp(name).is_lt()
}

// Adds planned rows to the table at a place.
fn insert_in(
    tables: &mut Vec<TableStore>,
    place: usize,
    plan: InsertPlan,
    time: u32,
) -> Result<u32, AllocError>
    requires within { place < length tables.old.items }
    requires plan { IsInsertPlan (slice_index_or tables.old.items place no_table) plan }
    requires later { last_since (slice_index_or tables.old.items place no_table).nexts < time }
    ensures first { IfOk result (λ first. first
        ≡ (table_now (slice_index_or tables.old.items place no_table)).next) }
    ensures ok { OnOk result (tables.new.items
        ≡ slice_set tables.old.items place
        (table_with_rows time plan.rows (slice_index_or tables.old.items place no_table))) }
    ensures err { OnErr result (tables.new.items ≡ tables.old.items) }
{
    let held = &mut tables[place];
    held.commit_insert(plan, time)
}

// Gives planned rows of the table at a place their other values.
fn replace_in(
    tables: &mut Vec<TableStore>,
    place: usize,
    plan: ReplacePlan,
    time: u32,
) -> Result<(), AllocError>
    requires within { place < length tables.old.items }
    requires plan { IsReplacePlan (slice_index_or tables.old.items place no_table) plan }
    requires later { last_since (slice_index_or tables.old.items place no_table).nexts < time }
    ensures ok { OnOk result (tables.new.items
        ≡ slice_set tables.old.items place
        (table_with_values time plan.rows (slice_index_or tables.old.items place no_table))) }
    ensures now { OnOk result (table_now
        (table_with_values time plan.rows (slice_index_or tables.old.items place no_table))
        ≡ with_replaced plan.rows (table_now (slice_index_or tables.old.items place no_table))) }
    ensures err { OnErr result (tables.new.items ≡ tables.old.items) }
{
    let held = &mut tables[place];
    held.commit_replace(plan, time)
}

// Drops rows of the table at a place.
fn delete_in(
    tables: &mut Vec<TableStore>,
    place: usize,
    numbers: &Numbers,
    time: u32,
) -> Result<(), AllocError>
    requires within { place < length tables.old.items }
    requires later { last_since (slice_index_or tables.old.items place no_table).nexts < time }
    requires sorted { are_sorted_numbers numbers.now ≡ true }
    requires stand { all_stand numbers.now (table_now (slice_index_or tables.old.items place no_table))
        ≡ true }
    ensures ok { OnOk result (tables.new.items
        ≡ slice_set tables.old.items place
        (table_without time numbers.now (slice_index_or tables.old.items place no_table))) }
    ensures err { OnErr result (tables.new.items ≡ tables.old.items) }
{
    let held = &mut tables[place];
    held.commit_delete(numbers, time)
}

// The tables, as a store has them at time 0.
fn stores_of(alloc: Global, tables: Tables) -> Result<Vec<TableStore>, AllocError>
    requires { list_all is_valid_table tables ≡ true }
    ensures { IfOk result (λ stores. stores.items ≡ map history_at_start tables) }
{
    let mut stores = Vec::with_capacity(alloc, tables.len())?;
    for table in tables.into_vec() {
        add_store(&mut stores, table)?;
    }
    Ok(stores)
}

// Adds the table, as a store has it at time 0.
fn add_store(stores: &mut Vec<TableStore>, table: Table) -> Result<(), AllocError>
    requires { is_valid_table table ≡ true }
    ensures { OnOk result (stores.new.items ≡ stores.old.items ++ history_at_start table ∷ []) }
{
    let store = TableStore::of_table(table)?;
    stores.push(store)?;
    Ok(())
}
