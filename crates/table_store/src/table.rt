//! A table through time.

ghost use Rattle.std.specs.Prelude.{◌≡◌, ◌==◌, ℕ, ◌+◌, ◌*◌, ◌/◌, ◌^◌, ◌<◌, ◌≤◌, true, false, List, []};
ghost use Rattle.std.specs.Prelude.{◌∷◌, ◌++◌, Option, Some, None, find, OnOk, OnErr, IfOk, IsSome, IsTrue};
ghost use Rattle.std.specs.Prelude.{length, map, slice_get, slice_index_or, is_some, if◌then◌else◌};
ghost use Rattle.std.specs.Option.{option_map, option_map_or, option_or};
ghost use Rattle.lanes.specs.Sets.{member};
ghost use Rattle.row_version.specs.History.{current_values, version};
ghost use Rattle.sql_model.specs.Tables.{is_valid_table};
ghost use Rattle.sql_model.specs.References.{has_key};
ghost use Rattle.table_store.specs.Scans.{null_passes, passes_test};
ghost use Rattle.ldv_value.specs.Limits.{max_next};
ghost use Rattle.sql_model.specs.Changes.{numbered_rows};
ghost use Rattle.table_store.specs.KeyIndex.{AreIndexed};
ghost use Rattle.table_store.specs.inner.ChildPairs.{no_foreign, pair_by, refers, AreReferred, IsNextOf};
ghost use Rattle.table_store.specs.inner.ChildPairs.{first_number, is_child_in, KeepPairs};
ghost use Rattle.table_store.specs.GivenKeys.{with_claims, TakeOver};
ghost use Rattle.table_store.specs.NewKeys.{new_in, AreBelow, AreClaimed};
ghost use Rattle.table_store.specs.Plans.{IsInsertPlan, IsReplacePlan};
ghost use Rattle.table_store.specs.IndexView.{held_in};
ghost use Rattle.table_store.specs.Types.{Null, RowKey};
ghost use Rattle.table_store.specs.Histories.{history_of_new_row, table_with_rows, table_with_values, table_without, nexts_with, changed_by};
ghost use Rattle.table_store.specs.Histories.{last_next_number, last_since, table_now, no_history, row_now};
ghost use Rattle.table_store.specs.Histories.{rows_now, rows_as_of, next_as_of, version_now};
ghost use Rattle.table_store.specs.Histories.{history_of_row, rows_with_values, slot_of_row};
ghost use Rattle.std.specs.List.{list_all, list_any};
ghost use Rattle.table_store.specs.inner.Grid.{are_of_kinds, AreNumberedFrom, next_after};
ghost use Rattle.table_store.specs.inner.Nexts.{nexts_of};
ghost use Rattle.table_store.specs.inner.RowChanges.{changes_given, removal, rewrite, RiseFrom, AllFitKinds};
ghost use Rattle.table_store.specs.inner.RowChanges.{AllStand, AreBefore};
ghost use Rattle.table_store.specs.Stops.{has_shape, have_shape, values_of, are_sorted_rows};
ghost use Rattle.table_store.specs.Stops.{are_sorted_numbers, had_rows, all_stand, insert_stop};
ghost use Rattle.table_store.specs.Stops.{replace_stop, replaced_by, with_replaced, StopsAs};
ghost use Rattle.table_store.specs.RowOrder.{AreInOrder};
ghost use Rattle.table_store.specs.TableView.{history_at_start, AreTimed, IsStored};

use crate::error::StoreStop;
use crate::keys::claim::claim;
use crate::keys::given::numbers_of;
use crate::keys::index::{Index, number_of_values};
use crate::keys::insert::{any_lacks_value, any_row_lacks_value, is_full, numbered_rows};
use crate::keys::new_keys::NewKeys;
use crate::keys::rekey::claims_of;
use crate::nexts::{NextSince, last_since, next_as_of};
use crate::plans::{InsertPlan, ReplacePlan};
use crate::references::child_index::{ChildIndex, add_all, settle_all};
use crate::references::first_place::first_place;
use crate::rows::Rows;
use crate::rows::table_rows::{rows_as_of, standing_rows};
use crate::start::{Parts, parts_at_start};
use ldv_value::{Cmp, Numbers, RowList, Utf8, Values};
use sql_model::{Foreigns, RowKey, Schema, Table, TableRow, TableRows};
use std::alloc::{AllocError, Global};
use std::marker::Model;

/// A table through time. Contracts see the history of each of its rows.
#[derive(Drop)]
pub struct TableStore {
    name: Utf8,
    schema: Schema,
    rows: Rows,
    index: Index,
    children: ChildIndex,
    nexts: Vec<NextSince>,
}

impl Model for TableStore {
    ghost use Rattle.table_store.specs.Histories.{TableHistory};

    ghost Value = { TableHistory };

    ghost use Rattle.table_store.specs.TableView.{seen_table, IsTable};

    ghost view = { seen_table };

    ghost invariant = { IsTable };
}

impl TableStore {
    /// The store of a table at time 0.
    #[tactic(auto, using(crate::proofs::TableLaws::begun_rules))]
    pub(crate) fn of_table(table: Table) -> Result<TableStore, AllocError>
        requires { is_valid_table table ≡ true }
        ensures { IfOk result (λ made. made ≡ history_at_start table) }
    {
        let Table {
            name,
            schema,
            rows,
            next,
        } = table;
        let parts = parts_at_start(name.allocator(), &schema, rows, next)?;
        let Parts {
            held,
            index,
            children,
            nexts,
        } = parts;
        Ok(TableStore {
            name,
            schema,
            rows: held,
            index,
            children,
            nexts,
        })
    }

    /// The name.
    pub fn name(&self) -> &str
        ensures { result.now ≡ self.now.name }
    {
        self.name.as_str()
    }

    /// The schema.
    pub fn schema(&self) -> &Schema
        ensures { result.now ≡ self.now.schema }
    {
        &self.schema
    }

    /// The allocator.
    pub(crate) fn allocator(&self) -> Global {
        self.name.allocator()
    }

    /// A copy of the name.
    pub(crate) fn copy_name(&self) -> Result<Utf8, AllocError>
        ensures { IfOk result (λ name. name ≡ self.now.name) }
    {
        self.name.copy()
    }

    /// Does nothing. Its contract tells the caller that the rows are in the order of their numbers, which are
    /// below that of the next row.
    pub fn tell_order(&self)
        ensures { AreInOrder self.now.slots (last_next_number self.now.nexts) }
    {
        let _nexts = &self.nexts;
        self.rows.tell_order();
    }

    /// Does nothing. Its contract tells the caller that the number of the next row is below 2^32.
    pub(crate) fn tell_small(&self)
        ensures { last_next_number self.now.nexts < 2 ^ 32 }
    {
        let _nexts = &self.nexts;
        self.rows.tell_order();
    }

    /// Whether the index of references is empty, so that no row refers to a key.
    pub(crate) fn has_no_reference(&self) -> bool
        ensures { IsTrue result → (given : List ℕ) (target : List ℕ) (keys : List RowKey)
            → None ≡ first_number (is_child_in given target keys self.now.schema.foreign)
            (rows_now self.now.slots) }
    {
        self.children.is_empty()
    }

    /// The least number, at least `from`, of a row that may refer to a key by the foreign key at a place. No
    /// row with a lower number that is at least `from` refers to it.
    pub(crate) fn referring_from(
        &self,
        place: usize,
        key: &RowKey,
        from: u32,
    ) -> Result<Option<u32>, AllocError>
        requires { place < length self.now.schema.foreign }
        ensures { IfOk result (IsNextOf
            (refers (slice_index_or self.now.schema.foreign place no_foreign) key.now.values)
            (rows_now self.now.slots) from) }
    {
        let first = first_place(self.schema.foreign.items(), place);
        let found = self.children.first_from(first, key, from)?;
        Ok(found)
    }

    /// Does nothing. Its contract tells the caller that the changes of each row are sorted by time, and none
    /// is later than the last change of the table.
    pub fn tell_times(&self)
        ensures { AreTimed (last_since self.now.nexts) self.now.slots }
    {
        let _nexts = &self.nexts;
    }

    /// The number of slots: one for each row that the table ever had, sorted by row number.
    pub(crate) fn slots(&self) -> u64
        ensures { result ≡ length self.now.slots }
    {
        self.rows.len() as u64
    }

    /// The number of the row in a slot, from 0; `None` if the slot is past the end or its row isn't live now.
    #[tactic(auto, using(crate::proofs::TableLaws::slot_rules))]
    pub fn slot_row(&self, slot: u64) -> Option<u32>
        ensures { result ≡ option_map (λ row. row.number)
            (row_now (slice_index_or self.now.slots slot no_history)) }
    {
        let slot = slot as usize;
        if slot >= self.rows.len() {
            return None;
        }
        if !self.rows.stands(slot) {
            return None;
        }
        Some(self.rows.number(slot))
    }

    /// The slot of the row with a number, live or not, found by bisection; `None` if the table never had it.
    pub fn slot_of(&self, row: u32) -> Option<u64>
        ensures { result ≡ slot_of_row row self.now.slots }
    {
        self.rows.tell_order();
        match self.rows.find(row) {
            None => None,
            Some(slot) => Some(slot as u64),
        }
    }

    /// A copy of the values of the live row in a slot.
    #[tactic(auto, using(crate::proofs::TableLaws::slot_rules))]
    pub fn row_values(&self, slot: u64) -> Result<Values, AllocError>
        requires { IsSome (current_values (slice_index_or self.now.slots slot no_history).changes) }
        ensures { IfOk result (λ values. Some values
            ≡ current_values (slice_index_or self.now.slots slot no_history).changes) }
    {
        self.rows.copy_values(self.name.allocator(), slot as usize)
    }

    /// Sets the bits of the slots whose row is live and whose number in the column passes the comparison with
    /// the constant, and clears all others. The column is of INT, and the mask has a word for each 64 slots,
    /// rounded up.
    #[tactic(auto, using(crate::proofs::TableLaws::column_kind))]
    pub(crate) fn scan(&self, column: u64, op: Cmp, constant: i64, mask: &mut [u64])
        requires column { option_map (λ column. column.text) (slice_get self.now.schema.columns column)
            ≡ Some false }
        requires mask { length mask.old ≡ (length self.now.slots + 63) / 64 }
        ensures { (n : ℕ) → member mask.new n ≡ option_map_or
            (λ row. passes_test op constant (slice_index_or row.values column Null))
            (row_now (slice_index_or self.now.slots n no_history)) false }
    {
        self.rows.scan(column as usize, op, constant, mask);
    }

    /// Sets the bits of the slots whose row is live and has NULL in the column (if `is_null` is false:
    /// another value), and clears all others. A place past the last column has NULL. The mask has a word for
    /// each 64 slots, rounded up.
    pub(crate) fn scan_nulls(&self, column: u64, is_null: bool, mask: &mut [u64])
        requires { length mask.old ≡ (length self.now.slots + 63) / 64 }
        ensures { (n : ℕ) → member mask.new n ≡ option_map_or
            (λ row. null_passes is_null (slice_index_or row.values column Null))
            (row_now (slice_index_or self.now.slots n no_history)) false }
    {
        self.rows.scan_nulls(column as usize, is_null, mask);
    }

    /// The slots whose row is live now, as bits: a word for each 64 slots, rounded up.
    #[tactic(auto, using(crate::proofs::TableLaws::standing_now))]
    pub fn standing_slots(&self) -> &[u64]
        ensures long { length result.now ≡ (length self.now.slots + 63) / 64 }
        ensures few { length result.now < 2 ^ 57 }
        ensures members { (n : ℕ) → member result.now n
            ≡ is_some (row_now (slice_index_or self.now.slots n no_history)) }
    {
        self.rows.standing_slots()
    }

    /// The version of a row: how often it has changed. `None` if it isn't live now.
    pub fn version(&self, row: u32) -> Option<u32>
        ensures { result ≡ version_now (history_of_row row self.now.slots) }
    {
        self.rows.tell_order();
        match self.rows.find(row) {
            None => None,
            Some(slot) => version_in(&self.rows, slot),
        }
    }

    /// The version of the live row in a slot: how often it has changed. It needs no search for the slot.
    #[tactic(auto, using(crate::proofs::TableLaws::slot_rules))]
    pub fn version_at(&self, slot: u64) -> u32
        requires { IsSome (current_values (slice_index_or self.now.slots slot no_history).changes) }
        ensures { result ≡ version (slice_index_or self.now.slots slot no_history).changes }
    {
        self.rows.version(slot as usize)
    }

    /// The number of the live row with a key, looked up in the index; `None` if no row has it. The table has
    /// a key. It takes no memory.
    #[tactic(auto, using(crate::proofs::TableLaws::held_keyed))]
    pub fn by_key(&self, key: &Values) -> Option<u32>
        requires { 0 < length self.now.schema.key }
        ensures { result ≡ option_map (λ row. row.number)
            (find (has_key self.now.schema.key key.now) (rows_now self.now.slots)) }
    {
        number_of_values(&self.index, &self.rows, &self.schema.key, key)
    }

    /// The number of the live row with a key; `None` if no row has it. The table has a key. It takes no
    /// memory.
    pub fn by_row_key(&self, key: &RowKey) -> Option<u32>
        requires { 0 < length self.now.schema.key }
        ensures { result ≡ option_map (λ row. row.number)
            (find (has_key self.now.schema.key key.now.values) (rows_now self.now.slots)) }
    {
        self.by_key(&key.values)
    }

    /// The number of the next row.
    pub(crate) fn next(&self) -> u32
        ensures { result ≡ last_next_number self.now.nexts }
    {
        self.rows.next()
    }

    /// The number of the next row after a time, found by bisection. From the last change on it is that of
    /// now.
    pub fn next_at(&self, time: u32) -> u32
        ensures number { result ≡ next_as_of time self.now.nexts }
        ensures last { last_since self.now.nexts ≤ time → result ≡ last_next_number self.now.nexts }
    {
        next_as_of(self.nexts.as_slice(), time)
    }

    /// The rows after a time. From the last change on they are those of now, found by their bits.
    pub fn rows_at(&self, time: u32) -> Result<TableRows, AllocError>
        ensures rows { IfOk result (λ rows. rows ≡ rows_as_of time self.now.slots) }
        ensures last { last_since self.now.nexts ≤ time
            → IfOk result (λ rows. rows ≡ rows_now self.now.slots) }
    {
        let alloc = self.name.allocator();
        if last_since(self.nexts.as_slice()) <= time {
            return standing_rows(alloc, &self.rows);
        }
        rows_as_of(alloc, &self.rows, time)
    }

    /// The new rows and their keys, for `commit_insert`. Each row has a value for each column, of its kind.
    /// `NotNull`, `KeyTaken` and `Full` are tried in this order, and `NoMemory` comes if memory runs out.
    pub(crate) fn plan_insert(&self, rows: RowList) -> Result<InsertPlan, StoreStop>
        requires shape { have_shape rows (table_now self.now) ≡ true }
        ensures stop { StopsAs (insert_stop rows (table_now self.now)) result }
        ensures plan { IfOk result (IsInsertPlan self.now) }
        ensures rows { IfOk result (λ plan. plan.rows ≡ rows) }
    {
        let alloc = self.name.allocator();
        let next = self.rows.next();
        match claim_new(
            alloc,
            &self.index,
            &self.rows,
            &self.schema,
            rows.items(),
            next,
        ) {
            Ok(keys) => Ok(InsertPlan { rows, keys }),
            Err(stop) => Err(stop),
        }
    }

    /// Adds planned rows at a time, numbered from the number of the next row on, and returns that number. The
    /// time is later than that of each earlier change. On `AllocError` the table is as it was.
    pub(crate) fn commit_insert(&mut self, plan: InsertPlan, time: u32) -> Result<u32, AllocError>
        requires plan { IsInsertPlan self.old plan }
        requires later { last_since self.old.nexts < time }
        ensures first { IfOk result (λ first. first ≡ last_next_number self.old.nexts) }
        ensures ok { OnOk result (self.new ≡ table_with_rows time plan.rows self.old) }
        ensures err { OnErr result (self.new ≡ self.old) }
    {
        let alloc = self.name.allocator();
        let next = self.rows.next();
        let InsertPlan { rows, keys } = plan;
        self.index.enter(keys, next)?;
        add_new(
            alloc,
            &mut self.rows,
            &mut self.nexts,
            &mut self.children,
            &self.schema.foreign,
            rows,
            time,
        )?;
        Ok(next)
    }

    /// The rows with their other values, each by its number, and the numbers that keys get, for
    /// `commit_replace`. The rows are sorted by number, and each has the number of a live row and a value for
    /// each column, of its kind. `NotNull` and `KeyTaken` (by the keys that the table would have) are tried
    /// in this order, and `NoMemory` comes if memory runs out.
    pub(crate) fn plan_replace(&self, rows: TableRows) -> Result<ReplacePlan, StoreStop>
        requires shape { have_shape (values_of rows) (table_now self.now) ≡ true }
        requires sorted { are_sorted_rows rows ≡ true }
        requires stand { had_rows rows (table_now self.now) ≡ true }
        ensures stop { StopsAs (replace_stop rows (table_now self.now)) result }
        ensures plan { IfOk result (IsReplacePlan self.now) }
        ensures rows { IfOk result (λ plan. plan.rows ≡ rows) }
    {
        let alloc = self.name.allocator();
        match claim_given(alloc, &self.index, &self.rows, &self.schema, rows.items()) {
            Ok(claims) => Ok(ReplacePlan { rows, claims }),
            Err(stop) => Err(stop),
        }
    }

    /// Gives planned rows their other values at a time, later than that of each earlier change. On
    /// `AllocError` the table is as it was.
    pub(crate) fn commit_replace(&mut self, plan: ReplacePlan, time: u32) -> Result<(), AllocError>
        requires plan { IsReplacePlan self.old plan }
        requires later { last_since self.old.nexts < time }
        ensures ok { OnOk result (self.new ≡ table_with_values time plan.rows self.old) }
        ensures now { OnOk result (table_now (table_with_values time plan.rows self.old)
            ≡ with_replaced plan.rows (table_now self.old)) }
        ensures err { OnErr result (self.new ≡ self.old) }
    {
        let alloc = self.name.allocator();
        let ReplacePlan { rows, claims } = plan;
        self.rows.tell_order();
        put_given(
            alloc,
            &mut self.index,
            &mut self.children,
            &mut self.rows,
            &mut self.nexts,
            &self.schema,
            rows,
            claims,
            time,
        )?;
        Ok(())
    }

    /// Deletes the rows with these numbers at a time. The time is later than that of each earlier change. The
    /// numbers are sorted, and each is that of a live row. On `AllocError` the table is as it was.
    pub(crate) fn commit_delete(&mut self, numbers: &Numbers, time: u32) -> Result<(), AllocError>
        requires later { last_since self.old.nexts < time }
        requires sorted { are_sorted_numbers numbers.now ≡ true }
        requires stand { all_stand numbers.now (table_now self.old) ≡ true }
        ensures ok { OnOk result (self.new ≡ table_without time numbers.now self.old) }
        ensures err { OnErr result (self.new ≡ self.old) }
    {
        let alloc = self.name.allocator();
        let before = last_since(self.nexts.as_slice());
        drop_rows(&mut self.rows, &mut self.nexts, numbers.items(), time)?;
        settle_all(
            alloc,
            &mut self.children,
            &self.schema.foreign,
            &self.rows,
            numbers.items(),
            before,
        );
        Ok(())
    }
}

// What refuses new rows, and else their keys.
fn claim_new(
    alloc: Global,
    index: &Index,
    stored: &Rows,
    schema: &Schema,
    values: &[Values],
    next: u32,
) -> Result<NewKeys, StoreStop>
    requires indexed { AreIndexed schema.now.key (λ key. held_in index.now key)
        (rows_now stored.now.slots) }
    requires next { stored.now.next ≡ next }
    ensures ok { IfOk result (λ keys. AreClaimed schema.now.key next (rows_now stored.now.slots) values.now
        (new_in keys)) }
    ensures below { IfOk result (λ keys. AreBelow keys (length values.now)) }
    ensures few { OnOk result (next + length values.now ≤ max_next) }
    ensures stop { (name : List ℕ) → StopsAs (insert_stop values.now (record {
      name = name;
      schema = schema.now;
      rows = rows_now stored.now.slots;
      next = next;
    })) result }
{
    if any_lacks_value(schema.columns.items(), values) {
        return Err(StoreStop::NotNull);
    }
    stored.tell_order();
    let keys = match claim(alloc, index, stored, &schema.key, values, next) {
        Ok(keys) => keys,
        Err(stop) => return Err(stop),
    };
    if is_full(next, values.len()) {
        return Err(StoreStop::Full);
    }
    Ok(keys)
}

// Adds rows that nothing refuses.
fn add_new(
    alloc: Global,
    rows: &mut Rows,
    nexts: &mut Vec<NextSince>,
    children: &mut ChildIndex,
    foreigns: &Foreigns,
    values: RowList,
    time: u32,
) -> Result<(), AllocError>
    requires few { rows.old.next + length values ≤ max_next }
    requires kinds { are_of_kinds rows.old.kinds (numbered_rows rows.old.next values) ≡ true }
    ensures kept { KeepPairs (pair_by children.old foreigns.now) (pair_by children.new foreigns.now) }
    ensures referred { OnOk result (AreReferred (pair_by children.new foreigns.now) foreigns.now
        (numbered_rows rows.old.next values)) }
    ensures ok { OnOk result (rows.new ≡ record rows.old {
      slots = rows.old.slots ++ map (history_of_new_row time) (numbered_rows rows.old.next values);
      next = next_after rows.old.next (numbered_rows rows.old.next values);
    }) }
    ensures nexts { OnOk result (nexts_of nexts.new.items ≡ nexts_with time
        (next_after rows.old.next (numbered_rows rows.old.next values)) (nexts_of nexts.old.items)) }
    ensures err { OnErr result (rows.new ≡ rows.old) }
    ensures nexts_err { OnErr result (nexts.new.items ≡ nexts.old.items) }
{
    let made = numbered_rows(alloc, values, rows.next())?;
    add_all(alloc, children, foreigns, made.items())?;
    add_rows(rows, nexts, made, time)?;
    Ok(())
}

// What refuses other values of rows, and else the numbers that their keys get.
fn claim_given(
    alloc: Global,
    index: &Index,
    stored: &Rows,
    schema: &Schema,
    given: &[TableRow],
) -> Result<Index, StoreStop>
    requires sorted { are_sorted_rows given.now ≡ true }
    requires stand { list_all (λ row. list_any (λ old. old.number == row.number)
        (rows_now stored.now.slots)) given.now ≡ true }
    requires indexed { AreIndexed schema.now.key (λ key. held_in index.now key)
        (rows_now stored.now.slots) }
    ensures ok { IfOk result (λ claims. TakeOver schema.now.key (rows_now stored.now.slots)
        (map (replaced_by given.now) (rows_now stored.now.slots)) (λ key. held_in claims key)) }
    ensures stop { (name : List ℕ) (next : ℕ) → StopsAs (replace_stop given.now (record {
      name = name;
      schema = schema.now;
      rows = rows_now stored.now.slots;
      next = next;
    })) result }
{
    if any_row_lacks_value(schema.columns.items(), given) {
        return Err(StoreStop::NotNull);
    }
    match claims_of(alloc, index, stored, &schema.key, given) {
        Ok(claims) => Ok(claims),
        Err(stop) => Err(stop),
    }
}

// Gives rows other values, which nothing refuses, where the index takes over the numbers of their keys.
fn put_given(
    alloc: Global,
    index: &mut Index,
    children: &mut ChildIndex,
    rows: &mut Rows,
    nexts: &mut Vec<NextSince>,
    schema: &Schema,
    given: TableRows,
    claims: Index,
    time: u32,
) -> Result<(), AllocError>
    requires stored { IsStored schema.now rows.old (λ key. held_in index.old key)
        (pair_by children.old schema.now.foreign)
        (nexts_of nexts.old.items) }
    requires later { last_since (nexts_of nexts.old.items) < time }
    requires shape { list_all (has_shape schema.now.columns) (values_of given) ≡ true }
    requires sorted { are_sorted_rows given ≡ true }
    requires stand { list_all (λ row. list_any (λ old. old.number == row.number)
        (rows_now rows.old.slots)) given ≡ true }
    requires claimed { AreIndexed schema.now.key
        (with_claims (λ key. held_in claims key) (λ key. held_in index.old key))
        (map (replaced_by given) (rows_now rows.old.slots)) }
    ensures stored { IsStored schema.now rows.new (λ key. held_in index.new key)
        (pair_by children.new schema.now.foreign)
        (nexts_of nexts.new.items) }
    ensures ok { OnOk result (rows.new.slots ≡ rows_with_values time given rows.old.slots) }
    ensures nexts { OnOk result (nexts_of nexts.new.items
        ≡ nexts_with time (last_next_number (nexts_of nexts.old.items)) (nexts_of nexts.old.items)) }
    ensures err { OnErr result (rows.new ≡ rows.old) }
    ensures nexts_err { OnErr result (nexts.new.items ≡ nexts.old.items) }
{
    let before = last_since(nexts.as_slice());
    rows.tell_order();
    let numbers = make_way(
        alloc,
        index,
        children,
        &schema.foreign,
        given.items(),
        &claims,
    )?;
    write_given(alloc, rows, nexts, given, time)?;
    index.set_all(claims);
    settle_all(
        alloc,
        children,
        &schema.foreign,
        rows,
        numbers.as_slice(),
        before,
    );
    Ok(())
}

// The numbers of given rows, once these are there under the keys to which they refer, and each claimed key
// has a number in the index.
fn make_way(
    alloc: Global,
    index: &mut Index,
    children: &mut ChildIndex,
    foreigns: &Foreigns,
    given: &[TableRow],
    claims: &Index,
) -> Result<Vec<u32>, AllocError>
    ensures pairs { KeepPairs (pair_by children.old foreigns.now) (pair_by children.new foreigns.now) }
    ensures keys { (q : RowKey) (n : ℕ) → held_in index.old q ≡ Some n → held_in index.new q ≡ Some n }
    ensures referred { OnOk result (AreReferred (pair_by children.new foreigns.now) foreigns.now given.now) }
    ensures open { OnOk result ((q : RowKey) → IsSome (held_in claims.now q)
        → IsSome (held_in index.new q)) }
{
    let numbers = numbers_of(alloc, given)?;
    add_all(alloc, children, foreigns, given)?;
    index.open_all(claims)?;
    Ok(numbers)
}

// Changes rows to given ones, and notes the time; the number of the next row stays.
fn write_given(
    alloc: Global,
    rows: &mut Rows,
    nexts: &mut Vec<NextSince>,
    given: TableRows,
    time: u32,
) -> Result<(), AllocError>
    requires before { AreBefore time rows.old.slots }
    requires apart { RiseFrom 0 (map rewrite given) }
    requires stand { AllStand rows.old.slots (map rewrite given) }
    requires fits { AllFitKinds rows.old.kinds (map rewrite given) }
    ensures ok { OnOk result (rows.new ≡ record rows.old {
      slots = map (changed_by (changes_given time (map rewrite given))) rows.old.slots;
    }) }
    ensures nexts { OnOk result (nexts_of nexts.new.items
        ≡ nexts_with time rows.old.next (nexts_of nexts.old.items)) }
    ensures err { OnErr result (rows.new ≡ rows.old) }
    ensures nexts_err { OnErr result (nexts.new.items ≡ nexts.old.items) }
{
    nexts.reserve(1)?;
    rows.rewrite_all(alloc, given, time)?;
    nexts.push(NextSince {
        time,
        next: rows.next(),
    })?;
    Ok(())
}

// Adds rows, and notes the number of the next one.
fn add_rows(
    rows: &mut Rows,
    nexts: &mut Vec<NextSince>,
    made: TableRows,
    time: u32,
) -> Result<(), AllocError>
    requires numbered { AreNumberedFrom rows.old.next made }
    requires few { length made < 2 ^ 32 }
    requires kinds { are_of_kinds rows.old.kinds made ≡ true }
    ensures ok { OnOk result (rows.new ≡ record rows.old {
      slots = rows.old.slots ++ map (history_of_new_row time) made;
      next = next_after rows.old.next made;
    }) }
    ensures nexts { OnOk result (nexts_of nexts.new.items
        ≡ nexts_of nexts.old.items ++ record { time = time; next = next_after rows.old.next made } ∷ []) }
    ensures err { OnErr result (rows.new ≡ rows.old) }
    ensures nexts_err { OnErr result (nexts.new.items ≡ nexts.old.items) }
{
    nexts.reserve(1)?;
    rows.push_all(made, time)?;
    nexts.push(NextSince {
        time,
        next: rows.next(),
    })?;
    Ok(())
}

// Deletes rows, and notes the time; the number of the next row stays.
fn drop_rows(
    rows: &mut Rows,
    nexts: &mut Vec<NextSince>,
    numbers: &[u32],
    time: u32,
) -> Result<(), AllocError>
    requires before { AreBefore time rows.old.slots }
    requires apart { RiseFrom 0 (map removal numbers.now) }
    requires stand { AllStand rows.old.slots (map removal numbers.now) }
    ensures ok { OnOk result (rows.new ≡ record rows.old {
      slots = map (changed_by (changes_given time (map removal numbers.now))) rows.old.slots;
    }) }
    ensures nexts { OnOk result (nexts_of nexts.new.items
        ≡ nexts_with time rows.old.next (nexts_of nexts.old.items)) }
    ensures err { OnErr result (rows.new ≡ rows.old) }
    ensures nexts_err { OnErr result (nexts.new.items ≡ nexts.old.items) }
{
    nexts.reserve(1)?;
    rows.delete_all(numbers, time)?;
    nexts.push(NextSince {
        time,
        next: rows.next(),
    })?;
    Ok(())
}

// The version of the row in a slot, where it stands.
fn version_in(rows: &Rows, slot: usize) -> Option<u32>
    requires { slot < length rows.now.slots }
    ensures { let row = slice_index_or rows.now.slots slot no_history in
        result ≡ (if is_some (current_values row.changes) then Some (version row.changes) else None) }
{
    if rows.stands(slot) {
        Some(rows.version(slot))
    } else {
        None
    }
}
