//! Marks of the tables that a statement asks: how far each is taken.
//!
//! The rows that a statement needs are known once it has run, and then nothing may fail any more. So all
//! memory is taken before: a copy of the names of all tables, and a mark for each. There are few tables, so
//! a linear search finds each.

ghost use Rattle.std.specs.Prelude.{◌≡◌, ◌<◌, List as Items, ℕ, length, map, IfOk, None};
ghost use Rattle.std.specs.List.{position};
ghost use Rattle.sql_engine.specs.inner.Listing.{is_text};
ghost use Rattle.sql_engine.specs.inner.Taking.{is_taken, is_waiting, taken_mark, first_mark, raised_at};
ghost use Rattle.sql_engine.specs.inner.Taking.{with_name, with_unless, with_more, with_reads};
ghost use Rattle.sql_engine.specs.inner.Taking.{with_parents_of, marks_with_parents, AreMarks, IsFresh};

use crate::named_tables::names_table;
use ldv_value::{Names, Utf8};
use sql_model::{Catalog, Foreign, Need, Statement};
use std::alloc::{AllocError, Global};

/// How far a table is taken: not at all, itself alone, or itself and its parents.
#[derive(Clone, Copy)]
pub(crate) enum Mark {
    Left,
    Taken,
    Done,
}

/// Whether a table is taken.
pub(crate) fn is_taken(mark: Mark) -> bool
    ensures { result ≡ is_taken mark }
{
    match mark {
        Mark::Left => false,
        Mark::Taken => true,
        Mark::Done => true,
    }
}

// Whether the parents of a table are still to be taken.
fn is_waiting(mark: Mark) -> bool
    ensures { result ≡ is_waiting mark }
{
    match mark {
        Mark::Left => false,
        Mark::Taken => true,
        Mark::Done => false,
    }
}

// The mark of a table that is taken.
fn taken_mark(mark: Mark) -> Mark
    ensures { result ≡ taken_mark mark }
{
    match mark {
        Mark::Left => Mark::Taken,
        Mark::Taken => Mark::Taken,
        Mark::Done => Mark::Done,
    }
}

/// The names of all tables, and their marks: all memory that listing the asked ones needs.
#[derive(Drop)]
pub(crate) struct TableMarks {
    pub names: Names,
    pub marks: Vec<Mark>,
}

/// Makes the names and marks of all tables, before a statement runs. The tables that it names are taken.
pub(crate) fn marks_for(
    alloc: Global,
    names: &Names,
    statement: &Statement,
) -> Result<TableMarks, AllocError>
    ensures { IfOk result (IsFresh statement.now names.now) }
{
    let marks = first_marks(alloc, names, statement)?;
    let copies = names.copy()?;
    Ok(TableMarks {
        names: copies,
        marks,
    })
}

fn first_marks(alloc: Global, names: &Names, statement: &Statement) -> Result<Vec<Mark>, AllocError>
    ensures { IfOk result (λ marks. marks.items ≡ map (first_mark statement.now) names.now) }
{
    let mut marks = Vec::with_capacity(alloc, names.len())?;
    for name in names.items() {
        marks.push(first_mark(statement, name))?;
    }
    Ok(marks)
}

fn first_mark(statement: &Statement, name: &Utf8) -> Mark
    ensures { result ≡ first_mark statement.now name.now }
{
    if names_table(statement, name) {
        Mark::Taken
    } else {
        Mark::Left
    }
}

// Takes the table at a place.
#[tactic(auto, using(crate::proofs::MarkLaws::raised_rules))]
fn mark_taken(marks: &mut Vec<Mark>, place: usize)
    ensures { marks.new.items ≡ raised_at marks.old.items place }
{
    if place >= marks.len() {
        return;
    }
    marks[place] = taken_mark(marks[place]);
}

fn place_of(names: &[Utf8], name: &Utf8) -> Option<usize>
    ensures { result ≡ position (is_text name.now) names.now }
{
    names.iter().position(|other| *name == *other)
}

// Takes the table of a name, if it is there.
fn mark_name(names: &[Utf8], marks: &mut Vec<Mark>, name: &Utf8)
    ensures { marks.new.items ≡ with_name names.now name.now marks.old.items }
{
    match place_of(names, name) {
        None => {}
        Some(place) => mark_taken(marks, place),
    }
}

// Takes the table of a name, unless it is the one before.
fn mark_unless(names: &[Utf8], marks: &mut Vec<Mark>, before: &Utf8, name: &Utf8)
    ensures { marks.new.items ≡ with_unless names.now before.now name.now marks.old.items }
{
    if *name == *before {
        return;
    }
    mark_name(names, marks, name);
}

// Takes the tables of rows that are needed after one of some table. Rows of one table are neighbours.
fn mark_more(names: &[Utf8], marks: &mut Vec<Mark>, first: &Utf8, reads: &[Need])
    ensures { marks.new.items ≡ with_more names.now first.now reads.now marks.old.items }
{
    let mut before = first;
    for need in reads {
        mark_unless(names, marks, before, &need.member.table);
        before = &need.member.table;
    }
}

/// Takes the tables of rows that are needed.
pub(crate) fn mark_needed(names: &[Utf8], marks: &mut Vec<Mark>, reads: &[Need])
    ensures { marks.new.items ≡ with_reads names.now reads.now marks.old.items }
{
    match reads {
        [] => {}
        [need, more @ ..] => {
            mark_name(names, marks, &need.member.table);
            mark_more(names, marks, &need.member.table, more);
        }
    }
}

// Takes the parents of foreign keys.
fn mark_parents(names: &[Utf8], marks: &mut Vec<Mark>, foreigns: &[Foreign])
    ensures { marks.new.items ≡ with_parents_of names.now foreigns.now marks.old.items }
{
    for foreign in foreigns {
        mark_name(names, marks, &foreign.parent);
    }
}

// The first table whose parents are still to be taken.
fn waiting_table(marks: &[Mark]) -> Option<usize>
    ensures { result ≡ position is_waiting marks.now }
{
    marks.iter().position(|mark| is_waiting(*mark))
}

// Takes the parents of the table at a place, which is done then.
fn mark_parents_of(catalog: &Catalog, marks: &mut Vec<Mark>, place: usize)
    requires { place < length marks.old.items }
    ensures { marks.new.items ≡ marks_with_parents catalog.now place marks.old.items }
{
    marks[place] = Mark::Done;
    match catalog.schemas.get(place) {
        None => {}
        Some(schema) => mark_parents(catalog.names.items(), marks, schema.foreign.items()),
    }
}

/// Takes the parents of all tables that are taken, and theirs.
pub(crate) fn mark_all_parents(catalog: &Catalog, marks: &mut Vec<Mark>)
    requires { length catalog.now.names ≡ length catalog.now.schemas }
    ensures marks { (first : Items (Items ℕ)) → AreMarks first catalog.now marks.old.items
        → AreMarks first catalog.now marks.new.items }
    ensures none { position is_waiting marks.new.items ≡ None }
{
    'tables: while let Some(place) = waiting_table(marks.as_slice()) {
        mark_parents_of(catalog, marks, place);
    }
}
