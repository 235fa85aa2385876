//! Tables.

ghost use Rattle.std.specs.Prelude.{◌≡◌, ◌<◌, [], Some, IfOk, OnOk, length};
ghost use Rattle.std.specs.Str.{IsUtf8};
ghost use Rattle.serde_json.specs.Data.{Members, no_members};
ghost use Rattle.world_json.specs.Shape.{table_in, whole_of};
ghost use Rattle.world_json.specs.inner.Parts.{AreTableParts};
ghost use Rattle.world_json.specs.inner.Taking.{IsTaken, part_or};
ghost use Rattle.world_json.specs.inner.Typed.{TypedDraft};

use crate::document::{Draft, DraftForeigns};
use crate::fast::integer::unsigned_of;
use crate::fast::items::take_array;
use crate::fast::members::{FromNamedTokens, TakesMembers, take_members};
use crate::fast::rows::take_rows;
use crate::fast::tokens::{next_number, open_object};
use crate::parts::has_width;
use crate::rows::NumberedRows;
use crate::shape::ShapeStop;
use json::Reader;
use ldv_value::{List, Names, Utf8};
use sql_model::Columns;
use std::alloc::Global;

// The members of a table that were read.
#[derive(Drop)]
pub(crate) struct TableParts {
    columns: Option<Columns>,
    key: Option<Names>,
    foreign: Option<DraftForeigns>,
    rows: Option<NumberedRows>,
    next: Option<u64>,
}

impl FromNamedTokens for Draft {
    ghost use Rattle.world_json.specs.Shape.{table_of};
    ghost use Rattle.world_json.specs.inner.Typed.{TypedDraft};

    ghost of_member = { table_of };

    ghost levels = { 4 };

    ghost typed = { TypedDraft };

    fn from_tokens(alloc: Global, name: Utf8, reader: &mut Reader<'_>) -> Result<Self, ShapeStop> {
        open_object(reader)?;
        let mut parts = no_parts();
        take_members(alloc, reader, &mut parts)?;
        let draft = draft_of(alloc, name, parts)?;
        Ok(draft)
    }
}

fn no_parts() -> TableParts
    ensures { AreTableParts no_members result }
{
    TableParts {
        columns: None,
        key: None,
        foreign: None,
        rows: None,
        next: None,
    }
}

impl TakesMembers for TableParts {
    ghost use Rattle.world_json.specs.inner.Parts.{AreTableParts};

    ghost kept = { AreTableParts };

    ghost levels = { 3 };

    #[tactic(auto, using(crate::proofs::TakenParts::table_members_taken))]
    fn take_member(
        &mut self,
        alloc: Global,
        name: &str,
        reader: &mut Reader<'_>,
    ) -> Result<(), ShapeStop> {
        if name == "columns" {
            self.columns = Some(take_array(alloc, reader, 4)?);
            Ok(())
        } else if name == "key" {
            self.key = Some(take_array(alloc, reader, 1)?);
            Ok(())
        } else if name == "foreign" {
            self.foreign = Some(take_array(alloc, reader, 1)?);
            Ok(())
        } else if name == "rows" {
            self.rows = Some(take_rows(alloc, reader)?);
            Ok(())
        } else if name == "next" {
            self.next = Some(take_whole(reader)?);
            Ok(())
        } else {
            Err(ShapeStop::Shape)
        }
    }
}

/// A whole number from 0 to 2^64 - 1.
pub(crate) fn take_whole(reader: &mut Reader<'_>) -> Result<u64, ShapeStop>
    ensures taken { IfOk result (λ number. IsTaken whole_of 0 reader.old number reader.new) }
    ensures shorter { OnOk result (length reader.new < length reader.old) }
{
    let text = next_number(reader)?;
    match unsigned_of(text) {
        Some(number) => Ok(number),
        None => Err(ShapeStop::Shape),
    }
}

fn draft_of(alloc: Global, name: Utf8, parts: TableParts) -> Result<Draft, ShapeStop>
    requires { IsUtf8 name }
    ensures { IfOk result (λ draft. (ms : Members) → AreTableParts ms parts
        → (table_in name ms ≡ Some draft) × TypedDraft draft) }
{
    let TableParts {
        columns,
        key,
        foreign,
        rows,
        next,
    } = parts;
    let columns = require_part(columns)?;
    let key = list_or_empty(alloc, key);
    let foreign = list_or_empty(alloc, foreign);
    let rows = rows_or_none(alloc, rows);
    let next = number_or(next, rows.len() as u64);
    if !has_width(&rows, columns.len()) {
        return Err(ShapeStop::Shape);
    }
    Ok(Draft {
        name,
        columns,
        key,
        foreign,
        rows,
        next,
    })
}

/// A part that has to be there.
pub(crate) fn require_part<X: Drop>(part: Option<X>) -> Result<X, ShapeStop>
    ensures { IfOk result (λ x. part ≡ Some x) }
{
    match part {
        Some(x) => Ok(x),
        None => Err(ShapeStop::Shape),
    }
}

/// A list that was read, or else the empty one.
pub(crate) fn list_or_empty<X: Drop>(alloc: Global, list: Option<List<X>>) -> List<X>
    ensures { result ≡ part_or [] list }
{
    match list {
        Some(list) => list,
        None => List::new(alloc),
    }
}

/// A number that was read, or else another.
pub(crate) fn number_or(number: Option<u64>, other: u64) -> u64
    ensures { result ≡ part_or other number }
{
    match number {
        Some(number) => number,
        None => other,
    }
}

fn rows_or_none(alloc: Global, rows: Option<NumberedRows>) -> NumberedRows
    ensures { result ≡ part_or [] rows }
{
    match rows {
        Some(rows) => rows,
        None => NumberedRows::new(alloc),
    }
}
