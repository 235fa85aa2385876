//! The world of a document: its faults in their order, then its parts as a world.

ghost use Rattle.std.specs.Prelude.{◌≡◌, IfOk, IfErr, Ok, Some, map, option_and_then, true};
ghost use Rattle.std.specs.List.{list_all};
ghost use Rattle.serde_json.specs.View.{view};
ghost use Rattle.json_bytes.specs.Reading.{json_of};
ghost use Rattle.run_model.specs.Start.{IsParsed};
ghost use Rattle.run_model.specs.ValidWorld.{CanRun, TypedWorld, ValidWorld};
ghost use Rattle.world_json.specs.Faults.{is_within, is_table_within};
ghost use Rattle.world_json.specs.Reading.{world_reading, reading_of_json, reading_of, referring_of, have_references};
ghost use Rattle.world_json.specs.Reading.{world_as, table_as, IsFaultOf};
ghost use Rattle.world_json.specs.Shape.{document_of};
ghost use Rattle.world_json.specs.SortedWorld.{is_sorted_world};
ghost use Rattle.world_json.specs.inner.Typed.{TypedDocument};

use crate::document::{Document, Draft, Drafts};
use crate::fast::read_fast;
use crate::fault::{WorldFault, WorldStop};
use crate::keys::{foreign_keys, meets_keys, places_of_key};
use crate::kinds::{meets_kinds, meets_not_null};
use crate::limits::meets_limits;
use crate::name_rules::meets_names;
use crate::parts::read_document;
use crate::shape::ShapeStop;
use crate::start::parse_start;
use json_bytes::{JsonStop, read_json};
use ldv_value::{Bytes, List};
use run_model::{ParsedWorld, World};
use serde_json::Value;
use sql_model::{Schema, Table, Tables, have_parents, references_hold};
use std::alloc::{AllocError, Global};

/// The world that a document describes. `Fault`: it describes none; the faults are tried in the order of
/// `WorldFault`, each over the whole document, and this is the first one that holds. `NoMemory` may come in
/// place of either. The files are sorted by path, the tables by name. The world is valid, and it can be run.
pub fn world_of(alloc: Global, bytes: &[u8]) -> Result<World, WorldStop>
    ensures world { IfOk result (λ world. world_reading bytes.now ≡ Ok world) }
    ensures fault { IfErr result (IsFaultOf (world_reading bytes.now)) }
    ensures sorted { IfOk result (λ world. is_sorted_world world ≡ true) }
    ensures valid { IfOk result (λ world. ValidWorld world) }
    ensures runs { IfOk result (λ world. CanRun world) }
{
    match parsed_world_of(alloc, bytes) {
        Ok(parsed) => {
            let ParsedWorld { world, script: _ } = parsed;
            Ok(world)
        }
        Err(stop) => Err(stop),
    }
}

/// The same as `world_of`, with the script of the file at the first start word.
pub fn parsed_world_of(alloc: Global, bytes: &[u8]) -> Result<ParsedWorld, WorldStop>
    ensures world { IfOk result (λ p. world_reading bytes.now ≡ Ok p.world) }
    ensures fault { IfErr result (IsFaultOf (world_reading bytes.now)) }
    ensures sorted { IfOk result (λ p. is_sorted_world p.world ≡ true) }
    ensures valid { IfOk result (λ p. ValidWorld p.world) }
    ensures runs { IfOk result (λ p. CanRun p.world) }
    ensures parsed { IfOk result IsParsed }
{
    read_world(alloc, bytes)
}

/// The same as `parsed_world_of`. The bytes are dropped once the parts of their document are read, before any
/// rule is tried over these.
pub fn parsed_world_of_bytes(alloc: Global, bytes: Bytes) -> Result<ParsedWorld, WorldStop>
    ensures world { IfOk result (λ p. world_reading bytes ≡ Ok p.world) }
    ensures fault { IfErr result (IsFaultOf (world_reading bytes)) }
    ensures sorted { IfOk result (λ p. is_sorted_world p.world ≡ true) }
    ensures valid { IfOk result (λ p. ValidWorld p.world) }
    ensures runs { IfOk result (λ p. CanRun p.world) }
    ensures parsed { IfOk result IsParsed }
{
    read_owned_world(alloc, bytes)
}

fn read_world(alloc: Global, bytes: &[u8]) -> Result<ParsedWorld, WorldStop>
    ensures world { IfOk result (λ p. world_reading bytes.now ≡ Ok p.world) }
    ensures fault { IfErr result (IsFaultOf (world_reading bytes.now)) }
    ensures typed { IfOk result (λ p. TypedWorld p.world) }
    ensures parsed { IfOk result IsParsed }
{
    match document_of_bytes(alloc, bytes) {
        Ok(document) => world_of_document(alloc, document),
        Err(stop) => Err(stop),
    }
}

fn read_owned_world(alloc: Global, bytes: Bytes) -> Result<ParsedWorld, WorldStop>
    ensures world { IfOk result (λ p. world_reading bytes ≡ Ok p.world) }
    ensures fault { IfErr result (IsFaultOf (world_reading bytes)) }
    ensures typed { IfOk result (λ p. TypedWorld p.world) }
    ensures parsed { IfOk result IsParsed }
{
    match document_of_owned(alloc, bytes) {
        Ok(document) => world_of_document(alloc, document),
        Err(stop) => Err(stop),
    }
}

// It drops the bytes as it returns.
fn document_of_owned(alloc: Global, bytes: Bytes) -> Result<Document, WorldStop>
    ensures read { IfOk result (λ document. option_and_then document_of (json_of bytes) ≡ Some document) }
    ensures fault { IfErr result (IsFaultOf (world_reading bytes)) }
    ensures typed { IfOk result (λ document. TypedDocument document) }
{
    document_of_bytes(alloc, bytes.as_slice())
}

// Token by token, or else by way of the tree of its JSON value, which alone tells the faults of its shape.
fn document_of_bytes(alloc: Global, bytes: &[u8]) -> Result<Document, WorldStop>
    ensures read { IfOk result (λ document. option_and_then document_of (json_of bytes.now) ≡ Some document) }
    ensures fault { IfErr result (IsFaultOf (world_reading bytes.now)) }
    ensures typed { IfOk result (λ document. TypedDocument document) }
{
    match read_fast(alloc, bytes) {
        Ok(document) => Ok(document),
        Err(ShapeStop::Shape) => document_of_tree(alloc, bytes),
        Err(ShapeStop::NoMemory) => Err(WorldStop::NoMemory),
    }
}

fn document_of_tree(alloc: Global, bytes: &[u8]) -> Result<Document, WorldStop>
    ensures read { IfOk result (λ document. option_and_then document_of (json_of bytes.now) ≡ Some document) }
    ensures fault { IfErr result (IsFaultOf (world_reading bytes.now)) }
    ensures typed { IfOk result (λ document. TypedDocument document) }
{
    match read_json(alloc, bytes) {
        Ok(value) => document_of_value(alloc, value),
        Err(JsonStop::NotJson) => Err(WorldStop::Fault(WorldFault::NotJson)),
        Err(JsonStop::NoMemory) => Err(WorldStop::NoMemory),
    }
}

fn document_of_value(alloc: Global, value: Value) -> Result<Document, WorldStop>
    ensures read { IfOk result (λ document. document_of (view value) ≡ Some document) }
    ensures fault { IfErr result (IsFaultOf (reading_of_json (Some (view value)))) }
    ensures typed { IfOk result (λ document. TypedDocument document) }
{
    match read_document(alloc, value) {
        Ok(document) => Ok(document),
        Err(ShapeStop::Shape) => Err(WorldStop::Fault(WorldFault::Shape)),
        Err(ShapeStop::NoMemory) => Err(WorldStop::NoMemory),
    }
}

fn world_of_document(alloc: Global, document: Document) -> Result<ParsedWorld, WorldStop>
    requires { TypedDocument document }
    ensures world { IfOk result (λ p. reading_of document ≡ Ok p.world) }
    ensures fault { IfErr result (IsFaultOf (reading_of document)) }
    ensures typed { IfOk result (λ p. TypedWorld p.world) }
    ensures parsed { IfOk result IsParsed }
{
    if !meets_names(alloc, &document)? {
        return Err(WorldStop::Fault(WorldFault::Name));
    }
    if !meets_limits(&document) {
        return Err(WorldStop::Fault(WorldFault::Limit));
    }
    if !meets_kinds(&document) {
        return Err(WorldStop::Fault(WorldFault::RowType));
    }
    if !meets_not_null(&document) {
        return Err(WorldStop::Fault(WorldFault::NotNull));
    }
    if !meets_keys(alloc, &document)? {
        return Err(WorldStop::Fault(WorldFault::Key));
    }
    referring_world(alloc, document)
}

// The world of a document that has none of the faults before Reference.
#[tactic(auto, using(crate::proofs::Referring::referring_rules))]
fn referring_world(alloc: Global, document: Document) -> Result<ParsedWorld, WorldStop>
    requires within { is_within document ≡ true }
    requires typed { TypedDocument document }
    ensures world { IfOk result (λ p. referring_of document ≡ Ok p.world) }
    ensures fault { IfErr result (IsFaultOf (referring_of document)) }
    ensures typed { IfOk result (λ p. TypedWorld p.world) }
    ensures parsed { IfOk result IsParsed }
{
    let world = to_world(alloc, document)?;
    if !have_references(alloc, &world.tables)? {
        return Err(WorldStop::Fault(WorldFault::Reference));
    }
    match parse_start(alloc, &world.start, &world.files) {
        Ok(script) => Ok(ParsedWorld { world, script }),
        Err(stop) => Err(stop),
    }
}

// Whether each foreign key has a parent that it fits, and each row that refers has a parent row.
fn have_references(alloc: Global, tables: &Tables) -> Result<bool, AllocError>
    ensures { IfOk result (λ holds. holds ≡ have_references tables.now) }
{
    if !have_parents(tables.items()) {
        return Ok(false);
    }
    references_hold(alloc, tables)
}

fn to_world(alloc: Global, document: Document) -> Result<World, AllocError>
    requires within { is_within document ≡ true }
    requires typed { TypedDocument document }
    ensures world { IfOk result (λ world. world ≡ world_as document) }
    ensures typed { IfOk result (λ world. TypedWorld world) }
{
    let Document {
        start,
        seed,
        files,
        tables,
    } = document;
    let tables = to_tables(alloc, tables)?;
    Ok(World {
        start,
        seed,
        files,
        tables,
    })
}

fn to_tables(alloc: Global, drafts: Drafts) -> Result<Tables, AllocError>
    requires { list_all is_table_within drafts ≡ true }
    ensures { IfOk result (λ tables. tables ≡ map table_as drafts) }
{
    let mut tables = List::with_capacity(alloc, drafts.len())?;
    for draft in drafts.into_vec() {
        tables.push(to_table(alloc, draft)?)?;
    }
    Ok(tables)
}

fn to_table(alloc: Global, draft: Draft) -> Result<Table, AllocError>
    requires { is_table_within draft ≡ true }
    ensures { IfOk result (λ table. table ≡ table_as draft) }
{
    let Draft {
        name,
        columns,
        key,
        foreign,
        rows,
        next,
    } = draft;
    let key = places_of_key(alloc, &columns, &key)?;
    let foreign = foreign_keys(alloc, &columns, foreign)?;
    let rows = rows.into_rows();
    let next = next as u32;
    Ok(Table {
        name,
        schema: Schema {
            columns,
            key,
            foreign,
        },
        rows,
        next,
    })
}
