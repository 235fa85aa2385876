//! Tables and whole documents of a JSON value.

ghost use Rattle.std.specs.Prelude.{◌≡◌, Some, None, IfOk, length, codes, option_map, [], ◌==◌};
ghost use Rattle.std.specs.List.{list_all, AllByRecursion};
ghost use Rattle.std.specs.Str.{IsUtf8};
ghost use Rattle.serde_json.specs.Find.{get_member};
ghost use Rattle.serde_json.specs.View.{view, members_view};
ghost use Rattle.world_json.specs.Shape.{array_of, object_of, required_member, optional_member, whole_of, file_of};
ghost use Rattle.world_json.specs.Shape.{is_width, table_from, table_in, table_of};
ghost use Rattle.world_json.specs.Shape.{document_from, document_in, document_of};
ghost use Rattle.world_json.specs.inner.Typed.{TypedDocument, TypedDocumentFile, TypedDraft};

use crate::document::{Document, Draft, DraftForeigns, Drafts};
use crate::members::{has_only, take_member};
use crate::rows::{NumberedRows, read_rows};
use crate::shape::{FromItem, FromMember, ShapeStop, read_array, read_object};
use ldv_value::{Files, List, Names, Utf8};
use serde_json::{Map, Value};
use sql_model::{Columns, TableRow};
use std::alloc::Global;

// The members of a table.
struct TableParts {
    columns: Option<Value>,
    key: Option<Value>,
    foreign: Option<Value>,
    rows: Option<Value>,
    next: Option<Value>,
}

// The members of a document.
struct DocumentParts {
    start: Option<Value>,
    seed: Option<Value>,
    files: Option<Value>,
    tables: Option<Value>,
}

// An array that has to be there.
fn read_required<X: FromItem>(alloc: Global, value: Option<Value>) -> Result<List<X>, ShapeStop>
    ensures ok { IfOk result (λ xs. required_member (array_of X.of_item) (option_map view value) ≡ Some xs) }
    ensures shape { result ≡ Err ShapeStop.Shape
        → required_member (array_of X.of_item) (option_map view value) ≡ None }
    ensures typed { IfOk result (λ xs. AllByRecursion X.typed xs) }
{
    match value {
        Some(array) => read_array(alloc, array),
        None => Err(ShapeStop::Shape),
    }
}

// An array that is empty where it is missing.
fn read_optional<X: FromItem>(alloc: Global, value: Option<Value>) -> Result<List<X>, ShapeStop>
    ensures ok { IfOk result (λ xs. optional_member
        (array_of X.of_item) [] (option_map view value) ≡ Some xs) }
    ensures shape { result ≡ Err ShapeStop.Shape
        → optional_member (array_of X.of_item) [] (option_map view value) ≡ None }
    ensures typed { IfOk result (λ xs. AllByRecursion X.typed xs) }
{
    match value {
        Some(array) => read_array(alloc, array),
        None => Ok(List::new(alloc)),
    }
}

// A whole number from 0 to 2^64 - 1, with what it is where it is missing.
fn read_whole(value: Option<Value>, missing: u64) -> Result<u64, ShapeStop>
    ensures ok { IfOk result (λ number. optional_member whole_of missing
        (option_map view value) ≡ Some number) }
    ensures shape { result ≡ Err ShapeStop.Shape
        → optional_member whole_of missing (option_map view value) ≡ None }
{
    match value {
        Some(number) => read_number(&number),
        None => Ok(missing),
    }
}

fn read_number(value: &Value) -> Result<u64, ShapeStop>
    ensures ok { IfOk result (λ number. whole_of (view value.now) ≡ Some number) }
    ensures shape { result ≡ Err ShapeStop.Shape → whole_of (view value.now) ≡ None }
{
    match value {
        Value::Number(number) => match number.as_u64() {
            Some(whole) => Ok(whole),
            None => Err(ShapeStop::Shape),
        },
        _ => Err(ShapeStop::Shape),
    }
}

/// Whether each row has one value for each column.
pub(crate) fn has_width(rows: &NumberedRows, width: usize) -> bool
    ensures { result ≡ is_width width rows.now }
{
    have_width(rows.items(), width)
}

fn have_width(rows: &[TableRow], width: usize) -> bool
    ensures { result ≡ list_all (λ row. length row.values == width) rows.now }
{
    rows.iter().all(|row| row.values.len() == width)
}

impl FromMember for Draft {
    ghost use Rattle.world_json.specs.Shape.{table_of};
    ghost use Rattle.world_json.specs.inner.Typed.{TypedDraft};

    ghost of_member = { table_of };

    ghost typed = { TypedDraft };

    fn from_member(alloc: Global, name: Utf8, value: Value) -> Result<Self, ShapeStop> {
        match value {
            Value::Object(members) => read_table(alloc, name, members),
            _ => Err(ShapeStop::Shape),
        }
    }
}

fn read_table(alloc: Global, name: Utf8, members: Map<String, Value>) -> Result<Draft, ShapeStop>
    requires { IsUtf8 name }
    ensures ok { IfOk result (λ draft. table_in name (members_view members.entries) ≡ Some draft) }
    ensures shape { result ≡ Err ShapeStop.Shape → table_in name (members_view members.entries) ≡ None }
    ensures typed { IfOk result (λ draft. TypedDraft draft) }
{
    if !has_only(&members, &["columns", "key", "foreign", "rows", "next"]) {
        return Err(ShapeStop::Shape);
    }
    table_of_parts(alloc, name, table_parts(members))
}

fn table_parts(mut members: Map<String, Value>) -> TableParts
    ensures columns { option_map view result.columns
        ≡ get_member (codes "columns") (members_view members.entries) }
    ensures key { option_map view result.key ≡ get_member (codes "key") (members_view members.entries) }
    ensures foreign { option_map view result.foreign
        ≡ get_member (codes "foreign") (members_view members.entries) }
    ensures rows { option_map view result.rows ≡ get_member (codes "rows") (members_view members.entries) }
    ensures next { option_map view result.next ≡ get_member (codes "next") (members_view members.entries) }
{
    let columns = take_member(&mut members, "columns");
    let key = take_member(&mut members, "key");
    let foreign = take_member(&mut members, "foreign");
    let rows = take_member(&mut members, "rows");
    let next = take_member(&mut members, "next");
    TableParts {
        columns,
        key,
        foreign,
        rows,
        next,
    }
}

fn table_of_parts(alloc: Global, name: Utf8, parts: TableParts) -> Result<Draft, ShapeStop>
    requires { IsUtf8 name }
    ensures ok { IfOk result (λ draft. table_from name (option_map view parts.columns)
        (option_map view parts.key) (option_map view parts.foreign) (option_map view parts.rows)
        (option_map view parts.next) ≡ Some draft) }
    ensures shape { result ≡ Err ShapeStop.Shape
        → table_from name (option_map view parts.columns) (option_map view parts.key)
        (option_map view parts.foreign) (option_map view parts.rows) (option_map view parts.next) ≡ None }
    ensures typed { IfOk result (λ draft. TypedDraft draft) }
{
    let TableParts {
        columns,
        key,
        foreign,
        rows,
        next,
    } = parts;
    let columns: Columns = read_required(alloc, columns)?;
    let key: Names = read_optional(alloc, key)?;
    let foreign: DraftForeigns = read_optional(alloc, foreign)?;
    let rows = read_rows(alloc, rows)?;
    let next = read_whole(next, rows.len() as u64)?;
    if !has_width(&rows, columns.len()) {
        return Err(ShapeStop::Shape);
    }
    Ok(Draft {
        name,
        columns,
        key,
        foreign,
        rows,
        next,
    })
}

/// The parts of a document, with their types.
pub(crate) fn read_document(alloc: Global, value: Value) -> Result<Document, ShapeStop>
    ensures ok { IfOk result (λ document. document_of (view value) ≡ Some document) }
    ensures shape { result ≡ Err ShapeStop.Shape → document_of (view value) ≡ None }
    ensures typed { IfOk result (λ document. TypedDocument document) }
{
    match value {
        Value::Object(members) => read_whole_document(alloc, members),
        _ => Err(ShapeStop::Shape),
    }
}

fn read_whole_document(alloc: Global, members: Map<String, Value>) -> Result<Document, ShapeStop>
    ensures ok { IfOk result (λ document. document_in (members_view members.entries) ≡ Some document) }
    ensures shape { result ≡ Err ShapeStop.Shape → document_in (members_view members.entries) ≡ None }
    ensures typed { IfOk result (λ document. TypedDocument document) }
{
    if !has_only(&members, &["start", "seed", "files", "tables"]) {
        return Err(ShapeStop::Shape);
    }
    document_of_parts(alloc, document_parts(members))
}

fn document_parts(mut members: Map<String, Value>) -> DocumentParts
    ensures start { option_map view result.start ≡ get_member (codes "start") (members_view members.entries) }
    ensures seed { option_map view result.seed ≡ get_member (codes "seed") (members_view members.entries) }
    ensures files { option_map view result.files ≡ get_member (codes "files") (members_view members.entries) }
    ensures tables { option_map view result.tables
        ≡ get_member (codes "tables") (members_view members.entries) }
{
    let start = take_member(&mut members, "start");
    let seed = take_member(&mut members, "seed");
    let files = take_member(&mut members, "files");
    let tables = take_member(&mut members, "tables");
    DocumentParts {
        start,
        seed,
        files,
        tables,
    }
}

fn document_of_parts(alloc: Global, parts: DocumentParts) -> Result<Document, ShapeStop>
    ensures ok { IfOk result (λ document. document_from (option_map view parts.start)
        (option_map view parts.seed) (option_map view parts.files) (option_map view parts.tables)
        ≡ Some document) }
    ensures shape { result ≡ Err ShapeStop.Shape
        → document_from (option_map view parts.start) (option_map view parts.seed)
        (option_map view parts.files) (option_map view parts.tables) ≡ None }
    ensures typed { IfOk result (λ document. TypedDocument document) }
{
    let DocumentParts {
        start,
        seed,
        files,
        tables,
    } = parts;
    let start: Names = read_required(alloc, start)?;
    let seed = read_whole(seed, 0)?;
    let files = read_files(alloc, files)?;
    let tables = read_tables(alloc, tables)?;
    Ok(Document {
        start,
        seed,
        files,
        tables,
    })
}

fn read_files(alloc: Global, value: Option<Value>) -> Result<Files, ShapeStop>
    ensures ok { IfOk result (λ files. required_member
        (object_of file_of) (option_map view value) ≡ Some files) }
    ensures shape { result ≡ Err ShapeStop.Shape
        → required_member (object_of file_of) (option_map view value) ≡ None }
    ensures typed { IfOk result (λ files. AllByRecursion TypedDocumentFile files) }
{
    match value {
        Some(object) => read_object(alloc, object),
        None => Err(ShapeStop::Shape),
    }
}

fn read_tables(alloc: Global, value: Option<Value>) -> Result<Drafts, ShapeStop>
    ensures ok { IfOk result (λ tables.
        optional_member (object_of table_of) [] (option_map view value) ≡ Some tables) }
    ensures shape { result ≡ Err ShapeStop.Shape
        → optional_member (object_of table_of) [] (option_map view value) ≡ None }
    ensures typed { IfOk result (λ tables. AllByRecursion TypedDraft tables) }
{
    match value {
        Some(object) => read_object(alloc, object),
        None => Ok(List::new(alloc)),
    }
}
