//! A world and packages around the limit of 64 MiB: of long rows, and of rows whose reasons are long.

use crate::worlds::world_of_text;
use ldv_value::{Bytes, Names, Utf8};
use package_layout::spell;
use replay_db::record_world;
use run_model::{Act, Event, Events, Mode, Package};
use sql_model::{Members, Needs};
use std::alloc::{AllocError, Global};
use std::process::Abort;

// Appends a row of one text of these letters.
fn push_row(text: &mut String, letters: &str) -> Result<(), AllocError> {
    text.push_str("[\"")?;
    text.push_str(letters)?;
    text.push_str("\"]")
}

const FRONT: &str = r#"{"start":["main"],"files":{"main":"sql q \"SELECT * FROM t\""},
"tables":{"t":{"columns":[["g","TEXT"]],"rows":["#;

fn letters(alloc: Global, count: usize) -> Result<String, AllocError> {
    "a".repeat(alloc, count)
}

// Appends `count` rows of the same letters, each with a comma after it.
fn push_rows(text: &mut String, letters: &str, count: u32) -> Result<(), AllocError> {
    for _ in 0..count {
        push_row(text, letters)?;
        text.push_str(",")?;
    }
    Ok(())
}

// Appends what follows the front of a document.
fn push_rest(text: &mut String, count: u32, first: &str, last: &str) -> Result<(), AllocError> {
    push_rows(text, first, count)?;
    push_row(text, last)?;
    text.push_str("]}}}")
}

// A document of which all rows are needed: `count` rows of the first letters, and one of the last.
fn document(alloc: Global, count: u32, first: &str, last: &str) -> Result<String, AllocError> {
    let mut text = String::from_str(alloc, FRONT)?;
    push_rest(&mut text, count, first, last)?;
    Ok(text)
}

// A document of 1,023 rows of the first letters, and one of so many.
fn document_after(alloc: Global, first: &str, last: usize) -> Result<String, AllocError> {
    let last = letters(alloc, last)?;
    document(alloc, 1_023, first, last.as_str())
}

// A document within the limit: 1,023 rows of 65,536 letters, and one of fewer. A row takes more bytes in a
// package than in JSON.
fn long_document(alloc: Global, last: usize) -> Result<String, AllocError> {
    let first = letters(alloc, 65_536)?;
    document_after(alloc, first.as_str(), last)
}

/// That document as bytes, with `last` letters in its last row.
pub(crate) fn world_of_long_rows(alloc: Global, last: usize) -> Result<Bytes, AllocError> {
    Ok(Bytes::of_vec(long_document(alloc, last)?.into_bytes()))
}

fn event(step: u32, act: Act) -> Event {
    Event {
        step,
        process: 0,
        act,
    }
}

fn start_event(alloc: Global) -> Result<Event, AllocError> {
    let path = Utf8::of(alloc, "main")?;
    Ok(event(0, Act::Started { path }))
}

fn names_of(alloc: Global, name: &str) -> Result<Names, AllocError> {
    let name = Utf8::of(alloc, name)?;
    let mut names = Names::new(alloc);
    names.push(name)?;
    Ok(names)
}

fn asked_without_rows(alloc: Global) -> Result<Event, AllocError> {
    let tables = names_of(alloc, "t")?;
    let act = Act::Asked {
        statement: 0,
        tables,
        reads: Needs::new(alloc),
        made: Members::new(alloc),
    };
    Ok(event(1, act))
}

fn push_events(alloc: Global, events: &mut Events) -> Result<(), AllocError> {
    events.push(start_event(alloc)?)?;
    events.push(asked_without_rows(alloc)?)?;
    events.push(event(2, Act::Ended { status: 0 }))
}

// The events of its run, but that no row is read: 9 bytes fewer for each row.
fn events(alloc: Global) -> Result<Events, AllocError> {
    let mut events = Events::new(alloc);
    push_events(alloc, &mut events)?;
    Ok(events)
}

// The package of the run of a document's world.
fn recorded_package(rt: &impl Abort, alloc: Global, text: &str) -> Package {
    let world = world_of_text(rt, alloc, text);
    match record_world(alloc, &world, Mode::Included, 100) {
        Ok(package) => package,
        Err(stop) => panic!(rt; "{stop:?}"),
    }
}

fn spelling_of(rt: &impl Abort, alloc: Global, package: &Package) -> Bytes {
    match spell(alloc, package) {
        Ok(bytes) => bytes,
        Err(stop) => panic!(rt; "{stop:?}"),
    }
}

fn package_of_long_rows(rt: &impl Abort, alloc: Global) -> Result<Package, AllocError> {
    let text = long_document(alloc, 46_000)?;
    Ok(recorded_package(rt, alloc, text.as_str()))
}

/// A package of about 5,000 bytes less than the limit. That of its own world has about 9,000 bytes more.
pub(crate) fn longer_than_it_reads(rt: &impl Abort, alloc: Global) -> Result<Bytes, AllocError> {
    let mut package = package_of_long_rows(rt, alloc)?;
    package.events = events(alloc)?;
    Ok(spelling_of(rt, alloc, &package))
}

// ---- a table of a long name

// Appends `count` rows of one NULL, each with a comma after it.
fn push_nulls(text: &mut String, count: u32) -> Result<(), AllocError> {
    for _ in 0..count {
        text.push_str("[null],")?;
    }
    Ok(())
}

// Appends what follows the front of a document: the table's name, and the table.
fn push_table(text: &mut String, name: &str, count: u32) -> Result<(), AllocError> {
    text.push_str(name)?;
    text.push_str(r#"\""},"tables":{""#)?;
    text.push_str(name)?;
    text.push_str(r#"":{"columns":[["g","TEXT"]],"rows":["#)?;
    push_nulls(text, count)?;
    text.push_str("[null]]}}}")
}

// A document whose table has this name and `count` rows of one NULL and one more, all of which are needed.
fn document_of_nulls(alloc: Global, name: &str, count: u32) -> Result<String, AllocError> {
    let front = r#"{"start":["main"],"files":{"main":"sql q \"SELECT * FROM "#;
    let mut text = String::from_str(alloc, front)?;
    push_table(&mut text, name, count)?;
    Ok(text)
}

fn document_of_a_long_name(alloc: Global, count: u32) -> Result<String, AllocError> {
    let name = letters(alloc, 63)?;
    document_of_nulls(alloc, name.as_str(), count)
}

fn recorded_bytes(rt: &impl Abort, alloc: Global, text: &str) -> Bytes {
    let package = recorded_package(rt, alloc, text);
    spelling_of(rt, alloc, &package)
}

/// A package of `count` needed rows and one more, each of 19 bytes: 10 with its reason, and 9 in the trace.
/// Its table has a name of 63 letters, so that a reason in a joined package has 76 bytes.
pub(crate) fn package_of_a_long_name(
    rt: &impl Abort,
    alloc: Global,
    count: u32,
) -> Result<Bytes, AllocError> {
    let text = document_of_a_long_name(alloc, count)?;
    Ok(recorded_bytes(rt, alloc, text.as_str()))
}
