//! Packages that the program records, read back.

ghost use Rattle.std.specs.Prelude.{IfOk};
ghost use Rattle.package_layout.specs.Valid.{IsValidPackage};

use crate::streams::words_of;
use ldv_io::{MemorySink, MemorySource};
use ldv_top::{Exit, ldv};
use ldv_value::{Bytes, Calls};
use package_layout::read_package;
use run_model::Package;
use std::alloc::{AllocError, Global};
use std::process::Abort;

/// The package of the run of a world document.
pub(crate) fn recorded_package(
    rt: &impl Abort,
    alloc: Global,
    world: &str,
) -> Result<Package, AllocError>
    ensures { IfOk result (λ p. IsValidPackage p) }
{
    let written = written_bytes(rt, alloc, world)?;
    match read_package(alloc, written.as_slice()) {
        Ok(package) => Ok(package),
        Err(_) => panic!(rt; "no package"),
    }
}

fn source_of(alloc: Global, text: &str) -> Result<MemorySource, AllocError> {
    let input = Bytes::of_slice(alloc, text.as_bytes())?;
    Ok(MemorySource::new(input, 4_096, Calls::new(alloc)))
}

fn is_done(
    alloc: Global,
    words: &[String],
    source: &mut MemorySource,
    sink: &mut MemorySink,
) -> bool {
    let exit = ldv(alloc, words, source, sink);
    matches!(&exit, Exit::Done)
}

// What the program writes for these words and a source.
fn written_from(
    rt: &impl Abort,
    alloc: Global,
    words: &[String],
    source: &mut MemorySource,
) -> Result<Vec<u8>, AllocError> {
    let mut sink = MemorySink::new(alloc, 65_536, 4_096, Calls::new(alloc))?;
    assert!(rt; is_done(alloc, words, source, &mut sink));
    Vec::from_slice(alloc, sink.taken())
}

fn written_for(
    rt: &impl Abort,
    alloc: Global,
    words: &[String],
    world: &str,
) -> Result<Vec<u8>, AllocError> {
    let mut source = source_of(alloc, world)?;
    written_from(rt, alloc, words, &mut source)
}

// What `record` writes for a world document.
fn written_bytes(rt: &impl Abort, alloc: Global, world: &str) -> Result<Vec<u8>, AllocError> {
    let words = words_of(alloc, "record")?;
    written_for(rt, alloc, words.as_slice(), world)
}

/// A world whose script has these lines, with the table t and these files beside the script, as parts of a
/// document.
pub(crate) fn world_of(alloc: Global, script: &str, files: &str) -> Result<String, AllocError> {
    let mut world = String::from_str(alloc, r#"{"start":["main"],"files":{"#)?;
    push_parts(&mut world, script, files)?;
    Ok(world)
}

// The files, the script and the table.
fn push_parts(world: &mut String, script: &str, files: &str) -> Result<(), AllocError> {
    world.push_str(files)?;
    world.push_str(r#""main":""#)?;
    world.push_str(script)?;
    world.push_str(
        r#""},"tables":{"t":{"columns":[["k","INT NOT NULL"],["g","TEXT"],["v","INT"]],"key":["k"],
"next":5,"rows":[[1,"a",10],[2,"a",20],[3,"b",5],[4,"b",null],[5,"c",10]]}}}"#,
    )
}
