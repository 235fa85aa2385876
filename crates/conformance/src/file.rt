//! A file of cases: a JSON array of objects, each a case.

ghost use Rattle.std.specs.Prelude.{◌≡◌, ◌≢◌, [], IsErr, IfOk, map, string_bytes};

use crate::case::{Case, CaseFault, read_case};
use json_bytes::{JsonStop, read_json};
use serde_json::Value;
use std::alloc::{AllocError, Global};
use std::io::ErrorKind;
use std::rt::Files;
use std::{fmt, fs, io};

/// Why a file has no cases.
#[derive(Clone, Copy, Debug, PartialEq, Eq)]
pub(crate) enum FileFault {
    NotReadable,
    NotJson,
    /// It is JSON, but no array.
    NotArray,
    /// The item with this number, from 1, is no case.
    BadItem(usize, CaseFault),
    /// An array with no item.
    NoCase,
    /// Out of memory.
    NoMemory,
}

impl From<AllocError> for FileFault {
    fn from(_refused: AllocError) -> FileFault {
        FileFault::NoMemory
    }
}

impl From<JsonStop> for FileFault {
    fn from(stop: JsonStop) -> FileFault {
        match stop {
            JsonStop::NotJson => FileFault::NotJson,
            JsonStop::NoMemory => FileFault::NoMemory,
        }
    }
}

impl fmt::Display for FileFault {
    fn fmt<W: fmt::Write>(&self, f: &mut fmt::Formatter<W>) -> fmt::Result {
        match self {
            FileFault::NotReadable => f.write_str("not readable"),
            FileFault::NotJson => f.write_str("not JSON"),
            FileFault::NotArray => f.write_str("not cases: not an array"),
            FileFault::BadItem(number, fault) => { write!(f, "not cases: item {number}: {fault}") }
            FileFault::NoCase => f.write_str("no case"),
            FileFault::NoMemory => f.write_str("out of memory"),
        }
    }
}

/// What was read of a file.
#[derive(Drop)]
pub(crate) struct ReadFile {
    pub path: String,
    pub found: Result<Vec<Case>, FileFault>,
}

/// Reads the files with these paths.
pub(crate) fn read_files<R: Files + AllocGlobal>(
    rt: &R,
    paths: &[String],
) -> io::Result<Vec<ReadFile>>
    ensures { IfOk result (λ files. map (λ file. string_bytes file.path) files.items
        ≡ map string_bytes paths.now) }
{
    let mut files = Vec::new(rt.alloc());
    for path in paths {
        files.push(read_file(rt, path.as_str())?)?;
    }
    Ok(files)
}

fn read_file<R: Files + AllocGlobal>(rt: &R, path: &str) -> io::Result<ReadFile>
    ensures { IfOk result (λ file. string_bytes file.path ≡ path.now) }
{
    Ok(ReadFile {
        path: String::from_str(rt.alloc(), path)?,
        found: cases_of(rt.alloc(), fs::read(rt, path)),
    })
}

/// The cases of a file, at least one, from the result of reading it.
fn cases_of(alloc: Global, read: io::Result<Vec<u8>>) -> Result<Vec<Case>, FileFault>
    ensures unread { IsErr read → IsErr result }
    ensures some { IfOk result (λ cases. cases.items ≢ []) }
{
    match read {
        Ok(bytes) => read_cases(alloc, bytes.as_slice()),
        Err(error) => {
            if error.kind() == ErrorKind::OutOfMemory {
                Err(FileFault::NoMemory)
            } else {
                Err(FileFault::NotReadable)
            }
        }
    }
}

fn read_cases(alloc: Global, bytes: &[u8]) -> Result<Vec<Case>, FileFault>
    ensures { IfOk result (λ cases. cases.items ≢ []) }
{
    let Value::Array(items) = read_json(alloc, bytes)? else {
        return Err(FileFault::NotArray);
    };
    let cases = read_items(alloc, items)?;
    if cases.is_empty() {
        return Err(FileFault::NoCase);
    }
    Ok(cases)
}

fn read_items(alloc: Global, items: Vec<Value>) -> Result<Vec<Case>, FileFault> {
    let mut cases = Vec::with_capacity(alloc, items.len())?;
    for item in items {
        match read_case(alloc, item) {
            Ok(case) => cases.push(case).map_err(AllocError::from)?,
            Err(CaseFault::NoMemory) => return Err(FileFault::NoMemory),
            Err(fault) => return Err(FileFault::BadItem(cases.len().saturating_add(1), fault)),
        }
    }
    Ok(cases)
}
