//! A case: the words and the input of a call of the program, and its expected end.

use hex::FromHexError;
use ldv_value::Bytes;
use serde_json::{Map, Value};
use std::alloc::{AllocError, Global};
use std::fmt;

/// A case. Its status, output and error are the expected ones, never those of a run.
#[derive(Drop)]
pub(crate) struct Case {
    pub name: String,
    pub words: Vec<String>,
    pub input: Bytes,
    pub status: u8,
    pub output: Bytes,
    pub error: Bytes,
}

/// A member of the object that is a case.
#[derive(Clone, Copy, Debug, PartialEq, Eq)]
pub(crate) enum Member {
    Name,
    Words,
    Input,
    Status,
    Output,
    Error,
}

impl Member {
    fn key(self) -> &'static str {
        match self {
            Member::Name => "name",
            Member::Words => "words",
            Member::Input => "input",
            Member::Status => "status",
            Member::Output => "output",
            Member::Error => "error",
        }
    }
}

/// Why a value is no case.
#[derive(Clone, Copy, Debug, PartialEq, Eq)]
pub(crate) enum CaseFault {
    /// It is no object.
    NotObject,
    /// It lacks this member.
    Missing(Member),
    /// This member has another type or range, or its hexadecimal digits are no bytes.
    Bad(Member),
    /// It has a member that a case doesn't have.
    Unknown,
    /// Out of memory.
    NoMemory,
}

impl From<AllocError> for CaseFault {
    fn from(_refused: AllocError) -> CaseFault {
        CaseFault::NoMemory
    }
}

impl fmt::Display for CaseFault {
    fn fmt<W: fmt::Write>(&self, f: &mut fmt::Formatter<W>) -> fmt::Result {
        match self {
            CaseFault::NotObject => f.write_str("not an object"),
            CaseFault::Missing(member) => {
                f.write_str("no ")?;
                f.write_str(member.key())
            }
            CaseFault::Bad(member) => {
                f.write_str("bad ")?;
                f.write_str(member.key())
            }
            CaseFault::Unknown => f.write_str("unknown member"),
            CaseFault::NoMemory => f.write_str("out of memory"),
        }
    }
}

/// The case of a value: an object with exactly the members of a case.
pub(crate) fn read_case(alloc: Global, value: Value) -> Result<Case, CaseFault> {
    match value {
        Value::Object(mut members) => {
            let case = take_case(alloc, &mut members)?;
            if members.is_empty() {
                Ok(case)
            } else {
                Err(CaseFault::Unknown)
            }
        }
        _ => Err(CaseFault::NotObject),
    }
}

// Takes the members of a case out of an object.
fn take_case(alloc: Global, members: &mut Map<String, Value>) -> Result<Case, CaseFault> {
    Ok(Case {
        name: read_name(take(members, Member::Name)?)?,
        words: read_words(alloc, take(members, Member::Words)?)?,
        input: read_bytes(alloc, Member::Input, take(members, Member::Input)?)?,
        status: read_status(&take(members, Member::Status)?)?,
        output: read_bytes(alloc, Member::Output, take(members, Member::Output)?)?,
        error: read_bytes(alloc, Member::Error, take(members, Member::Error)?)?,
    })
}

fn take(members: &mut Map<String, Value>, member: Member) -> Result<Value, CaseFault> {
    match members.remove(member.key()) {
        Some(value) => Ok(value),
        None => Err(CaseFault::Missing(member)),
    }
}

fn read_name(value: Value) -> Result<String, CaseFault> {
    match value {
        Value::String(name) => Ok(name),
        _ => Err(CaseFault::Bad(Member::Name)),
    }
}

fn read_words(alloc: Global, value: Value) -> Result<Vec<String>, CaseFault> {
    let Value::Array(items) = value else {
        return Err(CaseFault::Bad(Member::Words));
    };
    let mut words = Vec::new(alloc);
    for item in items {
        match item {
            Value::String(word) => words.push(word).map_err(AllocError::from)?,
            _ => return Err(CaseFault::Bad(Member::Words)),
        }
    }
    Ok(words)
}

fn read_status(value: &Value) -> Result<u8, CaseFault> {
    match value.as_u64() {
        Some(number) => u8::try_from(number).map_err(|_| CaseFault::Bad(Member::Status)),
        None => Err(CaseFault::Bad(Member::Status)),
    }
}

// A text is its bytes, or they stand in hexadecimal digits in the one member `hex`.
fn read_bytes(alloc: Global, member: Member, value: Value) -> Result<Bytes, CaseFault> {
    match value {
        Value::String(text) => Ok(Bytes::of_vec(text.into_bytes())),
        Value::Object(members) => read_hex(alloc, member, &members),
        _ => Err(CaseFault::Bad(member)),
    }
}

fn read_hex(
    alloc: Global,
    member: Member,
    members: &Map<String, Value>,
) -> Result<Bytes, CaseFault> {
    if members.len() != 1 {
        return Err(CaseFault::Bad(member));
    }
    match members.get("hex") {
        Some(Value::String(digits)) => decode(alloc, member, digits.as_str()),
        _ => Err(CaseFault::Bad(member)),
    }
}

fn decode(alloc: Global, member: Member, digits: &str) -> Result<Bytes, CaseFault> {
    match hex::decode(alloc, digits) {
        Ok(bytes) => Ok(Bytes::of_vec(bytes)),
        Err(FromHexError::OutOfMemory) => Err(CaseFault::NoMemory),
        Err(_) => Err(CaseFault::Bad(member)),
    }
}
