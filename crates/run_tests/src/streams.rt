//! The program over streams in memory, whose calls may fail.

ghost use Rattle.std.specs.Prelude.{◌<◌};

use ldv_io::{MemorySink, MemorySource};
use ldv_top::ldv_main;
use ldv_value::{Bytes, Calls};
use std::alloc::{AllocError, Global};

/// The most bytes that a read gives, and that a write takes.
const PIECE: usize = 10;

/// The end of a call of the program: its status, its output, and its line.
#[derive(Drop)]
pub(crate) struct Ended {
    pub status: u8,
    pub written: Vec<u8>,
    pub line: Vec<u8>,
}

/// The numbers of the read, of the write and of the write of an error that fail, from 1; 0 is none.
pub(crate) type Faults = (u64, u64, u64);

fn calls(alloc: Global, number: u64) -> Result<Calls, AllocError> {
    let mut calls = Calls::new(alloc);
    calls.push(number)?;
    Ok(calls)
}

fn push_word(alloc: Global, words: &mut Vec<String>, word: &str) -> Result<(), AllocError> {
    words.push(String::from_str(alloc, word)?)?;
    Ok(())
}

fn push_words(alloc: Global, words: &mut Vec<String>, command: &str) -> Result<(), AllocError> {
    for word in command.split_whitespace() {
        push_word(alloc, words, word)?;
    }
    Ok(())
}

/// The words of a command, between spaces.
pub(crate) fn words_of(alloc: Global, command: &str) -> Result<Vec<String>, AllocError> {
    let mut words = Vec::new(alloc);
    push_words(alloc, &mut words, command)?;
    Ok(words)
}

// A source of pieces of 10 bytes, of which one read fails.
fn source_of(alloc: Global, input: &[u8], read: u64) -> Result<MemorySource, AllocError> {
    let input = Bytes::of_slice(alloc, input)?;
    Ok(MemorySource::new(input, PIECE, calls(alloc, read)?))
}

// A sink of pieces of 10 bytes, of which one write fails.
fn sink_of(alloc: Global, write: u64) -> Result<MemorySink, AllocError> {
    MemorySink::new(alloc, 4_000, PIECE, calls(alloc, write)?)
}

// A sink for the line, of pieces of 3 bytes.
fn errors_of(alloc: Global, write: u64) -> Result<MemorySink, AllocError> {
    MemorySink::new(alloc, 100, 3, calls(alloc, write)?)
}

fn left_by(
    alloc: Global,
    status: u8,
    sink: &MemorySink,
    errors: &MemorySink,
) -> Result<Ended, AllocError> {
    Ok(Ended {
        status,
        written: Vec::from_slice(alloc, sink.taken())?,
        line: Vec::from_slice(alloc, errors.taken())?,
    })
}

// Calls the program over a source and a sink. The write of an error with this number fails.
fn call_into(
    alloc: Global,
    words: &[String],
    source: &mut MemorySource,
    sink: &mut MemorySink,
    write: u64,
) -> Result<Ended, AllocError> {
    let mut errors = errors_of(alloc, write)?;
    let status = ldv_main(alloc, words, source, sink, &mut errors);
    left_by(alloc, status, sink, &errors)
}

// Calls the program over a source.
fn call_over(
    alloc: Global,
    words: &[String],
    source: &mut MemorySource,
    faults: Faults,
) -> Result<Ended, AllocError> {
    let mut sink = sink_of(alloc, faults.1)?;
    call_into(alloc, words, source, &mut sink, faults.2)
}

// Calls the program with these words.
fn call_words(
    alloc: Global,
    words: &[String],
    input: &[u8],
    faults: Faults,
) -> Result<Ended, AllocError> {
    let mut source = source_of(alloc, input, faults.0)?;
    call_over(alloc, words, &mut source, faults)
}

/// Calls the program over streams of pieces of 10 bytes.
pub(crate) fn call(
    alloc: Global,
    command: &str,
    input: &[u8],
    faults: Faults,
) -> Result<Ended, AllocError> {
    let words = words_of(alloc, command)?;
    call_words(alloc, words.as_slice(), input, faults)
}
