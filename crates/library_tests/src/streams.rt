//! Streams that fail at a call, and those that never fail.

ghost use Rattle.std.specs.Prelude.{◌<◌};

use ldv_io::{
    DropSink, MemorySink, MemorySource, ReadStop, Sink, StdSink, StdSource, SteadySource,
    WriteStop, read_all, write_all,
};
use ldv_value::{Bytes, Calls};
use std::alloc::{AllocError, Global};
use std::io::Cursor;
use std::process::Abort;
use std::test::Fail;

const INPUT: &[u8] = b"abcdefgh";

const OUTPUT: &[u8] = b"outcome 1 0\nprocess 0 0 1 0\n\n";

// The number of a call among others.
fn calls(alloc: Global, number: u64) -> Result<Calls, AllocError> {
    let mut calls = Calls::new(alloc);
    calls.push(9_000)?;
    calls.push(number)?;
    calls.push(u64::MAX)?;
    Ok(calls)
}

fn source_of(rt: &impl Abort, input: Bytes, piece: usize, failing: Calls) -> MemorySource {
    assert!(rt; 0usize < piece);
    MemorySource::new(input, piece, failing)
}

// A source in pieces, whose read with this number fails.
fn source(
    rt: &impl Abort,
    alloc: Global,
    piece: usize,
    failing: u64,
) -> Result<MemorySource, AllocError> {
    let input = Bytes::of_slice(alloc, INPUT)?;
    let failing = calls(alloc, failing)?;
    Ok(source_of(rt, input, piece, failing))
}

fn is_read(read: Result<Bytes, ReadStop>, want: Result<(), ReadStop>) -> bool {
    match read {
        Ok(bytes) => want.is_ok() && bytes.as_slice() == INPUT,
        Err(stop) => want == Err(stop),
    }
}

fn expect_read(
    rt: &impl Abort,
    alloc: Global,
    source: &mut MemorySource,
    limit: u64,
    want: Result<(), ReadStop>,
) {
    assert!(rt;
        is_read(read_all(alloc, source, limit), want),
        "limit {limit}"
    );
}

#[test]
fn reads_whole_inputs(rt: HostRuntime) -> Result<(), Fail> {
    let alloc = rt.alloc();
    for (piece, failing, limit, want) in [
        (1, 0, 8, Ok(())),
        (3, 0, 8, Ok(())),
        (10, 0, 9, Ok(())),
        (3, 0, 7, Err(ReadStop::TooLong)),
        (1, 1, 8, Err(ReadStop::Fault)),
        (3, 2, 8, Err(ReadStop::Fault)),
        // The read that would have found the end.
        (3, 4, 8, Err(ReadStop::Fault)),
        (3, 5, 8, Ok(())),
    ] {
        let mut source = source(&rt, alloc, piece, failing)?;
        expect_read(&rt, alloc, &mut source, limit, want);
    }
    Ok(())
}

fn is_read_steadily(alloc: Global, input: Bytes) -> bool {
    let mut steady = SteadySource::new(input, 3);
    is_read(read_all(alloc, &mut steady, 8), Ok(()))
}

fn is_read_as_standard(alloc: Global, input: Vec<u8>) -> bool {
    let mut standard = StdSource::new(Cursor::new(input));
    is_read(read_all(alloc, &mut standard, 8), Ok(()))
}

#[test]
fn reads_from_any_source(rt: HostRuntime) -> Result<(), Fail> {
    let alloc = rt.alloc();
    assert!(rt; is_read_steadily(alloc, Bytes::of_slice(alloc, INPUT)?));
    assert!(rt; is_read_as_standard(alloc, Vec::from_slice(alloc, INPUT)?));
    Ok(())
}

fn sink_of(
    rt: &impl Abort,
    alloc: Global,
    room: usize,
    piece: usize,
    failing: Calls,
) -> Result<MemorySink, AllocError> {
    assert!(rt; 0usize < piece);
    MemorySink::new(alloc, room, piece, failing)
}

// A sink that takes so many bytes, in pieces, and whose write with this number fails.
fn sink(
    rt: &impl Abort,
    alloc: Global,
    room: usize,
    piece: usize,
    failing: u64,
) -> Result<MemorySink, AllocError> {
    let failing = calls(alloc, failing)?;
    sink_of(rt, alloc, room, piece, failing)
}

fn is_written(sink: &mut MemorySink, want: Result<(), WriteStop>) -> bool {
    write_all(sink, OUTPUT) == want
}

fn has_taken(sink: &MemorySink, taken: usize) -> bool {
    taken <= OUTPUT.len() && sink.taken() == &OUTPUT[..taken]
}

// What a sink has taken after a write of all of the output.
fn expect_written(
    rt: &impl Abort,
    sink: &mut MemorySink,
    taken: usize,
    want: Result<(), WriteStop>,
) {
    assert!(rt;
        is_written(sink, want) && has_taken(sink, taken),
        "taken {taken}"
    );
}

#[test]
fn writes_whole_outputs(rt: HostRuntime) -> Result<(), Fail> {
    let alloc = rt.alloc();
    for (room, piece, failing, taken, want) in [
        (1_048_576, 10, 1, 0, Err(WriteStop::Fault)),
        (1_048_576, 10, 2, 10, Err(WriteStop::Fault)),
        (1_048_576, 10, 3, 20, Err(WriteStop::Fault)),
        (1_048_576, 10, 4, 29, Ok(())),
        (29, 1, 0, 29, Ok(())),
        (28, 3, 0, 28, Err(WriteStop::Fault)),
        (0, 3, 0, 0, Err(WriteStop::Fault)),
    ] {
        let mut sink = sink(&rt, alloc, room, piece, failing)?;
        expect_written(&rt, &mut sink, taken, want);
    }
    Ok(())
}

fn is_dropped() -> bool {
    write_all(&mut DropSink::new(), OUTPUT) == Ok(())
}

fn is_held(held: &mut Vec<u8>) -> bool {
    write_all(&mut StdSink::new(held), OUTPUT) == Ok(())
}

#[test]
fn writes_to_any_sink(rt: HostRuntime) {
    let mut held = Vec::new(rt.alloc());
    assert!(rt; is_dropped() && is_held(&mut held));
    assert!(rt; held.as_slice() == OUTPUT);
}

fn takes_nothing(sink: &mut MemorySink) -> bool {
    write_all(sink, b"") == Ok(()) && sink.write(b"") == Ok(0)
}

#[test]
fn writes_nothing_to_a_full_sink(rt: HostRuntime) -> Result<(), Fail> {
    let mut full = sink(&rt, rt.alloc(), 0, 1, 0)?;
    assert!(rt; takes_nothing(&mut full));
    Ok(())
}
