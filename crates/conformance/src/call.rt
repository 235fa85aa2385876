//! The program, called over streams in memory.

ghost use Rattle.std.specs.Prelude.{IfOk, ℕ, List, map, string_bytes};
ghost use Rattle.conformance.specs.Runs.{EndsAs, EndsSteadily, IsRunOf};

use crate::case::Case;
use crate::compare::Ended;
use ldv_io::{DropSink, MemorySink, MemorySource, SteadySource};
use ldv_top::{Exit, ldv, ldv_main, status};
use ldv_value::{Bytes, Calls};
use std::alloc::{AllocError, Global};

/// The most bytes that a read of the input gives.
const INPUT_PIECE: usize = 10_000;
/// The most bytes that a write of the output or the error stream takes.
const OUTPUT_PIECE: usize = 1_000;
/// The capacity of a sink beyond the expected bytes, so it takes more than these too.
const SPARE: usize = 65_536;

/// Calls the program with the words and the input of a case. It takes only the lengths of the expected bytes,
/// for the capacity of the sinks.
pub(crate) fn call(alloc: Global, case: &Case) -> Result<Ended, AllocError>
    ensures { IfOk result (λ ended. IsRunOf case.now ended) }
{
    let written = written_by(alloc, case)?;
    let steady = steady_exit(alloc, case)?;
    Ok(Ended {
        status: written.status,
        steady_status: status(&steady),
        output: written.output,
        error: written.error,
    })
}

/// A status, and the bytes of the output and of the error stream.
#[derive(Drop)]
struct Written {
    status: u8,
    output: Bytes,
    error: Bytes,
}

// The program over streams in memory.
fn written_by(alloc: Global, case: &Case) -> Result<Written, AllocError>
    ensures { IfOk result (λ written. EndsAs (map string_bytes case.now.words.items) case.now.input
        written.status written.output written.error) }
{
    let output_room = case.output.len().saturating_add(SPARE);
    let error_room = case.error.len().saturating_add(SPARE);
    let none = Calls::new(alloc);
    let mut source = MemorySource::new(case.input.copy()?, INPUT_PIECE, none);
    let mut output = MemorySink::new(alloc, output_room, OUTPUT_PIECE, Calls::new(alloc))?;
    let mut error = MemorySink::new(alloc, error_room, OUTPUT_PIECE, Calls::new(alloc))?;
    let status = ldv_main(
        alloc,
        case.words.as_slice(),
        &mut source,
        &mut output,
        &mut error,
    );
    Ok(Written {
        status,
        output: Bytes::of_slice(alloc, output.taken())?,
        error: Bytes::of_slice(alloc, error.taken())?,
    })
}

// The exit of the program over a source and a sink that never fail: no fault is its exit.
fn steady_exit(alloc: Global, case: &Case) -> Result<Exit, AllocError>
    ensures { IfOk result (λ exit. EndsSteadily (map string_bytes case.now.words.items) case.now.input exit) }
{
    let mut source = SteadySource::new(case.input.copy()?, INPUT_PIECE);
    let mut sink = DropSink::new();
    Ok(ldv(alloc, case.words.as_slice(), &mut source, &mut sink))
}
