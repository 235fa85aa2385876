//! Reading a whole input and writing a whole output.

ghost use Rattle.std.specs.Prelude.{◌≡◌, ℕ, ◌<◌, ◌≤◌, List, Some, length, take};
ghost use Rattle.std.specs.Prelude.{IfOk, OnOk, OnErr, IfSome, IsErrOf, IfErr};
ghost use Rattle.std.specs.Io.KnownBytes.{Appends, Consumes, IsAtEnd};
ghost use Rattle.ldv_io.specs.Causes.{Rose};
ghost use Rattle.ldv_io.specs.Whole.{ReadsWhole};

use crate::sink::Sink;
use crate::source::Source;
use ldv_value::Bytes;
use std::alloc::Global;
use thiserror::Error;

/// Bytes that one read asks for.
const PIECE: usize = 65_536;

/// Why an input wasn't read to its end.
#[derive(Clone, Copy, Debug, PartialEq, Eq, Error)]
pub enum ReadStop {
    /// A read failed.
    #[error("a read failed")]
    Fault,
    /// More bytes were left than the limit allows.
    #[error("the input is too long")]
    TooLong,
    /// Out of memory.
    #[error("out of memory")]
    NoMemory,
}

/// Why an output wasn't written to its end.
#[derive(Clone, Copy, Debug, PartialEq, Eq, Error)]
pub enum WriteStop {
    /// A write failed.
    #[error("a write failed")]
    Fault,
}

/// Reads to the end of input, at most `limit` bytes. Each read but the last returns at least one byte.
///
/// `Fault` comes if a read failed, `TooLong` if more than `limit` bytes were left, and `NoMemory` only if
/// memory ran out. On `Err` some bytes may have been consumed.
pub fn read_all<S: Source>(alloc: Global, source: &mut S, limit: u64) -> Result<Bytes, ReadStop>
    ensures whole { IfOk result (λ bytes. Consumes (S.left source.old) (S.left source.new) bytes) }
    ensures end { OnOk result (IsAtEnd (S.left source.new)) }
    ensures within { IfOk result (λ bytes. length bytes ≤ limit) }
    ensures rest { OnErr result ((front : List ℕ) × Consumes (S.left source.old) (S.left source.new) front) }
    ensures later { S.faults source.old ≤ S.faults source.new }
    ensures fault { IsErrOf result ReadStop.Fault → Rose (S.faults source.old) (S.faults source.new) }
    ensures too_long { IsErrOf result ReadStop.TooLong
        → IfSome (S.left source.old) (λ bytes. limit < length bytes) }
    // Where no read failed, each result comes exactly where it is due.
    ensures exact { (bytes : List ℕ) → S.left source.old ≡ Some bytes
        → (¬ Rose (S.faults source.old) (S.faults source.new)) → ReadsWhole result bytes limit }
{
    let mut buf = buffer(alloc)?;
    let mut bytes = Vec::new(alloc);
    loop {
        let count = match source.read(&mut buf) {
            Ok(count) => count,
            Err(_) => return Err(ReadStop::Fault),
        };
        if count == 0 {
            return Ok(Bytes::of_vec(bytes));
        }
        if count as u64 > limit - bytes.len() as u64 {
            return Err(ReadStop::TooLong);
        }
        if bytes.extend_from_slice(&buf[..count]).is_err() {
            return Err(ReadStop::NoMemory);
        }
    }
}

// On the heap, since a stack may be small.
fn buffer(alloc: Global) -> Result<Vec<u8>, ReadStop>
    ensures room { IfOk result (λ buf. length buf.items ≡ PIECE) }
    ensures stop { IfErr result (λ stop. stop ≡ ReadStop.NoMemory) }
{
    match vec![in alloc; 0u8; PIECE] {
        Ok(buf) => Ok(buf),
        Err(_) => Err(ReadStop::NoMemory),
    }
}

/// Writes all the bytes, by writes that each take at least one.
///
/// `Fault` comes if a write failed; the sink then took a proper prefix of the bytes.
pub fn write_all<K: Sink>(sink: &mut K, bytes: &[u8]) -> Result<(), WriteStop>
    ensures whole { OnOk result (Appends (K.taken sink.old) (K.taken sink.new) bytes.now) }
    ensures part { OnErr result ((n : ℕ) × (n < length bytes.now)
        × Appends (K.taken sink.old) (K.taken sink.new) (take n bytes.now)) }
    ensures later { K.faults sink.old ≤ K.faults sink.new }
    ensures fault { OnErr result (Rose (K.faults sink.old) (K.faults sink.new)) }
{
    let mut at = 0;
    while at < bytes.len() {
        match sink.write(&bytes[at..]) {
            Ok(count) => at += count,
            Err(_) => return Err(WriteStop::Fault),
        }
    }
    Ok(())
}
