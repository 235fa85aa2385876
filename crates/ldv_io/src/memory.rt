//! A source and a sink in memory, whose calls fail as a list says.

ghost use Rattle.std.specs.Prelude.{◌≡◌, ◌↔◌, ◌+◌, ◌<◌, ◌≤◌, ◌^◌, min, length, drop, take, [], ◌++◌};
ghost use Rattle.std.specs.Prelude.{IsErr, IsTrue, IfOk, MatchResult, IsPermutation, Contains, Some};
ghost use Rattle.std.specs.Prelude.{vec_capacity};
ghost use Rattle.std.specs.List.Sorted.{IsNonDecreasing};
ghost use Rattle.std.specs.Io.{ReadsAtMost, WritesAtMost};
ghost use Rattle.std.specs.Io.KnownBytes.{ReadConsumes, WriteAppends};
ghost use Rattle.ldv_io.specs.Causes.{HasCause, next_count};
ghost use Rattle.ldv_io.specs.InMemory.{IsListed, IsRefused};
ghost use Rattle.ldv_io.specs.InMemory.{read_failed, read_gave, write_failed, write_took};

use crate::sink::Sink;
use crate::source::{Failed, Source};
use ldv_value::{Bytes, Calls};
use std::alloc::{AllocError, Global};
use std::marker::Model;

/// A source of bytes in memory. Each read returns at most `piece` bytes, and fails exactly if its number is
/// listed. Reads are numbered from 1 to 2^64 - 1, and a later read has no number.
#[derive(Drop)]
pub struct MemorySource {
    bytes: Bytes,
    at: usize,
    piece: usize,
    // Sorted, so that a call finds its number by bisection.
    failing: Vec<u64>,
    calls: u64,
    faults: u64,
}

impl Model for MemorySource {
    ghost use Rattle.std.specs.Prelude.{◌<◌, ◌≤◌, length, drop};
    ghost use Rattle.std.specs.List.Sorted.{IsNonDecreasing};
    ghost use Rattle.ldv_io.specs.InMemory.{Reader};

    ghost Value = { Reader };

    ghost view = { λ a. record {
      left = drop a.at a.bytes;
      piece = a.piece;
      failing = a.failing.items;
      calls = a.calls;
      faults = a.faults;
    } };

    ghost invariant = { λ a. (0 < a.piece) × (a.at ≤ length a.bytes) × IsNonDecreasing a.failing.items };
}

impl MemorySource {
    /// A source of these bytes. A read returns at most `piece` bytes, at least 1, and the reads with the
    /// numbers in `failing` fail.
    pub fn new(bytes: Bytes, piece: usize, failing: Calls) -> Self
        requires { 0 < piece }
        ensures left { result.left ≡ bytes }
        ensures piece { result.piece ≡ piece }
        ensures failing { IsPermutation failing result.failing }
        ensures calls { result.calls ≡ 0 }
        ensures faults { result.faults ≡ 0 }
    {
        MemorySource {
            bytes,
            at: 0,
            piece,
            failing: sort_calls(failing),
            calls: 0,
            faults: 0,
        }
    }
}

impl Source for MemorySource {
    ghost use Rattle.std.specs.Prelude.{Some};

    ghost left = { λ s. Some s.left };

    ghost faults = { λ s. s.faults };

    fn read(&mut self, buf: &mut [u8]) -> Result<usize, Failed>
        ensures bound { ReadsAtMost result buf.new }
        ensures bytes { ReadConsumes (Some self.old.left) (Some self.new.left) result buf.new }
        ensures cause { HasCause self.old.faults self.new.faults result }
        // More than every source promises: when it fails, how much it returns, and what it is afterwards.
        ensures fails { IsErr result ↔ IsListed self.old.failing self.old.calls }
        ensures count { IfOk result (λ n.
            n ≡ min self.old.piece (min (length buf.new) (length self.old.left))) }
        ensures after { MatchResult result (λ n. self.new ≡ read_gave n self.old)
            (λ _. self.new ≡ read_failed self.old) }
    {
        let fails = is_listed(&self.failing, self.calls);
        self.calls = self.calls.saturating_add(1);
        if fails {
            self.faults = self.faults.saturating_add(1);
            return Err(Failed);
        }
        let count = copy_piece(&self.bytes, self.at, self.piece, buf);
        self.at += count;
        Ok(count)
    }
}

// Copies the next bytes to the front of the buffer, at most a piece, and returns how many they are.
#[tactic(auto, using(crate::proofs::Pieces::drop_past))]
pub(crate) fn copy_piece(bytes: &Bytes, at: usize, piece: usize, buf: &mut [u8]) -> usize
    requires piece { 0 < piece }
    requires within { at ≤ length bytes.now }
    ensures count { result ≡ min piece (min (length buf.new) (length (drop at bytes.now))) }
    ensures within { at + result ≤ length bytes.now }
    ensures fits { at + result < 2 ^ 64 }
    ensures front { drop at bytes.now ≡ take result buf.new ++ drop (at + result) bytes.now }
    ensures more { drop result (drop at bytes.now) ≡ drop (at + result) bytes.now }
    ensures end { result ≡ 0 → 0 < length buf.new → drop (at + result) bytes.now ≡ [] }
{
    let rest = &bytes.as_slice()[at..];
    let count = piece.min(buf.len().min(rest.len()));
    buf[..count].copy_from_slice(&rest[..count]);
    count
}

// The numbers, sorted. It takes no memory.
fn sort_calls(failing: Calls) -> Vec<u64>
    ensures same { IsPermutation failing result.items }
    ensures sorted { IsNonDecreasing result.items }
{
    let mut numbers = failing.into_vec();
    numbers.sort_unstable();
    numbers
}

// Whether the call after `calls` calls is listed. Past the last number a call has none.
fn is_listed(failing: &Vec<u64>, calls: u64) -> bool
    requires { IsNonDecreasing failing.now.items }
    ensures { IsTrue result ↔ IsListed failing.now.items calls }
{
    match calls.checked_add(1) {
        Some(number) => has_number(failing.as_slice(), number),
        None => false,
    }
}

fn has_number(failing: &[u64], number: u64) -> bool
    requires { IsNonDecreasing failing.now }
    ensures { IsTrue result ↔ Contains failing.now number }
{
    failing.binary_search(&number).is_ok()
}

/// A sink in memory for a limited number of bytes. Each write takes at most `piece` bytes. It fails exactly
/// if its number is listed, or if there are bytes to write and the sink is full. Writes are numbered from 1
/// to 2^64 - 1, and a later write has no number.
#[derive(Drop)]
pub struct MemorySink {
    // It has the room from the start, so that a write takes no memory.
    held: Vec<u8>,
    room: usize,
    piece: usize,
    // Sorted, as in a source.
    failing: Vec<u64>,
    calls: u64,
    faults: u64,
}

impl Model for MemorySink {
    ghost use Rattle.std.specs.Prelude.{◌+◌, ◌<◌, ◌≤◌, length, vec_capacity};
    ghost use Rattle.std.specs.List.Sorted.{IsNonDecreasing};
    ghost use Rattle.ldv_io.specs.InMemory.{Writer};

    ghost Value = { Writer };

    ghost view = { λ a. record {
      taken = a.held.items;
      room = a.room;
      piece = a.piece;
      failing = a.failing.items;
      calls = a.calls;
      faults = a.faults;
    } };

    ghost invariant = { λ a. (0 < a.piece) × (length a.held.items + a.room ≤ vec_capacity a.held)
        × IsNonDecreasing a.failing.items };
}

impl MemorySink {
    /// A sink for at most `room` bytes, with the memory for them. A write takes at most `piece` bytes, at
    /// least 1, and the writes with the numbers in `failing` fail.
    pub fn new(alloc: Global, room: usize, piece: usize, failing: Calls) -> Result<Self, AllocError>
        requires { 0 < piece }
        ensures taken { IfOk result (λ sink. sink.taken ≡ []) }
        ensures room { IfOk result (λ sink. sink.room ≡ room) }
        ensures piece { IfOk result (λ sink. sink.piece ≡ piece) }
        ensures failing { IfOk result (λ sink. IsPermutation failing sink.failing) }
        ensures calls { IfOk result (λ sink. sink.calls ≡ 0) }
        ensures faults { IfOk result (λ sink. sink.faults ≡ 0) }
    {
        let held = Vec::with_capacity(alloc, room)?;
        Ok(MemorySink {
            held,
            room,
            piece,
            failing: sort_calls(failing),
            calls: 0,
            faults: 0,
        })
    }

    /// The bytes taken so far.
    pub fn taken(&self) -> &[u8]
        ensures { result.now ≡ self.now.taken }
    {
        self.held.as_slice()
    }
}

impl Sink for MemorySink {
    ghost use Rattle.std.specs.Prelude.{Some};

    ghost taken = { λ s. Some s.taken };

    ghost faults = { λ s. s.faults };

    fn write(&mut self, bytes: &[u8]) -> Result<usize, Failed>
        ensures bound { WritesAtMost result bytes.now }
        ensures bytes { WriteAppends (Some self.old.taken) (Some self.new.taken) result bytes.now }
        ensures progress { IfOk result (λ n. 0 < length bytes.now → 0 < n) }
        ensures cause { HasCause self.old.faults self.new.faults result }
        // More than every sink promises: when it fails, how much it takes, and what it is afterwards.
        ensures fails { IsErr result ↔ IsRefused self.old bytes.now }
        ensures count { IfOk result (λ n. n ≡ min self.old.piece (min self.old.room (length bytes.now))) }
        ensures after { MatchResult result (λ n. self.new ≡ write_took (take n bytes.now) self.old)
            (λ _. self.new ≡ write_failed self.old) }
    {
        let fails = is_listed(&self.failing, self.calls) || self.room == 0 && !bytes.is_empty();
        self.calls = self.calls.saturating_add(1);
        if fails {
            self.faults = self.faults.saturating_add(1);
            return Err(Failed);
        }
        let count = self.piece.min(self.room.min(bytes.len()));
        keep(&mut self.held, &bytes[..count]);
        self.room -= count;
        Ok(count)
    }
}

// Appends bytes for which there is room.
fn keep(held: &mut Vec<u8>, more: &[u8])
    requires { length held.old.items + length more.now ≤ vec_capacity held.old }
    ensures kept { held.new.items ≡ held.old.items ++ more.now }
    ensures capacity { vec_capacity held.old ≤ vec_capacity held.new }
{
    match held.extend_from_slice(more) {
        Ok(()) => (),
        Err(_) => unreachable!(),
    }
}
