//! A source and a sink that never fail.

ghost use Rattle.std.specs.Prelude.{◌≡◌, ◌<◌, min, length, drop, Some, None, Ok, IfOk, IsOk};
ghost use Rattle.std.specs.Io.{ReadsAtMost, WritesAtMost};
ghost use Rattle.std.specs.Io.KnownBytes.{ReadConsumes, WriteAppends};
ghost use Rattle.ldv_io.specs.Causes.{HasCause};

use crate::memory::copy_piece;
use crate::sink::Sink;
use crate::source::{Failed, Source};
use ldv_value::Bytes;
use std::marker::Model;

/// A source of bytes in memory that never fails. Each read returns at most `piece` bytes.
#[derive(Drop)]
pub struct SteadySource {
    bytes: Bytes,
    at: usize,
    piece: usize,
}

impl Model for SteadySource {
    ghost use Rattle.std.specs.Prelude.{◌<◌, ◌≤◌, length, drop};
    ghost use Rattle.ldv_io.specs.InMemory.{SteadyView};

    ghost Value = { SteadyView };

    ghost view = { λ a. record { left = drop a.at a.bytes; piece = a.piece } };

    ghost invariant = { λ a. (0 < a.piece) × (a.at ≤ length a.bytes) };
}

impl SteadySource {
    /// A source of these bytes. A read returns at most `piece` bytes, at least 1.
    pub fn new(bytes: Bytes, piece: usize) -> Self
        requires { 0 < piece }
        ensures left { result.left ≡ bytes }
        ensures piece { result.piece ≡ piece }
    {
        SteadySource {
            bytes,
            at: 0,
            piece,
        }
    }
}

impl Source for SteadySource {
    ghost use Rattle.std.specs.Prelude.{Some};

    ghost left = { λ s. Some s.left };

    ghost faults = { λ _. 0 };

    fn read(&mut self, buf: &mut [u8]) -> Result<usize, Failed>
        ensures bound { ReadsAtMost result buf.new }
        ensures bytes { ReadConsumes (Some self.old.left) (Some self.new.left) result buf.new }
        ensures cause { HasCause 0 0 result }
        // More than every source promises: it never fails, and how much it returns.
        ensures steady { IsOk result }
        ensures count { IfOk result (λ n.
            n ≡ min self.old.piece (min (length buf.new) (length self.old.left))) }
        ensures piece { self.new.piece ≡ self.old.piece }
    {
        let count = copy_piece(&self.bytes, self.at, self.piece, buf);
        self.at += count;
        Ok(count)
    }
}

/// A sink that takes all bytes and drops them. It never fails.
#[derive(Drop)]
pub struct DropSink {}

impl DropSink {
    /// A sink that drops what it takes.
    pub fn new() -> Self {
        DropSink {}
    }
}

impl Sink for DropSink {
    ghost use Rattle.std.specs.Prelude.{None};

    ghost taken = { λ _. None };

    ghost faults = { λ _. 0 };

    fn write(&mut self, bytes: &[u8]) -> Result<usize, Failed>
        ensures bound { WritesAtMost result bytes.now }
        ensures bytes { WriteAppends None None result bytes.now }
        ensures progress { IfOk result (λ n. 0 < length bytes.now → 0 < n) }
        ensures cause { HasCause 0 0 result }
        // More than every sink promises: it takes all bytes.
        ensures steady { result ≡ Ok (length bytes.now) }
    {
        Ok(bytes.len())
    }
}
