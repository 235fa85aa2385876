//! Where bytes go.

ghost use Rattle.std.specs.Prelude.{List, ℕ, ◌<◌, length, IfOk};
ghost use Rattle.std.specs.declared.option.Option.{Option};
ghost use Rattle.std.specs.Io.{WritesAtMost};
ghost use Rattle.std.specs.Io.KnownBytes.{WriteAppends};
ghost use Rattle.ldv_io.specs.Causes.{HasCause};

use crate::source::Failed;

/// Where bytes go.
pub trait Sink {
    /// The bytes that were taken, if the sink reports them.
    ghost taken: { Self → Option (List ℕ) };

    /// How often a write has failed, up to 2^64 - 1. It never decreases.
    ghost faults: { Self → ℕ };

    /// Takes bytes from the front of `bytes`, and returns how many: at least one if `bytes` has one. On
    /// `Failed` it took none and the count of faults increased.
    fn write(&mut self, bytes: &[u8]) -> Result<usize, Failed>
        ensures bound { WritesAtMost result bytes.now }
        ensures bytes { WriteAppends (taken self.old) (taken self.new) result bytes.now }
        ensures progress { IfOk result (λ n. 0 < length bytes.now → 0 < n) }
        ensures cause { HasCause (faults self.old) (faults self.new) result };
}
