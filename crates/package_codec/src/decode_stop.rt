//! Why decoding stops.

ghost use Rattle.std.specs.Prelude.{◌≡◌};
ghost use Rattle.package_codec.specs.declared.decode_stop.DecodeStop.TheVariants.{NoMemory};

use std::alloc::{AllocError, AllocFailed};

/// Why a field isn't decoded.
#[derive(Clone, Copy, Debug, PartialEq, Eq)]
pub enum DecodeStop {
    /// Out of memory.
    NoMemory,
    /// The bytes don't begin with a spelling of such a field.
    Malformed,
}

impl From<AllocError> for DecodeStop {
    ghost from_gives = { λ _ stop. stop ≡ NoMemory };

    fn from(_error: AllocError) -> DecodeStop {
        DecodeStop::NoMemory
    }
}
