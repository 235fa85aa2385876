//! The reasons why bytes give no graph.

use std::alloc::AllocError;

/// Why bytes give no graph.
#[derive(Clone, Copy, Debug, PartialEq, Eq)]
pub enum ProvStop {
    /// The bytes are the document of no well-formed graph.
    NotProv,
    /// Out of memory.
    NoMemory,
}

impl From<AllocError> for ProvStop {
    ghost use Rattle.std.specs.Prelude.{◌≡◌};
    ghost use Rattle.prov_export.specs.declared.error.ProvStop.TheVariants.{NoMemory};

    ghost from_gives = { λ _ stop. stop ≡ NoMemory };

    fn from(_refused: AllocError) -> ProvStop {
        ProvStop::NoMemory
    }
}
