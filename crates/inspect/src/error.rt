//! The reasons why there is no report.

use std::alloc::AllocError;

/// Why there is no report on an item of a package.
#[derive(Clone, Copy, Debug, PartialEq, Eq)]
pub enum InspectStop {
    /// The package has no such item.
    NoSuch,
    /// Out of memory.
    NoMemory,
}

impl From<AllocError> for InspectStop {
    ghost use Rattle.std.specs.Prelude.{◌≡◌};
    ghost use Rattle.inspect.specs.declared.error.InspectStop.TheVariants.{NoMemory};

    ghost from_gives = { λ _ stop. stop ≡ NoMemory };

    fn from(_refused: AllocError) -> InspectStop {
        InspectStop::NoMemory
    }
}
