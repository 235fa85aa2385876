//! Why a call of a tree is refused.

ghost use Rattle.std.specs.Prelude.{◌≡◌};
ghost use Rattle.file_tree.specs.declared.error.TreeStop.TheVariants as tree_stop;
ghost use Rattle.file_tree.specs.declared.error.AppendStop.TheVariants as append_stop;

use std::alloc::AllocError;

/// Why a file wasn't opened or removed.
#[derive(Clone, Copy, Debug, PartialEq, Eq)]
pub enum TreeStop {
    /// No file exists at the path.
    Absent,
    /// A file exists at the path.
    Taken,
    /// Out of memory.
    NoMemory,
}

/// Why nothing was appended to a file.
#[derive(Clone, Copy, Debug, PartialEq, Eq)]
pub enum AppendStop {
    /// The file would be longer than `FILE_LIMIT`.
    TooLong,
    /// Out of memory.
    NoMemory,
}

impl From<AllocError> for TreeStop {
    ghost from_gives = { λ _ stop. stop ≡ tree_stop.NoMemory };

    fn from(_error: AllocError) -> Self {
        TreeStop::NoMemory
    }
}

impl From<AllocError> for AppendStop {
    ghost from_gives = { λ _ stop. stop ≡ append_stop.NoMemory };

    fn from(_error: AllocError) -> Self {
        AppendStop::NoMemory
    }
}
