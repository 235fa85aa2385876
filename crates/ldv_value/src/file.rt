//! Files of a world, and the modes in which a script opens them.

ghost use Rattle.std.specs.Prelude.{◌≡◌};
ghost use Rattle.std.specs.Option.{option_map};
ghost use Rattle.ldv_value.specs.FileState.{file_at};

use crate::Bytes;
use crate::list::{CopyItem, List};
use crate::utf8::Utf8;
use std::alloc::{AllocError, Global};

/// A file: its path, for which `is_path` holds, and its bytes, at most `FILE_LIMIT`.
#[derive(Drop)]
pub struct File {
    pub path: Utf8,
    pub content: Bytes,
}

/// Files. They are sorted by path if a clause says so.
pub type Files = List<File>;

impl Files {
    /// The first file at a path; `None` if there is none.
    pub fn find(&self, path: &Utf8) -> Option<&File>
        ensures { option_map (λ file. file.now) result ≡ file_at path.now self.now }
    {
        self.items().iter().find(|file| *path == file.path)
    }
}

/// How a script opens a file.
#[derive(Clone, Copy, Debug, PartialEq, Eq)]
pub enum OpenMode {
    /// `r`: reads a file that exists from its start.
    Read,
    /// `w`: empties or makes the file.
    Write,
    /// `a`: keeps or makes the file, and appends to it.
    Append,
    /// `n`: makes a file that doesn't exist.
    New,
}

impl CopyItem for File {
    fn copy_item(&self, _alloc: Global) -> Result<Self, AllocError> {
        Ok(File {
            path: self.path.copy()?,
            content: self.content.copy()?,
        })
    }
}
