//! Events of a run.

ghost use Rattle.std.specs.Prelude.{◌≡◌, option_map};
ghost use Rattle.run_model.specs.Acts.{is_spawn, named_path};

use ldv_value::{CopyItem, List, Names, Utf8};
use sql_model::{Members, Needs};
use std::alloc::{AllocError, Global};

/// What happened in a step. A `path` is the path that the instruction, or the first start word, named.
#[derive(Drop)]
pub enum Act {
    /// The first process was started on a path.
    Started {
        path: Utf8,
    },
    /// A child was made.
    Spawned {
        path: Utf8,
    },
    /// A child was refused. `found` says whether the file was there.
    Unspawned {
        path: Utf8,
        found: bool,
    },
    /// A file was opened for reading.
    OpenedRead {
        path: Utf8,
    },
    /// A file was opened for writing, and emptied or made.
    OpenedWrite {
        path: Utf8,
    },
    /// A file was opened for appending. `found` says whether it was there; else it was made.
    OpenedAppend {
        path: Utf8,
        found: bool,
    },
    /// A file was made, and opened for writing.
    OpenedNew {
        path: Utf8,
    },
    /// An open was refused: one for reading found no file, or one of a new file found a file. `found` says
    /// which.
    Unopened {
        path: Utf8,
        found: bool,
    },
    /// A file was read, by `readline` or `copy`, whatever that gave.
    Read {
        path: Utf8,
    },
    /// Bytes were appended to a file.
    Wrote {
        path: Utf8,
    },
    /// A file was removed.
    Removed {
        path: Utf8,
    },
    /// `exists` looked for a file, or a refused `remove` did. `found` says whether it was there.
    Tested {
        path: Utf8,
        found: bool,
    },
    /// The process waited for a child, by its creation number, until that ended.
    Waited {
        child: u32,
    },
    /// The process ended, with this status.
    Ended {
        status: u8,
    },
    /// A statement was asked, by its number in the run, from 0. `tables` are the tables that it names, the
    /// tables of the rows that it needs, and all their parents. `reads` are the rows that it needs, and
    /// `made` the row versions that it made.
    Asked {
        statement: u32,
        tables: Names,
        reads: Needs,
        made: Members,
    },
}

impl Act {
    /// Whether a child was made.
    pub fn is_spawn(&self) -> bool
        ensures { result ≡ is_spawn self.now }
    {
        match self {
            Act::Spawned { path: _ } => true,
            _ => false,
        }
    }

    /// The path that it names, or `None` if it names none.
    pub fn path(&self) -> Option<&Utf8>
        ensures { option_map (λ path. path.now) result ≡ named_path self.now }
    {
        match self {
            Act::Started { path } => Some(path),
            Act::Spawned { path } => Some(path),
            Act::Unspawned { path, found: _ } => Some(path),
            Act::OpenedRead { path } => Some(path),
            Act::OpenedWrite { path } => Some(path),
            Act::OpenedAppend { path, found: _ } => Some(path),
            Act::OpenedNew { path } => Some(path),
            Act::Unopened { path, found: _ } => Some(path),
            Act::Read { path } => Some(path),
            Act::Wrote { path } => Some(path),
            Act::Removed { path } => Some(path),
            Act::Tested { path, found: _ } => Some(path),
            Act::Waited { child: _ } => None,
            Act::Ended { status: _ } => None,
            Act::Asked {
                statement: _,
                tables: _,
                reads: _,
                made: _,
            } => None,
        }
    }
}

impl CopyItem for Act {
    fn copy_item(&self, _alloc: Global) -> Result<Self, AllocError> {
        Ok(match self {
            Act::Started { path } => Act::Started { path: path.copy()? },
            Act::Spawned { path } => Act::Spawned { path: path.copy()? },
            Act::Unspawned { path, found } => Act::Unspawned {
                path: path.copy()?,
                found: *found,
            },
            Act::OpenedRead { path } => Act::OpenedRead { path: path.copy()? },
            Act::OpenedWrite { path } => Act::OpenedWrite { path: path.copy()? },
            Act::OpenedAppend { path, found } => Act::OpenedAppend {
                path: path.copy()?,
                found: *found,
            },
            Act::OpenedNew { path } => Act::OpenedNew { path: path.copy()? },
            Act::Unopened { path, found } => Act::Unopened {
                path: path.copy()?,
                found: *found,
            },
            Act::Read { path } => Act::Read { path: path.copy()? },
            Act::Wrote { path } => Act::Wrote { path: path.copy()? },
            Act::Removed { path } => Act::Removed { path: path.copy()? },
            Act::Tested { path, found } => Act::Tested {
                path: path.copy()?,
                found: *found,
            },
            Act::Waited { child } => Act::Waited { child: *child },
            Act::Ended { status } => Act::Ended { status: *status },
            Act::Asked {
                statement,
                tables,
                reads,
                made,
            } => Act::Asked {
                statement: *statement,
                tables: tables.copy()?,
                reads: reads.copy()?,
                made: made.copy()?,
            },
        })
    }
}

/// An act of a process, by its creation number, at a step; step 0 is the start.
#[derive(Drop)]
pub struct Event {
    pub step: u32,
    pub process: u32,
    pub act: Act,
}

impl CopyItem for Event {
    fn copy_item(&self, alloc: Global) -> Result<Self, AllocError> {
        Ok(Event {
            step: self.step,
            process: self.process,
            act: self.act.copy_item(alloc)?,
        })
    }
}

/// Events, in the order in which they happened.
pub type Events = List<Event>;
