//! Names of processes.

use ldv_value::{CopyItem, Parts};
use std::alloc::{AllocError, Global};

/// The spawn path of a process: the first process is 0, and its children are 0.0, 0.1 and so on, in the
/// order in which they were made.
#[derive(Drop)]
pub struct ProcName {
    pub parts: Parts,
}

impl CopyItem for ProcName {
    fn copy_item(&self, _alloc: Global) -> Result<Self, AllocError> {
        Ok(ProcName {
            parts: self.parts.copy()?,
        })
    }
}
