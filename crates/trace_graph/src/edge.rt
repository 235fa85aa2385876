//! The edges of a graph.

use ldv_value::{CopyItem, List};
use std::alloc::{AllocError, Global};

/// Information flows from one node to another, both by their places in the list of nodes, from 0. It flows
/// first in the step `first`, for the last time in the step `last`, and maybe between them.
#[derive(Clone, Copy)]
pub struct Edge {
    pub source: usize,
    pub target: usize,
    pub first: u32,
    pub last: u32,
}

/// Edges, in the order in which events make them first.
pub type Edges = List<Edge>;

impl CopyItem for Edge {
    fn copy_item(&self, _alloc: Global) -> Result<Self, AllocError> {
        Ok(*self)
    }
}
