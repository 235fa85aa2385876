//! The nodes of a graph.

use ldv_value::{CopyItem, List, Utf8};
use sql_model::Member;
use std::alloc::{AllocError, Global};

/// A source or a target of information.
#[derive(Drop)]
pub enum Node {
    /// The content of a path, and whether there is a file.
    Path(Utf8),
    /// A process, by its creation number, from 0.
    Process(u32),
    /// A row of a table at a version.
    Row(Member),
    /// A statement that was asked, by its number in the run, from 0.
    Ask(u32),
    /// The reply to a statement, by the statement's number.
    Reply(u32),
}

/// Nodes, in the order in which events name them first.
pub type Nodes = List<Node>;

impl CopyItem for Node {
    fn copy_item(&self, alloc: Global) -> Result<Self, AllocError> {
        match self {
            Node::Path(path) => Ok(Node::Path(path.copy()?)),
            Node::Process(process) => Ok(Node::Process(*process)),
            Node::Row(member) => Ok(Node::Row(member.copy_item(alloc)?)),
            Node::Ask(statement) => Ok(Node::Ask(*statement)),
            Node::Reply(statement) => Ok(Node::Reply(*statement)),
        }
    }
}
