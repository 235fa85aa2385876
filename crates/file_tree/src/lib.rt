//! The files of a run: bytes by path, and which paths the run touched. Contracts see a `Tree` as one
//! `FileState` of `ldv_value`.
//!
//! Entry: `open_path` in `src/tree.rt`. Read first: `specs/FileState.antt` of `ldv_value`.
#![tactic(auto)]

mod contents;
mod error;
mod line;
mod marks;
mod tree;

pub use error::{AppendStop, TreeStop};
pub use ldv_value::LineRead;
pub use tree::Tree;
