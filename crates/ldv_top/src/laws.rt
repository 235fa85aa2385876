//! The laws of commands: the contract of each function is a theorem, and its body calls the laws below
//! that it follows from.

pub(crate) mod document_law;
pub(crate) mod headline_law;
pub(crate) mod migration_law;
pub(crate) mod report_law;
pub(crate) mod seed_law;
pub(crate) mod two_runs_law;
