//! What each instruction does to its process, but for `spawn`.

pub(crate) mod ask;
pub(crate) mod computed;
mod copy;
mod cut;
mod execute;
pub(crate) mod files;
pub(crate) mod local;
mod replies;
mod variables;
