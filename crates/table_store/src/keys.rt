//! The keys of a table: its index, the keys that given rows claim, and what they clash with.

pub(crate) mod claim;
mod clash;
pub(crate) mod given;
pub(crate) mod index;
pub(crate) mod insert;
pub(crate) mod key_map;
pub(crate) mod new_keys;
pub(crate) mod rekey;
