//! The parts of a package but for its trace: values, texts, files, tables and logs.

mod common_table;
mod decode_by;
mod file;
mod log;
pub(crate) mod table;
pub(crate) mod text;
mod value;
