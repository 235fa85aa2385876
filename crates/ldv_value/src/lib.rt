//! Values, their order, lists, texts, files and limits: the vocabulary of every other crate.
//!
//! `AllocError`, and a variant `NoMemory` of any error of this repository, means out of memory and nothing
//! else.
//!
//! Entry: `holds` in `src/order.rt`. Read first: `specs/Order.antt`.
#![tactic(auto)]

mod bytes;
mod file;
mod key;
mod limits;
mod line;
mod list;
mod order;
mod path_rules;
mod refs;
mod refs_by;
mod show;
mod sorted;
mod utf8;
mod value;

pub use file::{File, Files, OpenMode};
pub use key::Key;
pub use limits::{
    DEFAULT_STEPS, FILE_LIMIT, INPUT_LIMIT, MAX_COLUMNS, MAX_DEPTH, MAX_FILES, MAX_NEXT,
    MAX_OPERANDS, MAX_PARAMS, MAX_PROCESSES, MAX_ROWS, MAX_SOURCES, MAX_START_WORDS, MAX_STEPS,
    MAX_TABLES, NAME_LIMIT, PATH_LIMIT, PRINTED_LIMIT, TEXT_LIMIT,
};
pub use line::LineRead;
pub use list::{CopyItem, List};
pub use order::{compare, holds, same, test};
pub use path_rules::{is_path, is_word};
pub use refs::Refs;
pub use refs_by::RefsBy;
pub use show::{append_number, append_signed, append_text, push_text};
pub use sorted::{Precedes, is_strictly_sorted};
pub use utf8::Utf8;
pub use value::{Cmp, Truth, Value};

/// Bytes of a file, a package or an input.
pub type Bytes = List<u8>;
/// Column values, in the order of their columns.
pub type Values = List<Value>;
/// The rows of a reply.
pub type RowList = List<Values>;
/// Names of columns, tables or variables.
pub type Names = List<Utf8>;
/// Words that a run starts with.
pub type Words = List<Utf8>;
/// Paths of files.
pub type Paths = List<Utf8>;
/// Parts of a process name.
pub type Parts = List<u32>;
/// Row numbers.
pub type Numbers = List<u32>;
/// Indexes of columns, from 0.
pub type Places = List<usize>;
/// Lists of indexes of columns.
pub type PlaceLists = List<Places>;
/// Numbers of calls, counted from 1.
pub type Calls = List<u64>;
