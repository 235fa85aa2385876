//! Limits that several crates share. Those of inputs, files, texts, paths and names are in bytes. Clauses
//! cite the definitions of the same names in `specs/Limits.antt`.

/// An input, and a written package.
pub const INPUT_LIMIT: usize = 67_108_864;
/// A file.
pub const FILE_LIMIT: usize = 16_777_216;
/// What one process prints.
pub const PRINTED_LIMIT: usize = 16_777_216;
/// A TEXT value, a text of a script, a start word, a line that is read.
pub const TEXT_LIMIT: usize = 65_536;
/// A path.
pub const PATH_LIMIT: usize = 255;
/// A name of SQL or of a script.
pub const NAME_LIMIT: usize = 63;
/// Steps of a run.
pub const MAX_STEPS: u32 = 10_000_000;
/// Steps of a run, if the caller gives no number.
pub const DEFAULT_STEPS: u32 = 1_000_000;
/// Processes of a run.
pub const MAX_PROCESSES: usize = 65_535;
/// Files of a world or package.
pub const MAX_FILES: usize = 65_536;
/// Tables.
pub const MAX_TABLES: usize = 256;
/// Columns of a table.
pub const MAX_COLUMNS: usize = 64;
/// Rows of a table in a world document.
pub const MAX_ROWS: usize = 1_000_000;
/// The number that the next row of a table gets.
pub const MAX_NEXT: u32 = 4_294_967_295;
/// Words that a run starts with.
pub const MAX_START_WORDS: usize = 256;
/// Operands in one list of an instruction.
pub const MAX_OPERANDS: usize = 255;
/// Parameters of a statement.
pub const MAX_PARAMS: usize = 255;
/// Sources of a SELECT in FROM.
pub const MAX_SOURCES: usize = 8;
/// The depth of an expression.
pub const MAX_DEPTH: usize = 64;
