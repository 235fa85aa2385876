//! Scripts: the instructions of a process, and their parser.
//!
//! `split` cuts lines, `scan` cuts a line into tokens, `form` and `forms` read an instruction from tokens,
//! `labels` finds the places of labels, and `parse` puts them into the instructions.
//!
//! Entry: `parse_script` in `src/parse.rt`. Read first: `specs/Grammar.antt`.
#![tactic(auto)]

mod form;
mod forms;
mod keyword;
mod labels;
mod law;
mod line;
mod line_stop;
mod number;
mod operand;
mod parse;
mod scan;
mod script;
mod split;
mod token;

pub use law::{first_bad_law, reading_law};
pub use number::read_number;
pub use parse::{ScriptStop, known_script, parse_script, script_of};
pub use script::{CalcOp, Instr, Instrs, Operand, Operands, Script};
