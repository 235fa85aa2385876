//! Scripts as a machine runs them: the instructions of a parsed script with a slot for each of its names,
//! and the table of those names.
//!
//! A script is resolved when it is read, in one walk. Variables, files, cursors and children have slots of
//! their own, each kind from 0.
//!
//! Entry: `read_code` in `src/read.rt`. Read first: `specs/Resolved.antt`.
#![tactic(auto)]

mod code;
mod name_table;
mod operands;
mod read;
mod resolve;

pub use code::{
    Code, FileInstr, OwnInstr, Scope, SlotInstr, SlotInstrs, SlotOperand, SlotOperands, Slots,
};
pub use name_table::NameTable;
pub use read::{code_of, read_code};
