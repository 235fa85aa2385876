//! The program without its streams: `ldv` reads a source, and writes the output of its command to a sink.
//! `Ends` of `specs/Ends.antt` is its promise for each exit.
//!
//! Folders: `commands` has a file for each command, `laws` the theorems about them.
//!
//! Entry: `ldv` and `ldv_main` in `src/top.rt`. Read first: `specs/Due.antt`.
#![tactic(auto)]

mod command;
mod commands;
mod exit;
mod laws;
mod messages;
mod numbers;
mod reading;
mod response;
mod top;
mod word_stop;

pub use command::{Command, Report};
pub use exit::{Exit, status};
pub use messages::exit_line;
pub use top::{ldv, ldv_main};
