//! The JSON value that some bytes spell.
//!
//! Entry: `read_json` in `src/reading.rt`. Read first: `specs/Reading.antt`.
#![tactic(auto)]

mod reading;

pub use reading::{JsonStop, read_json};
