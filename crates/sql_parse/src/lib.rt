//! The SQL parser: from a text with its parameters to the statement that the grammar of `sql_model` gives
//! it.
//!
//! `scan` splits a text into tokens, and `given` replaces each `?` by its parameter. The other modules read
//! the tokens from left to right, each its part of the grammar.
//!
//! Entry: `parse` in `src/reading.rt`. Read first: `specs/Texts.antt` of `sql_model`.
#![tactic(auto)]

mod change;
mod column;
mod error;
mod expression;
mod given;
mod law;
mod opening;
mod operator;
mod part_list;
mod query;
mod reader;
mod reading;
mod scan;
mod select;
mod source;
mod steps;
mod token;

pub use error::ParseStop;
pub use law::{expression_law, reading_law, token_law};
pub use reading::parse;
