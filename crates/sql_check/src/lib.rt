//! The check of statements against schemas: refusals by names and kinds, and the places of columns.
//!
//! `tables` finds missing tables, `columns` missing and ungrouped columns, and `clash` kinds and counts that
//! don't fit, each over the whole statement before the next begins. Then `places` lists the places of the
//! statement's columns. `scope` lists the columns that a name can mean.
//!
//! Entry: `check` in `src/checking.rt`. Read first: `specs/Places.antt` of `sql_model`.
#![tactic(auto)]

mod aggregate;
mod answer_column;
mod checking;
mod clash;
mod columns;
mod core_names;
mod duplicate;
mod error;
mod kinds;
mod places;
mod scope;
mod tables;
mod union;
mod values;
mod walk;

pub use checking::{check, check_places};
pub use core_names::groups;
pub use error::CheckStop;
