//! Laws of the meaning of statements, over the definitions of `sql_model` alone. Each is the contract of a
//! function without a body.
//!
//! They have their own crate, so that adding a law proves nothing anew in `sql_model`.
//!
//! Entry: `statement_law` in `src/law.rt`. Read first: `specs/StatementLaw.antt`.
#![tactic(auto)]

mod law;

pub use law::{database_law, kind_law, lineage_law, query_law, statement_law};
