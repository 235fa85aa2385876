//! The engine: SQL over the tables of a store, as a `Database` that a run asks.
//!
//! `cores` unites the rows of a query's cores, and `answer` makes the answer and lists the rows that it needs
//! beside its lineage. `marks` marks the tables that a statement asks: it starts from the named ones, and
//! takes all memory before the statement runs. `cache` keeps texts that were asked before, so that each is
//! read and checked once.
//!
//! Entry: `ask` in `src/engine.rt`. Read first: `specs/Asking.antt`.
#![tactic(auto)]

mod answer;
mod asked_tables;
mod cache;
mod cores;
mod engine;
mod execute;
mod marks;
mod named_tables;
mod needs;
mod recorded;

pub use engine::Engine;
