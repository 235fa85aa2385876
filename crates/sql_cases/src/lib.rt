//! Worked cases of the meaning of statements, as closed equations: the reply to a statement over one small
//! table, the rows that it needs, and the table after it, value by value.
//!
//! It has no code and promises nothing to other crates. Its lemmas (`proofs/`) are checked against the
//! definitions of `sql_model`, so a definition with another meaning is refused here.
//!
//! Read first: `proofs/WorkedAnswers.antt`.
#![tactic(auto)]
