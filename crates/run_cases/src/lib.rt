//! Worked cases of the meaning of a run and its texts, as closed equations: which process runs next, the
//! arguments of the first process, the order of processes by name, each line of the outcome text, and the
//! status and the line of each exit.
//!
//! It has no code and promises nothing to other crates. Its lemmas (`proofs/`) are checked against the
//! definitions of `run_model` and of `ldv_top`, so a definition with another meaning is refused here. Each
//! expected value was worked out by hand from the rule above it.
//!
//! Read first: `proofs/WorkedSchedules.antt`.
#![tactic(auto)]
