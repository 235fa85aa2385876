//! A set of numbers that are made one after another. The scheduler keeps the runnable processes in it.
//!
//! A number costs eight to sixteen bytes. Each call but `reserve` takes logarithmic time; `reserve` doubles
//! the room when it is full, in linear time.
//!
//! Entry: `pick_next` in `src/set.rt`. Read first: `specs/Ready.antt`.
#![tactic(auto)]

mod set;
mod tree;

pub use set::ReadySet;
