//! Version chains: every value that a row ever had, and since when.
//!
//! A caller that must not fail half-way calls `reserve` first. `end` takes no memory.
//!
//! Entry: `as_of` in `src/chain.rt`. Read first: `specs/History.antt`.
#![tactic(auto)]

mod chain;
mod versions;

pub use chain::Chain;
