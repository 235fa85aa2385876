//! Reachability through time: what a node of a provenance graph depends on by a time.
//!
//! The search goes backwards from the node. It keeps the latest time at which each node may be left, and
//! takes the node with the latest time first, from a heap, so it looks at no edge twice. The edges to a node
//! are chained through the list of edges, so the memory is a few numbers for each node and each edge.
//!
//! Entry: `depends` in `src/sources.rt`. Read first: `specs/Reach.antt`.
#![tactic(auto)]

mod found;
mod incoming;
mod latest;
mod law;
mod marks;
mod search;
mod sources;

pub use law::reach_law;
pub use sources::depends;
