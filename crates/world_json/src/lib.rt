//! World documents: a JSON document gives a world or its first fault; and the worlds of `gen`.
//!
//! Most bytes are read token by token to a `Document` of typed parts (`src/fast.rt`), all others to a JSON
//! value and this to the document; the document then to a world. Each step consumes the result of the one
//! before, so memory is freed on the way.
//!
//! Entry: `world_of` in `src/world.rt`. Read first: `specs/Reading.antt`.
#![tactic(auto)]

mod cells;
mod content;
mod document;
mod fast;
mod fault;
mod generator;
mod keys;
mod kinds;
mod limits;
mod members;
mod name_rules;
mod parts;
mod rows;
mod shape;
mod start;
mod world;

pub use fault::{WorldFault, WorldStop};
pub use generator::generate;
pub use world::{parsed_world_of, parsed_world_of_bytes, world_of};
