//! Predicates and other expressions of a checked statement, for the crates that evaluate it: bound to the
//! places of their columns, and taken apart.
//!
//! An expression of a core (`cores`) is bound to the places of its columns once (`placed`), and conditions
//! are split at AND (`conditions`). From the conjuncts come the key that they fix (`fixing`, `constants`),
//! the tests of single columns (`mask`), and the equalities of a join.
//!
//! Entry: `placed_items` in `src/placed.rt`. Read first: `specs/Placing.antt`.
#![tactic(auto)]

mod conditions;
mod constants;
mod cores;
mod equality;
mod fixing;
mod mask;
mod placed;
mod truths;

pub use conditions::{conjuncts, conjuncts_of};
pub use constants::constant_value;
pub use cores::{column_indexes, core_of, query_of};
pub use equality::{is_column, is_equal_test};
pub use fixing::fixed_key;
pub use mask::{exact_masks, masks_of};
pub use placed::{
    BoundExpr, column_of_source, placed_at, placed_items, skip_places, take_place, take_places,
};
pub use truths::is_certain;
