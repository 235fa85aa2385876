//! Grouping: the answer rows of a core that groups, and the lineage of the groups that HAVING rejects.
//!
//! Groups are found by a map over the values of the GROUP BY columns.
//!
//! Entry: `group` in `src/grouping.rt`. Read first: `specs/Evaluating.antt`.
#![tactic(auto)]

mod columns;
mod folds;
mod group_value;
mod grouping;
mod groups;
mod lineages;
mod plan;

pub use grouping::{Grouped, group};
