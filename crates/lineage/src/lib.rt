//! Lineage: the rows of tables that an answer row comes from, each at one version. The evaluators of queries
//! pass each other `Picks` and `Answers`.
//!
//! A `LineageSet` is a bitmap in blocks (`blocks`, and `table_blocks` for those of all tables), with the
//! versions above 0 beside it (`versions`). The `LineageRows` of one row are a list while they are few
//! (`held`). `FlatRows` has joined rows by slots, one list for all of them.
//! Lists of needed rows, each with its rule, are sorted and united in `needs`.
//!
//! Entry: `union` in `src/set.rt`. Read first: `specs/Lineage.antt`.
#![tactic(auto)]

mod answer;
mod blocks;
mod flat_rows;
mod held;
mod lineage_rows;
mod listing;
mod needs;
mod set;
mod table_blocks;
mod versions;

pub use answer::{Answer, Answers, Pick, Picks};
pub use flat_rows::{FlatRows, split_row};
pub use lineage_rows::LineageRows;
pub use needs::{needed_by, needs_in_order, union_of_needs};
pub use set::LineageSet;
