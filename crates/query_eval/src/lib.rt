//! Queries from FROM to LIMIT: joined rows, the answers of cores that don't group, DISTINCT and UNION, ORDER
//! BY and LIMIT, each row with its lineage.
//!
//! A source holds the rows of one table in FROM that can be in a joined row. If conditions fix its whole key
//! by constants, the index of the table gives its one row. Otherwise the conditions on single columns choose
//! slots by scans, and only the chosen rows are copied. Joined rows are slots of sources, `FlatRows`, until
//! their picks are made. `proofs/StoredSourceLaws.antt` says why no row is lost, `proofs/Levels.antt` why the
//! steps of a join give the rows of the product in its order, and `proofs/SlotLevels.antt` why they may go by
//! slots.
//!
//! Entry: `picked` in `src/picking.rt`. Read first: `specs/Picking.antt`.
#![tactic(auto)]

mod abbreviated;
mod asked;
mod conditions;
mod extending;
mod index;
mod joining;
mod key_lookup;
mod lineages;
mod merging;
mod order_limit;
mod picking;
mod probe;
mod projection;
mod single;
mod slot_row;
mod sort;
mod source;
mod sources;
mod table_scan;
mod testing;

pub use lineages::united_set;
pub use merging::merge;
pub use order_limit::{Finished, finish};
pub use picking::picked;
pub use projection::project;
