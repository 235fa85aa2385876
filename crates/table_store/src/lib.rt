//! Tables through time: the rows that each table has now, and those that it had after each time. Contracts
//! see a store as its tables, each with the changes of every row that it ever had.
//!
//! `docs/internals/STORAGE.md` draws a table in memory. A change of rows first takes all memory that it
//! needs; the rest can't fail (`rewrites`, `row_ends`). What rows were before stands in one log
//! (`version_log`).
//!
//! A change is planned, judged and committed, and nothing is written before the last. A plan (`plans`) has
//! the rows and the keys that they claim. The keys of new rows are compared with each other and with those of
//! live rows (`claim`). If an UPDATE leaves the key alone, the index stays as it is. If it changes a key, the
//! keys of the updated rows are compared with each other and with those of all other rows (`rekey`, `clash`).
//! References are judged over the tables as they would be (`judged`, `refusals`, `children`), once nothing
//! else refuses the change. Keys enter the index before the rows change; those of updated rows get their
//! numbers afterwards, which takes no memory. `judged` also has the rows to which given rows would refer, row
//! by row, and `parent_set` has them in order, where keys may be shared.
//!
//! Folders: `rows` has the rows, their columns and their log, `keys` the index of a table and the keys that
//! rows claim, `references` children, parents and what they refuse.
//!
//! Entry: `insert_all` in `src/store.rt`. Read first: `specs/Histories.antt`.
#![tactic(auto)]

mod chosen;
mod error;
mod keys;
mod nexts;
mod plans;
mod references;
mod rows;
mod start;
mod store;
mod table;

pub use error::StoreStop;
pub use plans::{InsertPlan, ReplacePlan};
pub use references::judged::Judged;
pub use store::Store;
pub use table::TableStore;
