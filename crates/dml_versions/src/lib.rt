//! INSERT, UPDATE and DELETE over a store, with the rows that they need and the versions that they make.
//!
//! `finding` finds the rows for which WHERE is True: by the key if WHERE fixes each of its columns by a
//! constant (`keys`), and otherwise among the rows that pass the tests of single columns (`tested`). `rows`
//! or `updates` makes the new values, and `needs` the lists, all before the store changes.
//! `proofs/RefuseLaws.antt` and `proofs/ReferLaws.antt` prove that the store and the definitions refuse the
//! same changes.
//!
//! Entry: `insert` in `src/inserting.rt`. Read first: `specs/Changing.antt`.
#![tactic(auto)]

mod change;
mod deleting;
mod finding;
mod found;
mod inserting;
mod keys;
mod needs;
mod places;
mod rows;
mod statements;
mod tables;
mod tested;
mod updates;
mod updating;

pub use change::Change;
pub use deleting::delete;
pub use inserting::insert;
pub use updating::update;
