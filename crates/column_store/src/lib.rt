//! Columns of values in memory: integers as an array with a bit for each NULL, and texts. Rows are appended,
//! replaced and copied by slot.
//!
//! Entry: `push_cells` in `src/columns.rt`. Read first: `specs/Cells.antt`.
#![tactic(auto)]

mod bits;
mod column;
mod columns;
mod grow;
mod int_column;

pub use bits::{Bits, drop_bit};
pub use column::Column;
pub use columns::{compare_cells, copy_cells, empty_columns, push_cells, reserve_cells, set_cells};
pub use grow::reserve_eighth;
pub use int_column::IntColumn;
