//! Values that are lent, and expressions over a row of them. No call takes memory, so none fails.
//!
//! An expression gives no text but one of the row or one of its own constants. So its value is a number that
//! is made, or a cell that is lent.
//!
//! Entry: `truth_over` in `src/evaluating.rt`. Read first: `specs/Lending.antt`.
#![tactic(auto)]

mod arithmetic;
mod cell;
mod evaluating;
mod row;

pub use cell::Cell;
pub use evaluating::truth_over;
pub use row::{CellsAt, Listed};
