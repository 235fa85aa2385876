//! Laws of the values that a run makes: each is a number of 64 bits, or a text of UTF-8 within the limit.
//!
//! Another law says that a run over tables without foreign keys gives a package without rules or refusals of
//! them.
//!
//! Entry: `steps_law` in `src/steps.rt`. Read first: `specs/Values.antt`.
#![tactic(auto)]

mod answers;
mod fitting;
mod literals;
mod steps;

pub use answers::answers_law;
pub use fitting::fitting_law;
pub use literals::literals_law;
pub use steps::steps_law;
