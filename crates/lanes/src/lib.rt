//! Kernels over sets of numbers and over columns, eight words or numbers at a time. A set is a list of words,
//! and bit i of word j stands for the number 64 * j + i.
//!
//! No call takes memory or fails. A set has fewer than 2^57 words, the two sets of a call have the same
//! number of words, and a mask has a word for each 64 cells of its column, rounded up.
//!
//! Entry: `select_i64` in `src/select.rt`. Read first: `specs/Sets.antt`.
#![tactic(auto)]

mod members;
mod merge;
mod plain;
mod select;
mod sets;

pub use members::{after_member, count, next_one};
pub use plain::{
    plain_and_into, plain_count, plain_minus_into, plain_next_one, plain_or_into, plain_select_i64,
};
pub use select::select_i64;
pub use sets::{and_into, minus_into, or_into};
