//! Texts that are read once: a statement with open parameters, and the same statement with given ones.
//!
//! `template` reads a text with negative numbers in place of its parameters: no text can write these as
//! constants. `filling` puts parameters in for them. A statement that passed the check with some parameters
//! passes it with others of the same kinds, apart from LIMIT (`prepared`).
//!
//! Entry: `checked_for` in `src/prepared.rt`. Read first: `specs/Checking.antt`.
#![tactic(auto)]

mod filling;
mod limit;
mod prepared;
mod template;

pub use prepared::Prepared;
pub use template::Template;
