//! The kinds of expressions.

/// The kind of an expression's values, which is the same for all rows.
#[derive(Clone, Copy, Debug, PartialEq, Eq)]
pub enum Kind {
    /// A number or NULL.
    Int,
    /// A text or NULL.
    Text,
    /// Only NULL. It fits a number and a text.
    Any,
    /// A truth.
    Truth,
}
