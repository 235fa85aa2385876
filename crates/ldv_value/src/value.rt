//! Values, truth values and comparison operators.

ghost use Rattle.std.specs.Prelude.{◌≡◌};
ghost use Rattle.ldv_value.specs.Cells.{int_value};
ghost use Rattle.ldv_value.specs.Order.{truth_of_bool};

use crate::list::CopyItem;
use crate::utf8::Utf8;
use std::alloc::{AllocError, Global};

/// A value of a table, a variable or a parameter. A text has at most `TEXT_LIMIT` bytes if a clause says so.
#[derive(Drop)]
pub enum Value {
    /// SQL's NULL: no value is known.
    Null,
    /// A whole number.
    Int(i64),
    /// A text.
    Text(Utf8),
}

/// A truth value of SQL's three-valued logic.
#[derive(Clone, Copy, Debug, PartialEq, Eq)]
pub enum Truth {
    /// True.
    True,
    /// False.
    False,
    /// Unknown, since a NULL was compared.
    Unknown,
}

/// A comparison operator.
#[derive(Clone, Copy, Debug, PartialEq, Eq)]
pub enum Cmp {
    /// `=`
    Eq,
    /// `<>`
    Ne,
    /// `<`
    Lt,
    /// `<=`
    Le,
    /// `>`
    Gt,
    /// `>=`
    Ge,
}

impl Value {
    /// The number as a value, or NULL if there is none.
    pub fn of_number(number: Option<i64>) -> Value
        ensures { result ≡ int_value number }
    {
        match number {
            None => Value::Null,
            Some(number) => Value::Int(number),
        }
    }
}

impl Truth {
    /// True if a test holds, and false otherwise. It is never unknown.
    pub fn of_bool(test: bool) -> Truth
        ensures { result ≡ truth_of_bool test }
    {
        if test { Truth::True } else { Truth::False }
    }
}

impl CopyItem for Value {
    fn copy_item(&self, _alloc: Global) -> Result<Self, AllocError> {
        match self {
            Value::Null => Ok(Value::Null),
            Value::Int(number) => Ok(Value::Int(*number)),
            Value::Text(text) => Ok(Value::Text(text.copy()?)),
        }
    }
}
