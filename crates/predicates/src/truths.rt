//! The test whether a condition holds.

ghost use Rattle.std.specs.Prelude.{◌≡◌};
ghost use Rattle.sql_model.specs.Meaning.{is_true};

use ldv_value::Truth;

/// Whether a truth is True, and neither False nor Unknown.
pub fn is_certain(truth: Truth) -> bool
    ensures { result ≡ is_true truth }
{
    match truth {
        Truth::True => true,
        Truth::False => false,
        Truth::Unknown => false,
    }
}
