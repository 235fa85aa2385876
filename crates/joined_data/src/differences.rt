//! Whether two contents of a file, two tables or two rows differ.

ghost use Rattle.std.specs.Prelude.{◌≡◌, Bool, not};
ghost use Rattle.std.specs.Cmp.Lexicographic.{pointwise};
ghost use Rattle.sql_model.specs.Keys.{same_values};
ghost use Rattle.joined_data.specs.Joined.{tables_differ};
ghost use Rattle.joined_data.specs.Same.{contents_differ, same_keys, same_schema};

use ldv_value::{Bytes, Values};
use sql_model::{Column, Foreign, Schema, Table};

/// Whether both are whole, with different bytes.
pub(crate) fn contents_differ(a: &Option<Bytes>, b: &Option<Bytes>) -> bool
    ensures { result ≡ contents_differ a.now b.now }
{
    match a {
        None => false,
        Some(bytes) => match b {
            None => false,
            Some(others) => bytes.as_slice() != others.as_slice(),
        },
    }
}

/// Whether two tables have different schemas or next numbers.
pub(crate) fn tables_differ(a: &Table, b: &Table) -> bool
    ensures { result ≡ tables_differ a.now b.now }
{
    !(same_schema(&a.schema, &b.schema) && a.next == b.next)
}

/// Whether two rows have different values.
pub(crate) fn values_differ(a: &Values, b: &Values) -> bool
    ensures { result ≡ not (same_values a.now b.now) }
{
    !a.cmp(b).is_eq()
}

fn same_schema(a: &Schema, b: &Schema) -> bool
    ensures { result ≡ same_schema a.now b.now }
{
    are_same(a.columns.items(), b.columns.items()) && same_keys(a, b)
}

fn same_keys(a: &Schema, b: &Schema) -> bool
    ensures { result ≡ same_keys a.now b.now }
{
    a.key == b.key && are_same(a.foreign.items(), b.foreign.items())
}

// An item that is compared with another.
trait SameAs {
    ghost same: { Self → Self → Bool };

    fn same_as(&self, other: &Self) -> bool
        ensures { result ≡ same self.now other.now };
}

impl SameAs for Column {
    ghost use Rattle.joined_data.specs.Same.{same_column};

    ghost same = { same_column };

    fn same_as(&self, other: &Column) -> bool {
        self.name == other.name && self.text == other.text && self.not_null == other.not_null
    }
}

impl SameAs for Foreign {
    ghost use Rattle.joined_data.specs.Same.{same_foreign};

    ghost same = { same_foreign };

    fn same_as(&self, other: &Foreign) -> bool {
        self.columns == other.columns && self.parent == other.parent
    }
}

// Whether both have as many items, and each is the same as that in its place.
fn are_same<X: SameAs>(a: &[X], b: &[X]) -> bool
    ensures { result ≡ pointwise X.same a.now b.now }
{
    let mut left = a;
    let mut right = b;
    loop {
        match left {
            [] => return right.is_empty(),
            [first, rest @ ..] => match right {
                [] => return false,
                [second, more @ ..] => {
                    if !first.same_as(second) {
                        return false;
                    }
                    left = rest;
                    right = more;
                }
            },
        }
    }
}
