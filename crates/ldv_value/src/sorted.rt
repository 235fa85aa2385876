//! Lists that are strictly increasing.

ghost use Rattle.std.specs.Prelude.{◌≡◌, Bool};
ghost use Rattle.ldv_value.specs.Sorted.{is_strictly_sorted, precedes_first, text_precedes};

use crate::file::File;
use crate::utf8::Utf8;

/// An item that comes before or after others.
pub trait Precedes {
    /// Whether an item comes before another.
    ghost is_before: { Self → Self → Bool };

    /// Whether the item comes before another.
    fn precedes(&self, other: &Self) -> bool
        ensures { result ≡ is_before self.now other.now };
}

/// Whether each item comes before the next.
pub fn is_strictly_sorted<X: Precedes>(items: &[X]) -> bool
    ensures { result ≡ is_strictly_sorted X.is_before items.now }
{
    let mut left = items;
    loop {
        match left {
            [] => return true,
            [first, rest @ ..] => {
                if !precedes_first(first, rest) {
                    return false;
                }
                left = rest;
            }
        }
    }
}

fn precedes_first<X: Precedes>(item: &X, rest: &[X]) -> bool
    ensures { result ≡ precedes_first X.is_before item.now rest.now }
{
    match rest {
        [] => true,
        [next, ..] => item.precedes(next),
    }
}

impl Precedes for Utf8 {
    ghost is_before = { text_precedes };

    fn precedes(&self, other: &Utf8) -> bool {
        self.as_str().cmp(other.as_str()).is_lt()
    }
}

impl Precedes for File {
    ghost use Rattle.ldv_value.specs.FileState.{file_precedes};

    ghost is_before = { file_precedes };

    fn precedes(&self, other: &File) -> bool {
        self.path.precedes(&other.path)
    }
}
