//! Names that occur twice.

ghost use Rattle.std.specs.Prelude.{◌≡◌, IfOk, List, map, ℕ};
ghost use Rattle.sql_model.specs.Keys.{repeats};
ghost use Rattle.sql_model.specs.Scope.{same_text};

use ldv_value::Utf8;
use sql_model::{FromItem, Set, has_twice};
use std::alloc::{AllocError, Global};

/// An item with a name.
pub(crate) trait Named {
    /// The bytes of the item's name.
    ghost name: { Self → List ℕ };

    /// The item's name.
    fn name_text(&self) -> &str
        ensures { result.now ≡ name self.now };
}

impl Named for Utf8 {
    ghost name = { λ text. text };

    fn name_text(&self) -> &str {
        self.as_str()
    }
}

impl Named for FromItem {
    ghost name = { λ item. item.name };

    fn name_text(&self) -> &str {
        self.name.as_str()
    }
}

impl Named for Set {
    ghost name = { λ set. set.column };

    fn name_text(&self) -> &str {
        self.column.as_str()
    }
}

/// Whether two of the items have the same name.
pub(crate) fn has_duplicate<N: Named>(alloc: Global, items: &[N]) -> Result<bool, AllocError>
    ensures { IfOk result (λ twice. twice ≡ repeats same_text (map N.name items.now)) }
{
    match items {
        [] => Ok(false),
        [_item] => Ok(false),
        _ => repeat_names(alloc, items),
    }
}

// The same of two items and more, whose names are sorted for it.
fn repeat_names<N: Named>(alloc: Global, items: &[N]) -> Result<bool, AllocError>
    ensures { IfOk result (λ twice. twice ≡ repeats same_text (map N.name items.now)) }
{
    let names = all_names(alloc, items)?;
    let twice = has_twice(alloc, names)?;
    Ok(twice)
}

fn all_names<'a, N: Named>(alloc: Global, items: &'a [N]) -> Result<Vec<&'a str>, AllocError>
    ensures { IfOk result (λ names. map (λ name. name.now) names.items ≡ map N.name items.now) }
{
    let mut names = Vec::with_capacity(alloc, items.len())?;
    for item in items {
        names.push(item.name_text())?;
    }
    Ok(names)
}
