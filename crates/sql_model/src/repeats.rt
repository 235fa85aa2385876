//! Whether a list has an item twice, in n log n steps.

ghost use Rattle.std.specs.Prelude.{◌≡◌, IfOk};
ghost use Rattle.std.specs.Ordering.{eq_by_cmp};
ghost use Rattle.sql_model.specs.Keys.{repeats};

use std::alloc::{AllocError, Global};
use std::collections::BTreeSet;

/// Whether some item is equal to a later one, in the order of their type.
pub fn has_twice<K: Ord + Drop>(alloc: Global, keys: Vec<K>) -> Result<bool, AllocError>
    ensures { IfOk result (λ twice. twice ≡ repeats (eq_by_cmp K.cmp) keys.items) }
{
    let mut seen = BTreeSet::new(alloc);
    for key in keys {
        let added = seen.insert(key)?;
        if !added {
            return Ok(true);
        }
    }
    Ok(false)
}
