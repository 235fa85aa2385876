//! Rows of slots with one slot more. A row is made once it passes.

ghost use Rattle.std.specs.Prelude.{◌≡◌, ◌+◌, ◌++◌, ◌∷◌, List as Items, ℕ, length, map, IfOk, OnOk};
ghost use Rattle.query_eval.specs.inner.Slots.{extended_by, extended_by_all};

use crate::testing::SlotTest;
use lineage::{FlatRows, split_row};
use std::alloc::AllocError;

// Adds the row of a prefix and a slot, if it passes.
fn extend_one<T: SlotTest>(
    made: &mut FlatRows,
    prefix: &[u32],
    slot: u32,
    test: &T,
) -> Result<(), AllocError>
    requires { length prefix.now + 1 ≡ made.old.width }
    ensures width { made.new.width ≡ made.old.width }
    ensures rows { OnOk result ((rest : Items ℕ)
        → made.new.rows ++ extended_by (T.test test.now) prefix.now rest
        ≡ made.old.rows ++ extended_by (T.test test.now) prefix.now (slot ∷ rest)) }
{
    if test.passes(prefix, slot) {
        made.push_extended(prefix, slot)?;
    }
    Ok(())
}

// Adds the rows of a prefix and each of some slots that pass.
fn extend_prefix<T: SlotTest>(
    made: &mut FlatRows,
    prefix: &[u32],
    slots: &[u32],
    test: &T,
) -> Result<(), AllocError>
    requires { length prefix.now + 1 ≡ made.old.width }
    ensures width { made.new.width ≡ made.old.width }
    ensures rows { OnOk result (made.new.rows
        ≡ made.old.rows ++ extended_by (T.test test.now) prefix.now slots.now) }
{
    for slot in slots {
        extend_one(made, prefix, *slot, test)?;
    }
    Ok(())
}

/// Adds the rows of a prefix and each of some slots, which are stored elsewhere, that pass.
pub(crate) fn extend_by<T: SlotTest>(
    made: &mut FlatRows,
    prefix: &[u32],
    slots: &[&u32],
    test: &T,
) -> Result<(), AllocError>
    requires { length prefix.now + 1 ≡ made.old.width }
    ensures width { made.new.width ≡ made.old.width }
    ensures rows { OnOk result (made.new.rows
        ≡ made.old.rows ++ extended_by (T.test test.now) prefix.now (map (λ s. s.now) slots.now)) }
{
    for slot in slots {
        extend_one(made, prefix, **slot, test)?;
    }
    Ok(())
}

/// Each row with each of some slots for which the test passes, in order.
#[tactic(auto, using(lineage::proofs::FlatLaws::level_rules))]
pub(crate) fn scan_level<T: SlotTest>(
    prefixes: &FlatRows,
    slots: &[u32],
    test: &T,
) -> Result<FlatRows, AllocError>
    ensures width { IfOk result (λ made. made.width ≡ prefixes.now.width + 1) }
    ensures rows { IfOk result (λ made. made.rows
        ≡ extended_by_all (T.test test.now) prefixes.now.rows slots.now) }
{
    let width = prefixes.width();
    let mut made = prefixes.wider()?;
    let mut left = prefixes.slots();
    let mut count = prefixes.len();
    'rows: while count > 0 {
        count -= 1;
        let (row, rest) = split_row(left, width);
        extend_prefix(&mut made, row, slots, test)?;
        left = rest;
    }
    Ok(made)
}
