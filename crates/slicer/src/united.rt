//! The words of a block of rows, united with those that a set has.

ghost use Rattle.std.specs.Prelude.{◌≡◌, ◌||◌, ◌&&◌, List as Items, ℕ, length, None, OnOk};
ghost use Rattle.std.specs.BTreeMap.{get, get_by_text};
ghost use Rattle.std.specs.Ordering.{nat_cmp};
ghost use Rattle.lanes.specs.Sets.{member, IsUnion, IsDifference};
ghost use Rattle.sql_model.specs.Scope.{same_text};
ghost use Rattle.slicer.specs.inner.Rows.{words_at, words_in, is_in, has_number, has_row};

use crate::row_set::{Numbers, RowSet, grow, put_table};
use lanes::{minus_into, or_into};
use ldv_value::{List, Utf8};
use std::alloc::{AllocError, Global};
use std::mem;

// ---- the words of a block

fn match_lengths(known: &mut List<u64>, fresh: &mut List<u64>) -> Result<(), AllocError>
    ensures lengths { OnOk result (length known.new ≡ length fresh.new) }
    ensures known { OnOk result ((n : ℕ) → member known.new n ≡ member known.old n) }
    ensures fresh { OnOk result ((n : ℕ) → member fresh.new n ≡ member fresh.old n) }
{
    grow(known, fresh.len())?;
    grow(fresh, known.len())
}

fn minus_words(words: &mut List<u64>, others: &List<u64>)
    requires { length words.old ≡ length others.now }
    ensures members { IsDifference words.old others.now words.new }
    ensures long { length words.new ≡ length words.old }
{
    let none = List::new(words.allocator());
    let mut held = mem::replace(words, none).into_vec();
    minus_into(&mut held, others.items());
    *words = List::of_vec(held);
}

fn or_words(words: &mut List<u64>, others: &List<u64>)
    requires { length words.old ≡ length others.now }
    ensures { IsUnion words.old others.now words.new }
{
    let none = List::new(words.allocator());
    let mut held = mem::replace(words, none).into_vec();
    or_into(&mut held, others.items());
    *words = List::of_vec(held);
}

// Takes the known numbers out of others, and adds to the known what is left.
#[tactic(auto, using(crate::proofs::FreshLaws::or_rest))]
fn unite_words(known: &mut List<u64>, fresh: &mut List<u64>) -> Result<(), AllocError>
    ensures fresh { OnOk result (IsDifference fresh.old known.old fresh.new) }
    ensures known { OnOk result (IsUnion fresh.old known.old known.new) }
{
    match_lengths(known, fresh)?;
    minus_words(fresh, known);
    or_words(known, fresh);
    Ok(())
}

// ---- the numbers of a table

// Adds a block that isn't there.
fn unite_new_block(
    alloc: Global,
    numbers: &mut Numbers,
    block: u32,
    fresh: &mut List<u64>,
) -> Result<(), AllocError>
    requires { get nat_cmp numbers.old block ≡ None }
    ensures fresh { OnOk result (IsDifference fresh.old (words_at numbers.old block) fresh.new) }
    ensures numbers { OnOk result ((n : ℕ)
        → has_number numbers.new n ≡ (is_in block fresh.old n || has_number numbers.old n)) }
{
    let mut words = List::new(alloc);
    unite_words(&mut words, fresh)?;
    numbers.insert(block, words)?;
    Ok(())
}

fn unite_block(
    alloc: Global,
    numbers: &mut Numbers,
    block: u32,
    fresh: &mut List<u64>,
) -> Result<(), AllocError>
    ensures fresh { OnOk result (IsDifference fresh.old (words_at numbers.old block) fresh.new) }
    ensures numbers { OnOk result ((n : ℕ)
        → has_number numbers.new n ≡ (is_in block fresh.old n || has_number numbers.old n)) }
{
    match numbers.get_mut(&block) {
        Some(words) => unite_words(words, fresh),
        None => unite_new_block(alloc, numbers, block, fresh),
    }
}

// ---- the rows of all tables

// Adds a block of a table of which no row is there.
fn unite_new_table(
    alloc: Global,
    rows: &mut RowSet,
    table: &Utf8,
    block: u32,
    fresh: &mut List<u64>,
) -> Result<(), AllocError>
    requires { get_by_text rows.old table.now ≡ None }
    ensures fresh { OnOk result (IsDifference fresh.old (words_in rows.old table.now block) fresh.new) }
    ensures rows { OnOk result ((t : Items ℕ) (n : ℕ) → has_row rows.new t n
        ≡ ((same_text table.now t && is_in block fresh.old n) || has_row rows.old t n)) }
{
    let mut numbers = Numbers::new(alloc);
    unite_block(alloc, &mut numbers, block, fresh)?;
    put_table(alloc, rows, table, numbers)
}

/// Takes the rows of a set out of a block's words, and adds the rest to the set.
pub(crate) fn unite_rows(
    alloc: Global,
    rows: &mut RowSet,
    table: &Utf8,
    block: u32,
    fresh: &mut List<u64>,
) -> Result<(), AllocError>
    ensures fresh { OnOk result (IsDifference fresh.old (words_in rows.old table.now block) fresh.new) }
    ensures rows { OnOk result ((t : Items ℕ) (n : ℕ) → has_row rows.new t n
        ≡ ((same_text table.now t && is_in block fresh.old n) || has_row rows.old t n)) }
{
    match rows.get_mut(table.as_str()) {
        Some(numbers) => unite_block(alloc, numbers, block, fresh),
        None => unite_new_table(alloc, rows, table, block, fresh),
    }
}
