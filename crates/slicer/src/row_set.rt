//! Sets of rows, as bits.

ghost use Rattle.std.specs.Prelude.{◌≡◌, ◌==◌, ◌||◌, ◌&&◌, ◌<◌, ◌≤◌, ◌/◌, List as Items, ℕ, not, length};
ghost use Rattle.std.specs.Prelude.{Some, None, OnOk, bytes_eq, cond};
ghost use Rattle.std.specs.BTreeMap.{get, get_by_text};
ghost use Rattle.std.specs.Ordering.{nat_cmp};
ghost use Rattle.lanes.specs.Sets.{member};
ghost use Rattle.slicer.specs.inner.Rows.{has_number, has_row, is_row};

use ldv_value::{List, Utf8};
use std::alloc::{AllocError, Global};
use std::collections::BTreeMap;

/// The numbers of a block.
pub(crate) const BLOCK_ROWS: u32 = 4_096;

/// Numbers in blocks of 4,096: bit i of word j of block b is the number 4,096 * b + 64 * j + i. A block has
/// the words up to the word of its greatest number, and maybe more, so a number far from all others takes 512
/// bytes.
pub(crate) type Numbers = BTreeMap<u32, List<u64>>;

/// Rows by table and number. A table's name is copied once.
pub(crate) type RowSet = BTreeMap<String, Numbers>;

// ---- the bits of a block

/// Whether a number is in a block.
pub(crate) fn has_bit(words: &List<u64>, number: u32) -> bool
    ensures { result ≡ member words.now number }
{
    let place = (number / 64) as usize;
    if place >= words.len() {
        return false;
    }
    (words.items()[place] >> (number % 64)) & 1 == 1
}

/// Adds empty words until there are `count`, if there are fewer.
#[tactic(auto, using(crate::proofs::RowSetLaws::padded))]
pub(crate) fn grow(words: &mut List<u64>, count: usize) -> Result<(), AllocError>
    ensures room { OnOk result (count ≤ length words.new) }
    ensures exact { OnOk result (length words.old ≤ count → length words.new ≡ count) }
    ensures bits { OnOk result ((n : ℕ) → member words.new n ≡ member words.old n) }
{
    while words.len() < count {
        words.push(0)?;
    }
    Ok(())
}

fn set_there(words: &mut List<u64>, number: u32)
    requires { number / 64 < length words.old }
    ensures { (n : ℕ) → member words.new n ≡ (n == number || member words.old n) }
{
    let place = (number / 64) as usize;
    let word = words.items()[place];
    words.replace(place, word | (1 << (number % 64)));
}

/// Adds a number to a block.
pub(crate) fn set_bit(words: &mut List<u64>, number: u32) -> Result<(), AllocError>
    ensures { OnOk result ((n : ℕ) → member words.new n ≡ (n == number || member words.old n)) }
{
    grow(words, (number / 64) as usize + 1)?;
    set_there(words, number);
    Ok(())
}

fn clear_bit(words: &mut List<u64>, number: u32)
    ensures { (n : ℕ) → member words.new n ≡ (not (n == number) && member words.old n) }
{
    let place = (number / 64) as usize;
    if place >= words.len() {
        return;
    }
    let word = words.items()[place];
    words.replace(place, word & !(1 << (number % 64)));
}

// ---- the numbers of a table

fn has_number(numbers: &Numbers, number: u32) -> bool
    ensures { result ≡ has_number numbers.now number }
{
    match numbers.get(&(number / BLOCK_ROWS)) {
        None => false,
        Some(words) => has_bit(words, number % BLOCK_ROWS),
    }
}

// Adds a number whose block isn't there.
fn add_block(alloc: Global, numbers: &mut Numbers, number: u32) -> Result<(), AllocError>
    requires { get nat_cmp numbers.old (number / 4096) ≡ None }
    ensures { OnOk result ((n : ℕ) → has_number numbers.new n ≡ (number == n || has_number numbers.old n)) }
{
    let mut words = List::new(alloc);
    set_bit(&mut words, number % BLOCK_ROWS)?;
    numbers.insert(number / BLOCK_ROWS, words)?;
    Ok(())
}

fn add_number(alloc: Global, numbers: &mut Numbers, number: u32) -> Result<(), AllocError>
    ensures { OnOk result ((n : ℕ) → has_number numbers.new n ≡ (number == n || has_number numbers.old n)) }
{
    match numbers.get_mut(&(number / BLOCK_ROWS)) {
        Some(words) => set_bit(words, number % BLOCK_ROWS),
        None => add_block(alloc, numbers, number),
    }
}

fn remove_number(numbers: &mut Numbers, number: u32)
    ensures { (n : ℕ) → has_number numbers.new n ≡ (not (number == n) && has_number numbers.old n) }
{
    match numbers.get_mut(&(number / BLOCK_ROWS)) {
        Some(words) => clear_bit(words, number % BLOCK_ROWS),
        None => {}
    }
}

// ---- the rows of all tables

/// Whether a row is in the set.
pub(crate) fn has_row(rows: &RowSet, table: &Utf8, row: u32) -> bool
    ensures { result ≡ has_row rows.now table.now row }
{
    match rows.get(table.as_str()) {
        None => false,
        Some(numbers) => has_number(numbers, row),
    }
}

/// Puts the numbers of a table, and copies its name.
pub(crate) fn put_table(
    alloc: Global,
    rows: &mut RowSet,
    table: &Utf8,
    numbers: Numbers,
) -> Result<(), AllocError>
    ensures { OnOk result ((t : Items ℕ) → get_by_text rows.new t
        ≡ cond (bytes_eq table.now t) (Some numbers) (get_by_text rows.old t)) }
{
    let key = String::from_str(alloc, table.as_str())?;
    rows.insert(key, numbers)?;
    Ok(())
}

// Adds a row of a table of which none is there.
fn add_table(alloc: Global, rows: &mut RowSet, table: &Utf8, row: u32) -> Result<(), AllocError>
    requires { get_by_text rows.old table.now ≡ None }
    ensures { OnOk result ((t : Items ℕ) (n : ℕ)
        → has_row rows.new t n ≡ (is_row table.now row t n || has_row rows.old t n)) }
{
    let mut numbers = Numbers::new(alloc);
    add_number(alloc, &mut numbers, row)?;
    put_table(alloc, rows, table, numbers)
}

/// Adds a row.
pub(crate) fn add_row(
    alloc: Global,
    rows: &mut RowSet,
    table: &Utf8,
    row: u32,
) -> Result<(), AllocError>
    ensures { OnOk result ((t : Items ℕ) (n : ℕ)
        → has_row rows.new t n ≡ (is_row table.now row t n || has_row rows.old t n)) }
{
    match rows.get_mut(table.as_str()) {
        Some(numbers) => add_number(alloc, numbers, row),
        None => add_table(alloc, rows, table, row),
    }
}

/// Takes a row out, if it is there.
pub(crate) fn remove_row(rows: &mut RowSet, table: &Utf8, row: u32)
    ensures { (t : Items ℕ) (n : ℕ)
        → has_row rows.new t n ≡ (not (is_row table.now row t n) && has_row rows.old t n) }
{
    match rows.get_mut(table.as_str()) {
        Some(numbers) => remove_number(numbers, row),
        None => {}
    }
}
