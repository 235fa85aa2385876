//! The rows that a statement is the first to need.

ghost use Rattle.std.specs.Prelude.{◌≡◌, ◌==◌, ◌||◌, ◌≤◌, ◌<◌, ◌%◌, ◌++◌, List as Items, ℕ, take, length};
ghost use Rattle.std.specs.Prelude.{IfOk, true, not};
ghost use Rattle.std.specs.List.{list_all, list_any};
ghost use Rattle.lanes.specs.Sets.{member};
ghost use Rattle.slicer.specs.inner.Rows.{asks, are_of_block, has_row, is_of_block};

use crate::row_set::{BLOCK_ROWS, RowSet, set_bit};
use crate::united::unite_rows;
use ldv_value::List;
use sql_model::Need;
use std::alloc::{AllocError, Global};

/// The words of a block, with 64 numbers each.
const BLOCK_WORDS: usize = 64;

// ---- the reads of one block of a table

// Whether two reads are of rows of one block of one table.
fn is_of_block(head: &Need, need: &Need) -> bool
    ensures { result ≡ is_of_block head.now need.now }
{
    head.member.table == need.member.table
        && head.member.row / BLOCK_ROWS == need.member.row / BLOCK_ROWS
}

// How many of the reads, from the first on, are of the block of another.
fn count_of_block(head: &Need, needs: &[Need]) -> usize
    ensures within { result ≤ length needs.now }
    ensures of_block { list_all (is_of_block head.now) (take result needs.now) ≡ true }
{
    for place in 0..needs.len() {
        if !is_of_block(head, &needs[place]) {
            return place;
        }
    }
    needs.len()
}

// How many of the reads, from the first on, are of one block.
fn count_together(needs: &[Need]) -> usize
    ensures within { result ≤ length needs.now }
    ensures some { 0 < length needs.now → 0 < result }
    ensures of_block { are_of_block (take result needs.now) ≡ true }
{
    match needs {
        [] => 0,
        [head, others @ ..] => 1 + count_of_block(head, others),
    }
}

/// The reads of one block, from the first on, and the others.
pub(crate) fn split_block(needs: &[Need]) -> (&[Need], &[Need])
    ensures parts { result.0.now ++ result.1.now ≡ needs.now }
    ensures shorter { 0 < length needs.now → length result.1.now < length needs.now }
    ensures of_block { are_of_block result.0.now ≡ true }
{
    needs.split_at(count_together(needs))
}

// ---- their rows as words

// The places of the rows in their block, as words.
fn words_of(alloc: Global, needs: &[Need]) -> Result<List<u64>, AllocError>
    ensures { IfOk result (λ words. (n : ℕ)
        → member words n ≡ list_any (λ need. n == need.member.row % 4096) needs.now) }
{
    let mut words = List::with_capacity(alloc, BLOCK_WORDS)?;
    for need in needs {
        set_bit(&mut words, need.member.row % BLOCK_ROWS)?;
    }
    Ok(words)
}

// The rows that reads of one block, that of `head`, need and no read before did, as words.
fn fresh_in_block(
    alloc: Global,
    needed: &mut RowSet,
    head: &Need,
    needs: &[Need],
) -> Result<List<u64>, AllocError>
    requires { list_all (is_of_block head.now) needs.now ≡ true }
    ensures needed { IfOk result (λ _. (table : Items ℕ) (row : ℕ)
        → has_row needed.new table row ≡ (asks table row needs.now || has_row needed.old table row)) }
    ensures fresh { IfOk result (λ words. (table : Items ℕ) (row : ℕ) → asks table row needs.now ≡ true
        → member words (row % 4096) ≡ not (has_row needed.old table row)) }
{
    let mut words = words_of(alloc, needs)?;
    let block = head.member.row / BLOCK_ROWS;
    unite_rows(alloc, needed, &head.member.table, block, &mut words)?;
    Ok(words)
}

/// The rows of one block that these reads need and no earlier read did, as words. They are added to `needed`.
pub(crate) fn fresh_rows(
    alloc: Global,
    needed: &mut RowSet,
    needs: &[Need],
) -> Result<List<u64>, AllocError>
    requires { are_of_block needs.now ≡ true }
    ensures needed { IfOk result (λ _. (table : Items ℕ) (row : ℕ)
        → has_row needed.new table row ≡ (asks table row needs.now || has_row needed.old table row)) }
    ensures fresh { IfOk result (λ words. (table : Items ℕ) (row : ℕ) → asks table row needs.now ≡ true
        → member words (row % 4096) ≡ not (has_row needed.old table row)) }
{
    match needs {
        [] => Ok(List::new(alloc)),
        [head, _others @ ..] => fresh_in_block(alloc, needed, head, needs),
    }
}
