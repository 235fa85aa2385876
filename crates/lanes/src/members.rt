//! The number of members of a set, and the next member.

ghost use Rattle.std.specs.Prelude.{◌≡◌, ℕ, ◌+◌, ◌*◌, ◌^◌, ◌<◌, ◌≤◌, length, drop, sum_by, count_ones};
ghost use Rattle.std.specs.Prelude.{slice_index, true, IsTrue};
ghost use Rattle.std.specs.Int.{bit_at};
ghost use Rattle.std.specs.Simd.Lanes.{chunk};
ghost use Rattle.lanes.specs.Sets.{member, size, IsNext, IsLowest};

use std::simd::prelude::*;

/// The number of members of a set.
#[tactic(auto, using(crate::proofs::CountLaws::size_is, crate::proofs::CountLaws::ones_bound))]
pub fn count(a: &[u64]) -> u64
    requires { length a.now < 2 ^ 57 }
    ensures { result ≡ size a.now }
{
    let mut total = 0;
    let mut at = 0;
    'eights: while a.len() - at >= 8 {
        total += count_block(a, at);
        at += 8;
    }
    total + count_rest(a, at)
}

// The number of bits that are set in the eight words from an index on.
fn count_block(a: &[u64], at: usize) -> u64
    requires { at + 8 ≤ length a.now }
    ensures { result ≡ sum_by count_ones (chunk at 8 a.now) }
{
    u64x8::from_slice(&a[at..]).count_ones().reduce_sum()
}

// The number of bits that are set in the words from an index on.
fn count_rest(a: &[u64], from: usize) -> u64
    requires within { from ≤ length a.now }
    requires few { length a.now < 2 ^ 57 }
    ensures { result ≡ sum_by count_ones (drop from a.now) }
{
    let mut total = 0;
    for place in from..a.len() {
        total += u64::from(a[place].count_ones());
    }
    total
}

/// The least member that is at least `from`; `None` if there is none.
pub fn next_one(a: &[u64], from: u64) -> Option<u64>
    requires { length a.now < 2 ^ 57 }
    ensures { IsNext a.now from result }
{
    let place = from / 64;
    if place >= a.len() as u64 {
        return None;
    }
    match lowest_from(a[place as usize], from % 64) {
        Some(bit) => Some(place * 64 + bit),
        None => next_after(a, place as usize + 1),
    }
}

/// The number after a member, from which `next_one` finds the next.
#[tactic(auto, using(crate::proofs::SetLaws::slot_within))]
pub fn after_member(a: &[u64], number: u64) -> u64
    requires few { length a.now < 2 ^ 57 }
    requires set { member a.now number ≡ true }
    ensures next { result ≡ number + 1 }
    ensures within { result ≤ 64 * length a.now }
{
    number + 1
}

// The lowest bit that is set in a word, from a bit on.
fn lowest_from(word: u64, from: u64) -> Option<u64>
    requires { from < 64 }
    ensures { IsLowest word from result }
{
    let high = word & (u64::MAX << from);
    if high == 0 {
        None
    } else {
        Some(u64::from(high.trailing_zeros()))
    }
}

// The least member in the words from an index on.
fn next_after(a: &[u64], place: usize) -> Option<u64>
    requires within { place ≤ length a.now }
    requires few { length a.now < 2 ^ 57 }
    ensures { IsNext a.now (place * 64) result }
{
    let next = next_word(a, skip_blocks(a, place));
    if next == a.len() {
        return None;
    }
    Some(next as u64 * 64 + u64::from(a[next].trailing_zeros()))
}

// Skips words without a bit set, eight at a time.
fn skip_blocks(a: &[u64], from: usize) -> usize
    requires { from ≤ length a.now }
    ensures onward { from ≤ result }
    ensures within { result ≤ length a.now }
    ensures empty { (k : ℕ) → from ≤ k → k < result → slice_index a.now k ≡ 0 }
{
    let mut at = from;
    'eights: while a.len() - at >= 8 && is_empty_block(a, at) {
        at += 8;
    }
    at
}

// Whether the eight words from an index on have no bit set.
fn is_empty_block(a: &[u64], at: usize) -> bool
    requires { at + 8 ≤ length a.now }
    ensures { IsTrue result → (k : ℕ) → at ≤ k → k < at + 8 → slice_index a.now k ≡ 0 }
{
    u64x8::from_slice(&a[at..])
        .simd_ne(u64x8::splat(0))
        .to_bitmask()
        == 0
}

// The index of the next word with a bit set, from an index on, or the number of words.
fn next_word(a: &[u64], from: usize) -> usize
    requires { from ≤ length a.now }
    ensures onward { from ≤ result }
    ensures within { result ≤ length a.now }
    ensures empty { (k : ℕ) → from ≤ k → k < result → slice_index a.now k ≡ 0 }
    ensures found { result < length a.now → 0 < slice_index a.now result }
{
    for next in from..a.len() {
        if a[next] != 0 {
            return next;
        }
    }
    a.len()
}
