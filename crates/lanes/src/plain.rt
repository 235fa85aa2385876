//! The same kernels, number by number, proved against the same definitions: a reference for the fast ones.

ghost use Rattle.std.specs.Prelude.{◌≡◌, ◌==◌, ◌||◌, ◌&&◌, ℕ, ◌+◌, ◌*◌, ◌/◌, ◌^◌, ◌<◌, length};
ghost use Rattle.std.specs.Prelude.{slice_index, nat_lt};
ghost use Rattle.lanes.specs.Sets.{member, size, IsNext, IsUnion, IsIntersection, IsDifference};
ghost use Rattle.lanes.specs.Selection.{IsSelection, holds_at};

use crate::select::compares;
use ldv_value::Cmp;

/// `or_into`, word by word.
pub fn plain_or_into(a: &mut [u64], b: &[u64])
    requires { length a.old ≡ length b.now }
    ensures { IsUnion a.old b.now a.new }
{
    for place in 0..a.len() {
        a[place] |= b[place];
    }
}

/// `and_into`, word by word.
pub fn plain_and_into(a: &mut [u64], b: &[u64])
    requires { length a.old ≡ length b.now }
    ensures { IsIntersection a.old b.now a.new }
{
    for place in 0..a.len() {
        a[place] &= b[place];
    }
}

/// `minus_into`, word by word.
pub fn plain_minus_into(a: &mut [u64], b: &[u64])
    requires { length a.old ≡ length b.now }
    ensures { IsDifference a.old b.now a.new }
{
    for place in 0..a.len() {
        a[place] &= !b[place];
    }
}

/// `count`, number by number.
pub fn plain_count(a: &[u64]) -> u64
    requires { length a.now < 2 ^ 57 }
    ensures { result ≡ size a.now }
{
    let mut total = 0;
    for number in 0..a.len() as u64 * 64 {
        total += u64::from(is_member(a, number));
    }
    total
}

/// `next_one`, number by number.
pub fn plain_next_one(a: &[u64], from: u64) -> Option<u64>
    requires { length a.now < 2 ^ 57 }
    ensures { IsNext a.now from result }
{
    for number in from..a.len() as u64 * 64 {
        if is_member(a, number) {
            return Some(number);
        }
    }
    None
}

/// `select_i64`, index by index.
pub fn plain_select_i64(op: Cmp, column: &[i64], constant: i64, mask: &mut [u64])
    requires { length mask.old ≡ (length column.now + 63) / 64 }
    ensures { IsSelection op column.now constant mask.new }
{
    clear(mask);
    for place in 0..column.len() {
        select_place(op, column, constant, mask, place);
    }
}

// Adds an index to the set if the comparison holds there.
fn select_place(op: Cmp, column: &[i64], constant: i64, mask: &mut [u64], place: usize)
    requires within { place < length column.now }
    requires room { place / 64 < length mask.old }
    ensures { (n : ℕ) → member mask.new n
        ≡ ((n == place && holds_at op column.now constant place) || member mask.old n) }
{
    if !compares(op, column[place], constant) {
        return;
    }
    insert(mask, place);
}

// Whether a number is in the set.
fn is_member(a: &[u64], number: u64) -> bool
    requires { number / 64 < length a.now }
    ensures { result ≡ member a.now number }
{
    (a[(number / 64) as usize] >> (number % 64)) & 1 == 1
}

// Removes every number from the set.
fn clear(a: &mut [u64])
    ensures { (k : ℕ) → slice_index a.new k ≡ 0 }
{
    for word in a.iter_mut() {
        *word = 0;
    }
}

// Adds a number to the set.
fn insert(a: &mut [u64], number: usize)
    requires { number / 64 < length a.old }
    ensures { (n : ℕ) → member a.new n ≡ (n == number || member a.old n) }
{
    a[number / 64] |= 1 << (number % 64);
}
