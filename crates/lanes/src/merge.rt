//! One loop over the words of two sets, eight at a time, for every way to merge two words.

ghost use Rattle.std.specs.Prelude.{◌≡◌, ℕ, List, ◌+◌, ◌<◌, ◌≤◌, length, bit_and, bit_or};
ghost use Rattle.std.specs.Simd.Lanes.{zip2, chunk, put_chunk};
ghost use Rattle.lanes.specs.inner.Merged.{without, IsMergedTo};

use std::simd::prelude::*;

/// A way to merge the words of two sets.
pub(crate) trait Merge {
    ghost merge: { ℕ → ℕ → ℕ };

    /// One word.
    fn word(a: u64, b: u64) -> u64
        ensures { result ≡ merge a b };

    /// Eight words.
    fn lanes(a: u64x8, b: u64x8) -> u64x8
        ensures { result ≡ zip2 merge a b };
}

pub(crate) struct Or;

impl Merge for Or {
    ghost merge = { bit_or };

    fn word(a: u64, b: u64) -> u64 {
        a | b
    }

    fn lanes(a: u64x8, b: u64x8) -> u64x8 {
        a | b
    }
}

pub(crate) struct And;

impl Merge for And {
    ghost merge = { bit_and };

    fn word(a: u64, b: u64) -> u64 {
        a & b
    }

    fn lanes(a: u64x8, b: u64x8) -> u64x8 {
        a & b
    }
}

pub(crate) struct Minus;

impl Merge for Minus {
    ghost merge = { without };

    fn word(a: u64, b: u64) -> u64 {
        a & !b
    }

    #[tactic(auto, using(crate::proofs::MergeSteps::lanes_without))]
    fn lanes(a: u64x8, b: u64x8) -> u64x8 {
        a & !b
    }
}

/// Merges the words of `b` into those of `a`.
pub(crate) fn merge_into<M: Merge>(a: &mut [u64], b: &[u64])
    requires { length a.old ≡ length b.now }
    ensures { IsMergedTo M.merge a.old b.now a.new (length a.old) }
{
    let from = merge_blocks::<M>(a, b);
    merge_rest::<M>(a, b, from);
}

// Merges eight words at a time while there are eight, and returns the index of the first word that is left.
#[tactic(auto, using(crate::proofs::MergeSteps::none_merged, crate::proofs::MergeSteps::more_by_eight))]
fn merge_blocks<M: Merge>(a: &mut [u64], b: &[u64]) -> usize
    requires { length a.old ≡ length b.now }
    ensures within { result ≤ length a.old }
    ensures merged { IsMergedTo M.merge a.old b.now a.new result }
{
    let mut at = 0;
    'eights: while a.len() - at >= 8 {
        merge_block::<M>(a, b, at);
        at += 8;
    }
    at
}

// Merges the eight words from an index on.
fn merge_block<M: Merge>(a: &mut [u64], b: &[u64], at: usize)
    requires lengths { length a.old ≡ length b.now }
    requires within { at + 8 ≤ length a.old }
    ensures { a.new ≡ put_chunk at a.old (zip2 M.merge (chunk at 8 a.old) (chunk at 8 b.now)) }
{
    let left = u64x8::from_slice(&a[at..]);
    let right = u64x8::from_slice(&b[at..]);
    M::lanes(left, right).copy_to_slice(&mut a[at..]);
}

// Merges the words from an index on, one by one.
#[tactic(auto, using(crate::proofs::MergeSteps::more_by_one))]
fn merge_rest<M: Merge>(a: &mut [u64], b: &[u64], from: usize)
    requires lengths { length a.old ≡ length b.now }
    requires within { from ≤ length a.old }
    ensures { (start : List ℕ) → IsMergedTo M.merge start b.now a.old from
        → IsMergedTo M.merge start b.now a.new (length a.old) }
{
    for place in from..a.len() {
        a[place] = M::word(a[place], b[place]);
    }
}
