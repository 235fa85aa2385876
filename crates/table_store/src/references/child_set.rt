//! Numbers under keys of one type, many under one: pairs of a key and a number, in order.

ghost use Rattle.std.specs.Prelude.{◌≡◌, ℕ, true, false, IsTrue, OnOk, if◌then◌else◌, Some, None};
ghost use Rattle.std.specs.Ordering.{is_eq, nat_cmp, ordering_then};
ghost use Rattle.table_store.specs.inner.ChildPairs.{has_pair, IsFirstFrom};

use std::alloc::{AllocError, Global};
use std::cmp::Ord;
use std::collections::BTreeSet;

/// Pairs of a key and a number.
#[derive(Drop)]
pub(crate) struct ChildSet<K: Ord> {
    pub(crate) held: BTreeSet<(K, u32)>,
}

impl<K: Ord + Drop> ChildSet<K> {
    /// A set with no pair. It takes no memory.
    pub(crate) fn new(alloc: Global) -> ChildSet<K>
        ensures { (q : K) (n : ℕ) → has_pair K.cmp result.held q n ≡ false }
    {
        ChildSet {
            held: BTreeSet::new(alloc),
        }
    }

    /// Whether there is no pair.
    pub(crate) fn is_empty(&self) -> bool
        ensures { IsTrue result → (q : K) (n : ℕ) → has_pair K.cmp self.now.held q n ≡ false }
    {
        self.held.is_empty()
    }

    /// Adds a pair.
    pub(crate) fn add(&mut self, key: K, number: u32) -> Result<(), AllocError>
        ensures kept { (q : K) (n : ℕ) → has_pair K.cmp self.old.held q n ≡ true
            → has_pair K.cmp self.new.held q n ≡ true }
        ensures ok { OnOk result (has_pair K.cmp self.new.held key number ≡ true) }
    {
        self.held.insert((key, number))?;
        Ok(())
    }

    /// Removes a pair. It takes no memory.
    pub(crate) fn remove(&mut self, key: K, number: u32)
        ensures { (q : K) (n : ℕ) → is_eq (ordering_then (K.cmp key q) (nat_cmp number n)) ≡ false
            → has_pair K.cmp self.old.held q n ≡ true → has_pair K.cmp self.new.held q n ≡ true }
    {
        let pair = (key, number);
        self.held.remove(&pair);
    }

    /// The least number under a key that is at least `from`. It takes no memory.
    pub(crate) fn first_from(&self, key: K, from: u32) -> Option<u32>
        ensures { IsFirstFrom (has_pair K.cmp self.now.held key) from result }
    {
        let start = (key, from);
        let mut pairs = self.held.range(&start..);
        match pairs.next() {
            None => None,
            Some(pair) => number_at(pair, &start.0),
        }
    }
}

// The number of a pair, if it has the key.
fn number_at<K: Ord>(pair: &(K, u32), key: &K) -> Option<u32>
    ensures { result ≡ (if is_eq (K.cmp pair.now.0 key.now) then Some pair.now.1 else None) }
{
    if pair.0.cmp(key).is_eq() {
        Some(pair.1)
    } else {
        None
    }
}
