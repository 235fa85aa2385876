//! Numbers of rows under keys of one type.

ghost use Rattle.std.specs.Prelude.{◌≡◌, ℕ, ◌+◌, ◌^◌, ◌<◌, cond, Option, Some, None, OnOk, OnErr, IfOk};
ghost use Rattle.std.specs.Prelude.{IsSome, IfSome};
ghost use Rattle.std.specs.Option.{option_map, option_or};
ghost use Rattle.std.specs.BTreeMap.{get, is_at};
ghost use Rattle.std.specs.Map.{update_all};
ghost use Rattle.std.specs.Ordering.{eq_by_cmp};
ghost use Rattle.table_store.specs.KeyIndex.{in_place};

use ldv_value::Values;
use sql_model::RowKey;
use std::alloc::{AllocError, Global};
use std::cmp::Ord;
use std::collections::BTreeMap;

/// A key that can make a copy equal to itself.
pub(crate) trait CopyKey: Drop {
    /// A copy that is equal to the key.
    fn copy_key(&self) -> Result<Self, AllocError>
        ensures { IfOk result (λ copy. copy ≡ self.now) };
}

impl CopyKey for i64 {
    fn copy_key(&self) -> Result<Self, AllocError> {
        Ok(*self)
    }
}

impl CopyKey for Values {
    fn copy_key(&self) -> Result<Self, AllocError> {
        self.copy()
    }
}

impl CopyKey for RowKey {
    fn copy_key(&self) -> Result<Self, AllocError> {
        let values = self.values.copy()?;
        Ok(RowKey { values })
    }
}

/// A number for each of some keys.
#[derive(Drop)]
pub(crate) struct KeyMap<K: Ord> {
    pub(crate) held: BTreeMap<K, u32>,
}

impl<K: Ord + CopyKey> KeyMap<K> {
    /// A map with no key. It takes no memory.
    pub(crate) fn new(alloc: Global) -> KeyMap<K>
        ensures { (q : K) → get K.cmp result.held q ≡ None }
    {
        KeyMap {
            held: BTreeMap::new(alloc),
        }
    }

    /// A map of keys with their numbers. If keys are equal, the last number stays. Its nodes are full, unlike
    /// the half-full nodes of a map after insertions of rising keys.
    pub(crate) fn of_pairs(alloc: Global, pairs: Vec<(K, u32)>) -> Result<KeyMap<K>, AllocError>
        ensures { IfOk result (λ made. (q : K) → get K.cmp made.held q
            ≡ update_all (eq_by_cmp K.cmp) (λ key. None) pairs.items q) }
    {
        let held = pairs.into_iter().collect(alloc)?;
        Ok(KeyMap { held })
    }

    /// The number under a key.
    pub(crate) fn number(&self, key: &K) -> Option<u32>
        ensures { result ≡ get K.cmp self.now.held key.now }
    {
        self.held.get(key).copied()
    }

    /// Stores a number under a key, and replaces the number that is there.
    pub(crate) fn put(&mut self, key: K, number: u32) -> Result<(), AllocError>
        ensures ok { OnOk result ((q : K)
            → get K.cmp self.new.held q ≡ cond (is_at (K.cmp key) q) (Some number)
            (get K.cmp self.old.held q)) }
        ensures err { OnErr result ((q : K)
            → get K.cmp self.new.held q ≡ get K.cmp self.old.held q) }
    {
        self.held.insert(key, number)?;
        Ok(())
    }

    /// Changes the number under a key, if it has one. It takes no memory.
    pub(crate) fn set(&mut self, key: &K, number: u32)
        ensures { (q : K) → get K.cmp self.new.held q
            ≡ cond (is_at (K.cmp key.now) q) (in_place (Some number) (get K.cmp self.old.held q))
            (get K.cmp self.old.held q) }
    {
        match self.held.get_mut(key) {
            Some(held) => *held = number,
            None => {}
        }
    }

    /// Stores a number under a key that has none. A key that has a number keeps it.
    pub(crate) fn open(&mut self, key: &K, number: u32) -> Result<(), AllocError>
        ensures kept { (q : K) (n : ℕ) → get K.cmp self.old.held q ≡ Some n
            → get K.cmp self.new.held q ≡ Some n }
        ensures ok { OnOk result (IsSome (get K.cmp self.new.held key.now)) }
    {
        if self.number(key).is_some() {
            return Ok(());
        }
        let copy = key.copy_key()?;
        self.put(copy, number)?;
        Ok(())
    }

    /// Enters the keys of another map with their numbers. A key that has a number here keeps it.
    pub(crate) fn open_all(&mut self, other: &KeyMap<K>) -> Result<(), AllocError>
        ensures kept { (q : K) (n : ℕ) → get K.cmp self.old.held q ≡ Some n
            → get K.cmp self.new.held q ≡ Some n }
        ensures ok { OnOk result ((q : K) → IsSome (get K.cmp other.now.held q)
            → IsSome (get K.cmp self.new.held q)) }
    {
        for (key, number) in other.held.iter() {
            match self.open(key, *number) {
                Ok(()) => {}
                Err(refused) => return Err(refused),
            }
        }
        Ok(())
    }

    /// Gives each key of another map the number that it has there, if it has a number here. It takes no
    /// memory.
    pub(crate) fn set_all(&mut self, other: KeyMap<K>)
        ensures { (q : K) → get K.cmp self.new.held q
            ≡ in_place (get K.cmp other.held q) (get K.cmp self.old.held q) }
    {
        let KeyMap { held } = other;
        let mut left = held;
        while let Some((key, number)) = left.pop_first() {
            self.set(&key, number);
        }
    }

    /// Gives each key of new rows its row's number, which is the row's place after `next`. On `AllocError`
    /// some of them may have it already; no other key has changed.
    pub(crate) fn enter(&mut self, places: BTreeMap<K, usize>, next: u32) -> Result<(), AllocError>
        requires { (q : K) → IfSome (get K.cmp places q) (λ place. next + place < 2 ^ 32) }
        ensures others { (q : K) → get K.cmp places q ≡ None
            → get K.cmp self.new.held q ≡ get K.cmp self.old.held q }
        ensures ok { OnOk result ((q : K) → get K.cmp self.new.held q
            ≡ option_or (option_map (λ place. next + place) (get K.cmp places q))
            (get K.cmp self.old.held q)) }
    {
        let mut left = places;
        while let Some((key, place)) = left.pop_first() {
            match self.put(key, next + place as u32) {
                Ok(()) => {}
                Err(refused) => return Err(refused),
            }
        }
        Ok(())
    }
}
