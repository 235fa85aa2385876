//! A set of numbers that are made one after another.

ghost use Rattle.std.specs.Prelude.{◌≡◌, ◌+◌, ◌^◌, ◌<◌, ◌≤◌, ◌↔◌, [], ◌∷◌, ◌++◌, length, find, nat_lt};
ghost use Rattle.std.specs.Prelude.{IfOk, OnOk, OnErr, IsTrue, true, false, slice_get, slice_set};
ghost use Rattle.std.specs.Prelude.{slice_index_or, if◌then◌else◌};
ghost use Rattle.ready_set.specs.Ready.{numbers, count_below, next_round, at_round};
ghost use Rattle.ready_set.specs.inner.Tree.{IsTree, SetsLeaf};

use crate::tree::{count_before, leaf_at, set_leaf, widen_tree};
use std::alloc::{AllocError, Global};
use std::marker::Model;

/// A set of numbers, which are made one after another from 0 on, at most 2^30. Contracts see a flag for each
/// number made so far, and the capacity `room`.
#[derive(Drop)]
pub struct ReadySet {
    // a tree with a leaf for each number that there is room for
    counts: Vec<u32>,
    room: usize,
    // the levels below the root: the room is 2 ^ height
    height: u32,
    made: usize,
}

impl Model for ReadySet {
    ghost use Rattle.ready_set.specs.Ready.{ReadyView};

    ghost Value = { ReadyView };

    ghost use Rattle.ready_set.specs.inner.Seen.{view_of, IsWhole};

    ghost view = { view_of };

    ghost invariant = { IsWhole };
}

impl ReadySet {
    /// The empty set, in which no number is made yet, with room for one.
    pub fn new(alloc: Global) -> Result<ReadySet, AllocError>
        ensures { IfOk result (λ set. set ≡ record { flags = []; room = 1 }) }
    {
        Ok(ReadySet {
            counts: vec![in alloc; 0u32; 2]?,
            room: 1,
            height: 0,
            made: 0,
        })
    }

    /// Makes room for the next number. On `AllocError` the set is as it was.
    pub fn reserve(&mut self) -> Result<(), AllocError>
        requires { length self.old.flags < 2 ^ 30 }
        ensures flags { self.new.flags ≡ self.old.flags }
        ensures room { OnOk result (length self.new.flags < self.new.room) }
        ensures err { OnErr result (self.new ≡ self.old) }
    {
        if self.made < self.room {
            return Ok(());
        }
        let wide = widen_tree(*self.counts.allocator(), &self.counts, self.room)?;
        self.counts = wide;
        self.room *= 2;
        self.height += 1;
        Ok(())
    }

    /// Makes the next number, and puts it into the set if `is_in`. There must be room for it (`reserve`).
    pub fn push(&mut self, is_in: bool)
        requires { length self.old.flags < self.old.room }
        ensures { self.new ≡ record self.old { flags = self.old.flags ++ is_in ∷ [] } }
    {
        put(&mut self.counts, self.room, self.made, is_in);
        self.made += 1;
    }

    /// Puts a number into the set if `is_in`, and else takes it out. It must be made.
    pub fn set(&mut self, number: u32, is_in: bool)
        requires { number < length self.old.flags }
        ensures { self.new ≡ record self.old { flags = slice_set self.old.flags number is_in } }
    {
        put(&mut self.counts, self.room, number as usize, is_in);
    }

    /// Puts a number, which must be made, into the set; it may be there already.
    pub fn add(&mut self, number: u32)
        requires { number < length self.old.flags }
        ensures { self.new ≡ record self.old { flags = slice_set self.old.flags number true } }
    {
        self.set(number, true);
    }

    /// Takes a number, which must be made, out of the set; it may be absent.
    pub fn remove(&mut self, number: u32)
        requires { number < length self.old.flags }
        ensures { self.new ≡ record self.old { flags = slice_set self.old.flags number false } }
    {
        self.set(number, false);
    }

    /// Whether a number is in the set. A number that isn't made yet is not.
    pub fn contains(&self, number: u32) -> bool
        ensures { result ≡ slice_index_or self.now.flags number false }
    {
        let number = number as usize;
        number < self.made && self.counts[self.room + number] == 1
    }

    /// How many numbers are made, in the set or not.
    pub fn made_count(&self) -> u32
        ensures made { result ≡ length self.now.flags }
        ensures few { length self.now.flags ≤ 2 ^ 30 }
    {
        self.made as u32
    }

    /// How many numbers are in the set.
    pub fn len(&self) -> u32
        ensures { result ≡ length (numbers self.now.flags) }
    {
        self.counts[1]
    }

    /// Whether no number is in the set.
    pub fn is_empty(&self) -> bool
        ensures { IsTrue result ↔ (numbers self.now.flags ≡ []) }
    {
        self.len() == 0
    }

    /// The least number in the set above `last`, or else the least of all. If that is `last + 1`, this takes
    /// no search. The set mustn't be empty.
    pub fn pick_next(&self, last: u32) -> u32
        requires { 0 < length (numbers self.now.flags) }
        ensures { result ≡ next_round last (numbers self.now.flags) }
    {
        match self.find_above(last) {
            Some(number) => number,
            None => self.number_at(0),
        }
    }

    /// The number at the index `k`, modulo the length, of the sorted list. The set mustn't be empty.
    pub fn pick_at(&self, k: u64) -> u32
        requires { 0 < length (numbers self.now.flags) }
        ensures { result ≡ at_round (numbers self.now.flags) k }
    {
        self.number_at((k % u64::from(self.len())) as u32)
    }

    // The least number in the set above a number; `None` where there is none.
    fn find_above(&self, last: u32) -> Option<u32>
        ensures { result ≡ find (nat_lt last) (numbers self.now.flags) }
    {
        if self.has_next(last) {
            Some(last + 1)
        } else {
            self.search_above(last)
        }
    }

    // Whether the number after one is in the set.
    fn has_next(&self, last: u32) -> bool
        ensures few { result ≡ true → last < 2 ^ 30 }
        ensures there { result ≡ true → slice_index_or self.now.flags (last + 1) false ≡ true }
    {
        if last < self.made_count() {
            self.contains(last + 1)
        } else {
            false
        }
    }

    fn search_above(&self, last: u32) -> Option<u32>
        ensures { result ≡ find (nat_lt last) (numbers self.now.flags) }
    {
        let next = last as usize + 1;
        if next < self.made {
            self.get(self.count_before(next))
        } else {
            None
        }
    }

    // The number at an index of the sorted list of the numbers, from 0; `None` at and past its end.
    fn get(&self, k: u32) -> Option<u32>
        ensures { result ≡ slice_get (numbers self.now.flags) k }
    {
        if k < self.len() {
            Some(self.number_at(k))
        } else {
            None
        }
    }

    // The number at an index of the sorted list.
    fn number_at(&self, k: u32) -> u32
        requires { k < length (numbers self.now.flags) }
        ensures { slice_get (numbers self.now.flags) k ≡ Some result }
    {
        (leaf_at(&self.counts, self.height, k) - self.room) as u32
    }

    // How many numbers below one are in the set.
    fn count_before(&self, number: usize) -> u32
        requires { number < length self.now.flags }
        ensures { result ≡ count_below self.now.flags number }
    {
        count_before(&self.counts, self.height, self.room + number)
    }
}

// Counts the leaf of a number that is in the set, and doesn't count that of one that is not.
fn put(counts: &mut Vec<u32>, room: usize, number: usize, is_in: bool)
    requires tree { IsTree room counts.old.items }
    requires few { room ≤ 2 ^ 30 }
    requires within { number < room }
    ensures { SetsLeaf room (room + number) (if is_in then 1 else 0) counts.old.items counts.new.items }
{
    set_leaf(counts.as_mut_slice(), room, number, count_of(is_in));
}

// What a leaf counts.
fn count_of(is_in: bool) -> u32
    ensures count { result ≡ (if is_in then 1 else 0) }
    ensures small { result ≤ 1 }
{
    if is_in { 1 } else { 0 }
}
