//! One list type for all lists of the product: a `Vec` that contracts see as the list of its items.

ghost use Rattle.std.specs.Prelude.{◌≡◌, ◌==◌, ◌+◌, ◌^◌, ◌<◌, ◌++◌, ◌∷◌, [], drop, length};
ghost use Rattle.std.specs.Prelude.{IfOk, OnOk, OnErr, OnSome, MatchOption, option_to_list, slice_get};
ghost use Rattle.std.specs.Prelude.{slice_set};
ghost use Rattle.std.specs.Option.{option_map};
ghost use Rattle.std.specs.Cmp.Lexicographic.{pointwise, slice_cmp, slice_partial_cmp, lists_per};
ghost use Rattle.std.specs.Cmp.Lexicographic.{lists_equiv, lists_po, lists_total, lists_agrees, lists_ties};

use std::alloc::{AllocError, Global};
use std::cmp::Ordering;
use std::marker::Model;

/// An item that can make a copy equal to itself.
pub trait CopyItem: Drop {
    /// A copy that is equal to the item.
    fn copy_item(&self, alloc: Global) -> Result<Self, AllocError>
        ensures { IfOk result (λ copy. copy ≡ self.now) };
}

/// A list of items in order.
#[derive(Drop)]
pub struct List<X> {
    held: Vec<X>,
}

impl<X> Model for List<X> {
    ghost use Rattle.std.specs.Prelude.{List as Items};
    ghost use Rattle.std.specs.Coded.{coded_list};

    ghost Value = { Items X };

    ghost coded = { coded_list X.code };

    ghost view = { λ a. a.held.items };
}

impl<X> List<X> {
    /// The empty list. It takes no memory.
    pub fn new(alloc: Global) -> Self
        ensures { result ≡ [] }
    {
        List {
            held: Vec::new(alloc),
        }
    }

    /// The list of a vector's items, in the vector's own memory.
    pub fn of_vec(items: Vec<X>) -> Self
        ensures { result ≡ items.items }
    {
        List { held: items }
    }

    /// The vector of the items, in the list's own memory.
    pub fn into_vec(self) -> Vec<X>
        ensures { result.items ≡ self }
    {
        let List { held } = self;
        held
    }

    /// The number of items.
    pub fn len(&self) -> usize
        ensures { result ≡ length self.now }
    {
        self.held.len()
    }

    /// Whether there is no item.
    pub fn is_empty(&self) -> bool
        ensures { result ≡ (length self.now == 0) }
    {
        self.held.is_empty()
    }

    /// The items, for loops and chains.
    pub fn items(&self) -> &[X]
        ensures { result.now ≡ self.now }
    {
        self.held.as_slice()
    }

    /// The allocator that the list keeps.
    pub fn allocator(&self) -> Global {
        *self.held.allocator()
    }

    /// The item at an index, from 0; `None` at and past the end.
    #[tactic(auto, using(crate::proofs::Places::drop_some, crate::proofs::Places::drop_none))]
    pub fn get(&self, place: usize) -> Option<&X>
        ensures item { option_map (λ x. x.now) result ≡ slice_get self.now place }
        ensures within { OnSome result (place < length self.now) }
        ensures bound { length self.now < 2 ^ 64 }
        // The items from the index on.
        ensures rest { MatchOption result (drop place self.now ≡ [])
            (λ x. drop place self.now ≡ x.now ∷ drop (place + 1) self.now) }
    {
        self.held.get(place)
    }
}

impl<X: Drop> List<X> {
    /// The empty list, with memory for `count` items: `push` takes no more memory until it has that many.
    pub fn with_capacity(alloc: Global, count: usize) -> Result<Self, AllocError>
        ensures { IfOk result (λ made. made ≡ []) }
    {
        Ok(List {
            held: Vec::with_capacity(alloc, count)?,
        })
    }

    /// Appends an item. On `AllocError` the list is as it was.
    pub fn push(&mut self, item: X) -> Result<(), AllocError>
        ensures ok { OnOk result (self.new ≡ self.old ++ item ∷ []) }
        ensures err { OnErr result (self.new ≡ self.old) }
    {
        self.held.push(item)?;
        Ok(())
    }

    /// Appends the item, if there is one. On `AllocError` the list is as it was.
    pub fn push_some(&mut self, item: Option<X>) -> Result<(), AllocError>
        ensures ok { OnOk result (self.new ≡ self.old ++ option_to_list item) }
        ensures err { OnErr result (self.new ≡ self.old) }
    {
        if let Some(item) = item {
            self.push(item)?;
        }
        Ok(())
    }

    /// Replaces the item at an index below the list's length, from 0.
    pub fn replace(&mut self, place: usize, item: X)
        requires { place < length self.old }
        ensures { self.new ≡ slice_set self.old place item }
    {
        self.held[place] = item;
    }
}

impl<X: CopyItem> List<X> {
    /// A copy that is equal to the list.
    pub fn copy(&self) -> Result<Self, AllocError>
        ensures { IfOk result (λ copy. copy ≡ self.now) }
    {
        let alloc = *self.held.allocator();
        let mut held = Vec::with_capacity(alloc, self.held.len())?;
        for item in self.held.as_slice() {
            held.push(item.copy_item(alloc)?)?;
        }
        Ok(List { held })
    }
}

impl<X: CopyItem> CopyItem for List<X> {
    fn copy_item(&self, _alloc: Global) -> Result<Self, AllocError> {
        self.copy()
    }
}

// Lists are compared item by item; one that is at its end comes first.

impl<X: PartialEq> PartialEq for List<X> {
    ghost eq = { pointwise X.eq };

    ghost laws = { lists_per X.laws };

    fn eq(&self, other: &Self) -> bool {
        self.items() == other.items()
    }
}

impl<X: Eq> Eq for List<X> {
    ghost laws = { lists_equiv X.Eq.laws };
}

impl<X: PartialOrd> PartialOrd for List<X> {
    ghost partial_cmp = { slice_partial_cmp X.partial_cmp };

    ghost laws = { lists_po X.PartialOrd.laws };

    fn partial_cmp(&self, other: &Self) -> Option<Ordering> {
        self.items().partial_cmp(&other.items())
    }
}

impl<X: Ord> Ord for List<X> {
    ghost cmp = { slice_cmp X.cmp };

    ghost total = { lists_total X.total };

    ghost matches_partial_cmp = { lists_agrees X.matches_partial_cmp };

    ghost matches_eq = { lists_ties X.cmp X.matches_eq };

    fn cmp(&self, other: &Self) -> Ordering {
        self.items().cmp(&other.items())
    }
}

impl List<u8> {
    pub(crate) fn extend_items(&mut self, more: &[u8]) -> Result<(), AllocError>
        ensures ok { OnOk result (self.new ≡ self.old ++ more.now) }
        ensures err { OnErr result (self.new ≡ self.old) }
    {
        self.held.extend_from_slice(more)
    }
}

impl CopyItem for u8 {
    fn copy_item(&self, _alloc: Global) -> Result<Self, AllocError> {
        Ok(*self)
    }
}

impl CopyItem for u32 {
    fn copy_item(&self, _alloc: Global) -> Result<Self, AllocError> {
        Ok(*self)
    }
}

impl CopyItem for u64 {
    fn copy_item(&self, _alloc: Global) -> Result<Self, AllocError> {
        Ok(*self)
    }
}

impl CopyItem for usize {
    fn copy_item(&self, _alloc: Global) -> Result<Self, AllocError> {
        Ok(*self)
    }
}
