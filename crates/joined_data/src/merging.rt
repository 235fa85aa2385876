//! Two sorted lists, merged.

ghost use Rattle.std.specs.Prelude.{◌≡◌, IfOk};
ghost use Rattle.joined_data.specs.Merging.{merged};

use crate::queue::Queue;
use ldv_value::List;
use std::alloc::{AllocError, Global};
use std::cmp::Ordering;

/// An item of a list that is sorted by a key.
pub(crate) trait Mergeable: Drop {
    ghost use Rattle.std.specs.declared.cmp.Ordering.{Ordering as Order};

    /// By the key.
    ghost key_cmp: { Self → Self → Order };

    /// The item made from two items with the same key.
    ghost both: { Self → Self → Self };

    /// Compares the keys of two items.
    fn compare(&self, other: &Self) -> Ordering
        ensures { result ≡ key_cmp self.now other.now };

    /// Makes one item from two with the same key.
    fn join(self, other: Self, alloc: Global) -> Result<Self, AllocError>
        ensures { IfOk result (λ made. made ≡ both self other) };
}

/// The items of both lists, moved, in the order of their keys. The lists are sorted.
pub(crate) fn merge_lists<X: Mergeable>(
    alloc: Global,
    first: List<X>,
    second: List<X>,
) -> Result<List<X>, AllocError>
    ensures { IfOk result (λ made. made ≡ merged X.key_cmp X.both first second) }
{
    // Room for the longer list at once: it grows where items are in one list alone.
    let mut made = List::with_capacity(alloc, first.len().max(second.len()))?;
    let mut xs = Queue::of(first);
    let mut ys = Queue::of(second);
    let mut left = xs.take();
    let mut right = ys.take();
    loop {
        match left {
            None => match right {
                None => return Ok(made),
                Some(y) => {
                    made.push(y)?;
                    left = None;
                    right = ys.take();
                }
            },
            Some(x) => match right {
                None => {
                    made.push(x)?;
                    left = xs.take();
                    right = None;
                }
                Some(y) => match x.compare(&y) {
                    Ordering::Less => {
                        made.push(x)?;
                        left = xs.take();
                        right = Some(y);
                    }
                    Ordering::Equal => {
                        made.push(x.join(y, alloc)?)?;
                        left = xs.take();
                        right = ys.take();
                    }
                    Ordering::Greater => {
                        made.push(y)?;
                        left = Some(x);
                        right = ys.take();
                    }
                },
            },
        }
    }
}
