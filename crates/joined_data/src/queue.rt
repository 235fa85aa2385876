//! A list that gives its items from the front, each moved and none copied.

ghost use Rattle.std.specs.Prelude.{◌≡◌};
ghost use Rattle.joined_data.specs.Merging.{queue_with};

use ldv_value::List;
use std::collections::VecDeque;
use std::marker::Model;

/// The items of a list that aren't taken yet.
#[derive(Drop)]
pub(crate) struct Queue<X> {
    left: VecDeque<X>,
}

impl<X> Model for Queue<X> {
    ghost use Rattle.std.specs.Prelude.{List as Items};
    ghost use Rattle.std.specs.Coded.{coded_list};

    ghost Value = { Items X };

    ghost coded = { coded_list X.code };

    ghost view = { λ a. a.left.items };
}

impl<X: Drop> Queue<X> {
    /// All items of a list, in its own memory.
    pub(crate) fn of(items: List<X>) -> Self
        ensures { result ≡ items }
    {
        Queue {
            left: VecDeque::from_vec(items.into_vec()),
        }
    }

    /// The first item that is left, or `None` if none is.
    pub(crate) fn take(&mut self) -> Option<X>
        ensures { self.old ≡ queue_with result self.new }
    {
        self.left.pop_front()
    }
}
