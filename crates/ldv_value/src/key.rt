//! References to items, which serve as keys of sets and maps without a copy.

ghost use Rattle.std.specs.Prelude.{◌≡◌, Some, refl};
ghost use Rattle.std.specs.Cmp.{eq_by_cmp_equiv, partial_order_from_agreeing_total, partial_equiv_from_equiv};
ghost use Rattle.std.specs.Ordering.{eq_by_cmp};

use std::cmp::Ordering;
use std::marker::Model;

/// An item by reference, in the order of the items. Contracts see it as the item.
#[derive(Drop)]
pub struct Key<'a, X: Ord> {
    item: &'a X,
}

impl<'a, X: Ord> Model for Key<'a, X> {
    ghost Value = { X };

    ghost coded = { X.code };

    ghost view = { λ a. a.item.now };
}

impl<'a, X: Ord> Key<'a, X> {
    /// A reference to an item.
    pub fn of(item: &'a X) -> Key<'a, X>
        ensures { result ≡ item.now }
    {
        Key { item }
    }
}

impl<'a, X: Ord> PartialEq for Key<'a, X> {
    ghost eq = { λ x y. eq_by_cmp X.cmp x y };

    ghost laws = { partial_equiv_from_equiv (eq_by_cmp_equiv X.total) };

    fn eq(&self, other: &Key<'a, X>) -> bool {
        self.cmp(other).is_eq()
    }
}

impl<'a, X: Ord> Eq for Key<'a, X> {
    ghost laws = { eq_by_cmp_equiv X.total };
}

impl<'a, X: Ord> PartialOrd for Key<'a, X> {
    ghost partial_cmp = { λ x y. Some (X.cmp x y) };

    ghost laws = { partial_order_from_agreeing_total X.cmp X.total (λ x y. refl) (λ x y. refl) };

    fn partial_cmp(&self, other: &Key<'a, X>) -> Option<Ordering> {
        Some(self.cmp(other))
    }
}

impl<'a, X: Ord> Ord for Key<'a, X> {
    ghost cmp = { λ x y. X.cmp x y };

    ghost total = { X.total };

    ghost matches_partial_cmp = { λ x y. refl };

    ghost matches_eq = { λ x y. refl };

    fn cmp(&self, other: &Key<'a, X>) -> Ordering {
        self.item.cmp(other.item)
    }
}
