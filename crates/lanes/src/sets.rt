//! Union, intersection and difference.

ghost use Rattle.std.specs.Prelude.{◌≡◌, length};
ghost use Rattle.lanes.specs.Sets.{IsUnion, IsIntersection, IsDifference};

use crate::merge::{And, Minus, Or, merge_into};

/// Adds to `a` the members of `b`.
#[tactic(auto, using(crate::proofs::SetLaws::union_is))]
pub fn or_into(a: &mut [u64], b: &[u64])
    requires { length a.old ≡ length b.now }
    ensures { IsUnion a.old b.now a.new }
{
    merge_into::<Or>(a, b);
}

/// Keeps in `a` only the members of `b`.
#[tactic(auto, using(crate::proofs::SetLaws::intersection_is))]
pub fn and_into(a: &mut [u64], b: &[u64])
    requires { length a.old ≡ length b.now }
    ensures { IsIntersection a.old b.now a.new }
{
    merge_into::<And>(a, b);
}

/// Removes from `a` the members of `b`.
#[tactic(auto, using(crate::proofs::SetLaws::difference_is))]
pub fn minus_into(a: &mut [u64], b: &[u64])
    requires { length a.old ≡ length b.now }
    ensures { IsDifference a.old b.now a.new }
{
    merge_into::<Minus>(a, b);
}
