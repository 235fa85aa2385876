//! Lists of needed rows, sorted by table and number.

ghost use Rattle.std.specs.Prelude.{◌≡◌, [], ◌∷◌, map, IfOk, MatchOption, OnOk};
ghost use Rattle.lineage.specs.Needing.{need_by, need_order, needs_in_order, union_of_needs};
ghost use Rattle.lineage.specs.Needing.{is_last_row, once_each, with_other, IsLast, IsNext};
ghost use Rattle.sql_model.specs.Sorting.{sorted_by};
ghost use Rattle.sql_model.specs.MemberOrder.{member_cmp as member_order};

use ldv_value::{CopyItem, List};
use sql_model::{Member, Members, Need, Needs, Rule};
use std::alloc::{AllocError, Global};
use std::cmp::Ordering;

// Orders rows by table, then by number.
fn member_order(a: &Member, b: &Member) -> Ordering
    ensures { result ≡ member_order a.now b.now }
{
    let tables = a.table.as_str().cmp(b.table.as_str());
    tables.then(a.row.cmp(&b.row))
}

/// Needs of some rows, each by the same rule.
pub fn needed_by(rule: Rule, members: Members) -> Result<Needs, AllocError>
    ensures { IfOk result (λ needs. needs ≡ map (need_by rule) members) }
{
    let mut needs = List::with_capacity(members.allocator(), members.len())?;
    for member in members.into_vec() {
        needs.push(Need { member, rule })?;
    }
    Ok(needs)
}

/// Needs in any order, sorted by table and number, each row once. If a row occurs several times, its first
/// need stays.
pub fn needs_in_order(alloc: Global, needs: Needs) -> Result<Needs, AllocError>
    ensures { IfOk result (λ made. made ≡ needs_in_order needs) }
{
    let ordered = sort_needs(needs)?;
    once_each(alloc, ordered)
}

// Needs sorted by table and number; those of one row keep their order.
fn sort_needs(needs: Needs) -> Result<Needs, AllocError>
    ensures { IfOk result (λ made. made ≡ sorted_by need_order needs) }
{
    let mut items = needs.into_vec();
    items.sort_by(|a, b| member_order(&a.member, &b.member))?;
    Ok(List::of_vec(items))
}

// Of needs of one row that follow one another, the first.
fn once_each(alloc: Global, needs: Needs) -> Result<Needs, AllocError>
    ensures { IfOk result (λ made. made ≡ once_each needs) }
{
    let mut made = List::with_capacity(alloc, needs.len())?;
    for need in needs.into_vec() {
        add_other(&mut made, need)?;
    }
    Ok(made)
}

// Adds a need, unless it is of the row of the last.
fn add_other(needs: &mut Needs, need: Need) -> Result<(), AllocError>
    ensures { OnOk result (needs.new ≡ with_other need needs.old) }
{
    if is_last_row(needs.items(), &need) {
        return Ok(());
    }
    needs.push(need)
}

// Whether a need is of the row of the last of some.
fn is_last_row(needs: &[Need], need: &Need) -> bool
    ensures { result ≡ is_last_row need.now needs.now }
{
    match needs.last() {
        None => false,
        Some(last) => member_order(&last.member, &need.member).is_eq(),
    }
}

// The first need of two lists as one, and what is left of them.
#[derive(Clone, Copy)]
struct Next<'a> {
    need: &'a Need,
    needs: &'a [Need],
    others: &'a [Need],
}

// Of two lists that both go on: the lower first need, or that of the first list where both are of one row.
fn next_of_both<'a>(
    need: &'a Need,
    more: &'a [Need],
    other: &'a Need,
    rest: &'a [Need],
    needs: &'a [Need],
    others: &'a [Need],
) -> Next<'a>
    requires needs { needs.now ≡ need.now ∷ more.now }
    requires others { others.now ≡ other.now ∷ rest.now }
    ensures { IsNext needs.now others.now result }
{
    match member_order(&need.member, &other.member) {
        Ordering::Less => Next {
            need,
            needs: more,
            others,
        },
        Ordering::Equal => Next {
            need,
            needs: more,
            others: rest,
        },
        Ordering::Greater => Next {
            need: other,
            needs,
            others: rest,
        },
    }
}

// Of two lists of which the first is at its end.
fn next_of_others<'a>(needs: &'a [Need], others: &'a [Need]) -> Option<Next<'a>>
    requires { needs.now ≡ [] }
    ensures { MatchOption result (IsLast needs.now others.now) (IsNext needs.now others.now) }
{
    match others {
        [] => None,
        [other, rest @ ..] => Some(Next {
            need: other,
            needs,
            others: rest,
        }),
    }
}

// Of two lists of which the first goes on.
fn next_of_needs<'a>(
    need: &'a Need,
    more: &'a [Need],
    needs: &'a [Need],
    others: &'a [Need],
) -> Next<'a>
    requires { needs.now ≡ need.now ∷ more.now }
    ensures { IsNext needs.now others.now result }
{
    match others {
        [] => Next {
            need,
            needs: more,
            others,
        },
        [other, rest @ ..] => next_of_both(need, more, other, rest, needs, others),
    }
}

// The first need of two lists as one, unless both are at their end.
fn next_of<'a>(needs: &'a [Need], others: &'a [Need]) -> Option<Next<'a>>
    ensures { MatchOption result (IsLast needs.now others.now) (IsNext needs.now others.now) }
{
    match needs {
        [] => next_of_others(needs, others),
        [need, more @ ..] => Some(next_of_needs(need, more, needs, others)),
    }
}

/// The union of two lists that are sorted by table and number. If a row is in both, its need in `needs`
/// stays.
pub fn union_of_needs(alloc: Global, needs: &[Need], others: &[Need]) -> Result<Needs, AllocError>
    ensures { IfOk result (λ made. made ≡ union_of_needs needs.now others.now) }
{
    let mut made = List::with_capacity(alloc, needs.len())?;
    let mut left = needs;
    let mut right = others;
    'needs: while let Some(next) = next_of(left, right) {
        made.push(next.need.copy_item(alloc)?)?;
        left = next.needs;
        right = next.others;
    }
    Ok(made)
}
