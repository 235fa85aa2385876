//! Groups of picked combinations, found by a map from their values to the number of the group.

ghost use Rattle.std.specs.Prelude.{◌≡◌, ◌++◌, ◌∷◌, [], List as Items, map};
ghost use Rattle.std.specs.Prelude.{IfOk, OnOk, Some, None};
ghost use Rattle.std.specs.BTreeMap as tree;
ghost use Rattle.group_eval.specs.inner.Grouping.{key_of, own_picks, group_of, number_of, with_pick};
ghost use Rattle.group_eval.specs.inner.Grouping.{groups_with_pick, keyed_groups, IsIndex};
ghost use Rattle.group_eval.specs.Types.{Value as Seen};
ghost use Rattle.ldv_value.specs.Order.{values_order};

use ldv_value::{Places, Refs};
use lineage::Pick;
use sql_model::KeyOf;
use std::alloc::{AllocError, Global};
use std::collections::BTreeMap;

/// Picks with the same values, which are the key of the group.
#[derive(Drop)]
pub(crate) struct KeyedGroup<'a> {
    pub(crate) key: KeyOf<'a>,
    pub(crate) picks: Refs<'a, Pick>,
}

// The numbers of groups, from 0, by their values.
type Numbers<'a> = BTreeMap<KeyOf<'a>, usize>;

/// The groups of picks by their values at some places, in order of first appearance.
pub(crate) fn groups_of<'a>(
    alloc: Global,
    places: &'a Places,
    picks: &'a [Pick],
) -> Result<Vec<KeyedGroup<'a>>, AllocError>
    ensures { IfOk result (λ made. map own_picks made.items ≡ keyed_groups places.now picks.now) }
{
    let mut numbers = BTreeMap::new(alloc);
    let mut made = Vec::new(alloc);
    for pick in picks {
        add_pick(alloc, &mut numbers, &mut made, places, pick)?;
    }
    Ok(made)
}

// Adds a pick to the group of its values.
fn add_pick<'a>(
    alloc: Global,
    numbers: &mut Numbers<'a>,
    made: &mut Vec<KeyedGroup<'a>>,
    places: &'a Places,
    pick: &'a Pick,
) -> Result<(), AllocError>
    requires { IsIndex numbers.old made.old.items }
    ensures index { OnOk result (IsIndex numbers.new made.new.items) }
    ensures made { OnOk result (made.new.items ≡ groups_with_pick places.now made.old.items pick.now) }
{
    match number_in(numbers, places, pick) {
        Some(number) => add_again(made, number, places, pick),
        None => add_first(alloc, numbers, made, places, pick),
    }
}

fn number_in<'a>(numbers: &Numbers<'a>, places: &'a Places, pick: &'a Pick) -> Option<usize>
    ensures { result ≡ tree.get values_order numbers.now (key_of places.now pick.now) }
{
    numbers.get(&KeyOf::of(&pick.values, places)).copied()
}

fn take_pick<'a>(group: &mut KeyedGroup<'a>, pick: &'a Pick) -> Result<(), AllocError>
    ensures { OnOk result (group.new ≡ with_pick group.old pick.now) }
{
    group.picks.push(pick)
}

// Adds a pick to the group of a number, which has its values.
#[tactic(auto, using(crate::proofs::GroupLaws::number_within))]
fn add_again<'a>(
    made: &mut Vec<KeyedGroup<'a>>,
    number: usize,
    places: &'a Places,
    pick: &'a Pick,
) -> Result<(), AllocError>
    requires { number_of (key_of places.now pick.now) made.old.items ≡ Some number }
    ensures made { OnOk result (made.new.items ≡ groups_with_pick places.now made.old.items pick.now) }
    ensures numbers { OnOk result ((key : Items Seen)
        → number_of key made.new.items ≡ number_of key made.old.items) }
{
    take_pick(&mut made[number], pick)
}

// A group of one pick.
fn group_alone<'a>(
    alloc: Global,
    places: &'a Places,
    pick: &'a Pick,
) -> Result<KeyedGroup<'a>, AllocError>
    ensures { IfOk result (λ group. group ≡ group_of (key_of places.now pick.now) (pick.now ∷ [])) }
{
    let mut picks = Refs::new(alloc);
    picks.push(pick)?;
    Ok(KeyedGroup {
        key: KeyOf::of(&pick.values, places),
        picks,
    })
}

fn push_alone<'a>(
    alloc: Global,
    made: &mut Vec<KeyedGroup<'a>>,
    places: &'a Places,
    pick: &'a Pick,
) -> Result<(), AllocError>
    ensures { OnOk result (made.new.items
        ≡ made.old.items ++ group_of (key_of places.now pick.now) (pick.now ∷ []) ∷ []) }
{
    let group = group_alone(alloc, places, pick)?;
    made.push(group)?;
    Ok(())
}

// Adds the first pick of its values.
fn add_first<'a>(
    alloc: Global,
    numbers: &mut Numbers<'a>,
    made: &mut Vec<KeyedGroup<'a>>,
    places: &'a Places,
    pick: &'a Pick,
) -> Result<(), AllocError>
    requires index { IsIndex numbers.old made.old.items }
    requires none { number_of (key_of places.now pick.now) made.old.items ≡ None }
    ensures index { OnOk result (IsIndex numbers.new made.new.items) }
    ensures made { OnOk result (made.new.items ≡ groups_with_pick places.now made.old.items pick.now) }
{
    let number = made.len();
    push_alone(alloc, made, places, pick)?;
    numbers.insert(KeyOf::of(&pick.values, places), number)?;
    Ok(())
}
