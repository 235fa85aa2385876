//! A binary tree of counts in one slice: node 1 is the root, the children of node i are nodes 2 i and
//! 2 i + 1, and the leaves come last, one for each number up to the capacity.

ghost use Rattle.std.specs.Prelude.{◌≡◌, ℕ, ◌+◌, ◌-◌, ◌*◌, ◌%◌, ◌^◌, ◌<◌, ◌≤◌};
ghost use Rattle.std.specs.Prelude.{length, slice_index, IfOk};
ghost use Rattle.ready_set.specs.inner.Tree.{IsTree, SetsLeaf, IsWidened, sum_before};

use std::alloc::{AllocError, Global};

/// A node, and how many counted leaves below it come before the sought leaf.
#[derive(Clone, Copy)]
struct Place {
    node: usize,
    before: u32,
}

/// Sets the count of a number's leaf, and counts the nodes above it anew.
pub(crate) fn set_leaf(counts: &mut [u32], room: usize, number: usize, count: u32)
    requires tree { IsTree room counts.old }
    requires few { room ≤ 2 ^ 30 }
    requires within { number < room }
    requires small { count ≤ 1 }
    ensures { SetsLeaf room (room + number) count counts.old counts.new }
{
    let leaf = room + number;
    counts[leaf] = count;
    let mut node = leaf / 2;
    while node > 0 {
        counts[node] = counts[2 * node] + counts[2 * node + 1];
        node /= 2;
    }
}

/// How many counted leaves come before a leaf.
pub(crate) fn count_before(counts: &[u32], height: u32, leaf: usize) -> u32
    requires tree { IsTree (2 ^ height) counts.now }
    requires low { height ≤ 30 }
    requires from { 2 ^ height ≤ leaf }
    requires within { leaf < 2 * 2 ^ height }
    ensures { sum_before counts.now (2 ^ height) + result ≡ sum_before counts.now leaf }
{
    let mut total = 0;
    let mut node = leaf;
    for _level in 0..height {
        total += count_left_of(counts, node);
        node /= 2;
    }
    total
}

// The count of the left sibling of a right child, and 0 for a left child.
fn count_left_of(counts: &[u32], node: usize) -> u32
    requires { node ≤ length counts.now }
    ensures right { node % 2 ≡ 1 → result ≡ slice_index counts.now (node - 1) }
    ensures left { node % 2 ≡ 0 → result ≡ 0 }
{
    if node % 2 == 1 { counts[node - 1] } else { 0 }
}

/// The counted leaf that comes after `k` other counted leaves.
pub(crate) fn leaf_at(counts: &[u32], height: u32, k: u32) -> usize
    requires tree { IsTree (2 ^ height) counts.now }
    requires low { height ≤ 30 }
    requires few { k < slice_index counts.now 1 }
    ensures from { 2 ^ height ≤ result }
    ensures within { result < 2 * 2 ^ height }
    ensures counted { slice_index counts.now result ≡ 1 }
    ensures before { sum_before counts.now (2 ^ height) + k ≡ sum_before counts.now result }
{
    let mut place = Place { node: 1, before: k };
    for _level in 0..height {
        place = child_of(counts, place);
    }
    place.node
}

// The child below which the leaf is.
fn child_of(counts: &[u32], place: Place) -> Place
    requires within { 2 * place.node + 1 < length counts.now }
    requires few { place.node < 2 ^ 31 }
    ensures left { place.before < slice_index counts.now (2 * place.node)
        → (result.node ≡ 2 * place.node) × (result.before ≡ place.before) }
    ensures right { slice_index counts.now (2 * place.node) ≤ place.before
        → (result.node ≡ 2 * place.node + 1)
        × (result.before + slice_index counts.now (2 * place.node) ≡ place.before) }
{
    let left = 2 * place.node;
    let count = counts[left];
    if place.before < count {
        Place {
            node: left,
            before: place.before,
        }
    } else {
        Place {
            node: left + 1,
            before: place.before - count,
        }
    }
}

/// A tree of twice the capacity, with the same counted leaves.
pub(crate) fn widen_tree(alloc: Global, counts: &[u32], room: usize) -> Result<Vec<u32>, AllocError>
    requires tree { IsTree room counts.now }
    requires few { room ≤ 2 ^ 29 }
    ensures { IfOk result (λ wide. IsWidened room counts.now wide.items) }
{
    let mut wide = vec![in alloc; 0u32; 4 * room]?;
    copy_leaves(counts, room, &mut wide);
    Ok(wide)
}

// Counts the leaves of a tree in one with twice the room.
fn copy_leaves(counts: &[u32], room: usize, wide: &mut [u32])
    requires tree { IsTree room counts.now }
    requires few { room ≤ 2 ^ 29 }
    requires long { length wide.old ≡ 4 * room }
    requires none { (i : ℕ) → slice_index wide.old i ≡ 0 }
    ensures { IsWidened room counts.now wide.new }
{
    for number in 0..room {
        set_leaf(wide, 2 * room, number, counts[room + number]);
    }
}
