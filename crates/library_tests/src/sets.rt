//! Sets by hand: the results of `add` and `union`, as `members` lists them. In a run with `--fail-alloc` a
//! set whose union fails is as it was.

ghost use Rattle.std.specs.Prelude.{◌≡◌, ◌<◌, length, IfOk};
ghost use Rattle.std.specs.List.Sorted.{IsStrictlySortedBy};
ghost use Rattle.std.specs.Ordering.{nat_cmp};
ghost use Rattle.std.specs.Cmp.Lexicographic.{slice_cmp};
ghost use Rattle.lineage.specs.Lineage.{IsNamed};

use ldv_value::{Names, Utf8};
use lineage::LineageSet;
use sql_model::Member;
use std::alloc::{AllocError, Global};
use std::process::Abort;
use std::test::Fail;

/// A row: the place of its table, its number and its version.
pub(crate) type Entry = (u32, u32, u32);

/// The names of three tables, strictly increasing.
pub(crate) fn three_names(alloc: Global) -> Result<Names, AllocError>
    ensures three { IfOk result (λ names. length names ≡ 3) }
    ensures sorted { IfOk result (IsStrictlySortedBy (slice_cmp nat_cmp)) }
{
    let mut names = Names::new(alloc);
    names.push(Utf8::of(alloc, "a")?)?;
    names.push(Utf8::of(alloc, "b")?)?;
    names.push(Utf8::of(alloc, "c")?)?;
    Ok(names)
}

// Adds a row to a set, which is as it was where memory runs out.
fn add_entry(names: &Names, set: &mut LineageSet, entry: Entry) -> Result<(), AllocError>
    requires table { entry.0 < length names.now }
    requires named { IsNamed names.now set.old }
    ensures { IsNamed names.now set.new }
{
    set.add(entry.0, entry.1, entry.2)
}

/// The set of some rows.
pub(crate) fn set_of(
    rt: &impl Abort,
    alloc: Global,
    names: &Names,
    entries: &[Entry],
) -> Result<LineageSet, AllocError>
    ensures { IfOk result (IsNamed names.now) }
{
    let mut set = LineageSet::empty(alloc);
    for entry in entries {
        let entry = *entry;
        assert!(rt; (entry.0 as usize) < names.len());
        add_entry(names, &mut set, entry)?;
    }
    Ok(set)
}

// The union of two sets. Where memory runs out, the set is as it was, and a second try goes on from there.
fn unite(names: &Names, set: &mut LineageSet, other: &LineageSet) -> Result<(), AllocError>
    requires set { IsNamed names.now set.old }
    requires other { IsNamed names.now other.now }
    ensures { IsNamed names.now set.new }
{
    set.union(other)
}

fn is_member(member: &Member, want: &(&str, u32, u32)) -> bool {
    member.table.is_text(want.0) && member.row == want.1 && member.version == want.2
}

fn are_members(members: &[Member], wants: &[(&str, u32, u32)]) -> bool {
    members.len() == wants.len()
        && members
            .iter()
            .zip(wants)
            .all(|(member, want)| is_member(member, want))
}

/// Expects just these members.
pub(crate) fn expect(
    rt: &impl Abort,
    names: &Names,
    set: &LineageSet,
    wants: &[(&str, u32, u32)],
) -> Result<(), AllocError>
    requires named { IsNamed names.now set.now }
    requires sorted { IsStrictlySortedBy (slice_cmp nat_cmp) names.now }
{
    let members = set.members(names)?;
    assert!(rt; are_members(members.items(), wants));
    Ok(())
}

// What the union of the rows of two sets has, by the rows of both.
fn expect_union(
    rt: &impl Abort,
    alloc: Global,
    names: &Names,
    left: &[Entry],
    right: &[Entry],
    wants: &[(&str, u32, u32)],
) -> Result<(), AllocError>
    requires sorted { IsStrictlySortedBy (slice_cmp nat_cmp) names.now }
{
    let mut set = set_of(rt, alloc, names, left)?;
    let other = set_of(rt, alloc, names, right)?;
    unite(names, &mut set, &other)?;
    expect(rt, names, &set, wants)
}

#[test]
fn unites(rt: HostRuntime) -> Result<(), Fail> {
    let alloc = rt.alloc();
    let names = three_names(alloc)?;
    let cases: [(&[Entry], &[Entry], &[(&str, u32, u32)]); 5] = [
        (&[], &[], &[]),
        (&[], &[(2, 7, 1)], &[("c", 7, 1)]),
        (&[(2, 7, 1)], &[], &[("c", 7, 1)]),
        (
            &[(1, 5, 0), (0, 7, 2), (1, 5, 0)],
            &[(1, 4, 1), (0, 9, 0), (1, 5, 0), (0, 10, 3)],
            &[
                ("a", 7, 2),
                ("a", 9, 0),
                ("a", 10, 3),
                ("b", 4, 1),
                ("b", 5, 0),
            ],
        ),
        (
            &[(0, u32::MAX, 1), (2, 0, u32::MAX)],
            &[(1, u32::MAX, 2), (2, 0, u32::MAX), (0, 0, 0)],
            &[
                ("a", 0, 0),
                ("a", u32::MAX, 1),
                ("b", u32::MAX, 2),
                ("c", 0, u32::MAX),
            ],
        ),
    ];
    for (left, right, wants) in cases {
        expect_union(&rt, alloc, &names, left, right, wants)?;
    }
    Ok(())
}

/// The set of the rows of the first table from one number to before another, each at its number's version.
pub(crate) fn rows_of(
    alloc: Global,
    names: &Names,
    first: u32,
    after: u32,
) -> Result<LineageSet, AllocError>
    requires { 0 < length names.now }
    ensures { IfOk result (IsNamed names.now) }
{
    let mut set = LineageSet::empty(alloc);
    for row in first..after {
        add_entry(names, &mut set, (0, row, row))?;
    }
    Ok(set)
}

fn are_rows(members: &[Member], after: u32) -> bool {
    members.len() == after as usize
        && members
            .iter()
            .zip(0..after)
            .all(|(member, row)| member.row == row && member.version == row)
}

/// Expects the rows from 0 to before a number.
pub(crate) fn expect_rows(
    rt: &impl Abort,
    names: &Names,
    set: &LineageSet,
    after: u32,
) -> Result<(), AllocError>
    requires named { IsNamed names.now set.now }
    requires sorted { IsStrictlySortedBy (slice_cmp nat_cmp) names.now }
{
    let members = set.members(names)?;
    assert!(rt; are_rows(members.items(), after));
    Ok(())
}

// Enough rows for the memory to grow within the union. Where an allocation fails there, as in a run with
// `--fail-alloc`, the set is as it was, and the union can be tried again.
#[test]
fn keeps_what_it_had(rt: HostRuntime) -> Result<(), Fail> {
    let alloc = rt.alloc();
    let names = three_names(alloc)?;
    let mut set = rows_of(alloc, &names, 0, 60)?;
    let other = rows_of(alloc, &names, 40, 100)?;
    if unite(&names, &mut set, &other).is_err() {
        expect_rows(&rt, &names, &set, 60)?;
        unite(&names, &mut set, &other)?;
    }
    expect_rows(&rt, &names, &set, 100)?;
    Ok(())
}

// The word that a block is to have at a place: 0, but for those that are listed.
fn wanted_word(wants: &[(usize, u64)], place: usize) -> u64 {
    match wants.iter().find(|want| want.0 == place) {
        Some(want) => want.1,
        None => 0,
    }
}

fn are_words(words: &[u64], wants: &[(usize, u64)]) -> bool {
    words.len() == 1_024
        && words
            .iter()
            .enumerate()
            .all(|(place, word)| *word == wanted_word(wants, place))
}

// Whether a block of the first table has these words; no words where none is to be set.
fn has_words(set: &LineageSet, block: u32, wants: &[(usize, u64)]) -> bool {
    match set.block(0, block) {
        None => wants.is_empty(),
        Some(words) => !wants.is_empty() && are_words(words, wants),
    }
}

fn expect_block(rt: &impl Abort, set: &LineageSet, block: u32, wants: &[(usize, u64)]) {
    assert!(rt; has_words(set, block, wants), "block {block}");
}

#[test]
fn lends_blocks(rt: HostRuntime) -> Result<(), Fail> {
    let alloc = rt.alloc();
    let names = three_names(alloc)?;
    let left = [(0, 0, 0), (0, 63, 0), (0, 64, 0), (0, 4_294_967_294, 0)];
    let right = [(0, 63, 0), (0, 128, 0)];
    let mut set = set_of(&rt, alloc, &names, &left)?;
    let other = set_of(&rt, alloc, &names, &right)?;
    unite(&names, &mut set, &other)?;
    expect(
        &rt,
        &names,
        &set,
        &[
            ("a", 0, 0),
            ("a", 63, 0),
            ("a", 64, 0),
            ("a", 128, 0),
            ("a", 4_294_967_294, 0),
        ],
    )?;
    expect_block(
        &rt,
        &set,
        0,
        &[(0, 9_223_372_036_854_775_809), (1, 1), (2, 1)],
    );
    expect_block(&rt, &set, 1, &[]);
    expect_block(&rt, &set, 65_535, &[(1_023, 4_611_686_018_427_387_904)]);
    Ok(())
}
