//! Lists of rows by hand: the results of `add` and `union`, and a set that takes a list in. In a run with
//! `--fail-alloc` a list or a set that can't grow is as it was.

ghost use Rattle.std.specs.Prelude.{◌<◌, length, IfOk};
ghost use Rattle.std.specs.List.Sorted.{IsStrictlySortedBy};
ghost use Rattle.std.specs.Ordering.{nat_cmp};
ghost use Rattle.std.specs.Cmp.Lexicographic.{slice_cmp};
ghost use Rattle.lineage.specs.Lineage.{IsNamed};

use crate::sets::{Entry, expect, expect_rows, rows_of, set_of, three_names};
use ldv_value::Names;
use lineage::{LineageRows, LineageSet};
use std::alloc::{AllocError, Global};
use std::process::Abort;
use std::test::Fail;

// Adds a row to a list, which is as it was where memory runs out.
fn add_row(names: &Names, list: &mut LineageRows, entry: Entry) -> Result<(), AllocError>
    requires table { entry.0 < length names.now }
    requires named { IsNamed names.now list.old }
    ensures { IsNamed names.now list.new }
{
    list.add(entry.0, entry.1, entry.2)
}

// The list of some rows.
fn list_of(
    rt: &impl Abort,
    alloc: Global,
    names: &Names,
    entries: &[Entry],
) -> Result<LineageRows, AllocError>
    ensures { IfOk result (IsNamed names.now) }
{
    let mut list = LineageRows::empty(alloc);
    for entry in entries {
        let entry = *entry;
        assert!(rt; (entry.0 as usize) < names.len());
        add_row(names, &mut list, entry)?;
    }
    Ok(list)
}

// The list of the rows of the first table from one number to before another, each at its number's version.
fn rows_between(
    alloc: Global,
    names: &Names,
    first: u32,
    after: u32,
) -> Result<LineageRows, AllocError>
    requires { 0 < length names.now }
    ensures { IfOk result (IsNamed names.now) }
{
    let mut list = LineageRows::empty(alloc);
    for row in first..after {
        add_row(names, &mut list, (0, row, row))?;
    }
    Ok(list)
}

// The union of two lists. Where memory runs out, the list is as it was.
fn unite_lists(names: &Names, list: &mut LineageRows, other: &LineageRows) -> Result<(), AllocError>
    requires list { IsNamed names.now list.old }
    requires other { IsNamed names.now other.now }
    ensures { IsNamed names.now list.new }
{
    list.union(other)
}

// Adds the rows of a list to a set. Where memory runs out, the set is as it was.
fn take_in(names: &Names, set: &mut LineageSet, list: &LineageRows) -> Result<(), AllocError>
    requires set { IsNamed names.now set.old }
    requires list { IsNamed names.now list.now }
    ensures { IsNamed names.now set.new }
{
    set.add_rows(list)
}

// Expects just these rows in the list of some rows, to which those of another are added.
fn expect_list(
    rt: &impl Abort,
    alloc: Global,
    names: &Names,
    left: &[Entry],
    right: &[Entry],
    wants: &[(&str, u32, u32)],
) -> Result<(), AllocError>
    requires sorted { IsStrictlySortedBy (slice_cmp nat_cmp) names.now }
{
    let mut list = list_of(rt, alloc, names, left)?;
    let other = list_of(rt, alloc, names, right)?;
    unite_lists(names, &mut list, &other)?;
    let mut set = set_of(rt, alloc, names, &[])?;
    take_in(names, &mut set, &list)?;
    expect(rt, names, &set, wants)
}

// A row that is in a list keeps its version.
#[test]
fn lists_rows(rt: HostRuntime) -> Result<(), Fail> {
    let alloc = rt.alloc();
    let names = three_names(alloc)?;
    let cases: [(&[Entry], &[Entry], &[(&str, u32, u32)]); 4] = [
        (&[], &[], &[]),
        (
            &[(1, 5, 1), (0, 7, 2), (1, 5, 9)],
            &[],
            &[("a", 7, 2), ("b", 5, 1)],
        ),
        (
            &[(1, 5, 3), (0, 7, 2)],
            &[(2, 0, 1), (1, 5, 0), (0, 7, 4), (2, 0, 6)],
            &[("a", 7, 2), ("b", 5, 3), ("c", 0, 1)],
        ),
        (
            &[],
            &[(2, u32::MAX, 1), (2, 0, u32::MAX), (0, 65_536, 0)],
            &[("a", 65_536, 0), ("c", 0, u32::MAX), ("c", u32::MAX, 1)],
        ),
    ];
    for (left, right, wants) in cases {
        expect_list(&rt, alloc, &names, left, right, wants)?;
    }
    Ok(())
}

// A row that is in the set keeps its version there.
#[test]
fn takes_a_list_in(rt: HostRuntime) -> Result<(), Fail> {
    let alloc = rt.alloc();
    let names = three_names(alloc)?;
    let mut set = set_of(&rt, alloc, &names, &[(1, 5, 7), (2, 1, 1)])?;
    let list = list_of(
        &rt,
        alloc,
        &names,
        &[(1, 5, 0), (0, 1, 2), (0, 1, 3), (2, 0, 4)],
    )?;
    take_in(&names, &mut set, &list)?;
    expect(
        &rt,
        &names,
        &set,
        &[("a", 1, 2), ("b", 5, 7), ("c", 0, 4), ("c", 1, 1)],
    )?;
    Ok(())
}

// Enough rows for the memory to grow within the union of the lists.
#[test]
fn keeps_its_rows(rt: HostRuntime) -> Result<(), Fail> {
    let alloc = rt.alloc();
    let names = three_names(alloc)?;
    let mut list = rows_between(alloc, &names, 0, 60)?;
    let other = rows_between(alloc, &names, 40, 100)?;
    let mut after = 100;
    if unite_lists(&names, &mut list, &other).is_err() {
        after = 60;
    }
    let mut set = rows_of(alloc, &names, 0, 0)?;
    take_in(&names, &mut set, &list)?;
    expect_rows(&rt, &names, &set, after)?;
    Ok(())
}

// Enough rows for the memory of the set to grow while it takes a list in.
#[test]
fn keeps_the_set(rt: HostRuntime) -> Result<(), Fail> {
    let alloc = rt.alloc();
    let names = three_names(alloc)?;
    let mut set = rows_of(alloc, &names, 0, 60)?;
    let list = rows_between(alloc, &names, 40, 100)?;
    if take_in(&names, &mut set, &list).is_err() {
        expect_rows(&rt, &names, &set, 60)?;
        take_in(&names, &mut set, &list)?;
    }
    expect_rows(&rt, &names, &set, 100)?;
    Ok(())
}
