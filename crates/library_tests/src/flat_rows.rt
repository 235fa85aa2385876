//! Rows of slots by hand: what is added, and how it lies. In a run with `--fail-alloc` rows that can't take
//! one more are as they were.

use lineage::{FlatRows, split_row};
use std::alloc::{AllocError, Global};
use std::process::Abort;
use std::test::Fail;

fn add(rt: &impl Abort, rows: &mut FlatRows, row: &[u32]) -> Result<(), AllocError> {
    assert!(rt; row.len() == rows.width());
    rows.push(row)
}

// Adds the row of a short prefix and one slot more.
fn add_longer(
    rt: &impl Abort,
    rows: &mut FlatRows,
    prefix: &[u32],
    slot: u32,
) -> Result<(), AllocError> {
    assert!(rt; prefix.len() < 9);
    assert!(rt; prefix.len() + 1 == rows.width());
    rows.push_extended(prefix, slot)
}

fn is_laid(rows: &FlatRows, width: usize, count: usize, slots: &[u32]) -> bool {
    rows.width() == width && rows.len() == count && rows.slots() == slots
}

// Whether the first row of some slots, and the slots of the others, are these.
fn is_split(slots: &[u32], width: usize, row: &[u32], rest: &[u32]) -> bool {
    if width > slots.len() {
        return false;
    }
    let (first, others) = split_row(slots, width);
    first == row && others == rest
}

// ---- rows in one list

// The last row is the first one again.
fn add_three(rt: &impl Abort, rows: &mut FlatRows) -> Result<(), AllocError> {
    add(rt, rows, &[3, 1])?;
    add(rt, rows, &[0, u32::MAX])?;
    add(rt, rows, &[3, 1])
}

#[test]
fn lays_rows_in_their_order(rt: HostRuntime) -> Result<(), Fail> {
    let mut rows = FlatRows::new(rt.alloc(), 2);
    assert!(rt; is_laid(&rows, 2, 0, &[]));
    add_three(&rt, &mut rows)?;
    assert!(rt; is_laid(&rows, 2, 3, &[3, 1, 0, u32::MAX, 3, 1]));
    Ok(())
}

#[test]
fn splits_off_the_first_row(rt: HostRuntime) -> Result<(), Fail> {
    let mut rows = FlatRows::new(rt.alloc(), 2);
    add_three(&rt, &mut rows)?;
    assert!(rt; is_split(rows.slots(), rows.width(), &[3, 1], &[0, u32::MAX, 3, 1]));
    Ok(())
}

#[test]
fn splits_at_a_width(rt: HostRuntime) {
    assert!(rt; is_split(&[4, 5, 6], 0, &[], &[4, 5, 6]));
    assert!(rt; is_split(&[4, 5, 6], 1, &[4], &[5, 6]));
    assert!(rt; is_split(&[4, 5, 6], 3, &[4, 5, 6], &[]));
}

// Rows without a slot are counted.
#[test]
fn takes_rows_of_no_slot(rt: HostRuntime) -> Result<(), Fail> {
    let mut rows = FlatRows::new(rt.alloc(), 0);
    assert!(rt; is_laid(&rows, 0, 0, &[]));
    add(&rt, &mut rows, &[])?;
    add(&rt, &mut rows, &[])?;
    assert!(rt; is_laid(&rows, 0, 2, &[]));
    Ok(())
}

#[test]
fn begins_with_one_row_of_no_slot(rt: HostRuntime) {
    let rows = FlatRows::of_no_source(rt.alloc());
    assert!(rt; is_laid(&rows, 0, 1, &[]));
}

// ---- one slot more

fn add_first_level(rt: &impl Abort, rows: &mut FlatRows) -> Result<(), AllocError> {
    add_longer(rt, rows, &[], 7)?;
    add_longer(rt, rows, &[], 5)
}

// Two rows of one slot, after the row of none.
fn first_level(rt: &impl Abort, alloc: Global) -> Result<FlatRows, AllocError> {
    let none = FlatRows::of_no_source(alloc);
    let mut rows = none.wider()?;
    assert!(rt; is_laid(&rows, 1, 0, &[]));
    add_first_level(rt, &mut rows)?;
    Ok(rows)
}

fn add_second_level(rt: &impl Abort, rows: &mut FlatRows) -> Result<(), AllocError> {
    add_longer(rt, rows, &[7], 4)?;
    add_longer(rt, rows, &[5], 0)?;
    add(rt, rows, &[5, 9])
}

fn expect_second_level(rt: &impl Abort, first: &FlatRows) -> Result<(), AllocError> {
    let mut rows = first.wider()?;
    assert!(rt; is_laid(&rows, 2, 0, &[]));
    add_second_level(rt, &mut rows)?;
    assert!(rt; is_laid(&rows, 2, 3, &[7, 4, 5, 0, 5, 9]));
    Ok(())
}

// The shorter rows stay.
#[test]
fn widens_by_one_slot(rt: HostRuntime) -> Result<(), Fail> {
    let first = first_level(&rt, rt.alloc())?;
    expect_second_level(&rt, &first)?;
    assert!(rt; is_laid(&first, 1, 2, &[7, 5]));
    Ok(())
}

// ---- rows that can't take one more

// The slot at a place, if each row is its number, 0 and its number again.
fn slot_at(place: usize) -> usize {
    if place % 3 == 1 { 0 } else { place / 3 }
}

fn are_slots(slots: &[u32]) -> bool {
    slots
        .iter()
        .enumerate()
        .all(|(place, slot)| *slot as usize == slot_at(place))
}

// Whether so many rows, in these slots, are those of the numbers before one, and nothing else lies there.
fn are_before(count: usize, slots: &[u32], number: u32) -> bool {
    count == number as usize && slots.len() / 3 == count && slots.len() % 3 == 0 && are_slots(slots)
}

// Adds the row of a number, at a second try where memory runs out.
fn add_number(rt: &impl Abort, rows: &mut FlatRows, number: u32) -> Result<(), AllocError> {
    if add(rt, rows, &[number, 0, number]).is_err() {
        assert!(rt; are_before(rows.len(), rows.slots(), number));
        return add(rt, rows, &[number, 0, number]);
    }
    Ok(())
}

fn add_longer_number(rt: &impl Abort, rows: &mut FlatRows, number: u32) -> Result<(), AllocError> {
    if add_longer(rt, rows, &[number, 0], number).is_err() {
        assert!(rt; are_before(rows.len(), rows.slots(), number));
        return add_longer(rt, rows, &[number, 0], number);
    }
    Ok(())
}

// Enough rows for the memory to grow several times.
#[test]
fn keeps_its_rows(rt: HostRuntime) -> Result<(), Fail> {
    let mut rows = FlatRows::new(rt.alloc(), 3);
    for number in 0..100 {
        add_number(&rt, &mut rows, number)?;
    }
    assert!(rt; are_before(rows.len(), rows.slots(), 100));
    Ok(())
}

#[test]
fn keeps_its_rows_beside_longer_ones(rt: HostRuntime) -> Result<(), Fail> {
    let mut rows = FlatRows::new(rt.alloc(), 3);
    for number in 0..100 {
        add_longer_number(&rt, &mut rows, number)?;
    }
    assert!(rt; are_before(rows.len(), rows.slots(), 100));
    Ok(())
}
