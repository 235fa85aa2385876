//! The set of processes that may run, by hand: its members, and the next one. In a run with `--fail-alloc` a
//! set that can't grow is as it was.

use ready_set::ReadySet;
use std::alloc::{AllocError, Global};
use std::process::Abort;
use std::test::Fail;

// Makes the next number, in the set or not.
fn make(rt: &impl Abort, set: &mut ReadySet, is_in: bool) -> Result<(), AllocError> {
    assert!(rt; set.made_count() < 100_000);
    set.reserve()?;
    set.push(is_in);
    Ok(())
}

// The same. Where memory runs out, the set is as it was, and a second try goes on from there.
fn make_next(rt: &impl Abort, set: &mut ReadySet, is_in: bool) -> Result<(), AllocError> {
    let (made, count) = (set.made_count(), set.len());
    if make(rt, set, is_in).is_ok() {
        return Ok(());
    }
    assert!(rt; set.made_count() == made && set.len() == count);
    make(rt, set, is_in)
}

// The set of some of the numbers below one.
fn set_of(
    rt: &impl Abort,
    alloc: Global,
    made: u32,
    numbers: &[u32],
) -> Result<ReadySet, AllocError> {
    let mut set = ReadySet::new(alloc)?;
    for number in 0..made {
        make_next(rt, &mut set, numbers.contains(&number))?;
    }
    Ok(set)
}

fn is_at(set: &ReadySet, k: u64, want: u32) -> bool {
    0 < set.len() && set.pick_at(k) == want
}

fn expect_pick(rt: &impl Abort, set: &ReadySet, k: u64, want: u32) {
    assert!(rt; is_at(set, k, want), "at {k}");
}

fn has_count(set: &ReadySet, count: usize) -> bool {
    set.len() as usize == count && set.is_empty() == (count == 0)
}

// Expects just these numbers, which are sorted.
fn expect_numbers(rt: &impl Abort, set: &ReadySet, wants: &[u32]) {
    assert!(rt; has_count(set, wants.len()));
    for (want, k) in wants.iter().zip(0..set.len()) {
        expect_pick(rt, set, u64::from(k), *want);
    }
}

fn expect_contained(rt: &impl Abort, set: &ReadySet, number: u32, want: bool) {
    assert!(rt; set.contains(number) == want, "has {number}");
}

// In turn, as under seed 0.
fn is_turn(set: &ReadySet, last: u32, want: u32) -> bool {
    0 < set.len() && set.pick_next(last) == want
}

fn expect_turn(rt: &impl Abort, set: &ReadySet, last: u32, want: u32) {
    assert!(rt; is_turn(set, last, want), "after {last}");
}

// Puts a number that was made into the set, or takes it out.
fn change(rt: &impl Abort, set: &mut ReadySet, number: u32, is_in: bool) {
    assert!(rt; number < set.made_count());
    if is_in {
        set.add(number);
    } else {
        set.remove(number);
    }
}

#[test]
fn lists_its_numbers(rt: HostRuntime) -> Result<(), Fail> {
    let cases: [(u32, &[u32]); 7] = [
        (0, &[]),
        (1, &[0]),
        (2, &[1]),
        (3, &[0, 2]),
        (3, &[0, 1, 2]),
        (64, &[0, 31, 32, 63]),
        (65, &[0, 31, 32, 63, 64]),
    ];
    for (made, numbers) in cases {
        let set = set_of(&rt, rt.alloc(), made, numbers)?;
        expect_numbers(&rt, &set, numbers);
        expect_contained(&rt, &set, 0, numbers.contains(&0));
        expect_contained(&rt, &set, made, false);
    }
    Ok(())
}

// A number may be put in and taken out twice.
#[test]
fn changes(rt: HostRuntime) -> Result<(), Fail> {
    let mut set = set_of(&rt, rt.alloc(), 10, &[0, 3, 6, 9])?;
    for (number, is_in) in [
        (3, true),
        (4, true),
        (6, false),
        (7, false),
        (4, true),
        (0, false),
        (0, false),
    ] {
        change(&rt, &mut set, number, is_in);
        expect_contained(&rt, &set, number, is_in);
    }
    expect_numbers(&rt, &set, &[3, 4, 9]);
    for (last, want) in [(0, 3), (3, 4), (4, 9), (9, 3), (10, 3), (u32::MAX, 3)] {
        expect_turn(&rt, &set, last, want);
    }
    Ok(())
}

// A process that waits is out of the set, and alone in it another may run.
#[test]
fn empties(rt: HostRuntime) -> Result<(), Fail> {
    let mut set = set_of(&rt, rt.alloc(), 2, &[0, 1])?;
    change(&rt, &mut set, 0, false);
    expect_numbers(&rt, &set, &[1]);
    change(&rt, &mut set, 1, false);
    expect_numbers(&rt, &set, &[]);
    Ok(())
}

#[test]
fn takes_turns(rt: HostRuntime) -> Result<(), Fail> {
    let cases: [(u32, &[u32], &[(u32, u32)]); 6] = [
        (1, &[0], &[(0, 0)]),
        (2, &[0, 1], &[(0, 1), (1, 0)]),
        (3, &[0, 1, 2], &[(0, 1), (1, 2), (2, 0)]),
        (6, &[0, 2, 5], &[(0, 2), (3, 5), (5, 0)]),
        (8, &[1, 4], &[(7, 1), (0, 1), (1, 4)]),
        (
            65,
            &[0, 31, 32, 63, 64],
            &[(0, 31), (31, 32), (40, 63), (63, 64), (64, 0)],
        ),
    ];
    for (made, numbers, turns) in cases {
        let set = set_of(&rt, rt.alloc(), made, numbers)?;
        for (last, want) in turns {
            expect_turn(&rt, &set, *last, *want);
        }
    }
    Ok(())
}

// At random: by the generator without its 33 lowest bits, whatever these are.
fn is_drawn(set: &ReadySet, high: u64, want: u32) -> bool {
    is_at(set, (high << 33) >> 33, want) && is_at(set, ((high << 33) | 0x1_ffff_ffff) >> 33, want)
}

fn expect_draw(rt: &impl Abort, set: &ReadySet, high: u64, want: u32) {
    assert!(rt; is_drawn(set, high, want), "by {high}");
}

// What the generator has after the steps 2, 3 and 4 under seed 7, without its 33 lowest bits.
fn expect_draws(rt: &impl Abort, set: &ReadySet, wants: &[u32]) {
    let highs: [u64; 3] = [2_052_263_231, 1_946_856_753, 585_718_673];
    for (high, want) in highs.iter().zip(wants) {
        expect_draw(rt, set, *high, *want);
    }
}

#[test]
fn draws(rt: HostRuntime) -> Result<(), Fail> {
    let cases: [(u32, &[u32], &[u32]); 4] = [
        (1, &[0], &[0, 0, 0]),
        (2, &[0, 1], &[1, 1, 1]),
        (9, &[3, 5, 8], &[8, 3, 8]),
        (65, &[0, 31, 32, 63, 64], &[31, 63, 63]),
    ];
    for (made, numbers, wants) in cases {
        let set = set_of(&rt, rt.alloc(), made, numbers)?;
        expect_draws(&rt, &set, wants);
    }
    Ok(())
}

// The index is counted round; the largest one leaves 0 by three.
#[test]
fn picks_at_an_index(rt: HostRuntime) -> Result<(), Fail> {
    let set = set_of(&rt, rt.alloc(), 9, &[3, 5, 8])?;
    for (k, want) in [(0, 3), (2, 8), (3, 3), (7, 5), (u64::MAX, 3)] {
        expect_pick(&rt, &set, k, want);
    }
    Ok(())
}

fn every_third(rt: &impl Abort, alloc: Global, made: u32) -> Result<ReadySet, AllocError> {
    let mut set = ReadySet::new(alloc)?;
    for number in 0..made {
        make(rt, &mut set, number % 3 == 0)?;
    }
    Ok(set)
}

#[test]
fn holds_as_many_as_there_may_be(rt: HostRuntime) -> Result<(), Fail> {
    let set = every_third(&rt, rt.alloc(), 65_535)?;
    assert!(rt; set.len() == 21_845);
    expect_pick(&rt, &set, 10_000, 30_000);
    expect_pick(&rt, &set, 21_844, 65_532);
    expect_turn(&rt, &set, 40_000, 40_002);
    expect_turn(&rt, &set, 65_532, 0);
    Ok(())
}
