//! Each kernel beside its plain body, at lengths around blocks of eight and words of 64.

use lanes::{
    and_into, count, minus_into, next_one, or_into, plain_and_into, plain_count, plain_minus_into,
    plain_next_one, plain_or_into, plain_select_i64, select_i64,
};
use ldv_value::Cmp;
use std::alloc::{AllocError, Global};
use std::process::Abort;
use std::test::Fail;

const LENGTHS: [usize; 9] = [0, 1, 7, 8, 9, 63, 64, 65, 1000];

// The next number of a sequence that looks random.
fn after(state: u64) -> u64 {
    state
        .wrapping_mul(6364136223846793005)
        .wrapping_add(1442695040888963407)
}

// Words that look random, most of them empty.
fn words(alloc: Global, count: usize, seed: u64) -> Result<Vec<u64>, AllocError> {
    let mut words = Vec::new(alloc);
    let mut state = seed;
    for _ in 0..count {
        state = after(state);
        words.push(if state >> 61 == 0 { state } else { 0 })?;
    }
    Ok(words)
}

// Numbers around 0 that look random.
fn numbers(alloc: Global, count: usize) -> Result<Vec<i64>, AllocError> {
    let mut numbers = Vec::new(alloc);
    let mut state = 7u64;
    for _ in 0..count {
        state = after(state);
        numbers.push((state >> 61) as i64 - 4)?;
    }
    Ok(numbers)
}

fn is_or_like_plain(fast: &mut [u64], slow: &mut [u64], other: &[u64]) -> bool {
    if fast.len() != other.len() || slow.len() != other.len() {
        return false;
    }
    or_into(fast, other);
    plain_or_into(slow, other);
    &*fast == &*slow
}

fn is_and_like_plain(fast: &mut [u64], slow: &mut [u64], other: &[u64]) -> bool {
    if fast.len() != other.len() || slow.len() != other.len() {
        return false;
    }
    and_into(fast, other);
    plain_and_into(slow, other);
    &*fast == &*slow
}

fn is_minus_like_plain(fast: &mut [u64], slow: &mut [u64], other: &[u64]) -> bool {
    if fast.len() != other.len() || slow.len() != other.len() {
        return false;
    }
    minus_into(fast, other);
    plain_minus_into(slow, other);
    &*fast == &*slow
}

fn are_merges_like_plain(alloc: Global, length: usize) -> Result<bool, AllocError> {
    let mut fast = words(alloc, length, 2)?;
    let mut slow = words(alloc, length, 2)?;
    let first = words(alloc, length, 1)?;
    let second = words(alloc, length, 3)?;
    Ok(
        is_or_like_plain(&mut fast, &mut slow, &first)
            && is_minus_like_plain(&mut fast, &mut slow, &second)
            && is_and_like_plain(&mut fast, &mut slow, &first),
    )
}

#[test]
fn merges_like_plain(rt: HostRuntime) -> Result<(), Fail> {
    for length in LENGTHS {
        assert!(rt; are_merges_like_plain(rt.alloc(), length)?, "at {length}");
    }
    Ok(())
}

fn is_count_like_plain(set: &[u64]) -> bool {
    set.len() <= 1000 && count(set) == plain_count(set)
}

fn is_next_like_plain(set: &[u64], from: u64) -> bool {
    set.len() <= 1000 && next_one(set, from) == plain_next_one(set, from)
}

// From the first, the second and the last number of a word.
fn is_word_like_plain(set: &[u64], place: u64) -> bool {
    let from = place.wrapping_mul(64);
    is_next_like_plain(set, from)
        && is_next_like_plain(set, from.wrapping_add(1))
        && is_next_like_plain(set, from.wrapping_add(63))
}

fn expect_walks(rt: &impl Abort, set: &[u64]) {
    for place in 0..set.len() as u64 {
        assert!(rt; is_word_like_plain(set, place), "at word {place}");
    }
}

fn expect_set(rt: &impl Abort, set: &[u64]) {
    assert!(rt; is_count_like_plain(set), "at {}", set.len());
    expect_walks(rt, set);
}

#[test]
fn counts_and_walks_like_plain(rt: HostRuntime) -> Result<(), Fail> {
    for length in LENGTHS {
        expect_set(&rt, &words(rt.alloc(), length, 4)?);
    }
    Ok(())
}

fn is_selection_like_plain(op: Cmp, column: &[i64], fast: &mut [u64], slow: &mut [u64]) -> bool {
    if column.len() > 1000 {
        return false;
    }
    let words = (column.len() + 63) / 64;
    if fast.len() != words || slow.len() != words {
        return false;
    }
    select_i64(op, column, -1, fast);
    plain_select_i64(op, column, -1, slow);
    &*fast == &*slow
}

fn is_op_like_plain(alloc: Global, op: Cmp, column: &[i64]) -> Result<bool, AllocError> {
    let mut fast = words(alloc, column.len().div_ceil(64), 5)?;
    let mut slow = words(alloc, column.len().div_ceil(64), 6)?;
    Ok(is_selection_like_plain(op, column, &mut fast, &mut slow))
}

fn expect_selection(
    rt: &impl Abort,
    alloc: Global,
    op: Cmp,
    column: &[i64],
) -> Result<(), AllocError> {
    assert!(rt;
        is_op_like_plain(alloc, op, column)?,
        "{op:?} at {}",
        column.len()
    );
    Ok(())
}

fn expect_selections(rt: &impl Abort, alloc: Global, length: usize) -> Result<(), AllocError> {
    let column = numbers(alloc, length)?;
    for op in [Cmp::Eq, Cmp::Ne, Cmp::Lt, Cmp::Le, Cmp::Gt, Cmp::Ge] {
        expect_selection(rt, alloc, op, &column)?;
    }
    Ok(())
}

#[test]
fn selects_like_plain(rt: HostRuntime) -> Result<(), Fail> {
    for length in LENGTHS {
        expect_selections(&rt, rt.alloc(), length)?;
    }
    Ok(())
}

fn leads_to(set: &[u64], from: u64, want: Option<u64>) -> bool {
    set.len() <= 1000 && next_one(set, from) == want
}

fn has_four(set: &[u64]) -> bool {
    set.len() <= 1000
        && count(set) == 4
        && leads_to(set, 0, Some(0))
        && leads_to(set, 1, Some(63))
        && leads_to(set, 64, Some(64))
        && leads_to(set, 65, Some(128))
        && leads_to(set, 129, None)
}

fn union_by_hand() -> [u64; 3] {
    let mut set = [9223372036854775809, 1, 0];
    or_into(&mut set, &[9223372036854775808, 0, 1]);
    set
}

// The numbers 0, 63 and 64, united with 63 and 128.
#[test]
fn unites_by_hand(rt: HostRuntime) {
    let set = union_by_hand();
    assert!(rt; set == [9223372036854775809, 1, 1]);
    assert!(rt; has_four(&set));
}
