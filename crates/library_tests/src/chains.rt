//! The life of one row, by hand.

use ldv_value::{Value, Values};
use row_version::Chain;
use std::alloc::{AllocError, Global};
use std::process::Abort;
use std::test::Fail;

fn one(alloc: Global, number: i64) -> Result<Values, AllocError> {
    let mut values = Values::new(alloc);
    values.push(Value::Int(number))?;
    Ok(values)
}

fn is_one(values: &Values, number: i64) -> bool {
    match values.items() {
        [Value::Int(found)] => *found == number,
        _ => false,
    }
}

// Whether a version has this number; None: whether there is no version.
fn is_number(values: Option<&Values>, number: Option<i64>) -> bool {
    match (values, number) {
        (Some(values), Some(number)) => is_one(values, number),
        (None, None) => true,
        _ => false,
    }
}

// A row with the value 10 from time 3 on.
fn chain(alloc: Global) -> Result<Chain, AllocError> {
    Chain::new(alloc, 3, one(alloc, 10)?)
}

// The same row, with 20 from 5 on, which ends at 9.
fn ended_chain(alloc: Global) -> Result<Chain, AllocError> {
    let mut chain = Chain::new(alloc, 3, one(alloc, 10)?)?;
    chain.reserve()?;
    chain.add(5, one(alloc, 20)?)?;
    chain.end(9);
    Ok(chain)
}

fn expect_number(rt: &impl Abort, chain: &Chain, time: u32, want: Option<i64>) {
    assert!(rt; is_number(chain.as_of(time), want), "at {time}");
}

fn expect_numbers(rt: &impl Abort, chain: &Chain, wants: &[(u32, Option<i64>)]) {
    for (time, want) in wants {
        expect_number(rt, chain, *time, *want);
    }
}

fn times() -> [(u32, Option<i64>); 7] {
    [
        (2, None),
        (3, Some(10)),
        (4, Some(10)),
        (5, Some(20)),
        (8, Some(20)),
        (9, None),
        (u32::MAX, None),
    ]
}

#[test]
fn keeps_every_version(rt: HostRuntime) -> Result<(), Fail> {
    let chain = ended_chain(rt.alloc())?;
    assert!(rt; chain.version() == 2 && is_number(chain.current(), None));
    expect_numbers(&rt, &chain, &times());
    Ok(())
}

#[test]
fn begins_with_its_first_values(rt: HostRuntime) -> Result<(), Fail> {
    let chain = chain(rt.alloc())?;
    assert!(rt; chain.version() == 0 && is_number(chain.current(), Some(10)));
    Ok(())
}
