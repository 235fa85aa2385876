//! Inputs and packages around the limit of 64 MiB; they are too long to store.

ghost use Rattle.std.specs.Prelude.{◌<◌};

use crate::joins::twice;
use crate::long_packages::{longer_than_it_reads, package_of_a_long_name, world_of_long_rows};
use crate::streams::words_of;
use ldv_io::{DropSink, MemorySink, SteadySource};
use ldv_top::ldv_main;
use ldv_value::{Bytes, Calls};
use std::alloc::{AllocError, Global};
use std::process::Abort;
use std::test::Fail;

// A status, and the line that is written with it.
type Want = (u8, &'static str);

fn is_told(
    alloc: Global,
    words: &[String],
    source: &mut SteadySource,
    errors: &mut MemorySink,
    want: Want,
) -> bool {
    let status = ldv_main(alloc, words, source, &mut DropSink::new(), errors);
    status == want.0 && errors.taken() == want.1.as_bytes()
}

fn is_answered(
    alloc: Global,
    words: &[String],
    source: &mut SteadySource,
    want: Want,
) -> Result<bool, AllocError> {
    let mut errors = MemorySink::new(alloc, 100, 100, Calls::new(alloc))?;
    Ok(is_told(alloc, words, source, &mut errors, want))
}

fn expect_from(
    rt: &impl Abort,
    alloc: Global,
    command: &str,
    source: &mut SteadySource,
    want: Want,
) -> Result<(), AllocError> {
    let words = words_of(alloc, command)?;
    assert!(rt; is_answered(alloc, words.as_slice(), source, want)?);
    Ok(())
}

fn expect(
    rt: &impl Abort,
    alloc: Global,
    command: &str,
    input: Bytes,
    want: Want,
) -> Result<(), AllocError> {
    let mut source = SteadySource::new(input, 1_000_000);
    expect_from(rt, alloc, command, &mut source, want)
}

// `length` blanks.
fn blank(alloc: Global, length: usize) -> Result<Bytes, AllocError> {
    Ok(Bytes::of_vec(vec![in alloc; 32u8; length]?))
}

fn expect_blank(
    rt: &impl Abort,
    alloc: Global,
    command: &str,
    length: usize,
    want: Want,
) -> Result<(), AllocError> {
    let input = blank(alloc, length)?;
    expect(rt, alloc, command, input, want)
}

const TOO_LONG: Want = (5, "ldv: input longer than 67108864 bytes\n");

const NOT_JSON: Want = (6, "ldv: not a world: not json\n");

const NO_MAGIC: Want = (8, "ldv: damaged: magic\n");

const NO_DOCUMENT: Want = (16, "ldv: not a provenance document\n");

// The commands that read.
fn commands() -> [&'static str; 12] {
    [
        "run",
        "record",
        "replay",
        "replay --seed 1",
        "audit",
        "table t 0",
        "inspect rows",
        "migrate",
        "prov",
        "prov depends f",
        "join",
        "replay --run 1",
    ]
}

#[test]
fn reads_no_longer_input(rt: HostRuntime) -> Result<(), Fail> {
    for command in commands() {
        expect_blank(&rt, rt.alloc(), command, 67_108_865, TOO_LONG)?;
    }
    Ok(())
}

#[test]
fn reads_inputs_at_the_limit(rt: HostRuntime) -> Result<(), Fail> {
    expect_blank(&rt, rt.alloc(), "run", 67_108_864, NOT_JSON)?;
    expect_blank(&rt, rt.alloc(), "replay", 67_108_864, NO_MAGIC)?;
    expect_blank(&rt, rt.alloc(), "prov depends f", 67_108_864, NO_DOCUMENT)?;
    Ok(())
}

const PACKAGE_TOO_LONG: Want = (12, "ldv: package longer than 67108864 bytes\n");

#[test]
fn records_no_longer_package(rt: HostRuntime) -> Result<(), Fail> {
    let world = world_of_long_rows(rt.alloc(), 60_000)?;
    expect(&rt, rt.alloc(), "record", world, PACKAGE_TOO_LONG)?;
    Ok(())
}

// The package itself is just within the limit. That of its own world has all rows that are read in its trace.
#[test]
fn audits_no_longer_package(rt: HostRuntime) -> Result<(), Fail> {
    let package = longer_than_it_reads(&rt, rt.alloc())?;
    expect(&rt, rt.alloc(), "audit", package, PACKAGE_TOO_LONG)?;
    Ok(())
}

// The input of `join`.
fn pair_of_packages(rt: &impl Abort, alloc: Global, count: u32) -> Result<Bytes, AllocError> {
    let package = package_of_a_long_name(rt, alloc, count)?;
    Ok(Bytes::of_vec(twice(alloc, package.as_slice())?))
}

fn expect_joined(rt: &impl Abort, alloc: Global, count: u32, want: Want) -> Result<(), AllocError> {
    let pair = pair_of_packages(rt, alloc, count)?;
    expect(rt, alloc, "join", pair, want)
}

// Joined with itself a package has for each row 5 bytes, and for each of the two runs a reason of 76 and 9 in
// the trace. So 383,000 rows are within the limit, and 384,000 aren't.
#[test]
fn joins_to_no_longer_package(rt: HostRuntime) -> Result<(), Fail> {
    expect_joined(&rt, rt.alloc(), 383_000, (0, ""))?;
    expect_joined(&rt, rt.alloc(), 384_000, PACKAGE_TOO_LONG)?;
    Ok(())
}
