//! The program over streams in which one call fails. Each call fails in turn, from the first on, until the
//! program doesn't make the call that should fail.

use crate::joins::twice;
use crate::streams::{Ended, call};
use std::alloc::{AllocError, Global};
use std::process::Abort;
use std::test::Fail;

const WORLD: &[u8] = br#"{"start":["main"],"files":{"main":"exit 0"}}"#;

const OUTCOME: &str = "outcome 1 0\nprocess 0 0 0 0\n\n";

// A world of which a row is needed.
const ASKING: &[u8] = br#"{"start":["main"],"files":{"main":"sql q \"SELECT a FROM t\"\n"},
    "tables":{"t":{"columns":[["a","INT"]],"rows":[[7]]}}}"#;

// A world whose run writes a path, which then depends on something.
const WRITING: &[u8] = br#"{"start":["main"],
    "files":{"main":"open f w \"out\" else x\nwrite f 1\nx:\n"}}"#;

// More calls than any of the runs below makes.
const CALLS: u64 = 1_000;

fn is_ended(ended: &Ended, status: u8, written: &str, line: &str) -> bool {
    ended.status == status
        && ended.written.as_slice() == written.as_bytes()
        && ended.line.as_slice() == line.as_bytes()
}

fn expect(rt: &impl Abort, ended: &Ended, status: u8, written: &str, line: &str) {
    assert!(rt; is_ended(ended, status, written, line));
}

// Whether a call of the program is done. Where it isn't, the fault is that of a read, and nothing was
// written.
fn done_or_unread(rt: &impl Abort, ended: &Ended) -> bool {
    if ended.status == 0 {
        return true;
    }
    expect(rt, ended, 3, "", "ldv: read fault\n");
    false
}

// The same of the call of a command whose read with this number fails.
fn is_done_without_read(
    rt: &impl Abort,
    alloc: Global,
    command: &str,
    input: &[u8],
    read: u64,
) -> Result<bool, AllocError> {
    let ended = call(alloc, command, input, (read, 0, 0))?;
    Ok(done_or_unread(rt, &ended))
}

// Each read fails once. Gives the number of the first read that isn't made.
fn every_read(
    rt: &impl Abort,
    alloc: Global,
    command: &str,
    input: &[u8],
) -> Result<u64, AllocError> {
    for read in 1..CALLS {
        if is_done_without_read(rt, alloc, command, input, read)? {
            return Ok(read);
        }
    }
    panic!(rt; "reads without an end")
}

// What a run that is done has written.
fn written_by(rt: &impl Abort, ended: Ended) -> Vec<u8> {
    assert!(rt; ended.status == 0);
    ended.written
}

// What a command that is done writes.
fn written_bytes(
    rt: &impl Abort,
    alloc: Global,
    command: &str,
    input: &[u8],
) -> Result<Vec<u8>, AllocError> {
    let ended = call(alloc, command, input, (0, 0, 0))?;
    Ok(written_by(rt, ended))
}

// Whether the fault of a call is that of a write, and of all that it writes ten bytes stay by each write
// before.
fn is_unwritten(ended: &Ended, whole: &[u8], before: usize) -> bool {
    ended.status == 4
        && ended.line.as_slice() == "ldv: write fault\n".as_bytes()
        && ended.written.len() == before.saturating_mul(10)
        && whole.starts_with(ended.written.as_slice())
}

// Whether a call has written all, or was stopped by the fault of a write.
fn is_whole_or_unwritten(ended: &Ended, whole: &[u8], before: usize) -> bool {
    if ended.status == 0 {
        ended.written.as_slice() == whole
    } else {
        is_unwritten(ended, whole, before)
    }
}

// Whether a call of the program is done. Where it isn't, a write failed.
fn done_or_unwritten(rt: &impl Abort, ended: &Ended, whole: &[u8], before: usize) -> bool {
    assert!(rt; is_whole_or_unwritten(ended, whole, before));
    ended.status == 0
}

// The same of the call of a command whose write after so many fails.
fn is_done_without_write(
    rt: &impl Abort,
    alloc: Global,
    command: &str,
    input: &[u8],
    whole: &[u8],
    before: u64,
) -> Result<bool, AllocError> {
    let ended = call(alloc, command, input, (0, before.saturating_add(1), 0))?;
    Ok(done_or_unwritten(rt, &ended, whole, before as usize))
}

// Each write fails once, until all is written.
fn every_write_of(
    rt: &impl Abort,
    alloc: Global,
    command: &str,
    input: &[u8],
    whole: &[u8],
) -> Result<u64, AllocError> {
    for before in 0..CALLS {
        if is_done_without_write(rt, alloc, command, input, whole, before)? {
            return Ok(before.saturating_add(1));
        }
    }
    panic!(rt; "writes without an end")
}

// Each write fails once. Gives the number of the first write that isn't made.
fn every_write(
    rt: &impl Abort,
    alloc: Global,
    command: &str,
    input: &[u8],
) -> Result<u64, AllocError> {
    let whole = written_bytes(rt, alloc, command, input)?;
    every_write_of(rt, alloc, command, input, whole.as_slice())
}

fn every_call(
    rt: &impl Abort,
    alloc: Global,
    command: &str,
    input: &[u8],
) -> Result<(), AllocError> {
    every_read(rt, alloc, command, input)?;
    every_write(rt, alloc, command, input)?;
    Ok(())
}

fn every_command(
    rt: &impl Abort,
    alloc: Global,
    commands: &[&str],
    input: &[u8],
) -> Result<(), AllocError> {
    for command in commands {
        every_call(rt, alloc, *command, input)?;
    }
    Ok(())
}

// ---- the replay of the least world

// Its package has 107 bytes and their digest.
fn least_package(rt: &impl Abort, alloc: Global) -> Result<Vec<u8>, AllocError> {
    let package = written_bytes(rt, alloc, "record", WORLD)?;
    assert!(rt; package.len() == 139);
    Ok(package)
}

// Fourteen reads give ten bytes or what is left, and one gives nothing.
#[test]
fn one_read_of_a_replay_fails(rt: HostRuntime) -> Result<(), Fail> {
    let package = least_package(&rt, rt.alloc())?;
    let first = every_read(&rt, rt.alloc(), "replay", package.as_slice())?;
    assert!(rt; first == 16);
    Ok(())
}

// A write, the status where it fails, what was written, and the line.
type Cut = (u64, u8, &'static str, &'static str);

fn expect_cut(rt: &impl Abort, alloc: Global, package: &[u8], cut: Cut) -> Result<(), AllocError> {
    let (write, status, taken, line) = cut;
    let ended = call(alloc, "replay", package, (0, write, 0))?;
    expect(rt, &ended, status, taken, line);
    Ok(())
}

fn cuts() -> [Cut; 4] {
    let line = "ldv: write fault\n";
    [
        (1, 4, "", line),
        (2, 4, "outcome 1 ", line),
        (3, 4, "outcome 1 0\nprocess ", line),
        (4, 0, OUTCOME, ""),
    ]
}

fn expect_cuts(rt: &impl Abort, alloc: Global, package: &[u8]) -> Result<(), AllocError> {
    for cut in cuts() {
        expect_cut(rt, alloc, package, cut)?;
    }
    Ok(())
}

// The outcome has 29 bytes, which three writes take.
#[test]
fn one_write_of_a_replay_fails(rt: HostRuntime) -> Result<(), Fail> {
    let package = least_package(&rt, rt.alloc())?;
    expect_cuts(&rt, rt.alloc(), package.as_slice())?;
    Ok(())
}

// ---- every command

// Those that read a world.
#[test]
fn one_call_on_a_world_fails(rt: HostRuntime) -> Result<(), Fail> {
    let commands = ["run", "record", "record --excluded"];
    every_command(&rt, rt.alloc(), &commands, ASKING)?;
    Ok(())
}

// That reads nothing.
#[test]
fn one_write_of_a_generated_world_fails(rt: HostRuntime) -> Result<(), Fail> {
    every_write(&rt, rt.alloc(), "gen 3", b"")?;
    Ok(())
}

fn commands_on_packages() -> [&'static str; 10] {
    [
        "replay",
        "table t 0",
        "inspect rows",
        "inspect files",
        "inspect trace",
        "inspect why t 0",
        "inspect depends main",
        "audit",
        "migrate",
        "prov",
    ]
}

// Those that read a package.
#[test]
fn one_call_on_a_package_fails(rt: HostRuntime) -> Result<(), Fail> {
    let package = written_bytes(&rt, rt.alloc(), "record", ASKING)?;
    every_command(&rt, rt.alloc(), &commands_on_packages(), package.as_slice())?;
    Ok(())
}

#[test]
fn one_call_on_recorded_replies_fails(rt: HostRuntime) -> Result<(), Fail> {
    let package = written_bytes(&rt, rt.alloc(), "record --excluded", ASKING)?;
    let commands = ["replay", "replay --seed 7", "migrate"];
    every_command(&rt, rt.alloc(), &commands, package.as_slice())?;
    Ok(())
}

// The provenance document of a run that writes a path.
fn provenance(rt: &impl Abort, alloc: Global) -> Result<Vec<u8>, AllocError> {
    let package = written_bytes(rt, alloc, "record", WRITING)?;
    written_bytes(rt, alloc, "prov", package.as_slice())
}

#[test]
fn one_call_on_a_provenance_document_fails(rt: HostRuntime) -> Result<(), Fail> {
    let document = provenance(&rt, rt.alloc())?;
    every_call(&rt, rt.alloc(), "prov depends out", document.as_slice())?;
    Ok(())
}

// The input of `join`.
fn pair_of_packages(rt: &impl Abort, alloc: Global) -> Result<Vec<u8>, AllocError> {
    let package = written_bytes(rt, alloc, "record", ASKING)?;
    twice(alloc, package.as_slice())
}

fn every_call_on_joined(rt: &impl Abort, alloc: Global, pair: &[u8]) -> Result<(), AllocError> {
    let joined = written_bytes(rt, alloc, "join", pair)?;
    let commands = ["replay --run 1", "replay --run 2"];
    every_command(rt, alloc, &commands, joined.as_slice())
}

fn every_call_on_pair(rt: &impl Abort, alloc: Global, pair: &[u8]) -> Result<(), AllocError> {
    every_call(rt, alloc, "join", pair)?;
    every_call_on_joined(rt, alloc, pair)
}

#[test]
fn one_call_on_two_packages_fails(rt: HostRuntime) -> Result<(), Fail> {
    let pair = pair_of_packages(&rt, rt.alloc())?;
    every_call_on_pair(&rt, rt.alloc(), pair.as_slice())?;
    Ok(())
}

// ---- calls that aren't made

// The calls after the last one fail, and no more: the input has 44 bytes.
#[test]
fn ends_before_a_later_fault(rt: HostRuntime) -> Result<(), Fail> {
    let ended = call(rt.alloc(), "run", WORLD, (7, 4, 1))?;
    expect(&rt, &ended, 0, OUTCOME, "");
    Ok(())
}

// Words that are no command: a read would fail, so the source isn't read.
#[test]
fn reads_nothing_for_other_words(rt: HostRuntime) -> Result<(), Fail> {
    let ended = call(rt.alloc(), "", WORLD, (1, 1, 0))?;
    expect(&rt, &ended, 2, "", "ldv: usage\n");
    Ok(())
}

// That the line can't be written changes no status.
#[test]
fn a_line_that_is_cut_changes_no_status(rt: HostRuntime) -> Result<(), Fail> {
    let ended = call(rt.alloc(), "run run", WORLD, (1, 1, 2))?;
    expect(&rt, &ended, 2, "", "ldv");
    Ok(())
}
