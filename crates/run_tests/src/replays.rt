//! Runs over recorded replies with a tracer that keeps events, under a recorder, and of a package that stays.
//! No command does any of them.

ghost use Rattle.std.specs.Prelude.{◌≡◌, IfOk, true};
ghost use Rattle.ldv_value.specs.FileState.{files_test, initial_files};
ghost use Rattle.package_layout.specs.Valid.{IsValidPackage};
ghost use Rattle.package_layout.specs.Whole.{IsTyped};
ghost use Rattle.proc_core.specs.Running.{has_ended};
ghost use Rattle.replay_db.specs.Runs.{CanRun};

use crate::worlds::world_of_text;
use file_tree::Tree;
use free_order::{OrderStop, replay_other_seed};
use ldv_value::{Bytes, Files, Parts, RowList, Utf8, Value, Values, is_strictly_sorted};
use package_layout::{read_package, spell};
use proc_core::Run;
use replay_db::{Recorder, package_law, record_world, replay_included, table_at};
use replay_log::{ReplyLog, can_replay_law, replay_excluded, replay_seeded};
use run_model::{
    Act, Database, Entries, Entry, Event, Events, ListTracer, Log, Logs, Mode, Outcome, Package,
    ProcName, World, outcome_text,
};
use sql_model::Reply;
use std::alloc::{AllocError, Global};
use std::fmt::Write;
use std::process::Abort;
use std::test::Fail;

// The first process asks, makes a child that asks, waits for it, asks again and ends: seven steps, in this
// order by any seed.
const WORLD: &str = r#"{"start":["main"],"files":{
"ask":"sql q \"SELECT COUNT(*) FROM t\"\n",
"main":
"sql q \"SELECT g FROM t WHERE k = ?\" 1\nspawn p \"ask\" else x\nwait s p\nsql q \"DELETE FROM t\"\nx:\n"},
"tables":{"t":{"columns":[["k","INT NOT NULL"],["g","TEXT"]],"key":["k"],"rows":[[1,"a"],[2,"b"]]}}}"#;

const BUDGET: u32 = 100;

// ---- what is asked in its run, by hand

fn one(alloc: Global, value: Value) -> Result<Values, AllocError> {
    let mut values = Values::new(alloc);
    values.push(value)?;
    Ok(values)
}

fn rows_of(alloc: Global, values: Values) -> Result<RowList, AllocError> {
    let mut rows = RowList::new(alloc);
    rows.push(values)?;
    Ok(rows)
}

fn one_row(alloc: Global, value: Value) -> Result<Reply, AllocError> {
    let values = one(alloc, value)?;
    Ok(Reply::Rows(rows_of(alloc, values)?))
}

fn one_letter(alloc: Global) -> Result<Reply, AllocError> {
    let letter = Utf8::of(alloc, "a")?;
    one_row(alloc, Value::Text(letter))
}

// The entry of a question without parameters.
fn entry(alloc: Global, text: &str, reply: Reply) -> Result<Entry, AllocError> {
    Ok(Entry {
        text: Utf8::of(alloc, text)?,
        params: Values::new(alloc),
        reply,
    })
}

fn first_entry(alloc: Global) -> Result<Entry, AllocError> {
    let reply = one_letter(alloc)?;
    let mut entry = entry(alloc, "SELECT g FROM t WHERE k = ?", reply)?;
    entry.params.push(Value::Int(1))?;
    Ok(entry)
}

fn entry_of_child(alloc: Global) -> Result<Entry, AllocError> {
    let reply = one_row(alloc, Value::Int(2))?;
    entry(alloc, "SELECT COUNT(*) FROM t", reply)
}

// The log of a process that has asked nothing yet.
fn log_of(alloc: Global, parts: &[u32]) -> Result<Log, AllocError> {
    Ok(Log {
        process: ProcName {
            parts: Parts::of_vec(Vec::from_slice(alloc, parts)?),
        },
        entries: Entries::new(alloc),
    })
}

fn push_first(alloc: Global, entries: &mut Entries) -> Result<(), AllocError> {
    entries.push(first_entry(alloc)?)?;
    entries.push(entry(alloc, "DELETE FROM t", Reply::Changed(2))?)
}

fn log_of_first(alloc: Global) -> Result<Log, AllocError> {
    let mut log = log_of(alloc, &[0])?;
    push_first(alloc, &mut log.entries)?;
    Ok(log)
}

fn push_of_child(alloc: Global, entries: &mut Entries) -> Result<(), AllocError> {
    entries.push(entry_of_child(alloc)?)
}

fn log_of_child(alloc: Global) -> Result<Log, AllocError> {
    let mut log = log_of(alloc, &[0, 0])?;
    push_of_child(alloc, &mut log.entries)?;
    Ok(log)
}

fn push_logs(alloc: Global, logs: &mut Logs) -> Result<(), AllocError> {
    logs.push(log_of_first(alloc)?)?;
    logs.push(log_of_child(alloc)?)
}

fn logs(alloc: Global) -> Result<Logs, AllocError> {
    let mut logs = Logs::new(alloc);
    push_logs(alloc, &mut logs)?;
    Ok(logs)
}

// ---- packages

fn recorded_package(rt: &impl Abort, alloc: Global, mode: Mode) -> Package {
    let world = world_of_text(rt, alloc, WORLD);
    match record_world(alloc, &world, mode, BUDGET) {
        Ok(package) => package,
        Err(stop) => panic!(rt; "{stop:?}"),
    }
}

fn with_logs(package: Package, logs: Logs) -> Package {
    let mut other = package;
    other.logs = logs;
    other
}

fn spelling_of(rt: &impl Abort, alloc: Global, package: &Package) -> Bytes {
    match spell(alloc, package) {
        Ok(bytes) => bytes,
        Err(stop) => panic!(rt; "{stop:?}"),
    }
}

// ---- the replies as a database

fn reply_log(rt: &impl Abort, alloc: Global) -> Result<ReplyLog, AllocError> {
    let logs = logs(alloc)?;
    assert!(rt; is_strictly_sorted(logs.items()));
    Ok(ReplyLog::of_logs(alloc, logs))
}

fn tree_of(alloc: Global, files: Files) -> Result<Tree, AllocError>
    requires { files_test files ≡ true }
    ensures { IfOk result (λ tree. tree ≡ initial_files files) }
{
    Tree::of_files(alloc, files)
}

fn tree_of_copy(alloc: Global, files: &Files) -> Result<Tree, AllocError>
    requires { files_test files.now ≡ true }
    ensures { IfOk result (λ tree. tree ≡ initial_files files.now) }
{
    let copy = files.copy()?;
    tree_of(alloc, copy)
}

fn begin<D: Database>(alloc: Global, world: &World, db: D) -> Result<Run<D, ListTracer>, AllocError>
    requires can_run { CanRun world.now }
    requires fresh { D.latest db ≡ 0 }
    ensures { IfOk result (λ run. run.steps ≡ 0) }
{
    let tree = tree_of_copy(alloc, &world.files)?;
    Run::start(&world.start, world.seed, tree, db, ListTracer::new(alloc))
}

fn begun_run<D: Database>(
    rt: &impl Abort,
    alloc: Global,
    db: D,
) -> Result<Run<D, ListTracer>, AllocError>
    requires fresh { D.latest db ≡ 0 }
    ensures { IfOk result (λ run. run.steps ≡ 0) }
{
    let world = world_of_text(rt, alloc, WORLD);
    begin(alloc, &world, db)
}

// The world's run over a database, at its end.
fn ended_run<D: Database>(
    rt: &impl Abort,
    alloc: Global,
    db: D,
) -> Result<Run<D, ListTracer>, AllocError>
    requires fresh { D.latest db ≡ 0 }
    ensures { IfOk result (λ run. has_ended run.machine ≡ true) }
{
    let begun = begun_run(rt, alloc, db)?;
    match begun.to_end(BUDGET) {
        Ok(ended) => Ok(ended),
        Err(_) => panic!(rt; "no end"),
    }
}

// The same over the replies.
fn run_over_replies(rt: &impl Abort, alloc: Global) -> Result<Run<ReplyLog, ListTracer>, AllocError>
    ensures { IfOk result (λ run. has_ended run.machine ≡ true) }
{
    let log = reply_log(rt, alloc)?;
    ended_run(rt, alloc, log)
}

// Whether a copy of the run's outcome has two processes.
fn shows_two(run: &Run<ReplyLog, ListTracer>) -> Result<bool, AllocError>
    requires { has_ended run.now.machine ≡ true }
{
    let outcome = run.outcome()?;
    Ok(outcome.processes.len() == 2)
}

// Whether the outcome of the run's own parts has two.
fn leaves_two(run: Run<ReplyLog, ListTracer>) -> Result<bool, AllocError>
    requires { has_ended run.machine ≡ true }
{
    let outcome = run.into_outcome()?;
    Ok(outcome.processes.len() == 2)
}

#[test]
fn outcome_leaves_the_run(rt: HostRuntime) -> Result<(), Fail> {
    let run = run_over_replies(&rt, rt.alloc())?;
    assert!(rt; shows_two(&run)?);
    assert!(rt; leaves_two(run)?);
    Ok(())
}

// What a run leaves: the database, and the events.
fn parts_of<D: Database>(run: Run<D, ListTracer>) -> (D, Events) {
    let (db, tracer) = run.into_parts();
    (db, tracer.events())
}

// A line of a question: its step, its process, its number, and how many tables, rows and versions it has.
fn add_question(text: &mut String, event: &Event) -> Result<(), AllocError> {
    match &event.act {
        Act::Asked {
            statement,
            tables,
            reads,
            made,
        } => writeln!(
            text,
            "{} {} {statement}: {} {} {}",
            event.step,
            event.process,
            tables.len(),
            reads.len(),
            made.len()
        ),
        _ => Ok(()),
    }
}

fn push_questions(text: &mut String, events: &[Event]) -> Result<(), AllocError> {
    for event in events {
        add_question(text, event)?;
    }
    Ok(())
}

const QUESTIONS: &str = "1 0 0: 0 0 0\n3 1 1: 0 0 0\n6 0 2: 0 0 0\n";

fn are_questions(alloc: Global, events: &[Event]) -> Result<bool, AllocError> {
    let mut text = String::new(alloc);
    push_questions(&mut text, events)?;
    Ok(text.as_str() == QUESTIONS)
}

fn expect_questions(rt: &impl Abort, alloc: Global, events: Events) -> Result<(), AllocError> {
    assert!(rt; are_questions(alloc, events.items())?);
    Ok(())
}

fn events_over_replies(rt: &impl Abort, alloc: Global) -> Result<Events, AllocError> {
    let run = run_over_replies(rt, alloc)?;
    let (_log, events) = parts_of(run);
    Ok(events)
}

#[test]
fn tells_questions_without_rows(rt: HostRuntime) -> Result<(), Fail> {
    let events = events_over_replies(&rt, rt.alloc())?;
    expect_questions(&rt, rt.alloc(), events)?;
    Ok(())
}

fn run_over_recorder(
    rt: &impl Abort,
    alloc: Global,
) -> Result<Run<Recorder<ReplyLog>, ListTracer>, AllocError> {
    let log = reply_log(rt, alloc)?;
    ended_run(rt, alloc, Recorder::over(alloc, log))
}

// A recorder over the replies, after the run over it.
fn recorder_after(rt: &impl Abort, alloc: Global) -> Result<Recorder<ReplyLog>, AllocError> {
    let run = run_over_recorder(rt, alloc)?;
    let (recorder, events) = parts_of(run);
    expect_questions(rt, alloc, events)?;
    Ok(recorder)
}

// What it keeps.
fn kept_logs(rt: &impl Abort, alloc: Global) -> Result<Logs, AllocError> {
    let recorder = recorder_after(rt, alloc)?;
    recorder.logs()
}

// The bytes of the recorded package with these replies.
fn spelled_with(rt: &impl Abort, alloc: Global, logs: Logs) -> Bytes {
    let package = with_logs(recorded_package(rt, alloc, Mode::Excluded), logs);
    spelling_of(rt, alloc, &package)
}

fn kept_bytes(rt: &impl Abort, alloc: Global) -> Result<Bytes, AllocError> {
    let logs = kept_logs(rt, alloc)?;
    Ok(spelled_with(rt, alloc, logs))
}

fn given_bytes(rt: &impl Abort, alloc: Global) -> Result<Bytes, AllocError> {
    let logs = logs(alloc)?;
    Ok(spelled_with(rt, alloc, logs))
}

fn are_given(rt: &impl Abort, alloc: Global, kept: &[u8]) -> Result<bool, AllocError> {
    let given = given_bytes(rt, alloc)?;
    Ok(kept == given.as_slice())
}

#[test]
fn keeps_the_replies_that_it_has(rt: HostRuntime) -> Result<(), Fail> {
    let kept = kept_bytes(&rt, rt.alloc())?;
    assert!(rt; are_given(&rt, rt.alloc(), kept.as_slice())?);
    Ok(())
}

// ---- a package that stays

fn recorded_bytes(rt: &impl Abort, alloc: Global, mode: Mode) -> Bytes {
    let package = recorded_package(rt, alloc, mode);
    spelling_of(rt, alloc, &package)
}

fn read_recorded(rt: &impl Abort, alloc: Global, mode: Mode) -> Package
    ensures typed { IsTyped result }
    ensures valid { IsValidPackage result }
{
    let bytes = recorded_bytes(rt, alloc, mode);
    match read_package(alloc, bytes.as_slice()) {
        Ok(package) => package,
        Err(_) => panic!(rt; "no package"),
    }
}

// Whether the run of a package over its replies has two processes.
fn is_replayed(alloc: Global, package: &Package) -> bool
    requires { IsValidPackage «package».now }
{
    can_replay_law();
    match replay_excluded(alloc, package, BUDGET) {
        Ok(outcome) => outcome.processes.len() == 2,
        Err(_) => false,
    }
}

// Whether it has two under another seed.
fn is_replayed_by_seed(alloc: Global, package: &Package, seed: u64) -> bool
    requires { IsValidPackage «package».now }
{
    can_replay_law();
    match replay_seeded(alloc, package, seed, BUDGET) {
        Ok(outcome) => outcome.processes.len() == 2,
        Err(_) => false,
    }
}

// What comes of the run of WORLD by any seed, by hand: no process changes a path.
const OUTCOME: &[u8] = b"outcome 2 0\n\
process 0 0 0 2\n\nrows 1\nrow 1\ntext 1\na\nchanged 2\n\
process 0.0 0 0 1\n\nrows 1\nrow 1\nint 2\n";

fn is_outcome(alloc: Global, outcome: &Outcome) -> bool {
    match outcome_text(alloc, outcome) {
        Ok(text) => text.as_slice() == OUTCOME,
        Err(_) => false,
    }
}

// Whether a package is replayed so in another order of its steps.
fn is_replayed_in_another_order(alloc: Global, package: &Package, seed: u64) -> bool
    requires { IsValidPackage «package».now }
{
    can_replay_law();
    match replay_other_seed(alloc, package, seed, BUDGET) {
        Ok(outcome) => is_outcome(alloc, &outcome),
        Err(_) => false,
    }
}

// Whether it is refused an order, since it has rows.
fn is_not_private(alloc: Global, package: &Package) -> bool
    requires { IsValidPackage «package».now }
{
    can_replay_law();
    match replay_other_seed(alloc, package, 7, BUDGET) {
        Err(OrderStop::NotPrivate) => true,
        _ => false,
    }
}

// Whether the run of a package's own world has two.
fn is_run(alloc: Global, package: &Package) -> bool
    requires typed { IsTyped «package».now }
    requires valid { IsValidPackage «package».now }
{
    package_law();
    match replay_included(alloc, package, BUDGET) {
        Ok(outcome) => outcome.processes.len() == 2,
        Err(_) => false,
    }
}

// Whether the table has so many rows after a step of it. None: there is no such step.
fn has_rows_after(alloc: Global, package: &Package, step: u32, rows: Option<usize>) -> bool
    requires typed { IsTyped «package».now }
    requires valid { IsValidPackage «package».now }
{
    package_law();
    match table_at(alloc, package, "t", step, BUDGET) {
        Ok(table) => rows == Some(table.rows.len()),
        Err(_) => rows.is_none(),
    }
}

// The DELETE of its two rows is the sixth of its seven steps.
fn has_its_rows(alloc: Global, package: &Package) -> bool
    requires typed { IsTyped «package».now }
    requires valid { IsValidPackage «package».now }
{
    has_rows_after(alloc, package, 5, Some(2))
        && has_rows_after(alloc, package, 6, Some(0))
        && has_rows_after(alloc, package, 8, None)
}

#[test]
fn replays_a_package_that_stays(rt: HostRuntime) -> Result<(), Fail> {
    let package = read_recorded(&rt, rt.alloc(), Mode::Excluded);
    assert!(rt; is_replayed(rt.alloc(), &package));
    assert!(rt; is_replayed_by_seed(rt.alloc(), &package, 7));
    Ok(())
}

#[test]
fn replays_in_another_order(rt: HostRuntime) -> Result<(), Fail> {
    let package = read_recorded(&rt, rt.alloc(), Mode::Excluded);
    assert!(rt; is_replayed_in_another_order(rt.alloc(), &package, 0));
    assert!(rt; is_replayed_in_another_order(rt.alloc(), &package, 7));
    Ok(())
}

#[test]
fn gives_no_other_order_to_a_package_with_rows(rt: HostRuntime) -> Result<(), Fail> {
    let package = read_recorded(&rt, rt.alloc(), Mode::Included);
    assert!(rt; is_not_private(rt.alloc(), &package));
    Ok(())
}

#[test]
fn runs_an_included_package_that_stays(rt: HostRuntime) -> Result<(), Fail> {
    let package = read_recorded(&rt, rt.alloc(), Mode::Included);
    assert!(rt; is_run(rt.alloc(), &package));
    assert!(rt; has_its_rows(rt.alloc(), &package));
    Ok(())
}
