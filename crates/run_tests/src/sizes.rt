//! Worlds of 300,000 rows and of 300,000 statements, within the default budget. A body that goes through all
//! rows for each row would take longer than a test may.

ghost use Rattle.replay_db.specs.Runs.{CanRun};

use crate::worlds::world_of_text;
use ldv_value::{DEFAULT_STEPS, MAX_STEPS, RowList, Value, Values};
use replay_db::{EndStop, run_world};
use run_model::{Outcome, ProcOutcome, World};
use sql_model::Reply;
use std::alloc::{AllocError, Global};
use std::fmt::Write;
use std::process::Abort;
use std::test::Fail;

// A run of a world, of at most `budget` steps.
fn run(alloc: Global, world: &World, budget: u32) -> Result<Outcome, EndStop>
    requires can_run { CanRun world.now }
{
    if budget > MAX_STEPS {
        return Err(EndStop::NotEnded);
    }
    run_world(alloc, world, budget)
}

// The outcome of the run of a document's world.
fn outcome_of(rt: &impl Abort, alloc: Global, text: &str, budget: u32) -> Outcome {
    let world = world_of_text(rt, alloc, text);
    match run(alloc, &world, budget) {
        Ok(outcome) => outcome,
        Err(stop) => panic!(rt; "{stop:?}"),
    }
}

fn only_process<'a>(rt: &impl Abort, outcome: &'a Outcome) -> &'a ProcOutcome {
    match outcome.processes.items() {
        [process] => process,
        _ => panic!(rt; "one process"),
    }
}

// ---- a join

// The numbers from 1 to below the count, as rows that follow another.
fn push_numbers(text: &mut String, count: u32) -> Result<(), AllocError> {
    for number in 1..count {
        write!(text, ",[{number}]")?;
    }
    Ok(())
}

// A table of the numbers below the count, which are its key.
fn push_table(text: &mut String, name: &str, count: u32) -> Result<(), AllocError> {
    write!(
        text,
        "\"{name}\":{{\"columns\":[[\"id\",\"INT NOT NULL\"]],\"key\":[\"id\"],\"rows\":[[0]"
    )?;
    push_numbers(text, count)?;
    text.push_str("]}")
}

const JOIN: &str =
    r#"{"start":["main"],"files":{"main":"sql q \"SELECT a.id FROM a JOIN b ON a.id = b.id\""},"tables":{"#;

// The two tables, and the end of the document.
fn push_tables(text: &mut String, count: u32) -> Result<(), AllocError> {
    push_table(text, "a", count)?;
    text.push_str(",")?;
    push_table(text, "b", count)?;
    text.push_str("}}")
}

fn join_world(alloc: Global, count: u32) -> Result<String, AllocError> {
    let mut text = String::from_str(alloc, JOIN)?;
    push_tables(&mut text, count)?;
    Ok(text)
}

fn is_number(values: &Values, number: usize) -> bool {
    match values.items() {
        [Value::Int(value)] => *value >= 0 && *value as u64 == number as u64,
        _ => false,
    }
}

// All numbers below the count, in order.
fn are_numbers(rows: &RowList, count: usize) -> bool {
    rows.len() == count
        && rows
            .items()
            .iter()
            .enumerate()
            .all(|(place, values)| is_number(values, place))
}

// Whether a process has one reply, of these numbers.
fn has_numbers(process: &ProcOutcome, count: usize) -> bool {
    match process.replies.items() {
        [Reply::Rows(rows)] => are_numbers(rows, count),
        _ => false,
    }
}

fn expect_numbers(rt: &impl Abort, alloc: Global, text: &str, count: usize) {
    let outcome = outcome_of(rt, alloc, text, DEFAULT_STEPS);
    assert!(rt; has_numbers(only_process(rt, &outcome), count));
}

#[test]
fn joins_large_tables(rt: HostRuntime) -> Result<(), Fail> {
    let text = join_world(rt.alloc(), 300_000)?;
    expect_numbers(&rt, rt.alloc(), text.as_str(), 300_000);
    Ok(())
}

// ---- insertions

// A row is inserted in each turn of the loop.
const INSERTIONS: &str = r#"{"start":["main"],"files":{
"main":"let i = 0\nl:\nsql q \"INSERT INTO n VALUES (?)\" i\nlet i = i + 1\nif i < 300000 goto l\n"},
"tables":{"n":{"columns":[["id","INT NOT NULL"]],"key":["id"],"rows":[]}}}"#;

fn is_one_row(reply: &Reply) -> bool {
    match reply {
        Reply::Changed(count) => *count == 1,
        _ => false,
    }
}

fn are_insertions(replies: &[Reply], count: usize) -> bool {
    replies.len() == count && replies.iter().all(|reply| is_one_row(reply))
}

fn has_insertions(process: &ProcOutcome, count: usize) -> bool {
    process.status == 0 && are_insertions(process.replies.items(), count)
}

#[test]
fn inserts_row_by_row(rt: HostRuntime) {
    let outcome = outcome_of(&rt, rt.alloc(), INSERTIONS, DEFAULT_STEPS);
    assert!(rt; has_insertions(only_process(&rt, &outcome), 300_000));
}

fn is_ended_within(rt: &impl Abort, alloc: Global, text: &str, budget: u32) -> bool {
    let world = world_of_text(rt, alloc, text);
    match run(alloc, &world, budget) {
        Ok(_outcome) => true,
        Err(EndStop::NotEnded) => false,
        Err(EndStop::NoMemory) => panic!(rt; "out of memory"),
    }
}

// The first line, three for each row, and the end.
#[test]
fn inserts_in_just_so_many_steps(rt: HostRuntime) {
    assert!(rt; is_ended_within(&rt, rt.alloc(), INSERTIONS, 900_002));
    assert!(rt; !is_ended_within(&rt, rt.alloc(), INSERTIONS, 900_001));
}
