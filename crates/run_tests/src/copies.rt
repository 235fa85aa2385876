//! Copies: no clause says that one is made if memory is left.

use crate::worlds::world_of_text;
use ldv_value::{Bytes, CopyItem, Names, Utf8, Value, Values};
use run_model::{Act, Event, PackedFile};
use script_parse::Operand;
use sql_model::{Member, Members, Need, Needs, Rule, Table, Tables};
use std::alloc::{AllocError, Global};
use std::test::Fail;

fn need(alloc: Global) -> Result<Need, AllocError> {
    Ok(Need {
        member: Member {
            table: Utf8::of(alloc, "t")?,
            row: 4,
            version: 2,
        },
        rule: Rule::K,
    })
}

fn is_the_need(need: &Need) -> bool {
    need.member.table.is_text("t")
        && need.member.row == 4
        && need.member.version == 2
        && need.rule == Rule::K
}

fn copied_need(alloc: Global) -> Result<Need, AllocError> {
    let need = need(alloc)?;
    need.copy_item(alloc)
}

#[test]
fn copies_needs(rt: HostRuntime) -> Result<(), Fail> {
    let copy = copied_need(rt.alloc())?;
    assert!(rt; is_the_need(&copy));
    Ok(())
}

fn one_need(alloc: Global) -> Result<Needs, AllocError> {
    let need = need(alloc)?;
    let mut needs = Needs::new(alloc);
    needs.push(need)?;
    Ok(needs)
}

fn question(alloc: Global) -> Result<Event, AllocError> {
    let reads = one_need(alloc)?;
    Ok(Event {
        step: 3,
        process: 1,
        act: Act::Asked {
            statement: 2,
            tables: Names::new(alloc),
            reads,
            made: Members::new(alloc),
        },
    })
}

fn has_one_need(act: &Act) -> bool {
    match act {
        Act::Asked {
            statement,
            tables,
            reads,
            made,
        } => *statement == 2 && tables.is_empty() && reads.len() == 1 && made.is_empty(),
        _ => false,
    }
}

fn copied_question(alloc: Global) -> Result<Event, AllocError> {
    let question = question(alloc)?;
    question.copy_item(alloc)
}

fn is_the_question(event: &Event) -> bool {
    event.step == 3 && event.process == 1 && has_one_need(&event.act)
}

#[test]
fn copies_events(rt: HostRuntime) -> Result<(), Fail> {
    let copy = copied_question(rt.alloc())?;
    assert!(rt; is_the_question(&copy));
    Ok(())
}

// A file that is needed whole, with no byte in it.
fn empty_file(alloc: Global) -> Result<PackedFile, AllocError> {
    Ok(PackedFile {
        path: Utf8::of(alloc, "f")?,
        content: Some(Bytes::new(alloc)),
    })
}

fn copied_file(alloc: Global) -> Result<PackedFile, AllocError> {
    let file = empty_file(alloc)?;
    file.copy_item(alloc)
}

#[test]
fn copies_files(rt: HostRuntime) -> Result<(), Fail> {
    let copy = copied_file(rt.alloc())?;
    assert!(rt; copy.path.is_text("f") && copy.content.is_some());
    Ok(())
}

fn is_name(operand: &Operand, name: &str) -> bool {
    match operand {
        Operand::Variable(held) => held.is_text(name),
        Operand::Constant(_) => false,
    }
}

fn copied_name(alloc: Global, name: &str) -> Result<Operand, AllocError> {
    let operand = Operand::Variable(Utf8::of(alloc, name)?);
    operand.copy_item(alloc)
}

#[test]
fn copies_operands(rt: HostRuntime) -> Result<(), Fail> {
    let copy = copied_name(rt.alloc(), "x")?;
    assert!(rt; is_name(&copy, "x"));
    Ok(())
}

// A table with one row and the next number 9.
const WORLD: &str =
    r#"{"start":["m"],"files":{"m":""},"tables":{"t":{"columns":[["k","INT"]],"next":9,"rows":[[5]]}}}"#;

fn is_five(values: &Values) -> bool {
    match values.items() {
        [Value::Int(number)] => *number == 5,
        _ => false,
    }
}

fn is_the_table(table: &Table) -> bool {
    match table.rows.items() {
        [row] => is_five(&row.values) && table.next == 9,
        _ => false,
    }
}

fn are_the_tables(tables: &Tables) -> bool {
    match tables.items() {
        [table] => is_the_table(table),
        _ => false,
    }
}

fn are_copied(tables: &Tables) -> Result<bool, AllocError> {
    let copy = tables.copy()?;
    Ok(are_the_tables(&copy))
}

#[test]
fn copies_tables(rt: HostRuntime) -> Result<(), Fail> {
    let world = world_of_text(&rt, rt.alloc(), WORLD);
    assert!(rt; are_copied(&world.tables)?);
    Ok(())
}
