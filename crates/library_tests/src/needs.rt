//! The rows that statements over the table t need and make, as a tracer gets them: rows at their versions
//! after earlier changes. All was worked out by hand.

ghost use Rattle.std.specs.Prelude.{◌≡◌};

use crate::asked::{Case, ask_all, engine_of_t, expect_text};
use ldv_value::Utf8;
use run_model::{Act, Event, Events, ListTracer};
use sql_engine::Engine;
use sql_model::{Member, Need, Rule};
use std::alloc::{AllocError, Global};
use std::process::Abort;
use std::test::Fail;

// ---- texts: `needs 0@1 L 3@0 K; makes 0@2`

fn show_member(alloc: Global, text: &mut Utf8, member: &Member) -> Result<(), AllocError> {
    let (row, version) = (member.row, member.version);
    let shown = format!(in alloc; " {row}@{version}")?;
    text.push_str(shown.as_str())
}

fn rule_name(rule: Rule) -> &'static str {
    match rule {
        Rule::L => " L",
        Rule::H => " H",
        Rule::K => " K",
        Rule::P => " P",
        Rule::C => " C",
    }
}

fn show_need(alloc: Global, text: &mut Utf8, need: &Need) -> Result<(), AllocError> {
    show_member(alloc, text, &need.member)?;
    text.push_str(rule_name(need.rule))
}

fn show_needs(alloc: Global, text: &mut Utf8, needs: &[Need]) -> Result<(), AllocError> {
    text.push_str("needs")?;
    for need in needs {
        show_need(alloc, text, need)?;
    }
    Ok(())
}

fn show_made(alloc: Global, text: &mut Utf8, made: &[Member]) -> Result<(), AllocError> {
    text.push_str("; makes")?;
    for member in made {
        show_member(alloc, text, member)?;
    }
    Ok(())
}

fn show_lists(
    alloc: Global,
    text: &mut Utf8,
    needs: &[Need],
    made: &[Member],
) -> Result<(), AllocError> {
    show_needs(alloc, text, needs)?;
    show_made(alloc, text, made)
}

fn show_event(alloc: Global, text: &mut Utf8, event: &Event) -> Result<(), AllocError> {
    match &event.act {
        Act::Asked {
            statement: _,
            tables: _,
            reads,
            made,
        } => show_lists(alloc, text, reads.items(), made.items()),
        _ => text.push_str("no statement"),
    }
}

fn expect_event(
    rt: &impl Abort,
    alloc: Global,
    event: &Event,
    want: &str,
) -> Result<(), AllocError> {
    let mut text = Utf8::new(alloc);
    show_event(alloc, &mut text, event)?;
    expect_text(rt, "an event", text.as_str(), want);
    Ok(())
}

fn expect_events(
    rt: &impl Abort,
    alloc: Global,
    events: &[Event],
    wants: &[&str],
) -> Result<(), AllocError> {
    assert!(rt; events.len() == wants.len());
    for (event, want) in events.iter().zip(wants) {
        expect_event(rt, alloc, event, *want)?;
    }
    Ok(())
}

// ---- statements

fn statements() -> [Case; 8] {
    [
        ("UPDATE t SET v = v + 1 WHERE k = 2", "changed 1"),
        ("INSERT INTO t VALUES (3, 'z', 1)", "refused 6"),
        ("DELETE FROM t WHERE k = 3", "changed 1"),
        ("INSERT INTO t VALUES (3, 'n', 1)", "changed 1"),
        ("UPDATE t SET k = k + 1", "changed 5"),
        ("DELETE FROM t WHERE v IS NULL", "changed 1"),
        ("SELECT g FROM t GROUP BY g HAVING COUNT(*) > 1", "rows 1"),
        ("UPDATE t SET k = 2 WHERE k = 6", "refused 6"),
    ]
}

// The new row has the number 5. After all keys have moved, that of row 0 is 2 and that of row 4 is 6.
fn told_lines() -> [&'static str; 8] {
    [
        "needs 1@0 L; makes 1@1",
        "needs 2@0 K; makes",
        "needs 2@0 L; makes 2@1",
        "needs; makes 5@0",
        "needs 0@0 L 1@1 L 3@0 L 4@0 L 5@0 L; makes 0@1 1@2 3@1 4@1 5@1",
        "needs 3@1 L; makes 3@2",
        "needs 0@1 L 1@2 L 4@1 H 5@1 H; makes",
        "needs 0@1 K 4@1 L; makes",
    ]
}

fn events_in(rt: &impl Abort, alloc: Global, engine: &mut Engine) -> Result<Events, AllocError>
    requires { engine.old.time ≡ 0 }
{
    let mut tracer = ListTracer::new(alloc);
    ask_all(rt, alloc, engine, &statements(), &mut tracer)?;
    Ok(tracer.events())
}

// The events of the statements over the table t.
fn events_of_t(rt: &impl Abort, alloc: Global) -> Result<Events, AllocError> {
    let mut engine = engine_of_t(rt, alloc)?;
    events_in(rt, alloc, &mut engine)
}

#[test]
fn statements_need_rows_at_their_versions(rt: HostRuntime) -> Result<(), Fail> {
    let events = events_of_t(&rt, rt.alloc())?;
    expect_events(&rt, rt.alloc(), events.items(), &told_lines())?;
    Ok(())
}
