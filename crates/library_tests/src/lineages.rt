//! The rows of t that each row of an answer comes from, and those that no row comes from. Bytes only show all
//! of them together, as the needs of the statement. All was worked out by hand.

ghost use Rattle.std.specs.Prelude.{◌≡◌};

use crate::answered::answer_to;
use crate::asked::{Case, ask_all, engine_of_t, expect_text};
use crate::shown::answer_text;
use crate::stored::store_of_t;
use ldv_value::Utf8;
use lineage::LineageSet;
use run_model::NullTracer;
use sql_engine::Engine;
use std::alloc::{AllocError, Global};
use std::process::Abort;
use std::test::Fail;
use table_store::Store;

// A query and its answer, as a text.
type Want = (&'static str, &'static str);

fn text_with(
    alloc: Global,
    query: &str,
    store: &Store,
    keep: bool,
    rejected: &mut LineageSet,
) -> Result<Utf8, AllocError> {
    match answer_to(alloc, query, store, keep, rejected)? {
        None => Utf8::of(alloc, "no answer"),
        Some(finished) => answer_text(alloc, &finished, rejected),
    }
}

fn text_of(alloc: Global, query: &str, store: &Store, keep: bool) -> Result<Utf8, AllocError> {
    let mut rejected = LineageSet::empty(alloc);
    text_with(alloc, query, store, keep, &mut rejected)
}

fn expect_answer(
    rt: &impl Abort,
    alloc: Global,
    store: &Store,
    keep: bool,
    want: &Want,
) -> Result<(), AllocError> {
    let text = text_of(alloc, want.0, store, keep)?;
    expect_text(rt, want.0, text.as_str(), want.1);
    Ok(())
}

fn expect_answers(
    rt: &impl Abort,
    alloc: Global,
    store: &Store,
    keep: bool,
    wants: &[Want],
) -> Result<(), AllocError> {
    for want in wants {
        expect_answer(rt, alloc, store, keep, want)?;
    }
    Ok(())
}

// Expects answers over the table t with the rows 0 to 4.
fn expect_over_t(
    rt: &impl Abort,
    alloc: Global,
    keep: bool,
    wants: &[Want],
) -> Result<(), AllocError> {
    let store = store_of_t(rt, alloc)?;
    expect_answers(rt, alloc, &store, keep, wants)
}

// ---- rows of one source and of several

fn scans() -> [Want; 4] {
    [
        (
            "SELECT v, k FROM t",
            "10 1 from 0; 20 2 from 1; 5 3 from 2; NULL 4 from 3; 10 5 from 4",
        ),
        (
            "SELECT g FROM t WHERE v > 5",
            "'a' from 0; 'a' from 1; 'c' from 4",
        ),
        ("SELECT v FROM t WHERE k = 4", "NULL from 3"),
        ("SELECT k FROM t WHERE v > 100", ""),
    ]
}

#[test]
fn rows_come_from_themselves(rt: HostRuntime) -> Result<(), Fail> {
    expect_over_t(&rt, rt.alloc(), true, &scans())?;
    Ok(())
}

const JOIN: &str = "SELECT x.g, y.k FROM t x JOIN t y ON x.v = y.v";

fn joins() -> [Want; 4] {
    [
        (
            JOIN,
            "'a' 1 from 0; 'a' 5 from 0 4; 'a' 2 from 1; 'b' 3 from 2; 'c' 1 from 0 4; 'c' 5 from 4",
        ),
        (
            "SELECT x.k, y.k FROM t x, t y WHERE x.k < 3 AND y.k = x.k + 1",
            "1 2 from 0 1; 2 3 from 1 2",
        ),
        (
            "SELECT x.k, y.k FROM t x JOIN t y ON y.k = 3 AND x.v = 10",
            "1 3 from 0 2; 5 3 from 2 4",
        ),
        (
            "SELECT x.k, y.k, z.k FROM t x JOIN t y ON x.v = y.v JOIN t z ON y.g = z.g AND z.k <> y.k",
            "1 1 2 from 0 1; 2 2 1 from 0 1; 3 3 4 from 2 3; 5 1 2 from 0 1 4",
        ),
    ]
}

#[test]
fn joined_rows_come_from_one_of_each_source(rt: HostRuntime) -> Result<(), Fail> {
    expect_over_t(&rt, rt.alloc(), true, &joins())?;
    Ok(())
}

fn values_of_joins() -> [Want; 1] {
    [(
        JOIN,
        "'a' 1 from; 'a' 5 from; 'a' 2 from; 'b' 3 from; 'c' 1 from; 'c' 5 from",
    )]
}

#[test]
fn rows_have_the_same_values_without_lineage(rt: HostRuntime) -> Result<(), Fail> {
    expect_over_t(&rt, rt.alloc(), false, &values_of_joins())?;
    Ok(())
}

// ---- joins of each shape, with the rows that SQLite gives in the order of row numbers

// No row of a source, of one that is looked up, of a product, and no row that meets a constant.
fn joins_of_nothing() -> [Want; 6] {
    [
        ("SELECT x.k, y.k FROM t x, t y WHERE x.k > 9", ""),
        ("SELECT x.k, y.k FROM t x JOIN t y ON y.k > 9", ""),
        (
            "SELECT x.k, y.k FROM t x JOIN t y ON x.v = y.v AND y.k > 9",
            "",
        ),
        (
            "SELECT x.k, z.k FROM t x JOIN t y ON x.v = y.v AND y.k > 9 JOIN t z ON z.v = y.v",
            "",
        ),
        (
            "SELECT x.k, y.k FROM t x JOIN t y ON x.v = y.v WHERE x.k = 4",
            "",
        ),
        ("SELECT x.k, y.k FROM t x, t y WHERE 1 = 2", ""),
    ]
}

#[test]
fn joins_of_nothing_are_empty(rt: HostRuntime) -> Result<(), Fail> {
    expect_over_t(&rt, rt.alloc(), true, &joins_of_nothing())?;
    Ok(())
}

// Conditions on two columns of one source, which no mask tests.
fn single_sources() -> [Want; 2] {
    [
        ("SELECT k FROM t WHERE v = k * 10", "1 from 0; 2 from 1"),
        (
            "SELECT x.k FROM t x WHERE x.v + x.k > 10 AND x.g <> 'c'",
            "1 from 0; 2 from 1",
        ),
    ]
}

#[test]
fn rows_of_one_source_are_tested(rt: HostRuntime) -> Result<(), Fail> {
    expect_over_t(&rt, rt.alloc(), true, &single_sources())?;
    Ok(())
}

// By two columns at once, by one of each earlier source, by one column twice, and with sources of which rows
// are left out before.
fn joins_by_equalities() -> [Want; 6] {
    [
        (
            "SELECT x.k, y.k FROM t x JOIN t y ON x.g = y.g AND x.v = y.v",
            "1 1 from 0; 2 2 from 1; 3 3 from 2; 5 5 from 4",
        ),
        (
            "SELECT x.k, y.k, z.k FROM t x JOIN t y ON x.v = y.v JOIN t z ON z.g = y.g AND z.v = x.v",
            "1 1 1 from 0; 1 5 5 from 0 4; 2 2 2 from 1; 3 3 3 from 2; 5 1 1 from 0 4; 5 5 5 from 4",
        ),
        (
            "SELECT x.k, y.k, z.k FROM t x JOIN t y ON y.k = x.k + 1 JOIN t z ON z.k = x.k AND z.g = y.g",
            "1 2 1 from 0 1; 3 4 3 from 2 3",
        ),
        (
            "SELECT x.k, z.k FROM t x JOIN t y ON x.k <> y.k JOIN t z ON z.k = x.k AND z.k = y.k",
            "",
        ),
        (
            "SELECT z.k FROM t x JOIN t y ON x.k = y.k JOIN t z ON z.k = x.k AND z.k = y.k WHERE x.k < 3",
            "1 from 0; 2 from 1",
        ),
        (
            "SELECT x.k, y.k FROM t x JOIN t y ON x.g = y.g WHERE x.k > 3 AND y.k > 2",
            "4 3 from 2 3; 4 4 from 3; 5 5 from 4",
        ),
    ]
}

#[test]
fn rows_are_joined_by_equalities(rt: HostRuntime) -> Result<(), Fail> {
    expect_over_t(&rt, rt.alloc(), true, &joins_by_equalities())?;
    Ok(())
}

// Conditions between the first source and the last, with one between them that no condition ties.
fn joins_over_a_source() -> [Want; 4] {
    [
        (
            "SELECT x.k, y.k, z.k FROM t x, t y, t z WHERE z.k = x.k + 3 AND y.k = 2",
            "1 2 4 from 0 1 3; 2 2 5 from 1 4",
        ),
        (
            "SELECT x.k, y.k, z.k FROM t x, t y, t z WHERE x.g = z.g AND x.k < z.k AND y.v = 10",
            "1 1 2 from 0 1; 1 5 2 from 0 1 4; 3 1 4 from 0 2 3; 3 5 4 from 2 3 4",
        ),
        (
            "SELECT x.k, y.k, z.k FROM t x JOIN t y ON y.k < 3 JOIN t z ON z.v = x.v AND z.k > x.k",
            "1 1 5 from 0 4; 1 2 5 from 0 1 4",
        ),
        (
            "SELECT x.k, y.k, z.k FROM t x, t y, t z WHERE x.k + y.k + z.k = 14",
            "4 5 5 from 3 4; 5 4 5 from 3 4; 5 5 4 from 3 4",
        ),
    ]
}

#[test]
fn conditions_see_the_first_source_and_the_last(rt: HostRuntime) -> Result<(), Fail> {
    expect_over_t(&rt, rt.alloc(), true, &joins_over_a_source())?;
    Ok(())
}

fn products() -> [Want; 5] {
    [
        (
            "SELECT x.k, y.k FROM t x, t y WHERE x.k + y.k = 5",
            "1 4 from 0 3; 2 3 from 1 2; 3 2 from 1 2; 4 1 from 0 3",
        ),
        (
            "SELECT x.k, y.k FROM t x JOIN t y ON x.v < y.v AND NOT x.g = y.g",
            "3 1 from 0 2; 3 2 from 1 2; 3 5 from 2 4; 5 2 from 1 4",
        ),
        (
            "SELECT x.k, y.k FROM t x, t y WHERE x.v IS NULL AND y.k < 3 OR y.k * x.k = 10",
            "2 5 from 1 4; 4 1 from 0 3; 4 2 from 1 3; 5 2 from 1 4",
        ),
        (
            "SELECT x.k, y.k, z.k FROM t x, t y, t z WHERE x.k < 3 AND y.k = 2 AND z.k < 3",
            "1 2 1 from 0 1; 1 2 2 from 0 1; 2 2 1 from 0 1; 2 2 2 from 1",
        ),
        (
            "SELECT x.k, y.k FROM t x, t y WHERE 1 = 1 AND x.k = y.k AND x.k < 2",
            "1 1 from 0",
        ),
    ]
}

#[test]
fn products_are_tested_row_by_row(rt: HostRuntime) -> Result<(), Fail> {
    expect_over_t(&rt, rt.alloc(), true, &products())?;
    Ok(())
}

// ---- merged rows

fn merged_wants() -> [Want; 4] {
    [
        (
            "SELECT DISTINCT x.g FROM t x JOIN t y ON x.v = y.v",
            "'a' from 0 1 4; 'b' from 2; 'c' from 0 4",
        ),
        (
            "SELECT DISTINCT v FROM t",
            "10 from 0 4; 20 from 1; 5 from 2; NULL from 3",
        ),
        (
            "SELECT v FROM t WHERE g = 'a' UNION SELECT v FROM t WHERE k = 5",
            "10 from 0 4; 20 from 1",
        ),
        (
            "SELECT v FROM t UNION SELECT k FROM t",
            "10 from 0 4; 20 from 1; 5 from 2 4; NULL from 3; 1 from 0; 2 from 1; 3 from 2; 4 from 3",
        ),
    ]
}

#[test]
fn merged_rows_come_from_all(rt: HostRuntime) -> Result<(), Fail> {
    expect_over_t(&rt, rt.alloc(), true, &merged_wants())?;
    Ok(())
}

// UNION ALL merges nothing, and each UNION merges what is before it.
fn united_wants() -> [Want; 3] {
    [
        (
            "SELECT v FROM t WHERE g = 'a' UNION ALL SELECT v FROM t WHERE k = 5",
            "10 from 0; 20 from 1; 10 from 4",
        ),
        (
            "SELECT g FROM t WHERE k=1 UNION ALL SELECT g FROM t WHERE k=2 UNION SELECT g FROM t WHERE k=5",
            "'a' from 0 1; 'c' from 4",
        ),
        (
            "SELECT g FROM t WHERE k=1 UNION SELECT g FROM t WHERE k=2 UNION ALL SELECT g FROM t WHERE k=1",
            "'a' from 0 1; 'a' from 0",
        ),
    ]
}

#[test]
fn united_rows_come_from_those_before(rt: HostRuntime) -> Result<(), Fail> {
    expect_over_t(&rt, rt.alloc(), true, &united_wants())?;
    Ok(())
}

// ---- groups

fn groups() -> [Want; 3] {
    [
        (
            "SELECT x.g, SUM(y.v) FROM t x JOIN t y ON x.v = y.v GROUP BY x.g",
            "'a' 40 from 0 1 4; 'b' 5 from 2; 'c' 20 from 0 4",
        ),
        ("SELECT COUNT(*), SUM(v) FROM t WHERE k > 9", "0 NULL from"),
        ("SELECT MIN(v) FROM t", "5 from 0 1 2 3 4"),
    ]
}

#[test]
fn groups_come_from_all_their_rows(rt: HostRuntime) -> Result<(), Fail> {
    expect_over_t(&rt, rt.alloc(), true, &groups())?;
    Ok(())
}

fn rejected_wants() -> [Want; 4] {
    [
        (
            "SELECT g FROM t GROUP BY g HAVING COUNT(*) < 2",
            "'c' from 4; rejected 0 1 2 3",
        ),
        (
            "SELECT g FROM t GROUP BY g HAVING SUM(v) > 5",
            "'a' from 0 1; 'c' from 4; rejected 2 3",
        ),
        (
            "SELECT MAX(k) FROM t WHERE g = 'a' HAVING MIN(v) < 0",
            "rejected 0 1",
        ),
        (
            "SELECT k, g FROM t WHERE k = 1 UNION SELECT COUNT(v), MAX(g) FROM t HAVING COUNT(*) > 9",
            "1 'a' from 0; rejected 0 1 2 3 4",
        ),
    ]
}

#[test]
fn rejected_groups_are_told_apart(rt: HostRuntime) -> Result<(), Fail> {
    expect_over_t(&rt, rt.alloc(), true, &rejected_wants())?;
    Ok(())
}

// ---- cut rows

fn cut() -> [Want; 4] {
    [
        (
            "SELECT v, k FROM t ORDER BY v DESC LIMIT 2",
            "20 2 from 1; 10 1 from 0; cut 2 3 4",
        ),
        (
            "SELECT DISTINCT v FROM t ORDER BY v LIMIT 2",
            "NULL from 3; 5 from 2; cut 0 1 4",
        ),
        (
            "SELECT v FROM t UNION SELECT k FROM t LIMIT 1",
            "10 from 0 4; cut 0 1 2 3 4",
        ),
        ("SELECT v FROM t LIMIT 0", "cut 0 1 2 3 4"),
    ]
}

#[test]
fn cut_rows_are_told_apart(rt: HostRuntime) -> Result<(), Fail> {
    expect_over_t(&rt, rt.alloc(), true, &cut())?;
    Ok(())
}

// ---- after changes

fn changes() -> [Case; 3] {
    [
        ("UPDATE t SET v = v + 1 WHERE k = 1", "changed 1"),
        ("DELETE FROM t WHERE k = 2", "changed 1"),
        ("INSERT INTO t VALUES (9, 'n', 1)", "changed 1"),
    ]
}

fn after_changes() -> [Want; 4] {
    [
        (
            "SELECT v, k FROM t",
            "11 1 from 0; 5 3 from 2; NULL 4 from 3; 10 5 from 4; 1 9 from 5",
        ),
        (
            "SELECT x.k, y.k FROM t x JOIN t y ON x.g = y.g AND x.g = 'a'",
            "1 1 from 0",
        ),
        (
            "SELECT x.k, z.k FROM t x JOIN t y ON x.g = y.g JOIN t z ON z.k = y.k AND z.g = x.g",
            "1 1 from 0; 3 3 from 2; 3 4 from 2 3; 4 3 from 2 3; 4 4 from 3; 5 5 from 4; 9 9 from 5",
        ),
        (
            "SELECT DISTINCT g FROM t WHERE k > 3",
            "'b' from 3; 'c' from 4; 'n' from 5",
        ),
    ]
}

fn expect_after_changes(
    rt: &impl Abort,
    alloc: Global,
    engine: &mut Engine,
) -> Result<(), AllocError>
    requires { engine.old.time ≡ 0 }
{
    ask_all(rt, alloc, engine, &changes(), &mut NullTracer)?;
    expect_answers(rt, alloc, engine.store(), true, &after_changes())
}

#[test]
fn rows_keep_their_numbers_after_changes(rt: HostRuntime) -> Result<(), Fail> {
    let mut engine = engine_of_t(&rt, rt.alloc())?;
    expect_after_changes(&rt, rt.alloc(), &mut engine)?;
    Ok(())
}

// ---- answers that are nearly right

fn expect_different(rt: &impl Abort, query: &str, text: &str, wrong: &str) {
    assert!(rt; text != wrong, "answer to {query}");
}

fn expect_other(
    rt: &impl Abort,
    alloc: Global,
    store: &Store,
    wrong: &Want,
) -> Result<(), AllocError> {
    let text = text_of(alloc, wrong.0, store, true)?;
    expect_different(rt, wrong.0, text.as_str(), wrong.1);
    Ok(())
}

fn expect_others(
    rt: &impl Abort,
    alloc: Global,
    store: &Store,
    wrongs: &[Want],
) -> Result<(), AllocError> {
    for wrong in wrongs {
        expect_other(rt, alloc, store, wrong)?;
    }
    Ok(())
}

// Of merged rows the first alone, a row of one source alone, a row too many, no rejected group, cut rows as
// kept ones, another order, no row of a table, the first source changing fastest, one equality of two.
fn wrongs() -> [Want; 9] {
    [
        (
            "SELECT DISTINCT v FROM t",
            "10 from 0; 20 from 1; 5 from 2; NULL from 3",
        ),
        (
            "SELECT x.k, y.k FROM t x JOIN t y ON y.k = 3 AND x.v = 10",
            "1 3 from 0; 5 3 from 4",
        ),
        ("SELECT v FROM t WHERE k = 4", "NULL from 2 3"),
        (
            "SELECT g FROM t GROUP BY g HAVING COUNT(*) < 2",
            "'c' from 4",
        ),
        (
            "SELECT v FROM t ORDER BY v LIMIT 1",
            "NULL from 3; 5 from 2; 10 from 0; 10 from 4; 20 from 1",
        ),
        (
            "SELECT g FROM t WHERE v > 5",
            "'a' from 1; 'a' from 0; 'c' from 4",
        ),
        ("SELECT v FROM t WHERE k = 5", "10 from"),
        (
            "SELECT x.k, y.k FROM t x, t y WHERE x.k + y.k = 5",
            "4 1 from 0 3; 3 2 from 1 2; 2 3 from 1 2; 1 4 from 0 3",
        ),
        (
            "SELECT x.k, y.k FROM t x JOIN t y ON x.g = y.g AND x.v = y.v",
            "1 1 from 0; 1 2 from 0 1; 2 1 from 0 1; 2 2 from 1; 3 3 from 2; 5 5 from 4",
        ),
    ]
}

#[test]
fn nearly_right_answers_differ(rt: HostRuntime) -> Result<(), Fail> {
    let store = store_of_t(&rt, rt.alloc())?;
    expect_others(&rt, rt.alloc(), &store, &wrongs())?;
    Ok(())
}
