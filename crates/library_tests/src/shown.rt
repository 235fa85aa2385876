//! Answers as texts: each row with the rows of t that it comes from, and then the rows of t that none comes
//! from: `'a' 30 from 0 1; NULL 5 from 2; rejected 3; cut 4`.

use ldv_value::{Utf8, Value, Values};
use lineage::{Answer, LineageRows, LineageSet};
use query_eval::Finished;
use std::alloc::{AllocError, Global};

fn show_number(alloc: Global, text: &mut Utf8, number: i64) -> Result<(), AllocError> {
    let digits = format!(in alloc; "{number} ")?;
    text.push_str(digits.as_str())
}

fn show_text(text: &mut Utf8, value: &Utf8) -> Result<(), AllocError> {
    text.push_str("'")?;
    text.push_str(value.as_str())?;
    text.push_str("' ")
}

fn show_value(alloc: Global, text: &mut Utf8, value: &Value) -> Result<(), AllocError> {
    match value {
        Value::Null => text.push_str("NULL "),
        Value::Int(number) => show_number(alloc, text, *number),
        Value::Text(value) => show_text(text, value),
    }
}

fn show_values(alloc: Global, text: &mut Utf8, values: &Values) -> Result<(), AllocError> {
    for value in values.items() {
        show_value(alloc, text, value)?;
    }
    Ok(())
}

fn show_row(alloc: Global, text: &mut Utf8, row: u32) -> Result<(), AllocError> {
    let digits = format!(in alloc; " {row}")?;
    text.push_str(digits.as_str())
}

// The rows of t have small numbers.
fn show_bits(alloc: Global, text: &mut Utf8, word: u64) -> Result<(), AllocError> {
    for row in 0..64 {
        if word.wrapping_shr(row) % 2 == 1 {
            show_row(alloc, text, row)?;
        }
    }
    Ok(())
}

fn show_words(alloc: Global, text: &mut Utf8, words: &[u64]) -> Result<(), AllocError> {
    match words {
        [] => Ok(()),
        [first, others @ ..] => {
            show_bits(alloc, text, *first)?;
            show_others(text, others)
        }
    }
}

fn show_others(text: &mut Utf8, words: &[u64]) -> Result<(), AllocError> {
    if words.iter().any(|word| *word != 0) {
        text.push_str(" and others")
    } else {
        Ok(())
    }
}

fn show_set(alloc: Global, text: &mut Utf8, set: &LineageSet) -> Result<(), AllocError> {
    match set.block(0, 0) {
        None => Ok(()),
        Some(words) => show_words(alloc, text, words),
    }
}

fn show_rows(alloc: Global, text: &mut Utf8, rows: &LineageRows) -> Result<(), AllocError> {
    let mut set = LineageSet::empty(alloc);
    set.add_rows(rows)?;
    show_set(alloc, text, &set)
}

// Goes on after what is there.
fn show_semicolon(text: &mut Utf8) -> Result<(), AllocError> {
    if text.is_empty() {
        Ok(())
    } else {
        text.push_str("; ")
    }
}

fn show_answer(alloc: Global, text: &mut Utf8, answer: &Answer) -> Result<(), AllocError> {
    show_semicolon(text)?;
    show_values(alloc, text, &answer.values)?;
    text.push_str("from")?;
    show_rows(alloc, text, &answer.lineage)
}

fn show_answers(alloc: Global, text: &mut Utf8, answers: &[Answer]) -> Result<(), AllocError> {
    for answer in answers {
        show_answer(alloc, text, answer)?;
    }
    Ok(())
}

fn show_hidden(
    alloc: Global,
    text: &mut Utf8,
    word: &str,
    set: &LineageSet,
) -> Result<(), AllocError> {
    if set.block(0, 0).is_none() {
        return Ok(());
    }
    show_semicolon(text)?;
    text.push_str(word)?;
    show_set(alloc, text, set)
}

fn show_all(
    alloc: Global,
    text: &mut Utf8,
    finished: &Finished,
    rejected: &LineageSet,
) -> Result<(), AllocError> {
    show_answers(alloc, text, finished.answers.items())?;
    show_hidden(alloc, text, "rejected", rejected)?;
    show_hidden(alloc, text, "cut", &finished.cut)
}

/// The text of an answer, and of the rows in groups that HAVING rejects.
pub(crate) fn answer_text(
    alloc: Global,
    finished: &Finished,
    rejected: &LineageSet,
) -> Result<Utf8, AllocError> {
    let mut text = Utf8::new(alloc);
    show_all(alloc, &mut text, finished, rejected)?;
    Ok(text)
}
