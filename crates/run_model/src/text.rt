//! The texts of an outcome and of a table (`docs/FORMATS.md`).

ghost use Rattle.std.specs.Prelude.{◌≡◌, ◌++◌, ◌∷◌, [], codes, length, take, IfOk, OnOk, OnErr};
ghost use Rattle.std.specs.List.{flat_map};
ghost use Rattle.std.specs.Fmt.{decimal};
ghost use Rattle.run_model.specs.OutcomeText.{line, utf8_text, value_text, values_text, row_text, rows_text};
ghost use Rattle.run_model.specs.OutcomeText.{key_text, refusal_text, reply_text, parts_text, name_text};
ghost use Rattle.run_model.specs.OutcomeText.{head_text, process_text, file_text, removed_text, content_text};
ghost use Rattle.run_model.specs.OutcomeText.{path_text, outcome_text_of};
ghost use Rattle.run_model.specs.TableText.{table_row_text, table_text_of};

use crate::outcome::{Outcome, PathOutcome, ProcOutcome};
use ldv_value::{Bytes, RowList, Utf8, Value, Values, append_number, append_signed};
use sql_model::{Replies, Reply, SqlRefusal, Table, TableRow};
use std::alloc::{AllocError, Global};
use std::mem;

/// The text of an outcome: its counts, its processes and its touched paths.
pub fn outcome_text(alloc: Global, outcome: &Outcome) -> Result<Bytes, AllocError>
    ensures { IfOk result (λ text. text ≡ outcome_text_of outcome.now) }
{
    let mut text = Bytes::new(alloc);
    text.extend(b"outcome ")?;
    append_number(outcome.processes.len() as u64, &mut text)?;
    text.extend(b" ")?;
    append_number(outcome.paths.len() as u64, &mut text)?;
    text.extend(b"\n")?;
    append_processes(&mut text, outcome.processes.items())?;
    append_paths(&mut text, outcome.paths.items())?;
    Ok(text)
}

/// The text of a table: its name, the number that its next row gets, and its rows with their numbers.
pub fn table_text(alloc: Global, table: &Table) -> Result<Bytes, AllocError>
    ensures { IfOk result (λ text. text ≡ table_text_of table.now) }
{
    let mut text = Bytes::new(alloc);
    text.extend(b"table ")?;
    text.extend(table.name.as_str().as_bytes())?;
    text.extend(b" ")?;
    append_number(table.next as u64, &mut text)?;
    append_counted(&mut text, b" ", table.rows.len() as u64)?;
    append_table_rows(&mut text, table.rows.items())?;
    Ok(text)
}

fn append_table_rows(to: &mut Bytes, rows: &[TableRow]) -> Result<(), AllocError>
    ensures { OnOk result (to.new ≡ to.old ++ flat_map table_row_text rows.now) }
{
    for row in rows {
        append_table_row(to, row)?;
    }
    Ok(())
}

fn append_table_row(to: &mut Bytes, row: &TableRow) -> Result<(), AllocError>
    ensures { OnOk result (to.new ≡ to.old ++ table_row_text row.now) }
{
    to.extend(b"row ")?;
    append_number(row.number as u64, to)?;
    append_counted(to, b" ", row.values.len() as u64)?;
    append_values(to, row.values.items())
}

fn append_line(to: &mut Bytes, bytes: &[u8]) -> Result<(), AllocError>
    ensures { OnOk result (to.new ≡ to.old ++ line bytes.now) }
{
    to.extend(bytes)?;
    to.extend(b"\n")
}

// A word that ends in a blank, a number and LF.
fn append_counted(to: &mut Bytes, word: &[u8], number: u64) -> Result<(), AllocError>
    ensures { OnOk result (to.new ≡ to.old ++ line (word.now ++ decimal number)) }
{
    to.extend(word)?;
    append_number(number, to)?;
    to.extend(b"\n")
}

fn append_value(to: &mut Bytes, value: &Value) -> Result<(), AllocError>
    ensures { OnOk result (to.new ≡ to.old ++ value_text value.now) }
{
    match value {
        Value::Null => to.extend(b"null\n"),
        Value::Int(number) => {
            to.extend(b"int ")?;
            append_signed(*number, to)?;
            to.extend(b"\n")
        }
        Value::Text(text) => append_text_value(to, text),
    }
}

fn append_text_value(to: &mut Bytes, text: &Utf8) -> Result<(), AllocError>
    ensures { OnOk result (to.new ≡ to.old ++ utf8_text text.now) }
{
    append_counted(to, b"text ", text.len() as u64)?;
    append_line(to, text.as_str().as_bytes())
}

fn append_values(to: &mut Bytes, values: &[Value]) -> Result<(), AllocError>
    ensures { OnOk result (to.new ≡ to.old ++ values_text values.now) }
{
    for value in values {
        append_value(to, value)?;
    }
    Ok(())
}

fn append_row(to: &mut Bytes, values: &Values) -> Result<(), AllocError>
    ensures { OnOk result (to.new ≡ to.old ++ row_text values.now) }
{
    append_counted(to, b"row ", values.len() as u64)?;
    append_values(to, values.items())
}

fn append_rows(to: &mut Bytes, rows: &[Values]) -> Result<(), AllocError>
    ensures { OnOk result (to.new ≡ to.old ++ flat_map row_text rows.now) }
{
    for row in rows {
        append_row(to, row)?;
    }
    Ok(())
}

fn append_refusal(to: &mut Bytes, refusal: &SqlRefusal) -> Result<(), AllocError>
    ensures { OnOk result (to.new ≡ to.old ++ refusal_text refusal.now) }
{
    match refusal {
        SqlRefusal::KeyTaken { table, key } => append_key(to, refusal.code(), table, key),
        SqlRefusal::NoParent { table, key } => append_key(to, refusal.code(), table, key),
        SqlRefusal::HasChild { table, key } => append_key(to, refusal.code(), table, key),
        _ => append_counted(to, b"refused ", refusal.code() as u64),
    }
}

// A refusal by a key of a table.
fn append_key(to: &mut Bytes, code: u8, table: &Utf8, key: &Values) -> Result<(), AllocError>
    ensures { OnOk result (to.new ≡ to.old ++ key_text code table.now key.now) }
{
    to.extend(b"refused ")?;
    append_number(code as u64, to)?;
    to.extend(b" ")?;
    to.extend(table.as_str().as_bytes())?;
    append_counted(to, b" ", key.len() as u64)?;
    append_values(to, key.items())
}

fn append_reply(to: &mut Bytes, reply: &Reply) -> Result<(), AllocError>
    ensures { OnOk result (to.new ≡ to.old ++ reply_text reply.now) }
{
    match reply {
        Reply::Rows(rows) => append_answer(to, rows),
        Reply::Changed(count) => append_counted(to, b"changed ", *count),
        Reply::Refused(refusal) => append_refusal(to, refusal),
    }
}

fn append_answer(to: &mut Bytes, rows: &RowList) -> Result<(), AllocError>
    ensures { OnOk result (to.new ≡ to.old ++ rows_text rows.now) }
{
    append_counted(to, b"rows ", rows.len() as u64)?;
    append_rows(to, rows.items())
}

fn append_replies(to: &mut Bytes, replies: &[Reply]) -> Result<(), AllocError>
    ensures { OnOk result (to.new ≡ to.old ++ flat_map reply_text replies.now) }
{
    for reply in replies {
        append_reply(to, reply)?;
    }
    Ok(())
}

// On `AllocError` some of it may stand at the end.
#[tactic(auto, using(crate::proofs::Fronts::front_rules))]
fn append_parts(to: &mut Bytes, parts: &[u32]) -> Result<(), AllocError>
    ensures ok { OnOk result (to.new ≡ to.old ++ parts_text parts.now) }
    ensures front { take (length to.old) to.new ≡ to.old }
{
    for part in parts {
        to.extend(b".")?;
        append_number(*part as u64, to)?;
    }
    Ok(())
}

/// Puts the name of a process at the end, by its spawn path: `0`, `0.1`. On `AllocError` nothing is put
/// there.
pub fn append_name(to: &mut Bytes, parts: &[u32]) -> Result<(), AllocError>
    ensures ok { OnOk result (to.new ≡ to.old ++ name_text parts.now) }
    ensures err { OnErr result (to.new ≡ to.old) }
{
    match parts {
        [] => Ok(()),
        [first, rest @ ..] => append_parts_from(to, *first, rest),
    }
}

fn append_parts_from(to: &mut Bytes, first: u32, rest: &[u32]) -> Result<(), AllocError>
    ensures ok { OnOk result (to.new ≡ to.old ++ decimal first ++ parts_text rest.now) }
    ensures err { OnErr result (to.new ≡ to.old) }
{
    let length = to.len();
    match append_all_parts(to, first, rest) {
        Ok(()) => Ok(()),
        Err(stop) => {
            cut_at(to, length);
            Err(stop)
        }
    }
}

#[tactic(auto, using(crate::proofs::Fronts::front_rules))]
fn append_all_parts(to: &mut Bytes, first: u32, rest: &[u32]) -> Result<(), AllocError>
    ensures ok { OnOk result (to.new ≡ to.old ++ decimal first ++ parts_text rest.now) }
    ensures front { take (length to.old) to.new ≡ to.old }
{
    append_number(first as u64, to)?;
    append_parts(to, rest)
}

// Takes away what stands after the first bytes.
fn cut_at(to: &mut Bytes, length: usize)
    ensures { to.new ≡ take length to.old }
{
    let none = Bytes::new(to.allocator());
    let mut bytes = mem::replace(to, none).into_vec();
    bytes.truncate(length);
    *to = Bytes::of_vec(bytes);
}

fn append_process(to: &mut Bytes, process: &ProcOutcome) -> Result<(), AllocError>
    ensures { OnOk result (to.new ≡ to.old ++ process_text process.now) }
{
    append_head(to, process)?;
    append_line(to, process.printed.as_slice())?;
    append_replies(to, process.replies.items())
}

fn append_head(to: &mut Bytes, process: &ProcOutcome) -> Result<(), AllocError>
    ensures { OnOk result (to.new ≡ to.old ++ head_text process.now) }
{
    to.extend(b"process ")?;
    append_name(to, process.name.parts.items())?;
    to.extend(b" ")?;
    append_number(process.status as u64, to)?;
    to.extend(b" ")?;
    append_number(process.printed.len() as u64, to)?;
    append_counted(to, b" ", process.replies.len() as u64)
}

fn append_processes(to: &mut Bytes, processes: &[ProcOutcome]) -> Result<(), AllocError>
    ensures { OnOk result (to.new ≡ to.old ++ flat_map process_text processes.now) }
{
    for process in processes {
        append_process(to, process)?;
    }
    Ok(())
}

fn append_path(to: &mut Bytes, path: &PathOutcome) -> Result<(), AllocError>
    ensures { OnOk result (to.new ≡ to.old ++ path_text path.now) }
{
    match &path.content {
        None => append_removed(to, &path.path),
        Some(bytes) => append_file(to, &path.path, bytes),
    }
}

fn append_removed(to: &mut Bytes, path: &Utf8) -> Result<(), AllocError>
    ensures { OnOk result (to.new ≡ to.old ++ removed_text path.now) }
{
    append_counted(to, b"removed ", path.len() as u64)?;
    append_line(to, path.as_str().as_bytes())
}

fn append_file(to: &mut Bytes, path: &Utf8, bytes: &Bytes) -> Result<(), AllocError>
    ensures { OnOk result (to.new ≡ to.old ++ file_text path.now bytes.now) }
{
    to.extend(b"file ")?;
    append_number(path.len() as u64, to)?;
    append_counted(to, b" ", bytes.len() as u64)?;
    append_line(to, path.as_str().as_bytes())?;
    append_line(to, bytes.as_slice())
}

fn append_paths(to: &mut Bytes, paths: &[PathOutcome]) -> Result<(), AllocError>
    ensures { OnOk result (to.new ≡ to.old ++ flat_map path_text paths.now) }
{
    for path in paths {
        append_path(to, path)?;
    }
    Ok(())
}
