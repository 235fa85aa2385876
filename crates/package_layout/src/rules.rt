//! The rules for start words, files, tables and logs.

ghost use Rattle.std.specs.Prelude.{◌≡◌, IfOk, nat_lt};
ghost use Rattle.std.specs.List.{list_all};
ghost use Rattle.sql_model.specs.Tables.{is_short, numbers_test};
ghost use Rattle.package_layout.specs.Valid.{is_short_text, start_rule, content_rule, file_rule, are_files};
ghost use Rattle.package_layout.specs.Valid.{files_rule, rows_rule, table_rule, are_tables, tables_rule};
ghost use Rattle.package_layout.specs.Valid.{refusal_rule, reply_rule, entry_rule, is_root_process, log_rule};
ghost use Rattle.package_layout.specs.Valid.{logs_rule};

use ldv_value::{
    Bytes, FILE_LIMIT, MAX_FILES, MAX_PARAMS, MAX_TABLES, Parts, RowList, TEXT_LIMIT, Utf8, Words,
    is_path, is_strictly_sorted,
};
use run_model::{Entry, Log, Logs, PackedFile, PackedFiles, PackedRows, PackedTable, PackedTables};
use sql_model::{
    Reply, SqlRefusal, are_rows, are_short, has_key_twice, have_parents, is_sql_name, meets_schema,
};
use std::alloc::{AllocError, Global};

/// Whether start words meet the rules.
pub(crate) fn is_valid_start(words: &Words) -> bool
    ensures { result ≡ start_rule words.now }
{
    match words.items() {
        [] => false,
        [word, rest @ ..] => is_path(word.as_str())
            && rest.len() <= 255
            && are_words_short(words.items()),
    }
}

fn are_words_short(words: &[Utf8]) -> bool
    ensures { result ≡ list_all is_short_text words.now }
{
    words.iter().all(|word| is_short_text(word))
}

fn is_short_text(text: &Utf8) -> bool
    ensures { result ≡ is_short_text text.now }
{
    text.len() <= TEXT_LIMIT
}

/// Whether files meet the rules and are sorted by path.
pub(crate) fn is_valid_files(files: &PackedFiles) -> bool
    ensures { result ≡ files_rule files.now }
{
    files.len() <= MAX_FILES && are_files(files)
}

fn are_files(files: &PackedFiles) -> bool
    ensures { result ≡ are_files files.now }
{
    each_file(files) && is_strictly_sorted(files.items())
}

fn each_file(files: &PackedFiles) -> bool
    ensures { result ≡ list_all file_rule files.now }
{
    files.items().iter().all(|file| is_valid_file(file))
}

fn is_valid_file(file: &PackedFile) -> bool
    ensures { result ≡ file_rule file.now }
{
    is_path(file.path.as_str()) && is_valid_content(&file.content)
}

fn is_valid_content(content: &Option<Bytes>) -> bool
    ensures { result ≡ content_rule content.now }
{
    match content {
        None => true,
        Some(bytes) => bytes.len() <= FILE_LIMIT,
    }
}

/// Whether tables meet the rules and are sorted by name. `AllocError` means out of memory only.
pub(crate) fn is_valid_tables(alloc: Global, tables: &PackedTables) -> Result<bool, AllocError>
    ensures { IfOk result (λ holds. holds ≡ tables_rule tables.now) }
{
    if tables.len() > MAX_TABLES {
        return Ok(false);
    }
    are_tables(alloc, tables)
}

fn are_tables(alloc: Global, tables: &PackedTables) -> Result<bool, AllocError>
    ensures { IfOk result (λ holds. holds ≡ are_tables tables.now) }
{
    if !each_table(alloc, tables)? {
        return Ok(false);
    }
    Ok(is_strictly_sorted(tables.items()) && have_parents(tables.items()))
}

fn each_table(alloc: Global, tables: &PackedTables) -> Result<bool, AllocError>
    ensures { IfOk result (λ holds. holds ≡ list_all table_rule tables.now) }
{
    for table in tables.items() {
        if !is_valid_table(alloc, table)? {
            return Ok(false);
        }
    }
    Ok(true)
}

fn is_valid_table(alloc: Global, table: &PackedTable) -> Result<bool, AllocError>
    ensures { IfOk result (λ holds. holds ≡ table_rule table.now) }
{
    if !is_sql_name(table.name.as_str()) {
        return Ok(false);
    }
    if !meets_schema(alloc, &table.schema)? {
        return Ok(false);
    }
    if !is_valid_rows(table) {
        return Ok(false);
    }
    Ok(!has_key_twice(alloc, &table.schema.key, table.rows.items())?)
}

fn is_valid_rows(table: &PackedTable) -> bool
    ensures { result ≡ rows_rule table.now }
{
    are_numbered(table.next, &table.rows)
        && are_rows(&table.schema.columns, table.rows.items())
        && each_row_short(&table.rows)
}

fn are_numbered(next: u32, rows: &PackedRows) -> bool
    ensures { result ≡ numbers_test (λ row. row.number) next rows.now }
{
    is_strictly_sorted(rows.items()) && are_below(next, rows)
}

fn are_below(next: u32, rows: &PackedRows) -> bool
    ensures { result ≡ list_all (λ row. nat_lt row.number next) rows.now }
{
    rows.items().iter().all(|row| row.number < next)
}

fn each_row_short(rows: &PackedRows) -> bool
    ensures { result ≡ list_all (λ row. list_all is_short row.values) rows.now }
{
    rows.items().iter().all(|row| are_short(&row.values))
}

/// Whether logs meet the rules and are sorted by process.
pub(crate) fn is_valid_logs(logs: &Logs) -> bool
    ensures { result ≡ logs_rule logs.now }
{
    each_log(logs) && is_strictly_sorted(logs.items())
}

fn each_log(logs: &Logs) -> bool
    ensures { result ≡ list_all log_rule logs.now }
{
    logs.items().iter().all(|log| is_valid_log(log))
}

fn is_valid_log(log: &Log) -> bool
    ensures { result ≡ log_rule log.now }
{
    is_root_process(&log.process.parts) && !log.entries.is_empty() && each_entry(log)
}

fn is_root_process(parts: &Parts) -> bool
    ensures { result ≡ is_root_process parts.now }
{
    match parts.items() {
        [] => false,
        [part, ..] => *part == 0,
    }
}

fn each_entry(log: &Log) -> bool
    ensures { result ≡ list_all entry_rule log.now.entries }
{
    log.entries
        .items()
        .iter()
        .all(|entry| is_valid_entry(entry))
}

fn is_valid_entry(entry: &Entry) -> bool
    ensures { result ≡ entry_rule entry.now }
{
    is_short_text(&entry.text)
        && entry.params.len() <= MAX_PARAMS
        && are_short(&entry.params)
        && is_valid_reply(&entry.reply)
}

fn is_valid_reply(reply: &Reply) -> bool
    ensures { result ≡ reply_rule reply.now }
{
    match reply {
        Reply::Rows(rows) => are_short_rows(rows),
        Reply::Changed(_) => true,
        Reply::Refused(refusal) => is_valid_refusal(refusal),
    }
}

fn are_short_rows(rows: &RowList) -> bool
    ensures { result ≡ list_all (list_all is_short) rows.now }
{
    rows.items().iter().all(|row| are_short(row))
}

fn is_valid_refusal(refusal: &SqlRefusal) -> bool
    ensures { result ≡ refusal_rule refusal.now }
{
    match refusal {
        SqlRefusal::KeyTaken { table: _, key } => are_short(key),
        SqlRefusal::NoParent { table: _, key } => are_short(key),
        SqlRefusal::HasChild { table: _, key } => are_short(key),
        _ => true,
    }
}
