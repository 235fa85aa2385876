//! The fault Limit: numbers of things and lengths.

ghost use Rattle.std.specs.Prelude.{◌≡◌, length, nat_le};
ghost use Rattle.std.specs.List.{list_all};
ghost use Rattle.ldv_value.specs.Limits.{file_limit, text_limit};
ghost use Rattle.sql_model.specs.Tables.{is_short};
ghost use Rattle.world_json.specs.Faults.{is_within, are_files_within, are_words_within, is_table_within};
ghost use Rattle.world_json.specs.Faults.{is_next_right};

use crate::document::{Document, Draft, Drafts};
use crate::rows::NumberedRows;
use ldv_value::{
    FILE_LIMIT, Files, MAX_FILES, MAX_NEXT, MAX_ROWS, MAX_START_WORDS, MAX_TABLES, TEXT_LIMIT,
    Words,
};
use sql_model::{MAX_FOREIGN, TableRow, are_short, meets_column_count};

/// Whether no limit is passed.
pub(crate) fn meets_limits(document: &Document) -> bool
    ensures { result ≡ is_within document.now }
{
    meets_file_limits(&document.files)
        && meets_word_limits(&document.start)
        && document.tables.len() <= MAX_TABLES
        && meets_table_limits(&document.tables)
}

fn meets_file_limits(files: &Files) -> bool
    ensures { result ≡ are_files_within files.now }
{
    files.len() <= MAX_FILES && are_files_short(files)
}

fn are_files_short(files: &Files) -> bool
    ensures { result ≡ list_all (λ file. nat_le (length file.content) file_limit) files.now }
{
    files
        .items()
        .iter()
        .all(|file| file.content.len() <= FILE_LIMIT)
}

fn meets_word_limits(words: &Words) -> bool
    ensures { result ≡ are_words_within words.now }
{
    words.len() <= MAX_START_WORDS && are_words_short(words)
}

fn are_words_short(words: &Words) -> bool
    ensures { result ≡ list_all (λ word. nat_le (length word) text_limit) words.now }
{
    words.items().iter().all(|word| word.len() <= TEXT_LIMIT)
}

fn meets_table_limits(tables: &Drafts) -> bool
    ensures { result ≡ list_all is_table_within tables.now }
{
    tables.items().iter().all(|table| meets_table_limit(table))
}

fn meets_table_limit(table: &Draft) -> bool
    ensures { result ≡ is_table_within table.now }
{
    meets_column_count(&table.columns)
        && table.foreign.len() <= MAX_FOREIGN
        && table.rows.len() <= MAX_ROWS
        && are_rows_short(&table.rows)
        && is_next_right(table)
}

// The next number is at least the number of rows, and at most `MAX_NEXT`.
fn is_next_right(table: &Draft) -> bool
    ensures { result ≡ is_next_right table.now }
{
    table.rows.len() as u64 <= table.next && table.next <= MAX_NEXT as u64
}

fn are_rows_short(rows: &NumberedRows) -> bool
    ensures { result ≡ list_all (list_all is_short) rows.now }
{
    is_each_short(rows.items())
}

fn is_each_short(rows: &[TableRow]) -> bool
    ensures { result ≡ list_all (λ row. list_all is_short row.values) rows.now }
{
    rows.iter().all(|row| are_short(&row.values))
}
