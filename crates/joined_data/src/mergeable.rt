//! Files, tables and rows as items of merged lists: compared by path, by name and by number.

ghost use Rattle.std.specs.Prelude.{◌≡◌};
ghost use Rattle.std.specs.Option.{option_or};

use crate::merging::{Mergeable, merge_lists};
use ldv_value::Bytes;
use run_model::PackedFile;
use sql_model::{Table, TableRow};
use std::alloc::{AllocError, Global};
use std::cmp::Ordering;

fn whole_of(first: Option<Bytes>, second: Option<Bytes>) -> Option<Bytes>
    ensures { result ≡ option_or first second }
{
    match first {
        Some(bytes) => Some(bytes),
        None => second,
    }
}

impl Mergeable for PackedFile {
    ghost use Rattle.joined_data.specs.Joined.{file_cmp, both_files};

    ghost key_cmp = { file_cmp };

    ghost both = { both_files };

    fn compare(&self, other: &PackedFile) -> Ordering {
        self.path.as_str().cmp(other.path.as_str())
    }

    fn join(self, other: PackedFile, _alloc: Global) -> Result<PackedFile, AllocError> {
        let PackedFile { path, content } = self;
        let PackedFile {
            path: _,
            content: also,
        } = other;
        Ok(PackedFile {
            path,
            content: whole_of(content, also),
        })
    }
}

impl Mergeable for TableRow {
    ghost use Rattle.joined_data.specs.Joined.{row_cmp, both_rows};

    ghost key_cmp = { row_cmp };

    ghost both = { both_rows };

    fn compare(&self, other: &TableRow) -> Ordering {
        self.number.cmp(&other.number)
    }

    fn join(self, _other: TableRow, _alloc: Global) -> Result<TableRow, AllocError> {
        Ok(self)
    }
}

impl Mergeable for Table {
    ghost use Rattle.joined_data.specs.Joined.{table_cmp, both_tables};

    ghost key_cmp = { table_cmp };

    ghost both = { both_tables };

    fn compare(&self, other: &Table) -> Ordering {
        self.name.as_str().cmp(other.name.as_str())
    }

    fn join(self, other: Table, alloc: Global) -> Result<Table, AllocError> {
        let Table {
            name,
            schema,
            rows,
            next,
        } = self;
        let Table {
            name: _,
            schema: _,
            rows: others,
            next: _,
        } = other;
        Ok(Table {
            name,
            schema,
            rows: merge_lists(alloc, rows, others)?,
            next,
        })
    }
}
