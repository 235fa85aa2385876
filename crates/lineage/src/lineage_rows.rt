//! The rows that one pick or one answer row comes from, in a list while they are few.

ghost use Rattle.std.specs.Prelude.{◌≡◌, OnOk, OnErr};
ghost use Rattle.std.specs.FinMap as finmap;
ghost use Rattle.lineage.specs.inner.Held.{rows_held};
ghost use Rattle.lineage.specs.Lineage.{with_version, IsUnion};

use crate::held::{Held, add_to, unite_with};
use std::alloc::{AllocError, Global};
use std::marker::Model;

/// Rows of tables, each at one version, as in a `LineageSet`. A few rows take twelve bytes each, while a set
/// takes a block of words for each 65,536 rows that it touches. So many picks or answer rows can each have
/// their own. If there are more than 16,384, they are stored as a set.
#[derive(Drop)]
pub struct LineageRows {
    alloc: Global,
    held: Held,
}

impl Model for LineageRows {
    ghost use Rattle.lineage.specs.inner.Held.{rows_held};
    ghost use Rattle.lineage.specs.Lineage.{Lineage, lineage_code};

    ghost Value = { Lineage };

    ghost coded = { lineage_code };

    ghost view = { λ a. rows_held a.held };
}

impl LineageRows {
    /// The empty set. It takes no memory.
    pub fn empty(alloc: Global) -> LineageRows
        ensures { result ≡ finmap.empty }
    {
        LineageRows {
            alloc,
            held: Held::Few(Vec::new(alloc)),
        }
    }

    /// Adds a row of a table at a version. A row that is already in keeps its version. On `AllocError` the
    /// rows are as they were.
    pub fn add(&mut self, table: u32, row: u32, version: u32) -> Result<(), AllocError>
        ensures ok { OnOk result (self.new ≡ with_version self.old (table, row) version) }
        ensures err { OnErr result (self.new ≡ self.old) }
    {
        add_to(&mut self.held, (table, row), version)
    }

    /// Adds other rows. A row that is in both keeps the version that it has here. On `AllocError` the rows
    /// are as they were.
    pub fn union(&mut self, other: &LineageRows) -> Result<(), AllocError>
        ensures ok { OnOk result (IsUnion self.old other.now self.new) }
        ensures err { OnErr result (self.new ≡ self.old) }
    {
        unite_with(self.alloc, &mut self.held, &other.held)
    }

    /// The rows, as they are stored.
    pub(crate) fn held_rows(&self) -> &Held
        ensures { self.now ≡ rows_held result.now }
    {
        &self.held
    }
}
