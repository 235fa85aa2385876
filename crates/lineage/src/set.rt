//! The set of rows that an answer row comes from.

ghost use Rattle.std.specs.Prelude.{◌≡◌, ◌<◌, IfOk, OnOk, OnErr, IfSome, MatchOption};
ghost use Rattle.std.specs.List.Sorted.{IsStrictlySortedBy};
ghost use Rattle.std.specs.Ordering.{nat_cmp};
ghost use Rattle.std.specs.Cmp.Lexicographic.{slice_cmp};
ghost use Rattle.std.specs.FinMap as finmap;
ghost use Rattle.sql_model.specs.MemberOrder.{member_cmp};
ghost use Rattle.lineage.specs.Lineage.{with_version, IsUnion, IsNamed, members_of};
ghost use Rattle.lineage.specs.RowBlock.{HasNone, IsBlock};

use crate::blocks::{Blocks, Row, with_member};
use crate::held::Held;
use crate::lineage_rows::LineageRows;
use crate::listing::list_blocks;
use crate::table_blocks::{
    add_row, add_rows, make_blocks_room, make_row_room, make_rows_room, unite,
};
use ldv_value::Names;
use sql_model::Members;
use std::alloc::{AllocError, Global};
use std::collections::BTreeMap;
use std::marker::Model;

/// Rows of tables, each at one version. A table is given by its place, from 0, among the names of all
/// tables.
///
/// The rows are bits in blocks of words, with the versions above 0 beside them. A block has no row only if
/// memory ran out before it was filled.
#[derive(Drop)]
pub struct LineageSet {
    alloc: Global,
    blocks: Blocks,
}

impl Model for LineageSet {
    ghost use Rattle.std.specs.FinMap as finmap;
    ghost use Rattle.lineage.specs.Lineage.{Lineage, lineage_code};
    ghost use Rattle.lineage.specs.inner.Blocks.{AreKept, all_rows};

    ghost Value = { Lineage };

    ghost coded = { lineage_code };

    ghost view = { λ a. finmap.from_entries (all_rows a.blocks) };

    ghost invariant = { λ a. AreKept a.blocks };
}

impl LineageSet {
    /// The empty set. It takes no memory.
    pub fn empty(alloc: Global) -> LineageSet
        ensures { result ≡ finmap.empty }
    {
        LineageSet {
            alloc,
            blocks: BTreeMap::new(alloc),
        }
    }

    /// Adds a row of a table at a version. A row that is in the set keeps its version. On
    /// `AllocError` the set is as it was.
    #[tactic(auto, using(crate::proofs::Seen::roomier_seen))]
    pub fn add(&mut self, table: u32, row: u32, version: u32) -> Result<(), AllocError>
        ensures ok { OnOk result (self.new ≡ with_version self.old (table, row) version) }
        ensures err { OnErr result (self.new ≡ self.old) }
    {
        make_row_room(self.alloc, &mut self.blocks, (table, row), version)?;
        add_row(&mut self.blocks, (table, row), version);
        Ok(())
    }

    /// Adds the rows of another set. A row that is in both keeps the version that it has here. On
    /// `AllocError` the set is as it was.
    #[tactic(auto, using(crate::proofs::Seen::roomier_seen))]
    pub fn union(&mut self, other: &LineageSet) -> Result<(), AllocError>
        ensures ok { OnOk result (IsUnion self.old other.now self.new) }
        ensures err { OnErr result (self.new ≡ self.old) }
    {
        make_blocks_room(self.alloc, &mut self.blocks, &other.blocks)?;
        unite(&mut self.blocks, &other.blocks);
        Ok(())
    }

    /// Adds other rows. A row that is in both keeps the version that it has here. On `AllocError` the set is
    /// as it was.
    pub fn add_rows(&mut self, other: &LineageRows) -> Result<(), AllocError>
        ensures ok { OnOk result (IsUnion self.old other.now self.new) }
        ensures err { OnErr result (self.new ≡ self.old) }
    {
        match other.held_rows() {
            Held::Few(rows) => self.add_list(rows.as_slice()),
            Held::Many(set) => self.union(set),
        }
    }

    /// Adds the rows of a list. A row that is in both keeps the version that it has here. On `AllocError` the
    /// set is as it was.
    #[tactic(auto, using(crate::proofs::Seen::roomier_seen))]
    pub(crate) fn add_list(&mut self, rows: &[(Row, u32)]) -> Result<(), AllocError>
        ensures ok { OnOk result (IsUnion self.old (finmap.from_entries rows.now) self.new) }
        ensures err { OnErr result (self.new ≡ self.old) }
    {
        make_rows_room(self.alloc, &mut self.blocks, rows)?;
        add_rows(&mut self.blocks, rows);
        Ok(())
    }

    /// The members of the set with the names of their tables, sorted by name and row. The names are those
    /// of all tables, sorted.
    pub fn members(&self, names: &Names) -> Result<Members, AllocError>
        requires named { IsNamed names.now self.now }
        requires sorted { IsStrictlySortedBy (slice_cmp nat_cmp) names.now }
        ensures members { IfOk result (λ members. members ≡ members_of names.now self.now) }
        ensures sorted { IfOk result (IsStrictlySortedBy member_cmp) }
    {
        list_blocks(self.alloc, names, &self.blocks)
    }

    /// The rows of a table from 65,536 * `block` on as 1,024 words: bit i of word j is set exactly if the row
    /// 65,536 * `block` + 64 * j + i is in the set. `None` exactly if none of these rows is. It takes no
    /// memory.
    pub fn block(&self, table: u32, block: u32) -> Option<&[u64]>
        ensures none { MatchOption result (HasNone self.now table block)
            (λ _. ¬ HasNone self.now table block) }
        ensures words { IfSome result (λ words. IsBlock self.now table block words.now) }
    {
        match self.blocks.get(&(table, block)) {
            None => None,
            Some(block) => with_member(block.words.as_slice()),
        }
    }
}
