//! The rows of blocks, listed with the names of their tables.

ghost use Rattle.std.specs.Prelude.{◌≡◌, ◌++◌, ◌+◌, ◌*◌, ◌<◌, ℕ, length, map, true, is_some};
ghost use Rattle.std.specs.Prelude.{IfOk, OnOk, IsTrue};
ghost use Rattle.std.specs.BTreeMap as tree;
ghost use Rattle.std.specs.List.Sorted.{IsStrictlySortedBy};
ghost use Rattle.std.specs.Map.{keys_of};
ghost use Rattle.lanes.specs.Sets.{member as has_member};
ghost use Rattle.lineage.specs.Lineage.{member, row_cmp};
ghost use Rattle.lineage.specs.inner.Blocks.{version_of, row_in, found_at, rows_from, rows_of_block};
ghost use Rattle.lineage.specs.inner.Blocks.{all_rows};
ghost use Rattle.lineage.specs.inner.Blocks.{IsKept, AreKept};
ghost use Rattle.lineage.specs.Lineage.{Row as Place};

use crate::blocks::{Block, Blocks, Row};
use crate::versions::version_at;
use lanes::next_one;
use ldv_value::Names;
use sql_model::{Member, Members};
use std::alloc::{AllocError, Global};

// A row at a version, with the name of its table.
fn member_of(names: &Names, row: Row, version: u32) -> Result<Member, AllocError>
    requires { row.0 < length names.now }
    ensures { IfOk result (λ made. made ≡ member names.now (row, version)) }
{
    match names.get(row.0 as usize) {
        Some(name) => Ok(Member {
            table: name.copy()?,
            row: row.1,
            version,
        }),
        None => unreachable!(),
    }
}

// The row n of a block.
fn member_at(names: &Names, place: (u32, u32), block: &Block, n: u64) -> Result<Member, AllocError>
    requires named { place.0 < length names.now }
    requires within { place.1 < 65536 }
    requires below { n < 65536 }
    ensures { IfOk result (λ made. made ≡ member names.now
        ((place.0, 65536 * place.1 + n), version_of block.now.versions n)) }
{
    let row = 65_536 * place.1 + n as u32;
    member_of(
        names,
        (place.0, row),
        version_at(&block.versions, n as usize),
    )
}

// Lists the rows of a block, up to a row that is past its last.
fn list_rows(
    members: &mut Members,
    names: &Names,
    place: (u32, u32),
    block: &Block,
    end: u64,
) -> Result<(), AllocError>
    requires kept { IsKept place block.now }
    requires named { (n : ℕ) → has_member block.now.words.items n ≡ true → place.0 < length names.now }
    requires end { end ≡ 65536 }
    ensures { OnOk result (members.new ≡ members.old
        ++ map (member names.now) (rows_from (row_in block.now) place.0 (65536 * place.1) end 0)) }
{
    let mut from = 0;
    'members: while let Some(n) = next_one(&block.words, from) {
        members.push(member_at(names, place, block, n)?)?;
        from = n + 1;
    }
    Ok(())
}

// Lists the rows of the block at a place.
fn list_at(
    members: &mut Members,
    names: &Names,
    blocks: &Blocks,
    place: (u32, u32),
) -> Result<(), AllocError>
    requires kept { AreKept blocks.now }
    requires named { (row : Place) → IsTrue (is_some (found_at blocks.now row)) → row.0 < length names.now }
    ensures { OnOk result (members.new ≡ members.old
        ++ map (member names.now) (rows_of_block (tree.get row_cmp blocks.now place) place)) }
{
    match blocks.get(&place) {
        None => Ok(()),
        Some(block) => list_rows(members, names, place, block, 65_536),
    }
}

/// All rows, in their order.
pub(crate) fn list_blocks(
    alloc: Global,
    names: &Names,
    blocks: &Blocks,
) -> Result<Members, AllocError>
    requires kept { AreKept blocks.now }
    requires named { (row : Place) → IsTrue (is_some (found_at blocks.now row)) → row.0 < length names.now }
    ensures members { IfOk result (λ members. members ≡ map (member names.now) (all_rows blocks.now)) }
    ensures sorted { IsStrictlySortedBy row_cmp (keys_of blocks.now.entries) }
{
    let mut members = Members::new(alloc);
    for (place, _block) in blocks.iter() {
        list_at(&mut members, names, blocks, *place)?;
    }
    Ok(members)
}
